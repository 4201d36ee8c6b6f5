// Books of bytes and of rows.
use books::Book;

#[derive(Clone, Copy, Debug, PartialEq)]
struct Row {
    slot: u8,
    status: u8,
}

#[test]
fn a_full_book_keeps_its_bytes(rt: HostRuntime) {
    let mut places = [9; 3];
    let mut book = Book::new(&mut places[0..2]);
    let first = book.mark(7).is_ok();
    let second = book.mark(8).is_ok();
    let third = book.mark(5);
    let left = book.left();
    let total = book.close();
    assert!(rt; first && second);
    assert_eq!(rt; third.map_err(|refusal| refusal.number()), Err(22));
    assert_eq!(rt; left, 0);
    assert_eq!(rt; total, 2);
    assert_eq!(rt; places, [7, 8, 9]);
}

#[test]
fn rows_are_marks_too(rt: HostRuntime) {
    let empty = Row { slot: 0, status: 1 };
    let row = Row {
        slot: 4,
        status: 66,
    };
    let mut places = [empty; 4];
    let mut book = Book::new(&mut places);
    let marked = book.mark(row).is_ok();
    let counts = (book.total(), book.left());
    let total = book.close();
    assert!(rt; marked);
    assert_eq!(rt; counts, (1, 3));
    assert_eq!(rt; total, 1);
    assert_eq!(rt; places, [row, empty, empty, empty]);
}
