// A read of one byte of 72, slot by slot.
use books::Book;
use bus::Direction;
use reader::{Kind, Listed, Word, Words, acknowledged, address, direction, list, value};
use std::test::Fail;

const READ: [u8; 20] = [2, 3, 0, 0, 3, 0, 0, 0, 3, 0, 0, 0, 0, 3, 3, 0, 0, 3, 3, 1];

const NOTHING: Listed = Listed {
    kind: Kind::Start,
    place: 99,
};

fn missing() -> Result<(), Fail> {
    Err(Fail::new("another word was expected"))
}

#[test]
fn words_of_a_read(rt: HostRuntime) -> Result<(), Fail> {
    let Ok(mut words) = Words::of(&READ) else {
        return missing();
    };
    assert_eq!(rt; words.count(), 4);
    assert_eq!(rt; words.next(), Some(Word::Start { place: 0 }));
    let Some(Word::Byte { place, slots }) = words.next() else {
        return missing();
    };
    assert_eq!(rt; (place, address(slots)), (1, 72));
    assert_eq!(rt; direction(slots), Direction::Read);
    assert!(rt; acknowledged(slots));
    let Some(Word::Byte { place, slots }) = words.next() else {
        return missing();
    };
    assert_eq!(rt; (place, value(slots)), (10, 25));
    assert!(rt; !acknowledged(slots));
    assert_eq!(rt; words.next(), Some(Word::Stop { place: 19 }));
    assert_eq!(rt; words.next(), None);
    Ok(())
}

fn listed(kind: Kind, place: usize) -> Listed {
    Listed { kind, place }
}

#[test]
fn a_book_of_four_words(rt: HostRuntime) {
    let mut places = [NOTHING; 5];
    let mut book = Book::new(&mut places);
    let done = list(&READ, &mut book).is_ok();
    let total = book.close();
    let four = [
        listed(Kind::Start, 0),
        listed(Kind::Byte, 1),
        listed(Kind::Byte, 10),
        listed(Kind::Stop, 19),
        NOTHING,
    ];
    assert!(rt; done);
    assert_eq!(rt; total, 4);
    assert_eq!(rt; places, four);
    assert_eq!(rt; four.map(|listed| listed.kind.number()), [0, 2, 2, 1, 0]);
}

#[test]
fn a_book_of_three_is_too_small(rt: HostRuntime) {
    let mut places = [NOTHING; 3];
    let mut book = Book::new(&mut places);
    let done = list(&READ, &mut book);
    let total = book.close();
    assert_eq!(rt; total, 0);
    assert_eq!(rt; places[0], NOTHING);
    assert_eq!(rt; done.map_err(|refusal| refusal.number()), Err(22));
}
