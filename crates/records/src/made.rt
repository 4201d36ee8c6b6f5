// Records, slot by slot: S, P, 0 and 1; a space divides bytes and means nothing, x is no symbol.
use std::alloc::{AllocError, Global};

// A read of one byte of 72: 25, which the master does not acknowledge.
pub const READ: &str = "S 1001000 1 0 00011001 1 P";

// 7 written to 80, a repeated start, and 200 read from 80.
pub const REPEATED_START: &str = "S 1010000 0 0 00000111 0 S 1010000 1 0 11001000 1 P";

// The same without its P.
pub const CUT_OFF: &str = "S 1010000 0 0 00000111 0 S 1010000 1 0 11001000 1";

pub const RECORDS: [&str; 19] = [
    READ,
    REPEATED_START,
    // three contests, with free slots before, between and after: nobody at 81; nobody at 8; at 80 a byte that is not acknowledged
    "11 S 1010001 0 1 P 111 S 0001000 1 1 P S 1010000 0 0 00000000 1 S 1010000 0 1 P 11",
    // no word: no slot, and a free bus
    "",
    "111",
    // nothing but S and 1 may stand on a free bus
    "x",
    "110S",
    "P",
    // S in an address byte; the second offence does not count
    "S 10 S x P",
    // 1 after an address that is not acknowledged
    "S 1001000 0 1 1",
    // P where the slave's byte begins
    "S 1001000 1 0 P",
    // S on the ninth slot of a byte
    "S 1010000 0 0 11111111 S",
    // P again after P
    "S 1010000 0 1 P P",
    // an offence in a record that is not finished either
    "1 S 11 P",
    // no symbol, in the second contest
    "S 1010000 0 1 P 1 S x",
    // cut off after S, in a byte, at a border, and after a repeated start
    "S",
    "1 S 10010",
    "S 1010000 0 0",
    "S 1010000 0 0 S",
];

fn rank(slot: u8) -> u8 {
    match slot {
        b'0' => 0,
        b'P' => 1,
        b'S' => 2,
        b'1' => 3,
        _ => 4,
    }
}

// The ranks of the slots.
pub fn ranks(heap: Global, text: &str) -> Result<Vec<u8>, AllocError> {
    text.bytes()
        .filter(|slot| *slot != b' ')
        .map(rank)
        .collect(heap)
}

// 100,000 slots: S, 80 written, 11,109 bytes of 85, P, and 8 free slots.
pub fn long(heap: Global) -> Result<Vec<u8>, AllocError> {
    let mut slots = Vec::new(heap);
    slots.extend_from_slice(&[2, 3, 0, 3, 0, 0, 0, 0, 0, 0])?;
    for _ in 0..11109 {
        slots.extend_from_slice(&[0, 3, 0, 3, 0, 3, 0, 3, 0])?;
    }
    slots.extend_from_slice(&[1, 3, 3, 3, 3, 3, 3, 3, 3])?;
    Ok(slots)
}
