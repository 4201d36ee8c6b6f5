// Pairs of orders, for a gauge at 72 and a memory at 80.
use orders::{Order, RawSegment};
use std::alloc::Global;

// What a case is about, and the orders of master 0 and 1.
#[derive(Clone, Copy)]
pub struct Case {
    pub name: &'static str,
    pub first: Order,
    pub second: Order,
}

// A Vec: no constant may call a function, and an array in a Result that holds a text has no proof yet.
pub fn cases(heap: Global) -> anyhow::Result<Vec<Case>> {
    Ok(vec![in heap;
        Case {
            name: "a write against a read of another address",
            first: Order::filled(&[RawSegment::write(80, 2)], &[0, 7])?,
            second: Order::filled(&[RawSegment::read(72, 1)], &[])?,
        },
        Case {
            name: "a write, then a read, against the same write alone",
            first: Order::filled(&[RawSegment::write(72, 1), RawSegment::read(72, 3)], &[1])?,
            second: Order::filled(&[RawSegment::write(72, 1)], &[1])?,
        },
        Case {
            name: "equal orders of three segments",
            first: Order::filled(
                &[
                    RawSegment::write(80, 2),
                    RawSegment::read(80, 2),
                    RawSegment::read(72, 1)
                ],
                &[1, 5]
            )?,
            second: Order::filled(
                &[
                    RawSegment::write(80, 2),
                    RawSegment::read(80, 2),
                    RawSegment::read(72, 1)
                ],
                &[1, 5]
            )?,
        },
        Case {
            name: "three bytes read against four",
            first: Order::filled(&[RawSegment::read(72, 3)], &[])?,
            second: Order::filled(&[RawSegment::read(72, 4)], &[])?,
        },
        Case {
            name: "nobody at 81 in the second segment, against a longer write",
            first: Order::filled(
                &[
                    RawSegment::write(80, 1),
                    RawSegment::write(81, 0),
                    RawSegment::read(80, 1)
                ],
                &[9]
            )?,
            second: Order::filled(&[RawSegment::write(80, 3)], &[9, 200, 13])?,
        },
        Case {
            name: "a byte that the gauge refuses, against 32 bytes read",
            first: Order::filled(
                &[RawSegment::write(72, 2), RawSegment::read(72, 1)],
                &[2, 255]
            )?,
            second: Order::filled(&[RawSegment::read(80, 32)], &[])?,
        },
        Case {
            name: "an empty write against a read of the same address",
            first: Order::filled(&[RawSegment::write(72, 0)], &[])?,
            second: Order::filled(&[RawSegment::read(72, 1), RawSegment::write(80, 1)], &[170])?,
        },
        Case {
            name: "four segments against four",
            first: Order::filled(
                &[
                    RawSegment::read(72, 1),
                    RawSegment::write(80, 1),
                    RawSegment::read(80, 1),
                    RawSegment::read(72, 1)
                ],
                &[3]
            )?,
            second: Order::filled(
                &[
                    RawSegment::read(72, 1),
                    RawSegment::write(80, 1),
                    RawSegment::read(80, 2),
                    RawSegment::write(80, 0)
                ],
                &[3],
            )?,
        },
    ]?)
}
