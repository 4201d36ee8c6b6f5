// The order of a line. A line of 47 numbers has room for 14 segments, or for 44 bytes.
ghost use Rattle.std.specs.Prelude.{◌≡◌, ℕ, ◌≤◌, true, false, List, ◌++◌, length, MatchOption};
ghost use Rattle.array_vec.specs.Items.{items_of};
ghost use Rattle.orders.specs.declared.RawSegment.{RawSegment as Raw};
ghost use Rattle.orders.specs.Tests.{every, is_byte};
ghost use Rattle.orders.specs.Fills.{Filled};
ghost use Rattle.key_lines.specs.Commands.{segment_numbers};

use array_vec::ArrayVec;
use orders::{Order, RawSegment};
use refusals::Refusal;

// So many segments and the numbers after them, unless there are too few numbers.
pub(crate) fn read_segments(
    many: u16,
    numbers: &[u16],
) -> Option<(ArrayVec<RawSegment, 14>, &[u16])>
    requires { length numbers.now ≤ 44 }
    ensures { MatchOption result
        ((ss : List Raw) (bs : List ℕ) → length ss ≡ many → numbers.now ≡ segment_numbers ss ++ bs → ⊥)
        (λ p. (length (items_of p.0) ≡ many) × (numbers.now ≡ segment_numbers (items_of p.0) ++ p.1.now)) }
{
    let mut segments = ArrayVec::new(RawSegment {
        address: 0,
        direction: 0,
        count: 0,
    });
    let mut left = numbers;
    for _ in 0..many {
        let (&[address, direction, count], rest) = left.split_first_chunk::<3>()?;
        let segment = RawSegment {
            address,
            direction,
            count,
        };
        segments.push(segment).ok()?;
        left = rest;
    }
    Some((segments, left))
}

// The bytes that the numbers are, if all of them are bytes.
// A loop of its own beside the one above, which takes three numbers at a time and stops at a count.
pub(crate) fn read_bytes(numbers: &[u16]) -> Option<ArrayVec<u8, 44>>
    requires { length numbers.now ≤ 44 }
    ensures { MatchOption result (every is_byte numbers.now ≡ false) (λ bs. (every is_byte numbers.now ≡ true) × (items_of bs ≡ numbers.now)) }
{
    let mut bytes = ArrayVec::new(0);
    for n in numbers {
        bytes.push(u8::try_from(*n).ok()?).ok()?;
    }
    Some(bytes)
}

// A new order of the segments and bytes that were read, or why there is none.
pub(crate) fn filled(
    segments: &ArrayVec<RawSegment, 14>,
    bytes: &ArrayVec<u8, 44>,
) -> Result<Order, Refusal>
    ensures { Filled result (items_of segments.now) (items_of bytes.now) }
{
    Order::filled(segments.as_slice(), bytes.as_slice())
}
