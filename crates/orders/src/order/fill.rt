// How an order is made of numbers.
ghost use Rattle.std.specs.Prelude.{◌≡◌, ◌+◌, ◌≤◌, [], ◌∷◌, length, if◌then◌else◌, ◌≢◌, nat_eq};
ghost use Rattle.orders.specs.Orders.{writing};
ghost use Rattle.refusals.specs.Numbers.{returned};
ghost use Rattle.orders.specs.Tests.{every};
ghost use Rattle.orders.specs.Fills.{order_of, good_address, good_direction, good_count, kind_of, writes, counts, write_counts, refused, asked, Filled, written as written_of};

use super::Order;
use crate::{Bytes, RawSegment, Segment};
use array_vec::ArrayVec;
use bus::{Direction, is_address};
use refusals::Refusal;

impl RawSegment {
    pub fn write(address: u16, count: u16) -> Self
        ensures { result ≡ record { address = address; direction = 0; count = count } }
    {
        RawSegment {
            address,
            direction: 0,
            count,
        }
    }

    pub fn read(address: u16, count: u16) -> Self
        ensures { result ≡ record { address = address; direction = 1; count = count } }
    {
        RawSegment {
            address,
            direction: 1,
            count,
        }
    }

    // What it asks for, if its number is one of the two.
    fn kind(&self) -> Option<Direction>
        ensures { result ≡ kind_of self.now }
    {
        match self.direction {
            0 => Some(Direction::Write),
            1 => Some(Direction::Read),
            _ => None,
        }
    }

    // How many bytes it writes.
    fn written(&self) -> u16
        ensures { result ≡ writes self.now }
    {
        match self.kind() {
            Some(Direction::Write) => self.count,
            _ => 0,
        }
    }
}

// Rows of the table that are checked segment by segment.

fn have_addresses(segments: &[RawSegment]) -> bool
    ensures { result ≡ every good_address segments.now }
{
    segments.iter().all(|s| is_address(s.address))
}

fn have_directions(segments: &[RawSegment]) -> bool
    ensures { result ≡ every good_direction segments.now }
{
    segments.iter().all(|s| s.kind().is_some())
}

fn have_counts(segments: &[RawSegment]) -> bool
    ensures { result ≡ every good_count segments.now }
{
    segments
        .iter()
        .all(|s| s.kind() != Some(Direction::Read) || s.count >= 1)
}

// How many bytes they have, written or read.
fn counted(segments: &[RawSegment]) -> u32
    requires { length segments.now ≤ 4 }
    ensures { result ≡ counts segments.now }
{
    segments.iter().map(|s| u32::from(s.count)).sum()
}

fn write_counted(segments: &[RawSegment]) -> u32
    requires { length segments.now ≤ 4 }
    ensures { result ≡ write_counts segments.now }
{
    segments.iter().map(|s| u32::from(s.written())).sum()
}

// The checks, row by row down the table.
fn check(segments: &[RawSegment], bytes: &[u8]) -> Result<(), Refusal>
    ensures { returned result ≡ refused segments.now bytes.now }
{
    if segments.len() < 1 || segments.len() > 4 {
        return Err(Refusal::SegmentCount);
    }
    if !have_addresses(segments) {
        return Err(Refusal::BadAddress);
    }
    if !have_directions(segments) {
        return Err(Refusal::BadDirection);
    }
    if !have_counts(segments) {
        return Err(Refusal::EmptyRead);
    }
    if counted(segments) > 32 {
        return Err(Refusal::TooManyBytes);
    }
    if bytes.len() != write_counted(segments) as usize {
        return Err(Refusal::WriteBytes);
    }
    Ok(())
}

// Writes a segment whose bytes begin at `at`; where those of the next one begin.
fn write_segment(segment: &mut Segment, from: RawSegment, at: u8) -> u8
    requires { (from.address ≤ 119) × (at + from.count ≤ 32) }
    ensures next { result ≡ at + writes from }
    ensures segment { segment.new ≡ written_of from at }
{
    segment.address = from.address as u8;
    segment.count = from.count as u8;
    segment.at = at;
    segment.direction = from.kind().unwrap_or(Direction::Read);
    at + from.written() as u8
}

impl Order {
    // The empty write to address 8.
    pub fn new() -> Self
        ensures { order_of result ≡ writing 8 [] ∷ [] }
    {
        Order {
            segments: ArrayVec::from_slice(&[Segment::NOTHING], Segment::NOTHING),
            bytes: Bytes::new(),
        }
    }

    // Checks, then rewrites the order whole; a refusal alters nothing.
    pub fn fill(&mut self, segments: &[RawSegment], bytes: &[u8]) -> Result<(), Refusal>
        ensures returned { returned result ≡ refused segments.now bytes.now }
        ensures after { order_of self.new ≡ (if nat_eq (returned result) 0 then asked segments.now bytes.now else order_of self.old) }
        ensures kept { (returned result ≢ 0) → self.new ≡ self.old }
    {
        check(segments, bytes)?;
        // A copy of the order's own table, since no element can be lent of one inside a struct that has a ghost field.
        let mut copy = self.segments.to_array();
        let mut at = 0;
        // By index: a proof knows no element that iter_mut lends.
        for (i, s) in segments.iter().enumerate() {
            at = write_segment(&mut copy[i], *s, at);
        }
        *self = Order {
            segments: ArrayVec::from_slice(&copy[..segments.len()], Segment::NOTHING),
            bytes: Bytes::copied(bytes),
        };
        Ok(())
    }

    // A new order of these segments and bytes, or why there is none.
    pub fn filled(segments: &[RawSegment], bytes: &[u8]) -> Result<Order, Refusal>
        ensures { Filled result segments.now bytes.now }
    {
        let mut order = Order::new();
        order.fill(segments, bytes)?;
        Ok(order)
    }
}
