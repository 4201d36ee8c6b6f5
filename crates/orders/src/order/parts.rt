// What an order has, part by part.
ghost use Rattle.std.specs.Prelude.{◌≡◌, ◌+◌, ◌≤◌, true, false, map, length, slice_index, slice_index_or};
ghost use Rattle.array_vec.specs.Items.{items_of};
ghost use Rattle.orders.specs.Orders.{Lawful, address_of, direction_of, count as count_of, bytes_of, nothing};
ghost use Rattle.orders.specs.Fills.{order_of};
ghost use Rattle.orders.specs.Held.{held};
ghost use Rattle.orders.specs.Tables.{meant};

use super::Order;
use crate::Segment;
use bus::Direction;

impl Order {
    pub fn len(&self) -> u8
        ensures len { result ≡ length (order_of self.now) }
        ensures lawful { Lawful (order_of self.now) }
    {
        self.segments.len() as u8
    }

    // Its segments, in order.
    pub fn segments(&self) -> &[Segment]
        ensures held { result.now ≡ items_of self.now.segments }
        ensures means { map (meant (held self.now.bytes)) result.now ≡ order_of self.now }
    {
        self.segments.as_slice()
    }

    // The segment with this number; past the end, the empty write to address 8.
    pub fn segment(&self, i: u8) -> Segment
        ensures address { result.address ≡ address_of (slice_index_or (order_of self.now) i nothing) }
        ensures direction { result.direction ≡ direction_of (slice_index_or (order_of self.now) i nothing) }
        ensures count { result.count ≡ count_of (slice_index_or (order_of self.now) i nothing) }
        ensures small { (result.count ≤ 32) × (result.at + result.count ≤ 32) }
        ensures means { meant (held self.now.bytes) result ≡ slice_index_or (order_of self.now) i nothing }
    {
        self.segments()
            .get(usize::from(i))
            .copied()
            .unwrap_or(Segment::NOTHING)
    }

    // The byte j that the segment i writes, or 0.
    pub fn byte(&self, i: u8, j: u8) -> u8
        ensures { result ≡ slice_index (bytes_of (slice_index_or (order_of self.now) i nothing)) j }
    {
        let segment = self.segment(i);
        match segment.direction {
            Direction::Write if j < segment.count => self.bytes.at(segment.at + j),
            _ => 0,
        }
    }
}
