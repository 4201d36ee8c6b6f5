// Handing an answer over, segment by segment.
ghost use Rattle.std.specs.Prelude.{◌≡◌, ◌+◌, ◌≤◌, min, ◌++◌, length, take, drop, if◌then◌else◌};
ghost use Rattle.std.specs.List.{between, sum_by};
ghost use Rattle.orders.specs.Held.{held};
ghost use Rattle.orders.specs.Orders.{read_of};
ghost use Rattle.orders.specs.Fills.{order_of};
ghost use Rattle.progress.specs.Handing.{put_at};
ghost use Rattle.progress.specs.Plans.{read_total};
ghost use Rattle.progress.specs.Meaning.{answer_in, handing, handed_into};

use super::Finished;
use bus::Direction;
use orders::{Answer, Bytes, Order, Outcome, Segment};
use refusals::Refusal;

// Copies the bytes to the front of a part of the buffer.
fn copy_into(part: &mut [u8], bytes: &[u8])
    requires { length bytes.now ≤ length part.old }
    ensures { part.new ≡ bytes.now ++ drop (length bytes.now) part.old }
{
    let n = bytes.len();
    part[0..n].copy_from_slice(bytes);
}

// A read segment's bytes, of those that there are, go straight after the earlier ones; where the next ones go is returned.
fn hand_part(segment: Segment, bytes: &Bytes, buffer: &mut [u8], at: usize) -> usize
    requires { (at ≤ length (held bytes.now)) × (32 ≤ length buffer.old) }
    ensures next { result ≡ (if read_of segment.direction then min (at + segment.count) (length (held bytes.now)) else at) }
    ensures after { buffer.new ≡ put_at buffer.old at (between at result (held bytes.now)) }
{
    let Direction::Read = segment.direction else {
        return at;
    };
    let bytes = bytes.as_slice();
    let next = (at + segment.count as usize).min(bytes.len());
    copy_into(&mut buffer[at..], &bytes[at..next]);
    next
}

// How many bytes they read.
fn read_count(segments: &[Segment]) -> usize
    requires { length segments.now ≤ 4 }
    ensures { result ≡ sum_by (λ s. if read_of s.direction then s.count else 0) segments.now }
{
    segments
        .iter()
        .map(|s| match s.direction {
            Direction::Write => 0,
            Direction::Read => usize::from(s.count),
        })
        .sum()
}

// Of the bytes, no more than the order reads.
fn cut(order: &Order, bytes: &Bytes) -> Bytes
    ensures bytes { held result ≡ take (read_total (order_of order.now)) (held bytes.now) }
    ensures few { length (held result) ≤ read_total (order_of order.now) }
    ensures whole { (length (held bytes.now) ≤ read_total (order_of order.now)) → held result ≡ held bytes.now }
{
    let bytes = bytes.as_slice();
    let kept = read_count(order.segments()).min(bytes.len());
    Bytes::copied(&bytes[..kept])
}

impl Finished {
    // Of the bytes, no more are kept than the order reads.
    pub fn new(order: Order, outcome: Outcome, losses: u16, bytes: Bytes) -> Finished
        ensures answer { answer_in result ≡ record { outcome = outcome; losses = losses; bytes = take (read_total (order_of order)) (held bytes) } }
        ensures whole { (length (held bytes) ≤ read_total (order_of order)) → answer_in result ≡ record { outcome = outcome; losses = losses; bytes = held bytes } }
    {
        let bytes = cut(&order, &bytes);
        Finished {
            order,
            outcome,
            losses,
            bytes,
        }
    }

    fn hand_over(&self, buffer: &mut [u8])
        requires { 32 ≤ length buffer.old }
        ensures { buffer.new ≡ held self.now.bytes ++ drop (length (held self.now.bytes)) buffer.old }
    {
        let mut at = 0;
        for segment in self.order.segments() {
            at = hand_part(*segment, &self.bytes, buffer, at);
        }
    }

    // The bytes of each read segment go into their own part of the buffer; the rest is untouched.
    pub fn collect(&self, buffer: &mut [u8]) -> Result<Answer, Refusal>
        ensures answer { result ≡ handing (length buffer.old) (answer_in self.now) }
        ensures bytes { buffer.new ≡ handed_into buffer.old (answer_in self.now) }
    {
        if buffer.len() < 32 {
            return Err(Refusal::ShortBuffer);
        }
        self.hand_over(buffer);
        Ok(Answer {
            outcome: self.outcome,
            losses: self.losses,
            count: self.bytes.len(),
        })
    }
}
