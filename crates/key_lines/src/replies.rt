// Output lines.
ghost use Rattle.std.specs.Prelude.{◌≡◌, [], ◌∷◌, take, IfOk, string_bytes};
ghost use Rattle.refusals.specs.Numbers.{returned as returned_by};
ghost use Rattle.orders.specs.Answers.{outcome_number, segment_at_fault, byte_at_fault};
ghost use Rattle.numerals.specs.Lines.{text as text_of};
ghost use Rattle.key_lines.specs.Kinds.{kind_number};

use crate::commands::Kind;
use numerals::text;
use orders::Answer;
use refusals::{Refusal, returned};
use std::alloc::{AllocError, Global};

// The line of a call that returns no more than whether it is done.
pub(crate) fn short_reply(
    heap: Global,
    kind: Kind,
    number: u16,
    res: Result<(), Refusal>,
) -> Result<String, AllocError>
    ensures { IfOk result (λ s. string_bytes s ≡ text_of (kind_number kind ∷ (number ∷ (returned_by res ∷ [])))) }
{
    text(
        heap,
        kind.number(),
        &[number, u16::from(returned(res))],
        &[],
    )
}

// What a line that asks for nothing gets.
pub(crate) fn wrong_line(heap: Global) -> Result<String, AllocError>
    ensures { IfOk result (λ s. string_bytes s ≡ text_of (0 ∷ (0 ∷ (19 ∷ [])))) }
{
    text(heap, 0, &[0, u16::from(Refusal::BadLine.number())], &[])
}

// The numbers of a collect that is done, between its kind and the bytes read.
fn collected_numbers(number: u16, answer: Answer) -> [u16; 7]
    ensures { result ≡ number ∷ (0 ∷ (outcome_number answer.outcome ∷ (segment_at_fault answer.outcome ∷ (byte_at_fault answer.outcome ∷ (answer.losses ∷ (answer.count ∷ [])))))) }
{
    [
        number,
        0,
        u16::from(answer.outcome.number()),
        u16::from(answer.outcome.segment()),
        u16::from(answer.outcome.byte()),
        answer.losses,
        u16::from(answer.count),
    ]
}

// The line of a collect that is done; the bytes read are the front of the buffer.
pub(crate) fn answer_reply(
    heap: Global,
    number: u16,
    answer: Answer,
    buffer: &[u8],
) -> Result<String, AllocError>
    ensures { IfOk result (λ s. string_bytes s ≡ text_of (5 ∷ (number ∷ (0 ∷ (outcome_number answer.outcome ∷ (segment_at_fault answer.outcome ∷ (byte_at_fault answer.outcome ∷ (answer.losses ∷ (answer.count ∷ take answer.count buffer.now))))))))) }
{
    let numbers = collected_numbers(number, answer);
    text(heap, Kind::Collect.number(), &numbers, answer.bytes(buffer))
}
