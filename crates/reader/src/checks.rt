// Whether a record follows the turns.
ghost use Rattle.std.specs.Prelude.{◌≡◌, true, is_ok, MatchOption, MatchResult};
ghost use Rattle.refusals.specs.Numbers.{number};
ghost use Rattle.reader.specs.Records.{Whole, Against, Leads};
ghost use Rattle.reader.specs.Refusals.{Wrong};

use bus::{Symbol, Turn};
use refusals::Refusal;

// Where a slot of that rank leads, or None where it is against the turns.
fn follow(turn: Turn, rank: u8) -> Option<Turn>
    ensures { MatchOption result (Against turn rank) (λ u. Leads turn rank u) }
{
    let symbol = Symbol::try_from(rank).ok()?;
    turn.allows(symbol).then(|| turn.next(symbol))
}

// Whether a record follows the turns and ends on a free bus.
pub fn check(slots: &[u8]) -> Result<(), Refusal>
    ensures cases { MatchResult result (λ _. Whole slots.now) (λ e. Wrong slots.now e (number e)) }
    ensures exactly { Whole slots.now → is_ok result ≡ true }
{
    let mut turn = Turn::Free;
    let mut left = slots;
    // slot by slot off the front, as the turns are defined: what is left has to follow them from here
    while let [first, rest @ ..] = left {
        let Some(next) = follow(turn, *first) else {
            return Err(Refusal::AgainstTurns {
                place: slots.len() - left.len(),
            });
        };
        turn = next;
        left = rest;
    }
    if turn.is_busy() {
        return Err(Refusal::Unfinished);
    }
    Ok(())
}
