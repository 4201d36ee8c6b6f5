// Histories of marks, and how two of them compare.
#![tactic(auto)]

ghost use Rattle.std.specs.Prelude.{◌≡◌, ℕ, ◌<◌, ◌≤◌};
ghost use Rattle.std.specs.Ordering.{MatchOrdering};
ghost use Rattle.history.specs.Marks.{Marks, mark, Less, Same};

mod bytes;
pub mod contests;

pub use bytes::Byte;
use std::cmp::Ordering;

// A kind of mark that has a total order and a greatest mark.
pub trait Mark: Copy {
    ghost marks: { Marks Self };

    // Marks compare as their ranks do. A method, and no `Ord` of the type: its order as a mark may be another than its own.
    fn against(self, other: Self) -> Ordering
        ensures { MatchOrdering result (marks.rank self < marks.rank other) (self ≡ other) (marks.rank other < marks.rank self) };

    // The mark that no other is above.
    fn greatest() -> Self
        ensures { result ≡ marks.top };
}

// The mark at a place; an ended history goes on with the greatest mark.
fn mark_at<M: Mark>(history: &[M], place: usize) -> M
    ensures { result ≡ mark M.marks history.now place }
{
    history.get(place).copied().unwrap_or_else(|| M::greatest())
}

// An ended history against what another goes on with: no mark is above the greatest.
fn ended_against<M: Mark>(rest: &[M]) -> Ordering
    ensures { MatchOrdering result ⊥ ((k : ℕ) → mark M.marks rest.now k ≡ M.marks.top) ((k : ℕ) × ((j : ℕ) → j < k → mark M.marks rest.now j ≡ M.marks.top) × (M.marks.rank (mark M.marks rest.now k) < M.marks.rank M.marks.top)) }
{
    for m in rest {
        match M::greatest().against(*m) {
            Ordering::Equal => {}
            found => return found,
        }
    }
    Ordering::Equal
}

// Two histories, by the first mark where they differ.
pub fn compare<M: Mark>(a: &[M], b: &[M]) -> Ordering
    ensures { MatchOrdering result (Less M.marks a.now b.now) (Same M.marks a.now b.now) (Less M.marks b.now a.now) }
{
    for (i, m) in a.iter().enumerate() {
        match (*m).against(mark_at(b, i)) {
            Ordering::Equal => {}
            found => return found,
        }
    }
    match b.get(a.len()..) {
        Some(rest) => ended_against(rest),
        None => Ordering::Equal,
    }
}
