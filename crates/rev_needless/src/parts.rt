//! Whether one set of orders is a part of another.
ghost use Rattle.std.specs.Prelude.{◌≡◌, ℕ, true, IsTrue};
ghost use Rattle.rev_ranks.specs.Sets.{is_marked};
ghost use Rattle.rev_needless.specs.Laws.{IsPart};
ghost use Rattle.rev_needless.specs.Without.{marks_in};

use crate::left::marks_of;
use crate::marks::{implies, mark_at};

// Whether each place of a list that has a mark has one in another.
fn is_row_part(part: &[bool], whole: &[bool]) -> bool
    ensures { IsTrue result → ((k : ℕ) → is_marked part.now k ≡ true → is_marked whole.now k ≡ true) }
{
    for place in 0..part.len() {
        let has_one = mark_at(part, place);
        let has_other = mark_at(whole, place);
        let holds = implies(has_one, has_other);
        if !holds {
            return false;
        }
    }
    true
}

/// Whether each order that has a mark in the one has one in the other.
pub(crate) fn is_part(part: &[Vec<bool>], whole: &[Vec<bool>]) -> bool
    ensures { IsTrue result → (IsPart (marks_in part.now) (marks_in whole.now)) }
{
    for node in 0..part.len() {
        let row = marks_of(part, node);
        let other = marks_of(whole, node);
        let holds = is_row_part(row, other);
        if !holds {
            return false;
        }
    }
    true
}
