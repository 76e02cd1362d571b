//! Where two runs of a command part.
ghost use Rattle.std.specs.Prelude.{◌≡◌, ◌≢◌, ◌↔◌, ◌<◌, ◌≤◌, ℕ, Decides, length, slice_index_or, IfNone, IfSome};
ghost use Rattle.rev_contents.specs.Kinds.{IsKind};
ghost use Rattle.rev_contents.specs.Rising.{IsRising};
ghost use Rattle.rev_contents.specs.Runs.{DiffersAt, NoneDiffers};

use crate::looks::{Left, Look};

// The first look from a place in the list on that is not at a lower place.
fn first_from(looks: &[Look], from: usize, place: usize) -> usize
    requires { from ≤ length looks.now }
    ensures from { from ≤ result }
    ensures to { result ≤ length looks.now }
    ensures passed { (k : ℕ) (d : Look) → from ≤ k → k < result → (slice_index_or looks.now k d).place < place }
    ensures stopped { (d : Look) → result < length looks.now → place ≤ (slice_index_or looks.now result d).place }
{
    let mut at = from;
    while at < looks.len() && looks[at].place < place {
        at += 1;
    }
    at
}

/// The first place at which both looked and that answered them otherwise; `None` where they agree. It takes time linear
/// in both lists.
pub fn disagreement(one: &[Look], other: &[Look]) -> Option<usize>
    requires one_rises { IsRising one.now }
    requires other_rises { IsRising other.now }
    ensures agree { IfNone result (NoneDiffers one.now other.now) }
    ensures differ { IfSome result (λ place. DiffersAt one.now other.now place) }
{
    let mut at = 0;
    for look in one {
        at = first_from(other, at, look.place);
        if at < other.len()
            && other[at].place == look.place
            && !look.answer.is_like(other[at].answer)
        {
            return Some(look.place);
        }
    }
    None
}

/// Whether two runs left the same contents at the same places, each list in one order.
pub fn leave_the_same(one: &[Left], other: &[Left]) -> bool
    ensures { Decides result (one.now ≡ other.now) }
{
    one == other
}

/// What two runs of one command say of it.
#[derive(Clone, Copy, Debug, PartialEq, Eq)]
pub enum Kind {
    /// It saw the same, and left the same.
    Same,
    /// It saw the same, wherever both looked, and left other contents: it is not deterministic.
    FirstCause,
    /// Some place answered otherwise, and it left other contents.
    Propagated,
    /// Some place answered otherwise, and it left the same.
    Absorbed,
}

/// The kind of two runs, by what they met and what they left. It takes time linear in all four lists.
pub fn kind_of(one: &[Look], one_left: &[Left], other: &[Look], other_left: &[Left]) -> Kind
    requires one_rises { IsRising one.now }
    requires other_rises { IsRising other.now }
    ensures { IsKind one.now one_left.now other.now other_left.now result }
{
    let is_same = leave_the_same(one_left, other_left);
    match disagreement(one, other) {
        None if is_same => Kind::Same,
        None => Kind::FirstCause,
        Some(_) if is_same => Kind::Absorbed,
        Some(_) => Kind::Propagated,
    }
}
