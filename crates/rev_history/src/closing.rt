//! The members of a cone.
ghost use Rattle.std.specs.Prelude.{◌≡◌, ℕ, true, [], ◌∷◌, length, IfOk, IsSome, OnOk, Some};
ghost use Rattle.std.specs.List.{AllByRecursion};
ghost use Rattle.std.specs.Ordering.{nat_cmp};
ghost use Rattle.rev_accesses.specs.Closing.{cone_behind};
ghost use Rattle.rev_accesses.specs.Following.{IsFollowed};
ghost use Rattle.rev_accesses.specs.Value.{Shows};
ghost use Rattle.rev_causal.specs.Chosen.{IsRising, chosen, is_among};
ghost use Rattle.rev_causal.specs.History.{event_at};
ghost use Rattle.rev_causal.specs.Store.{Footprint as Print};
ghost use Rattle.rev_history.specs.Steps.{HaveSteps, place_prints};

use crate::steps::{Step, step_of};
use indexmap::IndexMap;
use rev_accesses::{Accesses, Pending};
use rev_events::Event;
use std::alloc::{AllocError, Global};

// Adds to the pending numbers those that lead to each kept number above a member whose event conflicts with the
// member's.
fn follow_member(
    pending: &mut Pending,
    member: u32,
    kept: &[u32],
    accepted: &IndexMap<u32, Event>,
    steps: &[Option<Step>],
    accesses: &Accesses,
) -> Result<(), AllocError>
    requires many { length steps.now ≡ length accepted.now.entries }
    requires rising { IsRising kept.now }
    requires beside { HaveSteps accepted.now.entries steps.now kept.now }
    requires among { is_among kept.now member ≡ true }
    requires shown { Shows accesses.now
        (chosen (place_prints accepted.now.entries steps.now) kept.now) }
    ensures { OnOk result ((f : Print ℕ)
        → event_at member (place_prints accepted.now.entries steps.now) ≡ Some f
        → IsFollowed (chosen (place_prints accepted.now.entries steps.now) kept.now) member f
        pending.old pending.new) }
{
    match step_of(accepted, steps, member) {
        Some(step) => accesses.follow(pending, member, &step.places, kept),
        None => Ok(()),
    }
}

/// A kept number, and each number above it whose event conflicts with that of a member, in their order. A number that
/// is found in the lists of a member waits until it is the least that waits.
pub(crate) fn cone(
    alloc: Global,
    number: u32,
    kept: &[u32],
    accepted: &IndexMap<u32, Event>,
    steps: &[Option<Step>],
    accesses: &Accesses,
) -> Result<Vec<u32>, AllocError>
    requires many { length steps.now ≡ length accepted.now.entries }
    requires rising { IsRising kept.now }
    requires beside { HaveSteps accepted.now.entries steps.now kept.now }
    requires shown { Shows accesses.now
        (chosen (place_prints accepted.now.entries steps.now) kept.now) }
    requires among { is_among kept.now number ≡ true }
    ensures { IfOk result (λ members. members.items
        ≡ number
        ∷ cone_behind nat_cmp number (place_prints accepted.now.entries steps.now) (number ∷ []) kept.now) }
{
    let mut members = Vec::new(alloc);
    let mut pending = Pending::new(alloc);
    members.push(number)?;
    follow_member(&mut pending, number, kept, accepted, steps, accesses)?;
    while let Some(member) = pending.next() {
        members.push(member)?;
        follow_member(&mut pending, member, kept, accepted, steps, accesses)?;
    }
    Ok(members)
}
