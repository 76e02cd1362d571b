//! Removal of events from the fields of a history.
ghost use Rattle.std.specs.Prelude.{◌≡◌, ℕ, Some, length, true};
ghost use Rattle.rev_accesses.specs.Thinned.{AreThinned, IsGone};
ghost use Rattle.rev_causal.specs.Chosen.{IsRising, is_among};
ghost use Rattle.rev_causal.specs.History.{event_at};
ghost use Rattle.rev_causal.specs.Store.{Footprint as Print};
ghost use Rattle.rev_history.specs.Steps.{place_prints};
ghost use Rattle.rev_history.specs.Removal.{IsConeHere, IsFreeHere, TakesConeOut, TakesOut};

use crate::steps::{Step, step_of};
use indexmap::IndexMap;
use rev_accesses::Accesses;
use rev_cells::Cells;
use rev_events::Event;

// Removes a member from the lists of the footprint that stands beside its event; may remove other members too.
fn remove_member(
    number: u32,
    members: &[u32],
    accepted: &IndexMap<u32, Event>,
    steps: &[Option<Step>],
    accesses: &mut Accesses,
)
    requires many { length steps.now ≡ length accepted.now.entries }
    requires rising { IsRising members.now }
    requires member { is_among members.now number ≡ true }
    ensures thinned { AreThinned members.now accesses.old accesses.new }
    ensures gone { (f : Print ℕ)
        → event_at number (place_prints accepted.now.entries steps.now) ≡ Some f
        → IsGone number f accesses.new }
{
    if let Some(step) = step_of(accepted, steps, number) {
        accesses.remove_members(number, members, &step.places);
    }
}

/// Removes members from the access lists of the footprints that stand beside their events. Where the members are many,
/// each list is gone through once for all of them. It takes no memory.
pub(crate) fn remove_members(
    members: &[u32],
    accepted: &IndexMap<u32, Event>,
    steps: &[Option<Step>],
    accesses: &mut Accesses,
)
    requires many { length steps.now ≡ length accepted.now.entries }
    requires rising { IsRising members.now }
    ensures thinned { AreThinned members.now accesses.old accesses.new }
    ensures gone { (n : ℕ) (f : Print ℕ) → is_among members.now n ≡ true
        → event_at n (place_prints accepted.now.entries steps.now) ≡ Some f
        → IsGone n f accesses.new }
{
    for member in members {
        remove_member(*member, members, accepted, steps, accesses);
    }
}

/// Restores what the event replaced and drops its step. No kept event may depend on it. The caller removes its number
/// from the kept numbers and from the access lists. It takes no memory.
pub(crate) fn put_back(
    number: u32,
    accepted: &IndexMap<u32, Event>,
    steps: &mut Vec<Option<Step>>,
    cells: &mut Cells,
)
    requires { IsFreeHere number accepted.now.entries steps.old.items cells.old }
    ensures { TakesOut number accepted.now.entries steps.old.items cells.old steps.new.items cells.new }
{
    let Some(index) = accepted.get_index_of(&number) else {
        unreachable!()
    };
    let Some(mut step) = steps[index].take() else {
        unreachable!()
    };
    cells.exchange_at(step.places.written(), &mut step.replaced);
}

/// Restores what the members of a cone replaced and drops their steps, from the last down: no kept event depends on the
/// last, and without it the others are the cone. It takes no memory.
pub(crate) fn put_all_back(
    members: &[u32],
    accepted: &IndexMap<u32, Event>,
    steps: &mut Vec<Option<Step>>,
    cells: &mut Cells,
)
    requires { IsConeHere members.now accepted.now.entries steps.old.items cells.old }
    ensures { TakesConeOut members.now accepted.now.entries steps.old.items cells.old steps.new.items cells.new }
{
    let mut left = members.len();
    while left > 0 {
        left -= 1;
        put_back(members[left], accepted, steps, cells);
    }
}
