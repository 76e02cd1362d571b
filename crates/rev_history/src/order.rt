//! Whether two histories of the same events are equivalent.
ghost use Rattle.std.specs.Prelude.{◌≡◌, ◌&&◌, length, IfOk};
ghost use Rattle.std.specs.Ordering.{nat_cmp};
ghost use Rattle.rev_accesses.specs.Value.{Shows};
ghost use Rattle.rev_causal.specs.Chosen.{IsRising, chosen};
ghost use Rattle.rev_causal.specs.OrderCheck.{pair_answer};
ghost use Rattle.rev_causal.specs.Store.{conflict};
ghost use Rattle.rev_order.specs.Pairs.{inverted_pair};
ghost use Rattle.rev_history.specs.Order.{answer_of};
ghost use Rattle.rev_history.specs.Steps.{HaveSteps, place_prints};

use crate::steps::{Step, step_of};
use indexmap::IndexMap;
use rev_accesses::Accesses;
use rev_events::Event;
use std::alloc::{AllocError, Global};

/// Whether the events of two histories lead from one to the other by exchanges of neighbours that do not depend on each
/// other (Mazurkiewicz traces).
#[derive(Clone, Copy, Debug, PartialEq, Eq)]
pub enum Order {
    /// The openings differ, or the kept events do, or how often one of them is kept.
    EventsDiffer,
    /// The kept events are equivalent.
    Same,
    /// The events of these kept numbers depend on each other, and stand the other way round in the other history: of
    /// all such pairs the one with the least first number, and of these the least second one.
    Pair(u32, u32),
}

// The lists of the steps of some kept events.
pub(crate) fn accesses_of(
    alloc: Global,
    numbers: &[u32],
    accepted: &IndexMap<u32, Event>,
    steps: &[Option<Step>],
) -> Result<Accesses, AllocError>
    requires many { length steps.now ≡ length accepted.now.entries }
    requires rising { IsRising numbers.now }
    requires beside { HaveSteps accepted.now.entries steps.now numbers.now }
    ensures { IfOk result (λ accesses. Shows accesses
        (chosen (place_prints accepted.now.entries steps.now) numbers.now)) }
{
    let mut accesses = Accesses::new(alloc);
    for number in numbers {
        let Some(step) = step_of(accepted, steps, *number) else {
            unreachable!()
        };
        accesses.put(*number, &step.places)?;
    }
    Ok(accesses)
}

// The first pair of kept events that conflict and stand the other way round by the places of their numbers.
pub(crate) fn pair_by_places(
    places: &[u32],
    kept: &[u32],
    accepted: &IndexMap<u32, Event>,
    steps: &[Option<Step>],
    accesses: &Accesses,
) -> Option<(u32, u32)>
    requires many { length steps.now ≡ length accepted.now.entries }
    requires rising { IsRising kept.now }
    requires beside { HaveSteps accepted.now.entries steps.now kept.now }
    requires shown { Shows accesses.now
        (chosen (place_prints accepted.now.entries steps.now) kept.now) }
    ensures { result ≡ inverted_pair (conflict nat_cmp) places.now
        (chosen (place_prints accepted.now.entries steps.now) kept.now) }
{
    let Some(first) = accesses.first_inverted(places, kept) else {
        return None;
    };
    let Some(step) = step_of(accepted, steps, first) else {
        unreachable!()
    };
    match accesses.partner(places, first, &step.places, kept) {
        Some(second) => Some((first, second)),
        None => None,
    }
}

/// What the order check answers where the kept events are matched.
pub(crate) fn first_pair(
    places: &[u32],
    kept: &[u32],
    accepted: &IndexMap<u32, Event>,
    steps: &[Option<Step>],
    accesses: &Accesses,
) -> Order
    requires many { length steps.now ≡ length accepted.now.entries }
    requires rising { IsRising kept.now }
    requires beside { HaveSteps accepted.now.entries steps.now kept.now }
    requires shown { Shows accesses.now
        (chosen (place_prints accepted.now.entries steps.now) kept.now) }
    ensures { answer_of result ≡ pair_answer (inverted_pair (conflict nat_cmp) places.now
        (chosen (place_prints accepted.now.entries steps.now) kept.now)) }
{
    match pair_by_places(places, kept, accepted, steps, accesses) {
        Some((first, second)) => Order::Pair(first, second),
        None => Order::Same,
    }
}

/// Whether both of two tests hold.
pub(crate) fn both(first: bool, second: bool) -> bool
    ensures { result ≡ (first && second) }
{
    first && second
}
