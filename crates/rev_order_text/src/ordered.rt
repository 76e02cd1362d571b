//! What another order of events makes.
ghost use Rattle.std.specs.Prelude.{◌≡◌, IfOk};
ghost use Rattle.rev_history.specs.Timeline.{event_at};
ghost use Rattle.rev_order_text.specs.Ordered.{IsOrdered, ordered_of, outcome_of, run_again, said_again, said_by, said_event};

use rev_events::{Fault, Refusal};
use rev_history::{History, Order};
use std::alloc::AllocError;

/// What another order of events makes.
#[derive(Clone, Copy)]
pub enum Ordered {
    /// How the history that they make stands to the kept one.
    Ran(Order),
    /// The event of this number is refused there, and why; no refusal where a journal has no room for it.
    Refused(u32, Option<Refusal>),
}

// Accepts the event of a number in another history, under the next number there; or the number, and why it is refused.
fn say(
    history: &History,
    other: &mut History,
    number: u32,
) -> Result<Option<(u32, Option<Refusal>)>, AllocError>
    ensures { IfOk result (λ refused. said_event other.old.timeline number (event_at history.now.timeline number)
        ≡ said_by refused other.new.timeline) }
{
    let Some(event) = history.event(number) else {
        return Ok(Some((number, Some(Refusal::NoSuchEvent))));
    };
    let Some(next) = other.last().checked_add(1) else {
        return Ok(Some((number, None)));
    };
    match other.accept(next, event) {
        Ok(()) => Ok(None),
        Err(Fault::Refused(refusal)) => Ok(Some((number, Some(refusal)))),
        Err(Fault::Memory) => Err(AllocError),
    }
}

// Accepts the events of numbers in another history, in their order; or the first number whose event it refuses, and
// why.
fn say_again(
    history: &History,
    other: &mut History,
    numbers: &[u32],
) -> Result<Option<(u32, Option<Refusal>)>, AllocError>
    ensures { IfOk result (λ refused. said_again history.now.timeline other.old.timeline numbers.now
        ≡ said_by refused other.new.timeline) }
{
    for number in numbers {
        if let Some(refused) = say(history, other, *number)? {
            return Ok(Some(refused));
        }
    }
    Ok(None)
}

/// What the accepted events of these numbers make. They run from the opening, in this order, in a history of their own,
/// and that history is compared with the kept events. Time is linear in the events and their footprints, up to hashing.
///
/// # Errors
/// [`AllocError`] only where an allocation was refused.
pub fn run_in_order(history: &History, numbers: &[u32]) -> Result<Ordered, AllocError>
    // What it says of the two histories.
    ensures meaning { IfOk result (λ ordered. IsOrdered history.now.timeline
        (run_again history.now.timeline numbers.now) ordered) }
    // It is what a function of the history and the numbers says.
    ensures exact { IfOk result (λ ordered. outcome_of ordered
        ≡ ordered_of history.now.timeline (run_again history.now.timeline numbers.now)) }
{
    let mut other = history.reopened()?;
    let refused = say_again(history, &mut other, numbers)?;
    match refused {
        None => {
            let order = history.same_order(&other)?;
            Ok(Ordered::Ran(order))
        }
        Some((number, why)) => Ok(Ordered::Refused(number, why)),
    }
}
