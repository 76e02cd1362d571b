//! A history that repeats the kept events of another, one by one.
ghost use Rattle.std.specs.Prelude.{◌≡◌, ◌∷◌, ◌++◌, [], ℕ, List, OnOk};
ghost use Rattle.rev_events.specs.Machine.{after};
ghost use Rattle.rev_history.specs.Timeline.{state_at};
ghost use Rattle.rev_suspects.specs.Past.{IsPast};

use rev_events::{Event, Fault};
use rev_history::History;
use std::alloc::AllocError;

// Accepts an event under the next number.
#[tactic(auto, using(crate::proofs::PastLemmas::next_state))]
fn accept_next(past: &mut History, event: &Event) -> Result<(), AllocError>
    ensures manifest { OnOk result (past.new.timeline.manifest ≡ past.old.timeline.manifest) }
    ensures jobs { OnOk result (past.new.timeline.jobs ≡ past.old.timeline.jobs) }
    ensures state { OnOk result (state_at past.new.timeline
        ≡ after past.old.timeline.manifest (state_at past.old.timeline) event.now) }
{
    let last = past.last();
    let _kept = past.kept();
    // There are as many numbers as the other history has, and each of its events is accepted in its turn.
    if last == u32::MAX {
        return Err(AllocError);
    }
    match past.accept(last + 1, event) {
        Ok(()) => Ok(()),
        Err(Fault::Refused(_)) => Err(AllocError),
        Err(Fault::Memory) => Err(AllocError),
    }
}

/// Repeats the event of one more kept number in `past`.
///
/// # Errors
/// [`AllocError`] only where an allocation was refused.
pub(crate) fn follow(history: &History, number: u32, past: &mut History) -> Result<(), AllocError>
    ensures { OnOk result ((ks : List ℕ) → IsPast history.now.timeline ks past.old.timeline
        → IsPast history.now.timeline (ks ++ number ∷ []) past.new.timeline) }
{
    let Some(event) = history.event(number) else {
        return Ok(());
    };
    accept_next(past, event)?;
    Ok(())
}
