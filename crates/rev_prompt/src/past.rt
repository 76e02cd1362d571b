//! The state in which an edge was planned.
ghost use Rattle.std.specs.Prelude.{◌≡◌, ◌∷◌, ℕ, if◌then◌else◌, false, IfOk, IfSome, List, None, OnOk, Some, nat_lt};
ghost use Rattle.std.specs.Option.{option_copied};
ghost use Rattle.rev_history.specs.Timeline.{event_at};
ghost use Rattle.rev_plan.specs.Chain.{has_wanted_mark};
ghost use Rattle.rev_events.specs.Machine.{after, refusal};
ghost use Rattle.rev_prompt.specs.Past.{IsLed, IsOpeningOf, IsPlanned, IsPlannedBy, is_plan as is_plan_event, is_plan_before as is_plan_below, plan_before as plan_before_of, plan_of as plan_of_run, state_by as state_by_of};

use crate::answers::Span;
use rev_cells::{Cell, Cells, Mark, Opening, Value};
use rev_events::{Event, Fault, effect_if_accepted};
use rev_graph::Graph;
use rev_history::History;
use std::alloc::{AllocError, Global};

// Whether an event is a plan.
fn is_plan(event: Option<&Event>) -> bool
    ensures { result ≡ is_plan_event (option_copied event.entry) }
{
    match event {
        Some(Event::Plan(_)) => true,
        _ => false,
    }
}

// Whether a kept number is below another, and its event is a plan.
fn is_plan_before(history: &History, number: u32, kept: u32) -> bool
    ensures { result ≡ is_plan_below history.now.timeline number kept }
{
    kept < number && is_plan(history.event(kept))
}

// The later one of a number that passes and of the last such before it.
fn later(passes: bool, number: u32, last: Option<u32>) -> Option<u32>
    ensures { result ≡ (if passes then Some number else last) }
{
    if passes {
        return Some(number);
    }
    last
}

// The last kept plan under a lower number.
fn plan_before(history: &History, number: u32) -> Option<u32>
    ensures { result ≡ plan_before_of history.now.timeline number }
{
    let mut plan = None;
    for kept in history.kept() {
        plan = later(is_plan_before(history, number, *kept), *kept, plan);
    }
    plan
}

// Whether the present plan wants an edge.
fn is_wanted(cells: &Cells, edge: u32) -> bool
    ensures { result ≡ has_wanted_mark cells.now.state edge }
{
    match cells.get(&Cell::Mark(edge)) {
        Some(Value::Mark(Mark::Wanted)) => true,
        _ => false,
    }
}

/// The last kept plan.
pub(crate) fn last_plan(history: &History) -> Option<u32>
    ensures { result ≡ plan_before_of history.now.timeline 4294967295 }
{
    plan_before(history, u32::MAX)
}

/// The plan by which `why` answers of an edge with this last run: the last one before the run. `None`, and so the
/// present state, where the edge never ran or the present plan wants it.
pub(crate) fn plan_of(history: &History, edge: u32, run: Option<Span>) -> Option<u32>
    ensures { result ≡ plan_of_run history.now.timeline edge run }
{
    let run = run?;
    if is_wanted(history.cells(), edge) {
        return None;
    }
    plan_before(history, run.began)
}

// Carries an event out in a state, where that accepts it.
fn follow(alloc: Global, graph: &Graph, cells: &mut Cells, event: &Event) -> Result<(), AllocError>
    ensures jobs { cells.new.jobs ≡ cells.old.jobs }
    ensures state { refusal graph.now.manifest cells.old.jobs cells.old.state event.now ≡ None
        → OnOk result (cells.new.state ≡ after graph.now.manifest cells.old.state event.now) }
{
    match effect_if_accepted(alloc, graph, cells, event) {
        Ok(writes) => {
            cells.write_all(writes)?;
            Ok(())
        }
        Err(Fault::Refused(_)) => Ok(()),
        Err(Fault::Memory) => Err(AllocError),
    }
}

// Carries the event of a number out.
fn follow_number(
    alloc: Global,
    history: &History,
    cells: &mut Cells,
    number: u32,
) -> Result<(), AllocError>
    ensures { OnOk result ((last : ℕ) (ks : List ℕ) → nat_lt last number ≡ false
        → IsLed history.now.timeline last (number ∷ ks) cells.old → IsLed history.now.timeline last ks cells.new) }
{
    match history.event(number) {
        Some(event) => follow(alloc, history.graph(), cells, event),
        None => Ok(()),
    }
}

/// The state after the kept events up to a number, from the opening, which is that of the history.
///
/// # Errors
/// [`AllocError`] only where an allocation was refused.
pub fn state_by(
    alloc: Global,
    history: &History,
    opening: &Opening,
    last: u32,
) -> Result<Cells, AllocError>
    ensures { IsOpeningOf history.now.timeline opening.now
        → IfOk result (λ cells. cells.state ≡ state_by_of history.now.timeline last) }
{
    let mut cells = Cells::new(alloc, opening)?;
    for number in history.kept() {
        if *number > last {
            return Ok(cells);
        }
        follow_number(alloc, history, &mut cells, *number)?;
    }
    Ok(cells)
}

/// The state after a plan.
pub(crate) struct Planned {
    /// The number of the plan.
    pub(crate) plan: u32,
    /// What each cell holds after it.
    pub(crate) cells: Cells,
}

// Written, since a derived drop is proved again at each exit of each caller.
impl Drop for Planned {
    fn drop(self) {
        let Planned {
            plan: _plan,
            cells: _cells,
        } = self;
    }
}

/// The state after a plan, from the opening, which is that of the history. It is worked out anew, unless it is the one
/// that was kept.
///
/// # Errors
/// [`AllocError`] only where an allocation was refused.
pub(crate) fn state_after(
    alloc: Global,
    history: &History,
    opening: &Opening,
    plan: u32,
    kept: Option<Planned>,
) -> Result<Planned, AllocError>
    requires { IsOpeningOf history.now.timeline opening.now → IfSome kept (IsPlanned history.now.timeline) }
    ensures { IsOpeningOf history.now.timeline opening.now
        → IfOk result (IsPlannedBy history.now.timeline plan) }
{
    if let Some(planned) = kept {
        if planned.plan == plan {
            return Ok(planned);
        }
    }
    let cells = state_by(alloc, history, opening, plan)?;
    Ok(Planned { plan, cells })
}
