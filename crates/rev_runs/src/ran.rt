//! The runs of commands.
ghost use Rattle.std.specs.Prelude.{◌≡◌, ◌∷◌, ◌++◌, ◌<◌, ℕ, List, length, None, slice_index_or, IfOk, OnOk};
ghost use Rattle.rev_runs.specs.Runs.{AreSized, IsFound, edge_of, ended_by, run_of, runs_of};

use crate::steps::{Step, is_kept, step_of};
use rev_events::Event;
use rev_graph::Graph;
use rev_history::History;
use std::alloc::{AllocError, Global};

/// One run of an edge's command.
#[derive(Clone, Copy, Debug, PartialEq, Eq)]
pub struct Run {
    /// The number of the edge.
    pub edge: u32,
    /// The number of the job on which the command ran.
    pub job: u32,
    /// The number of the start event.
    pub began: u32,
    /// The number of the event that ended the command, well or not. `None` where the command still runs.
    pub ended: Option<u32>,
    /// Whether the start event is kept.
    pub kept: bool,
}

/// For each edge the number of its nearest end, over the events that were looked at so far. The search goes from the
/// last event to the first, so a start that is met later removes the end. Kept events and undone events have a list
/// each.
pub(crate) struct Ends {
    pub(crate) kept: Vec<Option<u32>>,
    pub(crate) undone: Vec<Option<u32>>,
}

impl Drop for Ends {
    fn drop(self) {
        let Ends {
            kept: _kept,
            undone: _undone,
        } = self;
    }
}

// What stands at a place, and nothing past the last.
fn at(numbers: &[Option<u32>], edge: u32) -> Option<u32>
    ensures { result ≡ slice_index_or numbers.now edge None }
{
    if edge as usize >= numbers.len() {
        return None;
    }
    numbers[edge as usize]
}

// Notes a step of an event, and its run where it begins one.
fn add_step(
    number: u32,
    step: Step,
    kept: bool,
    ends: &mut Vec<Option<u32>>,
    runs: &mut Vec<Run>,
) -> Result<(), AllocError>
    requires { edge_of step < length ends.old.items }
    ensures runs { OnOk result (runs.new.items
        ≡ runs.old.items ++ run_of number (slice_index_or ends.old.items (edge_of step) None) kept step) }
    ensures size { OnOk result (length ends.new.items ≡ length ends.old.items) }
    ensures ends { OnOk result ((edge : ℕ) → slice_index_or ends.new.items edge None
        ≡ ended_by edge number step (slice_index_or ends.old.items edge None)) }
{
    match step {
        Step::Begin { edge, job } => {
            let ended = at(ends, edge);
            runs.push(Run {
                edge,
                job,
                began: number,
                ended,
                kept,
            })?;
            ends[edge as usize] = None;
        }
        Step::End { edge } => ends[edge as usize] = Some(number),
    }
    Ok(())
}

// Notes the event of a number.
fn add_number(
    history: &History,
    number: u32,
    ends: &mut Ends,
    runs: &mut Vec<Run>,
) -> Result<(), AllocError>
    requires sized { AreSized history.now.timeline.manifest ends.old }
    ensures sized { OnOk result (AreSized history.now.timeline.manifest ends.new) }
    ensures found { OnOk result ((ns : List ℕ) → IsFound history.now.timeline ns ends.old runs.old.items
        → IsFound history.now.timeline (number ∷ ns) ends.new runs.new.items) }
{
    let Some(event) = history.event(number) else {
        return Ok(());
    };
    let Some(step) = step_of(history.graph(), event) else {
        return Ok(());
    };
    if is_kept(history, number) {
        return add_step(number, step, true, &mut ends.kept, runs);
    }
    add_step(number, step, false, &mut ends.undone, runs)
}

/// All runs of a history's accepted events, in the order of their start events. A run is a start with the next end of
/// the same edge. Where another start of the edge comes before that end, the run has no end. A kept start ends by a
/// kept event, and an undone start by an undone event.
///
/// The events are looked at once, from the last to the first.
///
/// # Errors
/// [`AllocError`] only where an allocation was refused.
pub fn runs(alloc: Global, history: &History) -> Result<Vec<Run>, AllocError>
    ensures { IfOk result (λ runs. runs.items ≡ runs_of history.now.timeline) }
{
    let edges = history.graph().edges() as usize;
    let mut ends = Ends {
        kept: vec![in alloc; None; edges]?,
        undone: vec![in alloc; None; edges]?,
    };
    let mut runs = Vec::new(alloc);
    let last = history.last();
    for passed in 0..last {
        add_number(history, last - passed, &mut ends, &mut runs)?;
    }
    runs.reverse();
    Ok(runs)
}
