//! The rows of a timeline.
ghost use Rattle.std.specs.Prelude.{◌≡◌, length, map, IfOk, IsPermutation};
ghost use Rattle.std.specs.List.Sorted.{IsNonDecreasingBy};
ghost use Rattle.rev_timeline.specs.Ran.{AreRows, spans_of};

use crate::ran::{Ran, timed};
use rev_history::History;
use rev_lanes::{Lanes, Span, lanes_of};
use std::alloc::{AllocError, Global};

/// The runs of a timeline, and their lanes.
#[derive(Drop)]
pub struct Rows {
    /// The runs, by the times when they began.
    pub ran: Vec<Ran>,
    /// For each run its lane.
    pub lanes: Lanes,
}

// The times of runs.
fn spans_of(alloc: Global, ran: &[Ran]) -> Result<Vec<Span>, AllocError>
    ensures { IfOk result (λ spans. spans.items ≡ spans_of ran.now) }
{
    let mut spans = Vec::new(alloc);
    for one in ran {
        spans.push(one.span)?;
    }
    Ok(spans)
}

// Runs by the times when they began; of those that began at one time in the order of the events that began them.
fn by_beginning(ran: Vec<Ran>) -> Result<Vec<Ran>, AllocError>
    ensures same { IfOk result (λ sorted. IsPermutation ran.items sorted.items) }
    ensures rising { IfOk result (λ sorted. IsNonDecreasingBy (λ (r : Ran). r.span.from) sorted.items) }
{
    let mut sorted = ran;
    sorted.sort_by_key(|one| one.span.from)?;
    Ok(sorted)
}

/// The kept runs of a history whose starts have times, each once, in lanes in which no two of them overlap. `times` has a
/// time for each number of an event, where one is known.
///
/// # Errors
/// [`AllocError`] only where an allocation was refused.
pub fn rows_of(alloc: Global, history: &History, times: &[Option<u32>]) -> Result<Rows, AllocError>
    ensures rows { IfOk result (λ rows.
        AreRows history.now.timeline times.now rows.ran.items rows.lanes.of.items rows.lanes.count) }
    ensures each { IfOk result (λ rows. length rows.lanes.of.items ≡ length rows.ran.items) }
{
    let ran = by_beginning(timed(alloc, history, times)?)?;
    let spans = spans_of(alloc, &ran)?;
    let lanes = lanes_of(alloc, &spans)?;
    Ok(Rows { ran, lanes })
}
