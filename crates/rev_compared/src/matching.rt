//! Which event of another history is the one of a number here.
ghost use Rattle.std.specs.Prelude.{◌≡◌, IfOk, option_and_then};
ghost use Rattle.rev_runs.specs.Edges.{edge_of_event as edge_by_event};
ghost use Rattle.rev_history.specs.Timeline.{event_at};
ghost use Rattle.rev_compared.specs.Matched.{edge_at as edge_at_number, match_between, match_in as match_in_edge, match_of as match_of_number, matched_of};

use crate::alone::{last_at, twin_last};
use crate::lasts::Last;
use rev_history::History;
use rev_runs::edge_of_event;
use std::alloc::{AllocError, Global};

// The number there of what stands under a number here, by a run here and one there.
fn matched_in(number: u32, last: Last, other: Last) -> Option<u32>
    ensures { result ≡ match_between number last other }
{
    if last.began == number {
        return Some(other.began);
    }
    if last.ended == Some(number) {
        return other.ended;
    }
    None
}

// The same, by the edge of the number's event.
fn match_in(
    lasts: &[Option<Last>],
    twins: &[Option<u32>],
    others: &[Option<Last>],
    number: u32,
    edge: u32,
) -> Option<u32>
    ensures { result ≡ match_in_edge lasts.now twins.now others.now number edge }
{
    let last = last_at(lasts, edge)?;
    let other = twin_last(twins, others, edge)?;
    matched_in(number, last, other)
}

// The edge of the event of a number.
fn edge_at(history: &History, number: u32) -> Option<u32>
    ensures { result ≡ edge_at_number history.now.timeline number }
{
    let event = history.event(number)?;
    edge_of_event(history.graph(), event)
}

// The number there of the event of a number here.
fn match_of(
    history: &History,
    lasts: &[Option<Last>],
    twins: &[Option<u32>],
    others: &[Option<Last>],
    number: u32,
) -> Option<u32>
    ensures { result ≡ match_of_number history.now.timeline lasts.now twins.now others.now number }
{
    let edge = edge_at(history, number)?;
    match_in(lasts, twins, others, number, edge)
}

/// For each number of an event of a history, from 0, the number of the same event of another history, or `None`. The
/// start of the last run of an edge is the start of the last run of its twin, and its end is the end of that run.
/// `lasts` are the last runs of the edges, `twins` their twins in the other graph, and `others` the last runs of the
/// edges there.
///
/// # Errors
/// [`AllocError`] only where an allocation was refused.
pub fn matched(
    alloc: Global,
    history: &History,
    lasts: &[Option<Last>],
    twins: &[Option<u32>],
    others: &[Option<Last>],
) -> Result<Vec<Option<u32>>, AllocError>
    ensures { IfOk result (λ matched. matched.items
        ≡ matched_of history.now.timeline lasts.now twins.now others.now) }
{
    let mut all = Vec::new(alloc);
    let last = history.last();
    all.push(match_of(history, lasts, twins, others, 0))?;
    for passed in 0..last {
        all.push(match_of(history, lasts, twins, others, passed + 1))?;
    }
    Ok(all)
}
