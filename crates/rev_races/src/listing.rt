//! What edges list.
ghost use Rattle.std.specs.Prelude.{◌≡◌, ◌<◌, ◌==◌, ℕ, List, Some, false, true, length, slice_get, option_and_then, IfOk, IfSome};
ghost use Rattle.std.specs.Option.{option_copied, option_map};
ghost use Rattle.rev_cells.specs.declared.value.DepsRecord.{DepsRecord};
ghost use Rattle.rev_dirty.specs.Reasons.{holds};
ghost use Rattle.rev_history.specs.Timeline.{kept_events};
ghost use Rattle.rev_races.specs.Answer.{AreNoted, is_noted};
ghost use Rattle.rev_races.specs.Races.{lists};

use crate::race::Race;
use rev_cells::DepsRecord;
use rev_dirty::deps_record;
use rev_events::Event;
use rev_graph::Graph;
use rev_history::History;
use rev_paths::Name;
use std::alloc::{AllocError, Global};

// The edge whose command an event begins, or, where that is asked, ends well.
fn noted(graph: &Graph, event: &Event, ended: bool) -> Option<u32>
    ensures edge { (edge : ℕ) → holds (λ n. n == edge) result ≡ is_noted graph.now.manifest ended edge event.now }
    ensures within { IfSome result (λ edge. edge < length graph.now.manifest.builds) }
{
    match event {
        Event::Start { out, .. } => { if ended { None } else { graph.producer(out) } }
        Event::Finish { out, .. } => { if ended { graph.producer(out) } else { None } }
        _ => None,
    }
}

// For each edge whether its command began in the kept events, or, where that is asked, ended well in them.
fn noted_edges(alloc: Global, history: &History, ended: bool) -> Result<Vec<bool>, AllocError>
    ensures { IfOk result (λ marks. AreNoted history.now.timeline ended marks.items) }
{
    let graph = history.graph();
    let mut marks = vec![in alloc; false; graph.edges() as usize]?;
    for number in history.kept() {
        if let Some(event) = history.event(*number) {
            if let Some(edge) = noted(graph, event, ended) {
                marks[edge as usize] = true;
            }
        }
    }
    Ok(marks)
}

/// For each edge whether its command began in the kept events.
///
/// # Errors
/// [`AllocError`] only where an allocation was refused.
pub fn started_edges(alloc: Global, history: &History) -> Result<Vec<bool>, AllocError>
    ensures { IfOk result (λ marks. AreNoted history.now.timeline false marks.items) }
{
    noted_edges(alloc, history, false)
}

/// For each edge whether its command ended well in the kept events.
///
/// # Errors
/// [`AllocError`] only where an allocation was refused.
pub fn finished_edges(alloc: Global, history: &History) -> Result<Vec<bool>, AllocError>
    ensures { IfOk result (λ marks. AreNoted history.now.timeline true marks.items) }
{
    noted_edges(alloc, history, true)
}

// What a deps record lists.
fn paths_of(deps: Option<&DepsRecord>) -> Option<&[Name]>
    ensures { option_copied result ≡ option_map (λ (deps : DepsRecord). deps.paths) (option_copied deps.entry) }
{
    match deps {
        Some(deps) => Some(deps.paths.as_slice()),
        None => None,
    }
}

/// What an edge lists, where it keeps deps and has a list. It is the list of the edge's last kept finish. Where no
/// finish of it is kept, it is the list that the deps record of its first output had at the start. This takes constant
/// time up to hashing.
pub fn listed(history: &History, edge: u32) -> Option<&[Name]>
    requires { edge < length history.now.timeline.manifest.builds }
    ensures { option_copied result
        ≡ lists history.now.timeline.manifest history.now.timeline.opening (kept_events history.now.timeline) edge }
{
    let _edges = history.graph().edges();
    let deps = deps_record(history.graph(), history.cells(), edge);
    paths_of(deps)
}

// The path at a place of a list.
fn path_at(paths: Option<&[Name]>, place: u64) -> Option<&Name>
    ensures { option_copied result ≡ option_and_then (λ paths. slice_get paths place) (option_copied paths.entry) }
{
    let paths = paths?;
    if place >= paths.len() as u64 {
        return None;
    }
    paths.get(place as usize)
}

/// The path of one answer of [`races`](crate::races): that at its place of what its user lists.
pub fn path_of<'a>(history: &'a History, race: &Race) -> Option<&'a Name>
    ensures { (all : List (List ℕ)) → lists history.now.timeline.manifest
        history.now.timeline.opening (kept_events history.now.timeline) race.now.user ≡ Some all
        → option_copied result ≡ slice_get all race.now.place }
{
    if race.user >= history.graph().edges() {
        return None;
    }
    let deps = deps_record(history.graph(), history.cells(), race.user);
    path_at(paths_of(deps), race.place)
}
