//! Edges that are not judged.
ghost use Rattle.std.specs.Prelude.{◌≡◌, ◌<◌, length, filter, IfOk};
ghost use Rattle.rev_history.specs.Timeline.{kept_events};
ghost use Rattle.rev_races.specs.Judged.{edges_of, is_unlisted as is_unlisted_in, keeps_none};

use crate::listing::listed;
use rev_graph::Graph;
use rev_history::History;
use std::alloc::{AllocError, Global};

// Whether an edge keeps deps and has no list.
fn is_unlisted(history: &History, edge: u32) -> bool
    requires { edge < length history.now.timeline.manifest.builds }
    ensures { result ≡ is_unlisted_in history.now.timeline.manifest
        history.now.timeline.opening (kept_events history.now.timeline) edge }
{
    if !history.graph().keeps_deps(edge) {
        return false;
    }
    let paths = listed(history, edge);
    paths.is_none()
}

/// The edges that keep deps, by a depfile or `deps`, and have no list in a history, in rising order: their command did
/// not end well here, and has no record of before. What they read is not known, so these edges have no findings.
///
/// # Errors
/// [`AllocError`] only where an allocation was refused.
pub fn unlisted(alloc: Global, history: &History) -> Result<Vec<u32>, AllocError>
    ensures { IfOk result (λ edges. edges.items ≡ filter (is_unlisted_in history.now.timeline.manifest
        history.now.timeline.opening (kept_events history.now.timeline))
        (edges_of history.now.timeline.manifest.builds)) }
{
    let count = history.graph().edges();
    let mut edges = Vec::new(alloc);
    for edge in 0..count {
        if is_unlisted(history, edge) {
            edges.push(edge)?;
        }
    }
    Ok(edges)
}

// Whether an edge has a command and keeps no deps.
fn keeps_nothing(graph: &Graph, edge: u32) -> bool
    requires { edge < length graph.now.manifest.builds }
    ensures { result ≡ keeps_none graph.now.manifest.builds edge }
{
    if graph.is_phony(edge) {
        return false;
    }
    !graph.keeps_deps(edge)
}

/// The edges with a command and with neither a depfile nor `deps`, in rising order. What they read is not known, so
/// these edges have no findings.
///
/// # Errors
/// [`AllocError`] only where an allocation was refused.
pub fn without_deps(alloc: Global, graph: &Graph) -> Result<Vec<u32>, AllocError>
    ensures { IfOk result (λ edges. edges.items ≡ filter (keeps_none graph.now.manifest.builds)
        (edges_of graph.now.manifest.builds)) }
{
    let mut edges = Vec::new(alloc);
    for edge in 0..graph.edges() {
        if keeps_nothing(graph, edge) {
            edges.push(edge)?;
        }
    }
    Ok(edges)
}
