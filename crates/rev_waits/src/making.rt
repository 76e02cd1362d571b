//! Which edges make a path.
ghost use Rattle.std.specs.Prelude.{◌≡◌, ◌<◌, ◌↔◌, ℕ, false, length, Contains, IfOk};
ghost use Rattle.rev_ranks.specs.Graph.{graph_of};
ghost use Rattle.rev_graph.specs.Graph.{build_at, producer_of};
ghost use Rattle.rev_waits.specs.Waits.{IsBehind, Makes, passes_on, phony_lists};

use rev_graph::{Graph, edges_among};
use rev_paths::Name;
use rev_ranks::reachable_from;
use std::alloc::{AllocError, Global};

// The edges that produce the inputs of an edge, where it is phony.
fn passed_on(alloc: Global, graph: &Graph, edge: u32) -> Result<Vec<u32>, AllocError>
    requires { edge < length graph.now.manifest.builds }
    ensures { IfOk result (λ edges. edges.items
        ≡ passes_on graph.now.manifest.builds (build_at graph.now.manifest.builds edge)) }
{
    if graph.is_phony(edge) {
        edges_among(alloc, graph.producers(edge))
    } else {
        Ok(Vec::new(alloc))
    }
}

/// For each phony edge the edges that produce its inputs, and for each other edge none, in time and memory linear in
/// the inputs.
///
/// # Errors
/// [`AllocError`] only where an allocation was refused.
pub fn phony_steps(alloc: Global, graph: &Graph) -> Result<Vec<Vec<u32>>, AllocError>
    ensures { IfOk result (λ steps. graph_of steps.items ≡ phony_lists graph.now.manifest.builds) }
{
    let mut steps = Vec::new(alloc);
    for edge in 0..graph.edges() {
        steps.push(passed_on(alloc, graph, edge)?)?;
    }
    Ok(steps)
}

// The edges with commands to which a way leads from a phony edge through phony edges.
fn makers_behind(
    alloc: Global,
    graph: &Graph,
    phony: &[Vec<u32>],
    edge: u32,
) -> Result<Vec<u32>, AllocError>
    requires edge { edge < length graph.now.manifest.builds }
    requires phony { graph_of phony.now ≡ phony_lists graph.now.manifest.builds }
    ensures { IfOk result (λ makers. (maker : ℕ) → Contains makers.items maker
        ↔ IsBehind graph.now.manifest.builds edge maker) }
{
    let marks = reachable_from(alloc, phony, &phony[edge as usize])?;
    let mut makers = Vec::new(alloc);
    for maker in 0..graph.edges() {
        if marks[maker as usize] && !graph.is_phony(maker) {
            makers.push(maker)?;
        }
    }
    Ok(makers)
}

/// The edges that make a path: its producer, or, where that is phony, the first edges with a command that are met from
/// it through phony edges. It takes constant time up to hashing where no phony edge produces the path, and else time
/// and memory linear in edges and steps. `phony` has for each phony edge the edges that it steps to.
///
/// # Errors
/// [`AllocError`] only where an allocation was refused.
pub fn makers(
    alloc: Global,
    graph: &Graph,
    phony: &[Vec<u32>],
    path: &Name,
) -> Result<Vec<u32>, AllocError>
    requires { graph_of phony.now ≡ phony_lists graph.now.manifest.builds }
    ensures { IfOk result (λ makers. (maker : ℕ) → Contains makers.items maker
        ↔ Makes graph.now.manifest.builds maker path.now) }
{
    let mut makers = Vec::new(alloc);
    let Some(producer) = graph.producer(path) else {
        return Ok(makers);
    };
    if graph.is_phony(producer) {
        return makers_behind(alloc, graph, phony, producer);
    }
    makers.push(producer)?;
    Ok(makers)
}
