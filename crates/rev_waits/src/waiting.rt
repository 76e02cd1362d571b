//! Which edges wait for which.
ghost use Rattle.std.specs.Prelude.{◌≡◌, ◌<◌, length, IfOk};
ghost use Rattle.rev_ranks.specs.Graph.{graph_of};
ghost use Rattle.rev_graph.specs.Graph.{successor_lists};
ghost use Rattle.rev_waits.specs.Waits.{AreWaitedFor};

use rev_graph::{Graph, edges_among};
use rev_ranks::reachable_from;
use std::alloc::{AllocError, Global};

/// For each edge the edges that produce its explicit, implicit and order-only inputs, in time and memory linear in the
/// inputs.
///
/// # Errors
/// [`AllocError`] only where an allocation was refused.
pub fn steps(alloc: Global, graph: &Graph) -> Result<Vec<Vec<u32>>, AllocError>
    ensures { IfOk result (λ steps. graph_of steps.items ≡ successor_lists graph.now.manifest.builds) }
{
    let mut steps = Vec::new(alloc);
    for edge in 0..graph.edges() {
        steps.push(edges_among(alloc, graph.producers(edge))?)?;
    }
    Ok(steps)
}

/// The edges that an edge waits for, as a mark for each edge, in time and memory linear in edges and steps. `steps` has
/// for each edge the edges that it steps to.
///
/// # Errors
/// [`AllocError`] only where an allocation was refused.
pub fn waited_for(
    alloc: Global,
    graph: &Graph,
    steps: &[Vec<u32>],
    edge: u32,
) -> Result<Vec<bool>, AllocError>
    requires edge { edge < length graph.now.manifest.builds }
    requires steps { graph_of steps.now ≡ successor_lists graph.now.manifest.builds }
    ensures { IfOk result (λ marks. AreWaitedFor graph.now.manifest.builds edge marks.items) }
{
    let _edges = graph.edges();
    let marks = reachable_from(alloc, steps, &steps[edge as usize])?;
    Ok(marks)
}
