//! The edges that wait for an edge, and the edges that it waits for, as marks.
ghost use Rattle.std.specs.Prelude.{◌≡◌, ◌<◌, length, vec_len, IfOk};
ghost use Rattle.std.specs.List.{All};
ghost use Rattle.rev_graph.specs.Graph.{successor_lists};
ghost use Rattle.rev_ranks.specs.Graph.{graph_of};
ghost use Rattle.rev_ranks.specs.Sets.{IsReversed};
ghost use Rattle.rev_waits.specs.Waits.{waits};
ghost use Rattle.rev_suspects.specs.Suspects.{AreMarkedBy};

use rev_graph::Graph;
use rev_ranks::{reachable_from, reversed};
use rev_waits::{steps, waited_for};
use std::alloc::{AllocError, Global};

// The edges that produce the inputs of each edge, and against these steps.
pub(crate) struct Ways {
    pub(crate) steps: Vec<Vec<u32>>,
    pub(crate) back: Vec<Vec<u32>>,
}

impl Drop for Ways {
    fn drop(self) {
        let Ways {
            steps: _steps,
            back: _back,
        } = self;
    }
}

// Against the steps of a graph.
fn steps_back(alloc: Global, graph: &Graph, steps: &[Vec<u32>]) -> Result<Vec<Vec<u32>>, AllocError>
    requires { graph_of steps.now ≡ successor_lists graph.now.manifest.builds }
    ensures steps { IfOk result (λ back. IsReversed (successor_lists graph.now.manifest.builds) (graph_of back.items)) }
    ensures inside { IfOk result (λ back.
        All (λ v. All (λ s. s < length graph.now.manifest.builds) v.items) back.items) }
    ensures each { IfOk result (λ back. length back.items ≡ length graph.now.manifest.builds) }
{
    let _edges = graph.edges();
    let back = reversed(alloc, steps)?;
    Ok(back)
}

/// The steps between the edges of a graph, in both directions.
///
/// # Errors
/// [`AllocError`] only where an allocation was refused.
pub(crate) fn both_ways(alloc: Global, graph: &Graph) -> Result<Ways, AllocError>
    ensures steps { IfOk result (λ ways. graph_of ways.steps.items ≡ successor_lists graph.now.manifest.builds) }
    ensures back { IfOk result (λ ways.
        IsReversed (successor_lists graph.now.manifest.builds) (graph_of ways.back.items)) }
    ensures inside { IfOk result (λ ways.
        All (λ v. All (λ s. s < length graph.now.manifest.builds) v.items) ways.back.items) }
    ensures each { IfOk result (λ ways. length ways.back.items ≡ length graph.now.manifest.builds) }
{
    let steps = steps(alloc, graph)?;
    let back = steps_back(alloc, graph, &steps)?;
    Ok(Ways { steps, back })
}

/// Marks the edges that an edge waits for.
///
/// # Errors
/// [`AllocError`] only where an allocation was refused.
pub(crate) fn waited_marks(
    alloc: Global,
    graph: &Graph,
    steps: &[Vec<u32>],
    edge: u32,
) -> Result<Vec<bool>, AllocError>
    requires edge { edge < length graph.now.manifest.builds }
    requires steps { graph_of steps.now ≡ successor_lists graph.now.manifest.builds }
    ensures { IfOk result (λ marks. AreMarkedBy graph.now.manifest.builds
        (λ other. waits graph.now.manifest.builds edge other) marks.items) }
{
    let marks = waited_for(alloc, graph, steps, edge)?;
    Ok(marks)
}

/// Marks the edges that wait for an edge. `back` has the graph's steps in reverse.
///
/// # Errors
/// [`AllocError`] only where an allocation was refused.
pub(crate) fn waiting_marks(
    alloc: Global,
    graph: &Graph,
    back: &[Vec<u32>],
    edge: u32,
) -> Result<Vec<bool>, AllocError>
    requires edge { edge < length graph.now.manifest.builds }
    requires back { IsReversed (successor_lists graph.now.manifest.builds) (graph_of back.now) }
    requires inside { All (λ v. All (λ s. s < length graph.now.manifest.builds) v.items) back.now }
    requires each { length back.now ≡ length graph.now.manifest.builds }
    ensures { IfOk result (λ marks. AreMarkedBy graph.now.manifest.builds
        (λ other. waits graph.now.manifest.builds other edge) marks.items) }
{
    let marks = reachable_from(alloc, back, &back[edge as usize])?;
    Ok(marks)
}
