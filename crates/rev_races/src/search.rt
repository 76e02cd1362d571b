//! Searches for what an edge waits for (the last search is kept), and an order of edges that makes them few.
ghost use Rattle.std.specs.Prelude.{◌≡◌, ◌<◌, ◌^◌, ◌↔◌, ℕ, length, None, Contains, IfOk, OnOk};
ghost use Rattle.std.specs.List.{range_with_len};
ghost use Rattle.rev_graph.specs.Graph.{successor_lists};
ghost use Rattle.rev_ranks.specs.Graph.{graph_of};
ghost use Rattle.rev_waits.specs.Waits.{AreWaitedFor};
ghost use Rattle.rev_races.specs.Searches.{IsKept};

use rev_graph::Graph;
use rev_waits::waited_for;
use std::alloc::{AllocError, Global};

/// The edges that an edge waits for, as a mark for each edge, and that edge, where there is one. All that step to the
/// same edges wait for the same ones.
#[derive(Drop)]
pub struct Search {
    /// The edge that was searched last, where there was a search.
    pub edge: Option<u32>,
    /// A mark for each edge: whether that edge waits for it.
    pub waited: Vec<bool>,
}

/// No search yet.
pub fn no_search(alloc: Global) -> Search
    ensures { result.edge ≡ None }
{
    Search {
        edge: None,
        waited: Vec::new(alloc),
    }
}

/// Searches for what an edge waits for, unless the last search was for one that steps to the same edges: `waited` has it
/// afterwards. `steps` are those of the graph, as [`rev_waits::steps`] gives them.
///
/// # Errors
/// [`AllocError`] only where an allocation was refused.
pub fn search_for(
    alloc: Global,
    graph: &Graph,
    steps: &[Vec<u32>],
    edge: u32,
    search: &mut Search,
) -> Result<(), AllocError>
    requires edge { edge < length graph.now.manifest.builds }
    requires steps { graph_of steps.now ≡ successor_lists graph.now.manifest.builds }
    requires kept { IsKept graph.now.manifest.builds search.old.edge search.old.waited.items }
    ensures waited { OnOk result (AreWaitedFor graph.now.manifest.builds edge search.new.waited.items) }
    ensures kept { OnOk result (IsKept graph.now.manifest.builds search.new.edge search.new.waited.items) }
{
    if let Some(last) = search.edge {
        if steps[last as usize] == steps[edge as usize] {
            return Ok(());
        }
    }
    search.waited = waited_for(alloc, graph, steps, edge)?;
    search.edge = Some(edge);
    Ok(())
}

// The edges that an edge steps to; none of a number past the last edge.
fn steps_of(steps: &[Vec<u32>], edge: u32) -> &[u32] {
    match steps.get(edge as usize) {
        Some(found) => found.as_slice(),
        None => &[],
    }
}

// The numbers below a count, in their order.
fn numbers_below(alloc: Global, count: u32) -> Result<Vec<u32>, AllocError>
    ensures { IfOk result (λ numbers. numbers.items ≡ range_with_len 0 count) }
{
    (0..count).collect(alloc)
}

/// The edges in an order in which all that step to the same edges stand together, each once: so [`search_for`], asked
/// along it, searches once for each set of steps. It takes a sort by the steps.
///
/// # Errors
/// [`AllocError`] only where an allocation was refused.
pub fn grouped(alloc: Global, steps: &[Vec<u32>]) -> Result<Vec<u32>, AllocError>
    requires { length steps.now < 2 ^ 32 }
    ensures { IfOk result (λ edges. (edge : ℕ) → Contains edges.items edge ↔ (edge < length steps.now)) }
{
    let count = steps.len() as u32;
    let mut edges = numbers_below(alloc, count)?;
    edges.sort_by(|one, other| steps_of(steps, *one).cmp(&steps_of(steps, *other)))?;
    Ok(edges)
}
