//! Orders of the commands of a recorded build.
ghost use Rattle.std.specs.Prelude.{◌≡◌, length, vec_len, IfOk, IfSome};
ghost use Rattle.rev_ranks.specs.Graph.{graph_of};
ghost use Rattle.rev_graph.specs.Graph.{successor_lists};
ghost use Rattle.rev_orders_word.specs.Listing.{AreListed};

use rev_graph::Graph;
use rev_orders::{Chosen, Order, choose, nearest};
use rev_waits::steps;
use std::alloc::{AllocError, Global};

/// Orders of the commands of a build.
pub struct Listed {
    /// For each edge whether it is one of the commands that are ordered.
    pub commands: Vec<bool>,
    /// The order that is nearest to the one in which the commands began.
    pub first: Order,
    /// Further orders, and how many pairs are left after each.
    pub chosen: Chosen,
}

// Written, since a derived drop is proved again at each exit of each caller.
impl Drop for Listed {
    fn drop(self) {
        let Listed {
            commands: _commands,
            first: _first,
            chosen: _chosen,
        } = self;
    }
}

// A mark for each edge, which is set where the edge is among some.
fn marks_of(alloc: Global, edges: usize, ran: &[u32]) -> Result<Vec<bool>, AllocError>
    ensures { IfOk result (λ marks. vec_len marks ≡ edges) }
{
    let mut marks = vec![in alloc; false; edges]?;
    for edge in ran {
        let edge = *edge as usize;
        if edge < marks.len() {
            marks[edge] = true;
        }
    }
    Ok(marks)
}

// The numbers of edges, as the orders have them.
fn wide(alloc: Global, edges: &[u32]) -> Result<Vec<usize>, AllocError> {
    let mut numbers = Vec::with_capacity(alloc, edges.len())?;
    for edge in edges {
        numbers.push(*edge as usize)?;
    }
    Ok(numbers)
}

// Orders of the marked edges. The first is the one nearest to a list of edges.
fn list_by(
    alloc: Global,
    graph: &Graph,
    steps: &[Vec<u32>],
    commands: Vec<bool>,
    wished: &[usize],
    most: usize,
) -> Result<Option<Listed>, AllocError>
    requires steps { graph_of steps.now ≡ successor_lists graph.now.manifest.builds }
    requires commands { vec_len commands ≡ length graph.now.manifest.builds }
    ensures { IfOk result (λ it. IfSome it (λ l. AreListed graph.now.manifest.builds l)) }
{
    let _edges = graph.edges();
    let Some(first) = nearest(alloc, steps, &commands, wished)? else {
        return Ok(None);
    };
    let chosen = choose(alloc, steps, &commands, &first, most)?;
    Ok(Some(Listed {
        commands,
        first,
        chosen,
    }))
}

/// Orders of the commands of some edges, at most as many as `most`. `ran` has these edges as they began, and the first
/// order is the one that is nearest to it. Each edge of the graph is in each order. Edges that are not in `ran` only hand
/// on what they wait for. `None` where edges wait for each other.
///
/// # Errors
/// [`AllocError`] only where an allocation was refused.
pub fn list_orders(
    alloc: Global,
    graph: &Graph,
    ran: &[u32],
    most: usize,
) -> Result<Option<Listed>, AllocError>
    ensures { IfOk result (λ it. IfSome it (λ l. AreListed graph.now.manifest.builds l)) }
{
    let steps = steps(alloc, graph)?;
    let commands = marks_of(alloc, graph.edges() as usize, ran)?;
    let wished = wide(alloc, ran)?;
    list_by(alloc, graph, &steps, commands, &wished, most)
}
