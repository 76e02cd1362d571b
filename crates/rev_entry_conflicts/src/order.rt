//! Which edges a user waits for, and which wait for it.
ghost use Rattle.std.specs.Prelude.{◌≡◌, ◌<◌, ◌&&◌, length, vec_len, not, IfOk};
ghost use Rattle.std.specs.List.{All};
ghost use Rattle.rev_ranks.specs.Graph.{graph_of};
ghost use Rattle.rev_ranks.specs.Sets.{IsReversed};
ghost use Rattle.rev_entry_conflicts.specs.Conflicts.{are_apart as apart_of, comes_before as before_of};
ghost use Rattle.rev_entry_conflicts.specs.Deeds.{waits_in};
ghost use Rattle.rev_entry_conflicts.specs.Orders.{AreEdges, AreReached, IsOrder, scene};

use crate::deed::{Command, Entry};
use rev_ranks::reachable_from;
use std::alloc::{AllocError, Global};

/// A mark for each edge: whether an edge waits for it, and whether it waits for that edge.
#[derive(Drop)]
pub(crate) struct Order {
    pub(crate) waited: Vec<bool>,
    pub(crate) waiting: Vec<bool>,
}

// The nodes that a node reaches, as a mark for each.
fn reached(alloc: Global, graph: &[Vec<u32>], node: u32) -> Result<Vec<bool>, AllocError>
    requires inside { AreEdges graph.now }
    requires node { node < length graph.now }
    ensures { IfOk result (λ marks. AreReached (graph_of graph.now) node marks.items) }
{
    let marks = reachable_from(alloc, graph, &graph[node as usize])?;
    Ok(marks)
}

/// What an edge waits for, and what waits for it. `back` has the steps back.
///
/// # Errors
/// [`AllocError`] only where an allocation was refused.
pub(crate) fn order_of(
    alloc: Global,
    steps: &[Vec<u32>],
    back: &[Vec<u32>],
    edge: u32,
) -> Result<Order, AllocError>
    requires inside { AreEdges steps.now }
    requires turned { AreEdges back.now }
    requires reversed { IsReversed (graph_of steps.now) (graph_of back.now) }
    requires each { length back.now ≡ length steps.now }
    requires edge { edge < length steps.now }
    ensures { IfOk result (λ order. IsOrder (graph_of steps.now) edge order.waited.items order.waiting.items) }
{
    let waited = reached(alloc, steps, edge)?;
    let waiting = reached(alloc, back, edge)?;
    Ok(Order { waited, waiting })
}

/// Whether the user waits for an edge.
pub(crate) fn waits_for(steps: &[Vec<u32>], order: &Order, used: &Command, edge: u32) -> bool
    requires order { IsOrder (graph_of steps.now) used.now.edge order.now.waited.items order.now.waiting.items }
    requires edge { edge < length steps.now }
    ensures { result ≡ waits_in (graph_of steps.now) used.now.edge edge }
{
    let _steps = steps.len();
    let _used = used.edge;
    order.waited[edge as usize]
}

/// Whether an edge waits for the user.
pub(crate) fn is_waited_by(steps: &[Vec<u32>], order: &Order, used: &Command, edge: u32) -> bool
    requires order { IsOrder (graph_of steps.now) used.now.edge order.now.waited.items order.now.waiting.items }
    requires edge { edge < length steps.now }
    ensures { result ≡ waits_in (graph_of steps.now) edge used.now.edge }
{
    let _steps = steps.len();
    let _used = used.edge;
    order.waiting[edge as usize]
}

/// Whether a maker and the user can conflict.
pub(crate) fn are_apart(
    steps: &[Vec<u32>],
    entries: &[Entry],
    commands: &[Command],
    order: &Order,
    made: &Command,
    used: &Command,
) -> bool
    requires order { IsOrder (graph_of steps.now) used.now.edge order.now.waited.items order.now.waiting.items }
    requires made { made.now.edge < length steps.now }
    ensures { result ≡ apart_of (scene steps.now entries.now commands.now) made.now used.now }
{
    let _entries = entries.len();
    let _commands = commands.len();
    if made.edge == used.edge || made.early || used.early {
        return false;
    }
    !waits_for(steps, order, used, made.edge)
}

/// Whether the user waits for a command that does not run before all else.
pub(crate) fn comes_before(
    steps: &[Vec<u32>],
    entries: &[Entry],
    commands: &[Command],
    order: &Order,
    used: &Command,
    command: &Command,
) -> bool
    requires order { IsOrder (graph_of steps.now) used.now.edge order.now.waited.items order.now.waiting.items }
    requires command { command.now.edge < length steps.now }
    ensures { result ≡ before_of (scene steps.now entries.now commands.now) used.now command.now }
{
    let _entries = entries.len();
    let _commands = commands.len();
    !command.early && waits_for(steps, order, used, command.edge)
}
