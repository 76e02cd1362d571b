//! Orders of a graph's commands by which each pair of unordered commands stands both ways.
ghost use Rattle.std.specs.Prelude.{◌≡◌, ◌<◌, ◌^◌, length, IfOk, IfSome};
ghost use Rattle.std.specs.List.{All};
ghost use Rattle.rev_ranks.specs.Graph.{graph_of};
ghost use Rattle.rev_orders.specs.Orders.{IsOrder};
ghost use Rattle.rev_orders.specs.Pairs.{places_of, AreCounts};

use crate::counting::{Counts, counted};
use crate::making::{by_rank, ranks_in};
use crate::order::{Order, checked};
use crate::rest::Rest;
use crate::search::next_order;
use rev_ranks::reversed;
use std::alloc::{AllocError, Global};

/// Orders that were chosen, and what they leave.
#[derive(Drop)]
pub struct Chosen {
    /// The further orders.
    pub others: Vec<Order>,
    /// How many pairs are unordered, and how many are left after each of these orders.
    pub counts: Counts,
}

/// The order of the nodes that is nearest to a list of nodes: of the commands that wait for nothing any more, the one
/// that stands first in the list comes first. `None` where nodes wait for each other.
///
/// # Errors
/// [`AllocError`] only where an allocation was refused.
pub fn nearest(
    alloc: Global,
    successors: &[Vec<u32>],
    commands: &[bool],
    wished: &[usize],
) -> Result<Option<Order>, AllocError>
    requires inside { All (λ v. All (λ s. s < length successors.now) v.items) successors.now }
    requires small { length successors.now < 2 ^ 32 }
    ensures { IfOk result (λ order. IfSome order (λ o. IsOrder (graph_of successors.now) o.nodes.items
        o.places.items)) }
{
    let users = reversed(alloc, successors)?;
    let ranks = ranks_in(alloc, wished, successors.len())?;
    let nodes = by_rank(alloc, successors, &users, commands, &ranks)?;
    checked(alloc, successors, nodes)
}

/// A first order and further ones, at most as many as `most` in all. Each further order is the one that leaves the fewest
/// pairs of those that are tried. There are fewer orders where no pair is left, or no order leaves fewer pairs.
///
/// # Errors
/// [`AllocError`] only where an allocation was refused.
pub fn choose(
    alloc: Global,
    successors: &[Vec<u32>],
    commands: &[bool],
    first: &Order,
    most: usize,
) -> Result<Chosen, AllocError>
    requires inside { All (λ v. All (λ s. s < length successors.now) v.items) successors.now }
    requires small { length successors.now < 2 ^ 32 }
    requires commands { length commands.now ≡ length successors.now }
    requires first { IsOrder (graph_of successors.now) first.now.nodes.items first.now.places.items }
    ensures orders { IfOk result (λ chosen. All (λ o. IsOrder (graph_of successors.now) o.nodes.items
        o.places.items) chosen.others.items) }
    ensures counts { IfOk result (λ chosen. AreCounts (graph_of successors.now) commands.now
        first.now.nodes.items first.now.places.items (places_of chosen.others.items) (length successors.now)
        chosen.counts.unordered chosen.counts.left.items) }
{
    let users = reversed(alloc, successors)?;
    let others = orders_behind(alloc, successors, &users, commands, first, most)?;
    let counts = counted(alloc, successors, commands, first, &others)?;
    Ok(Chosen { others, counts })
}

// The orders behind the first one.
fn orders_behind(
    alloc: Global,
    successors: &[Vec<u32>],
    users: &[Vec<u32>],
    commands: &[bool],
    first: &Order,
    most: usize,
) -> Result<Vec<Order>, AllocError>
    requires inside { All (λ v. All (λ s. s < length successors.now) v.items) successors.now }
    requires small { length successors.now < 2 ^ 32 }
    requires commands { length commands.now ≡ length successors.now }
    requires first { IsOrder (graph_of successors.now) first.now.nodes.items first.now.places.items }
    ensures { IfOk result (λ others. All (λ o. IsOrder (graph_of successors.now) o.nodes.items o.places.items)
        others.items) }
{
    let mut rest = Rest::of(alloc, successors, commands, first)?;
    let mut others = Vec::new(alloc);
    for _ in 1..most {
        let Some(order) = next_order(alloc, successors, users, commands, first, &others, &rest)?
        else {
            break;
        };
        rest.take(alloc, order.nodes())?;
        others.push(order)?;
    }
    Ok(others)
}
