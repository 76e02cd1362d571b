//! The search for the order that reverses most of what is left.
ghost use Rattle.std.specs.Prelude.{◌≡◌, ◌<◌, ◌^◌, length, IfOk, IfSome};
ghost use Rattle.std.specs.List.{All};
ghost use Rattle.rev_ranks.specs.Graph.{graph_of};
ghost use Rattle.rev_orders.specs.Orders.{IsOrder};

use crate::making::{backwards, by_rank, by_walk, number_at, ranks_in, sorted_lists};
use crate::order::{Order, checked};
use crate::rest::{Rest, Wishes};
use std::alloc::{AllocError, Global};

/// What orders are made of.
#[derive(Clone, Copy)]
struct Makers<'a> {
    successors: &'a [Vec<u32>],
    users: &'a [Vec<u32>],
    commands: &'a [bool],
    first: &'a Order,
}

/// The best nodes so far, and how many pairs they leave.
#[derive(Drop)]
struct Choice {
    nodes: Vec<usize>,
    left: usize,
}

impl Choice {
    // Takes nodes where they leave fewer pairs.
    fn propose(&mut self, alloc: Global, rest: &Rest, nodes: Vec<usize>) -> Result<(), AllocError> {
        let left = rest.left_with(alloc, &nodes)?;
        if left < self.left {
            self.nodes = nodes;
            self.left = left;
        }
        Ok(())
    }
}

// A number for each place, the less the later the place is.
fn from_the_end(alloc: Global, places: &[usize]) -> Result<Vec<usize>, AllocError> {
    let mut numbers = Vec::with_capacity(alloc, places.len())?;
    for place in places {
        numbers.push(places.len().saturating_sub(*place))?;
    }
    Ok(numbers)
}

// The commands, those first for which most pairs wait to come earlier. Of equal ones the last one comes first. `all` is
// whether the commands are among them for which no pair waits.
fn by_gain(
    alloc: Global,
    commands: &[usize],
    wishes: &Wishes,
    all: bool,
) -> Result<Vec<usize>, AllocError> {
    let mut keyed = Vec::with_capacity(alloc, commands.len())?;
    for number in 0..commands.len() {
        let earlier = number_at(&wishes.earlier, number);
        if all || earlier > 0 {
            let gain = number_at(&wishes.later, number)
                .saturating_add(commands.len())
                .saturating_sub(earlier);
            keyed.push((gain, commands.len() - number, commands[number]))?;
        }
    }
    keyed.sort()?;
    let mut nodes = Vec::with_capacity(alloc, keyed.len())?;
    for (_, _, node) in &keyed {
        nodes.push(*node)?;
    }
    Ok(nodes)
}

impl Makers<'_> {
    // Of the commands that wait for nothing any more the one that is last in the order comes first.
    fn opposite(&self, alloc: Global, order: &Order) -> Result<Vec<usize>, AllocError> {
        let ranks = from_the_end(alloc, order.places())?;
        by_rank(alloc, self.successors, self.users, self.commands, &ranks)
    }

    // Of the commands for which nothing waits any more the one that is first in the order comes last.
    fn opposite_from_the_end(
        &self,
        alloc: Global,
        order: &Order,
    ) -> Result<Vec<usize>, AllocError> {
        let nodes = by_rank(
            alloc,
            self.users,
            self.successors,
            self.commands,
            order.places(),
        )?;
        backwards(alloc, &nodes)
    }

    // The last node of the order first, with all that it waits for before it, of which again the last one comes first.
    fn depth_first(&self, alloc: Global, order: &Order) -> Result<Vec<usize>, AllocError> {
        let numbers = from_the_end(alloc, order.places())?;
        let lists = sorted_lists(alloc, self.successors, &numbers)?;
        let wished = backwards(alloc, order.nodes())?;
        by_walk(alloc, &lists, &wished)
    }

    // The nodes as they are wished, each with all that it waits for before it, as that stands in the first order.
    fn walked(&self, alloc: Global, wished: &[usize]) -> Result<Vec<usize>, AllocError> {
        let lists = sorted_lists(alloc, self.successors, self.first.places())?;
        by_walk(alloc, &lists, wished)
    }

    // The wished nodes, and behind them all others in the opposite of an order.
    fn wanted_first(
        &self,
        alloc: Global,
        wished: Vec<usize>,
        order: &Order,
    ) -> Result<Vec<usize>, AllocError> {
        let mut wished = wished;
        let opposite = self.opposite(alloc, order)?;
        wished.extend_from_slice(&opposite)?;
        self.walked(alloc, &wished)
    }

    // The wished nodes, and behind them all others in the first order.
    fn then_first(&self, alloc: Global, wished: &[usize]) -> Result<Vec<usize>, AllocError> {
        let mut all = Vec::from_slice(alloc, wished)?;
        all.extend_from_slice(self.first.nodes())?;
        self.walked(alloc, &all)
    }

    // The order that is nearest to the wished one: of the commands that wait for nothing any more the first one.
    fn nearest(&self, alloc: Global, wished: &[usize]) -> Result<Vec<usize>, AllocError> {
        let ranks = ranks_in(alloc, wished, self.first.nodes().len())?;
        by_rank(alloc, self.successors, self.users, self.commands, &ranks)
    }

    // Tries the orders that follow what pairs wait for.
    fn try_gains(
        &self,
        alloc: Global,
        rest: &Rest,
        last: &Order,
        choice: &mut Choice,
    ) -> Result<(), AllocError> {
        let wishes = rest.wishes(alloc)?;
        let wanted = by_gain(alloc, rest.commands(), &wishes, false)?;
        choice.propose(alloc, rest, self.wanted_first(alloc, wanted, last)?)?;
        let all = by_gain(alloc, rest.commands(), &wishes, true)?;
        choice.propose(alloc, rest, self.then_first(alloc, &all)?)?;
        choice.propose(alloc, rest, self.nearest(alloc, &all)?)
    }

    // Tries the orders that are opposite to an order.
    fn try_opposites(
        &self,
        alloc: Global,
        rest: &Rest,
        order: &Order,
        choice: &mut Choice,
    ) -> Result<(), AllocError> {
        choice.propose(alloc, rest, self.opposite(alloc, order)?)?;
        if choice.left > 0 {
            choice.propose(alloc, rest, self.opposite_from_the_end(alloc, order)?)?;
        }
        if choice.left > 0 {
            choice.propose(alloc, rest, self.depth_first(alloc, order)?)?;
        }
        Ok(())
    }

    // The best nodes of those that are tried.
    fn best(&self, alloc: Global, rest: &Rest, others: &[Order]) -> Result<Choice, AllocError> {
        let mut choice = Choice {
            nodes: Vec::new(alloc),
            left: usize::MAX,
        };
        if let Some(last) = others.last() {
            self.try_gains(alloc, rest, last, &mut choice)?;
        }
        if choice.left > 0 {
            self.try_opposites(alloc, rest, self.first, &mut choice)?;
        }
        for back in 1..3usize {
            if choice.left > 0 && back <= others.len() {
                self.try_opposites(alloc, rest, &others[others.len() - back], &mut choice)?;
            }
        }
        Ok(choice)
    }
}

/// The order that leaves the fewest pairs behind a first order and others, of those that are tried. `rest` has the pairs
/// that are left. `None` where nothing is left, or no order that is tried leaves fewer.
///
/// # Errors
/// [`AllocError`] only where an allocation was refused.
pub(crate) fn next_order(
    alloc: Global,
    successors: &[Vec<u32>],
    users: &[Vec<u32>],
    commands: &[bool],
    first: &Order,
    others: &[Order],
    rest: &Rest,
) -> Result<Option<Order>, AllocError>
    requires inside { All (λ v. All (λ s. s < length successors.now) v.items) successors.now }
    ensures { IfOk result (λ order. IfSome order (λ o. IsOrder (graph_of successors.now) o.nodes.items
        o.places.items)) }
{
    if rest.left() == 0 {
        return Ok(None);
    }
    let makers = Makers {
        successors,
        users,
        commands,
        first,
    };
    let Choice { nodes, left } = makers.best(alloc, rest, others)?;
    if left >= rest.left() {
        return Ok(None);
    }
    checked(alloc, successors, nodes)
}
