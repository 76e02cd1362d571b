//! What is printed of each order.
ghost use Rattle.std.specs.Prelude.{◌≡◌, ◌<◌, filter, length, slice_get, IfOk, IfSome};
ghost use Rattle.rev_ranks.specs.Sets.{is_marked};
ghost use Rattle.rev_orders.specs.Orders.{at};
ghost use Rattle.rev_orders_word.specs.Listing.{left_before, IsRow};

use crate::listing::Listed;
use rev_orders::{Counts, Order};
use std::alloc::{AllocError, Global};

/// What is printed of an order.
#[derive(Drop)]
pub struct Row {
    /// The edges that are commands, as they stand in the order.
    pub commands: Vec<usize>,
    /// How many pairs of commands it reverses that all orders before it have one way alone.
    pub reversed: usize,
    /// How many pairs of unordered commands all orders up to it have one way alone.
    pub left: usize,
}

// Whether a node is one of the commands.
fn is_command(commands: &[bool], node: usize) -> bool
    ensures { result ≡ is_marked commands.now node }
{
    match commands.get(node) {
        Some(mark) => *mark,
        None => false,
    }
}

// The number at a place, or 0.
fn number_at(numbers: &[usize], place: usize) -> usize
    ensures { result ≡ at numbers.now place }
{
    match numbers.get(place) {
        Some(number) => *number,
        None => 0,
    }
}

// The commands of some nodes, as they stand there.
fn commands_in(alloc: Global, commands: &[bool], nodes: &[usize]) -> Result<Vec<usize>, AllocError>
    ensures { IfOk result (λ found. found.items ≡ filter (is_marked commands.now) nodes.now) }
{
    let mut found = Vec::new(alloc);
    for node in nodes {
        if is_command(commands, *node) {
            found.push(*node)?;
        }
    }
    Ok(found)
}

// What is printed of an order. Before it `before` pairs were left, and behind it `left`.
fn row_of(
    alloc: Global,
    commands: &[bool],
    order: &Order,
    before: usize,
    left: usize,
) -> Result<Row, AllocError>
    ensures { IfOk result (λ row. IsRow commands.now order.now.nodes.items before left row) }
{
    let commands = commands_in(alloc, commands, order.nodes())?;
    Ok(Row {
        commands,
        reversed: before.saturating_sub(left),
        left,
    })
}

// How many pairs are left before a further order.
fn left_before(counts: &Counts, place: usize) -> usize
    ensures { result ≡ left_before counts.now place }
{
    if place == 0 {
        counts.unordered
    } else {
        number_at(&counts.left, place - 1)
    }
}

impl Listed {
    /// What is printed of the first order: all unordered pairs are left.
    ///
    /// # Errors
    /// [`AllocError`] only where an allocation was refused.
    pub fn first_row(&self, alloc: Global) -> Result<Row, AllocError>
        ensures { IfOk result (λ row. IsRow self.now.commands.items self.now.first.nodes.items
            self.now.chosen.counts.unordered self.now.chosen.counts.unordered row) }
    {
        let unordered = self.chosen.counts.unordered;
        row_of(alloc, &self.commands, &self.first, unordered, unordered)
    }

    /// What is printed of the further order at a place, from 0.
    ///
    /// # Errors
    /// [`AllocError`] only where an allocation was refused.
    pub fn further_row(&self, alloc: Global, place: usize) -> Result<Row, AllocError>
        requires { place < length self.now.chosen.others.items }
        ensures { IfOk result (λ row. IfSome (slice_get self.now.chosen.others.items place) (λ o.
            IsRow self.now.commands.items o.nodes.items (left_before self.now.chosen.counts place)
            (at self.now.chosen.counts.left.items place) row)) }
    {
        let counts = &self.chosen.counts;
        let before = left_before(counts, place);
        let left = number_at(&counts.left, place);
        row_of(
            alloc,
            &self.commands,
            &self.chosen.others[place],
            before,
            left,
        )
    }
}
