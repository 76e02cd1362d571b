//! How many pairs of commands have stood both ways in some orders.
ghost use Rattle.std.specs.Prelude.{◌≡◌, ◌<◌, ◌≤◌, ◌&&◌, ◌+◌, ◌^◌, ℕ, nat_lt, not, length, IfOk, if◌then◌else◌};
ghost use Rattle.std.specs.List.{All};
ghost use Rattle.rev_ranks.specs.Graph.{graph_of};
ghost use Rattle.rev_ranks.specs.Sets.{is_marked};
ghost use Rattle.rev_orders.specs.Orders.{at, IsOrder};
ghost use Rattle.rev_orders.specs.Pairs.{count, is_before, is_unordered, places_of, AreCounts, IsAdded, IsNarrowed, IsRow};

use crate::order::Order;
use rev_ranks::reachable_from;
use std::alloc::{AllocError, Global};

/// How many pairs of commands are unordered, and how many of these are left after orders.
#[derive(Drop)]
pub struct Counts {
    /// The pairs of commands that do not wait for each other.
    pub unordered: usize,
    /// For each further order how many of these pairs have not stood both ways once it has run, too.
    pub left: Vec<usize>,
}

fn one_more(number: usize, counts: bool) -> usize
    requires { number + 1 < 2 ^ 64 }
    ensures { result ≡ (if counts then number + 1 else number) }
{
    if counts { number + 1 } else { number }
}

// Whether a mark stays, where an order has the node at a place of the nodes before a place of its own.
fn stays(mark: bool, nodes: &[usize], places: &[usize], other: usize, here: usize) -> bool
    requires other { other < length nodes.now }
    requires nodes { All (λ n. n < length places.now) nodes.now }
    ensures { result ≡ (mark && nat_lt (at places.now (at nodes.now other)) here) }
{
    mark && places[nodes[other]] < here
}

// Whether two commands are unordered, of which the earlier one does not wait for the other.
fn are_unordered(earlier: bool, later: bool, is_waited_for: bool) -> bool
    ensures { result ≡ (earlier && (later && not is_waited_for)) }
{
    earlier && later && !is_waited_for
}

// How many of the marks are set.
fn marks_of(row: &[bool]) -> usize
    ensures { result ≡ count (is_marked row.now) (length row.now) }
{
    let mut marks = 0;
    for place in 0..row.len() {
        marks = one_more(marks, row[place]);
    }
    marks
}

// A mark for each earlier place: it is set where a command stands there and at the place, and is not waited for.
fn row_by(
    alloc: Global,
    commands: &[bool],
    nodes: &[usize],
    waited: &[bool],
    place: usize,
) -> Result<Vec<bool>, AllocError>
    requires place { place < length nodes.now }
    requires nodes { All (λ n. n < length commands.now) nodes.now }
    requires waited { length waited.now ≡ length commands.now }
    ensures { IfOk result (λ row. IsRow (λ j. is_marked commands.now (at nodes.now j)
        && (is_marked commands.now (at nodes.now place) && not (is_marked waited.now (at nodes.now j))))
        place row.items) }
{
    let is_command = commands[nodes[place]];
    let mut row = Vec::with_capacity(alloc, place)?;
    for other in 0..place {
        let node = nodes[other];
        row.push(are_unordered(commands[node], is_command, waited[node]))?;
    }
    Ok(row)
}

/// A mark for each earlier place: it is set where the nodes of both places are unordered commands.
pub(crate) fn unordered_row(
    alloc: Global,
    successors: &[Vec<u32>],
    commands: &[bool],
    first: &Order,
    place: usize,
) -> Result<Vec<bool>, AllocError>
    requires inside { All (λ v. All (λ s. s < length successors.now) v.items) successors.now }
    requires small { length successors.now < 2 ^ 32 }
    requires commands { length commands.now ≡ length successors.now }
    requires order { IsOrder (graph_of successors.now) first.now.nodes.items first.now.places.items }
    requires place { place < length successors.now }
    ensures { IfOk result (λ row. IsRow (λ j. is_unordered (graph_of successors.now) commands.now
        (at first.now.nodes.items j) (at first.now.nodes.items place)) place row.items) }
{
    let nodes = first.nodes();
    let waited = reachable_from(alloc, successors, &successors[nodes[place]])?;
    let row = row_by(alloc, commands, nodes, &waited, place)?;
    Ok(row)
}

// Takes the mark of each earlier place whose node the order does not have before that of the place too. The number says
// how many marks are left.
fn narrow(row: &mut [bool], nodes: &[usize], places: &[usize], place: usize) -> usize
    requires row { length row.old ≡ place }
    requires place { place < length nodes.now }
    requires nodes { All (λ n. n < length places.now) nodes.now }
    ensures { IsNarrowed row.old (is_before nodes.now place places.now) place row.new result }
{
    let here = places[nodes[place]];
    let mut left = 0;
    for other in 0..place {
        let kept = stays(row[other], nodes, places, other, here);
        row[other] = kept;
        left = one_more(left, kept);
    }
    left
}

// Adds what each further order leaves of the row of a place to its number.
fn add_row(left: &mut [usize], row: &mut [bool], nodes: &[usize], others: &[Order], place: usize)
    requires each { length left.old ≡ length others.now }
    requires row { length row.old ≡ place }
    requires place { place < length nodes.now }
    requires nodes { All (λ o. All (λ n. n < length o.places.items) nodes.now) others.now }
    requires room { (i : ℕ) → at left.old i + place < 2 ^ 64 }
    ensures { IsAdded nodes.now place (places_of others.now) row.old left.old (length others.now) row.new left.new }
{
    for order in 0..others.len() {
        let more = narrow(row, nodes, others[order].places(), place);
        left[order] += more;
    }
}

/// How many pairs of commands are unordered, and how many of these are left after the first order and each further one.
/// Node n steps to each node of `successors[n]`, and `commands[n]` says whether it is a command.
///
/// # Errors
/// [`AllocError`] only where an allocation was refused.
pub fn counted(
    alloc: Global,
    successors: &[Vec<u32>],
    commands: &[bool],
    first: &Order,
    others: &[Order],
) -> Result<Counts, AllocError>
    requires inside { All (λ v. All (λ s. s < length successors.now) v.items) successors.now }
    requires small { length successors.now < 2 ^ 32 }
    requires commands { length commands.now ≡ length successors.now }
    requires first { IsOrder (graph_of successors.now) first.now.nodes.items first.now.places.items }
    requires others { All (λ o. IsOrder (graph_of successors.now) o.nodes.items o.places.items) others.now }
    ensures { IfOk result (λ counts. AreCounts (graph_of successors.now) commands.now first.now.nodes.items
        first.now.places.items (places_of others.now) (length successors.now) counts.unordered counts.left.items) }
{
    let mut unordered = 0;
    let mut left = vec![in alloc; 0; others.len()]?;
    for place in 0..successors.len() {
        let mut row = unordered_row(alloc, successors, commands, first, place)?;
        unordered += marks_of(&row);
        add_row(&mut left, &mut row, first.nodes(), others, place);
    }
    Ok(Counts { unordered, left })
}
