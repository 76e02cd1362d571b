//! An order of the nodes of a graph.
ghost use Rattle.std.specs.Prelude.{◌≡◌, ◌<◌, ℕ, length, slice_index_or, vec_len, IfOk, IfSome};
ghost use Rattle.std.specs.Bool.{OnTrue};
ghost use Rattle.std.specs.List.{All, Contains};
ghost use Rattle.rev_ranks.specs.Certificate.{FallsBelow};
ghost use Rattle.rev_ranks.specs.Graph.{graph_of};
ghost use Rattle.rev_orders.specs.Orders.{at, IsOrder};

use std::alloc::{AllocError, Global};

/// The nodes of a graph in an order.
#[derive(Drop)]
pub struct Order {
    pub(crate) nodes: Vec<usize>,
    pub(crate) places: Vec<usize>,
}

impl Order {
    /// The nodes as they stand.
    pub fn nodes(&self) -> &[usize]
        ensures { result.now ≡ self.now.nodes.items }
    {
        &self.nodes
    }

    /// The place of each node, from 0.
    pub fn places(&self) -> &[usize]
        ensures { result.now ≡ self.now.places.items }
    {
        &self.places
    }
}

/// The place at which each number stands last. A number that stands nowhere has place 0.
pub(crate) fn places_in(alloc: Global, nodes: &[usize]) -> Result<Vec<usize>, AllocError>
    ensures { IfOk result (λ places. vec_len places ≡ length nodes.now) }
{
    let mut places = vec![in alloc; 0; nodes.len()]?;
    for place in 0..nodes.len() {
        let node = nodes[place];
        if node < places.len() {
            places[node] = place;
        }
    }
    Ok(places)
}

// Whether the second list leads back to each place of the first one.
fn leads_back(numbers: &[usize], places: &[usize]) -> bool
    ensures { OnTrue result ((k : ℕ) → k < length numbers.now
        → (at numbers.now k < length places.now) × (at places.now (at numbers.now k) ≡ k)) }
{
    for k in 0..numbers.len() {
        let number = numbers[k];
        if number >= places.len() || places[number] != k {
            return false;
        }
    }
    true
}

// Whether each of the nodes stands before a place.
fn are_before(nodes: &[u32], places: &[usize], place: usize) -> bool
    requires { All (λ s. s < length places.now) nodes.now }
    ensures { OnTrue result (All (λ s. slice_index_or places.now s 0 < place) nodes.now) }
{
    for node in nodes {
        if places[*node as usize] >= place {
            return false;
        }
    }
    true
}

// Whether each node stands behind those that it steps to.
fn falls(successors: &[Vec<u32>], places: &[usize]) -> bool
    requires inside { All (λ v. All (λ s. s < length successors.now) v.items) successors.now }
    requires each { length places.now ≡ length successors.now }
    ensures { OnTrue result (FallsBelow (graph_of successors.now) places.now (length successors.now)) }
{
    for node in 0..successors.len() {
        if !are_before(&successors[node], places, places[node]) {
            return false;
        }
    }
    true
}

// Whether the nodes stand in an order, and the places are theirs.
fn is_order(successors: &[Vec<u32>], nodes: &[usize], places: &[usize]) -> bool
    requires inside { All (λ v. All (λ s. s < length successors.now) v.items) successors.now }
    ensures { OnTrue result (IsOrder (graph_of successors.now) nodes.now places.now) }
{
    if nodes.len() != successors.len() || places.len() != successors.len() {
        return false;
    }
    if !leads_back(nodes, places) || !leads_back(places, nodes) || !falls(successors, places) {
        return false;
    }
    true
}

/// The order that has the nodes as they stand in a list, in time and memory linear in nodes and steps. Node n steps to
/// each node of `successors[n]`. `None` comes where a node is missing, or stands twice or before one that it reaches.
///
/// # Errors
/// [`AllocError`] only where an allocation was refused.
pub fn checked(
    alloc: Global,
    successors: &[Vec<u32>],
    nodes: Vec<usize>,
) -> Result<Option<Order>, AllocError>
    requires inside { All (λ v. All (λ s. s < length successors.now) v.items) successors.now }
    ensures { IfOk result (λ order. IfSome order (λ o. IsOrder (graph_of successors.now) o.nodes.items
        o.places.items)) }
{
    let places = places_in(alloc, &nodes)?;
    if is_order(successors, &nodes, &places) {
        return Ok(Some(Order { nodes, places }));
    }
    Ok(None)
}
