//! A build without some of its orders.
ghost use Rattle.std.specs.Prelude.{◌≡◌, ◌<◌, length, Option, IfOk};
ghost use Rattle.std.specs.List.{All};
ghost use Rattle.rev_ranks.specs.Graph.{graph_of};
ghost use Rattle.rev_needless.specs.Without.{left_at as left_at_place, left_of as left_of_list, marks_in, marks_of as marks_of_node, without as without_marked};

use crate::marks::mark_at;
use std::alloc::{AllocError, Global};

// The node at a place of a list, unless the place has a mark.
fn left_at(nexts: &[u32], marks: &[bool], place: usize) -> Option<u32>
    requires { place < length nexts.now }
    ensures { result ≡ left_at_place nexts.now marks.now place }
{
    if mark_at(marks, place) {
        None
    } else {
        Some(nexts[place])
    }
}

// The nodes of a list at the places that have no mark.
fn left_of(alloc: Global, nexts: &[u32], marks: &[bool]) -> Result<Vec<u32>, AllocError>
    ensures { IfOk result (λ left. left.items ≡ left_of_list nexts.now marks.now) }
{
    let mut left = Vec::new(alloc);
    for place in 0..nexts.len() {
        if let Some(node) = left_at(nexts, marks, place) {
            left.push(node)?;
        }
    }
    Ok(left)
}

/// The marks of a node's list; none of a node that has no list of marks.
pub(crate) fn marks_of(gone: &[Vec<bool>], node: usize) -> &[bool]
    ensures { result.now ≡ marks_of_node (marks_in gone.now) node }
{
    if node >= gone.len() {
        return &[];
    }
    gone[node].as_slice()
}

/// For each node the nodes that it waits for directly without the orders that have a mark: `gone[n][k]` is the mark of
/// the order at place k of `steps[n]`, and an order without one stays. It takes time and memory linear in the orders.
///
/// # Errors
/// [`AllocError`] only where an allocation was refused.
pub fn without(
    alloc: Global,
    steps: &[Vec<u32>],
    gone: &[Vec<bool>],
) -> Result<Vec<Vec<u32>>, AllocError>
    ensures graph { IfOk result (λ left. graph_of left.items
        ≡ without_marked (graph_of steps.now) (marks_in gone.now)) }
    ensures each { IfOk result (λ left. length left.items ≡ length steps.now) }
    ensures inside { All (λ v. All (λ s. s < length steps.now) v.items) steps.now
        → IfOk result (λ left. All (λ v. All (λ s. s < length left.items) v.items) left.items) }
{
    let mut left = Vec::new(alloc);
    for node in 0..steps.len() {
        let marks = marks_of(gone, node);
        let row = left_of(alloc, &steps[node], marks)?;
        left.push(row)?;
    }
    Ok(left)
}
