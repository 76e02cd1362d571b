//! Whether Ninja runs a command again when a file changes.
ghost use Rattle.std.specs.Prelude.{◌≡◌, ◌<◌, ◌≤◌, ◌↔◌, length, slice_index_or, false, All, IfOk, IsTrue};
ghost use Rattle.std.specs.List.{list_all, range_with_len};
ghost use Rattle.rev_ranks.specs.Graph.{graph_of};
ghost use Rattle.rev_unlisted.specs.Found.{AreLedTo, AreReached, cover_by, met_by};
ghost use Rattle.rev_unlisted.specs.declared.input.Cover.TheVariants.{Neither};

use crate::input::Cover;
use rev_ranks::reachable_from;
use std::alloc::{AllocError, Global};

/// The nodes that a node reaches, as a mark for each node.
///
/// # Errors
/// [`AllocError`] only where an allocation was refused.
pub(crate) fn reached(alloc: Global, steps: &[Vec<u32>], node: u32) -> Result<Vec<bool>, AllocError>
    requires node { node < length steps.now }
    requires inside { All (λ v. All (λ s. s < length steps.now) v.items) steps.now }
    ensures { IfOk result (λ marks. AreReached (graph_of steps.now) node marks.items) }
{
    let marks = reachable_from(alloc, steps, &steps[node as usize])?;
    Ok(marks)
}

// The numbers below a count, in their order.
fn numbers_below(alloc: Global, count: u32) -> Result<Vec<u32>, AllocError>
    ensures { IfOk result (λ numbers. numbers.items ≡ range_with_len 0 count) }
{
    (0..count).collect(alloc)
}

/// The nodes to which some edge leads, as a mark for each node. The edges are the first so many nodes.
///
/// # Errors
/// [`AllocError`] only where an allocation was refused.
pub(crate) fn led_to(alloc: Global, steps: &[Vec<u32>], edges: u32) -> Result<Vec<bool>, AllocError>
    requires edges { edges ≤ length steps.now }
    requires inside { All (λ v. All (λ s. s < length steps.now) v.items) steps.now }
    ensures { IfOk result (λ marks. AreLedTo (graph_of steps.now) edges marks.items) }
{
    let roots = numbers_below(alloc, edges)?;
    let marks = reachable_from(alloc, steps, &roots)?;
    Ok(marks)
}

/// Whether a cover says that nothing makes Ninja run the command again.
pub(crate) fn is_neither(cover: Cover) -> bool
    ensures { IsTrue result ↔ (cover ≡ Neither) }
{
    match cover {
        Cover::Covered | Cover::HeldBack => false,
        Cover::Neither => true,
    }
}

// Whether all of these edges have marks.
fn are_reached(edges: &[u32], marks: &[bool]) -> bool
    requires { All (λ e. e < length marks.now) edges.now }
    ensures { result ≡ list_all (λ e. slice_index_or marks.now e false) edges.now }
{
    edges.iter().all(|edge| marks[*edge as usize])
}

// Whether a file is met: each edge that makes it has a mark, or nobody makes it, and its own node has one.
fn is_met(makers: &[u32], node: usize, marks: &[bool]) -> bool
    requires makers { All (λ e. e < length marks.now) makers.now }
    requires node { node < length marks.now }
    ensures { result ≡ met_by makers.now node marks.now }
{
    if makers.is_empty() {
        return marks[node];
    }
    are_reached(makers, marks)
}

/// The cover of a file, by who makes it, by its node, and by what is reached on sure ways, and on all ways.
pub(crate) fn cover(makers: &[u32], node: usize, sure: &[bool], met: &[bool]) -> Cover
    requires sure_makers { All (λ e. e < length sure.now) makers.now }
    requires sure_node { node < length sure.now }
    requires met_makers { All (λ e. e < length met.now) makers.now }
    requires met_node { node < length met.now }
    ensures { result ≡ cover_by (met_by makers.now node sure.now) (met_by makers.now node met.now) }
{
    if is_met(makers, node, sure) {
        return Cover::Covered;
    }
    if is_met(makers, node, met) {
        return Cover::HeldBack;
    }
    Cover::Neither
}
