//! Numbers of the strongly connected components: a walk against the steps tells in which order to look for them (the
//! way of Kosaraju and Sharir).
ghost use Rattle.std.specs.Prelude.{◌≡◌, ◌<◌, ◌^◌, [], ℕ, false, ◌⊎◌, length, slice_index_or, vec_len, IfOk, OnOk};
ghost use Rattle.std.specs.List.{All};
ghost use Rattle.rev_ranks.specs.Certificate.{IsCertificate};
ghost use Rattle.rev_ranks.specs.Graph.{graph_of, Steps};
ghost use Rattle.rev_ranks.specs.Sets.{IsMarked};
ghost use Rattle.rev_ranks.specs.Walks.{Goes, IsNumbering, LeadBack};

use super::leaving::leaving_order;
use super::searches::{mark_each, reversed};
use std::alloc::{AllocError, Global};

// Gives a mark and the number to the root and to all that it reaches without meeting a mark. Each of these leads to the
// root.
fn number_from(
    alloc: Global,
    successors: &[Vec<u32>],
    root: u32,
    number: u32,
    marks: &mut Vec<bool>,
    numbers: &mut Vec<u32>,
) -> Result<(), AllocError>
    requires inside { All (λ v. All (λ s. s < length successors.now) v.items) successors.now }
    requires root { root < length successors.now }
    requires each_mark { vec_len marks.old ≡ length successors.now }
    requires each_number { vec_len numbers.old ≡ length successors.now }
    requires back { (n s : ℕ) → Steps (graph_of successors.now) n s → Goes (graph_of successors.now) root n
        → Goes (graph_of successors.now) n root
        → IsMarked marks.old.items s ⊎ Goes (graph_of successors.now) s root }
    ensures { OnOk result (IsNumbering (graph_of successors.now) root number marks.old.items numbers.old.items
        marks.new.items numbers.new.items []) }
{
    let mut open_nodes = Vec::new(alloc);
    mark_each(&[root], marks, &mut open_nodes)?;
    while let Some(next) = open_nodes.pop() {
        numbers[next as usize] = number;
        mark_each(&successors[next as usize], marks, &mut open_nodes)?;
    }
    Ok(())
}

/// A number for each node, below the number of nodes: it rises along no step, and is equal along those steps alone that
/// lead back.
pub(crate) fn components(alloc: Global, successors: &[Vec<u32>]) -> Result<Vec<u32>, AllocError>
    requires inside { All (λ v. All (λ s. s < length successors.now) v.items) successors.now }
    requires small { length successors.now < 2 ^ 32 }
    ensures certificate { IfOk result (λ numbers. IsCertificate (graph_of successors.now) numbers.items) }
    ensures back { IfOk result (λ numbers. LeadBack (graph_of successors.now) numbers.items) }
{
    let steps_back = reversed(alloc, successors)?;
    let mut to_come = leaving_order(alloc, &steps_back)?;
    let mut marks = vec![in alloc; false; successors.len()]?;
    let mut numbers = vec![in alloc; 0; successors.len()]?;
    let mut number = 0;
    while let Some(root) = to_come.pop() {
        if !marks[root as usize] {
            number_from(alloc, successors, root, number, &mut marks, &mut numbers)?;
            number += 1;
        }
    }
    Ok(numbers)
}
