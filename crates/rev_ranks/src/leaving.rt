//! The order in which a depth-first walk leaves the nodes of a graph. The walk has a path of its own in place of
//! recursion.
ghost use Rattle.std.specs.Prelude.{◌≡◌, ◌<◌, ◌≤◌, ◌++◌, ◌∷◌, ◌^◌, [], ℕ, true, false, length, slice_index_or, slice_set, vec_len, IfOk, OnOk, if◌then◌else◌};
ghost use Rattle.std.specs.List.{All, Contains};
ghost use Rattle.rev_ranks.specs.Graph.{graph_of};
ghost use Rattle.rev_ranks.specs.Sets.{IsMarked};
ghost use Rattle.rev_ranks.specs.Walks.{work_left, IsLeaving, IsWalk};

use std::alloc::{AllocError, Global};

// The walk meets a node, which is then the end of its path, unless it has met it.
fn meet(node: u32, met: &mut Vec<bool>, path: &mut Vec<u32>) -> Result<(), AllocError>
    requires { node < vec_len met.old }
    ensures met { OnOk result (met.new.items ≡ (if slice_index_or met.old.items node false then met.old.items
        else slice_set met.old.items node true)) }
    ensures path { OnOk result (path.new.items ≡ (if slice_index_or met.old.items node false then path.old.items
        else path.old.items ++ node ∷ [])) }
{
    if met[node as usize] {
        return Ok(());
    }
    met[node as usize] = true;
    path.push(node)?;
    Ok(())
}

// The walk takes a step from the node at the end of its path, or leaves it where all its steps were taken.
fn go_on(
    successors: &[Vec<u32>],
    node: u32,
    met: &mut Vec<bool>,
    taken: &mut Vec<usize>,
    path: &mut Vec<u32>,
    left: &mut Vec<u32>,
) -> Result<(), AllocError>
    requires inside { All (λ v. All (λ s. s < length successors.now) v.items) successors.now }
    requires walk { IsWalk (graph_of successors.now) met.old.items taken.old.items (path.old.items ++ node ∷ [])
        left.old.items }
    ensures walk { OnOk result (IsWalk (graph_of successors.now) met.new.items taken.new.items path.new.items
        left.new.items) }
    ensures less { OnOk result (work_left (graph_of successors.now) met.new.items taken.new.items path.new.items
        < work_left (graph_of successors.now) met.old.items taken.old.items (path.old.items ++ node ∷ [])) }
    ensures keeps { OnOk result ((n : ℕ) → IsMarked met.old.items n → IsMarked met.new.items n) }
{
    let nexts = &successors[node as usize];
    let place = taken[node as usize];
    if place >= nexts.len() {
        left.push(node)?;
        return Ok(());
    }
    let next = nexts[place];
    taken[node as usize] = place + 1;
    path.push(node)?;
    meet(next, met, path)?;
    Ok(())
}

// The walk goes from a root to all that the root reaches and that it has not met, and leaves it.
fn walk_from(
    successors: &[Vec<u32>],
    root: u32,
    met: &mut Vec<bool>,
    taken: &mut Vec<usize>,
    path: &mut Vec<u32>,
    left: &mut Vec<u32>,
) -> Result<(), AllocError>
    requires inside { All (λ v. All (λ s. s < length successors.now) v.items) successors.now }
    requires root { root < length successors.now }
    requires path { path.old.items ≡ [] }
    requires walk { IsWalk (graph_of successors.now) met.old.items taken.old.items path.old.items left.old.items }
    ensures walk { OnOk result (IsWalk (graph_of successors.now) met.new.items taken.new.items path.new.items
        left.new.items) }
    ensures path { OnOk result (path.new.items ≡ []) }
    ensures root { OnOk result (IsMarked met.new.items root) }
    ensures keeps { OnOk result ((n : ℕ) → IsMarked met.old.items n → IsMarked met.new.items n) }
{
    meet(root, met, path)?;
    while let Some(node) = path.pop() {
        go_on(successors, node, met, taken, path, left)?;
    }
    Ok(())
}

/// The nodes in the order in which a depth-first walk leaves them.
pub(crate) fn leaving_order(alloc: Global, successors: &[Vec<u32>]) -> Result<Vec<u32>, AllocError>
    requires inside { All (λ v. All (λ s. s < length successors.now) v.items) successors.now }
    requires small { length successors.now < 2 ^ 32 }
    ensures leaving { IfOk result (λ left. IsLeaving (graph_of successors.now) left.items) }
    ensures all { IfOk result (λ left. (n : ℕ) → n < length successors.now → Contains left.items n) }
    ensures nodes { IfOk result (λ left. All (λ n. n < length successors.now) left.items) }
    ensures few { IfOk result (λ left. length left.items ≤ length successors.now) }
{
    let mut met = vec![in alloc; false; successors.len()]?;
    let mut taken = vec![in alloc; 0; successors.len()]?;
    let mut path = Vec::new(alloc);
    let mut left = Vec::with_capacity(alloc, successors.len())?;
    for root in 0..successors.len() {
        walk_from(
            successors,
            root as u32,
            &mut met,
            &mut taken,
            &mut path,
            &mut left,
        )?;
    }
    Ok(left)
}
