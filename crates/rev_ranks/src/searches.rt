//! Searches from several nodes at once, along the steps and against them.
ghost use Rattle.std.specs.Prelude.{◌≡◌, ◌<◌, ◌≤◌, ◌↔◌, ◌⊎◌, ℕ, ◌^◌, length, vec_len, IfOk, OnOk};
ghost use Rattle.std.specs.List.{All, Contains};
ghost use Rattle.rev_ranks.specs.Graph.{graph_of};
ghost use Rattle.rev_ranks.specs.Leads.{is_reachable};
ghost use Rattle.rev_ranks.specs.Sets.{AddsSteps, IsMarking, IsReachableSet, IsMarked, IsReversed, IsSetOf, is_marked_or_leads};

use std::alloc::{AllocError, Global};

/// Gives each of the nodes a mark, and opens those that had none.
pub(crate) fn mark_each(
    nodes: &[u32],
    marks: &mut Vec<bool>,
    open_nodes: &mut Vec<u32>,
) -> Result<(), AllocError>
    requires { All (λ s. s < vec_len marks.old) nodes.now }
    ensures marking { OnOk result (IsMarking nodes.now marks.old.items open_nodes.old.items marks.new.items
        open_nodes.new.items) }
    ensures opens { OnOk result ((n : ℕ) → Contains open_nodes.new.items n
        → Contains open_nodes.old.items n ⊎ (IsMarked marks.old.items n → ⊥)) }
{
    for node in nodes {
        let index = *node as usize;
        if !marks[index] {
            marks[index] = true;
            open_nodes.push(*node)?;
        }
    }
    Ok(())
}

/// The set of the roots and the nodes that they reach.
pub(crate) fn marked_from(
    alloc: Global,
    successors: &[Vec<u32>],
    roots: &[u32],
) -> Result<Vec<bool>, AllocError>
    requires inside { All (λ v. All (λ s. s < length successors.now) v.items) successors.now }
    requires nodes { All (λ s. s < length successors.now) roots.now }
    ensures { IfOk result (λ marks. IsReachableSet (graph_of successors.now) roots.now marks.items) }
{
    let mut marks = vec![in alloc; false; successors.len()]?;
    let mut open_nodes = Vec::new(alloc);
    mark_each(roots, &mut marks, &mut open_nodes)?;
    while let Some(next) = open_nodes.pop() {
        mark_each(&successors[next as usize], &mut marks, &mut open_nodes)?;
    }
    Ok(marks)
}

/// The nodes that are one of the roots or reached from one, as a mark for each node. Node n steps to each node of
/// `successors[n]`. It takes time and memory linear in nodes and steps.
///
/// # Errors
/// [`AllocError`] only where an allocation was refused.
pub fn reachable_from(
    alloc: Global,
    successors: &[Vec<u32>],
    roots: &[u32],
) -> Result<Vec<bool>, AllocError>
    requires inside { All (λ v. All (λ s. s < length successors.now) v.items) successors.now }
    requires nodes { All (λ s. s < length successors.now) roots.now }
    ensures { IfOk result (λ marks.
        IsSetOf (graph_of successors.now) (is_reachable (graph_of successors.now) roots.now)
        marks.items) }
{
    let marks = marked_from(alloc, successors, roots)?;
    Ok(marks)
}

/// Adds a node to the lists of the nodes that it steps to.
fn push_back_steps(reversed: &mut Vec<Vec<u32>>, node: u32, nexts: &[u32]) -> Result<(), AllocError>
    requires { All (λ s. s < vec_len reversed.old) nexts.now }
    ensures { OnOk result (AddsSteps node nexts.now (graph_of reversed.old.items)
        (graph_of reversed.new.items)) }
{
    for next in nexts {
        let list = &mut reversed[*next as usize];
        list.push(node)?;
    }
    Ok(())
}

/// For each node the nodes that step to it, in time and memory linear in nodes and steps.
///
/// # Errors
/// [`AllocError`] only where an allocation was refused.
pub fn reversed(alloc: Global, successors: &[Vec<u32>]) -> Result<Vec<Vec<u32>>, AllocError>
    requires inside { All (λ v. All (λ s. s < length successors.now) v.items) successors.now }
    requires small { length successors.now < 2 ^ 32 }
    ensures steps { IfOk result (λ reversed. IsReversed (graph_of successors.now) (graph_of reversed.items)) }
    ensures inside { IfOk result (λ reversed.
        All (λ v. All (λ s. s < length successors.now) v.items) reversed.items) }
    ensures each { IfOk result (λ reversed. vec_len reversed ≡ length successors.now) }
{
    let mut reversed = Vec::with_capacity(alloc, successors.len())?;
    for _ in 0..successors.len() {
        reversed.push(Vec::new(alloc))?;
    }
    for node in 0..successors.len() {
        push_back_steps(&mut reversed, node as u32, &successors[node])?;
    }
    Ok(reversed)
}

/// The nodes that have a mark.
fn marked_nodes(alloc: Global, marks: &[bool]) -> Result<Vec<u32>, AllocError>
    requires { length marks.now < 2 ^ 32 }
    ensures nodes { IfOk result (λ nodes. All (λ n. n < length marks.now) nodes.items) }
    ensures marked { IfOk result (λ nodes. (n : ℕ) → Contains nodes.items n ↔ IsMarked marks.now n) }
{
    let mut nodes = Vec::new(alloc);
    for node in 0..marks.len() {
        if marks[node] {
            nodes.push(node as u32)?;
        }
    }
    Ok(nodes)
}

/// The nodes that have a mark among `goals` or lead to one that has, as a mark for each node. Node n steps to each node
/// of `successors[n]`. It takes time and memory linear in nodes and steps.
///
/// # Errors
/// [`AllocError`] only where an allocation was refused.
pub fn leading_to(
    alloc: Global,
    successors: &[Vec<u32>],
    goals: &[bool],
) -> Result<Vec<bool>, AllocError>
    requires inside { All (λ v. All (λ s. s < length successors.now) v.items) successors.now }
    requires small { length successors.now < 2 ^ 32 }
    requires each { length goals.now ≡ length successors.now }
    ensures { IfOk result (λ marks.
        IsSetOf (graph_of successors.now)
        (is_marked_or_leads (graph_of successors.now) goals.now) marks.items) }
{
    let steps_back = reversed(alloc, successors)?;
    let roots = marked_nodes(alloc, goals)?;
    let marks = marked_from(alloc, &steps_back, &roots)?;
    Ok(marks)
}
