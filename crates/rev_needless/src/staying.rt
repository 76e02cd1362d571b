//! What nodes still wait for where a build has fewer orders.
ghost use Rattle.std.specs.Prelude.{◌≡◌, ◌<◌, ◌^◌, length, IfOk};
ghost use Rattle.std.specs.List.{All};
ghost use Rattle.rev_ranks.specs.Graph.{graph_of, successors_of};
ghost use Rattle.rev_needless.specs.Staying.{all_stay as all_stay_in, are_awaited as are_awaited_in, each_command, roots_stay as roots_stay_in, row_stays as row_stays_in, rows_stay as rows_stay_in, still_waits, AreReached};

use crate::marks::{are_all, are_marked, are_still_marked, commands_still_marked};
use rev_ranks::{reachable_from, reversed};
use std::alloc::{AllocError, Global};

// The nodes that a node waits for, as a mark for each.
fn reached(alloc: Global, graph: &[Vec<u32>], node: u32) -> Result<Vec<bool>, AllocError>
    requires inside { All (λ v. All (λ s. s < length graph.now) v.items) graph.now }
    requires node { node < length graph.now }
    ensures { IfOk result (λ marks. AreReached (graph_of graph.now) node marks.items) }
{
    let marks = reachable_from(alloc, graph, &graph[node as usize])?;
    Ok(marks)
}

// Whether a node that waits for some others before waits for them after. What it waits for after is looked at first,
// since mostly that is enough.
fn row_stays(
    alloc: Global,
    before: &[Vec<u32>],
    after: &[Vec<u32>],
    node: u32,
    makers: &[u32],
) -> Result<bool, AllocError>
    requires inside { All (λ v. All (λ s. s < length before.now) v.items) before.now }
    requires also { All (λ v. All (λ s. s < length after.now) v.items) after.now }
    requires each { length after.now ≡ length before.now }
    requires node { node < length before.now }
    ensures { IfOk result (λ stays. stays ≡ row_stays_in (graph_of before.now) (graph_of after.now) node makers.now) }
{
    if makers.is_empty() {
        return Ok(true);
    }
    let still = reached(alloc, after, node)?;
    let whole = are_marked(makers, &still);
    if whole {
        return Ok(true);
    }
    let marks = reached(alloc, before, node)?;
    let stays = are_still_marked(makers, &marks, &still);
    Ok(stays)
}

// The list of a node; an empty one where it has none.
fn row_of(rows: &[Vec<u32>], node: usize) -> &[u32]
    ensures { result.now ≡ successors_of (graph_of rows.now) node }
{
    if node >= rows.len() {
        return &[];
    }
    rows[node].as_slice()
}

// Whether each node that waits for a node of its list before waits for it after.
fn rows_stay(
    alloc: Global,
    before: &[Vec<u32>],
    after: &[Vec<u32>],
    rows: &[Vec<u32>],
) -> Result<bool, AllocError>
    requires inside { All (λ v. All (λ s. s < length before.now) v.items) before.now }
    requires also { All (λ v. All (λ s. s < length after.now) v.items) after.now }
    requires each { length after.now ≡ length before.now }
    requires small { length before.now < 2 ^ 32 }
    ensures { IfOk result (λ stay. stay ≡ rows_stay_in (graph_of before.now) (graph_of after.now)
        (graph_of rows.now)) }
{
    for node in 0..before.len() {
        let row = row_of(rows, node);
        let stays = row_stays(alloc, before, after, node as u32, row)?;
        if !stays {
            return Ok(false);
        }
    }
    Ok(true)
}

// Whether a node waits after for each command that it waits for before.
fn root_stays(
    alloc: Global,
    before: &[Vec<u32>],
    after: &[Vec<u32>],
    root: u32,
    commands: &[bool],
) -> Result<bool, AllocError>
    requires inside { All (λ v. All (λ s. s < length before.now) v.items) before.now }
    requires also { All (λ v. All (λ s. s < length after.now) v.items) after.now }
    requires each { length after.now ≡ length before.now }
    ensures { IfOk result (λ stays. stays ≡ each_command commands.now (still_waits (graph_of before.now)
        (graph_of after.now) root)) }
{
    if root as usize >= before.len() {
        return Ok(true);
    }
    let marks = reached(alloc, before, root)?;
    let still = reached(alloc, after, root)?;
    let stays = commands_still_marked(commands, &marks, &still);
    Ok(stays)
}

// Whether each of some nodes waits after for each command that it waits for before.
fn roots_stay(
    alloc: Global,
    before: &[Vec<u32>],
    after: &[Vec<u32>],
    roots: &[u32],
    commands: &[bool],
) -> Result<bool, AllocError>
    requires inside { All (λ v. All (λ s. s < length before.now) v.items) before.now }
    requires also { All (λ v. All (λ s. s < length after.now) v.items) after.now }
    requires each { length after.now ≡ length before.now }
    ensures { IfOk result (λ stay. stay ≡ roots_stay_in (graph_of before.now) (graph_of after.now) commands.now
        roots.now) }
{
    for root in roots {
        let stays = root_stays(alloc, before, after, *root, commands)?;
        if !stays {
            return Ok(false);
        }
    }
    Ok(true)
}

// Whether each command that waits for one of some nodes before waits for it after.
fn are_awaited(
    alloc: Global,
    before: &[Vec<u32>],
    after: &[Vec<u32>],
    nodes: &[u32],
    commands: &[bool],
) -> Result<bool, AllocError>
    requires inside { All (λ v. All (λ s. s < length before.now) v.items) before.now }
    requires also { All (λ v. All (λ s. s < length after.now) v.items) after.now }
    requires each { length after.now ≡ length before.now }
    requires small { length before.now < 2 ^ 32 }
    ensures { IfOk result (λ stay. stay ≡ are_awaited_in (graph_of before.now) (graph_of after.now) commands.now
        nodes.now) }
{
    if nodes.is_empty() {
        return Ok(true);
    }
    let back = reversed(alloc, before)?;
    let back_after = reversed(alloc, after)?;
    let stay = roots_stay(alloc, &back, &back_after, nodes, commands)?;
    Ok(stay)
}

/// Whether each node that waits for another one before does so after. This is asked of each node and the nodes of its
/// list, of each target and each command, and of each unseen command and each command, both ways.
///
/// # Errors
/// [`AllocError`] only where an allocation was refused.
pub(crate) fn all_stay(
    alloc: Global,
    before: &[Vec<u32>],
    after: &[Vec<u32>],
    conflicts: &[Vec<u32>],
    targets: &[u32],
    unseen: &[u32],
    commands: &[bool],
) -> Result<bool, AllocError>
    requires inside { All (λ v. All (λ s. s < length before.now) v.items) before.now }
    requires also { All (λ v. All (λ s. s < length after.now) v.items) after.now }
    requires each { length after.now ≡ length before.now }
    requires small { length before.now < 2 ^ 32 }
    ensures { IfOk result (λ stay. stay ≡ all_stay_in (graph_of before.now) (graph_of after.now)
        (graph_of conflicts.now) targets.now unseen.now commands.now) }
{
    let ordered = rows_stay(alloc, before, after, conflicts)?;
    let reached = roots_stay(alloc, before, after, targets, commands)?;
    let below = roots_stay(alloc, before, after, unseen, commands)?;
    let above = are_awaited(alloc, before, after, unseen, commands)?;
    Ok(are_all(ordered, reached, below, above))
}
