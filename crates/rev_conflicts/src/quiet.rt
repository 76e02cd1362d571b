//! Places with nothing to tell, found by a look at who touches them.
ghost use Rattle.std.specs.Prelude.{◌≡◌, ◌≤◌, ◌⊎◌, ℕ, true, slice_index_or, Contains, IsTrue, OnOk};
ghost use Rattle.rev_graph.specs.Graph.{successor_lists};
ghost use Rattle.rev_ranks.specs.Graph.{graph_of, successors_of};
ghost use Rattle.rev_waits.specs.Waits.{Waits};
ghost use Rattle.rev_races.specs.Searches.{AreDirect};
ghost use Rattle.rev_conflicts.specs.Ranges.{has_path};
ghost use Rattle.rev_conflicts.specs.Tables.{AreNexts, AreQuiet};

use crate::nexts::Table;
use rev_graph::Graph;
use rev_observed::PathRange;
use rev_races::is_marked;
use std::alloc::AllocError;

// Whether an edge is the user's, or one that it steps to.
fn is_near(graph: &Graph, direct: &[Option<u32>], user: u32, edge: u32) -> bool
    requires { AreDirect (successor_lists graph.now.manifest.builds) direct.now }
    ensures { IsTrue result → (edge ≡ user) ⊎ Waits graph.now.manifest.builds user edge }
{
    let _edges = graph.edges();
    if edge == user {
        return true;
    }
    is_marked(direct, edge, user)
}

// Whether a command is of the user's edge, or of one that it steps to.
fn is_quiet_one(
    graph: &Graph,
    edges: &[u32],
    direct: &[Option<u32>],
    user: u32,
    command: u64,
) -> bool
    requires { AreDirect (successor_lists graph.now.manifest.builds) direct.now }
    ensures { IsTrue result → (slice_index_or edges.now command 0 ≡ user)
        ⊎ Waits graph.now.manifest.builds user (slice_index_or edges.now command 0) }
{
    if command >= edges.len() as u64 {
        return false;
    }
    is_near(graph, direct, user, edges[command as usize])
}

// Whether each of some commands is so.
fn is_quiet(
    graph: &Graph,
    edges: &[u32],
    direct: &[Option<u32>],
    user: u32,
    commands: &[u64],
) -> bool
    requires { AreDirect (successor_lists graph.now.manifest.builds) direct.now }
    ensures { IsTrue result → AreQuiet graph.now.manifest.builds edges.now user commands.now }
{
    for command in commands {
        let quiet = is_quiet_one(graph, edges, direct, user, *command);
        if !quiet {
            return false;
        }
    }
    true
}

// Adds the numbers of a range where something may be told of the user. `direct` has the marks of the user.
fn add_suspects(
    graph: &Graph,
    edges: &[u32],
    direct: &[Option<u32>],
    user: u32,
    table: &Table,
    range: &PathRange,
    suspects: &mut Vec<u64>,
) -> Result<(), AllocError>
    requires direct { AreDirect (successor_lists graph.now.manifest.builds) direct.now }
    requires nexts { AreNexts (graph_of table.now.lists.items) table.now.nexts.items }
    ensures kept { OnOk result ((n : ℕ) → Contains suspects.old.items n → Contains suspects.new.items n) }
    ensures rest { OnOk result ((n : ℕ) → range.now.first ≤ n → n ≤ range.now.last → Contains suspects.new.items n
        ⊎ AreQuiet graph.now.manifest.builds edges.now user (successors_of (graph_of table.now.lists.items) n)) }
{
    let count = table.lists.len() as u64;
    if u64::from(range.first) >= count {
        return Ok(());
    }
    let mut number = table.nexts[range.first as usize];
    while number < count && number <= u64::from(range.last) {
        let commands = table.lists[number as usize].as_slice();
        let quiet = is_quiet(graph, edges, direct, user, commands);
        if !quiet {
            suspects.push(number)?;
        }
        number = table.nexts[number as usize + 1];
    }
    Ok(())
}

/// The same of ranges.
///
/// # Errors
/// [`AllocError`] only where an allocation was refused.
pub(crate) fn add_all_suspects(
    graph: &Graph,
    edges: &[u32],
    direct: &[Option<u32>],
    user: u32,
    table: &Table,
    ranges: &[PathRange],
    suspects: &mut Vec<u64>,
) -> Result<(), AllocError>
    requires direct { AreDirect (successor_lists graph.now.manifest.builds) direct.now }
    requires nexts { AreNexts (graph_of table.now.lists.items) table.now.nexts.items }
    ensures kept { OnOk result ((n : ℕ) → Contains suspects.old.items n → Contains suspects.new.items n) }
    ensures rest { OnOk result ((n : ℕ) → has_path ranges.now n ≡ true → Contains suspects.new.items n
        ⊎ AreQuiet graph.now.manifest.builds edges.now user (successors_of (graph_of table.now.lists.items) n)) }
{
    for range in ranges {
        add_suspects(graph, edges, direct, user, table, range, suspects)?;
    }
    Ok(())
}
