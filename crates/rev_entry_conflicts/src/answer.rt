//! The conflicts of all commands.
ghost use Rattle.std.specs.Prelude.{◌≡◌, ◌<◌, ◌^◌, ◌++◌, length, vec_len, map, IfOk, OnOk};
ghost use Rattle.std.specs.List.{All};
ghost use Rattle.rev_ranks.specs.Graph.{graph_of};
ghost use Rattle.rev_ranks.specs.Sets.{IsReversed};
ghost use Rattle.rev_entry_conflicts.specs.Conflicts.{conflicts as conflicts_of, of_user};
ghost use Rattle.rev_entry_conflicts.specs.Orders.{AreEdges, AreOfEdges, scene};
ghost use Rattle.rev_entry_conflicts.specs.Touches.{touched_in};

use crate::conflict::Conflict;
use crate::deed::{Command, Entry};
use crate::order::order_of;
use crate::pair::add_pair;
use crate::touch::touched;
use rev_ranks::reversed;
use std::alloc::{AllocError, Global};

// The entries that each command leaves or ensures.
fn touched_each(
    alloc: Global,
    commands: &[Command],
    count: u32,
) -> Result<Vec<Vec<u32>>, AllocError>
    ensures { IfOk result (λ lists. graph_of lists.items ≡ map (touched_in count) commands.now) }
{
    let mut lists = Vec::new(alloc);
    for command in commands {
        lists.push(touched(alloc, command, count)?)?;
    }
    Ok(lists)
}

// Adds what is told of a user. `back` has the steps back, and `lists` the entries that each command touches.
fn add_of_user(
    alloc: Global,
    steps: &[Vec<u32>],
    back: &[Vec<u32>],
    entries: &[Entry],
    commands: &[Command],
    lists: &[Vec<u32>],
    used_by: usize,
    found: &mut Vec<Conflict>,
) -> Result<(), AllocError>
    requires inside { AreEdges steps.now }
    requires turned { AreEdges back.now }
    requires reversed { IsReversed (graph_of steps.now) (graph_of back.now) }
    requires each { length back.now ≡ length steps.now }
    requires edges { AreOfEdges steps.now commands.now }
    requires entries { length entries.now < 2 ^ 32 }
    requires commands { length commands.now < 2 ^ 32 }
    requires lists { graph_of lists.now ≡ map (touched_in (length entries.now)) commands.now }
    requires user { used_by < length commands.now }
    ensures { OnOk result (found.new.items ≡ found.old.items
        ++ of_user (scene steps.now entries.now commands.now) used_by) }
{
    let used = &commands[used_by];
    let order = order_of(alloc, steps, back, used.edge)?;
    for made_by in 0..commands.len() {
        let made = &commands[made_by];
        let numbers = &lists[made_by];
        add_pair(
            steps,
            entries,
            commands,
            &order,
            made,
            used,
            made_by as u32,
            used_by as u32,
            numbers,
            found,
        )?;
    }
    Ok(())
}

/// The conflicts of the commands of a build: in the order of the users, of the makers, and of the kinds. `steps` has for
/// each edge the edges that produce its inputs.
///
/// # Errors
/// [`AllocError`] only where an allocation was refused.
pub fn conflicts(
    alloc: Global,
    steps: &[Vec<u32>],
    entries: &[Entry],
    commands: &[Command],
) -> Result<Vec<Conflict>, AllocError>
    requires inside { AreEdges steps.now }
    requires small { length steps.now < 2 ^ 32 }
    requires edges { AreOfEdges steps.now commands.now }
    requires entries { length entries.now < 2 ^ 32 }
    requires commands { length commands.now < 2 ^ 32 }
    ensures { IfOk result (λ found. found.items ≡ conflicts_of (scene steps.now entries.now commands.now)) }
{
    let back = reversed(alloc, steps)?;
    let lists = touched_each(alloc, commands, entries.len() as u32)?;
    let mut found = Vec::new(alloc);
    for used_by in 0..commands.len() {
        add_of_user(
            alloc, steps, &back, entries, commands, &lists, used_by, &mut found,
        )?;
    }
    Ok(found)
}
