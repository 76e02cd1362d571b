//! The commands of an observation.
ghost use Rattle.std.specs.Prelude.{◌≡◌, ◌<◌, ◌^◌, ◌++◌, length, map, slice_index_or, false, IfOk, OnOk};
ghost use Rattle.std.specs.List.{range_with_len};
ghost use Rattle.rev_scene.specs.Scenes.{ninja_runs, run_at, run_of as run_of_command, run_value, runs_of as runs_of_observation};

use crate::lines::{add_lines, add_ninja_lines};
use crate::sides::add_side;
use rev_clashes::SideFile;
use rev_entry_conflicts::Command;
use rev_manifest::Build;
use rev_observation::Observation;
use std::alloc::{AllocError, Global};

// Whether an edge runs before all else.
fn is_early(early: &[bool], edge: u32) -> bool
    ensures { result ≡ slice_index_or early.now edge false }
{
    match early.get(edge as usize) {
        Some(mark) => *mark,
        None => false,
    }
}

// The edge of a command; the first one where none is given.
fn edge_at(edges: &[u32], number: usize) -> u32
    ensures { result ≡ slice_index_or edges.now number 0 }
{
    match edges.get(number) {
        Some(edge) => *edge,
        None => 0,
    }
}

// What a command of an edge did.
fn run_of(
    alloc: Global,
    builds: &[Build],
    observation: &Observation,
    early: &[bool],
    edge: u32,
    command: &rev_observation::Command,
) -> Result<Command, AllocError>
    requires { length observation.now.entries.paths < 2 ^ 32 }
    ensures { IfOk result (λ run. run_value run
        ≡ run_of_command builds.now observation.now early.now edge command.now) }
{
    let mut deeds = Vec::new(alloc);
    add_lines(command.lines(), &mut deeds)?;
    add_side(
        alloc,
        SideFile::ResponseFile,
        builds,
        observation,
        edge,
        &mut deeds,
    )?;
    add_side(
        alloc,
        SideFile::Depfile,
        builds,
        observation,
        edge,
        &mut deeds,
    )?;
    Ok(Command {
        edge,
        early: is_early(early, edge),
        deeds,
    })
}

// What the commands of an observation did, under their numbers.
fn command_runs(
    alloc: Global,
    builds: &[Build],
    observation: &Observation,
    edges: &[u32],
    early: &[bool],
) -> Result<Vec<Command>, AllocError>
    requires { length observation.now.entries.paths < 2 ^ 32 }
    ensures { IfOk result (λ runs. map run_value runs.items
        ≡ map (run_at builds.now observation.now edges.now early.now)
        (range_with_len 0 (length observation.now.commands))) }
{
    let commands = observation.commands();
    let mut runs = Vec::new(alloc);
    for number in 0..commands.len() {
        let edge = edge_at(edges, number);
        let run = run_of(alloc, builds, observation, early, edge, &commands[number])?;
        runs.push(run)?;
    }
    Ok(runs)
}

// Adds what Ninja itself did, where that was observed.
fn add_ninja(
    alloc: Global,
    observation: &Observation,
    edge: u32,
    runs: &mut Vec<Command>,
) -> Result<(), AllocError>
    ensures { OnOk result (map run_value runs.new.items
        ≡ map run_value runs.old.items ++ ninja_runs edge observation.now) }
{
    if !observation.has_ninja() {
        return Ok(());
    }
    let mut deeds = Vec::new(alloc);
    add_ninja_lines(observation.ninja(), &mut deeds)?;
    runs.push(Command {
        edge,
        early: false,
        deeds,
    })?;
    Ok(())
}

/// What the commands of an observation and Ninja itself did. `count` is the number of edges.
///
/// # Errors
/// [`AllocError`] only where an allocation was refused.
pub(crate) fn runs_of(
    alloc: Global,
    count: u32,
    builds: &[Build],
    observation: &Observation,
    edges: &[u32],
    early: &[bool],
) -> Result<Vec<Command>, AllocError>
    requires { length observation.now.entries.paths < 2 ^ 32 }
    ensures { IfOk result (λ runs. map run_value runs.items
        ≡ runs_of_observation count builds.now observation.now edges.now early.now) }
{
    let mut runs = command_runs(alloc, builds, observation, edges, early)?;
    add_ninja(alloc, observation, count, &mut runs)?;
    Ok(runs)
}
