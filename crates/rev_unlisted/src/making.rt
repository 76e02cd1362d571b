//! Which edges make which files.
ghost use Rattle.std.specs.Prelude.{◌≡◌, ◌<◌, ◌↔◌, ℕ, length, IfOk, OnOk};
ghost use Rattle.rev_ranks.specs.Graph.{Steps, graph_of};
ghost use Rattle.rev_conflicts.specs.Tables.{Puts};
ghost use Rattle.rev_waits.specs.Waits.{Makes};
ghost use Rattle.rev_undeclared.specs.Undeclared.{path_at};
ghost use Rattle.rev_unlisted.specs.Found.{PutsWhere};
ghost use Rattle.rev_unlisted.specs.Unlisted.{IsMaker};

use rev_conflicts::numbers;
use rev_graph::Graph;
use rev_observed::{Command, Kind};
use rev_paths::Paths;
use rev_waits::{makers, phony_steps};
use std::alloc::{AllocError, Global};

// For each path the edges that make it by the build lines.
fn declared_makers(alloc: Global, graph: &Graph, paths: &Paths) -> Result<Vec<Vec<u32>>, AllocError>
    ensures each { IfOk result (λ lists. length lists.items ≡ length paths.now) }
    ensures exact { IfOk result (λ lists. (p a : ℕ) → p < length paths.now → Steps (graph_of lists.items) p a
        ↔ Makes graph.now.manifest.builds a (path_at paths.now p)) }
{
    let phony = phony_steps(alloc, graph)?;
    let mut lists = Vec::new(alloc);
    for path in 0..paths.len() {
        lists.push(makers(alloc, graph, &phony, paths.path(path))?)?;
    }
    Ok(lists)
}

// Adds an edge at a path.
fn put_maker(lists: &mut Vec<Vec<u32>>, path: usize, edge: u32) -> Result<(), AllocError>
    requires { path < length lists.old.items }
    ensures { OnOk result (Puts (graph_of lists.old.items) (graph_of lists.new.items) path edge) }
{
    lists[path].push(edge)?;
    Ok(())
}

// Adds an edge at paths.
fn put_each(edge: u32, written: &[u64], lists: &mut Vec<Vec<u32>>) -> Result<(), AllocError>
    ensures { OnOk result (PutsWhere (graph_of lists.old.items) (graph_of lists.new.items) edge written.now) }
{
    for path in written {
        if *path < lists.len() as u64 {
            put_maker(lists, *path as usize, edge)?;
        }
    }
    Ok(())
}

/// For each path the edges that make it: those whose commands leave it, and those that the build lines name.
///
/// # Errors
/// [`AllocError`] only where an allocation was refused.
pub(crate) fn maker_lists(
    alloc: Global,
    graph: &Graph,
    paths: &Paths,
    commands: &[Command],
    edges: &[u32],
) -> Result<Vec<Vec<u32>>, AllocError>
    requires { length edges.now ≡ length commands.now }
    ensures each { IfOk result (λ lists. length lists.items ≡ length paths.now) }
    ensures exact { IfOk result (λ lists. (p a : ℕ) → p < length paths.now → Steps (graph_of lists.items) p a
        ↔ IsMaker graph.now.manifest.builds paths.now commands.now edges.now p a) }
{
    let mut lists = declared_makers(alloc, graph, paths)?;
    for (number, command) in commands.iter().enumerate() {
        let written = numbers(alloc, command.paths(Kind::Writes))?;
        put_each(edges[number], &written, &mut lists)?;
    }
    Ok(lists)
}
