//! Files that a command reads, and that no line declares.
ghost use Rattle.std.specs.Prelude.{◌≡◌, ◌+◌, ◌<◌, ◌↔◌, ℕ, Some, true, length, All, Contains, IfOk, IsTrue, OnOk};
ghost use Rattle.std.specs.List.{IsDistinct};
ghost use Rattle.std.specs.Str.{bytes_eq};
ghost use Rattle.rev_graph.specs.Graph.{producer_of};
ghost use Rattle.rev_ranks.specs.Graph.{graph_of};
ghost use Rattle.rev_observed.specs.declared.kind.Kind.TheVariants.{Reads};
ghost use Rattle.rev_conflicts.specs.Places.{does as does_of};
ghost use Rattle.rev_unlisted.specs.Found.{AreCountedAtMost, AreReads, IsReadAt, IsReadOf, names_of};

use crate::marking::{is_marked, mark_counted, no_marks};
use rev_conflicts::{does, numbers};
use rev_graph::Graph;
use rev_manifest::Build;
use rev_observed::{Command, Kind};
use rev_paths::{Name, Paths};
use rev_undeclared::{Stronger, is_open};
use std::alloc::{AllocError, Global};

// Whether a path is an output of an edge.
fn is_output_of(graph: &Graph, path: &Name, edge: u32) -> bool
    ensures { IsTrue result ↔ (producer_of graph.now.manifest.builds path.now ≡ Some edge) }
{
    match graph.producer(path) {
        Some(owner) => owner == edge,
        None => false,
    }
}

// Whether a file that a command reads is unlisted, and no stronger finding is about it. `marks` has the user's number
// at the paths that count for it.
fn is_unlisted(
    alloc: Global,
    graph: &Graph,
    builds: &[Build],
    paths: &Paths,
    hidden: &[bool],
    stronger: &Stronger,
    marks: &[Option<u32>],
    user: u32,
    used: &Command,
    path: u64,
) -> Result<bool, AllocError>
    requires hidden { length hidden.now ≡ length paths.now }
    requires marks { length marks.now ≡ length paths.now }
    ensures { IfOk result (λ found. IsTrue found
        ↔ IsReadAt graph.now.manifest.builds paths.now hidden.now builds.now stronger.now marks.now user used.now path) }
{
    if path >= paths.len() {
        return Ok(false);
    }
    if is_marked(marks, path as usize, user) {
        return Ok(false);
    }
    if is_output_of(graph, paths.path(path), user) {
        return Ok(false);
    }
    if stronger.has(user, path) {
        return Ok(false);
    }
    if does(used, Kind::Writes, path) {
        return Ok(false);
    }
    is_open(alloc, builds, paths, hidden, user, path)
}

// The unlisted files that a command reads, without those that stronger findings are about.
fn unlisted_paths(
    alloc: Global,
    graph: &Graph,
    builds: &[Build],
    paths: &Paths,
    hidden: &[bool],
    stronger: &Stronger,
    marks: &[Option<u32>],
    user: u32,
    used: &Command,
) -> Result<Vec<u64>, AllocError>
    requires hidden { length hidden.now ≡ length paths.now }
    requires marks { length marks.now ≡ length paths.now }
    ensures { IfOk result (λ found. (path : ℕ) → Contains found.items path
        ↔ ((does_of Reads used.now path ≡ true) × IsReadAt graph.now.manifest.builds paths.now hidden.now builds.now
        stronger.now marks.now user used.now path)) }
{
    let reads = numbers(alloc, used.paths(Kind::Reads))?;
    let mut found = Vec::new(alloc);
    for path in &reads {
        if is_unlisted(
            alloc, graph, builds, paths, hidden, stronger, marks, user, used, *path,
        )? {
            found.push(*path)?;
        }
    }
    Ok(found)
}

// The unlisted files that a command of an edge reads, without those that stronger findings are about.
fn paths_of(
    alloc: Global,
    graph: &Graph,
    builds: &[Build],
    lists: &[&[Name]],
    paths: &Paths,
    hidden: &[bool],
    stronger: &Stronger,
    user: u32,
    used: &Command,
    nexts: &mut Vec<u64>,
    marks: &mut Vec<Option<u32>>,
) -> Result<Vec<u64>, AllocError>
    requires user { user < length graph.now.manifest.builds }
    requires lists { length lists.now ≡ length graph.now.manifest.builds }
    requires hidden { length hidden.now ≡ length paths.now }
    requires distinct { IsDistinct bytes_eq paths.now }
    requires nexts { length nexts.old.items ≡ length paths.now + 1 }
    requires marks { AreCountedAtMost graph.now.manifest.builds (names_of lists.now) paths.now marks.old.items }
    ensures nexts { length nexts.new.items ≡ length paths.now + 1 }
    ensures marks { AreCountedAtMost graph.now.manifest.builds (names_of lists.now) paths.now marks.new.items }
    ensures found { IfOk result (λ found. (path : ℕ) → Contains found.items path
        ↔ ((does_of Reads used.now path ≡ true) × IsReadOf graph.now.manifest.builds paths.now hidden.now builds.now
        stronger.now (names_of lists.now) user used.now path)) }
{
    mark_counted(graph, lists, paths, user, nexts, marks);
    unlisted_paths(
        alloc, graph, builds, paths, hidden, stronger, marks, user, used,
    )
}

/// For each command the unlisted files that it reads, without those that stronger findings are about. `lists` has for
/// each edge what it lists, and `edges` the edge of each command.
///
/// # Errors
/// [`AllocError`] only where an allocation was refused.
pub(crate) fn paths_of_each(
    alloc: Global,
    graph: &Graph,
    builds: &[Build],
    lists: &[&[Name]],
    paths: &Paths,
    commands: &[Command],
    edges: &[u32],
    hidden: &[bool],
    stronger: &Stronger,
) -> Result<Vec<Vec<u64>>, AllocError>
    requires lists { length lists.now ≡ length graph.now.manifest.builds }
    requires edges { All (λ e. e < length graph.now.manifest.builds) edges.now }
    requires each { length edges.now ≡ length commands.now }
    requires hidden { length hidden.now ≡ length paths.now }
    requires distinct { IsDistinct bytes_eq paths.now }
    ensures { IfOk result (λ found. AreReads graph.now.manifest.builds paths.now hidden.now builds.now stronger.now
        (names_of lists.now) commands.now edges.now (graph_of found.items)) }
{
    let count = paths.len() as usize;
    let mut marks = no_marks(alloc, count)?;
    let mut nexts = vec![in alloc; 0; count + 1]?;
    let mut found = Vec::new(alloc);
    for (number, command) in commands.iter().enumerate() {
        let user = edges[number];
        found.push(paths_of(
            alloc, graph, builds, lists, paths, hidden, stronger, user, command, &mut nexts,
            &mut marks,
        )?)?;
    }
    Ok(found)
}
