//! Which commands leave which files.
ghost use Rattle.std.specs.Prelude.{◌≡◌, ◌<◌, ◌↔◌, ℕ, false, true, length, slice_index_or, All, Contains, IfOk, IsTrue, OnOk};
ghost use Rattle.rev_ranks.specs.Graph.{graph_of};
ghost use Rattle.rev_clashes.specs.Clashes.{file_of};
ghost use Rattle.rev_observed.specs.declared.kind.Kind.TheVariants.{Writes};
ghost use Rattle.rev_conflicts.specs.Places.{does};
ghost use Rattle.rev_undeclared.specs.Tables.{AreLeft, IsOpenAmong, IsOpenAt, PutsIf};
ghost use Rattle.rev_undeclared.specs.Undeclared.{IsOpen, is_at, is_side as is_side_of};

use rev_clashes::SideFile;
use rev_conflicts::{empty_lists, numbers, put};
use rev_manifest::Build;
use rev_observed::{Command, Kind};
use rev_paths::{Name, PathFault, Paths};
use std::alloc::{AllocError, Global};

// Whether a path is an edge's file of this kind.
fn is_file(alloc: Global, kind: SideFile, build: &Build, path: &Name) -> Result<bool, AllocError>
    ensures { IfOk result (λ found. found ≡ is_at path.now (file_of kind build.now)) }
{
    match Name::new(alloc, kind.path_in(build)) {
        Ok(name) => Ok(name == *path),
        Err(PathFault::EmptyPath | PathFault::LongPath) => Ok(false),
        Err(PathFault::Memory) => Err(AllocError),
    }
}

// Whether a path is an edge's depfile, or its response file.
fn is_side(alloc: Global, builds: &[Build], edge: u32, path: &Name) -> Result<bool, AllocError>
    ensures { IfOk result (λ found. found ≡ is_side_of builds.now edge path.now) }
{
    let Some(build) = builds.get(edge as usize) else {
        return Ok(false);
    };
    if is_file(alloc, SideFile::Depfile, build, path)? {
        return Ok(true);
    }
    is_file(alloc, SideFile::ResponseFile, build, path)
}

/// Whether a path has a number, no filter hides it, and it is neither the depfile nor the response file of an edge.
/// `builds` are the edges as the manifest has them.
///
/// # Errors
/// [`AllocError`] only where an allocation was refused.
pub fn is_open(
    alloc: Global,
    builds: &[Build],
    paths: &Paths,
    hidden: &[bool],
    edge: u32,
    path: u64,
) -> Result<bool, AllocError>
    requires { length hidden.now ≡ length paths.now }
    ensures { IfOk result (λ found. IsTrue found ↔ IsOpen paths.now hidden.now builds.now edge path) }
{
    if path >= paths.len() {
        return Ok(false);
    }
    if hidden[path as usize] {
        return Ok(false);
    }
    let side = is_side(alloc, builds, edge, paths.path(path))?;
    Ok(!side)
}

// Adds a command at a path that it leaves.
fn put_open(
    alloc: Global,
    builds: &[Build],
    paths: &Paths,
    hidden: &[bool],
    edge: u32,
    command: u64,
    path: u64,
    lists: &mut Vec<Vec<u64>>,
) -> Result<(), AllocError>
    requires hidden { length hidden.now ≡ length paths.now }
    requires lists { length lists.old.items ≡ length paths.now }
    ensures { OnOk result (PutsIf (graph_of lists.old.items) (graph_of lists.new.items) command
        (IsOpenAt paths.now hidden.now builds.now edge path)) }
{
    if path >= paths.len() {
        return Ok(());
    }
    if is_open(alloc, builds, paths, hidden, edge, path)? {
        put(lists, path as usize, command)?;
    }
    Ok(())
}

// Adds a command at the paths that it leaves.
fn put_each(
    alloc: Global,
    builds: &[Build],
    paths: &Paths,
    hidden: &[bool],
    edge: u32,
    command: u64,
    written: &[u64],
    lists: &mut Vec<Vec<u64>>,
) -> Result<(), AllocError>
    requires hidden { length hidden.now ≡ length paths.now }
    requires lists { length lists.old.items ≡ length paths.now }
    ensures { OnOk result (PutsIf (graph_of lists.old.items) (graph_of lists.new.items) command
        (IsOpenAmong paths.now hidden.now builds.now edge written.now)) }
{
    for path in written {
        put_open(alloc, builds, paths, hidden, edge, command, *path, lists)?;
    }
    Ok(())
}

// The paths that a command leaves, and none where its edge runs before all else.
fn written(
    alloc: Global,
    early: &[bool],
    edge: u32,
    command: &Command,
) -> Result<Vec<u64>, AllocError>
    requires { edge < length early.now }
    ensures { IfOk result (λ paths. (path : ℕ) → Contains paths.items path
        ↔ ((slice_index_or early.now edge false ≡ false) × (does Writes command.now path ≡ true))) }
{
    if early[edge as usize] {
        return Ok(Vec::new(alloc));
    }
    numbers(alloc, command.paths(Kind::Writes))
}

/// For each path the numbers of the commands that leave its file. A path that a filter hides has none. A command is not
/// among them where the path is the depfile or the response file of its edge, and where its edge runs before all else.
///
/// # Errors
/// [`AllocError`] only where an allocation was refused.
pub(crate) fn left_lists(
    alloc: Global,
    builds: &[Build],
    paths: &Paths,
    hidden: &[bool],
    early: &[bool],
    commands: &[Command],
    edges: &[u32],
) -> Result<Vec<Vec<u64>>, AllocError>
    requires hidden { length hidden.now ≡ length paths.now }
    requires edges { All (λ e. e < length early.now) edges.now }
    requires each { length edges.now ≡ length commands.now }
    ensures { IfOk result (λ lists. AreLeft paths.now hidden.now builds.now early.now commands.now edges.now
        (graph_of lists.items)) }
{
    let mut lists = empty_lists(alloc, paths.len())?;
    for (number, command) in commands.iter().enumerate() {
        let edge = edges[number];
        let written = written(alloc, early, edge, command)?;
        put_each(
            alloc,
            builds,
            paths,
            hidden,
            edge,
            number as u64,
            &written,
            &mut lists,
        )?;
    }
    Ok(lists)
}
