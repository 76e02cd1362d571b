//! Later commands that were seen to look at what an event left.
ghost use Rattle.std.specs.Prelude.{◌≡◌, ◌<◌, ◌++◌, ◌∷◌, [], ◌==◌, ℕ, None, All, if◌then◌else◌, filter, is_some, length, slice_index_or, IfOk, OnOk};
ghost use Rattle.std.specs.List.{filter_map, list_any, range_with_len};
ghost use Rattle.std.specs.Option.{option_to_list};
ghost use Rattle.rev_looked.specs.Commands.{number_from};
ghost use Rattle.rev_looked.specs.Needs.{next_left as next_left_of, scene};
ghost use Rattle.rev_looked.specs.Users.{is_there as is_there_of, left_paths as left_paths_of, user_by as user_by_of, users_at, users_of};

use crate::commands::{command_at, look_of, numbers_of};
use crate::declared::is_declared;
use crate::ends::{begun_at, ended_at};
use crate::left::{left_notes, next_left};
use crate::need::is_edge;
use rev_graph::Graph;
use rev_history::History;
use rev_observed::{Command, Kind, Observation};
use rev_paths::Paths;
use rev_runs::is_kept;
use std::alloc::{AllocError, Global};

/// A later event whose command was seen to look at what an earlier one left.
#[derive(Clone, Copy, Debug, PartialEq, Eq)]
pub struct User {
    /// The number of the event that begins the command.
    pub number: u32,
    /// The number of the path that it looks at, in the observation.
    pub path: u64,
    /// How it looks at it: [`Kind::Reads`], [`Kind::Misses`] or [`Kind::Stats`].
    pub look: Kind,
}

// Adds a path that passes.
fn add_where(paths: &mut Vec<u64>, path: u64, passes: bool) -> Result<(), AllocError>
    ensures { OnOk result (paths.new.items ≡ paths.old.items ++ (if passes then path ∷ [] else [])) }
{
    if passes {
        paths.push(path)?;
    }
    Ok(())
}

// The paths that are noted.
fn noted_paths(alloc: Global, notes: &[Option<u32>]) -> Result<Vec<u64>, AllocError>
    ensures { IfOk result (λ paths. paths.items
        ≡ filter (λ path. is_some (slice_index_or notes.now path None)) (range_with_len 0 (length notes.now))) }
{
    let mut paths = Vec::new(alloc);
    for path in 0..notes.len() {
        add_where(&mut paths, path as u64, notes[path].is_some())?;
    }
    Ok(paths)
}

// The paths that were left other than they were at the event of a number.
fn left_paths(
    alloc: Global,
    history: &History,
    observation: &Observation,
    edges: &[u32],
    numbers: &[Option<usize>],
    number: u32,
) -> Result<Vec<u64>, AllocError>
    requires count { length numbers.now ≡ length history.now.timeline.manifest.builds }
    requires each { (edge : ℕ) → edge < length history.now.timeline.manifest.builds
        → slice_index_or numbers.now edge None ≡ number_from 0 edges.now edge }
    ensures { IfOk result (λ paths. paths.items ≡ left_paths_of (scene history.now.timeline observation.now.paths
        observation.now.commands edges.now) number) }
{
    let notes = left_notes(alloc, history, observation, edges, numbers, number)?;
    let paths = noted_paths(alloc, &notes)?;
    Ok(paths)
}

// Whether what was left at a path is still there before a later event: it was not left again before that.
fn is_there(next: Option<u32>, later: u32) -> bool
    ensures { result ≡ is_there_of next later }
{
    match next {
        Some(next) => later <= next,
        None => true,
    }
}

// How a command of an edge, begun at a later event, looks at a path that was left, where that is still there and the
// build line does not declare it. `next` has where the path is left again.
fn user_by(
    graph: &Graph,
    paths: &Paths,
    edge: u32,
    command: &Command,
    later: u32,
    next: Option<u32>,
    path: u64,
) -> Option<User>
    requires { edge < length graph.now.manifest.builds }
    ensures { result ≡ user_by_of graph.now.manifest.builds paths.now edge command.now later next path }
{
    if !is_there(next, later) {
        return None;
    }
    let look = look_of(command, path)?;
    if is_declared(graph, paths, edge, path) {
        return None;
    }
    Some(User {
        number: later,
        path,
        look,
    })
}

// Adds a user, if there is one.
fn add(users: &mut Vec<User>, user: Option<User>) -> Result<(), AllocError>
    ensures { OnOk result (users.new.items ≡ users.old.items ++ option_to_list user) }
{
    if let Some(user) = user {
        users.push(user)?;
    }
    Ok(())
}

// Adds how a command of an edge, begun at a later event, looks at paths that were left. `nexts` has for each path where
// it is left again.
fn add_looks(
    graph: &Graph,
    all: &Paths,
    edge: u32,
    command: &Command,
    later: u32,
    paths: &[u64],
    nexts: &[Option<u32>],
    users: &mut Vec<User>,
) -> Result<(), AllocError>
    requires edge { edge < length graph.now.manifest.builds }
    requires paths { All (λ path. path < length nexts.now) paths.now }
    ensures { OnOk result (users.new.items ≡ users.old.items ++ filter_map (λ path. user_by_of graph.now.manifest.builds
        all.now edge command.now later (slice_index_or nexts.now path None) path) paths.now) }
{
    for path in paths {
        let next = nexts[*path as usize];
        add(
            users,
            user_by(graph, all, edge, command, later, next, *path),
        )?;
    }
    Ok(())
}

// Adds a later event, where it looks at what was left at the event of a number: at one of these paths, each of which is
// left again at the event that `nexts` has. `kept` says that the event is kept.
fn add_later(
    history: &History,
    observation: &Observation,
    edges: &[u32],
    numbers: &[Option<usize>],
    paths: &[u64],
    nexts: &[Option<u32>],
    number: u32,
    kept: bool,
    later: u32,
    users: &mut Vec<User>,
) -> Result<(), AllocError>
    requires count { length numbers.now ≡ length history.now.timeline.manifest.builds }
    requires each { (edge : ℕ) → edge < length history.now.timeline.manifest.builds
        → slice_index_or numbers.now edge None ≡ number_from 0 edges.now edge }
    requires paths { paths.now ≡ left_paths_of (scene history.now.timeline observation.now.paths
        observation.now.commands edges.now) number }
    requires nexts_count { length nexts.now ≡ length observation.now.paths }
    requires nexts { (path : ℕ) → path < length observation.now.paths → slice_index_or nexts.now path None
        ≡ next_left_of (scene history.now.timeline observation.now.paths observation.now.commands edges.now) number
        path }
    requires kept { kept ≡ list_any (λ k. k == number) history.now.timeline.kept }
    ensures { OnOk result (users.new.items ≡ users.old.items ++ users_at (scene history.now.timeline
        observation.now.paths observation.now.commands edges.now) number later) }
{
    let _edges = edges.len();
    let _legal = history.kept();
    if !kept {
        return Ok(());
    }
    if later <= number {
        return Ok(());
    }
    if !is_kept(history, later) {
        return Ok(());
    }
    let Some(edge) = begun_at(history, later) else {
        return Ok(());
    };
    let Some(command) = command_at(observation.commands(), numbers, edge) else {
        return Ok(());
    };
    if is_edge(edge, ended_at(history, number)) {
        return Ok(());
    }
    let graph = history.graph();
    add_looks(
        graph,
        observation.paths(),
        edge,
        command,
        later,
        paths,
        nexts,
        users,
    )
}

// Whether a number is one of some.
fn is_among(numbers: &[u32], number: u32) -> bool
    ensures { result ≡ list_any (λ k. k == number) numbers.now }
{
    numbers.iter().any(|one| *one == number)
}

// Whether a number is one of the kept numbers.
fn is_among_kept(history: &History, number: u32) -> bool
    ensures { result ≡ list_any (λ k. k == number) history.now.timeline.kept }
{
    is_among(history.kept(), number)
}

/// The later kept events whose commands were seen to look at what an event left, which their build lines do not declare: each
/// that begins a command which needs that event by a look ([`crate::needs`]), with the path and how it looks at it, in
/// the order of their numbers and of the paths.
///
/// `edges` has for each command of the observation its edge, as [`rev_observed::edges`] gives them. The kept events are
/// gone through twice: to find where each path is left again, and to find the commands that begin. Of each of these only
/// the paths that were left at the event are looked up.
///
/// # Errors
/// [`AllocError`] only where an allocation was refused.
pub fn users(
    alloc: Global,
    history: &History,
    observation: &Observation,
    edges: &[u32],
    number: u32,
) -> Result<Vec<User>, AllocError>
    ensures { IfOk result (λ users. users.items ≡ users_of (scene history.now.timeline observation.now.paths
        observation.now.commands edges.now) number) }
{
    let numbers = numbers_of(alloc, edges, history.graph().edges())?;
    let paths = left_paths(alloc, history, observation, edges, &numbers, number)?;
    let nexts = next_left(alloc, history, observation, edges, &numbers, number)?;
    let kept = is_among_kept(history, number);
    let mut users = Vec::new(alloc);
    for later in history.kept() {
        add_later(
            history,
            observation,
            edges,
            &numbers,
            &paths,
            &nexts,
            number,
            kept,
            *later,
            &mut users,
        )?;
    }
    Ok(users)
}
