//! The findings about files that commands read.
ghost use Rattle.std.specs.Prelude.{◌≡◌, ◌+◌, ◌<◌, ◌^◌, ◌==◌, ◌∷◌, [], ◌↔◌, ◌⊎◌, ℕ, List, Some, length, vec_len, map, unwrap_or, true, All, Contains, IfOk, IsTrue, OnOk};
ghost use Rattle.std.specs.List.{AllByRecursion, IsDistinct, list_all};
ghost use Rattle.std.specs.Str.{bytes_eq};
ghost use Rattle.rev_history.specs.Timeline.{kept_events};
ghost use Rattle.rev_observed.specs.Joins.{edge_of};
ghost use Rattle.rev_observed.specs.Observations.{outputs_of};
ghost use Rattle.rev_ranks.specs.Graph.{graph_of};
ghost use Rattle.rev_races.specs.Races.{lists};
ghost use Rattle.rev_conflicts.specs.Tables.{scene};
ghost use Rattle.rev_undeclared.specs.Stronger.{is_told};
ghost use Rattle.rev_unlisted.specs.Answer.{AreUnlisted, IsToldOf, lists_in};
ghost use Rattle.rev_unlisted.specs.Follows.{follow_lists};
ghost use Rattle.rev_unlisted.specs.Joined.{joined_in};
ghost use Rattle.rev_unlisted.specs.Found.{AreFound, AreKeys, AreLedTo, AreNeither, IsFollow, IsKeyAmong, IsKeyBelow, IsKeyIn, names_of};

use crate::covering::{cover, is_neither, led_to, reached};
use crate::follows::follow_steps;
use crate::found::Found;
use crate::input::Unlisted;
use crate::joining::{extended_lists, joined_lists};
use crate::making::maker_lists;
use crate::reading::paths_of_each;
use indexmap::IndexMap;
use rev_conflicts::Conflict;
use rev_graph::Graph;
use rev_history::History;
use rev_manifest::Build;
use rev_observed::{Command, Observation};
use rev_paths::{Name, Paths};
use rev_races::listed;
use rev_undeclared::{Stronger, Undeclared, told_by};
use std::alloc::{AllocError, Global};

// Ways on which Ninja comes to run an edge again.
struct Ways {
    // The steps from each node.
    steps: Vec<Vec<u32>>,
    // A mark for each node, set wherever some edge leads.
    led: Vec<bool>,
}

impl Drop for Ways {
    fn drop(self) {
        let Ways {
            steps: _steps,
            led: _led,
        } = self;
    }
}

// The ways on which Ninja comes to run an edge again: those that are sure, or all.
fn find_ways(
    alloc: Global,
    graph: &Graph,
    lists: &[&[Name]],
    paths: &Paths,
    sure: bool,
) -> Result<Ways, AllocError>
    requires few { length graph.now.manifest.builds + length paths.now < 2 ^ 32 }
    requires each { length lists.now ≡ length graph.now.manifest.builds }
    ensures steps { IfOk result (λ ways. graph_of ways.steps.items
        ≡ follow_lists graph.now.manifest.builds (names_of lists.now) paths.now sure) }
    ensures nodes { IfOk result (λ ways. IsFollow (length graph.now.manifest.builds + length paths.now)
        ways.steps.items) }
    ensures led { IfOk result (λ ways. AreLedTo (graph_of ways.steps.items) (length graph.now.manifest.builds)
        ways.led.items) }
{
    let steps = follow_steps(alloc, graph, lists, paths, sure)?;
    let led = led_to(alloc, &steps, graph.edges())?;
    Ok(Ways { steps, led })
}

// Adds the findings about these files, which a user's command reads, with their covers.
fn add_each(
    graph: &Graph,
    makers: &[Vec<u32>],
    sure: &[bool],
    met: &[bool],
    user: u32,
    used_by: u64,
    files: &[u64],
    found: &mut Found,
) -> Result<(), AllocError>
    requires nodes { length graph.now.manifest.builds + length makers.now ≡ length met.now }
    requires sure { length sure.now ≡ length met.now }
    requires makers { All (λ v. All (λ e. e < length graph.now.manifest.builds) v.items) makers.now }
    requires files { All (λ p. p < length makers.now) files.now }
    ensures { OnOk result ((k : List ℕ) → Contains found.new k ↔ (Contains found.old k
        ⊎ IsKeyAmong (length graph.now.manifest.builds) (graph_of makers.now) sure.now met.now user used_by files.now k)) }
{
    let edges = graph.edges() as usize;
    for path in files {
        let makers = makers[*path as usize].as_slice();
        found.add(&Unlisted {
            cover: cover(makers, edges + *path as usize, sure, met),
            user,
            path: *path,
            used_by,
        })?;
    }
    Ok(())
}

// Whether each of these files is neither covered nor held back, by marks of where some edge leads: then no search from
// one edge says otherwise.
fn are_neither(
    makers: &[Vec<u32>],
    edges: usize,
    sure: &[bool],
    met: &[bool],
    files: &[u64],
) -> bool
    requires nodes { edges + length makers.now ≡ length met.now }
    requires sure { length sure.now ≡ length met.now }
    requires makers { All (λ v. All (λ e. e < edges) v.items) makers.now }
    requires files { All (λ p. p < length makers.now) files.now }
    ensures { IsTrue result → AreNeither edges (graph_of makers.now) sure.now met.now files.now }
{
    for path in files {
        let of = makers[*path as usize].as_slice();
        if !is_neither(cover(of, edges + *path as usize, sure, met)) {
            return false;
        }
    }
    true
}

// Adds the findings about these files, which a user's command reads. `met_led` and `sure_led` have marks of where some
// edge leads: a search from the user is made only where these leave it open.
fn add_of(
    alloc: Global,
    graph: &Graph,
    steps: &[Vec<u32>],
    sure_steps: &[Vec<u32>],
    makers: &[Vec<u32>],
    met_led: &[bool],
    sure_led: &[bool],
    user: u32,
    used_by: u64,
    files: &[u64],
    found: &mut Found,
) -> Result<(), AllocError>
    requires user { user < length graph.now.manifest.builds }
    requires files { All (λ p. p < length makers.now) files.now }
    requires makers { All (λ v. All (λ e. e < length graph.now.manifest.builds) v.items) makers.now }
    requires steps { IsFollow (length graph.now.manifest.builds + length makers.now) steps.now }
    requires sure_steps { IsFollow (length graph.now.manifest.builds + length makers.now) sure_steps.now }
    requires met_led { AreLedTo (graph_of steps.now) (length graph.now.manifest.builds) met_led.now }
    requires sure_led { AreLedTo (graph_of sure_steps.now) (length graph.now.manifest.builds) sure_led.now }
    ensures { OnOk result ((k : List ℕ) → Contains found.new k ↔ (Contains found.old k
        ⊎ IsKeyIn (length graph.now.manifest.builds) (graph_of steps.now) (graph_of sure_steps.now)
        (graph_of makers.now) user used_by files.now k)) }
{
    if files.is_empty() {
        return Ok(());
    }
    if are_neither(makers, graph.edges() as usize, sure_led, met_led, files) {
        return add_each(
            graph, makers, sure_led, met_led, user, used_by, files, found,
        );
    }
    let met = reached(alloc, steps, user)?;
    let sure = reached(alloc, sure_steps, user)?;
    add_each(graph, makers, &sure, &met, user, used_by, files, found)
}

// What is found of all commands, which read these files.
fn found_of(
    alloc: Global,
    graph: &Graph,
    steps: &[Vec<u32>],
    sure_steps: &[Vec<u32>],
    makers: &[Vec<u32>],
    met_led: &[bool],
    sure_led: &[bool],
    edges: &[u32],
    reads: &[Vec<u64>],
) -> Result<Found, AllocError>
    requires edges { All (λ e. e < length graph.now.manifest.builds) edges.now }
    requires each { length edges.now ≡ length reads.now }
    requires files { All (λ v. All (λ p. p < length makers.now) v.items) reads.now }
    requires makers { All (λ v. All (λ e. e < length graph.now.manifest.builds) v.items) makers.now }
    requires steps { IsFollow (length graph.now.manifest.builds + length makers.now) steps.now }
    requires sure_steps { IsFollow (length graph.now.manifest.builds + length makers.now) sure_steps.now }
    requires met_led { AreLedTo (graph_of steps.now) (length graph.now.manifest.builds) met_led.now }
    requires sure_led { AreLedTo (graph_of sure_steps.now) (length graph.now.manifest.builds) sure_led.now }
    ensures { IfOk result (λ found. (k : List ℕ) → Contains found k
        ↔ IsKeyBelow (length graph.now.manifest.builds) (graph_of steps.now) (graph_of sure_steps.now)
        (graph_of makers.now) edges.now (graph_of reads.now) (length reads.now) k) }
{
    let mut found = Found::new(alloc);
    for (number, read) in reads.iter().enumerate() {
        let files = read.as_slice();
        add_of(
            alloc,
            graph,
            steps,
            sure_steps,
            makers,
            met_led,
            sure_led,
            edges[number],
            number as u64,
            files,
            &mut found,
        )?;
    }
    Ok(found)
}

// What is found of all commands, which read these files, by all ways and by those that are sure.
fn found_by_ways(
    alloc: Global,
    graph: &Graph,
    lists: &[&[Name]],
    paths: &Paths,
    commands: &[Command],
    edges: &[u32],
    reads: &[Vec<u64>],
) -> Result<Found, AllocError>
    requires few { length graph.now.manifest.builds + length paths.now < 2 ^ 32 }
    requires lists { length lists.now ≡ length graph.now.manifest.builds }
    requires edges { All (λ e. e < length graph.now.manifest.builds) edges.now }
    requires commands { length edges.now ≡ length commands.now }
    requires reads { length edges.now ≡ length reads.now }
    requires files { All (λ v. All (λ p. p < length paths.now) v.items) reads.now }
    ensures { IfOk result (AreKeys graph.now.manifest.builds (names_of lists.now) paths.now commands.now edges.now
        (graph_of reads.now)) }
{
    let all = find_ways(alloc, graph, lists, paths, false)?;
    let sure = find_ways(alloc, graph, lists, paths, true)?;
    let makers = maker_lists(alloc, graph, paths, commands, edges)?;
    found_of(
        alloc,
        graph,
        &all.steps,
        &sure.steps,
        &makers,
        &all.led,
        &sure.led,
        edges,
        reads,
    )
}

// Whether no command reads such a file.
fn are_empty(files: &[Vec<u64>]) -> bool
    ensures { result ≡ list_all (λ each. vec_len each == 0) files.now }
{
    files.iter().all(|each| each.is_empty())
}

// The findings about all commands.
fn found_in(
    alloc: Global,
    graph: &Graph,
    files: &[Name],
    builds: &[Build],
    lists: &[&[Name]],
    paths: &Paths,
    commands: &[Command],
    edges: &[u32],
    hidden: &[bool],
    stronger: &Stronger,
) -> Result<Vec<Unlisted>, AllocError>
    requires few { length graph.now.manifest.builds + length paths.now < 2 ^ 32 }
    requires lists { length lists.now ≡ length graph.now.manifest.builds }
    requires edges { All (λ e. e < length graph.now.manifest.builds) edges.now }
    requires each { length edges.now ≡ length commands.now }
    requires hidden { length hidden.now ≡ length paths.now }
    requires distinct { IsDistinct bytes_eq paths.now }
    ensures { IfOk result (λ told. AreFound (scene graph.now.manifest.builds files.now paths.now commands.now edges.now
        hidden.now) builds.now (names_of lists.now) stronger.now told.items) }
{
    let _files = files.len();
    let reads = paths_of_each(
        alloc, graph, builds, lists, paths, commands, edges, hidden, stronger,
    )?;
    // What makes Ninja run an edge again is known only at a cost, and not asked where nothing is unlisted.
    if are_empty(&reads) {
        return Ok(Vec::new(alloc));
    }
    let found = found_by_ways(alloc, graph, lists, paths, commands, edges, &reads)?;
    found.into_told(alloc)
}

// What an edge lists: nothing where it has no list.
fn list_of<'a>(history: &'a History, edge: u32) -> &'a [Name]
    requires { edge < length history.now.timeline.manifest.builds }
    ensures { result.now ≡ unwrap_or (lists history.now.timeline.manifest history.now.timeline.opening
        (kept_events history.now.timeline) edge) [] }
{
    match listed(history, edge) {
        Some(list) => list,
        None => &[],
    }
}

/// What each edge lists: nothing where it has no list.
///
/// # Errors
/// [`AllocError`] only where an allocation was refused.
pub(crate) fn all_lists<'a>(
    alloc: Global,
    history: &'a History,
) -> Result<Vec<&'a [Name]>, AllocError>
    ensures { IfOk result (λ lists. names_of lists.items ≡ lists_in history.now.timeline) }
{
    let mut lists = Vec::new(alloc);
    for edge in 0..history.graph().edges() {
        lists.push(list_of(history, edge))?;
    }
    Ok(lists)
}

// The users and files that stronger findings are about.
fn stronger(
    alloc: Global,
    conflicts: &[Conflict],
    undeclared: &[Undeclared],
) -> Result<Stronger, AllocError>
    ensures { IfOk result (λ stronger. (user path : ℕ) → Contains stronger (user ∷ path ∷ [])
        ↔ ((is_told conflicts.now user path ≡ true) ⊎ IsToldOf undeclared.now user path)) }
{
    let mut stronger = told_by(alloc, conflicts)?;
    for told in undeclared {
        stronger.add(told.user, told.path)?;
    }
    Ok(stronger)
}

/// The files that commands read, where the file is neither an explicit nor an implicit input of the command's edge, and
/// the edge does not list it. Each finding says whether Ninja runs the command again when the file changes. Each stands
/// once, in the order of the numbers of the user's edge, of the path, and of the command.
///
/// `history` has the lists: [`rev_races::listed`] gives what an edge lists. `names` has other names of files, each with the
/// own name of its file: what counts for an edge by another name counts by the own name too. `files`, `builds`, `edges` and `hidden` are
/// as for [`rev_undeclared::undeclared_files`]. `conflicts` is the answer of [`rev_conflicts::conflicts`], and
/// `undeclared` is that of [`rev_undeclared::undeclared_files`]. Where one of these two is about a user and a file,
/// this answer has nothing about that user and that file.
///
/// It takes time linear in the lists, the observation and the answer, up to logarithms, and two searches for each edge
/// that reads a file to which some edge leads, and that is unlisted for it.
///
/// # Errors
/// [`AllocError`] where an allocation was refused, and where edges and paths together are 2^32 or more.
pub fn unlisted_files(
    alloc: Global,
    history: &History,
    names: &IndexMap<Name, Name>,
    files: &[Name],
    builds: &[Build],
    observation: &Observation,
    edges: &[u32],
    hidden: &[bool],
    conflicts: &[Conflict],
    undeclared: &[Undeclared],
) -> Result<Vec<Unlisted>, AllocError>
    requires edges { map Some edges.now ≡ map (edge_of history.now.timeline.manifest.builds)
        (outputs_of observation.now.commands) }
    requires within { AllByRecursion (λ edge. edge < length history.now.timeline.manifest.builds) edges.now }
    requires hidden { length hidden.now ≡ length observation.now.paths }
    ensures { IfOk result (λ unlisted. AreUnlisted (scene history.now.timeline.manifest.builds files.now
        observation.now.paths observation.now.commands edges.now hidden.now) builds.now
        (joined_in history.now.timeline.manifest.builds (lists_in history.now.timeline) names.now.entries)
        conflicts.now undeclared.now unlisted.items) }
{
    let graph = history.graph();
    let paths = observation.paths();
    if u64::from(graph.edges()) + paths.len() > u64::from(u32::MAX) {
        return Err(AllocError);
    }
    let lists = all_lists(alloc, history)?;
    let extended = extended_lists(alloc, graph, names, &lists)?;
    let joined = joined_lists(alloc, &lists, &extended)?;
    let stronger = stronger(alloc, conflicts, undeclared)?;
    let commands = observation.commands();
    found_in(
        alloc, graph, files, builds, &joined, paths, commands, edges, hidden, &stronger,
    )
}
