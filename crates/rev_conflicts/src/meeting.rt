//! Which commands a user's command meets.
ghost use Rattle.std.specs.Prelude.{◌≡◌, ◌≢◌, ◌<◌, ◌↔◌, ◌⊎◌, ℕ, List, All, None, true, length, slice_index_or, Contains, IfOk, IsTrue, OnOk};
ghost use Rattle.rev_graph.specs.Graph.{successor_lists};
ghost use Rattle.rev_ranks.specs.Graph.{graph_of, successors_of};
ghost use Rattle.rev_waits.specs.Waits.{AreWaitedFor, Waits};
ghost use Rattle.rev_races.specs.Searches.{AreDirect, IsKept};
ghost use Rattle.rev_conflicts.specs.Tables.{AreNexts, AreQuiet, IsApart, IsKeyAt, IsKeyBy, IsKeyOf, SomeBelow, place_in, uses_at};
ghost use Rattle.rev_conflicts.specs.declared.place.Place.{Place};
ghost use Rattle.rev_conflicts.specs.declared.place.Place.TheVariants.{File, Entries};

use crate::found::Found;
use crate::nexts::Table;
use crate::place::Place;
use crate::quiet::add_all_suspects;
use crate::told::Told;
use rev_graph::Graph;
use rev_observed::{Command, Kind};
use rev_races::{Search, mark_direct, search_for};
use std::alloc::{AllocError, Global};

// Whether an edge is another than the user's, does not run before all else, and is none that the user waits for.
fn is_apart(graph: &Graph, waited: &[bool], early: &[bool], user: u32, maker: u32) -> bool
    requires maker { maker < length graph.now.manifest.builds }
    requires early { length early.now ≡ length graph.now.manifest.builds }
    requires waited { AreWaitedFor graph.now.manifest.builds user waited.now }
    ensures { IsTrue result ↔ IsApart graph.now.manifest.builds early.now user maker }
{
    if maker == user {
        return false;
    }
    if early[maker as usize] {
        return false;
    }
    !waited[maker as usize]
}

// Adds what is told of a user's command and of these, which touch a place.
fn add_at(
    graph: &Graph,
    edges: &[u32],
    early: &[bool],
    waited: &[bool],
    user: u32,
    used_by: u64,
    place: Place,
    commands: &[u64],
    found: &mut Found,
) -> Result<(), AllocError>
    requires within { All (λ c. c < length edges.now) commands.now }
    requires edges { All (λ e. e < length graph.now.manifest.builds) edges.now }
    requires early { length early.now ≡ length graph.now.manifest.builds }
    requires waited { AreWaitedFor graph.now.manifest.builds user waited.now }
    ensures { OnOk result ((k : List ℕ) → Contains found.new k
        ↔ (Contains found.old k ⊎ IsKeyBy graph.now.manifest.builds early.now edges.now user used_by place commands.now k)) }
{
    for command in commands {
        let maker = edges[*command as usize];
        if is_apart(graph, waited, early, user, maker) {
            found.add(&Told {
                maker,
                user,
                place,
                made_by: *command,
                used_by,
            })?;
        }
    }
    Ok(())
}

// The place of a number.
fn place_of(of_folders: bool, number: u64) -> Place
    ensures { result ≡ place_in of_folders number }
{
    if of_folders {
        Place::Entries(number)
    } else {
        Place::File(number)
    }
}

// Adds what is told of a user's command at the places of these numbers.
fn add_each(
    graph: &Graph,
    edges: &[u32],
    early: &[bool],
    waited: &[bool],
    user: u32,
    used_by: u64,
    of_folders: bool,
    lists: &[Vec<u64>],
    numbers: &[u64],
    found: &mut Found,
) -> Result<(), AllocError>
    requires within { All (λ v. All (λ c. c < length edges.now) v.items) lists.now }
    requires edges { All (λ e. e < length graph.now.manifest.builds) edges.now }
    requires early { length early.now ≡ length graph.now.manifest.builds }
    requires waited { AreWaitedFor graph.now.manifest.builds user waited.now }
    ensures { OnOk result ((k : List ℕ) → Contains found.new k ↔ (Contains found.old k
        ⊎ SomeBelow (λ i. IsKeyBy graph.now.manifest.builds early.now edges.now user used_by
        (place_in of_folders (slice_index_or numbers.now i 0))
        (successors_of (graph_of lists.now) (slice_index_or numbers.now i 0)) k) (length numbers.now))) }
{
    for number in numbers {
        if (*number as usize) < lists.len() {
            let commands = lists[*number as usize].as_slice();
            let place = place_of(of_folders, *number);
            add_at(
                graph, edges, early, waited, user, used_by, place, commands, found,
            )?;
        }
    }
    Ok(())
}

// The numbers of files with which a command has to do, and where something may be told.
fn suspect_files(
    alloc: Global,
    graph: &Graph,
    edges: &[u32],
    direct: &[Option<u32>],
    user: u32,
    files: &Table,
    command: &Command,
) -> Result<Vec<u64>, AllocError>
    requires direct { AreDirect (successor_lists graph.now.manifest.builds) direct.now }
    requires nexts { AreNexts (graph_of files.now.lists.items) files.now.nexts.items }
    ensures { IfOk result (λ suspects. (n : ℕ) → uses_at command.now (File n) ≡ true → Contains suspects.items n
        ⊎ AreQuiet graph.now.manifest.builds edges.now user (successors_of (graph_of files.now.lists.items) n)) }
{
    let mut suspects = Vec::new(alloc);
    add_all_suspects(
        graph,
        edges,
        direct,
        user,
        files,
        command.paths(Kind::Reads),
        &mut suspects,
    )?;
    add_all_suspects(
        graph,
        edges,
        direct,
        user,
        files,
        command.paths(Kind::Misses),
        &mut suspects,
    )?;
    add_all_suspects(
        graph,
        edges,
        direct,
        user,
        files,
        command.paths(Kind::Stats),
        &mut suspects,
    )?;
    add_all_suspects(
        graph,
        edges,
        direct,
        user,
        files,
        command.paths(Kind::Writes),
        &mut suspects,
    )?;
    add_all_suspects(
        graph,
        edges,
        direct,
        user,
        files,
        command.paths(Kind::Deletes),
        &mut suspects,
    )?;
    add_all_suspects(
        graph,
        edges,
        direct,
        user,
        files,
        command.paths(Kind::Temps),
        &mut suspects,
    )?;
    Ok(suspects)
}

// The numbers of folders whose entries a command lists, and where something may be told.
fn suspect_folders(
    alloc: Global,
    graph: &Graph,
    edges: &[u32],
    direct: &[Option<u32>],
    user: u32,
    folders: &Table,
    command: &Command,
) -> Result<Vec<u64>, AllocError>
    requires direct { AreDirect (successor_lists graph.now.manifest.builds) direct.now }
    requires nexts { AreNexts (graph_of folders.now.lists.items) folders.now.nexts.items }
    ensures { IfOk result (λ suspects. (n : ℕ) → uses_at command.now (Entries n) ≡ true → Contains suspects.items n
        ⊎ AreQuiet graph.now.manifest.builds edges.now user (successors_of (graph_of folders.now.lists.items) n)) }
{
    let mut suspects = Vec::new(alloc);
    add_all_suspects(
        graph,
        edges,
        direct,
        user,
        folders,
        command.paths(Kind::Lists),
        &mut suspects,
    )?;
    Ok(suspects)
}

/// Adds the conflicts of a user's command. `direct` has marks of other edges, and of the user afterwards.
///
/// # Errors
/// [`AllocError`] only where an allocation was refused.
pub(crate) fn add_of(
    alloc: Global,
    graph: &Graph,
    steps: &[Vec<u32>],
    edges: &[u32],
    early: &[bool],
    files: &Table,
    folders: &Table,
    command: &Command,
    used_by: usize,
    direct: &mut Vec<Option<u32>>,
    search: &mut Search,
    found: &mut Found,
) -> Result<(), AllocError>
    requires used { used_by < length edges.now }
    requires edges { All (λ e. e < length graph.now.manifest.builds) edges.now }
    requires early { length early.now ≡ length graph.now.manifest.builds }
    requires steps { graph_of steps.now ≡ successor_lists graph.now.manifest.builds }
    requires files { All (λ v. All (λ c. c < length edges.now) v.items) files.now.lists.items }
    requires folders { All (λ v. All (λ c. c < length edges.now) v.items) folders.now.lists.items }
    requires file_nexts { AreNexts (graph_of files.now.lists.items) files.now.nexts.items }
    requires folder_nexts { AreNexts (graph_of folders.now.lists.items) folders.now.nexts.items }
    requires direct { AreDirect (graph_of steps.now) direct.old.items }
    requires kept { IsKept graph.now.manifest.builds search.old.edge search.old.waited.items }
    ensures direct { OnOk result (AreDirect (graph_of steps.now) direct.new.items) }
    ensures kept { OnOk result (IsKept graph.now.manifest.builds search.new.edge search.new.waited.items) }
    ensures stays { OnOk result ((k : List ℕ) → Contains found.old k → Contains found.new k) }
    ensures sound { OnOk result ((k : List ℕ) → Contains found.new k → Contains found.old k
        ⊎ IsKeyOf graph.now.manifest.builds early.now edges.now (graph_of files.now.lists.items)
        (graph_of folders.now.lists.items) used_by k) }
    ensures whole { OnOk result ((place : Place) (k : List ℕ) → uses_at command.now place ≡ true
        → IsKeyAt graph.now.manifest.builds early.now edges.now (graph_of files.now.lists.items)
        (graph_of folders.now.lists.items) used_by place k → Contains found.new k) }
{
    let user = edges[used_by];
    mark_direct(steps, user, direct);
    let in_files = suspect_files(alloc, graph, edges, direct, user, files, command)?;
    let in_folders = suspect_folders(alloc, graph, edges, direct, user, folders, command)?;
    if in_files.is_empty() && in_folders.is_empty() {
        return Ok(());
    }
    search_for(alloc, graph, steps, user, search)?;
    let waited = search.waited.as_slice();
    let number = used_by as u64;
    add_each(
        graph,
        edges,
        early,
        waited,
        user,
        number,
        false,
        &files.lists,
        &in_files,
        found,
    )?;
    add_each(
        graph,
        edges,
        early,
        waited,
        user,
        number,
        true,
        &folders.lists,
        &in_folders,
        found,
    )?;
    Ok(())
}
