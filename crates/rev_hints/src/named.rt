//! Hints by other names: an edge lists another name of an output.
ghost use Rattle.std.specs.Prelude.{◌≡◌, ◌<◌, ◌↔◌, ◌⊎◌, ◌&&◌, ℕ, List, bytes_eq, false, is_some, length, slice_index_or, Contains, IfOk, IsTrue, OnOk};
ghost use Rattle.std.specs.List.{list_any};
ghost use Rattle.rev_graph.specs.Graph.{successor_lists};
ghost use Rattle.rev_ranks.specs.Graph.{graph_of};
ghost use Rattle.rev_waits.specs.Waits.{AreWaitedFor, phony_lists};
ghost use Rattle.rev_races.specs.Searches.{AreKeptMakers, IsKept};
ghost use Rattle.rev_hints.specs.Names.{AreNameHints, IsDue, IsHintAmong, IsHintAt, IsHintBy, IsHintOfUser, output_of};

use crate::hints::{is_marked, is_new, paths_of};
use indexmap::{IndexMap, IndexSet};
use rev_graph::Graph;
use rev_history::History;
use rev_paths::Name;
use rev_races::{KeptMakers, Search, is_unordered, makers_of, no_makers, no_search, search_for};
use rev_waits::{phony_steps, steps};
use std::alloc::{AllocError, Global};

/// An edge lists another name of an output, and nothing orders the edge that makes the output before it.
#[derive(Clone, Copy, Debug, PartialEq, Eq)]
pub struct NameHint {
    /// The edge that lists the name.
    pub user: u32,
    /// The first place of the name in what the edge lists, from 0.
    pub place: usize,
    /// The edge that makes the output.
    pub maker: u32,
}

// Whether an edge that makes what another lists by another name gives a hint. `waited` has the edges that the other
// waits for, and `whole` those whose commands were observed whole.
fn is_due(
    graph: &Graph,
    files: &[Name],
    whole: &[bool],
    waited: &[bool],
    user: u32,
    maker: u32,
) -> bool
    requires maker { maker < length graph.now.manifest.builds }
    requires waited { AreWaitedFor graph.now.manifest.builds user waited.now }
    ensures { IsTrue result ↔ IsDue graph.now.manifest.builds files.now whole.now user maker }
{
    if is_marked(whole, user) && is_marked(whole, maker) {
        return false;
    }
    is_unordered(graph, files, waited, user, maker)
}

// Adds a hint.
fn add(hints: &mut Vec<NameHint>, hint: NameHint) -> Result<(), AllocError>
    ensures { OnOk result ((h : NameHint) → Contains hints.new.items h
        ↔ (Contains hints.old.items h ⊎ (h ≡ hint))) }
{
    hints.push(hint)?;
    Ok(())
}

// Adds the hints of a user by an output, another name of which stands at a place of what the user lists.
fn add_by(
    alloc: Global,
    graph: &Graph,
    phony: &[Vec<u32>],
    files: &[Name],
    whole: &[bool],
    waited: &[bool],
    user: u32,
    place: usize,
    output: &Name,
    kept: &mut KeptMakers,
    hints: &mut Vec<NameHint>,
) -> Result<(), AllocError>
    requires phony { graph_of phony.now ≡ phony_lists graph.now.manifest.builds }
    requires waited { AreWaitedFor graph.now.manifest.builds user waited.now }
    requires kept { AreKeptMakers graph.now.manifest.builds kept.old.phony kept.old.makers.items }
    ensures kept { OnOk result (AreKeptMakers graph.now.manifest.builds kept.new.phony kept.new.makers.items) }
    ensures hints { OnOk result ((h : NameHint) → Contains hints.new.items h ↔ (Contains hints.old.items h
        ⊎ IsHintBy graph.now.manifest.builds files.now whole.now user place output.now h)) }
{
    let makers = makers_of(alloc, graph, phony, output, kept)?;
    for maker in &makers {
        if is_due(graph, files, whole, waited, user, *maker) {
            add(
                hints,
                NameHint {
                    user,
                    place,
                    maker: *maker,
                },
            )?;
        }
    }
    Ok(())
}

// Adds the hints of a user by a path at a place of what it lists, where the path is another name of an output.
fn add_at(
    alloc: Global,
    graph: &Graph,
    names: &IndexMap<Name, Name>,
    phony: &[Vec<u32>],
    files: &[Name],
    whole: &[bool],
    waited: &[bool],
    user: u32,
    place: usize,
    path: &Name,
    kept: &mut KeptMakers,
    hints: &mut Vec<NameHint>,
) -> Result<(), AllocError>
    requires phony { graph_of phony.now ≡ phony_lists graph.now.manifest.builds }
    requires waited { AreWaitedFor graph.now.manifest.builds user waited.now }
    requires kept { AreKeptMakers graph.now.manifest.builds kept.old.phony kept.old.makers.items }
    ensures kept { OnOk result (AreKeptMakers graph.now.manifest.builds kept.new.phony kept.new.makers.items) }
    ensures hints { OnOk result ((h : NameHint) → Contains hints.new.items h ↔ (Contains hints.old.items h
        ⊎ IsHintAt graph.now.manifest.builds files.now names.now.entries whole.now user place path.now h)) }
{
    let Some(output) = names.get(path) else {
        return Ok(());
    };
    add_by(
        alloc, graph, phony, files, whole, waited, user, place, output, kept, hints,
    )
}

// Adds the hints of a user, which lists these paths.
fn add_among(
    alloc: Global,
    graph: &Graph,
    names: &IndexMap<Name, Name>,
    phony: &[Vec<u32>],
    files: &[Name],
    whole: &[bool],
    waited: &[bool],
    user: u32,
    paths: &[Name],
    kept: &mut KeptMakers,
    hints: &mut Vec<NameHint>,
) -> Result<(), AllocError>
    requires phony { graph_of phony.now ≡ phony_lists graph.now.manifest.builds }
    requires waited { AreWaitedFor graph.now.manifest.builds user waited.now }
    requires kept { AreKeptMakers graph.now.manifest.builds kept.old.phony kept.old.makers.items }
    ensures kept { OnOk result (AreKeptMakers graph.now.manifest.builds kept.new.phony kept.new.makers.items) }
    ensures hints { OnOk result ((h : NameHint) → Contains hints.new.items h ↔ (Contains hints.old.items h
        ⊎ IsHintAmong graph.now.manifest.builds files.now names.now.entries whole.now user paths.now h)) }
{
    let mut seen = IndexSet::new(alloc);
    for (place, path) in paths.iter().enumerate() {
        let first = is_new(&mut seen, path)?;
        if first {
            add_at(
                alloc, graph, names, phony, files, whole, waited, user, place, path, kept, hints,
            )?;
        }
    }
    Ok(())
}

// Whether one of the paths is another name of an output.
fn has_other(names: &IndexMap<Name, Name>, paths: &[Name]) -> bool
    ensures { result ≡ list_any (λ path. is_some (output_of names.now.entries path)) paths.now }
{
    paths.iter().any(|path| names.contains_key(path))
}

// Adds the hints of a user of a history. `search` and `kept` have what the last searches found.
fn add_of(
    alloc: Global,
    history: &History,
    names: &IndexMap<Name, Name>,
    steps: &[Vec<u32>],
    phony: &[Vec<u32>],
    files: &[Name],
    whole: &[bool],
    user: u32,
    search: &mut Search,
    kept: &mut KeptMakers,
    hints: &mut Vec<NameHint>,
) -> Result<(), AllocError>
    requires user { user < length history.now.timeline.manifest.builds }
    requires steps { graph_of steps.now ≡ successor_lists history.now.timeline.manifest.builds }
    requires phony { graph_of phony.now ≡ phony_lists history.now.timeline.manifest.builds }
    requires search { IsKept history.now.timeline.manifest.builds search.old.edge search.old.waited.items }
    requires kept { AreKeptMakers history.now.timeline.manifest.builds kept.old.phony kept.old.makers.items }
    ensures search { OnOk result
        (IsKept history.now.timeline.manifest.builds search.new.edge search.new.waited.items) }
    ensures kept { OnOk result
        (AreKeptMakers history.now.timeline.manifest.builds kept.new.phony kept.new.makers.items) }
    ensures hints { OnOk result ((h : NameHint) → Contains hints.new.items h ↔ (Contains hints.old.items h
        ⊎ IsHintOfUser history.now.timeline files.now names.now.entries whole.now user h)) }
{
    let paths = paths_of(history, user);
    if !has_other(names, paths) {
        return Ok(());
    }
    let graph = history.graph();
    search_for(alloc, graph, steps, user, search)?;
    add_among(
        alloc,
        graph,
        names,
        phony,
        files,
        whole,
        &search.waited,
        user,
        paths,
        kept,
        hints,
    )
}

/// The hints by other names of a history: an edge lists a path that is another name of an output, and nothing orders
/// the edge that makes the output before it. A path counts once in what an edge lists, at its first place. `names` has
/// the other names of outputs, each with its output. `files` are those from which the manifest was read: the edges that
/// make one of them run before all else. `whole` has a mark for each edge whose command was observed whole: of two such
/// ones the observation tells.
///
/// They stand in the order of the users' numbers and of the places in what a user lists. Each path that an edge lists is
/// looked up once. Where one of them is another name, all are looked up once more, and the edge is searched for what it
/// waits for, unless it steps to the same edges as the last one that was.
///
/// # Errors
/// [`AllocError`] only where an allocation was refused.
pub fn name_hints(
    alloc: Global,
    history: &History,
    files: &[Name],
    names: &IndexMap<Name, Name>,
    whole: &[bool],
) -> Result<Vec<NameHint>, AllocError>
    ensures { IfOk result (λ hints. AreNameHints history.now.timeline files.now names.now.entries whole.now
        hints.items) }
{
    let graph = history.graph();
    let steps = steps(alloc, graph)?;
    let phony = phony_steps(alloc, graph)?;
    let mut search = no_search(alloc);
    let mut kept = no_makers(alloc);
    let mut hints = Vec::new(alloc);
    for user in 0..graph.edges() {
        add_of(
            alloc,
            history,
            names,
            &steps,
            &phony,
            files,
            whole,
            user,
            &mut search,
            &mut kept,
            &mut hints,
        )?;
    }
    Ok(hints)
}
