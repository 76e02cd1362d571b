//! The findings of a history.
ghost use Rattle.std.specs.Prelude.{◌≡◌, ◌<◌, ◌↔◌, ◌⊎◌, ℕ, List, length, All, Contains, IfOk, OnOk};
ghost use Rattle.rev_graph.specs.Graph.{successor_lists};
ghost use Rattle.rev_history.specs.Timeline.{kept_events};
ghost use Rattle.rev_ranks.specs.Graph.{graph_of};
ghost use Rattle.rev_waits.specs.Waits.{AreWaitedFor, phony_lists};
ghost use Rattle.rev_races.specs.Answer.{AreRaces};
ghost use Rattle.rev_races.specs.Endings.{AreEndings};
ghost use Rattle.rev_races.specs.Keys.{AreTold, IsKeyAmong, IsKeyAt, IsKeyOf};
ghost use Rattle.rev_races.specs.Kinds.{IsBetween};
ghost use Rattle.rev_races.specs.Searches.{AreDirect, AreKeptMakers, IsFirstOrUntold, IsKept};

use crate::direct::{mark_direct, suspects};
use crate::endings::output_endings;
use crate::found::Found;
use crate::kinds::with_kinds;
use crate::listing::listed;
use crate::making::{KeptMakers, makers_of, no_makers};
use crate::order::is_to_tell;
use crate::race::Race;
use crate::search::{Search, grouped, no_search, search_for};
use crate::told::Told;
use rev_graph::Graph;
use rev_history::History;
use rev_paths::Name;
use rev_waits::{phony_steps, steps};
use std::alloc::{AllocError, Global};

// Adds what is told of a user at one place of its list.
fn add_at(
    alloc: Global,
    graph: &Graph,
    phony: &[Vec<u32>],
    files: &[Name],
    waited: &[bool],
    user: u32,
    paths: &[Name],
    place: usize,
    behind: &mut KeptMakers,
    found: &mut Found,
) -> Result<(), AllocError>
    requires first { IsFirstOrUntold graph.now.manifest.builds files.now user paths.now place }
    requires phony { graph_of phony.now ≡ phony_lists graph.now.manifest.builds }
    requires waited { AreWaitedFor graph.now.manifest.builds user waited.now }
    requires place { place < length paths.now }
    requires behind { AreKeptMakers graph.now.manifest.builds behind.old.phony behind.old.makers.items }
    ensures behind { OnOk result (AreKeptMakers graph.now.manifest.builds behind.new.phony behind.new.makers.items) }
    ensures found { OnOk result ((k : List ℕ) → Contains found.new k
        ↔ (Contains found.old k ⊎ IsKeyAt graph.now.manifest.builds files.now paths.now user place k)) }
{
    let makers = makers_of(alloc, graph, phony, &paths[place], behind)?;
    for maker in &makers {
        if is_to_tell(graph, files, waited, user, *maker) {
            found.add(*maker, user, place as u64)?;
        }
    }
    Ok(())
}

// Adds what is told of a user at these places of its list, of which no other has anything to tell.
fn add_among(
    alloc: Global,
    graph: &Graph,
    phony: &[Vec<u32>],
    files: &[Name],
    waited: &[bool],
    user: u32,
    paths: &[Name],
    places: &[usize],
    behind: &mut KeptMakers,
    found: &mut Found,
) -> Result<(), AllocError>
    requires firsts { All (IsFirstOrUntold graph.now.manifest.builds files.now user paths.now) places.now }
    requires phony { graph_of phony.now ≡ phony_lists graph.now.manifest.builds }
    requires waited { AreWaitedFor graph.now.manifest.builds user waited.now }
    requires within { All (λ place. place < length paths.now) places.now }
    requires rest { (place : ℕ) → place < length paths.now → Contains places.now place
        ⊎ ((k : List ℕ) → IsKeyAt graph.now.manifest.builds files.now paths.now user place k → ⊥) }
    requires behind { AreKeptMakers graph.now.manifest.builds behind.old.phony behind.old.makers.items }
    ensures behind { OnOk result (AreKeptMakers graph.now.manifest.builds behind.new.phony behind.new.makers.items) }
    ensures found { OnOk result ((k : List ℕ) → Contains found.new k
        ↔ (Contains found.old k ⊎ IsKeyAmong graph.now.manifest.builds files.now paths.now user k)) }
{
    for place in places {
        add_at(
            alloc, graph, phony, files, waited, user, paths, *place, behind, found,
        )?;
    }
    Ok(())
}

// Adds what is told of a user. `direct` has marks of other edges, and of the user afterwards.
fn add_of(
    alloc: Global,
    history: &History,
    steps: &[Vec<u32>],
    phony: &[Vec<u32>],
    endings: &[bool],
    files: &[Name],
    direct: &mut Vec<Option<u32>>,
    search: &mut Search,
    behind: &mut KeptMakers,
    user: u32,
    found: &mut Found,
) -> Result<(), AllocError>
    requires user { user < length history.now.timeline.manifest.builds }
    requires steps { graph_of steps.now ≡ successor_lists history.now.timeline.manifest.builds }
    requires phony { graph_of phony.now ≡ phony_lists history.now.timeline.manifest.builds }
    requires endings { AreEndings history.now.timeline.manifest.builds endings.now }
    requires direct { AreDirect (graph_of steps.now) direct.old.items }
    requires kept { IsKept history.now.timeline.manifest.builds search.old.edge search.old.waited.items }
    requires behind { AreKeptMakers history.now.timeline.manifest.builds behind.old.phony behind.old.makers.items }
    ensures direct { OnOk result (AreDirect (graph_of steps.now) direct.new.items) }
    ensures kept { OnOk result (IsKept history.now.timeline.manifest.builds search.new.edge search.new.waited.items) }
    ensures behind { OnOk result
        (AreKeptMakers history.now.timeline.manifest.builds behind.new.phony behind.new.makers.items) }
    ensures found { OnOk result ((k : List ℕ) → Contains found.new k
        ↔ (Contains found.old k ⊎ IsKeyOf history.now.timeline files.now user k)) }
{
    let Some(paths) = listed(history, user) else {
        return Ok(());
    };
    let graph = history.graph();
    let _edges = graph.edges();
    mark_direct(steps, user, direct);
    let places = suspects(alloc, graph, endings, direct, user, paths)?;
    if places.is_empty() {
        return Ok(());
    }
    search_for(alloc, graph, steps, user, search)?;
    add_among(
        alloc,
        graph,
        phony,
        files,
        &search.waited,
        user,
        paths,
        &places,
        behind,
        found,
    )?;
    Ok(())
}

// What is told of all users.
fn found_in(
    alloc: Global,
    history: &History,
    steps: &[Vec<u32>],
    files: &[Name],
) -> Result<Vec<Told>, AllocError>
    requires { graph_of steps.now ≡ successor_lists history.now.timeline.manifest.builds }
    ensures told { IfOk result (λ told. AreTold history.now.timeline files.now told.items) }
    ensures between { IfOk result (λ told. All (IsBetween history.now.timeline.manifest.builds) told.items) }
{
    let graph = history.graph();
    let phony = phony_steps(alloc, graph)?;
    let endings = output_endings(alloc, graph)?;
    let mut direct = vec![in alloc; None; graph.edges() as usize]?;
    let mut search = no_search(alloc);
    let mut behind = no_makers(alloc);
    let mut found = Found::new(alloc);
    let users = grouped(alloc, steps)?;
    for user in &users {
        add_of(
            alloc,
            history,
            steps,
            &phony,
            &endings,
            files,
            &mut direct,
            &mut search,
            &mut behind,
            *user,
            &mut found,
        )?;
    }
    found.into_told(alloc)
}

/// The races, cycles and owns of a history. A race: an edge lists a path that another edge makes, and does not wait for
/// that edge. A cycle: the same, and the maker waits for the user. An own: an edge lists a path that it makes itself.
/// Their order is that of the maker's number, then of the user's, then of the path's place in the user's list.
///
/// `files` are those from which the manifest was read. The edges that make one of them run before all else, and race
/// with no edge.
///
/// Each listed path that ends like an output is looked up once, and once more where an edge makes it to which the user
/// does not step. Only in this case a search goes through what the user waits for: one search for all users that step to
/// the same edges.
///
/// # Errors
/// [`AllocError`] only where an allocation was refused.
pub fn races(alloc: Global, history: &History, files: &[Name]) -> Result<Vec<Race>, AllocError>
    ensures { IfOk result (λ races. AreRaces history.now.timeline.manifest files.now
        history.now.timeline.opening (kept_events history.now.timeline) races.items) }
{
    let graph = history.graph();
    let steps = steps(alloc, graph)?;
    let told = found_in(alloc, history, &steps, files)?;
    let races = with_kinds(alloc, graph, &steps, &told)?;
    Ok(races)
}
