//! The findings of an observation.
ghost use Rattle.std.specs.Prelude.{◌≡◌, ◌<◌, Some, length, map, All, IfOk};
ghost use Rattle.std.specs.List.{AllByRecursion};
ghost use Rattle.rev_graph.specs.Graph.{successor_lists};
ghost use Rattle.rev_ranks.specs.Graph.{graph_of};
ghost use Rattle.rev_observed.specs.Joins.{edge_of};
ghost use Rattle.rev_observed.specs.Observations.{outputs_of};
ghost use Rattle.rev_conflicts.specs.Answer.{AreConflicts};
ghost use Rattle.rev_conflicts.specs.Tables.{AreMet, scene};

use crate::conflict::Conflict;
use crate::early::early_edges;
use crate::found::Found;
use crate::kinds::with_kinds;
use crate::meeting::add_of;
use crate::nexts::with_nexts;
use crate::search::grouped;
use crate::table::{Tables, make_tables};
use crate::told::Told;
use rev_graph::Graph;
use rev_observed::{Command, Observation};
use rev_paths::{Name, Paths};
use rev_races::no_search;
use rev_waits::steps;
use std::alloc::{AllocError, Global};

// What is told of all commands, before its kind is known.
fn found_in(
    alloc: Global,
    graph: &Graph,
    steps: &[Vec<u32>],
    paths: &Paths,
    commands: &[Command],
    edges: &[u32],
    hidden: &[bool],
    early: &[bool],
) -> Result<Vec<Told>, AllocError>
    requires steps { graph_of steps.now ≡ successor_lists graph.now.manifest.builds }
    requires edges { All (λ e. e < length graph.now.manifest.builds) edges.now }
    requires each { length edges.now ≡ length commands.now }
    requires hidden { length hidden.now ≡ length paths.now }
    requires early { length early.now ≡ length graph.now.manifest.builds }
    ensures { IfOk result (λ told. AreMet graph.now.manifest.builds early.now edges.now paths.now hidden.now
        commands.now told.items) }
{
    let Tables { files, folders } = make_tables(alloc, paths, hidden, commands)?;
    let files = with_nexts(alloc, files)?;
    let folders = with_nexts(alloc, folders)?;
    let mut direct = vec![in alloc; None; graph.edges() as usize]?;
    let mut search = no_search(alloc);
    let mut found = Found::new(alloc);
    let numbers = grouped(alloc, steps, edges)?;
    for number in &numbers {
        let place = *number as usize;
        add_of(
            alloc,
            graph,
            steps,
            edges,
            early,
            &files,
            &folders,
            &commands[place],
            place,
            &mut direct,
            &mut search,
            &mut found,
        )?;
    }
    found.into_told(alloc)
}

/// The conflicts of an observation, each once, in the order of the numbers of the maker's edge, of the user's edge, and
/// of the place: files first, and then the entries of folders.
///
/// `edges` has for each command of the observation its edge, as [`rev_observed::edges`] gives them. `files` are those
/// from which the manifest was read: an edge that makes one of them runs before all else, and is the maker of no
/// conflict. `hidden` has a mark for each path that no conflict may name.
///
/// Who touches a place is noted first. Of each command the places that somebody touches are gone through; others are
/// not, however long its ranges are. A search goes through what the user's edge waits for only where a command touches
/// one of these places whose edge the user's edge does not step to. All users that step to the same edges share a
/// search.
///
/// # Errors
/// [`AllocError`] only where an allocation was refused.
pub fn conflicts(
    alloc: Global,
    graph: &Graph,
    files: &[Name],
    observation: &Observation,
    edges: &[u32],
    hidden: &[bool],
) -> Result<Vec<Conflict>, AllocError>
    requires edges { map Some edges.now ≡ map (edge_of graph.now.manifest.builds) (outputs_of observation.now.commands) }
    requires within { AllByRecursion (λ edge. edge < length graph.now.manifest.builds) edges.now }
    requires hidden { length hidden.now ≡ length observation.now.paths }
    ensures { IfOk result (λ conflicts. AreConflicts (scene graph.now.manifest.builds files.now
        observation.now.paths observation.now.commands edges.now hidden.now) conflicts.items) }
{
    let steps = steps(alloc, graph)?;
    let early = early_edges(alloc, graph, files)?;
    let paths = observation.paths();
    let commands = observation.commands();
    let told = found_in(alloc, graph, &steps, paths, commands, edges, hidden, &early)?;
    with_kinds(
        alloc, graph, &steps, files, paths, commands, edges, hidden, &early, &told,
    )
}
