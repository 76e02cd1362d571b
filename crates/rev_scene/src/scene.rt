//! The scene of an observation.
ghost use Rattle.std.specs.Prelude.{◌≡◌, ◌<◌, ◌^◌, length, map, IfOk};
ghost use Rattle.std.specs.List.{AllByRecursion};
ghost use Rattle.rev_ranks.specs.Graph.{graph_of};
ghost use Rattle.rev_scene.specs.Scenes.{IsScene, entries_of as entries_of_observation, run_value, runs_of as runs_of_observation, steps_of};

use crate::makers::entries_of;
use crate::runs::runs_of;
use rev_entry_conflicts::{Command, Entry};
use rev_graph::Graph;
use rev_manifest::Build;
use rev_observation::Observation;
use rev_waits::steps;
use std::alloc::{AllocError, Global};

/// What is judged of an observation.
#[derive(Drop)]
pub struct Scene {
    /// For each edge the edges that make its inputs, and one list more, which is empty: that of Ninja.
    pub steps: Vec<Vec<u32>>,
    /// The entries, under their numbers in the observation.
    pub entries: Vec<Entry>,
    /// The commands, under their numbers in the observation. Where the observation has what Ninja itself did, Ninja is
    /// one command more. Its edge has the number after the last edge's.
    pub commands: Vec<Command>,
}

/// The scene of an observation. `builds` has the build lines of the graph with their depfiles and response files.
/// `edges` has the edge of each command, `early` a mark for each edge that runs before all else, and `hidden` a mark
/// for each entry that a filter hides. It takes time linear in the observation and the edges, up to hashing.
///
/// # Errors
/// [`AllocError`] only where an allocation was refused, or where there are more entries or commands than a number of 32
/// bits counts.
pub fn scene_of(
    alloc: Global,
    graph: &Graph,
    builds: &[Build],
    observation: &Observation,
    edges: &[u32],
    early: &[bool],
    hidden: &[bool],
) -> Result<Scene, AllocError>
    requires within { AllByRecursion (λ edge. edge < length graph.now.manifest.builds) edges.now }
    ensures steps { IfOk result (λ scene. graph_of scene.steps.items ≡ steps_of graph.now.manifest.builds) }
    ensures entries { IfOk result (λ scene. scene.entries.items
        ≡ entries_of_observation graph.now.manifest.builds observation.now hidden.now) }
    ensures commands { IfOk result (λ scene. map run_value scene.commands.items
        ≡ runs_of_observation (length graph.now.manifest.builds) builds.now observation.now edges.now early.now) }
    ensures scene { IfOk result (λ scene. IsScene scene.steps.items scene.entries.items scene.commands.items) }
{
    if observation.entries().len() > u64::from(u32::MAX) {
        return Err(AllocError);
    }
    let mut steps = steps(alloc, graph)?;
    steps.push(Vec::new(alloc))?;
    let entries = entries_of(alloc, graph, observation, hidden)?;
    let commands = runs_of(alloc, graph.edges(), builds, observation, edges, early)?;
    if commands.len() > u32::MAX as usize {
        return Err(AllocError);
    }
    Ok(Scene {
        steps,
        entries,
        commands,
    })
}
