//! Certificates.
ghost use Rattle.std.specs.Prelude.{◌≡◌, ◌<◌, ◌↔◌, [], length, map, IfOk, IsTrue};
ghost use Rattle.std.specs.List.{AllByRecursion};
ghost use Rattle.rev_ranks.specs.Graph.{graph_of};
ghost use Rattle.rev_entry_conflicts.specs.Conflicts.{conflicts as conflicts_of};
ghost use Rattle.rev_entry_conflicts.specs.Orders.{scene as scene_value};
ghost use Rattle.rev_scene.specs.Scenes.{IsScene, entries_of, run_value, runs_of, steps_of};
ghost use Rattle.rev_certificate.specs.Obstacles.{obstacles as obstacles_of_values};

use crate::assuming::assumptions_of;
use crate::assumption::Assumption;
use crate::edges::{Marks, add_of_edges};
use crate::obstacle::Obstacle;
use crate::standing::{add_conflicts, add_of_commands, add_of_observation};
use rev_entry_conflicts::conflicts;
use rev_graph::Graph;
use rev_manifest::Build;
use rev_observation::Observation;
use rev_scene::{Scene, scene_of};
use std::alloc::{AllocError, Global};

/// Whether it is certain that no order gives the commands of a build other inputs, and what that is said of.
#[derive(Drop)]
pub struct Certificate {
    /// What was judged.
    pub scene: Scene,
    /// All that stands in the way.
    pub obstacles: Vec<Obstacle>,
    /// What is assumed.
    pub assumptions: Vec<Assumption>,
}

impl Certificate {
    /// Whether it is certain: nothing stands in the way.
    pub fn is_certain(&self) -> bool
        ensures { IsTrue result ↔ (self.now.obstacles.items ≡ []) }
    {
        self.obstacles.is_empty()
    }
}

// All that stands in the way.
fn obstacles_of(
    alloc: Global,
    graph: &Graph,
    observation: &Observation,
    edges: &[u32],
    early: &[bool],
    marks: Marks<'_>,
    scene: &Scene,
) -> Result<Vec<Obstacle>, AllocError>
    requires { IsScene scene.now.steps.items scene.now.entries.items scene.now.commands.items }
    ensures { IfOk result (λ obstacles. obstacles.items ≡ obstacles_of_values graph.now.manifest.builds observation.now
        edges.now early.now marks.entry.needed.now marks.entry.began.now marks.entry.ended.now
        (conflicts_of (scene_value scene.now.steps.items scene.now.entries.items scene.now.commands.items))) }
{
    let mut obstacles = Vec::new(alloc);
    add_of_observation(observation, &mut obstacles)?;
    add_of_edges(alloc, graph, edges, early, marks, &mut obstacles)?;
    add_of_commands(observation, &mut obstacles)?;
    let found = conflicts(alloc, &scene.steps, &scene.entries, &scene.commands)?;
    add_conflicts(&found, &mut obstacles)?;
    Ok(obstacles)
}

/// The certificate of an observation. `builds` has the build lines of the graph with their depfiles and response files.
/// `edges` has the edge of each command, `early` a mark for each edge that makes a file from which the manifest is
/// read, and `hidden` a mark for each entry that a filter hides.
///
/// # Errors
/// [`AllocError`] where an allocation was refused, or where there are more entries, commands or flags than a number of
/// 32 bits counts.
pub fn certify(
    alloc: Global,
    graph: &Graph,
    builds: &[Build],
    observation: &Observation,
    edges: &[u32],
    early: &[bool],
    hidden: &[bool],
    marks: Marks<'_>,
) -> Result<Certificate, AllocError>
    requires within { AllByRecursion (λ edge. edge < length graph.now.manifest.builds) edges.now }
    ensures steps { IfOk result (λ c. graph_of c.scene.steps.items ≡ steps_of graph.now.manifest.builds) }
    ensures entries { IfOk result (λ c. c.scene.entries.items
        ≡ entries_of graph.now.manifest.builds observation.now hidden.now) }
    ensures commands { IfOk result (λ c. map run_value c.scene.commands.items
        ≡ runs_of (length graph.now.manifest.builds) builds.now observation.now edges.now early.now) }
    ensures obstacles { IfOk result (λ c. c.obstacles.items ≡ obstacles_of_values graph.now.manifest.builds
        observation.now edges.now early.now marks.entry.needed.now marks.entry.began.now marks.entry.ended.now
        (conflicts_of (scene_value c.scene.steps.items c.scene.entries.items c.scene.commands.items))) }
{
    let scene = scene_of(alloc, graph, builds, observation, edges, early, hidden)?;
    let obstacles = obstacles_of(alloc, graph, observation, edges, early, marks, &scene)?;
    let assumptions = assumptions_of(alloc, observation, &scene)?;
    Ok(Certificate {
        scene,
        obstacles,
        assumptions,
    })
}
