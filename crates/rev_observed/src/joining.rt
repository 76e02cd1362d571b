//! The edges of a manifest whose commands were observed.
ghost use Rattle.std.specs.Prelude.{◌≡◌, ◌<◌, ◌∷◌, Some, length, map, nat_eq, ℕ, IfOk, IfSome, IsErrOf};
ghost use Rattle.std.specs.List.{AllByRecursion, IsDistinct};
ghost use Rattle.rev_graph.specs.Graph.{build_at, outputs_of as outputs_of_build};
ghost use Rattle.rev_observed.specs.declared.joining.JoinFault.TheVariants.{Memory};
ghost use Rattle.rev_observed.specs.Joins.{IsFirstLost, edge_of, is_first};
ghost use Rattle.rev_observed.specs.Observations.{outputs_of};

use crate::observation::Observation;
use rev_graph::Graph;
use rev_paths::Name;
use std::alloc::{AllocError, AllocFailed, Global};

/// Why commands have no edges in a manifest.
#[derive(Clone, Copy, Debug, PartialEq, Eq)]
pub enum JoinFault {
    /// An allocation failed.
    Memory,
    /// The command at this place, counted from 0, names a path that no edge has as its first output; it is the first
    /// such command.
    NoSuchEdge(usize),
}

impl<T: Drop> From<AllocFailed<T>> for JoinFault {
    ghost from_gives = { λ _ fault. fault ≡ Memory };

    fn from(_e: AllocFailed<T>) -> JoinFault {
        JoinFault::Memory
    }
}

impl From<AllocError> for JoinFault {
    ghost from_gives = { λ _ fault. fault ≡ Memory };

    fn from(_e: AllocError) -> JoinFault {
        JoinFault::Memory
    }
}

// Whether a path is the first of these.
fn is_first(paths: &[Name], path: &Name) -> bool
    ensures { result ≡ is_first paths.now path.now }
{
    match paths.first() {
        Some(first) => first == path,
        None => false,
    }
}

// Whether a path is the first output of an edge.
fn leads(graph: &Graph, edge: u32, path: &Name) -> bool
    requires { edge < length graph.now.manifest.builds }
    ensures { result ≡ is_first (outputs_of_build (build_at graph.now.manifest.builds edge)) path.now }
{
    let outputs = graph.outputs(edge);
    if outputs.explicit.is_empty() {
        return is_first(outputs.implicit, path);
    }
    is_first(outputs.explicit, path)
}

// The edge of which a path is the first output.
fn edge_of(graph: &Graph, path: &Name) -> Option<u32>
    ensures edge { result ≡ edge_of graph.now.manifest.builds path.now }
    ensures within { IfSome result (λ edge. edge < length graph.now.manifest.builds) }
{
    let edge = graph.producer(path)?;
    if !leads(graph, edge, path) {
        return None;
    }
    Some(edge)
}

/// The edge of each command, in their order: the one whose first output the command's line names. It takes time linear
/// in the commands, up to hashing.
///
/// # Errors
/// [`JoinFault::NoSuchEdge`] with the first command that names no edge's first output. [`JoinFault::Memory`] only where
/// an allocation was refused.
pub fn edges(alloc: Global, graph: &Graph, observation: &Observation) -> Result<Vec<u32>, JoinFault>
    ensures edges { IfOk result (λ edges. map Some edges.items
        ≡ map (edge_of graph.now.manifest.builds) (outputs_of observation.now.commands)) }
    ensures within { IfOk result (λ edges. AllByRecursion (λ edge. edge < length graph.now.manifest.builds) edges.items) }
    ensures once { IfOk result (λ edges. IsDistinct nat_eq edges.items) }
    ensures lost { (place : ℕ) → IsErrOf result (JoinFault.NoSuchEdge place)
        → IsFirstLost graph.now.manifest.builds (outputs_of observation.now.commands) place }
{
    let commands = observation.commands();
    let mut edges = Vec::with_capacity(alloc, commands.len())?;
    for (place, command) in commands.iter().enumerate() {
        let Some(edge) = edge_of(graph, command.output()) else {
            return Err(JoinFault::NoSuchEdge(place));
        };
        edges.push(edge)?;
    }
    Ok(edges)
}
