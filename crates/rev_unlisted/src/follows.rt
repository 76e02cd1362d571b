//! The graph of what makes Ninja run an edge again.
ghost use Rattle.std.specs.Prelude.{◌≡◌, ◌+◌, ◌<◌, ◌++◌, ◌^◌, ◌∷◌, [], length, IfOk, OnOk};
ghost use Rattle.rev_graph.specs.Graph.{build_at};
ghost use Rattle.rev_ranks.specs.Graph.{graph_of};
ghost use Rattle.rev_unlisted.specs.Follows.{follow_lists, makers_of, path_nodes};
ghost use Rattle.rev_unlisted.specs.Found.{names_of};

use rev_graph::Graph;
use rev_paths::{Name, Paths};
use std::alloc::{AllocError, Global};

// Adds the edge that makes a path; of the sure ones only where it has no restat.
fn push_maker(
    graph: &Graph,
    name: &Name,
    sure: bool,
    steps: &mut Vec<u32>,
) -> Result<(), AllocError>
    ensures { OnOk result (steps.new.items
        ≡ steps.old.items ++ makers_of graph.now.manifest.builds sure (name.now ∷ [])) }
{
    let Some(maker) = graph.producer(name) else {
        return Ok(());
    };
    if sure && graph.restat(maker) {
        return Ok(());
    }
    steps.push(maker)?;
    Ok(())
}

// Adds the edges that make paths.
fn push_makers(
    graph: &Graph,
    names: &[Name],
    sure: bool,
    steps: &mut Vec<u32>,
) -> Result<(), AllocError>
    ensures { OnOk result (steps.new.items ≡ steps.old.items ++ makers_of graph.now.manifest.builds sure names.now) }
{
    for name in names {
        push_maker(graph, name, sure, steps)?;
    }
    Ok(())
}

// Adds the nodes of paths that have numbers.
fn push_paths(
    edges: u32,
    paths: &Paths,
    names: &[Name],
    steps: &mut Vec<u32>,
) -> Result<(), AllocError>
    requires { edges + length paths.now < 2 ^ 32 }
    ensures { OnOk result (steps.new.items ≡ steps.old.items ++ path_nodes edges paths.now names.now) }
{
    for name in names {
        if let Some(path) = paths.find(name) {
            steps.push(edges + path as u32)?;
        }
    }
    Ok(())
}

// The nodes to which an edge steps.
fn follow(
    alloc: Global,
    graph: &Graph,
    list: &[Name],
    paths: &Paths,
    sure: bool,
    edge: u32,
) -> Result<Vec<u32>, AllocError>
    requires edge { edge < length graph.now.manifest.builds }
    requires few { length graph.now.manifest.builds + length paths.now < 2 ^ 32 }
    ensures { IfOk result (λ steps. steps.items
        ≡ makers_of graph.now.manifest.builds sure ((build_at graph.now.manifest.builds edge).explicit
        ++ (build_at graph.now.manifest.builds edge).implicit ++ list.now)
        ++ path_nodes (length graph.now.manifest.builds) paths.now ((build_at graph.now.manifest.builds edge).explicit
        ++ (build_at graph.now.manifest.builds edge).implicit ++ list.now)) }
{
    let edges = graph.edges();
    let inputs = graph.inputs(edge);
    let mut steps = Vec::new(alloc);
    push_makers(graph, inputs.explicit, sure, &mut steps)?;
    push_makers(graph, inputs.implicit, sure, &mut steps)?;
    push_makers(graph, list, sure, &mut steps)?;
    push_paths(edges, paths, inputs.explicit, &mut steps)?;
    push_paths(edges, paths, inputs.implicit, &mut steps)?;
    push_paths(edges, paths, list, &mut steps)?;
    Ok(steps)
}

/// The graph of what makes Ninja run an edge again. `lists` has for each edge what it lists.
///
/// # Errors
/// [`AllocError`] only where an allocation was refused.
pub(crate) fn follow_steps(
    alloc: Global,
    graph: &Graph,
    lists: &[&[Name]],
    paths: &Paths,
    sure: bool,
) -> Result<Vec<Vec<u32>>, AllocError>
    requires each { length lists.now ≡ length graph.now.manifest.builds }
    requires few { length graph.now.manifest.builds + length paths.now < 2 ^ 32 }
    ensures { IfOk result (λ steps. graph_of steps.items
        ≡ follow_lists graph.now.manifest.builds (names_of lists.now) paths.now sure) }
{
    let mut steps = Vec::new(alloc);
    for edge in 0..graph.edges() {
        steps.push(follow(alloc, graph, lists[edge as usize], paths, sure, edge)?)?;
    }
    let count = paths.len();
    for path in 0..count {
        prove!(path < count);
        steps.push(Vec::new(alloc))?;
    }
    Ok(steps)
}
