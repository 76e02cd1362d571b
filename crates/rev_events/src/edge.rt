//! What events ask of an edge.
ghost use Rattle.std.specs.Prelude.{◌≡◌, ◌<◌, ◌++◌, ◌==◌, length, IfOk, IfSome, OnOk};
ghost use Rattle.std.specs.List.{list_any, position};
ghost use Rattle.rev_graph.specs.Graph.{build_at, outputs_of};
ghost use Rattle.rev_dirty.specs.Inputs.{inputs};
ghost use Rattle.rev_dirty.specs.Reasons.{is_rebuilt, newest_stamp};
ghost use Rattle.rev_events.specs.Edge.{first_blocking, is_waiting, producers_of_inputs};
ghost use Rattle.rev_events.specs.Machine.{edge_of};

use crate::words::is_settled;
use rev_cells::Cells;
use rev_dirty::{DependencyScan, listed_inputs, producers_of};
use rev_graph::Graph;
use rev_paths::Name;
use std::alloc::{AllocError, Global};

/// The edge that an event names by an output.
pub(crate) fn named(graph: &Graph, out: &Name) -> Option<u32>
    ensures value { result ≡ edge_of graph.now.manifest out.now }
    ensures within { IfSome result (λ edge. edge < length graph.now.manifest.builds) }
{
    graph.producer(out)
}

// Adds equal names.
fn push_copies(names: &mut Vec<Name>, paths: &[Name]) -> Result<(), AllocError>
    ensures { OnOk result (names.new.items ≡ names.old.items ++ paths.now) }
{
    for path in paths {
        names.push(path.copy()?)?;
    }
    Ok(())
}

/// The outputs of an edge, explicit before implicit.
pub(crate) fn all_outputs(alloc: Global, graph: &Graph, edge: u32) -> Result<Vec<Name>, AllocError>
    requires { edge < length graph.now.manifest.builds }
    ensures { IfOk result (λ outputs. outputs.items
        ≡ outputs_of (build_at graph.now.manifest.builds edge)) }
{
    let outputs = graph.outputs(edge);
    let mut all = Vec::new(alloc);
    push_copies(&mut all, outputs.explicit)?;
    push_copies(&mut all, outputs.implicit)?;
    Ok(all)
}

/// For each input of an edge, of all kinds in their order, the edge that produces it.
pub(crate) fn all_producers(
    alloc: Global,
    graph: &Graph,
    cells: &Cells,
    edge: u32,
) -> Result<Vec<Option<u32>>, AllocError>
    requires { edge < length graph.now.manifest.builds }
    ensures { IfOk result (λ all. all.items
        ≡ producers_of_inputs graph.now.manifest.builds cells.now.state
        (build_at graph.now.manifest.builds edge)) }
{
    let listed = producers_of(alloc, graph, listed_inputs(graph, cells, edge))?;
    let mut all = Vec::from_slice(alloc, graph.producers(edge))?;
    all.extend_from_slice(&listed)?;
    Ok(all)
}

// Whether an input waits for the edge that produces it.
fn waits(cells: &Cells, producer: Option<u32>) -> bool
    ensures { result ≡ is_waiting cells.now.state producer }
{
    match producer {
        Some(edge) => !is_settled(cells, edge),
        None => false,
    }
}

// The position of the first of inputs that waits, by the edges that produce them.
fn first_waiting(cells: &Cells, producers: &[Option<u32>]) -> Option<usize>
    ensures { result ≡ position (is_waiting cells.now.state) producers.now }
{
    producers
        .iter()
        .position(|producer| waits(cells, *producer))
}

// A position as refusals tell it.
fn as_told(position: Option<usize>) -> Option<u64>
    ensures { result ≡ position }
{
    match position {
        Some(position) => Some(position as u64),
        None => None,
    }
}

/// The position of the first input of an edge that waits for the edge that produces it.
pub(crate) fn blocking_input(
    alloc: Global,
    graph: &Graph,
    cells: &Cells,
    edge: u32,
) -> Result<Option<u64>, AllocError>
    requires { edge < length graph.now.manifest.builds }
    ensures { IfOk result (λ blocking. blocking
        ≡ first_blocking graph.now.manifest.builds cells.now.state
        (inputs cells.now.state (build_at graph.now.manifest.builds edge))) }
{
    if listed_inputs(graph, cells, edge).is_empty() {
        return Ok(as_told(first_waiting(cells, graph.producers(edge))));
    }
    let all = all_producers(alloc, graph, cells, edge)?;
    Ok(as_told(first_waiting(cells, &all)))
}

/// The greatest visible stamp of the inputs of an edge that are not order-only, 0 where there is none.
pub(crate) fn stamp_seen(
    alloc: Global,
    graph: &Graph,
    cells: &Cells,
    edge: u32,
) -> Result<u64, AllocError>
    requires { edge < length graph.now.manifest.builds }
    ensures { IfOk result (λ stamp. stamp
        ≡ newest_stamp graph.now.manifest.builds cells.now.state
        (inputs cells.now.state (build_at graph.now.manifest.builds edge))) }
{
    DependencyScan::new(alloc, graph, cells).newest_stamp(edge)
}

/// Whether an input of an edge that is not order-only was changed by the edge that produces it, which is done.
pub(crate) fn has_rebuilt(
    alloc: Global,
    graph: &Graph,
    cells: &Cells,
    edge: u32,
) -> Result<bool, AllocError>
    requires { edge < length graph.now.manifest.builds }
    ensures { IfOk result (λ rebuilt. rebuilt
        ≡ list_any (is_rebuilt graph.now.manifest.builds cells.now.state)
        (inputs cells.now.state (build_at graph.now.manifest.builds edge))) }
{
    DependencyScan::new(alloc, graph, cells).has_rebuilt(edge)
}

/// Whether an edge has no input of any kind.
pub(crate) fn lacks_inputs(
    alloc: Global,
    graph: &Graph,
    cells: &Cells,
    edge: u32,
) -> Result<bool, AllocError>
    requires { edge < length graph.now.manifest.builds }
    ensures { IfOk result (λ none. none
        ≡ (length (inputs cells.now.state (build_at graph.now.manifest.builds edge)) == 0)) }
{
    let all = all_producers(alloc, graph, cells, edge)?;
    Ok(all.as_slice().is_empty())
}
