//! The plans, starts and ends of edges that a witness is made of, and the order in which the edges end.
ghost use Rattle.std.specs.Prelude.{◌≡◌, ◌<◌, length, map, slice_get, IfOk};
ghost use Rattle.std.specs.List.{All, range_with_len};
ghost use Rattle.std.specs.Option.{option_copied};
ghost use Rattle.rev_graph.specs.Graph.{build_at, outputs_of, pool_of};
ghost use Rattle.rev_races.specs.Laws as slot;
ghost use Rattle.rev_ranks.specs.Graph.{graph_of};
ghost use Rattle.rev_witness.specs.Progress.{AreByRank, finish_event, first_out, plan_event, rank_list, start_event};

use rev_cells::Names;
use rev_events::{Event, Listing, Stamps};
use rev_graph::Graph;
use rev_paths::Name;
use rev_ranks::reversed;
use rev_waits::{steps, waited_for};
use std::alloc::{AllocError, Global};

// The first output of an edge, if it has one.
fn some_output(graph: &Graph, edge: u32) -> Option<&Name>
    requires { edge < length graph.now.manifest.builds }
    ensures { option_copied result ≡ slice_get (outputs_of (build_at graph.now.manifest.builds edge)) 0 }
{
    let outputs = graph.outputs(edge);
    match outputs.explicit.first() {
        Some(out) => Some(out),
        None => outputs.implicit.first(),
    }
}

/// The first output of an edge; each edge has one.
pub(crate) fn first_output(graph: &Graph, edge: u32) -> &Name
    requires { edge < length graph.now.manifest.builds }
    ensures { result.now ≡ first_out graph.now.manifest edge }
{
    let _edges = graph.edges();
    match some_output(graph, edge) {
        Some(out) => out,
        None => unreachable!(),
    }
}

/// The plan of two edges, named by their first outputs.
pub(crate) fn plan_of(
    alloc: Global,
    graph: &Graph,
    one: u32,
    other: u32,
) -> Result<Event, AllocError>
    requires one { one < length graph.now.manifest.builds }
    requires other { other < length graph.now.manifest.builds }
    ensures { IfOk result (λ plan. plan ≡ plan_event graph.now.manifest one other) }
{
    let mut targets = Vec::new(alloc);
    targets.push(first_output(graph, one).copy()?)?;
    targets.push(first_output(graph, other).copy()?)?;
    Ok(Event::Plan(Names::new(targets)?))
}

// The first slot of an edge's pool, where that has slots.
fn first_slot(graph: &Graph, edge: u32) -> Option<u32>
    requires { edge < length graph.now.manifest.builds }
    ensures { result ≡ slot.first_slot (pool_of graph.now.manifest edge) }
{
    match graph.pool(edge) {
        Some(_) => Some(0),
        None => None,
    }
}

/// The start of an edge's command, on the first job and in the first slot.
pub(crate) fn start_of(graph: &Graph, edge: u32) -> Result<Event, AllocError>
    requires { edge < length graph.now.manifest.builds }
    ensures { IfOk result (λ start. start ≡ start_event graph.now.manifest edge) }
{
    let slot = first_slot(graph, edge);
    Ok(Event::Start {
        out: first_output(graph, edge).copy()?,
        job: 0,
        slot,
    })
}

/// The end of an edge's command. Each output has the stamp 1, and the command lists nothing.
pub(crate) fn finish_of(alloc: Global, graph: &Graph, edge: u32) -> Result<Event, AllocError>
    requires { edge < length graph.now.manifest.builds }
    ensures { IfOk result (λ finish. finish ≡ finish_event graph.now.manifest edge) }
{
    let outputs = graph.outputs(edge);
    let stamps = vec![in alloc; 1; outputs.explicit.len() + outputs.implicit.len()]?;
    let given = Stamps::new(stamps)?;
    Ok(Event::Finish {
        out: first_output(graph, edge).copy()?,
        stamps: given,
        listing: Listing::Nothing,
    })
}

// The rank of an edge that is waited for, and nothing of another.
fn rank_of(alloc: Global, graph: &Graph, waited: &[bool], edge: u32) -> Result<Vec<u32>, AllocError>
    requires edge { edge < length graph.now.manifest.builds }
    requires each { length waited.now ≡ length graph.now.manifest.builds }
    ensures { IfOk result (λ ranks. ranks.items ≡ rank_list graph.now waited.now edge) }
{
    let mut ranks = Vec::new(alloc);
    if waited[edge as usize] {
        ranks.push(graph.rank(edge))?;
    }
    Ok(ranks)
}

// For each edge its rank, where it is waited for.
fn ranks_of(alloc: Global, graph: &Graph, waited: &[bool]) -> Result<Vec<Vec<u32>>, AllocError>
    requires { length waited.now ≡ length graph.now.manifest.builds }
    ensures { IfOk result (λ ranks. graph_of ranks.items
        ≡ map (rank_list graph.now waited.now) (range_with_len 0 (length graph.now.manifest.builds))) }
{
    let mut ranks = Vec::new(alloc);
    for edge in 0..graph.edges() {
        ranks.push(rank_of(alloc, graph, waited, edge)?)?;
    }
    Ok(ranks)
}

/// The edges that an edge waits for, a list for each rank. Each edge stands after the edges that it waits for.
pub(crate) fn by_rank(alloc: Global, graph: &Graph, edge: u32) -> Result<Vec<Vec<u32>>, AllocError>
    requires { edge < length graph.now.manifest.builds }
    ensures lists { IfOk result (λ lists. AreByRank graph.now edge (graph_of lists.items)) }
    ensures inside { IfOk result (λ lists.
        All (λ v. All (λ other. other < length graph.now.manifest.builds) v.items) lists.items) }
{
    let _edges = graph.edges();
    let steps = steps(alloc, graph)?;
    let waited = waited_for(alloc, graph, &steps, edge)?;
    let ranks = ranks_of(alloc, graph, &waited)?;
    let lists = reversed(alloc, &ranks)?;
    Ok(lists)
}
