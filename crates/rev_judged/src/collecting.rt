//! Edges that only collect outputs.
ghost use Rattle.std.specs.Prelude.{◌≡◌, ◌<◌, ◌||◌, ◌&&◌, [], map, length, is_none, if◌then◌else◌, IfOk};
ghost use Rattle.std.specs.List.{filter_map, list_any};
ghost use Rattle.rev_graph.specs.Graph.{build_at, input_producers};
ghost use Rattle.rev_judged.specs.Judged.{has_list, is_open, sources_of, takes_from_others, takes_others};
ghost use Rattle.rev_races.specs.Judged.{edges_of};
ghost use Rattle.rev_ranks.specs.Graph.{graph_of};
ghost use Rattle.rev_ranks.specs.Sets.{IsSetOf};

use rev_graph::{Graph, edges_among};
use rev_history::History;
use rev_ranks::leading_to;
use std::alloc::{AllocError, Global};

// Whether some input has no producer.
fn lacks_producer(producers: &[Option<u32>]) -> bool
    ensures { result ≡ list_any is_none producers.now }
{
    producers.iter().any(|producer| producer.is_none())
}

// Whether there is none, or one is lacking, or a command has some that are ordered.
fn is_one_of(none: bool, lacks: bool, command: bool, ordered: bool) -> bool
    ensures { result ≡ (none || (lacks || (command && ordered))) }
{
    none || lacks || (command && ordered)
}

// Whether an edge takes something else than outputs.
fn takes_others(graph: &Graph, edge: u32) -> bool
    requires { edge < length graph.now.manifest.builds }
    ensures { result ≡ takes_others graph.now.manifest.builds (build_at graph.now.manifest.builds edge) }
{
    let producers = graph.producers(edge);
    let none = producers.len() == 0;
    let lacks = lacks_producer(producers);
    let command = !graph.is_phony(edge);
    let ordered = graph.inputs(edge).order_only.len() != 0;
    is_one_of(none, lacks, command, ordered)
}

// Where an edge has its inputs from, unless it has a list.
fn sources(alloc: Global, graph: &Graph, edge: u32, has_list: bool) -> Result<Vec<u32>, AllocError>
    requires { edge < length graph.now.manifest.builds }
    ensures { IfOk result (λ edges. edges.items ≡ (if has_list then [] else
        filter_map (λ producer. producer)
        (input_producers graph.now.manifest.builds (build_at graph.now.manifest.builds edge)))) }
{
    if has_list {
        return Ok(Vec::new(alloc));
    }
    edges_among(alloc, graph.producers(edge))
}

// Where each edge has its inputs from, unless it has a list.
fn all_sources(
    alloc: Global,
    history: &History,
    listed: &[bool],
) -> Result<Vec<Vec<u32>>, AllocError>
    requires { listed.now ≡ map (has_list history.now.timeline) (edges_of history.now.timeline.manifest.builds) }
    ensures { IfOk result (λ steps. graph_of steps.items
        ≡ map (sources_of history.now.timeline) (edges_of history.now.timeline.manifest.builds)) }
{
    let graph = history.graph();
    let mut steps = Vec::new(alloc);
    for edge in 0..graph.edges() {
        let has_list = listed[edge as usize];
        steps.push(sources(alloc, graph, edge, has_list)?)?;
    }
    Ok(steps)
}

// The edges without a list that take something else than outputs.
fn open_edges(alloc: Global, history: &History, listed: &[bool]) -> Result<Vec<bool>, AllocError>
    requires { listed.now ≡ map (has_list history.now.timeline) (edges_of history.now.timeline.manifest.builds) }
    ensures { IfOk result (λ marks. marks.items
        ≡ map (is_open history.now.timeline) (edges_of history.now.timeline.manifest.builds)) }
{
    let graph = history.graph();
    let mut marks = Vec::new(alloc);
    for edge in 0..graph.edges() {
        marks.push(!listed[edge as usize] && takes_others(graph, edge))?;
    }
    Ok(marks)
}

/// For each edge, whether it takes something other than outputs: directly, or through inputs that edges without a list
/// make. `listed` tells which edges have a list.
///
/// # Errors
/// [`AllocError`] only where an allocation was refused.
pub(crate) fn taking_others(
    alloc: Global,
    history: &History,
    listed: &[bool],
) -> Result<Vec<bool>, AllocError>
    requires { listed.now ≡ map (has_list history.now.timeline) (edges_of history.now.timeline.manifest.builds) }
    ensures { IfOk result (λ marks. IsSetOf (map (sources_of history.now.timeline) (edges_of history.now.timeline.manifest.builds))
        (takes_from_others history.now.timeline) marks.items) }
{
    let steps = all_sources(alloc, history, listed)?;
    let goals = open_edges(alloc, history, listed)?;
    let _edges = history.graph().edges();
    let marks = leading_to(alloc, &steps, &goals)?;
    Ok(marks)
}
