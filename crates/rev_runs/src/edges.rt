//! The events of an edge.
ghost use Rattle.std.specs.Prelude.{◌≡◌, ◌++◌, ◌∷◌, [], if◌then◌else◌, IfOk, OnOk};
ghost use Rattle.rev_runs.specs.Edges.{edge_of_event as edge_of, events_of as events_of_all, is_edge as is_edge_of, is_event_of};

use rev_events::Event;
use rev_graph::Graph;
use rev_history::History;
use std::alloc::{AllocError, Global};

/// The edge that an event is about: the edge that makes the event's output. A plan, a touch, an interrupt and a resize
/// are about no edge, and the answer is `None`.
pub fn edge_of_event(graph: &Graph, event: &Event) -> Option<u32>
    ensures { result ≡ edge_of graph.now.manifest.builds event.now }
{
    match event {
        Event::Start { out, .. } => graph.producer(out),
        Event::Finish { out, .. } => graph.producer(out),
        Event::Fail { out, .. } => graph.producer(out),
        Event::Abort { out, .. } => graph.producer(out),
        Event::Clean { out } => graph.producer(out),
        Event::Pass { out } => graph.producer(out),
        Event::Plan(_) => None,
        Event::Touch { .. } => None,
        Event::Interrupt => None,
        Event::Resize { .. } => None,
    }
}

// Whether there is an edge, and it is this one.
fn is_edge(edge: u32, found: Option<u32>) -> bool
    ensures { result ≡ is_edge_of edge found }
{
    match found {
        Some(found) => found == edge,
        None => false,
    }
}

/// Whether an event is about this edge.
pub fn is_of_edge(graph: &Graph, event: &Event, edge: u32) -> bool
    ensures { result ≡ is_edge_of edge (edge_of graph.now.manifest.builds event.now) }
{
    is_edge(edge, edge_of_event(graph, event))
}

// Whether the event that was accepted under a number is one of an edge.
fn is_at(history: &History, edge: u32, number: u32) -> bool
    ensures { result ≡ is_event_of history.now.timeline edge number }
{
    match history.event(number) {
        Some(event) => is_of_edge(history.graph(), event, edge),
        None => false,
    }
}

// Adds a number that passes.
fn add_where(numbers: &mut Vec<u32>, number: u32, passes: bool) -> Result<(), AllocError>
    ensures { OnOk result (numbers.new.items ≡ numbers.old.items ++ (if passes then number ∷ [] else [])) }
{
    if passes {
        numbers.push(number)?;
    }
    Ok(())
}

/// The numbers of all accepted events of an edge, in rising order. Undone events are among them. Each accepted event is
/// looked at once.
///
/// # Errors
/// [`AllocError`] only where an allocation was refused.
pub fn events_of(alloc: Global, history: &History, edge: u32) -> Result<Vec<u32>, AllocError>
    ensures { IfOk result (λ numbers. numbers.items ≡ events_of_all history.now.timeline edge) }
{
    let mut numbers = Vec::new(alloc);
    let last = history.last();
    for passed in 0..last {
        let number = passed + 1;
        add_where(&mut numbers, number, is_at(history, edge, number))?;
    }
    Ok(numbers)
}
