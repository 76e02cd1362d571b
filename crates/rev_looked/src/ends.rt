//! Events that begin and end commands.
ghost use Rattle.std.specs.Prelude.{◌≡◌, ◌<◌, length, option_and_then, IfSome};
ghost use Rattle.std.specs.Option.{option_copied};
ghost use Rattle.rev_history.specs.Timeline.{event_at};
ghost use Rattle.rev_looked.specs.Events.{begun_edge as begun_edge_of, ended_edge as ended_edge_of, run_edge as run_edge_of};

use rev_events::Event;
use rev_graph::Graph;
use rev_history::History;

// The edge whose command an event ends, well or not.
fn ended_edge(graph: &Graph, event: &Event) -> Option<u32>
    ensures edge { result ≡ ended_edge_of graph.now.manifest.builds event.now }
    ensures within { IfSome result (λ edge. edge < length graph.now.manifest.builds) }
{
    match event {
        Event::Finish { out, .. } => graph.producer(out),
        Event::Fail { out, .. } => graph.producer(out),
        Event::Abort { out, .. } => graph.producer(out),
        _ => None,
    }
}

// The edge whose command an event begins.
fn begun_edge(graph: &Graph, event: &Event) -> Option<u32>
    ensures edge { result ≡ begun_edge_of graph.now.manifest.builds event.now }
    ensures within { IfSome result (λ edge. edge < length graph.now.manifest.builds) }
{
    match event {
        Event::Start { out, .. } => graph.producer(out),
        _ => None,
    }
}

// The edge whose command an event begins or ends.
fn run_edge(graph: &Graph, event: &Event) -> Option<u32>
    ensures edge { result ≡ run_edge_of graph.now.manifest.builds event.now }
    ensures within { IfSome result (λ edge. edge < length graph.now.manifest.builds) }
{
    match event {
        Event::Start { out, .. } => graph.producer(out),
        Event::Finish { out, .. } => graph.producer(out),
        Event::Fail { out, .. } => graph.producer(out),
        Event::Abort { out, .. } => graph.producer(out),
        _ => None,
    }
}

/// The edge whose command ended at the event of a number, well or not.
pub(crate) fn ended_at(history: &History, number: u32) -> Option<u32>
    ensures edge { result ≡ option_and_then (ended_edge_of history.now.timeline.manifest.builds)
        (event_at history.now.timeline number) }
    ensures within { IfSome result (λ edge. edge < length history.now.timeline.manifest.builds) }
{
    match history.event(number) {
        Some(event) => ended_edge(history.graph(), event),
        None => None,
    }
}

/// The edge whose command began at the event of a number.
pub(crate) fn begun_at(history: &History, number: u32) -> Option<u32>
    ensures edge { result ≡ option_and_then (begun_edge_of history.now.timeline.manifest.builds)
        (event_at history.now.timeline number) }
    ensures within { IfSome result (λ edge. edge < length history.now.timeline.manifest.builds) }
{
    match history.event(number) {
        Some(event) => begun_edge(history.graph(), event),
        None => None,
    }
}

/// The edge whose command began or ended at the event of a number.
pub(crate) fn run_at(history: &History, number: u32) -> Option<u32>
    ensures edge { result ≡ option_and_then (run_edge_of history.now.timeline.manifest.builds)
        (event_at history.now.timeline number) }
    ensures within { IfSome result (λ edge. edge < length history.now.timeline.manifest.builds) }
{
    match history.event(number) {
        Some(event) => run_edge(history.graph(), event),
        None => None,
    }
}
