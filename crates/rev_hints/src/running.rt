//! The commands that run.
ghost use Rattle.std.specs.Prelude.{◌≡◌, ◌++◌, ◌∷◌, [], ℕ, List, OnOk};
ghost use Rattle.rev_causal.specs.Chosen.{without};
ghost use Rattle.rev_events.specs.declared.event.Event.{Event};
ghost use Rattle.rev_hints.specs.Running.{is_start as is_start_of, running as running_after, turned as turned_by};

use rev_events::Event;
use rev_graph::Graph;
use std::alloc::AllocError;

// The edge whose command an event begins or ends.
fn turned(graph: &Graph, event: &Event) -> Option<u32>
    ensures { result ≡ turned_by graph.now.manifest.builds event.now }
{
    match event {
        Event::Start { out, .. } => graph.producer(out),
        Event::Finish { out, .. } => graph.producer(out),
        Event::Fail { out, .. } => graph.producer(out),
        Event::Abort { out, .. } => graph.producer(out),
        _ => None,
    }
}

// Whether an event begins a command.
fn is_start(event: &Event) -> bool
    ensures { result ≡ is_start_of event.now }
{
    match event {
        Event::Start { .. } => true,
        _ => false,
    }
}

// Takes an edge out of those that run.
fn take_out(running: &mut Vec<u32>, edge: u32)
    ensures { running.new.items ≡ without edge running.old.items }
{
    running.retain(|other| *other != edge);
}

/// Has the commands that run be those after one more event. It takes time linear in those that run.
///
/// # Errors
/// [`AllocError`] only where an allocation was refused.
pub(crate) fn note_run(
    graph: &Graph,
    event: &Event,
    running: &mut Vec<u32>,
) -> Result<(), AllocError>
    ensures { OnOk result ((events : List (ℕ × Event)) (number : ℕ)
        → running.old.items ≡ running_after graph.now.manifest.builds events
        → running.new.items ≡ running_after graph.now.manifest.builds (events ++ (number, event.now) ∷ [])) }
{
    let Some(edge) = turned(graph, event) else {
        return Ok(());
    };
    take_out(running, edge);
    if is_start(event) {
        running.push(edge)?;
    }
    Ok(())
}
