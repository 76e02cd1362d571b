//! What an event does to the command of an edge.
ghost use Rattle.std.specs.Prelude.{◌≡◌, ◌<◌, length, IfSome};
ghost use Rattle.rev_runs.specs.Runs.{edge_of, is_kept as is_kept_of, step_of as step_of_event};

use rev_events::Event;
use rev_graph::Graph;
use rev_history::History;

/// What an event does to the command of an edge.
#[derive(Clone, Copy)]
pub(crate) enum Step {
    /// The command begins, on a job.
    Begin { edge: u32, job: u32 },
    /// The command ends, well or not.
    End { edge: u32 },
}

/// The edge of a step.
pub(crate) fn edge_of(step: Step) -> u32
    ensures { result ≡ edge_of step }
{
    match step {
        Step::Begin { edge, .. } | Step::End { edge } => edge,
    }
}

/// The step of an event that begins or ends a command; `None` for every other event.
pub(crate) fn step_of(graph: &Graph, event: &Event) -> Option<Step>
    ensures step { result ≡ step_of_event graph.now.manifest event.now }
    ensures within { IfSome result (λ step. edge_of step < length graph.now.manifest.builds) }
{
    match event {
        Event::Start { out, job, .. } => {
            let edge = graph.producer(out)?;
            Some(Step::Begin { edge, job: *job })
        }
        Event::Finish { out, .. } | Event::Fail { out, .. } | Event::Abort { out, .. } => {
            let edge = graph.producer(out)?;
            Some(Step::End { edge })
        }
        _ => None,
    }
}

/// Whether the event with this number is kept.
pub fn is_kept(history: &History, number: u32) -> bool
    ensures { result ≡ is_kept_of history.now.timeline number }
{
    match history.footprint_of(number) {
        Some(_footprint) => true,
        None => false,
    }
}
