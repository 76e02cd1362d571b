//! The runs of edges in a history.
ghost use Rattle.std.specs.Prelude.{◌≡◌, ◌<◌, ◌==◌, ℕ, None, length, slice_index_or, IfOk, IfSome};
ghost use Rattle.rev_dirty.specs.Reasons.{holds};
ghost use Rattle.rev_history.specs.Timeline.{kept_events};
ghost use Rattle.rev_races.specs.Runs.{AreLast, AreRuns, counts, finished_run as finished_run_of, is_step, is_within as is_within_of, last_run as last_run_of};

use rev_events::Event;
use rev_graph::Graph;
use rev_history::History;
use std::alloc::{AllocError, Global};

/// One run of an edge's command.
#[derive(Clone, Copy, Debug, PartialEq, Eq)]
pub struct Run {
    /// The number of the event that began it.
    pub began: u32,
    /// The number of the event that ended it, well or not; none where it still runs.
    pub ended: Option<u32>,
}

// What is looked for among the events of an edge.
#[derive(Clone, Copy, Debug, PartialEq, Eq)]
pub(crate) enum Step {
    // A start.
    Begin,
    // A start before a bound.
    BeginBefore,
    // An end, well or not, after a bound.
    EndAfter,
    // An end that was well.
    Finish,
}

/// For each edge the numbers of four of its kept events, where there are such: its last start, its last end after that,
/// its last finish, and its last start before that.
#[derive(Drop)]
pub(crate) struct Runs {
    pub(crate) begins: Vec<Option<u32>>,
    pub(crate) ends: Vec<Option<u32>>,
    pub(crate) finishes: Vec<Option<u32>>,
    pub(crate) befores: Vec<Option<u32>>,
}

// The edge of which an event is such a step.
fn step_of(graph: &Graph, event: &Event, step: Step) -> Option<u32>
    ensures edge { (edge : ℕ) → holds (λ n. n == edge) result ≡ is_step step graph.now.manifest edge event.now }
    ensures within { IfSome result (λ edge. edge < length graph.now.manifest.builds) }
{
    match event {
        Event::Start { out, .. } => match step {
            Step::Begin | Step::BeginBefore => graph.producer(out),
            Step::EndAfter | Step::Finish => None,
        },
        Event::Finish { out, .. } => match step {
            Step::Begin | Step::BeginBefore => None,
            Step::EndAfter | Step::Finish => graph.producer(out),
        },
        Event::Fail { out, .. } => match step {
            Step::EndAfter => graph.producer(out),
            Step::Begin | Step::BeginBefore | Step::Finish => None,
        },
        Event::Abort { out, .. } => match step {
            Step::EndAfter => graph.producer(out),
            Step::Begin | Step::BeginBefore | Step::Finish => None,
        },
        _ => None,
    }
}

/// What stands at a place, and nothing past the last.
pub(crate) fn at(numbers: &[Option<u32>], edge: u32) -> Option<u32>
    ensures { result ≡ slice_index_or numbers.now edge None }
{
    if edge as usize >= numbers.len() {
        return None;
    }
    numbers[edge as usize]
}

// Whether a number counts beside a bound.
fn is_within(step: Step, bound: Option<u32>, number: u32) -> bool
    ensures { result ≡ is_within_of step bound number }
{
    match step {
        Step::Begin | Step::Finish => true,
        Step::BeginBefore => match bound {
            Some(bound) => number < bound,
            None => false,
        },
        Step::EndAfter => match bound {
            Some(bound) => bound < number,
            None => false,
        },
    }
}

// The edge of which an event is such a step that counts beside the edge's bound.
fn counted(
    graph: &Graph,
    step: Step,
    bounds: &[Option<u32>],
    number: u32,
    event: &Event,
) -> Option<u32>
    ensures edge { (edge : ℕ) → holds (λ n. n == edge) result
        ≡ counts step graph.now.manifest (slice_index_or bounds.now edge None) edge (number, event.now) }
    ensures within { IfSome result (λ edge. edge < length graph.now.manifest.builds) }
{
    let edge = step_of(graph, event, step)?;
    if is_within(step, at(bounds, edge), number) {
        return Some(edge);
    }
    None
}

// For each edge the number of the last kept event that counts.
fn last_numbers(
    alloc: Global,
    history: &History,
    step: Step,
    bounds: &[Option<u32>],
) -> Result<Vec<Option<u32>>, AllocError>
    ensures { IfOk result (λ last. AreLast history.now.timeline step bounds.now last.items) }
{
    let graph = history.graph();
    let mut last = vec![in alloc; None; graph.edges() as usize]?;
    for number in history.kept() {
        if let Some(event) = history.event(*number) {
            if let Some(edge) = counted(graph, step, bounds, *number, event) {
                last[edge as usize] = Some(*number);
            }
        }
    }
    Ok(last)
}

/// The runs of all edges, in four passes over the kept events.
pub(crate) fn all_runs(alloc: Global, history: &History) -> Result<Runs, AllocError>
    ensures { IfOk result (AreRuns history.now.timeline) }
{
    let begins = last_numbers(alloc, history, Step::Begin, &[])?;
    let ends = last_numbers(alloc, history, Step::EndAfter, &begins)?;
    let finishes = last_numbers(alloc, history, Step::Finish, &[])?;
    let befores = last_numbers(alloc, history, Step::BeginBefore, &finishes)?;
    Ok(Runs {
        begins,
        ends,
        finishes,
        befores,
    })
}

/// The last run of an edge: its last start, and what ended it.
pub(crate) fn last_run(history: &History, runs: &Runs, edge: u32) -> Option<Run>
    requires { AreRuns history.now.timeline runs.now }
    ensures { result ≡ last_run_of history.now.timeline.manifest edge (kept_events history.now.timeline) }
{
    let began = at(&runs.begins, edge)?;
    let ended = at(&runs.ends, edge);
    Some(Run { began, ended })
}

/// The last run of an edge that ended well: its last finish, and the last start before that.
pub(crate) fn finished_run(history: &History, runs: &Runs, edge: u32) -> Option<Run>
    requires { AreRuns history.now.timeline runs.now }
    ensures { result ≡ finished_run_of history.now.timeline.manifest edge (kept_events history.now.timeline) }
{
    let ended = at(&runs.finishes, edge)?;
    let began = at(&runs.befores, edge)?;
    Some(Run {
        began,
        ended: Some(ended),
    })
}
