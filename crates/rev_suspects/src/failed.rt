//! Runs that failed.
ghost use Rattle.std.specs.Prelude.{◌≡◌, ◌==◌, ◌<◌, ◌∷◌, ◌++◌, [], ℕ, List, None, length, slice_index_or, take, All, IfOk, IfSome, OnOk};
ghost use Rattle.std.specs.List.{cons_option};
ghost use Rattle.rev_dirty.specs.Reasons.{holds};
ghost use Rattle.rev_races.specs.Races.{starts};
ghost use Rattle.rev_suspects.specs.Failures.{AreStarts, failed_edge, failure_at as failure_at_number, failures_of, kept_before, last_start};

use rev_events::Event;
use rev_graph::Graph;
use rev_history::History;
use std::alloc::{AllocError, Global};

/// A run of a command that failed.
#[derive(Clone, Copy)]
pub struct Failure {
    /// The number of the `fail` event.
    pub number: u32,
    /// The number of the edge.
    pub edge: u32,
    /// The number of the start event.
    pub began: u32,
}

// The edge whose command an event begins.
fn begun(graph: &Graph, event: &Event) -> Option<u32>
    ensures edge { (edge : ℕ) → holds (λ n. n == edge) result ≡ starts graph.now.manifest edge event.now }
    ensures within { IfSome result (λ edge. edge < length graph.now.manifest.builds) }
{
    match event {
        Event::Start { out, .. } => graph.producer(out),
        _ => None,
    }
}

// The edge whose command an event fails.
fn failing(graph: &Graph, event: &Event) -> Option<u32>
    ensures edge { result ≡ failed_edge graph.now.manifest.builds event.now }
    ensures within { IfSome result (λ edge. edge < length graph.now.manifest.builds) }
{
    match event {
        Event::Fail { out, .. } => graph.producer(out),
        _ => None,
    }
}

// What stands at a place, and nothing past the last.
fn at(numbers: &[Option<u32>], edge: u32) -> Option<u32>
    ensures { result ≡ slice_index_or numbers.now edge None }
{
    if edge as usize >= numbers.len() {
        return None;
    }
    numbers[edge as usize]
}

// Notes the event of a kept number where it begins the command of an edge.
fn note_start(history: &History, number: u32, begins: &mut Vec<Option<u32>>)
    requires { length begins.old.items ≡ length history.now.timeline.manifest.builds }
    ensures { (ks : List ℕ) → AreStarts history.now.timeline ks begins.old.items
        → AreStarts history.now.timeline (ks ++ number ∷ []) begins.new.items }
{
    let Some(event) = history.event(number) else {
        return;
    };
    let Some(edge) = begun(history.graph(), event) else {
        return;
    };
    begins[edge as usize] = Some(number);
}

// The run that the event of a kept number failed. `begins` has the last start of each edge before it.
fn failure_at(history: &History, number: u32, begins: &[Option<u32>]) -> Option<Failure>
    requires { (edge : ℕ) → slice_index_or begins.now edge None
        ≡ last_start history.now.timeline (kept_before history.now.timeline number) edge }
    ensures failure { result ≡ failure_at_number history.now.timeline number }
    ensures within { IfSome result (λ f. f.edge < length history.now.timeline.manifest.builds) }
{
    let event = history.event(number)?;
    let edge = failing(history.graph(), event)?;
    let began = at(begins, edge)?;
    Some(Failure {
        number,
        edge,
        began,
    })
}

// Adds a run that failed, if there is one.
fn add_failure(failures: &mut Vec<Failure>, failure: Option<Failure>) -> Result<(), AllocError>
    ensures failures { OnOk result (failures.new.items ≡ failures.old.items ++ cons_option failure []) }
    ensures within { (bound : ℕ) → All (λ f. f.edge < bound) failures.old.items
        → IfSome failure (λ f. f.edge < bound) → OnOk result (All (λ f. f.edge < bound) failures.new.items) }
{
    if let Some(failure) = failure {
        failures.push(failure)?;
    }
    Ok(())
}

/// The first failed runs, at most `most` of them.
///
/// # Errors
/// [`AllocError`] only where an allocation was refused.
pub(crate) fn first_failures(
    alloc: Global,
    history: &History,
    most: usize,
) -> Result<Vec<Failure>, AllocError>
    ensures failures { IfOk result (λ failures. failures.items ≡ take most (failures_of history.now.timeline)) }
    ensures within { IfOk result (λ failures.
        All (λ f. f.edge < length history.now.timeline.manifest.builds) failures.items) }
{
    let mut failures = failures(alloc, history)?;
    failures.truncate(most);
    Ok(failures)
}

/// The runs that failed, in the order of their `fail` events. Only kept events count, and each is looked at once.
///
/// # Errors
/// [`AllocError`] only where an allocation was refused.
pub fn failures(alloc: Global, history: &History) -> Result<Vec<Failure>, AllocError>
    ensures failures { IfOk result (λ failures. failures.items ≡ failures_of history.now.timeline) }
    ensures within { IfOk result (λ failures.
        All (λ f. f.edge < length history.now.timeline.manifest.builds) failures.items) }
{
    let mut begins = vec![in alloc; None; history.graph().edges() as usize]?;
    let mut failures = Vec::new(alloc);
    for number in history.kept() {
        let failure = failure_at(history, *number, &begins);
        add_failure(&mut failures, failure)?;
        note_start(history, *number, &mut begins);
    }
    Ok(failures)
}
