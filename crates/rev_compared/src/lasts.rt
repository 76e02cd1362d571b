//! The last run of each edge.
ghost use Rattle.std.specs.Prelude.{◌≡◌, ◌<◌, ◌==◌, ◌&&◌, ◌++◌, ◌∷◌, [], ℕ, filter, length, None, Some, slice_index_or, if◌then◌else◌, IfOk, OnOk};
ghost use Rattle.std.specs.Option.{option_copied};
ghost use Rattle.rev_runs.specs.Runs.{runs_of};
ghost use Rattle.rev_compared.specs.Lasts.{ending_by as ending_by_event, ending_of as ending_of_run, is_begun_before as is_begun_before_of, last_by as last_by_run, last_from, last_of};

use rev_events::Event;
use rev_history::History;
use rev_runs::{Run, runs};
use std::alloc::{AllocError, Global};

/// How a command ended.
#[derive(Clone, Copy, Debug, PartialEq, Eq)]
pub enum Ending {
    /// It ended well.
    Well,
    /// It failed.
    Failed,
    /// Ninja stopped it.
    Stopped,
    /// It had not ended when the recording did.
    Running,
}

/// The last kept run of an edge's command.
#[derive(Clone, Copy, Debug, PartialEq, Eq)]
pub struct Last {
    /// The number of the event that began it.
    pub began: u32,
    /// The number of the event that ended it. `None` where the command still runs.
    pub ended: Option<u32>,
    /// How it ended.
    pub ending: Ending,
}

// How a command ended, by the event that ended it.
fn ending_by(event: Option<&Event>) -> Ending
    ensures { result ≡ ending_by_event (option_copied event.entry) }
{
    match event {
        Some(Event::Fail { .. }) => Ending::Failed,
        Some(Event::Abort { .. }) => Ending::Stopped,
        _ => Ending::Well,
    }
}

// How a run ended, by the number of the event that ended it.
fn ending_of(history: &History, ended: Option<u32>) -> Ending
    ensures { result ≡ ending_of_run history.now.timeline ended }
{
    match ended {
        None => Ending::Running,
        Some(ended) => ending_by(history.event(ended)),
    }
}

// What is told of a run.
fn last_by(history: &History, run: &Run) -> Last
    ensures { result ≡ last_by_run history.now.timeline run.now }
{
    Last {
        began: run.began,
        ended: run.ended,
        ending: ending_of(history, run.ended),
    }
}

// Notes a run, where it is kept, in place of an earlier one of its edge.
fn note(history: &History, lasts: &mut Vec<Option<Last>>, run: &Run)
    ensures size { length lasts.new.items ≡ length lasts.old.items }
    ensures noted { (edge : ℕ) → edge < length lasts.old.items → slice_index_or lasts.new.items edge None
        ≡ (if run.now.kept && (run.now.edge == edge) then Some (last_by_run history.now.timeline run.now)
        else slice_index_or lasts.old.items edge None) }
{
    if run.kept && (run.edge as usize) < lasts.len() {
        lasts[run.edge as usize] = Some(last_by(history, run));
    }
}

// The last kept one of some runs of each edge.
fn lasts_in(alloc: Global, history: &History, runs: &[Run]) -> Result<Vec<Option<Last>>, AllocError>
    ensures size { IfOk result (λ lasts. length lasts.items ≡ length history.now.timeline.manifest.builds) }
    ensures last { IfOk result (λ lasts. (edge : ℕ) → edge < length history.now.timeline.manifest.builds
        → slice_index_or lasts.items edge None ≡ last_from history.now.timeline edge None runs.now) }
{
    let mut lasts = vec![in alloc; None; history.graph().edges() as usize]?;
    for run in runs {
        note(history, &mut lasts, run);
    }
    Ok(lasts)
}

/// The last kept run of each edge, by the number of the edge; `None` where it has none. Each accepted event is looked
/// at once.
///
/// # Errors
/// [`AllocError`] only where an allocation was refused.
pub fn last_runs(alloc: Global, history: &History) -> Result<Vec<Option<Last>>, AllocError>
    ensures size { IfOk result (λ lasts. length lasts.items ≡ length history.now.timeline.manifest.builds) }
    ensures last { IfOk result (λ lasts. (edge : ℕ) → edge < length history.now.timeline.manifest.builds
        → slice_index_or lasts.items edge None ≡ last_of history.now.timeline edge) }
{
    let runs = runs(alloc, history)?;
    lasts_in(alloc, history, &runs)
}

// Whether a run began before the event of a number.
fn is_begun_before(number: u32, run: &Run) -> bool
    ensures { result ≡ is_begun_before_of number run.now }
{
    run.began < number
}

// Adds a run that passes.
fn add_run(runs: &mut Vec<Run>, run: Run, passes: bool) -> Result<(), AllocError>
    ensures { OnOk result (runs.new.items ≡ runs.old.items ++ (if passes then run ∷ [] else [])) }
{
    if passes {
        runs.push(run)?;
    }
    Ok(())
}

// Those of some runs that began before the event of a number.
fn begun_before(alloc: Global, runs: &[Run], number: u32) -> Result<Vec<Run>, AllocError>
    ensures { IfOk result (λ begun. begun.items ≡ filter (is_begun_before_of number) runs.now) }
{
    let mut begun = Vec::new(alloc);
    for run in runs {
        let passes = is_begun_before(number, run);
        add_run(&mut begun, *run, passes)?;
    }
    Ok(begun)
}

/// Of some runs of a history the last kept one of each edge that began before the event of a number, by the number of
/// the edge; `None` where it has none. `runs` are those that [`rev_runs::runs`] gives.
///
/// # Errors
/// [`AllocError`] only where an allocation was refused.
pub fn last_runs_before(
    alloc: Global,
    history: &History,
    runs: &[Run],
    number: u32,
) -> Result<Vec<Option<Last>>, AllocError>
    ensures size { IfOk result (λ lasts. length lasts.items ≡ length history.now.timeline.manifest.builds) }
    ensures last { IfOk result (λ lasts. (edge : ℕ) → edge < length history.now.timeline.manifest.builds
        → slice_index_or lasts.items edge None
        ≡ last_from history.now.timeline edge None (filter (is_begun_before_of number) runs.now)) }
{
    let begun = begun_before(alloc, runs, number)?;
    lasts_in(alloc, history, &begun)
}
