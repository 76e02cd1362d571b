//! How long commands took, by the times that are given of events.
ghost use Rattle.std.specs.Prelude.{◌≡◌, ◌-◌, ◌++◌, IfOk, IsPermutation, OnOk};
ghost use Rattle.std.specs.List.{filter_map};
ghost use Rattle.std.specs.Option.{option_to_list};
ghost use Rattle.rev_queries.specs.Times.{time_at as time_of, timed_by as timed_of_run, timed_of};

use rev_history::History;
use rev_runs::{Run, runs};
use std::alloc::{AllocError, Global};

/// A kept run of a command whose start and end have times.
#[derive(Clone, Copy, Debug, PartialEq, Eq)]
pub struct Timed {
    /// The edge.
    pub edge: u32,
    /// The number of the event that began it.
    pub began: u32,
    /// The number of the event that ended it.
    pub ended: u32,
    /// When it began, in milliseconds from the beginning of the recording.
    pub from: u32,
    /// When it ended, in the same.
    pub to: u32,
}

impl Timed {
    /// How many milliseconds it took; 0 where it ends before it begins, as a clock that was set may have it.
    pub fn took(&self) -> u32
        ensures { result ≡ self.now.to - self.now.from }
    {
        self.to.saturating_sub(self.from)
    }
}

/// The time of an event by its number, where one is given.
pub fn time_at(times: &[Option<u32>], number: u32) -> Option<u32>
    ensures { result ≡ time_of times.now number }
{
    match times.get(number as usize) {
        Some(time) => *time,
        None => None,
    }
}

// A run with its times, where it is kept and both of its events have one.
fn timed_by(times: &[Option<u32>], run: &Run) -> Option<Timed>
    ensures { result ≡ timed_of_run times.now run.now }
{
    if !run.kept {
        return None;
    }
    let ended = run.ended?;
    let from = time_at(times, run.began)?;
    let to = time_at(times, ended)?;
    Some(Timed {
        edge: run.edge,
        began: run.began,
        ended,
        from,
        to,
    })
}

// Adds a run, if there is one.
fn add(all: &mut Vec<Timed>, timed: Option<Timed>) -> Result<(), AllocError>
    ensures { OnOk result (all.new.items ≡ all.old.items ++ option_to_list timed) }
{
    if let Some(timed) = timed {
        all.push(timed)?;
    }
    Ok(())
}

// The runs that are kept and have times.
fn timed_in(alloc: Global, runs: &[Run], times: &[Option<u32>]) -> Result<Vec<Timed>, AllocError>
    ensures { IfOk result (λ all. all.items ≡ filter_map (timed_of_run times.now) runs.now) }
{
    let mut all = Vec::new(alloc);
    for run in runs {
        add(&mut all, timed_by(times, run))?;
    }
    Ok(all)
}

/// The kept runs whose starts and ends have times, in the order of the numbers that began them. `times` has a time for
/// each number of an event, where one is known.
///
/// # Errors
/// [`AllocError`] only where an allocation was refused.
pub fn timed_runs(
    alloc: Global,
    history: &History,
    times: &[Option<u32>],
) -> Result<Vec<Timed>, AllocError>
    ensures { IfOk result (λ all. all.items ≡ timed_of history.now.timeline times.now) }
{
    let runs = runs(alloc, history)?;
    timed_in(alloc, &runs, times)
}

/// These runs, from the one that took most time; of two that took the same the one that began first.
///
/// # Errors
/// [`AllocError`] only where an allocation was refused.
pub fn slowest(runs: Vec<Timed>) -> Result<Vec<Timed>, AllocError>
    ensures { IfOk result (λ sorted. IsPermutation runs.items sorted.items) }
{
    let mut sorted = runs;
    sorted.sort_by_key(|run| (u32::MAX - run.took(), run.began))?;
    Ok(sorted)
}
