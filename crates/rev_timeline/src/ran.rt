//! The runs of a history with their times.
ghost use Rattle.std.specs.Prelude.{◌≡◌, ◌++◌, IfOk, OnOk, option_and_then, unwrap_or};
ghost use Rattle.std.specs.List.{filter_map};
ghost use Rattle.std.specs.Option.{option_copied, option_to_list};
ghost use Rattle.rev_history.specs.Timeline.{event_at};
ghost use Rattle.rev_timeline.specs.Ran.{end_of as end_of_run, ending_by as ending_by_event, ending_of as ending_of_run, later as later_of, ran_by as ran_by_run, ran_of};

use rev_events::Event;
use rev_history::History;
use rev_lanes::Span;
use rev_queries::time_at;
use rev_runs::{Run, runs};
use std::alloc::{AllocError, Global};

/// How a command ended.
#[derive(Clone, Copy, PartialEq, Eq)]
pub enum Ending {
    /// It ended well.
    Well,
    /// It failed.
    Failed,
    /// Ninja stopped it.
    Stopped,
    /// It had not ended when the recording did.
    Running,
}

/// A kept run of a command, with its times.
#[derive(Clone, Copy)]
pub struct Ran {
    /// The run.
    pub run: Run,
    /// When it began and ended, in milliseconds from the beginning of the recording. Where it had not ended, it ends
    /// here with the last event of the recording.
    pub span: Span,
    /// How it ended.
    pub ending: Ending,
}

// How a command ended, by the event that ended it.
fn ending_by(event: Option<&Event>) -> Ending
    ensures { result ≡ ending_by_event (option_copied event.entry) }
{
    match event {
        Some(Event::Fail { .. }) => Ending::Failed,
        Some(Event::Abort { .. }) => Ending::Stopped,
        _ => Ending::Well,
    }
}

// How a run ended, by the number of the event that ended it.
fn ending_of(history: &History, ended: Option<u32>) -> Ending
    ensures { result ≡ ending_of_run history.now.timeline ended }
{
    match ended {
        None => Ending::Running,
        Some(ended) => ending_by(history.event(ended)),
    }
}

// The later one of two times.
fn later(one: u32, other: u32) -> u32
    ensures { result ≡ later_of one other }
{
    if one < other { other } else { one }
}

// When a run ended that began at a time.
fn end_of(history: &History, times: &[Option<u32>], ended: Option<u32>, from: u32) -> u32
    ensures { result ≡ end_of_run history.now.timeline times.now ended from }
{
    let number = ended.unwrap_or(history.last());
    later(from, time_at(times, number).unwrap_or(from))
}

// A run with its times, where it is kept and its start has one.
fn ran_by(history: &History, times: &[Option<u32>], run: &Run) -> Option<Ran>
    ensures { result ≡ ran_by_run history.now.timeline times.now run.now }
{
    if !run.kept {
        return None;
    }
    let from = time_at(times, run.began)?;
    let to = end_of(history, times, run.ended, from);
    Some(Ran {
        run: *run,
        span: Span { from, to },
        ending: ending_of(history, run.ended),
    })
}

// Adds a run, if there is one.
fn add(all: &mut Vec<Ran>, ran: Option<Ran>) -> Result<(), AllocError>
    ensures { OnOk result (all.new.items ≡ all.old.items ++ option_to_list ran) }
{
    if let Some(ran) = ran {
        all.push(ran)?;
    }
    Ok(())
}

// Those of some runs that are kept and have times.
fn ran_in(
    alloc: Global,
    history: &History,
    times: &[Option<u32>],
    runs: &[Run],
) -> Result<Vec<Ran>, AllocError>
    ensures { IfOk result (λ all. all.items ≡ filter_map (ran_by_run history.now.timeline times.now) runs.now) }
{
    let mut all = Vec::new(alloc);
    for run in runs {
        add(&mut all, ran_by(history, times, run))?;
    }
    Ok(all)
}

/// The kept runs whose starts have times, in the order of the events that began them. `times` has a time for each number
/// of an event, where one is known.
///
/// # Errors
/// [`AllocError`] only where an allocation was refused.
pub(crate) fn timed(
    alloc: Global,
    history: &History,
    times: &[Option<u32>],
) -> Result<Vec<Ran>, AllocError>
    ensures { IfOk result (λ all. all.items ≡ ran_of history.now.timeline times.now) }
{
    let runs = runs(alloc, history)?;
    ran_in(alloc, history, times, &runs)
}
