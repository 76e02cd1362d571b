//! The runs on which the end of a schedule depends.
use rev_schedule::{Run, Schedule};
use std::alloc::{AllocError, Global};

// The run of each edge, as its place among the runs.
fn run_places(alloc: Global, runs: &[Run], edges: usize) -> Result<Vec<Option<usize>>, AllocError> {
    let mut places = vec![in alloc; None; edges]?;
    for (place, run) in runs.iter().enumerate() {
        if let Some(known) = places.get_mut(run.edge as usize) {
            *known = Some(place);
        }
    }
    Ok(places)
}

// The run that ends last; of several the one of the greatest edge, whose end comes last.
fn last_to_end(runs: &[Run]) -> Option<Run> {
    let mut last: Option<Run> = None;
    for run in runs {
        match last {
            Some(known) if (run.end, run.edge) < (known.end, known.edge) => {}
            _ => last = Some(*run),
        }
    }
    last
}

// The run whose end began another.
fn run_before(runs: &[Run], places: &[Option<usize>], run: &Run) -> Option<Run> {
    let cause = run.cause?;
    let place = places.get(cause as usize).copied()??;
    runs.get(place).copied()
}

/// The runs on which the end of a schedule depends, in the order in which they begin. The last one is the run that ends
/// last. Each began when the one before it ended, and the first one began as the build did.
///
/// # Errors
/// [`AllocError`] only where an allocation was refused.
pub(crate) fn chain(
    alloc: Global,
    schedule: &Schedule,
    edges: usize,
) -> Result<Vec<Run>, AllocError> {
    let places = run_places(alloc, &schedule.runs, edges)?;
    let mut links = Vec::new(alloc);
    let mut next = last_to_end(&schedule.runs);
    for _ in 0..schedule.runs.len() {
        let Some(run) = next else {
            break;
        };
        links.push(run)?;
        next = run_before(&schedule.runs, &places, &run);
    }
    links.reverse();
    Ok(links)
}

/// For how long commands ran, all jobs together, from the beginning of a schedule up to a moment that moves on.
pub(crate) struct Busy<'a> {
    // The runs that have not begun by then, in the order of their starts.
    to_begin: &'a [Run],
    // The ends of runs that have not ended by then, in their order.
    to_end: &'a [u64],
    // How many have begun, and the sum of their starts.
    begun: u64,
    starts: u64,
    // How many have ended, and the sum of their ends.
    ended: u64,
    ends: u64,
}

impl Drop for Busy<'_> {
    fn drop(self) {
        let Busy {
            to_begin: _to_begin,
            to_end: _to_end,
            begun: _begun,
            starts: _starts,
            ended: _ended,
            ends: _ends,
        } = self;
    }
}

impl<'a> Busy<'a> {
    /// At the beginning. `runs` are in the order of their starts, and `ends` has their ends in order.
    pub(crate) fn new(runs: &'a [Run], ends: &'a [u64]) -> Busy<'a> {
        Busy {
            to_begin: runs,
            to_end: ends,
            begun: 0,
            starts: 0,
            ended: 0,
            ends: 0,
        }
    }

    // Takes in the runs that begin before a moment.
    fn begin_until(&mut self, time: u64) {
        let to_begin = self.to_begin;
        for (place, run) in to_begin.iter().enumerate() {
            if run.start >= time {
                self.to_begin = to_begin.get(place..).unwrap_or(&[]);
                return;
            }
            self.begun = self.begun.saturating_add(1);
            self.starts = self.starts.saturating_add(run.start);
        }
        self.to_begin = &[];
    }

    // Takes in the runs that end before a moment.
    fn end_until(&mut self, time: u64) {
        let to_end = self.to_end;
        for (place, end) in to_end.iter().enumerate() {
            if *end >= time {
                self.to_end = to_end.get(place..).unwrap_or(&[]);
                return;
            }
            self.ended = self.ended.saturating_add(1);
            self.ends = self.ends.saturating_add(*end);
        }
        self.to_end = &[];
    }

    /// The time up to a moment that is not before the last one that was asked for.
    pub(crate) fn until(&mut self, time: u64) -> u64 {
        self.begin_until(time);
        self.end_until(time);
        let begun = self.begun.saturating_mul(time).saturating_sub(self.starts);
        let ended = self.ended.saturating_mul(time).saturating_sub(self.ends);
        begun.saturating_sub(ended)
    }
}

/// The ends of runs, in their order.
///
/// # Errors
/// [`AllocError`] only where an allocation was refused.
pub(crate) fn ends_in_order(alloc: Global, runs: &[Run]) -> Result<Vec<u64>, AllocError> {
    let mut ends = Vec::with_capacity(alloc, runs.len())?;
    for run in runs {
        ends.push(run.end)?;
    }
    ends.sort_unstable();
    Ok(ends)
}
