//! Commands that failed on one day and passed on the other, and what had finished before them on the good day alone.
use crate::facts::Differing;
use crate::reads::{listed, makes_one, set_of_paths};
use crate::side::Day;
use rev_compared::{
    Ending, Last, Moment, finished_alone, last_at, last_runs_before, made_earlier, twin_at,
};
use rev_runs::{Run, runs};
use std::alloc::{AllocError, Global};

/// The bad day beside the good day.
#[derive(Clone, Copy)]
pub(crate) struct Days<'a> {
    pub(crate) bad: Day<'a>,
    pub(crate) good: Day<'a>,
}

/// A command that failed on the bad day and passed on the good day: the numbers of its edge, and its runs.
#[derive(Clone, Copy)]
pub(crate) struct Flake {
    pub(crate) bad_edge: u32,
    pub(crate) good_edge: u32,
    pub(crate) bad: Last,
    pub(crate) good: Last,
}

// What one recording says of the time before each of its commands.
struct Past {
    // The runs of its commands.
    runs: Vec<Run>,
    // For each edge whether it had been made before the recording began.
    earlier: Vec<bool>,
}

impl Drop for Past {
    fn drop(self) {
        let Past {
            runs: _runs,
            earlier: _earlier,
        } = self;
    }
}

impl Past {
    fn new<'a>(alloc: Global, day: Day<'a>) -> Result<Past, AllocError> {
        Ok(Past {
            runs: runs(alloc, day.side.history)?,
            earlier: made_earlier(alloc, day.side.history, day.lasts)?,
        })
    }

    // For each edge the last of its runs that began before an event.
    fn lasts<'a>(
        &self,
        alloc: Global,
        day: Day<'a>,
        number: u32,
    ) -> Result<Vec<Option<Last>>, AllocError> {
        last_runs_before(alloc, day.side.history, &self.runs, number)
    }

    // Whether an edge had been made before the recording began.
    fn is_earlier(&self, edge: u32) -> bool {
        self.earlier.get(edge as usize).copied().unwrap_or(false)
    }
}

/// What both recordings say of the time before each of their commands.
pub(crate) struct Pasts {
    bad: Past,
    good: Past,
}

impl Drop for Pasts {
    fn drop(self) {
        let Pasts {
            bad: _bad,
            good: _good,
        } = self;
    }
}

impl Pasts {
    /// The same of two days.
    pub(crate) fn new<'a>(alloc: Global, days: Days<'a>) -> Result<Pasts, AllocError> {
        Ok(Pasts {
            bad: Past::new(alloc, days.bad)?,
            good: Past::new(alloc, days.good)?,
        })
    }
}

/// A maker that had finished before a command on the good day, and had not on the bad day.
#[derive(Clone, Copy)]
pub(crate) struct Maker {
    /// The number of its edge on the good day, and on the bad day, if it is there.
    pub(crate) edge: u32,
    pub(crate) twin: Option<u32>,
    /// Whether it did not run on the good day, since it had been made before.
    pub(crate) is_earlier: bool,
    /// Whether one of its outputs is listed as read by the command on the good day.
    pub(crate) is_listed: bool,
}

fn is_flake(bad: &Last, good: &Last) -> bool {
    bad.ending == Ending::Failed && good.ending == Ending::Well
}

/// The commands that failed in A and passed in B.
pub(crate) fn failed_in_one(
    alloc: Global,
    differing: &[Differing],
) -> Result<Vec<Flake>, AllocError> {
    let mut flakes = Vec::new(alloc);
    for difference in differing {
        if is_flake(&difference.last, &difference.other) {
            flakes.push(Flake {
                bad_edge: difference.edge,
                good_edge: difference.twin,
                bad: difference.last,
                good: difference.other,
            })?;
        }
    }
    Ok(flakes)
}

/// The commands that failed in B and passed in A.
pub(crate) fn failed_in_other(
    alloc: Global,
    differing: &[Differing],
) -> Result<Vec<Flake>, AllocError> {
    let mut flakes = Vec::new(alloc);
    for difference in differing {
        if is_flake(&difference.other, &difference.last) {
            flakes.push(Flake {
                bad_edge: difference.twin,
                good_edge: difference.edge,
                bad: difference.other,
                good: difference.last,
            })?;
        }
    }
    Ok(flakes)
}

// The edges that had finished before a command on the good day, and had not on the bad day.
fn edges_of<'a>(
    alloc: Global,
    days: Days<'a>,
    pasts: &Pasts,
    flake: &Flake,
) -> Result<Vec<u32>, AllocError> {
    let (good, bad) = (flake.good.began, flake.bad.began);
    let lasts = pasts.good.lasts(alloc, days.good, good)?;
    let others = pasts.bad.lasts(alloc, days.bad, bad)?;
    let here = Moment {
        number: good,
        lasts: &lasts,
        earlier: &pasts.good.earlier,
    };
    let there = Moment {
        number: bad,
        lasts: &others,
        earlier: &pasts.bad.earlier,
    };
    finished_alone(
        alloc,
        days.good.side.edges(),
        &here,
        days.good.twins,
        &there,
    )
}

/// The makers that had finished before a command on the good day, and had not on the bad day.
pub(crate) fn makers_of<'a>(
    alloc: Global,
    days: Days<'a>,
    pasts: &Pasts,
    flake: &Flake,
) -> Result<Vec<Maker>, AllocError> {
    let good = days.good;
    let edges = edges_of(alloc, days, pasts, flake)?;
    let paths = listed(alloc, good.side, flake.good_edge, &flake.good)?;
    let reads = set_of_paths(alloc, paths.as_slice())?;
    let mut makers = Vec::new(alloc);
    for edge in &edges {
        makers.push(Maker {
            edge: *edge,
            twin: twin_at(good.twins, *edge),
            is_earlier: pasts.good.is_earlier(*edge),
            is_listed: makes_one(good.side, *edge, &reads),
        })?;
    }
    Ok(makers)
}

/// What became of a maker on the bad day, in words before ` in A`.
pub(crate) fn story_of<'a>(bad: Day<'a>, maker: &Maker) -> &'static str {
    let Some(twin) = maker.twin else {
        return "not an edge";
    };
    match last_at(bad.lasts, twin) {
        Some(last) => match last.ending {
            Ending::Well => "finished later",
            Ending::Failed => "failed",
            Ending::Stopped => "stopped",
            Ending::Running => "did not end",
        },
        None => "did not run",
    }
}
