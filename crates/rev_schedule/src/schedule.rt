//! The schedule of a build.
ghost use Rattle.std.specs.Prelude.{◌≡◌, ◌<◌, [], length, IfOk, IfSome};
ghost use Rattle.std.specs.List.{All};
ghost use Rattle.rev_schedule.specs.Lines.{line_items};
ghost use Rattle.rev_schedule.specs.Builds.{IsWhole, first_turn_of, makers_of};
ghost use Rattle.rev_schedule.specs.Going.{AreInside, AreUsers, HasInputs, HasPools, moment_of};
ghost use Rattle.rev_schedule.specs.Ninja.{BecomeReady, IsBegun, IsFresh, IsSchedule};

use crate::going::Going;
use crate::job::{Build, Run};
use crate::line::Line;
use rev_ranks::reversed;
use std::alloc::{AllocError, Global};

/// Which command runs when.
#[derive(Drop)]
pub struct Schedule {
    /// The runs, in the order in which they begin.
    pub runs: Vec<Run>,
    /// When the last one ends, in milliseconds.
    pub end: u64,
}

// The turns of the edges that wait for nobody.
fn first_turns(alloc: Global, build: &Build) -> Result<Vec<(u64, u32)>, AllocError>
    requires whole { IsWhole build.now }
    ensures { IfOk result (λ turns. BecomeReady build.now (first_turn_of build.now)
        (λ edge. makers_of build.now edge ≡ []) turns.items) }
{
    let mut turns = Vec::new(alloc);
    for edge in 0..build.jobs.len() {
        if build.makers[edge].is_empty() {
            turns.push((build.jobs[edge].planned, edge as u32))?;
        }
    }
    turns.sort_unstable();
    Ok(turns)
}

// A line for each pool, with nobody in it.
fn lines(alloc: Global, count: usize) -> Result<Vec<Line>, AllocError>
    ensures count { IfOk result (λ lines. length lines.items ≡ count) }
    ensures empty { IfOk result (λ lines. All (λ line. line_items line ≡ []) lines.items) }
{
    let mut lines = Vec::new(alloc);
    for _ in 0..count {
        lines.push(Line::new(alloc))?;
    }
    Ok(lines)
}

// The moment at which nothing has begun.
fn fresh(alloc: Global, build: &Build) -> Result<Going, AllocError>
    requires whole { IsWhole build.now }
    ensures fresh { IfOk result (λ going. IsFresh build.now (moment_of going)) }
    ensures inputs { IfOk result (λ going. HasInputs build.now going) }
    ensures pools { IfOk result (λ going. HasPools build.now going) }
{
    Ok(Going {
        time: 0,
        freed: None,
        through: vec![in alloc; false; build.jobs.len()]?,
        missing: vec![in alloc; 0; build.jobs.len()]?,
        ready: Line::new(alloc),
        running: Line::new(alloc),
        used: vec![in alloc; 0; build.depths.len()]?,
        waiting: lines(alloc, build.depths.len())?,
        runs: Vec::new(alloc),
    })
}

// The moment at which the edges that wait for nobody have arrived.
fn begun(alloc: Global, build: &Build) -> Result<Going, AllocError>
    requires whole { IsWhole build.now }
    ensures begun { IfOk result (λ going. IsBegun build.now (moment_of going)) }
    ensures inside { IfOk result (λ going. AreInside build.now (moment_of going)) }
    ensures inputs { IfOk result (λ going. HasInputs build.now going) }
    ensures pools { IfOk result (λ going. HasPools build.now going) }
{
    let mut going = fresh(alloc, build)?;
    let turns = first_turns(alloc, build)?;
    for turn in &turns {
        going.arrive(build, turn.1)?;
    }
    Ok(going)
}

/// Ninja's schedule of a build with so many jobs. It is over after two steps for each edge at most: `None`, which would
/// say that it is not, never comes.
///
/// # Errors
/// [`AllocError`] only where an allocation was refused.
pub fn schedule_of(alloc: Global, build: &Build, jobs: u32) -> Result<Option<Schedule>, AllocError>
    requires whole { IsWhole build.now }
    requires some { 0 < jobs }
    ensures { IfOk result (λ it. IfSome it (λ it. IsSchedule build.now jobs it.runs.items it.end)) }
{
    let users = reversed(alloc, &build.makers)?;
    let mut going = begun(alloc, build)?;
    for _ in 0..=2 * build.jobs.len() {
        if !going.step(alloc, build, &users, jobs)? {
            return Ok(Some(Schedule {
                runs: going.runs,
                end: going.time,
            }));
        }
    }
    Ok(None)
}
