//! The figures of the schedules of a build.
ghost use Rattle.std.specs.Prelude.{IfOk, IfSome};
ghost use Rattle.rev_schedule.specs.Ninja.{IsSchedule};

use crate::links::{Busy, chain, ends_in_order};
use rev_schedule::{Build, Schedule, schedule_of};
use std::alloc::{AllocError, Global};
use std::mem;

// How many of the longest commands on which the end depends are tried twice as fast: each takes a schedule.
const MOST_TRIED: usize = 8;

/// How a build goes with so many jobs.
#[derive(Clone, Copy, Debug, PartialEq, Eq)]
pub struct Ending {
    /// How many jobs.
    pub jobs: u32,
    /// When it ends, in milliseconds.
    pub end: u64,
    /// Before which moment no schedule with so many jobs ends.
    pub bound: u64,
    /// For how many thousandths of the time the jobs have no command, all jobs together.
    pub idle: u64,
}

/// A run on which the end depends: it begins when the one before it ends.
#[derive(Clone, Copy, Debug, PartialEq, Eq)]
pub struct Link {
    /// Its edge.
    pub edge: u32,
    /// When it begins, in milliseconds.
    pub start: u64,
    /// When it ends.
    pub end: u64,
    /// For how many thousandths of this time the jobs have no command, all jobs together.
    pub idle: u64,
}

/// What is gained where a command takes half its time.
#[derive(Clone, Copy, Debug, PartialEq, Eq)]
pub struct Gain {
    /// Its edge.
    pub edge: u32,
    /// How long it takes, in milliseconds.
    pub took: u64,
    /// How much earlier the build ends, in milliseconds.
    pub gain: u64,
}

/// The figures of a build.
pub struct Figures {
    /// How long all commands take one after the other, in milliseconds.
    pub work: u64,
    /// How long the longest chain of commands takes in which each waits for the one before it.
    pub longest: u64,
    /// How the build goes with each number of jobs.
    pub endings: Vec<Ending>,
    /// With how many jobs the end depends on the links.
    pub jobs: u32,
    /// The runs on which the end depends, in the order in which they begin.
    pub links: Vec<Link>,
    /// What is gained by commands that take half their time, from the greatest gain. Only the longest commands among the
    /// links were tried.
    pub gains: Vec<Gain>,
}

// Written, since a derived drop is proved again at each exit of each caller.
impl Drop for Figures {
    fn drop(self) {
        let Figures {
            work: _work,
            longest: _longest,
            endings: _endings,
            jobs: _jobs,
            links: _links,
            gains: _gains,
        } = self;
    }
}

/// Ninja's schedule of a build with so many jobs; none where the build is not whole (`Build::is_whole`), or there is no
/// job.
///
/// # Errors
/// [`AllocError`] only where an allocation was refused.
pub fn schedule_with(
    alloc: Global,
    build: &Build,
    jobs: u32,
) -> Result<Option<Schedule>, AllocError>
    ensures { IfOk result (λ it. IfSome it (λ it. IsSchedule build.now jobs it.runs.items it.end)) }
{
    if jobs == 0 {
        return Ok(None);
    }
    if !build.is_whole() {
        return Ok(None);
    }
    schedule_of(alloc, build, jobs)
}

/// When a build ends with so many jobs, in milliseconds; none where [`schedule_with`] has no schedule.
///
/// # Errors
/// [`AllocError`] only where an allocation was refused.
pub fn end_with(alloc: Global, build: &Build, jobs: u32) -> Result<Option<u64>, AllocError> {
    match schedule_with(alloc, build, jobs)? {
        Some(schedule) => Ok(Some(schedule.end)),
        None => Ok(None),
    }
}

/// When a build ends with each of these numbers of jobs; 0 where [`end_with`] has no end.
///
/// # Errors
/// [`AllocError`] only where an allocation was refused.
pub fn ends_with(alloc: Global, build: &Build, jobs: &[u32]) -> Result<Vec<u64>, AllocError> {
    let mut ends = Vec::with_capacity(alloc, jobs.len())?;
    for jobs in jobs {
        ends.push(end_with(alloc, build, *jobs)?.unwrap_or(0))?;
    }
    Ok(ends)
}

// For how many thousandths of the time of all jobs there is no command, where commands take so much of it.
fn idle_part(jobs: u32, time: u64, busy: u64) -> u64 {
    let all = time.saturating_mul(u64::from(jobs));
    let idle = all.saturating_sub(busy);
    idle.saturating_mul(1000).checked_div(all).unwrap_or(0)
}

// How long all commands take one after the other.
fn work_of(build: &Build) -> u64 {
    let mut work: u64 = 0;
    for job in &build.jobs {
        work = work.saturating_add(u64::from(job.duration));
    }
    work
}

// How long the longest chain of commands takes in which each waits for the one before it: when the build ends with a
// job for each command and without limits of pools.
fn longest_chain(alloc: Global, build: &mut Build) -> Result<Option<u64>, AllocError> {
    let unlimited = vec![in alloc; 0; build.depths.len()]?;
    let depths = mem::replace(&mut build.depths, unlimited);
    let end = end_with(alloc, build, u32::MAX);
    build.depths = depths;
    end
}

// How a build goes with so many jobs, by its schedule.
fn ending_of(schedule: &Schedule, jobs: u32, work: u64, longest: u64) -> Ending {
    let jobs_less_one = u64::from(jobs).saturating_sub(1);
    let share = work
        .saturating_add(jobs_less_one)
        .checked_div(u64::from(jobs))
        .unwrap_or(0);
    Ending {
        jobs,
        end: schedule.end,
        bound: longest.max(share),
        idle: idle_part(jobs, schedule.end, work),
    }
}

// How a build goes with each of these numbers of jobs.
fn endings_of(
    alloc: Global,
    build: &Build,
    jobs: &[u32],
    work: u64,
    longest: u64,
) -> Result<Vec<Ending>, AllocError> {
    let mut endings = Vec::new(alloc);
    for jobs in jobs {
        if let Some(schedule) = schedule_with(alloc, build, *jobs)? {
            endings.push(ending_of(&schedule, *jobs, work, longest))?;
        }
    }
    Ok(endings)
}

// The links of a schedule with so many jobs.
fn links_of(
    alloc: Global,
    schedule: &Schedule,
    jobs: u32,
    edges: usize,
) -> Result<Vec<Link>, AllocError> {
    let runs = chain(alloc, schedule, edges)?;
    let ends = ends_in_order(alloc, &schedule.runs)?;
    let mut busy = Busy::new(&schedule.runs, &ends);
    let mut links = Vec::new(alloc);
    for run in &runs {
        let before = busy.until(run.start);
        let during = busy.until(run.end).saturating_sub(before);
        links.push(Link {
            edge: run.edge,
            start: run.start,
            end: run.end,
            idle: idle_part(jobs, run.end.saturating_sub(run.start), during),
        })?;
    }
    Ok(links)
}

// When a build ends in which the command of an edge takes another time.
fn end_with_duration(
    alloc: Global,
    build: &mut Build,
    jobs: u32,
    edge: u32,
    duration: u32,
) -> Result<Option<u64>, AllocError> {
    let Some(job) = build.jobs.get_mut(edge as usize) else {
        return Ok(None);
    };
    let known = job.duration;
    job.duration = duration;
    let end = end_with(alloc, build, jobs);
    if let Some(job) = build.jobs.get_mut(edge as usize) {
        job.duration = known;
    }
    end
}

// What is gained where the command of a link takes half its time.
fn gain_of(
    alloc: Global,
    build: &mut Build,
    jobs: u32,
    end: u64,
    link: &Link,
) -> Result<Option<Gain>, AllocError> {
    let took = link.end.saturating_sub(link.start);
    let half = u32::try_from(took / 2).unwrap_or(u32::MAX);
    let other = end_with_duration(alloc, build, jobs, link.edge, half)?;
    match other {
        Some(other) if other < end => Ok(Some(Gain {
            edge: link.edge,
            took,
            gain: end.saturating_sub(other),
        })),
        _ => Ok(None),
    }
}

// The links whose commands take longest, from the longest.
fn longest_links(alloc: Global, links: &[Link]) -> Result<Vec<Link>, AllocError> {
    let mut sorted = Vec::from_slice(alloc, links)?;
    sorted.sort_by_key(|link| (
        u64::MAX.saturating_sub(link.end.saturating_sub(link.start)),
        link.start,
    ))?;
    sorted.truncate(MOST_TRIED);
    Ok(sorted)
}

// What is gained by each of the longest commands among the links, from the greatest gain.
fn gains_of(
    alloc: Global,
    build: &mut Build,
    jobs: u32,
    end: u64,
    links: &[Link],
) -> Result<Vec<Gain>, AllocError> {
    let longest = longest_links(alloc, links)?;
    let mut gains = Vec::new(alloc);
    for link in &longest {
        if let Some(gain) = gain_of(alloc, build, jobs, end, link)? {
            gains.push(gain)?;
        }
    }
    gains.sort_by_key(|gain| (u64::MAX.saturating_sub(gain.gain), gain.edge))?;
    Ok(gains)
}

/// The figures of a build with each of some numbers of jobs. The end depends on the links with `at` jobs. Each number
/// takes a schedule, and so does each gain. None where the build is not whole (`Build::is_whole`), or `at` is 0. The build
/// stays as it is.
///
/// # Errors
/// [`AllocError`] only where an allocation was refused.
pub fn figures_of(
    alloc: Global,
    build: &mut Build,
    jobs: &[u32],
    at: u32,
) -> Result<Option<Figures>, AllocError> {
    let Some(schedule) = schedule_with(alloc, build, at)? else {
        return Ok(None);
    };
    let links = links_of(alloc, &schedule, at, build.jobs.len())?;
    let longest = longest_chain(alloc, build)?.unwrap_or(0);
    let work = work_of(build);
    Ok(Some(Figures {
        work,
        longest,
        endings: endings_of(alloc, build, jobs, work, longest)?,
        jobs: at,
        gains: gains_of(alloc, build, at, schedule.end, &links)?,
        links,
    }))
}
