//! What is foretold of a recorded build.
use crate::changes::{ChangeFault, make_depths, make_faster, steps_without};
use rev_graph::Graph;
use rev_manifest::Manifest;
use rev_paths::Name;
use rev_recorded_build::{build_by_numbers, build_by_weights};
use rev_schedule::Build;
use rev_schedule_wishes::{Faster, Ninja, Order, PoolDepth, Waiting};
use rev_scheduling::{Figures, Ran, Recorded, end_with, ends_with, figures_of, jobs_at_once};
use rev_waits::steps;
use std::alloc::{AllocError, Global};

/// What is asked of another schedule.
#[derive(Clone, Copy)]
pub struct Wishes<'a> {
    /// With how many jobs; where none are named, as many as the build had, and 1, 2, 4 and so on up to 64.
    pub jobs: &'a [u32],
    /// The commands that are to be faster.
    pub faster: &'a [Faster<'a>],
    /// The pools that are to have other depths.
    pub pools: &'a [PoolDepth<'a>],
    /// The edges that are not to wait for a maker.
    pub without: &'a [Waiting],
}

impl Wishes<'_> {
    // Whether another build is asked for than the one that was recorded.
    fn is_of_another(&self) -> bool {
        !self.faster.is_empty() || !self.pools.is_empty() || !self.without.is_empty()
    }
}

/// What is foretold.
pub struct Foretold {
    /// What was recorded, and its schedule.
    pub recorded: Recorded,
    /// The figures of the build that is asked for; none where the schedule of the recording is not near to it.
    pub figures: Option<Figures>,
    /// The ends of the build as it was recorded, in the order of the figures' endings, where another one is asked for.
    pub unchanged: Vec<u64>,
}

// Written, since a derived drop is proved again at each exit of each caller.
impl Drop for Foretold {
    fn drop(self) {
        let Foretold {
            recorded: _recorded,
            figures: _figures,
            unchanged: _unchanged,
        } = self;
    }
}

// For each edge how long its command took; none of an edge that did not run. The last run of an edge counts.
fn durations_of(
    alloc: Global,
    graph: &Graph,
    runs: &[Ran],
) -> Result<Vec<Option<u32>>, AllocError> {
    let mut durations = vec![in alloc; None; graph.edges() as usize]?;
    for run in runs {
        if let Some(duration) = durations.get_mut(run.edge as usize) {
            *duration = Some(run.took());
        }
    }
    Ok(durations)
}

// The build in which these commands ran, as a Ninja of this order takes it. `steps` has for each edge the edges that it
// waits for.
fn build_of(
    alloc: Global,
    manifest: &Manifest,
    graph: &Graph,
    steps: &[Vec<u32>],
    runs: &[Ran],
    targets: &[Name],
    order: Order,
) -> Result<Build, AllocError> {
    let durations = durations_of(alloc, graph, runs)?;
    match order {
        Order::Numbers => build_by_numbers(alloc, manifest, graph, steps, &durations, targets),
        Order::CriticalPath => build_by_weights(alloc, manifest, graph, steps, &durations, targets),
    }
}

// The numbers of jobs that are asked for, or those of each question that names none.
fn jobs_of(alloc: Global, wishes: &Wishes<'_>, recorded: u32) -> Result<Vec<u32>, AllocError> {
    if !wishes.jobs.is_empty() {
        return Vec::from_slice(alloc, wishes.jobs);
    }
    let mut jobs = Vec::from_slice(alloc, &[1, 2, 4, 8, 16, 32, 64])?;
    if !jobs.contains(&recorded) {
        jobs.push(recorded)?;
    }
    jobs.sort_unstable();
    Ok(jobs)
}

// The build in which these commands ran, as it was recorded.
fn recorded_build(
    alloc: Global,
    manifest: &Manifest,
    graph: &Graph,
    runs: &[Ran],
    targets: &[Name],
    order: Order,
) -> Result<Build, AllocError> {
    let steps = steps(alloc, graph)?;
    build_of(alloc, manifest, graph, &steps, runs, targets, order)
}

// The build that is asked for. `build` is the one that was recorded.
fn changed_build(
    alloc: Global,
    manifest: &Manifest,
    graph: &Graph,
    runs: &[Ran],
    targets: &[Name],
    order: Order,
    build: Build,
    wishes: &Wishes<'_>,
) -> Result<Build, ChangeFault> {
    let mut build = build;
    if !wishes.without.is_empty() {
        let steps = steps_without(alloc, graph, wishes.without)?;
        build = build_of(alloc, manifest, graph, &steps, runs, targets, order)?;
    }
    make_faster(alloc, graph, &mut build, wishes.faster)?;
    make_depths(manifest, &mut build, wishes.pools)?;
    Ok(build)
}

// The ends of a build with these numbers of jobs, where another build is asked for.
fn unchanged_ends(
    alloc: Global,
    build: &Build,
    wishes: &Wishes<'_>,
    jobs: &[u32],
) -> Result<Vec<u64>, AllocError> {
    if !wishes.is_of_another() {
        return Ok(Vec::new(alloc));
    }
    ends_with(alloc, build, jobs)
}

/// What is foretold of a build in which these commands ran, with these targets, under this Ninja. The end depends on the
/// links with the first number of jobs that is asked for, else with as many as the build had.
///
/// # Errors
/// [`ChangeFault::NoOrder`] where an edge does not wait for the maker by an order-only input. [`ChangeFault::NoCommand`]
/// where no command that ran makes an output that is to be faster. [`ChangeFault::NoPool`] where the manifest has no pool
/// of a name. [`ChangeFault::Memory`] only where an allocation was refused.
pub fn foretell(
    alloc: Global,
    manifest: &Manifest,
    graph: &Graph,
    runs: &[Ran],
    targets: &[Name],
    ninja: &Ninja,
    wishes: &Wishes<'_>,
) -> Result<Foretold, ChangeFault> {
    let build = recorded_build(alloc, manifest, graph, runs, targets, ninja.order)?;
    let given = match ninja.jobs {
        Some(jobs) => jobs,
        None => jobs_at_once(alloc, runs)?,
    };
    let recorded = Recorded::new(runs, given, end_with(alloc, &build, given)?.unwrap_or(0));
    let jobs = jobs_of(alloc, wishes, given)?;
    let unchanged = unchanged_ends(alloc, &build, wishes, &jobs)?;
    let mut build = changed_build(
        alloc,
        manifest,
        graph,
        runs,
        targets,
        ninja.order,
        build,
        wishes,
    )?;
    let at = wishes.jobs.first().copied().unwrap_or(given);
    let figures = if recorded.is_near() {
        figures_of(alloc, &mut build, &jobs, at)?
    } else {
        None
    };
    Ok(Foretold {
        recorded,
        figures,
        unchanged,
    })
}
