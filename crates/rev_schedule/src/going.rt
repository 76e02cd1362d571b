//! A build as it goes on.
ghost use Rattle.std.specs.Prelude.{◌≡◌, ◌<◌, ◌∷◌, length, OnOk, IfOk};
ghost use Rattle.std.specs.List.{All};
ghost use Rattle.rev_schedule.specs.Builds.{IsWhole, edges_of, places_of};
ghost use Rattle.rev_schedule.specs.Going.{HasPools, SameKnown, moment_of};
ghost use Rattle.rev_schedule.specs.Ninja.{Arrives, Leaves};

use crate::job::{Build, Run};
use crate::line::Line;
use std::alloc::AllocError;

/// What Ninja has in mind while it builds.
#[derive(Drop)]
pub(crate) struct Going {
    /// In milliseconds.
    pub(crate) time: u64,
    /// The edge whose run ended last.
    pub(crate) freed: Option<u32>,
    /// For each edge whether its outputs are ready.
    pub(crate) through: Vec<bool>,
    /// For each edge the place of its first maker that is not through.
    pub(crate) missing: Vec<usize>,
    /// The edges that may start, by their ranks.
    pub(crate) ready: Line,
    /// The edges that run, by the ends of their runs.
    pub(crate) running: Line,
    /// For each pool how many of its edges are ready or run.
    pub(crate) used: Vec<u32>,
    /// For each pool the edges that wait for a place, by their ranks.
    pub(crate) waiting: Vec<Line>,
    /// The runs that have begun.
    pub(crate) runs: Vec<Run>,
}

// How many edges of a pool can be at work.
fn places(build: &Build, pool: u32) -> u32
    requires whole { IsWhole build.now }
    requires inside { pool < length build.now.depths.items }
    ensures { result ≡ places_of build.now pool }
{
    let depth = build.depths[pool as usize];
    if depth == 0 {
        build.jobs.len() as u32
    } else {
        depth
    }
}

impl Going {
    /// An edge whose inputs are ready: it takes a place in its pool, or waits for one.
    pub(crate) fn arrive(&mut self, build: &Build, edge: u32) -> Result<(), AllocError>
        requires whole { IsWhole build.now }
        requires edge { edge < edges_of build.now }
        requires pools { HasPools build.now self.old }
        ensures pools { HasPools build.now self.new }
        ensures arrives { OnOk result (Arrives build.now edge (moment_of self.old) (moment_of self.new)) }
        ensures known { SameKnown self.old self.new }
    {
        let job = build.jobs[edge as usize];
        let turn = (job.rank, edge);
        let used = self.used[job.pool as usize];
        if used < places(build, job.pool) {
            self.used[job.pool as usize] = used + 1;
            self.ready.add(turn)?;
        } else {
            let line = &mut self.waiting[job.pool as usize];
            line.add(turn)?;
        }
        Ok(())
    }

    /// An edge that is done: it hands its place in its pool to the first one that waits, or gives it back.
    pub(crate) fn leave(&mut self, build: &Build, edge: u32) -> Result<(), AllocError>
        requires whole { IsWhole build.now }
        requires edge { edge < edges_of build.now }
        requires pools { HasPools build.now self.old }
        ensures pools { HasPools build.now self.new }
        ensures leaves { OnOk result (Leaves build.now edge (moment_of self.old) (moment_of self.new)) }
        ensures known { SameKnown self.old self.new }
    {
        let pool = build.jobs[edge as usize].pool as usize;
        let line = &mut self.waiting[pool];
        match line.take() {
            Some(next) => self.ready.add(next)?,
            None => self.used[pool] = self.used[pool].saturating_sub(1),
        }
        Ok(())
    }
}
