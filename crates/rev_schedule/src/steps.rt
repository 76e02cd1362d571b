//! The steps of Ninja's loop.
ghost use Rattle.std.specs.Prelude.{◌≡◌, ◌<◌, ◌≤◌, ◌⊎◌, ℕ, [], true, false, length, slice_set, slice_index, OnOk, IfOk, MatchOption, MatchBool};
ghost use Rattle.std.specs.Global.{Vec};
ghost use Rattle.std.specs.List.{All};
ghost use Rattle.rev_ranks.specs.Graph.{graph_of};
ghost use Rattle.rev_ranks.specs.Sets.{IsReversed};
ghost use Rattle.rev_schedule.specs.Builds.{IsWhole, edges_of, turn_of};
ghost use Rattle.rev_schedule.specs.Going.{AreInside, AreUsers, HasInputs, HasPools, IsStarted, moment_of};
ghost use Rattle.rev_schedule.specs.Lines.{line_items};
ghost use Rattle.rev_schedule.specs.Ninja.{AllThrough, BecomeReady, Finishes, IsOver, Step};
ghost use Rattle.rev_schedule.specs.Turns.{IsFirst};

use crate::going::Going;
use crate::inputs::look_at_all;
use crate::job::{Build, Run};
use std::alloc::{AllocError, Global};

impl Going {
    // The outputs of an edge are ready. Gives the turns of the edges that become ready by it.
    fn open(
        &mut self,
        alloc: Global,
        build: &Build,
        users: &[Vec<u32>],
        edge: u32,
    ) -> Result<Vec<(u64, u32)>, AllocError>
        requires whole { IsWhole build.now }
        requires edge { edge < edges_of build.now }
        requires users { AreUsers build.now users.now }
        requires inputs { HasInputs build.now self.old }
        requires pools { HasPools build.now self.old }
        ensures inputs { OnOk result (HasInputs build.now self.new) }
        ensures pools { HasPools build.now self.new }
        ensures opens { OnOk result (moment_of self.new
            ≡ record (moment_of self.old) { through = slice_set self.old.through.items edge true }) }
        ensures come { IfOk result (λ turns. BecomeReady build.now (turn_of build.now)
            (λ user. AllThrough build.now (slice_set self.old.through.items edge true) user
            × (AllThrough build.now self.old.through.items user → ⊥)) turns.items) }
    {
        self.through[edge as usize] = true;
        let mut turns = look_at_all(
            alloc,
            build,
            &users[edge as usize],
            &self.through,
            &mut self.missing,
        )?;
        turns.sort_unstable();
        Ok(turns)
    }

    // An edge is done: it leaves its pool, its outputs are ready, and edges that waited for them alone arrive.
    fn finish(
        &mut self,
        alloc: Global,
        build: &Build,
        users: &[Vec<u32>],
        edge: u32,
    ) -> Result<(), AllocError>
        requires whole { IsWhole build.now }
        requires edge { edge < edges_of build.now }
        requires users { AreUsers build.now users.now }
        requires inputs { HasInputs build.now self.old }
        requires pools { HasPools build.now self.old }
        ensures inputs { OnOk result (HasInputs build.now self.new) }
        ensures pools { HasPools build.now self.new }
        ensures finishes { OnOk result (Finishes build.now edge (moment_of self.old) (moment_of self.new)) }
    {
        self.leave(build, edge)?;
        let turns = self.open(alloc, build, users, edge)?;
        for turn in &turns {
            self.arrive(build, turn.1)?;
        }
        Ok(())
    }

    // The first ready edge, where a job is free.
    fn next_start(&mut self, jobs: u32) -> Option<(u64, u32)>
        ensures pools { (self.new.used ≡ self.old.used) × (self.new.waiting ≡ self.old.waiting) }
        ensures inputs { (self.new.through ≡ self.old.through) × (self.new.missing ≡ self.old.missing) }
        ensures first { MatchOption result
            (((jobs ≤ length (line_items self.old.running)) ⊎ (line_items self.old.ready ≡ []))
            × (moment_of self.new ≡ moment_of self.old))
            (λ turn. (length (line_items self.old.running) < jobs)
            × IsFirst turn (line_items self.old.ready) (line_items self.new.ready)
            × (moment_of self.new ≡ record (moment_of self.old) { ready = line_items self.new.ready })) }
    {
        if self.running.len() < jobs as usize {
            self.ready.take()
        } else {
            None
        }
    }

    // The command of an edge runs.
    fn run(&mut self, build: &Build, edge: u32) -> Result<(), AllocError>
        requires edge { edge < edges_of build.now }
        ensures pools { (self.new.used ≡ self.old.used) × (self.new.waiting ≡ self.old.waiting) }
        ensures inputs { (self.new.through ≡ self.old.through) × (self.new.missing ≡ self.old.missing) }
        ensures starts { OnOk result (IsStarted build.now edge (moment_of self.old) (moment_of self.new)) }
    {
        let duration = build.jobs[edge as usize].duration as u64;
        let end = self.time.saturating_add(duration);
        self.running.add((end, edge))?;
        self.runs.push(Run {
            edge,
            start: self.time,
            end,
            cause: self.freed,
        })?;
        Ok(())
    }

    /// One step of Ninja's loop; `false` where the build is over.
    pub(crate) fn step(
        &mut self,
        alloc: Global,
        build: &Build,
        users: &[Vec<u32>],
        jobs: u32,
    ) -> Result<bool, AllocError>
        requires whole { IsWhole build.now }
        requires users { AreUsers build.now users.now }
        requires inputs { HasInputs build.now self.old }
        requires pools { HasPools build.now self.old }
        requires inside { AreInside build.now (moment_of self.old) }
        requires some { 0 < jobs }
        ensures inputs { OnOk result (HasInputs build.now self.new) }
        ensures pools { OnOk result (HasPools build.now self.new) }
        ensures inside { OnOk result (AreInside build.now (moment_of self.new)) }
        ensures goes { IfOk result (λ more. MatchBool more
            (Step build.now jobs (moment_of self.old) (moment_of self.new))
            (IsOver (moment_of self.new) × (moment_of self.new ≡ moment_of self.old))) }
    {
        if let Some(turn) = self.next_start(jobs) {
            if build.jobs[turn.1 as usize].phony {
                self.finish(alloc, build, users, turn.1)?;
            } else {
                self.run(build, turn.1)?;
            }
            return Ok(true);
        }
        match self.running.take() {
            None => Ok(false),
            Some(turn) => {
                self.time = turn.0;
                self.freed = Some(turn.1);
                self.finish(alloc, build, users, turn.1)?;
                Ok(true)
            }
        }
    }
}
