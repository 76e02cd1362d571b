//! Whether a build is one that can be scheduled.
ghost use Rattle.std.specs.Prelude.{◌<◌, ◌↔◌, ℕ, IsTrue, length};
ghost use Rattle.std.specs.Global.{Vec};
ghost use Rattle.std.specs.List.{All};
ghost use Rattle.rev_schedule.specs.Builds.{IsWhole};
ghost use Rattle.rev_schedule.specs.declared.job.Job.{Job};

use crate::job::{Build, Job};

fn all_below(numbers: &[u32], bound: usize) -> bool
    ensures { IsTrue result ↔ All (λ n. n < bound) numbers.now }
{
    numbers.iter().all(|number| (*number as usize) < bound)
}

fn makers_below(makers: &[Vec<u32>], bound: usize) -> bool
    ensures { IsTrue result ↔ All (λ (v : Vec ℕ). All (λ n. n < bound) v.items) makers.now }
{
    for list in makers {
        if !all_below(list, bound) {
            return false;
        }
    }
    true
}

fn pools_below(jobs: &[Job], bound: usize) -> bool
    ensures { IsTrue result ↔ All (λ (job : Job). job.pool < bound) jobs.now }
{
    jobs.iter().all(|job| (job.pool as usize) < bound)
}

impl Build {
    /// Whether each edge has its makers and its pool, and each maker is an edge.
    pub fn is_whole(&self) -> bool
        ensures { IsTrue result ↔ IsWhole self.now }
    {
        self.jobs.len() < 4_294_967_296
            && self.makers.len() == self.jobs.len()
            && makers_below(&self.makers, self.jobs.len())
            && pools_below(&self.jobs, self.depths.len())
    }
}
