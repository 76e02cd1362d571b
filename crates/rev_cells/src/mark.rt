//! Marks of edges.
ghost use Rattle.std.specs.Prelude.{◌≡◌, IfOk};

use crate::lists::Positions;
use std::alloc::AllocError;

/// How far an edge has come.
#[derive(Debug, Drop, PartialEq, Eq)]
pub enum Mark {
    /// Nothing is planned for it, which is so at first.
    Idle,
    /// It is dirty, and its command is to be run.
    Wanted,
    /// It is not dirty itself, and waits for others behind it.
    Through,
    /// Its command runs: the job that runs it, the place that it takes in its pool where the pool has places, and
    /// the greatest stamp that its inputs had when it was started.
    Running {
        job: u32,
        slot: Option<u32>,
        seen: u64,
    },
    /// It ended well: the positions of the outputs that it changed.
    Done(Positions),
    /// It was found to need no run.
    Clean,
    /// Its command failed.
    Failed,
    /// Its command was stopped.
    Stopped,
}

impl Mark {
    /// An equal mark.
    pub fn copy(&self) -> Result<Mark, AllocError>
        ensures { IfOk result (λ copy. copy ≡ self.now) }
    {
        self.clone()
    }
}

impl Clone for Mark {
    ghost is_clone = { λ mark copy. copy ≡ mark };

    fn clone(&self) -> Result<Mark, AllocError> {
        match self {
            Mark::Idle => Ok(Mark::Idle),
            Mark::Wanted => Ok(Mark::Wanted),
            Mark::Through => Ok(Mark::Through),
            Mark::Running { job, slot, seen } => Ok(Mark::Running {
                job: *job,
                slot: *slot,
                seen: *seen,
            }),
            Mark::Done(changed) => Ok(Mark::Done(changed.copy()?)),
            Mark::Clean => Ok(Mark::Clean),
            Mark::Failed => Ok(Mark::Failed),
            Mark::Stopped => Ok(Mark::Stopped),
        }
    }
}
