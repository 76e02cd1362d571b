//! What was recorded of a build.
ghost use Rattle.std.specs.Prelude.{◌≡◌, ◌+◌, ◌-◌, ◌/◌, ◌≤◌, ◌↔◌, IsTrue};

use std::alloc::{AllocError, Global};

/// A run of the command of an edge, in milliseconds from the beginning of the recording.
#[derive(Clone, Copy, Debug, PartialEq, Eq)]
pub struct Ran {
    /// The edge.
    pub edge: u32,
    /// When it began.
    pub from: u32,
    /// When it ended.
    pub to: u32,
}

impl Ran {
    /// How long it took; 0 where it ends before it begins, as a clock that was set may have it.
    pub fn took(&self) -> u32
        ensures { result ≡ self.now.to - self.now.from }
    {
        self.to.saturating_sub(self.from)
    }
}

/// What was recorded, and the schedule of the same build by the durations of the recording.
#[derive(Clone, Copy, Debug, PartialEq, Eq)]
pub struct Recorded {
    /// With how many jobs.
    pub jobs: u32,
    /// How long it took, from the first start to the last end, in milliseconds.
    pub took: u64,
    /// How long its commands took, one after the other, in milliseconds.
    pub work: u64,
    /// When the schedule ends, in milliseconds.
    pub scheduled: u64,
}

impl Recorded {
    /// How long a recording with these runs took, and when its schedule ends.
    pub fn new(runs: &[Ran], jobs: u32, scheduled: u64) -> Recorded {
        let first = runs.iter().map(|run| run.from).min().unwrap_or(0);
        let last = runs.iter().map(|run| run.to).max().unwrap_or(0);
        let mut work: u64 = 0;
        for run in runs {
            work = work.saturating_add(u64::from(run.took()));
        }
        Recorded {
            jobs,
            took: u64::from(last.saturating_sub(first)),
            work,
            scheduled,
        }
    }

    // By how many milliseconds its schedule ends at another time.
    fn distance(&self) -> u64
        ensures { result ≡ (self.now.took - self.now.scheduled) + (self.now.scheduled - self.now.took) }
    {
        if self.took < self.scheduled {
            self.scheduled - self.took
        } else {
            self.took - self.scheduled
        }
    }

    /// How many tenths of a command ran at once on average.
    pub fn at_once(&self) -> u64 {
        let tens = self.work.saturating_mul(10);
        tens.checked_div(self.took).unwrap_or(0)
    }

    /// By how many thousandths of the time that it took its schedule ends at another time.
    pub fn apart(&self) -> u64 {
        let thousands = self.distance().saturating_mul(1000);
        thousands.checked_div(self.took).unwrap_or(0)
    }

    /// Whether the schedule ends within 5 % of the time that it took: otherwise schedules foretell nothing.
    pub fn is_near(&self) -> bool
        ensures { IsTrue result
            ↔ ((self.now.took - self.now.scheduled) + (self.now.scheduled - self.now.took)) ≤ self.now.took / 20 }
    {
        self.distance() <= self.took / 20
    }
}

/// How many runs there were at once at most: what a build needs to go as it did.
///
/// # Errors
/// [`AllocError`] only where an allocation was refused.
pub fn jobs_at_once(alloc: Global, runs: &[Ran]) -> Result<u32, AllocError> {
    let mut moments = Vec::new(alloc);
    for run in runs {
        if run.from < run.to {
            moments.push((run.from, true))?;
            moments.push((run.to, false))?;
        }
    }
    moments.sort_unstable();
    let mut running: u32 = 0;
    let mut most: u32 = 1;
    for (_, begins) in &moments {
        running = if *begins {
            running.saturating_add(1)
        } else {
            running.saturating_sub(1)
        };
        most = most.max(running);
    }
    Ok(most)
}
