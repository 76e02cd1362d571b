//! When the commands of a build ran.
ghost use Rattle.std.specs.Prelude.{◌≡◌, ◌+◌};

/// When a command ran in a build, in milliseconds from the begin of the build on.
#[derive(Clone, Copy, Debug, PartialEq, Eq)]
pub struct Run {
    /// When it began.
    pub began: u32,
    /// When it ended; `None` where it was stopped before.
    pub ended: Option<u32>,
}

impl Run {
    ghost use Rattle.rev_separation.specs.Runs.{is_ahead, is_open};

    /// Whether it had not ended by a moment: its end comes later, or it was stopped.
    pub(crate) fn is_open(self, moment: u64) -> bool
        ensures { result ≡ is_open moment self }
    {
        match self.ended {
            Some(end) => moment < u64::from(end),
            None => true,
        }
    }

    /// Whether it had not begun by a moment: it begins then or later, and has not ended by then.
    pub(crate) fn is_ahead(self, moment: u64) -> bool
        ensures { result ≡ is_ahead moment self }
    {
        moment <= u64::from(self.began) && self.is_open(moment)
    }

    /// So many milliseconds after it began.
    pub(crate) fn moment(self, after: u32) -> u64
        ensures { result ≡ self.began + after }
    {
        u64::from(self.began) + u64::from(after)
    }
}

/// What became of a command in a build.
#[derive(Clone, Copy, Debug, PartialEq, Eq)]
pub enum Fate {
    /// It failed.
    Failed,
    /// It ended well.
    Passed,
    /// Neither, as where it did not run or was stopped.
    Neither,
}

/// A build, seen from one of its commands: the anchor.
#[derive(Drop)]
pub struct Build {
    /// By the number of a command its run; `None` where it did not run. A command past the end did not run either.
    pub runs: Vec<Option<Run>>,
    /// What became of the anchor.
    pub fate: Fate,
}

impl Build {
    ghost use Rattle.rev_separation.specs.Builds.{ran, run_of};

    /// The run of a command, if it ran.
    pub(crate) fn run_of(&self, command: usize) -> Option<Run>
        ensures { result ≡ run_of self.now command }
    {
        if command < self.runs.len() {
            self.runs[command]
        } else {
            None
        }
    }

    /// Whether a command ran.
    pub(crate) fn ran(&self, command: usize) -> bool
        ensures { result ≡ ran command self.now }
    {
        self.run_of(command).is_some()
    }
}
