//! Two commands, seen in builds.
ghost use Rattle.std.specs.Prelude.{◌≡◌};

use crate::build::{Build, Fate};

/// Two commands, and which builds count for them.
#[derive(Clone, Copy)]
pub(crate) struct Pair {
    /// Whether those builds count in which the anchor failed, or those in which it passed.
    pub(crate) failed: bool,
    /// The command by whose begin the other one is seen.
    pub(crate) anchor: usize,
    /// The other one.
    pub(crate) other: usize,
    /// How many milliseconds after that begin it is seen.
    pub(crate) after: u32,
}

impl Pair {
    ghost use Rattle.std.specs.Prelude.{count_by};
    ghost use Rattle.rev_separation.specs.Pairs.{both_ran, counts, had_not_begun, had_not_ended, ran_alone};

    // Whether a build counts.
    fn counts(self, build: &Build) -> bool
        ensures { result ≡ counts self.failed build.now.fate }
    {
        match build.fate {
            Fate::Failed => self.failed,
            Fate::Passed => !self.failed,
            Fate::Neither => false,
        }
    }

    // Whether both commands ran in a build that counts.
    fn both_ran(self, build: &Build) -> bool
        ensures { result ≡ both_ran self build.now }
    {
        let counts = self.counts(build);
        let has_anchor = build.ran(self.anchor);
        let has_other = build.ran(self.other);
        counts && has_anchor && has_other
    }

    // Whether both ran in a build that counts, and the other one had not ended.
    fn had_not_ended(self, build: &Build) -> bool
        ensures { result ≡ had_not_ended self build.now }
    {
        if !self.counts(build) {
            return false;
        }
        match build.run_of(self.anchor) {
            None => false,
            Some(first) => match build.run_of(self.other) {
                None => false,
                Some(run) => run.is_open(first.moment(self.after)),
            },
        }
    }

    // Whether both ran in a build that counts, and the other one had not begun.
    fn had_not_begun(self, build: &Build) -> bool
        ensures { result ≡ had_not_begun self build.now }
    {
        if !self.counts(build) {
            return false;
        }
        match build.run_of(self.anchor) {
            None => false,
            Some(first) => match build.run_of(self.other) {
                None => false,
                Some(run) => run.is_ahead(first.moment(self.after)),
            },
        }
    }

    // Whether the anchor ran in a build that counts, and the other command did not.
    fn ran_alone(self, build: &Build) -> bool
        ensures { result ≡ ran_alone self build.now }
    {
        let counts = self.counts(build);
        let has_anchor = build.ran(self.anchor);
        let has_other = build.ran(self.other);
        counts && has_anchor && !has_other
    }

    /// In how many of the builds that count both ran.
    pub(crate) fn both(self, builds: &[Build]) -> usize
        ensures { result ≡ count_by (both_ran self) builds.now }
    {
        builds.iter().filter(|build| self.both_ran(*build)).count()
    }

    /// In how many of these the other one had not ended.
    pub(crate) fn not_ended(self, builds: &[Build]) -> usize
        ensures { result ≡ count_by (had_not_ended self) builds.now }
    {
        builds
            .iter()
            .filter(|build| self.had_not_ended(*build))
            .count()
    }

    /// In how many of these the other one had not begun.
    pub(crate) fn not_begun(self, builds: &[Build]) -> usize
        ensures { result ≡ count_by (had_not_begun self) builds.now }
    {
        builds
            .iter()
            .filter(|build| self.had_not_begun(*build))
            .count()
    }

    /// In how many of the builds that count the anchor ran, and the other one did not.
    pub(crate) fn alone(self, builds: &[Build]) -> usize
        ensures { result ≡ count_by (ran_alone self) builds.now }
    {
        builds.iter().filter(|build| self.ran_alone(*build)).count()
    }
}
