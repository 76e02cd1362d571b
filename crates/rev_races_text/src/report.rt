//! The report about a recording.
ghost use Rattle.std.specs.Prelude.{◌≡◌};
ghost use Rattle.rev_races_text.specs.Status.{status_of};

use crate::counts::{Seen, Tally};
use crate::failed::{Failure, Replayed};
use crate::left_out::{Hidden, LeftOut};
use crate::others::{Change, Clash, Hint};
use crate::race::{Evidence, RaceFinding};
use rev_races::Kind;

/// The exit status where something was found.
pub const SOMETHING: u8 = 4;
/// The exit status where nothing was found, and the build failed or was not recorded whole.
pub const UNKNOWN: u8 = 5;

/// The report about a recording. The findings that an observation shows come first, and are numbered from 1. The
/// numbers go on with the races, and then with the other suspects, in the order of the commands that failed.
#[derive(Drop)]
pub struct Report<'a> {
    /// How many findings an observation shows. They have the numbers from 1 up to this one.
    pub before: u64,
    /// How many of these there are of each kind, where the recording has an observation.
    pub seen: Option<Seen>,
    /// How much of the recording counts.
    pub replayed: Replayed,
    /// The commands that failed.
    pub failures: Vec<Failure<'a>>,
    /// The races by lists, in the order of their makers, and of one maker in that of their users; and then those by the
    /// errors of the commands that failed, in their order.
    pub races: Vec<RaceFinding<'a>>,
    /// The clashes.
    pub clashes: Vec<Clash>,
    /// How many commands ran.
    pub ran: u64,
    /// The commands that ran, left no list of what they read, and do more than collect outputs.
    pub unjudged: Vec<u32>,
    /// The commands that ran, left no list of what they read, and only collect outputs.
    pub collectors: Vec<u32>,
    /// Hints by other names of files.
    pub hints: Vec<Hint<'a>>,
    /// Hints by files that no edge makes.
    pub changes: Vec<Change<'a>>,
    /// How much is left out.
    pub left_out: LeftOut,
    /// The places that filters hide, as an observation shows them.
    pub hidden: Vec<Hidden<'a>>,
}

// The edges of a race or a suspect, as user and maker; none of a command that lists its own output.
fn pair_of(told: &RaceFinding<'_>) -> Option<(u32, u32)> {
    match told.evidence {
        Evidence::Own => None,
        _ => Some((told.user, told.maker)),
    }
}

// What stands at a place that is counted from 0.
fn at<T>(items: &[T], place: u64) -> Option<&T> {
    if place >= items.len() as u64 {
        return None;
    }
    items.get(place as usize)
}

impl<'a> Report<'a> {
    /// The exit status. It is 4 where an observation shows something, and where there is a race, a cycle, a path that
    /// its own command lists, a clash, or a suspect that an error names. Else it is 5 where the build failed or was not
    /// recorded whole, and 0 where neither is so.
    pub fn status(&self) -> u8
        ensures { result ≡ status_of self.now }
    {
        if self.before != 0 || !self.races.is_empty() || !self.clashes.is_empty() {
            return SOMETHING;
        }
        if self.failures.is_empty() && self.replayed.is_whole() {
            return 0;
        }
        UNKNOWN
    }

    /// The numbers in the line that counts.
    pub(crate) fn tally(&self) -> Tally {
        let seen = self.seen.unwrap_or(Seen::NOTHING);
        Tally {
            failed: self.failures.len() as u64,
            races: u64::saturating_add(self.count_of(Kind::Race), seen.races),
            cycles: u64::saturating_add(self.count_of(Kind::Cycle), seen.cycles),
            own: self.count_of(Kind::Own),
            clashes: u64::saturating_add(self.clashes.len() as u64, seen.clashes),
            unstable: seen.unstable,
            undeclared: seen.undeclared,
            unlisted: seen.unlisted,
            ran: self.ran,
            whole: self.seen.map(|seen| seen.whole),
        }
    }

    // How many races are of a kind.
    fn count_of(&self, kind: Kind) -> u64 {
        self.races.iter().filter(|race| race.kind == kind).count() as u64
    }

    /// The races by lists, and those by the errors of commands.
    pub(crate) fn parts(&self) -> (&[RaceFinding<'a>], &[RaceFinding<'a>]) {
        let mut named = 0usize;
        for failure in &self.failures {
            named = usize::saturating_add(named, failure.named);
        }
        let count = self.races.len();
        self.races.split_at(count.saturating_sub(named))
    }

    /// The number of the first race.
    pub(crate) fn first_race(&self) -> u64 {
        self.before.saturating_add(1)
    }

    /// The number of the first suspect that no error names: those of the races come before.
    pub(crate) fn first_other(&self) -> u64 {
        u64::saturating_add(self.races.len() as u64, self.first_race())
    }

    /// The user and the maker of the race or suspect that has a number. It is None where neither a race nor a suspect
    /// has that number, and where a command lists its own output.
    pub fn pair(&self, number: u64) -> Option<(u32, u32)> {
        let place = number.checked_sub(self.first_race())?;
        if let Some(told) = at(&self.races, place) {
            return pair_of(told);
        }
        let mut place = place.saturating_sub(self.races.len() as u64);
        for failure in &self.failures {
            if let Some(other) = at(&failure.others, place) {
                return Some((failure.edge, other.maker));
            }
            place = place.saturating_sub(failure.others.len() as u64);
        }
        None
    }
}
