//! Replies and entries.
ghost use Rattle.std.specs.Prelude.{◌≡◌, ◌↔◌, IsTrue};

use rev_commands::Command;
use rev_events::Refusal;

/// The answer to a command, which carries the number of the command's entry where it is not a refusal.
#[derive(Clone, Copy, Debug, PartialEq, Eq)]
pub enum Reply {
    /// Done, under this number. If the event met standing breaks, the least of them; the desk is then paused.
    Accepted(u32, Option<u32>),
    /// A cone was taken back, under this number, and so many events with it.
    Coned(u32, u64),
    /// It was not done, and nothing changed but the journal.
    Refused(Refusal),
}

impl Reply {
    /// Whether two replies are equal.
    pub fn same(self, other: Reply) -> bool
        ensures { IsTrue result ↔ (self ≡ other) }
    {
        match (self, other) {
            (Reply::Accepted(number, met), Reply::Accepted(other, other_met)) => {
                number == other && met == other_met
            }
            (Reply::Coned(number, count), Reply::Coned(other, other_count)) => {
                number == other && count == other_count
            }
            (Reply::Refused(refusal), Reply::Refused(other)) => same_refusal(refusal, other),
            _ => false,
        }
    }
}

// Whether two refusals are equal, by their numbers.
fn same_refusal(refusal: Refusal, other: Refusal) -> bool
    ensures { IsTrue result ↔ (refusal ≡ other) }
{
    let [first, second] = refusal.numbers();
    let [other_first, other_second] = other.numbers();
    refusal.code() == other.code() && first == other_first && second == other_second
}

/// An entry of the journal, whose number is its place there, from 1.
#[derive(Debug, PartialEq, Eq)]
pub struct Entry {
    /// The lane that gave the command. Lanes count from 0.
    pub lane: u32,
    /// What it asked for.
    pub command: Command,
    /// What it was told.
    pub reply: Reply,
}

impl Drop for Entry {
    fn drop(self) {
        let Entry {
            lane: _lane,
            command: _command,
            reply: _reply,
        } = self;
    }
}

impl Entry {
    /// Whether two entries are equal.
    pub fn same(&self, other: &Entry) -> bool
        ensures { IsTrue result ↔ (self.now ≡ other.now) }
    {
        self.lane == other.lane && self.reply.same(other.reply) && self.command.same(&other.command)
    }
}
