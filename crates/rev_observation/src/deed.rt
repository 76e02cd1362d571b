//! What a line of a block says that its command did with entries.
ghost use Rattle.std.specs.Prelude.{◌≡◌, ◌<◌};
ghost use Rattle.rev_observation.specs.Deeds.{deed_rank, has_text, is_change};

use crate::look::{Change, Look};

/// What a command did with entries, by the line that says it. The deeds stand in the order of their lines.
#[derive(Clone, Copy, Debug, PartialEq, Eq)]
pub enum Deed {
    /// It read files in these folders, each a cache.
    Cached,
    /// It looked at the entries.
    Look(Look),
    /// It changed the entries.
    Change(Change),
    /// It had these folders made by Ninja before it began, where they were missing.
    Prepared,
}

impl Deed {
    /// The place of the deed among the twenty-three, from 0.
    pub fn rank(self) -> u8
        ensures rank { result ≡ deed_rank self }
        ensures short { result < 23 }
    {
        match self {
            Deed::Cached => 0,
            Deed::Look(look) => look.rank() + 1,
            Deed::Change(change) => change.rank() + 13,
            Deed::Prepared => 22,
        }
    }

    /// Whether the line of the deed has a text before its numbers: what a link says, or the name of a program.
    pub fn has_text(self) -> bool
        ensures { result ≡ has_text self }
    {
        match self {
            Deed::Look(Look::Link | Look::Searched) => true,
            Deed::Change(Change::Linked | Change::Ensured) => true,
            _ => false,
        }
    }

    /// Whether the deed is a change, as those of Ninja itself are.
    pub fn is_change(self) -> bool
        ensures { result ≡ is_change self }
    {
        match self {
            Deed::Change(_) => true,
            _ => false,
        }
    }
}
