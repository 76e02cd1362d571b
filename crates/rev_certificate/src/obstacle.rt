//! What stands in the way of certainty.
use rev_entry_conflicts::Conflict;

/// What stands in the way of certainty.
#[derive(Clone, Copy, Debug, PartialEq, Eq)]
pub enum Obstacle {
    /// The last line of the observation is not the one that is due: a part may be missing, or changed.
    Incomplete,
    /// A command that the targets need, or that began, did not end well.
    NotEnded {
        /// The number of its edge.
        edge: u32,
    },
    /// A command began that makes a file from which the manifest is read.
    Early {
        /// The number of its edge.
        edge: u32,
    },
    /// A command began and is not in the observation.
    Unseen {
        /// The number of its edge.
        edge: u32,
    },
    /// A command was not observed whole.
    Flagged {
        /// Its number among the observation's commands.
        command: u32,
        /// The number of the reason among the command's flags.
        flag: u32,
    },
    /// Two commands conflict.
    Conflict(Conflict),
}
