//! One answer.

use crate::place::Place;

/// How a command looks at a place that another one leaves.
#[derive(Clone, Copy, Debug, PartialEq, Eq)]
pub enum Look {
    /// It reads the content.
    Read,
    /// It asked for the path, which was not there.
    Miss,
    /// It asked only whether the path is there, or for its stamp.
    Stat,
    /// It read the entries of the folder.
    List,
}

/// What a command does at a place that another one looks at.
#[derive(Clone, Copy, Debug, PartialEq, Eq)]
pub enum Change {
    /// It leaves the file, and its build line names it as an output.
    Output,
    /// It changes in place what is there, which its build line does not name.
    Edit,
    /// It leaves the file, and its build line does not name it.
    Undeclared,
    /// It takes the file away.
    Delete,
    /// It makes the file, and takes it away again.
    Temporary,
    /// It makes an entry of the folder, or takes one away.
    Entry,
}

/// What a conflict says of two commands and a place.
#[derive(Clone, Copy, Debug, PartialEq, Eq)]
pub enum ConflictKind {
    /// Both leave the file, or have it as a temporary, and neither waits for the other.
    Clash,
    /// The user looks at what the maker leaves, and neither waits for the other.
    Race {
        /// How the user looks at it.
        look: Look,
        /// What the maker does there.
        change: Change,
    },
    /// The user looks at an output of the maker, and the maker waits for the user: no order mends it.
    Cycle {
        /// How the user looks at it.
        look: Look,
    },
    /// The maker waits for the user, and then leaves what the user looked at. That file is not an output of the maker,
    /// so the next build shows the user another file.
    Unstable {
        /// How the user looks at it.
        look: Look,
        /// What the maker does there.
        change: Change,
    },
}

/// Two commands meet at a place, and the user does not wait for the maker.
#[derive(Clone, Copy, Debug, PartialEq, Eq)]
pub struct Conflict {
    /// Which kind of answer it is.
    pub kind: ConflictKind,
    /// The edge that leaves the place, or has it as a temporary. Of a clash that with the lesser number.
    pub maker: u32,
    /// The edge that looks at the place. Of a clash the other one that leaves it.
    pub user: u32,
    /// The place.
    pub place: Place,
    /// The number of the maker's command in the observation, from 0.
    pub made_by: u64,
    /// The number of the user's command.
    pub used_by: u64,
}
