//! One finding.

use rev_conflicts::Look;

/// Why a file that a command leaves is a finding.
#[derive(Clone, Copy, Debug, PartialEq, Eq)]
pub enum UndeclaredKind {
    /// Another edge has the file as its output; that edge is the user.
    Anothers,
    /// No edge has the file as an output, and the user's command looks at it.
    LookedAt {
        /// How the user looks at the file.
        look: Look,
        /// The number of the user's command in the observation, from 0.
        used_by: u64,
    },
}

/// A finding: an edge leaves a file, and does not have it as an output.
#[derive(Clone, Copy, Debug, PartialEq, Eq)]
pub struct Undeclared {
    /// Why it is a finding.
    pub kind: UndeclaredKind,
    /// The edge that leaves the file.
    pub maker: u32,
    /// The edge that has the file as its output, or that looks at it.
    pub user: u32,
    /// The number of the file's path in the observation.
    pub path: u64,
    /// The number of the maker's command in the observation, from 0.
    pub made_by: u64,
}
