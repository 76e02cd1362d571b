//! One finding.

/// Whether Ninja runs a command again when a file changes that the command reads.
#[derive(Clone, Copy, Debug, PartialEq, Eq)]
pub enum Cover {
    /// It does. Each edge that makes the file is met from the user through inputs that count, and no edge on the way
    /// has restat.
    Covered,
    /// It does, unless an edge with restat on the way leaves its outputs as they were.
    HeldBack,
    /// It does not: the user keeps what it made of the old file.
    Neither,
}

/// A finding: a command reads a file that its edge neither lists nor has as an explicit or implicit input.
#[derive(Clone, Copy, Debug, PartialEq, Eq)]
pub struct Unlisted {
    /// Whether Ninja runs the command again when the file changes.
    pub cover: Cover,
    /// The edge whose command reads the file.
    pub user: u32,
    /// The number of the file's path in the observation.
    pub path: u64,
    /// The number of the command in the observation, from 0.
    pub used_by: u64,
}
