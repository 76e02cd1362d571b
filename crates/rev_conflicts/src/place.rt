//! Places at which commands meet.

/// A place at which commands meet. Paths go by their numbers in the observation.
#[derive(Clone, Copy, Debug, PartialEq, Eq)]
pub enum Place {
    /// The file of this path.
    File(u64),
    /// The entries of the folder of this path.
    Entries(u64),
}
