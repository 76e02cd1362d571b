//! One answer.

/// What a finding says of two edges and a path.
#[derive(Clone, Copy, Debug, PartialEq, Eq)]
pub enum Kind {
    /// An edge lists a path that another edge makes, and does not wait for that one.
    Race,
    /// The same, and the maker waits for the user: no order mends it, the next plan is refused for a cycle.
    Cycle,
    /// An edge lists a path that it makes itself.
    Own,
}

/// An edge lists a path that an edge makes, and does not wait for that one.
#[derive(Clone, Copy, Debug, PartialEq, Eq)]
pub struct Race {
    /// Which kind of answer it is.
    pub kind: Kind,
    /// The edge that makes the path.
    pub maker: u32,
    /// The edge that lists it.
    pub user: u32,
    /// Where the path first stands in what the user lists, from 0.
    pub place: u64,
}
