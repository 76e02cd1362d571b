//! A finding, before its kind is known.

/// An edge lists a path that another edge makes, or that it makes itself.
#[derive(Clone, Copy, Debug, PartialEq, Eq)]
pub(crate) struct Told {
    /// The edge that makes the path.
    pub(crate) maker: u32,
    /// The edge that lists it.
    pub(crate) user: u32,
    /// Where the path first stands in what the user lists, from 0.
    pub(crate) place: u64,
}
