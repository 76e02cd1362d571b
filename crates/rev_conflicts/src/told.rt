//! What is found, before its kind is known.

use crate::place::Place;

/// Two commands meet at a place, and the user does not wait for the maker.
#[derive(Clone, Copy, PartialEq, Eq)]
pub(crate) struct Told {
    /// The edge that touches the place.
    pub(crate) maker: u32,
    /// The other edge.
    pub(crate) user: u32,
    /// The place.
    pub(crate) place: Place,
    /// The number of the maker's command in the observation, from 0.
    pub(crate) made_by: u64,
    /// The number of the user's command.
    pub(crate) used_by: u64,
}
