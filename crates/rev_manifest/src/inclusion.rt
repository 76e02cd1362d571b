//! Files that statements name.

use crate::fault::Place;

/// A file that is read next.
#[derive(Clone, Copy)]
pub(crate) struct Inclusion {
    /// Its place among the files that are given.
    pub(crate) file: usize,
    /// The scope that it is read in.
    pub(crate) scope: usize,
    /// Where the statement stands that names it.
    pub(crate) place: Place,
}
