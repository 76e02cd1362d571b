//! Which paths answers leave out: patterns, a line each, and the paths that they hide.
#![tactic(auto)]

mod faults;
mod filters;
mod hiding;
mod matching;

pub use faults::{Fault, FaultKind, MAX_BYTES, ReadFault};
pub use filters::{Filters, read};
pub use hiding::{hidden, is_hidden};
pub use matching::matches;
