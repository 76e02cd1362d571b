//! Declared orders that no access needs.
#![tactic(auto)]

mod checking;
mod choosing;
mod graphs;
mod known;
pub mod laws;
mod left;
mod marks;
mod needing;
mod parts;
mod restoring;
mod searching;
mod staying;
mod walking;

pub use checking::is_needless;
pub use choosing::choose;
pub use known::Known;
pub use left::without;
pub use needing::waited_by;
pub use walking::{count_waits, leading, waited_among, waited_of};
