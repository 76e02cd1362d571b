//! How kept events hold each other: whether and by which cell one depends on another, and what it rests on.
#![tactic(auto)]

mod depending;
mod firsts;
pub mod laws;
mod linked;
mod several;
mod ways;

pub use depending::{dependence, depends};
pub use linked::{Link, links_of, links_to};
pub use several::{dependents, links_on, needed};
pub use ways::ways_to;
