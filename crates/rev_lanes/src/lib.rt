//! Stretches of time in lanes: no two of a lane overlap.
#![tactic(auto)]

mod lanes;
mod span;

pub use lanes::{Lanes, lanes_of};
pub use span::Span;
