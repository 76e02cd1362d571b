//! Witnesses: a build from nothing in which an edge starts before another edge that it does not wait for.
#![tactic(auto)]

mod edges;
mod found;
mod happening;
mod opening;
mod text;

pub use found::{Witness, find_witness};
pub use text::witness_text;
