//! The cells that an event of a build reads and writes, and when two events conflict.
#![tactic(auto)]

mod behind;
mod conflicts;
mod footprints;
pub mod laws;
mod listed;
mod of_event;
mod reads;
mod writes;

pub use conflicts::{HasCells, conflict, conflict_between};
pub use footprints::Footprint;
pub use of_event::footprint;
