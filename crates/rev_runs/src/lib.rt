//! The events of an edge, and the runs of its command.
#![tactic(auto)]

mod edges;
pub mod laws;
mod ran;
mod steps;

pub use edges::{edge_of_event, events_of, is_of_edge};
pub use ran::{Run, runs};
pub use steps::is_kept;
