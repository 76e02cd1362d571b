//! A recording: the files that its manifest includes, and its build replayed at a desk.
#![tactic(auto)]

mod fault;
mod includes;
mod replayed;

pub use fault::{ObservedFault, RecordingFault, fault_line};
pub use includes::Includes;
pub use replayed::{open, refused_count, replay, replay_text};
