//! Why an edge is dirty: the reasons to run its command, and the stamps that show through phony edges.
#![tactic(auto)]

mod change;
mod dirtiness;
mod input;
pub mod laws;
mod newest;
mod output;
mod reason;
mod scan;
mod walk;

pub use dirtiness::{deps_record, listed_inputs};
pub use input::{InputKind, phony_producer, producers_of};
pub use reason::Reason;
pub use scan::{DependencyScan, reasons};
