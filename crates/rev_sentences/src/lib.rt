//! The sentence on standard error that explains a report's fault line.
#![tactic(auto)]

mod fault_lines;
mod meanings;

pub use fault_lines::{Inputs, sentence};
pub use meanings::meaning;
