//! Stable names of findings, and files that say which of them are known.
#![tactic(auto)]

mod baseline;
mod faults;
mod id;
mod lines;

pub use baseline::Baseline;
pub use faults::{Fault, FaultKind, ReadFault};
pub use id::Id;
