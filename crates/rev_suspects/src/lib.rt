//! Suspects of failed commands: the commands that a failed one does not wait for, and that were not through when it
//! began.
#![tactic(auto)]

mod failed;
pub mod laws;
mod marks;
mod past;
mod resting;
mod suspected;

pub use failed::{Failure, failures};
pub use resting::{Basis, bases};
pub use suspected::{Progress, Suspect, suspects};
