//! What is foretold of a recorded build.
#![tactic(auto)]

mod changes;
mod foretelling;

pub use changes::ChangeFault;
pub use foretelling::{Foretold, Wishes, foretell};
