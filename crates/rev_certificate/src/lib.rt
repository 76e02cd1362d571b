//! When it is certain that no order gives the commands of a recorded build other inputs, by an observation of version
//! 2: what stands in the way, and what is assumed.
#![tactic(auto)]

mod assuming;
mod assumption;
mod certificate;
mod edges;
pub mod laws;
mod obstacle;
mod standing;

pub use assumption::Assumption;
pub use certificate::{Certificate, certify};
pub use edges::Marks;
pub use obstacle::Obstacle;
