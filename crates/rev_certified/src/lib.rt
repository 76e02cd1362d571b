//! When it is certain that no schedule gives the commands of a recorded build other inputs, and what stands in the way.
#![tactic(auto)]

mod certificate;
mod standing;
mod whole;

pub use certificate::{Certificate, certify};
pub use standing::Marks;
