//! Which edges of a build are to run, and why.
//!
//! [`plan`] marks the edges that the targets need, or says why it cannot; [`why`] gives the chain of edges from one
//! that waits for others to the reasons behind it.
#![tactic(auto)]

mod chain;
mod fault;
mod lacking;
pub mod laws;
mod marks;
mod steps;

pub use chain::{Chain, why};
pub use fault::PlanFault;
pub use marks::plan;
