//! The graph of a manifest's edges: one producer for each path, and no cycle.
//!
//! An edge's number is the place of its build statement among all, from 0.
#![tactic(auto)]

mod alike;
mod fault;
mod graph;
pub mod laws;
mod steps;
mod table;

pub use fault::GraphFault;
pub use graph::{Graph, Inputs, Outputs};
pub use steps::edges_among;
