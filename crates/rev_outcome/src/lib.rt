//! One outcome of a build under every schedule, where its commands do not conflict.
#![tactic(auto)]

pub mod laws;
