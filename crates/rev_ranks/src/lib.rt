//! Ranks for the nodes of a directed graph, or the least node that reaches itself.
#![tactic(auto)]

mod certificate;
mod components;
mod fault;
pub mod laws;
mod leaving;
mod ranking;
mod searches;

pub use fault::RankFault;
pub use ranking::ranks;
pub use searches::{leading_to, reachable_from, reversed};
