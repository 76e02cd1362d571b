//! Orders of a graph's nodes in which each node stands behind those that it waits for, and how many pairs of commands
//! have stood both ways.
#![tactic(auto)]

mod bits;
mod choosing;
mod counting;
mod making;
mod order;
mod rest;
mod search;

pub use choosing::{Chosen, choose, nearest};
pub use counting::{Counts, counted};
pub use order::{Order, checked};
