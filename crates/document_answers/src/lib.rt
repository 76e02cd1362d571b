//! Two answers as documents, which are to have the bytes that `ask` and `races` print.
#![tactic(auto)]

mod needs;
mod race;
#[cfg(test)]
mod tests;

pub use needs::{Action, Event, Link, Needs, push_needs};
pub use race::{Edge, Race, push_race};
