//! A history of events that can be undone and redone, also out of order: the state is always that of the kept
//! events, run from the opening.
#![tactic(auto)]

mod access_updates;
mod closing;
mod history;
mod kept;
pub mod laws;
mod order;
mod removal;
mod step;
mod steps;

pub use history::History;
pub use kept::{KeptCells, KeptFootprint, conflict};
pub use order::Order;
pub use rev_events::{Event, Fault, Refusal};
