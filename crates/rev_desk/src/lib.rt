//! The desk: lanes say commands to one history, each is answered at once, and a journal keeps them all. Breaks pause
//! it; labels name events by the lane that said them.
#![tactic(auto)]

mod break_key;
mod breaks;
mod desk;
mod desk_state;
mod fault;
mod journal;
pub mod laws;
mod numbers;
mod reply;

pub use desk::Desk;
pub use fault::{DeskFault, Unsaid, Why};
pub use reply::{Entry, Reply};
pub use rev_commands::{Command, Point, Which};
