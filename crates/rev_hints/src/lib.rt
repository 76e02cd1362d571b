//! Hints: an edge lists a file that nobody makes and that changed while other commands ran, and waits for none of them;
//! or it lists another name of an output, and does not wait for the edge that makes that.
#![tactic(auto)]

mod changes;
mod hints;
mod named;
mod running;

pub use hints::{ChangeHint, change_hints, listed_path};
pub use named::{NameHint, name_hints};
