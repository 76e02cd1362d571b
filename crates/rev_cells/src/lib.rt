//! The state of a build: cells, each of which holds a value, and the records that a session opens with.
#![tactic(auto)]

mod alike;
mod asked;
mod cell;
mod cells;
mod fault;
pub mod laws;
mod lists;
mod mark;
mod opening;
pub mod records;
mod value;

pub use cell::Cell;
pub use cells::Cells;
pub use fault::OpeningFault;
pub use lists::{Names, Positions, Text};
pub use mark::Mark;
pub use opening::Opening;
pub use value::{BuiltRecord, DepsRecord, Value};
