//! In which of some events' cones each kept event is, for many at once.
#![tactic(auto)]

mod cones;
mod masks;
mod table;

pub use cones::{beside_marks, cone_marks};
pub use masks::{MOST, is_marked};
