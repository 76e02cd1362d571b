//! The build that was recorded, as `rev_schedule` takes it.
#![tactic(auto)]

mod orders;
mod planning;

pub use planning::{build_by_numbers, build_by_weights};
