//! Timelines of recorded builds, in the trace format that Chrome's viewer and Perfetto read.
#![tactic(auto)]

mod objects;
mod ran;
mod reasons;
mod rows;
mod rules;
mod text;

pub use ran::{Ending, Ran};
pub use rows::{Rows, rows_of};
pub use text::{Planned, Timeline, timeline_text};
