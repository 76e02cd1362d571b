//! Ninja's own schedule on given durations: which command starts when, and when the build ends.
#![tactic(auto)]

mod going;
mod inputs;
mod job;
mod line;
mod schedule;
mod steps;
mod whole;

pub use job::{Build, Job, Run};
pub use schedule::{Schedule, schedule_of};
