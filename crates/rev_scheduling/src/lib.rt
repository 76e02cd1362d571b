//! What a build takes by another schedule: the figures of its schedules, and what was recorded.
#![tactic(auto)]

mod figures;
mod links;
mod recorded;

pub use figures::{Ending, Figures, Gain, Link, end_with, ends_with, figures_of, schedule_with};
pub use recorded::{Ran, Recorded, jobs_at_once};
