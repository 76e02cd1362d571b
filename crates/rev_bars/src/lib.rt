//! The runs of a recorded build as bars, with the dependences and the races between them.
#![tactic(auto)]

mod axis;
mod drawing;
mod folders;
mod labels;
mod linked;
mod observed;
mod places;
mod racing;

pub use drawing::{Drawing, push_drawing};
pub use linked::links;
pub use racing::racing_marks;
