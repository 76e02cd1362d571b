//! Builds as text lines, and how their commands stood to the anchors that the lines name, as lines of JSON.
#![tactic(auto)]

mod answered;
mod asked;
mod fault;
mod packed;

pub use answered::answer_of;
pub use asked::{Asked, asked_of};
pub use fault::SeparationFault;
