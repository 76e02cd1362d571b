//! What several recordings of one build have together: each thing once, and which assumptions they show.
#![tactic(auto)]

mod folders;
mod same;
mod shared;

pub use folders::{Making, Makings, Shown};
pub use same::are_same;
pub use shared::Shared;
