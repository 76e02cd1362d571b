//! From an observation of version 2 to the scene of its commands.
#![tactic(auto)]

mod lines;
mod makers;
mod runs;
mod scene;
mod sides;
mod words;

pub use scene::{Scene, scene_of};
