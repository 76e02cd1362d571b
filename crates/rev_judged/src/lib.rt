//! Commands that left no list of what they read, and the ones among them that only collect outputs.
#![tactic(auto)]

mod collecting;
mod judged;
mod lists;

pub use judged::{Unjudged, not_judged};
