//! Files that commands read though no line of theirs says so, and whether Ninja runs them again when these change.
#![tactic(auto)]

mod always;
mod answer;
mod covering;
mod follows;
mod found;
mod input;
mod joining;
mod making;
mod marking;
mod reading;

pub use always::always_run;
pub use answer::unlisted_files;
pub use input::{Cover, Unlisted};
