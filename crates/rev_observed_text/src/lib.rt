//! The text of what the commands of a build did: the file `observed` of a recording, written.
#![tactic(auto)]

mod lines;
mod text;

pub use text::observed_text;
