//! Traces: the record of a build as text, to the commands that replay it and back.
#![tactic(auto)]

mod commands;
mod events;
mod head;
mod labels;
mod lanes;
pub mod laws;
mod mentions;
mod migration;
mod points;
mod record;
mod records;
mod texts;
mod traces;
mod verb;
mod version;

pub use commands::{command_of_texts, read_line};
pub use labels::{push_which, which_of};
pub use migration::migrate;
pub use texts::{push_command, push_event, text};
pub use traces::{Trace, TraceFault, read};
