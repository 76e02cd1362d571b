//! What both programs do around their answers: words, files, faults, and standard error.
#![tactic(auto)]

mod command_line;
mod fault;
mod folders;
mod reading;
mod visible;

pub use command_line::{USAGE, explain, fail, say, words};
pub use fault::{DyndepFault, FAILURE, FAULT, ProgramFault, Unread};
pub use reading::{ReadFault, is_folder, read_below, read_named, read_short, real_folder};
pub use visible::push_visible;
