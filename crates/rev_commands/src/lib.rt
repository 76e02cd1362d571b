//! What a lane of a trace or a script asks for: events, undo and redo by number or label, breaks and pauses.
#![tactic(auto)]

mod command;
mod point;
mod which;

pub use command::Command;
pub use point::Point;
pub use which::Which;
