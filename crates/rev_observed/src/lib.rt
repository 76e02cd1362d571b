//! What the commands of a build did with files, as the system showed it: the file `observed` of a recording.
#![tactic(auto)]

mod command;
mod faults;
mod flags;
mod joining;
mod kind;
pub mod laws;
mod locating;
mod observation;
mod path_set;
mod ranges;
mod reading;
mod statements;
mod word;

pub use command::{Command, Uses};
pub use faults::{Fault, FaultKind, ReadFault};
pub use flags::Flags;
pub use joining::{JoinFault, edges};
pub use kind::Kind;
pub use locating::command_line;
pub use observation::Observation;
pub use path_set::{PathRange, PathSet};
pub use reading::read;
