//! What the commands of a build saw and changed, place by place: version 2 of the file `observed` of a recording.
#![tactic(auto)]

mod blocks;
mod deed;
mod ends;
mod entries;
mod faults;
mod flag;
mod head;
mod locating;
mod look;
mod observation;
mod ranges;
mod reading;
mod spans;
mod statements;
mod text;
mod word;
mod words;

pub use blocks::{Command, Line};
pub use deed::Deed;
pub use entries::{Entries, OtherNames};
pub use faults::{Fault, FaultKind, ReadFault};
pub use flag::{Flag, FlagKind};
pub use head::{Hidden, Observer};
pub use locating::{command_line, incomplete_line, last_line};
pub use look::{Change, Look};
pub use observation::Observation;
pub use reading::{is_version_2, read};
pub use text::Text;
pub use words::as_version_1;
