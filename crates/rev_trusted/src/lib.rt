//! Flags that a user trusts: files that say why a command counts as observed whole all the same.
#![tactic(auto)]

mod faults;
mod kinds;
mod line;
mod trust;

pub use faults::{Fault, FaultKind, ReadFault};
pub use kinds::{kind_of, word_of};
pub use line::Line;
pub use trust::Trust;
