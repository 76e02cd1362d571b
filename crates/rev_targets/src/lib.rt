//! Which target of a generator each command is of, and where the target is declared: the file `targets` of a recording.
#![tactic(auto)]

mod reading;
mod statement;
mod target;

pub use reading::read;
pub use target::{Basis, Place, Target, Targets};
