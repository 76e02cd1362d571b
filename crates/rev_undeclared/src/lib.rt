//! Files that commands leave though no output of theirs declares them, by what commands were seen to do.
#![tactic(auto)]

mod answer;
mod found;
mod kind;
mod left;
mod looks;
mod telling;

pub use answer::undeclared_files;
pub use kind::{Undeclared, UndeclaredKind};
pub use left::is_open;
pub use telling::{Stronger, told_by};
