//! Conflicts of the commands of a build, by what they were seen to do: who looks at what another leaves, and need not
//! wait for it.
#![tactic(auto)]

mod answer;
mod conflict;
mod doing;
mod early;
mod folder;
mod found;
mod kinds;
pub mod laws;
mod meeting;
mod nexts;
mod place;
mod quiet;
mod search;
mod table;
mod told;

pub use answer::conflicts;
pub use conflict::{Change, Conflict, ConflictKind, Look};
pub use doing::{does, look_at, numbers};
pub use early::early_edges;
pub use nexts::{Table, with_nexts};
pub use place::Place;
pub use table::{empty_lists, put};
