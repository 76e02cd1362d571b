//! Conflicts of the commands of a build by entries, in a world with folders and links.
#![tactic(auto)]

mod answer;
mod conflict;
mod deed;
mod ensure;
mod kinds;
pub mod laws;
mod order;
mod pair;
mod touch;
mod word;

pub use answer::conflicts;
pub use conflict::{Conflict, Kind};
pub use deed::{Command, Deed, Entry, does};
pub use ensure::ensurers;
pub use word::{Act, Word, is_of};
