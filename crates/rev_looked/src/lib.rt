//! What commands of a build rest on by what they were seen to look at, and who reads and writes a path.
#![tactic(auto)]

mod commands;
mod declared;
mod ends;
mod left;
mod naming;
mod need;
mod ranges;
mod user;
mod uses;

pub use naming::{Naming, Site, namings};
pub use need::{Need, needs};
pub use user::{User, users};
pub use uses::{Use, readers, writers};
