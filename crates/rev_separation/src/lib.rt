//! How the commands of many builds stood to one of them, counted exactly: in how many failing and in how many passing
//! builds another command had not ended when that one began; and by what chance such counts come.
#![tactic(auto)]

mod build;
mod fisher;
mod pair;
mod tally;

pub use build::{Build, Fate, Run};
pub use fisher::{Share, chance};
pub use tally::{Tallies, Tally, counted};
