//! Numbers that rise: a list of them that is searched by halving, and what such a search finds.
#![tactic(auto)]

mod search;
mod sorted;

pub use search::{first_above, is_one_of, lesser, place_above, place_of};
pub use sorted::SortedNumbers;
