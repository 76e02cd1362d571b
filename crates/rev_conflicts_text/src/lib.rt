//! The findings of an observation, in words and as JSON.
#![tactic(auto)]

mod finding;
mod json;
mod lines;
mod orders;
mod other_names;
mod stale;
mod told;
mod waiting;
mod words;

pub use finding::{Finding, Kind, Mending, Reverse};
pub use json::findings_json;
pub use lines::kind_word;
pub use other_names::{build_folder, is_one_file, name_within};
pub use stale::Stale;
pub use told::{
    add_undeclared, add_unlisted, conflict_findings, conflicts_left, pair_of, races_left, seen_in,
};
pub use waiting::{Brought, Reached, Steps, WaitFor};
pub use words::{findings_words, numbered_words};
