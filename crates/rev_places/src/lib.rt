//! Which names are those of one file.
#![tactic(auto)]

mod names;

pub use names::{all_names, names_of_file, own_name, push_own_names};
