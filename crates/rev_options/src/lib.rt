//! The words of the command line.
#![tactic(auto)]

mod command;
mod fields;
mod words;

pub use fields::Options;
pub use words::options;
