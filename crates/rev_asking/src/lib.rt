//! The words of the command line of the program that people ask.
#![tactic(auto)]

mod command;
mod words;

pub use words::{Request, Word, read_values, read_words};
