//! Documents as words that people read.
#![tactic(auto)]

mod escape;
mod look;
mod words;

pub use escape::{push_hex, push_name, push_text};
pub use look::Look;
pub use words::{push_plain, push_words, words_of};
