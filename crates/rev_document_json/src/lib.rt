//! Documents as JSON that programs read.
#![tactic(auto)]

mod json;
pub mod laws;
mod strings;

pub use json::{json_of, push_json};
pub use strings::push_string;
