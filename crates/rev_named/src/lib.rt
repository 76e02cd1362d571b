//! Which outputs of edges the text of an error names.
#![tactic(auto)]

mod components;
mod named;
mod pieces;
mod words;

pub use components::{LastComponents, last_components};
pub use named::named_outputs;
