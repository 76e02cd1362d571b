//! What differs between two recordings, in words and as JSON.
#![tactic(auto)]

mod alike;
mod changes;
mod facts;
mod flakes;
mod json;
mod reads;
mod report;
mod side;
mod words;

pub use report::{Compared, Form, comparison};
pub use side::Side;
