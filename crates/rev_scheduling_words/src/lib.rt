//! The answer about schedules, as a document.
#![tactic(auto)]

mod answer;

pub use answer::{Answer, Edge, edges_of, push_answer};
