//! The word `schedule`: what is asked of a recording, and the answer.
#![tactic(auto)]

mod answered;
mod asked;
mod fault;

pub use answered::{Answered, Source, answer_of};
pub use asked::{Asked, Wanted, wanted_of};
pub use fault::WordFault;
