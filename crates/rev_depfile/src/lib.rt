//! The lists of prerequisites that compilers write.
#![tactic(auto)]

mod fault;
pub mod laws;
mod reader;
mod sign;
mod signs;
mod words;

pub use fault::DepfileFault;
pub use reader::read;
