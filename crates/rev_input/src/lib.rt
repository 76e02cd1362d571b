//! The bytes of a reader, to its end or up to a limit.
#![tactic(auto)]

mod reading;
mod source;

pub use reading::{READ_BYTES, READ_LIMIT, TakeFault, take, take_up_to};
pub use source::{Reader, Source, is_interrupted};
