//! Dyndep files: what they say of build statements, whether a resolved manifest has exactly that, and which paths come
//! from them.
#![tactic(auto)]

mod fault;
pub mod laws;
mod origins;
mod paths;
mod reading;
mod resolved;
mod statement;
mod told;

pub use fault::{DyndepFault, DyndepKind, ReadFault};
pub use origins::{Added, Origins, Stated};
pub use reading::read;
pub use resolved::{first_other, is_resolved};
pub use told::Told;
