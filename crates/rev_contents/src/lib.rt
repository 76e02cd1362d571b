//! Which bytes the commands of two builds met and left: first causes of a difference, what follows from them, and what
//! does not.
#![tactic(auto)]

mod compare;
pub mod laws;
mod looks;

pub use compare::{Kind, disagreement, kind_of, leave_the_same};
pub use looks::{Answer, Left, Look};
