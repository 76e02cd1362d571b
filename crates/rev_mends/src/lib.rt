//! The patches that mend a race, or that have it happen.
#![tactic(auto)]

mod mended;
mod minimal;
mod own;
mod provoked;
mod statements;

pub use mended::mend_text;
pub use own::Own;
pub use provoked::provoke_text;
