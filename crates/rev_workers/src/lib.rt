//! A desk under one lock, and lanes that send it commands from threads of their own.
#![tactic(auto)]

mod closing;
mod fault;
mod gate;
mod halves;
mod held;
mod jobs;
mod lane;
pub mod laws;
mod run;
mod shared;
mod standing;

pub use fault::{CloseCode, CloseFault};
pub use gate::Gate;
pub use held::{Held, NotAnswered};
pub use lane::Lane;
pub use run::run_workers;
pub use shared::{Shared, close};
pub use standing::Standing;
