//! Events of a build: when each is refused, and what each does to the state.
#![tactic(auto)]

mod answers;
mod checks;
mod edge;
mod effects;
mod event;
mod fault;
pub mod laws;
mod listed_paths;
mod listings;
mod pools;
mod refusal;
mod stamps;
mod words;
mod writes;

pub use answers::effect_if_accepted;
pub use checks::check;
pub use effects::effect;
pub use event::{Event, Listing};
pub use fault::Fault;
pub use listed_paths::ListedPaths;
pub use pools::slots_lost;
pub use refusal::Refusal;
pub use stamps::Stamps;
