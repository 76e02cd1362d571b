//! Names, cells and events as people read them.
#![tactic(auto)]

mod cells;
mod events;
mod names;
mod parts;

pub use cells::{first_output, push_cell};
pub use events::push_event_words;
pub use names::push_shown;
