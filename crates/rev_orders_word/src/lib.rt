//! The word `shuffle --list`: orders of the commands of a recording, and how many pairs of commands they leave.
#![tactic(auto)]

mod answer;
mod answered;
mod asked;
mod fault;
mod listing;
mod rows;

pub use answered::answer_of;
pub use asked::{Asked, Wanted, wanted_of};
pub use fault::WordFault;
pub use listing::{Listed, list_orders};
pub use rows::Row;
