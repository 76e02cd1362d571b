//! The files of a recording.
#![tactic(auto)]

mod files;
mod flaw;
mod notes;
mod observed;
mod plain;
mod resolved;
mod times;

pub use files::{Place, Recording, place_of, read_beside, read_names, read_recording, read_times};
pub use observed::{
    FilterTexts, Observed, filters_in, hidden_by, hidden_in, observed_in, observed_sentence,
    read_filters, read_observed, say_incomplete,
};
pub use resolved::plain_files;
pub use times::{KnownTimes, LabelTime, label_times, times_in};
