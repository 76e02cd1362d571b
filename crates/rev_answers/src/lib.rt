//! What questions about a recorded build are answered, in words and as JSON.
#![tactic(auto)]

mod by_dyndep;
mod causes;
mod description;
mod each;
mod edges;
mod events;
mod facts;
mod folders;
mod found;
mod found_json;
mod help;
mod json;
mod meant;
mod moments;
mod object;
mod observed;
mod order;
mod reasons;
mod refusals;
mod replay;
mod request;
mod runs;
mod screen;
mod seen;
mod statements;
mod target;
mod times;
mod told;
mod values;
mod waiting;
mod words;

pub use each::{Many, each_json, each_words, objects_json};
pub use help::{meant_word, not_asked_words};
pub use json::{answer_json, fault_json, opening_json};
pub use screen::screen_of;
pub use told::Context;
pub use words::{answer_words, opening_words};
