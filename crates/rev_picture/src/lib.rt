//! A picture of a build, as SVG.
#![tactic(auto)]

mod axis;
mod escape;
mod picture;
mod shapes;

pub use axis::{Row, Tick};
pub use escape::{names_are_read, push_escaped, push_escaped_words, words_are_read};
pub use picture::push_picture;
pub use shapes::{Bar, Line, LineKind, Outcome, Time, push_bar, push_line};
