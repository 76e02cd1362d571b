//! The lines that list a state: its files, its marks, its logs, and why an edge is dirty.
#![tactic(auto)]

mod logs;
mod marks;
mod nondefault_cells;
mod output;
mod reasons;
mod stamps;

pub use logs::logs_text;
pub use marks::marks_text;
pub use reasons::{reason_word, why_text};
pub use stamps::stamps_text;
