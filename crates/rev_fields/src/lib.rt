//! Fields and numbers of lines: what traces, scripts and reports are made of.
#![tactic(auto)]

mod faults;
mod fields;
pub mod laws;
mod names;
mod numbers;
mod parts;

pub use faults::{FaultKind, LineFault, ReadFault, TextFault};
pub use fields::{field, lent_fields, next_field, push_field, read_fields};
pub use names::{next_paths, path, paths};
pub use numbers::{next_number, next_numbers, number, push_number, wide_number, wide_numbers};
pub use parts::parts_at;
