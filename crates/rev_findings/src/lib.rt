//! What is found in a recording that was replayed.
#![tactic(auto)]

mod brought;
mod failing;
mod found;
mod hinted;
mod listed_names;
mod mending;
mod reporting;
mod seen;
mod writers;

pub use found::{last_runs, witness_of};
pub use hinted::{names_in, output_names};
pub use reporting::{Basis, add_hints, report_of};
pub use seen::{
    Origin, Sight, count_findings, hidden_places, seen_findings, sight_in, whole_marks,
};
