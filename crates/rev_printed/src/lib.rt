//! What the commands of a recording printed that failed: the file `output` beside its trace.
#![tactic(auto)]

mod entry;
mod reading;

pub use entry::Entry;
pub use reading::read;
