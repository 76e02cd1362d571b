//! The report of a run over files, a trace and a script, one lane after the other.
#![tactic(auto)]

mod answers;
mod dependents;
mod memory;
mod report;
mod runs;
mod text;

pub use memory::RunMemory;
pub use report::{open_desk, run_serial, run_serial_in, run_words};
pub use rev_script::{RunFault, Status, write_migrated};
pub use text::answer_line;
