//! The parts of a run besides its desk: the words of a script, the turns of a trace's lanes, the lines of a report, and
//! faults.
#![tactic(auto)]

mod fault;
mod fault_report;
mod migrated;
mod numbers;
mod output;
mod script;
mod status;
mod text;
mod turns;

pub use fault::RunFault;
pub use fault_report::{report_fault, report_graph_fault, report_manifest_fault};
pub use migrated::write_migrated;
pub use numbers::Numbers;
pub use output::send;
pub use script::{Word, read_script};
pub use status::Status;
pub use text::{close_line, kept_line, refused_line};
pub use turns::{Turn, turns_of};
