//! The report of a run over files, a trace and a script, with the lanes on threads of their own.
#![tactic(auto)]

mod parallel;

pub use parallel::{run_parallel, run_parallel_in};
