//! What is asked of the edges, files and times of a recorded build: which rule a statement names, who has a path, what
//! would be to do if it were touched, and what the end of the build waited for.
#![tactic(auto)]

mod chain;
mod edges;
mod own;
mod reading;
mod rebuild;
mod statement;
mod times;

pub use chain::{Chain, critical};
pub use edges::{edges_like, users};
pub use reading::{Place, Reading, readings};
pub use rebuild::{Rebuild, rebuilds};
pub use statement::rule_in;
pub use times::{Timed, slowest, time_at, timed_runs};
