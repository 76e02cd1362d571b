//! Edges that have their depfiles, or their response files, at one path.
#![tactic(auto)]

mod sharing;
mod side_file;

pub use sharing::{Clash, clashes};
pub use side_file::SideFile;
