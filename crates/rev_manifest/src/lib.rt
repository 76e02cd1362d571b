//! Build manifests: from their bytes to their edges.
#![tactic(auto)]

mod blocks;
mod builds;
mod bytes;
mod declarations;
mod depth;
mod edge_paths;
mod ends;
mod fault;
mod files;
mod inclusion;
pub mod laws;
mod made;
mod manifest;
mod names;
mod parallel;
mod pools;
mod reading;
mod shared_text;
mod statements;

pub use builds::Build;
pub use fault::{FaultKind, ManifestFault, ReadFault};
pub use manifest::{Manifest, read, read_by_threads};
