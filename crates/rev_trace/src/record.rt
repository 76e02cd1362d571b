//! Opening lines.
use rev_cells::{Names, Text};
use rev_paths::Name;

/// What an opening line says.
#[derive(Debug, Drop)]
pub(crate) enum Record {
    /// `jobs N`: how many jobs there are.
    Jobs(u32),
    /// `stamp PATH N`: the stamp of a file.
    Stamp(Name, u64),
    /// `built PATH N COMMAND`: what the build log has of an output.
    Built(Name, u64, Text),
    /// `deps PATH N PATH...`: what the deps log has of an output.
    Deps(Name, u64, Names),
    /// `target PATH`: what the build was asked for.
    Target(Name),
}
