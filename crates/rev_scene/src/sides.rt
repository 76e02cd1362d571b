//! The entries of depfiles and response files.
ghost use Rattle.std.specs.Prelude.{◌≡◌, ◌<◌, ◌^◌, ◌++◌, length, IfOk, OnOk};
ghost use Rattle.rev_clashes.specs.Clashes.{file_at, file_of};
ghost use Rattle.rev_scene.specs.Sides.{entry_of as entry_of_path, side_of as side_of_edge, temp_at};

use rev_clashes::SideFile;
use rev_entry_conflicts::{Deed, Word};
use rev_manifest::Build;
use rev_observation::Observation;
use rev_paths::{Name, PathFault};
use std::alloc::{AllocError, Global};

// The path of an edge's file of a kind, where it has one.
fn file_name(alloc: Global, kind: SideFile, build: &Build) -> Result<Option<Name>, AllocError>
    ensures { IfOk result (λ name. name ≡ file_of kind build.now) }
{
    match Name::new(alloc, kind.path_in(build)) {
        Ok(name) => Ok(Some(name)),
        Err(PathFault::EmptyPath | PathFault::LongPath) => Ok(None),
        Err(PathFault::Memory) => Err(AllocError),
    }
}

// The same by the number of the edge.
fn file_name_at(
    alloc: Global,
    kind: SideFile,
    builds: &[Build],
    edge: u32,
) -> Result<Option<Name>, AllocError>
    ensures { IfOk result (λ name. name ≡ file_at kind builds.now edge) }
{
    match builds.get(edge as usize) {
        Some(build) => file_name(alloc, kind, build),
        None => Ok(None),
    }
}

// The entry that a path names.
fn entry_of(observation: &Observation, path: &Name) -> Option<u32>
    requires { length observation.now.entries.paths < 2 ^ 32 }
    ensures { result ≡ entry_of_path observation.now path.now }
{
    if let Some(place) = observation.entries().paths().find(path) {
        return Some(place as u32);
    }
    let names = observation.names();
    let place = names.names().find(path)?;
    names.entries().get(place as usize).copied()
}

// The entry of an edge's file of a kind.
fn side_of(
    alloc: Global,
    kind: SideFile,
    builds: &[Build],
    observation: &Observation,
    edge: u32,
) -> Result<Option<u32>, AllocError>
    requires { length observation.now.entries.paths < 2 ^ 32 }
    ensures { IfOk result (λ entry. entry ≡ side_of_edge kind builds.now observation.now edge) }
{
    match file_name_at(alloc, kind, builds, edge)? {
        Some(path) => Ok(entry_of(observation, &path)),
        None => Ok(None),
    }
}

/// Adds that an edge's file of a kind is a temporary of its command, where the observation has an entry for the file.
///
/// # Errors
/// [`AllocError`] only where an allocation was refused.
pub(crate) fn add_side(
    alloc: Global,
    kind: SideFile,
    builds: &[Build],
    observation: &Observation,
    edge: u32,
    deeds: &mut Vec<Deed>,
) -> Result<(), AllocError>
    requires { length observation.now.entries.paths < 2 ^ 32 }
    ensures { OnOk result (deeds.new.items
        ≡ deeds.old.items ++ temp_at (side_of_edge kind builds.now observation.now edge)) }
{
    if let Some(entry) = side_of(alloc, kind, builds, observation, edge)? {
        deeds.push(Deed {
            word: Word::Temp,
            first: entry,
            last: entry,
        })?;
    }
    Ok(())
}
