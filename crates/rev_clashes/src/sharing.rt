//! Which edges have a file where an earlier one has its own.
ghost use Rattle.std.specs.Prelude.{◌≡◌, ◌<◌, List, ℕ, Some, None, bytes_eq, length, slice_get, unwrap_or, IfOk, OnOk};
ghost use Rattle.std.specs.Map.{lookup};
ghost use Rattle.std.specs.Option.{option_map, option_or};
ghost use Rattle.rev_clashes.specs.Clashes.{AreClashes, file_of, given};

use crate::side_file::SideFile;
use indexmap::IndexMap;
use rev_manifest::Build;
use rev_paths::{Name, PathFault};
use std::alloc::{AllocError, Global};

/// Two edges that have a file of one kind at one path, each by its place among the edges.
#[derive(Clone, Copy, Debug, PartialEq, Eq)]
pub struct Clash {
    /// The first edge that has its file there.
    pub first: usize,
    /// A later one.
    pub other: usize,
}

// The path of an edge's file of a kind, where it has one.
fn file_name(alloc: Global, kind: SideFile, build: &Build) -> Result<Option<Name>, AllocError>
    ensures { IfOk result (λ name. name ≡ file_of kind build.now) }
{
    match Name::new(alloc, kind.path_in(build)) {
        Ok(name) => Ok(Some(name)),
        Err(PathFault::EmptyPath | PathFault::LongPath) => Ok(None),
        Err(PathFault::Memory) => Err(AllocError),
    }
}

// The place that a path has among the firsts; one that has none gets this place. It looks the path up once.
fn first_at(
    firsts: &mut IndexMap<Name, usize>,
    path: Name,
    place: usize,
) -> Result<usize, AllocError>
    ensures value { IfOk result (λ first. first ≡ unwrap_or (lookup (bytes_eq path) firsts.old.entries) place) }
    ensures entries { OnOk result ((other : List ℕ)
        → lookup (bytes_eq other) firsts.new.entries
        ≡ option_or (lookup (bytes_eq other) firsts.old.entries) (given (bytes_eq other path) place)) }
{
    let first = *firsts.entry(path)?.or_insert(place);
    Ok(first)
}

/// The edges that have their file of a kind where an earlier edge has its own, each with the first that has, in the
/// order of the edges. Paths are compared in canonical form; a path of more bytes than [`Name::MAX_BYTES`] is none. It
/// takes time linear in the edges, up to hashing.
///
/// # Errors
/// [`AllocError`] only where an allocation was refused.
pub fn clashes(alloc: Global, kind: SideFile, builds: &[Build]) -> Result<Vec<Clash>, AllocError>
    ensures { IfOk result (λ clashes. AreClashes kind builds.now clashes.items) }
{
    let mut firsts = IndexMap::new(alloc);
    let mut clashes = Vec::new(alloc);
    for (place, build) in builds.iter().enumerate() {
        if let Some(path) = file_name(alloc, kind, build)? {
            let first = first_at(&mut firsts, path, place)?;
            if first < place {
                clashes.push(Clash {
                    first,
                    other: place,
                })?;
            }
        }
    }
    Ok(clashes)
}
