//! The folders that have paths.
ghost use Rattle.std.specs.Prelude.{◌≡◌, ◌<◌, length, slice_index_or, [], IfOk};
ghost use Rattle.rev_conflicts.specs.Places.{folder_number as folder_number_of, folder_of, last_slash as last_slash_of};

use rev_paths::{Name, PathFault, Paths};
use std::alloc::{AllocError, Global};

// The place of the last slash.
fn last_slash(path: &[u8]) -> Option<usize>
    ensures { result ≡ last_slash_of path.now }
{
    let mut last = None;
    for (place, byte) in path.iter().enumerate() {
        if *byte == b'/' {
            last = Some(place);
        }
    }
    last
}

// The folder that has a path.
fn folder(path: &[u8]) -> &[u8]
    ensures { result.now ≡ folder_of path.now }
{
    match last_slash(path) {
        None => b".",
        Some(0) => b"/",
        Some(place) => &path[..place],
    }
}

/// The number of the folder that has a path, where commands have to do with that folder too.
///
/// # Errors
/// [`AllocError`] only where an allocation was refused.
pub(crate) fn folder_number(
    alloc: Global,
    paths: &Paths,
    path: u64,
) -> Result<Option<u64>, AllocError>
    requires { path < length paths.now }
    ensures { IfOk result (λ number. number ≡ folder_number_of paths.now path) }
{
    let name = paths.path(path);
    match Name::new(alloc, folder(name.as_bytes())) {
        Ok(folder) => Ok(paths.find(&folder)),
        Err(PathFault::Memory) => Err(AllocError),
        Err(PathFault::EmptyPath | PathFault::LongPath) => Ok(None),
    }
}
