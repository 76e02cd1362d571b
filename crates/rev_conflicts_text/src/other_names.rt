//! The two names of an output in the folder of a build.
use rev_graph::{Graph, Outputs};
use rev_paths::{Name, PathFault};
use std::alloc::{AllocError, Global};

// The folder before a path, with its slash, where another path is that folder and the path.
fn folder_before<'a>(path: &Name, other: &'a Name) -> Option<&'a [u8]> {
    let folder = other.as_bytes().strip_suffix(path.as_bytes())?;
    if folder.starts_with(b"/") && folder.ends_with(b"/") {
        return Some(folder);
    }
    None
}

// The folder that the outputs of an edge tell: that before the first one in another one.
fn folder_by<'a>(outputs: Outputs<'a>) -> Option<&'a [u8]> {
    let first = outputs.explicit.first()?;
    for other in outputs.implicit {
        if let Some(folder) = folder_before(first, other) {
            return Some(folder);
        }
    }
    None
}

/// The folder of a build with a slash at its end, as its outputs tell it: an edge has P as its first output, and the
/// folder and P as an implicit one. CMake writes custom commands so. It is empty where no edge tells it.
pub fn build_folder(graph: &Graph) -> &[u8] {
    for edge in 0..graph.edges() {
        if let Some(folder) = folder_by(graph.outputs(edge)) {
            return folder;
        }
    }
    b""
}

// The name of some bytes, where they are one.
fn name_of(alloc: Global, bytes: &[u8]) -> Result<Option<Name>, AllocError> {
    match Name::new(alloc, bytes) {
        Ok(name) => Ok(Some(name)),
        Err(PathFault::Memory) => Err(AllocError),
        Err(PathFault::EmptyPath | PathFault::LongPath) => Ok(None),
    }
}

/// The name that a path has in the folder of a build, where it is in that folder.
///
/// # Errors
/// [`AllocError`] only where an allocation was refused.
pub fn name_within(alloc: Global, folder: &[u8], path: &Name) -> Result<Option<Name>, AllocError> {
    if folder.is_empty() {
        return Ok(None);
    }
    match path.as_bytes().strip_prefix(folder) {
        Some(rest) => name_of(alloc, rest),
        None => Ok(None),
    }
}

/// Whether two paths are of one file: they are alike, or one of them is the other one in the folder of the build.
pub fn is_one_file(folder: &[u8], path: &Name, other: &Name) -> bool {
    if *path == *other {
        return true;
    }
    is_within(folder, path, other) || is_within(folder, other, path)
}

// Whether a path is the folder of a build and a name there.
fn is_within(folder: &[u8], path: &Name, name: &Name) -> bool {
    if folder.is_empty() {
        return false;
    }
    match path.as_bytes().strip_prefix(folder) {
        Some(rest) => rest == name.as_bytes(),
        None => false,
    }
}
