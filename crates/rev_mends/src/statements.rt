//! The build statements of a manifest's edges, and patches of its files.
use rev_manifest::Build;
use rev_patch::{Change, patch_text};
use rev_paths::{Name, PathFault};
use std::alloc::{AllocError, Global};

// What the names of files in a recording begin with that the recorder copied under another name.
const COPIED: &[u8] = b"outside/";

/// The build statement of an edge: its file, by its place among those given, and its line.
#[derive(Clone, Copy, PartialEq, Eq, PartialOrd, Ord)]
pub struct Statement {
    /// The file.
    pub file: u64,
    /// The line.
    pub line: u64,
    /// The edge.
    pub edge: u32,
}

/// The statements of all edges, by file and line. One statement makes several edges where `subninja` names its file
/// more than once.
///
/// # Errors
/// [`AllocError`] only where an allocation was refused.
pub fn statements_of(alloc: Global, builds: &[Build]) -> Result<Vec<Statement>, AllocError> {
    let mut statements = Vec::with_capacity(alloc, builds.len())?;
    for (edge, build) in builds.iter().enumerate() {
        if let Ok(edge) = u32::try_from(edge) {
            statements.push(Statement {
                file: build.file(),
                line: build.line(),
                edge,
            })?;
        }
    }
    statements.sort_unstable();
    Ok(statements)
}

/// The edges that the statement at a line of a file makes, of the statements of all edges.
pub fn statement_at(statements: &[Statement], file: u64, line: u64) -> &[Statement] {
    let first = Statement {
        file,
        line,
        edge: 0,
    };
    let from = match statements.binary_search(&first) {
        Ok(place) | Err(place) => place,
    };
    let (_, rest) = statements.split_at(from.min(statements.len()));
    for (number, statement) in rest.iter().enumerate() {
        if statement.file != file || statement.line != line {
            return rest.split_at(number).0;
        }
    }
    rest
}

/// The name by which `patch -p0`, run in the build folder, finds a file of the manifest. A file that stands outside of
/// that folder, or that the recorder copied under another name, has none.
///
/// # Errors
/// [`AllocError`] only where an allocation was refused.
pub fn patch_name(alloc: Global, name: &[u8]) -> Result<Option<Name>, AllocError> {
    let name = match Name::new(alloc, name) {
        Ok(name) => name,
        Err(PathFault::Memory) => return Err(AllocError),
        Err(_) => return Ok(None),
    };
    let bytes = name.as_bytes();
    if bytes.starts_with(b"/") || bytes.starts_with(b"..") || bytes.starts_with(COPIED) {
        return Ok(None);
    }
    Ok(Some(name))
}

/// Adds the patch of each file that has changed lines.
///
/// # Errors
/// [`AllocError`] only where an allocation was refused.
pub fn push_patches(
    alloc: Global,
    text: &mut Vec<u8>,
    files: &[(Vec<u8>, Vec<u8>)],
    changes: &[Vec<Change>],
) -> Result<(), AllocError> {
    for ((name, bytes), changes) in files.iter().zip(changes.iter()) {
        if let Some(name) = patch_name(alloc, name)? {
            let patch = patch_text(alloc, name.as_bytes(), bytes, changes)?;
            text.extend_from_slice(&patch)?;
        }
    }
    Ok(())
}
