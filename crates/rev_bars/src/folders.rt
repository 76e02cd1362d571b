//! Rows by folder.
use rev_shown::push_shown;
use std::alloc::{AllocError, Global};

// The most levels of folders that are told apart.
const MOST_LEVELS: usize = 8;
// The most letters of the name of a row.
const MOST_LETTERS: usize = 36;

// The folder of a path down to a level: as much of it as stands before the slash of that number, from 1, and nothing of
// a path without a folder.
fn folder_of(path: &[u8], level: usize) -> &[u8] {
    let mut passed = 0usize;
    let mut folder: &[u8] = b"";
    for (place, byte) in path.iter().enumerate() {
        if *byte == b'/' && passed < level {
            passed = passed.saturating_add(1);
            folder = path.get(..place).unwrap_or(b"");
        }
    }
    folder
}

// The folders of paths down to a level, each once; none where they are more than so many.
fn folders_at<'a>(
    alloc: Global,
    paths: &[&'a [u8]],
    level: usize,
    most: usize,
) -> Result<Option<Vec<&'a [u8]>>, AllocError> {
    let mut folders: Vec<&'a [u8]> = Vec::new(alloc);
    for path in paths {
        let folder = folder_of(path, level);
        if !folders.contains(&folder) {
            if folders.len() >= most {
                return Ok(None);
            }
            folders.push(folder)?;
        }
    }
    Ok(Some(folders))
}

// The name of the row of a folder: its last letters, where it is long.
fn row_name(alloc: Global, folder: &[u8]) -> Result<Vec<u8>, AllocError> {
    if folder.is_empty() {
        return Vec::from_slice(alloc, b"(top)");
    }
    let mut name = Vec::new(alloc);
    if folder.len() > MOST_LETTERS {
        name.extend_from_slice(b"...")?;
    }
    let rest = folder.len().saturating_sub(MOST_LETTERS);
    push_shown(&mut name, folder.get(rest..).unwrap_or(b""))?;
    Ok(name)
}

/// For each path the place of its folder, and the names of the rows, of which the first one is for what has no folder.
/// The folders are told apart down to the last level at which they are at most so many; where they are more at the first
/// level, all paths are in one row.
///
/// # Errors
/// [`AllocError`] only where an allocation was refused.
pub(crate) fn folded(
    alloc: Global,
    paths: &[&[u8]],
    most: usize,
) -> Result<(Vec<usize>, Vec<Vec<u8>>), AllocError> {
    let mut level = 0;
    let mut folders = Vec::new(alloc);
    for next in 0..MOST_LEVELS {
        match folders_at(alloc, paths, next, most)? {
            Some(found) => {
                folders = found;
                level = next;
            }
            None => break,
        }
    }
    let mut of = Vec::new(alloc);
    for path in paths {
        let folder = folder_of(path, level);
        of.push(
            folders
                .iter()
                .position(|known| *known == folder)
                .unwrap_or(0),
        )?;
    }
    let mut names = Vec::new(alloc);
    names.push(Vec::from_slice(alloc, b"events")?)?;
    for folder in &folders {
        names.push(row_name(alloc, folder)?)?;
    }
    Ok((of, names))
}
