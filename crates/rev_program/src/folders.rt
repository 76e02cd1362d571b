//! The files below a folder.
ghost use Rattle.std.specs.Prelude.{◌≡◌, IfOk};
ghost use Rattle.rev_program.specs.Folders.{folder_text, is_below};

use std::alloc::{AllocError, Global};

/// A folder's canonical path as the prefix of the paths below it: it ends with a slash, as the root's path already
/// does.
///
/// # Errors
/// [`AllocError`] only where an allocation was refused.
pub(crate) fn folder_text(alloc: Global, path: &[u8]) -> Result<Vec<u8>, AllocError>
    ensures { IfOk result (λ text. text.items ≡ folder_text path.now) }
{
    let mut text = Vec::from_slice(alloc, path)?;
    if !path.ends_with(b"/") {
        text.push(b'/')?;
    }
    Ok(text)
}

/// Whether a canonical path is below the folder whose prefix [`folder_text`] made.
pub(crate) fn is_below(folder: &[u8], path: &[u8]) -> bool
    ensures { result ≡ is_below folder.now path.now }
{
    path.starts_with(folder)
}
