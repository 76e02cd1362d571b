//! How a path stands in a command.
ghost use Rattle.std.specs.Prelude.{◌≡◌, ◌++◌, IfOk, OnOk};
ghost use Rattle.std.specs.List.{list_all, flat_map};
ghost use Rattle.rev_paths.specs.Quoting.{escaped, is_safe, quote};

use crate::name::Name;
use std::alloc::{AllocError, Global};

// Whether the shell reads a byte as itself wherever it stands in a word.
fn is_safe_byte(b: u8) -> bool
    ensures { result ≡ is_safe b }
{
    b.is_ascii_alphanumeric() || matches!(b, b'_' | b'+' | b'-' | b'.' | b'/')
}

// Whether the shell reads each byte as itself.
fn is_safe_text(bytes: &[u8]) -> bool
    ensures { result ≡ list_all is_safe bytes.now }
{
    bytes.iter().all(|b| is_safe_byte(*b))
}

// Adds bytes that stand between single quotes.
fn push_escaped(text: &mut Vec<u8>, bytes: &[u8]) -> Result<(), AllocError>
    ensures ok { OnOk result (text.new.items ≡ text.old.items ++ flat_map escaped bytes.now) }
{
    for b in bytes {
        if *b == b'\'' {
            text.extend_from_slice(b"'\\''")?;
        } else {
            text.push(*b)?;
        }
    }
    Ok(())
}

/// Whether a path stands in a command as it is, so that [`quoted`] gives its own bytes.
pub fn is_unquoted(path: &Name) -> bool
    ensures { result ≡ list_all is_safe path.now }
{
    is_safe_text(path.as_bytes())
}

/// The path as it stands in a command that a shell reads. It stands as it is where it has only ASCII letters, digits
/// and `_ + - . /`. Otherwise it stands between single quotes, with each single quote of it written `'\''`.
///
/// # Errors
/// [`AllocError`] where an allocation failed.
pub fn quoted(alloc: Global, path: &Name) -> Result<Vec<u8>, AllocError>
    ensures quote { IfOk result (λ text. text.items ≡ quote path.now) }
{
    let bytes = path.as_bytes();
    let mut text = Vec::new(alloc);
    if is_safe_text(bytes) {
        text.extend_from_slice(bytes)?;
        return Ok(text);
    }
    text.push(b'\'')?;
    push_escaped(&mut text, bytes)?;
    text.push(b'\'')?;
    Ok(text)
}
