//! Strings of JSON.
ghost use Rattle.std.specs.Prelude.{◌≡◌, ◌∷◌, ◌++◌, [], if◌then◌else◌, OnOk};
ghost use Rattle.rev_document_json.specs.Strings.{inside, inside_byte, is_plain, json_string};
ghost use Rattle.rev_document_words.specs.Escape.{hex_byte};

use rev_document_words::push_hex;
use std::alloc::AllocError;

// Whether a byte stands for itself in a string.
fn is_plain(byte: u8) -> bool
    ensures { result ≡ is_plain byte }
{
    32 <= byte && byte < 127
}

// Adds a byte of a string.
fn push_byte(text: &mut Vec<u8>, byte: &u8) -> Result<(), AllocError>
    ensures { OnOk result (text.new.items ≡ text.old.items ++ inside_byte byte.now) }
{
    match *byte {
        b'"' => text.extend_from_slice(b"\\\""),
        b'\\' => text.extend_from_slice(b"\\\\"),
        _ => push_other(text, byte),
    }
}

// Adds a byte that is neither a quote nor a backslash.
fn push_other(text: &mut Vec<u8>, byte: &u8) -> Result<(), AllocError>
    ensures { OnOk result (text.new.items ≡ text.old.items ++ (if is_plain byte.now then byte.now ∷ [] else 92 ∷ hex_byte byte.now)) }
{
    if is_plain(*byte) {
        text.push(*byte)?;
        return Ok(());
    }
    text.push(b'\\')?;
    push_hex(text, *byte)
}

/// Appends what stands between the quotes of a string of these words.
///
/// # Errors
/// [`AllocError`] only where an allocation was refused.
pub(crate) fn push_inside(text: &mut Vec<u8>, words: &[u8]) -> Result<(), AllocError>
    ensures { OnOk result (text.new.items ≡ text.old.items ++ inside words.now) }
{
    for byte in words {
        push_byte(text, byte)?;
    }
    Ok(())
}

/// Appends a string of these words. Printable ASCII stands as it is, except that a quote and a backslash have a
/// backslash before them. Every other byte is `\\x` and two hexadecimal digits.
///
/// # Errors
/// [`AllocError`] only where an allocation was refused.
pub fn push_string(text: &mut Vec<u8>, words: &[u8]) -> Result<(), AllocError>
    ensures { OnOk result (text.new.items ≡ text.old.items ++ json_string words.now) }
{
    text.push(b'"')?;
    push_inside(text, words)?;
    text.push(b'"')?;
    Ok(())
}
