//! The pieces of a text between bytes that a file's name does not have.
ghost use Rattle.std.specs.Prelude.{◌≡◌, IfOk};
ghost use Rattle.rev_paths.specs.Kept.{texts};
ghost use Rattle.rev_named.specs.Words.{begun_by as begun_by_byte, goes_on as goes_on_byte, is_name_byte as is_byte_of_name, is_part as is_part_of_name, mode_after as mode_behind, pieces as pieces_of};

use std::alloc::{AllocError, Global};

/// How a byte is read, by those before it.
#[derive(Clone, Copy, PartialEq, Eq)]
pub(crate) enum Mode {
    /// As itself.
    Plain,
    /// Right behind ESC.
    Escape,
    /// In a control sequence, behind ESC and `[`: it ends with a letter.
    Sequence,
    /// After the first byte of a character from U+2000 to U+2FFF.
    Symbol,
}

// The first byte of a character from U+2000 to U+2FFF in UTF-8.
const SYMBOL: u8 = 0xe2;

const ESC: u8 = 0x1b;

// Whether a byte may be part of a name.
fn is_name_byte(byte: u8) -> bool
    ensures { result ≡ is_byte_of_name byte }
{
    byte.is_ascii_alphanumeric()
        || matches!(byte, b'_' | b'+' | b'-' | b'.' | b'/' | b'@' | b'%' | b'~')
        || byte >= 128
}

// Whether a byte goes on with a character of UTF-8.
fn goes_on(byte: u8) -> bool
    ensures { result ≡ goes_on_byte byte }
{
    byte >= 128 && byte < 192
}

// How the next byte is read behind one that stands by itself.
fn begun_by(byte: u8) -> Mode
    ensures { result ≡ begun_by_byte byte }
{
    if byte == ESC {
        return Mode::Escape;
    }
    if byte == SYMBOL {
        return Mode::Symbol;
    }
    Mode::Plain
}

// How the next byte is read.
fn mode_after(mode: Mode, byte: u8) -> Mode
    ensures { result ≡ mode_behind mode byte }
{
    match mode {
        Mode::Plain => begun_by(byte),
        Mode::Escape => if byte == b'[' {
            Mode::Sequence
        } else {
            begun_by(byte)
        },
        Mode::Sequence => if byte.is_ascii_alphabetic() {
            Mode::Plain
        } else {
            Mode::Sequence
        },
        Mode::Symbol => if goes_on(byte) {
            Mode::Symbol
        } else {
            begun_by(byte)
        },
    }
}

// Whether a byte is part of a name.
fn is_part(mode: Mode, byte: u8) -> bool
    ensures { result ≡ is_part_of_name mode byte }
{
    match mode {
        Mode::Plain | Mode::Escape => is_name_byte(byte) && byte != SYMBOL,
        Mode::Sequence => false,
        Mode::Symbol => is_name_byte(byte) && byte != SYMBOL && !goes_on(byte),
    }
}

/// What stands between bytes that a name does not have, in one pass.
///
/// # Errors
/// [`AllocError`] only where an allocation was refused.
pub(crate) fn pieces<'a>(alloc: Global, text: &'a [u8]) -> Result<Vec<&'a [u8]>, AllocError>
    ensures { IfOk result (λ pieces. texts pieces.items ≡ pieces_of text.now) }
{
    let mut pieces = Vec::new(alloc);
    let mut mode = Mode::Plain;
    let mut begin = text;
    let mut rest = text;
    while let Some((byte, after)) = rest.split_first() {
        if !is_part(mode, *byte) {
            pieces.push(&begin[..begin.len() - rest.len()])?;
            begin = after;
        }
        mode = mode_after(mode, *byte);
        rest = after;
    }
    pieces.push(begin)?;
    Ok(pieces)
}
