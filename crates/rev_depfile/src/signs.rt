//! The signs of a depfile's bytes.
ghost use Rattle.std.specs.Prelude.{◌≡◌, ◌++◌, ◌∷◌, [], replicate, length, ◌≤◌, IfOk, OnOk};
ghost use Rattle.rev_depfile.specs.Signs.{backslash_at, begins_blank, begins_line_end, begins_line_feed, is_line_end_return, is_word_end, read_signs, reading, signs_of};

use crate::sign::{Mark, Reading, Sign};
use std::alloc::{AllocError, Global};

fn begins_line_feed(bytes: &[u8]) -> bool
    ensures { result ≡ begins_line_feed bytes.now }
{
    matches!(bytes, [b'\n', ..])
}

// Whether a byte is a CR right before LF.
fn is_line_end_return(byte: u8, after: &[u8]) -> bool
    ensures { result ≡ is_line_end_return byte after.now }
{
    byte == b'\r' && begins_line_feed(after)
}

// Whether LF or CR LF comes first.
fn begins_line_end(bytes: &[u8]) -> bool
    ensures { result ≡ begins_line_end bytes.now }
{
    match bytes {
        [] => false,
        [first, rest @ ..] => *first == b'\n' || is_line_end_return(*first, rest),
    }
}

// Whether a space, a tab, or a backslash with a line end behind it comes first.
fn begins_blank(bytes: &[u8]) -> bool
    ensures { result ≡ begins_blank bytes.now }
{
    match bytes {
        [] => false,
        [first, rest @ ..] => {
            *first == b' ' || *first == b'\t' || (*first == b'\\' && begins_line_end(rest))
        }
    }
}

// Whether a word that stands right before these bytes ends there.
fn is_word_end(bytes: &[u8]) -> bool
    ensures { result ≡ is_word_end bytes.now }
{
    bytes.is_empty() || begins_blank(bytes) || begins_line_end(bytes)
}

// What a byte behind a run of backslashes is.
fn reading(backslashes: usize, byte: u8, after: &[u8]) -> Reading
    ensures { result ≡ reading backslashes byte after.now }
{
    let (kept, mark) = match byte {
        b'\n' if backslashes == 0 => (0, Mark::LineEnd),
        b'\n' => (backslashes - 1, Mark::Blank),
        b' ' if backslashes % 2 == 1 => (backslashes / 2, Mark::Byte(b' ')),
        b' ' | b'\t' => (backslashes, Mark::Blank),
        b':' if is_word_end(after) => (backslashes, Mark::Colon),
        b'#' | b':' => (backslashes.saturating_sub(1), Mark::Byte(byte)),
        _ => (backslashes, Mark::Byte(byte)),
    };
    Reading { kept, mark }
}

// Adds backslashes that are bytes of a word.
fn push_backslashes(signs: &mut Vec<Sign>, at: usize, count: usize) -> Result<(), AllocError>
    ensures ok { OnOk result (signs.new.items ≡ signs.old.items ++ replicate count (backslash_at at)) }
{
    for _k in 0..count {
        signs.push(Sign {
            at,
            mark: Mark::Byte(b'\\'),
        })?;
    }
    Ok(())
}

// Adds what was read at an offset.
fn push_reading(signs: &mut Vec<Sign>, at: usize, read: Reading) -> Result<(), AllocError>
    ensures ok { OnOk result (signs.new.items ≡ signs.old.items ++ read_signs at read) }
{
    push_backslashes(signs, at, read.kept)?;
    signs.push(Sign {
        at,
        mark: read.mark,
    })?;
    Ok(())
}

/// The signs of a text, in time linear in its bytes.
pub(crate) fn text_signs(alloc: Global, text: &[u8]) -> Result<Vec<Sign>, AllocError>
    ensures signs { IfOk result (λ signs. signs.items ≡ signs_of text.now) }
{
    let mut signs = Vec::new(alloc);
    // Where the present run of backslashes begins, and how many there are.
    let mut at = 0;
    let mut backslashes = 0;
    for (i, byte) in text.iter().enumerate() {
        let after = &text[i + 1..];
        if *byte == b'\\' {
            backslashes += 1;
            continue;
        }
        if is_line_end_return(*byte, after) {
            continue;
        }
        push_reading(&mut signs, at, reading(backslashes, *byte, after))?;
        at = i + 1;
        backslashes = 0;
    }
    push_backslashes(&mut signs, at, backslashes)?;
    Ok(signs)
}
