//! A line of the prompt, cut into texts.
use std::alloc::{AllocError, Global};

/// Why a line is not cut.
#[derive(Clone, Copy)]
pub enum LineFault {
    /// The system refused memory.
    Memory,
    /// A quote that is not closed.
    OpenQuote,
}

impl From<AllocError> for LineFault {
    fn from(_e: AllocError) -> LineFault {
        LineFault::Memory
    }
}

// Where a byte of a line stands.
#[derive(Clone, Copy, PartialEq, Eq)]
enum Place {
    // Between texts.
    Between,
    // In a text.
    Inside,
    // In a text, between these quotes.
    Quoted(u8),
}

// The value of a digit to the base 16.
fn hex_value(digit: u8) -> Option<u8> {
    match digit {
        b'0'..=b'9' => Some(digit - b'0'),
        b'a'..=b'f' => Some(digit - b'a' + 10),
        _ => None,
    }
}

// The byte that stands written out at the beginning of these, and how many bytes write it: what is shown of names
// reads back.
fn written_byte(rest: &[u8]) -> Option<(u8, usize)> {
    match rest {
        [b'\\', b's', ..] => Some((b' ', 2)),
        [b'\\', b't', ..] => Some((b'\t', 2)),
        [b'\\', b'n', ..] => Some((b'\n', 2)),
        [b'\\', b'r', ..] => Some((b'\r', 2)),
        [b'\\', b'\\', ..] => Some((b'\\', 2)),
        [b'\\', b'x', high, low, ..] => {
            let high = hex_value(*high)?;
            let low = hex_value(*low)?;
            Some((high.wrapping_mul(16).wrapping_add(low), 4))
        }
        _ => None,
    }
}

fn is_blank(byte: u8) -> bool {
    matches!(byte, b' ' | b'\t' | b'\r')
}

// Adds a text of no bytes.
fn push_text(texts: &mut Vec<Vec<u8>>, alloc: Global) -> Result<(), AllocError> {
    texts.push(Vec::new(alloc))?;
    Ok(())
}

// Adds a byte to the last text.
fn push_byte(texts: &mut Vec<Vec<u8>>, byte: u8) -> Result<(), AllocError> {
    match texts.last_mut() {
        Some(text) => {
            text.push(byte)?;
            Ok(())
        }
        None => Ok(()),
    }
}

// The place after a byte that is not written out, and whether it is a byte of the text.
fn step(place: Place, byte: u8) -> (Place, bool) {
    match place {
        Place::Quoted(quote) if byte == quote => (Place::Inside, false),
        Place::Quoted(quote) => (Place::Quoted(quote), true),
        _ if byte == b'\'' || byte == b'"' => (Place::Quoted(byte), false),
        _ if is_blank(byte) => (Place::Between, false),
        _ => (Place::Inside, true),
    }
}

/// The texts of a line: what stands between blanks. Quotes (`'` or `"`) keep blanks together. What is written out as names
/// are shown (`\s`, `\\`, `\x1b`) stands for its byte, except between single quotes. A `#` that begins a text begins a
/// comment.
///
/// # Errors
/// [`LineFault::OpenQuote`] exactly where a quote is not closed.
pub fn texts_of(alloc: Global, line: &[u8]) -> Result<Vec<Vec<u8>>, LineFault> {
    let mut texts: Vec<Vec<u8>> = Vec::new(alloc);
    let mut place = Place::Between;
    let mut skipped = 0;
    for at in 0..line.len() {
        if skipped > 0 {
            skipped -= 1;
            continue;
        }
        if place == Place::Between && line[at] == b'#' {
            break;
        }
        let written = if place == Place::Quoted(b'\'') {
            None
        } else {
            written_byte(&line[at..])
        };
        let (next, byte, is_in) = match written {
            Some((byte, count)) => {
                skipped = count.saturating_sub(1);
                (
                    if place == Place::Between {
                        Place::Inside
                    } else {
                        place
                    },
                    byte,
                    true,
                )
            }
            None => {
                let (next, is_in) = step(place, line[at]);
                (next, line[at], is_in)
            }
        };
        if place == Place::Between && next != Place::Between {
            push_text(&mut texts, alloc)?;
        }
        if is_in {
            push_byte(&mut texts, byte)?;
        }
        place = next;
    }
    if let Place::Quoted(_) = place {
        return Err(LineFault::OpenQuote);
    }
    Ok(texts)
}
