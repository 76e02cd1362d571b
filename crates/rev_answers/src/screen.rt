//! What of an answer stands on a screen.
use rev_fields::push_number;
use std::alloc::{AllocError, Global};

// How many lines a screen has.
const SCREEN: usize = 40;

// How many lines a text has.
fn line_count(text: &[u8]) -> usize {
    text.iter().filter(|byte| **byte == b'\n').count()
}

// The bytes behind so many lines.
fn behind_lines(text: &[u8], count: usize) -> &[u8] {
    let mut left = count;
    for (place, byte) in text.iter().enumerate() {
        if left == 0 {
            return text.get(place..).unwrap_or(&[]);
        }
        if *byte == b'\n' {
            left = left.saturating_sub(1);
        }
    }
    &[]
}

/// The lines of an answer that stand on a screen: all of them, or the first 38 and the last, and between them how many
/// are left out. `asks` says whether the question can be asked again with `--all`, which tells them.
///
/// # Errors
/// [`AllocError`] only where an allocation was refused.
pub fn screen_of(alloc: Global, text: &[u8], asks: bool) -> Result<Vec<u8>, AllocError> {
    let count = line_count(text);
    if count <= SCREEN {
        return Vec::from_slice(alloc, text);
    }
    let rest = behind_lines(text, SCREEN.saturating_sub(2));
    let front = text.len().saturating_sub(rest.len());
    let mut screen = Vec::from_slice(alloc, text.get(..front).unwrap_or(text))?;
    screen.extend_from_slice(b"  .. ")?;
    push_number(&mut screen, count.saturating_sub(SCREEN - 1) as u64)?;
    screen.extend_from_slice(b" more lines")?;
    if asks {
        screen.extend_from_slice(b": `--all` after the question tells them")?;
    }
    screen.push(b'\n')?;
    screen.extend_from_slice(behind_lines(text, count.saturating_sub(1)))?;
    Ok(screen)
}
