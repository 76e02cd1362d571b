//! The lines of commands in a text, and its last line.
use crate::ends::digest_of;
use rev_fields::{next_number, parts_at};
use std::alloc::{AllocError, Global};

/// The number of the line of a command, from 1, by the command's place among the commands, from 0: the line of a fault
/// that `rev_observed::edges` finds. Nothing where so many lines do not begin with `edge`.
///
/// # Errors
/// [`AllocError`] only where an allocation was refused.
pub fn command_line(alloc: Global, text: &[u8], place: usize) -> Result<Option<u64>, AllocError> {
    let lines = parts_at(alloc, text, b'\n')?;
    let mut left = place;
    for (number, line) in lines.iter().enumerate() {
        if !line.starts_with(b"edge ") {
            continue;
        }
        if left == 0 {
            return Ok(Some(number as u64 + 1));
        }
        left -= 1;
    }
    Ok(None)
}

/// The number of the last line that is read, from 1, and 0 where there is none: the line of a fault about the end.
///
/// # Errors
/// [`AllocError`] only where an allocation was refused.
pub fn last_line(alloc: Global, text: &[u8]) -> Result<u64, AllocError> {
    let lines = parts_at(alloc, text, b'\n')?;
    Ok((lines.len() as u64).saturating_sub(1))
}

// How many lines begin with this.
fn lines_with(lines: &[&[u8]], word: &[u8]) -> u64 {
    let mut count: u64 = 0;
    for line in lines {
        if line.starts_with(word) {
            count = count.saturating_add(1);
        }
    }
    count
}

// Whether the last line has the counts and the sum of those before it.
fn ends(alloc: Global, before: &[&[u8]], last: &[u8]) -> Result<bool, AllocError> {
    let mut line = Vec::from_slice(alloc, b"end")?;
    next_number(&mut line, lines_with(before, b"path "))?;
    next_number(&mut line, lines_with(before, b"edge "))?;
    next_number(&mut line, before.len() as u64)?;
    line.push(b' ')?;
    let sum = hex::encode(alloc, digest_of(before))?;
    line.extend_from_slice(sum.as_bytes())?;
    Ok(line.as_slice() == last)
}

/// The number of the last line that is read, from 1, where that is not `end` with the counts and the sum of the lines
/// before it, and 0 where no line is read. Nothing where the last line is that one. Of a text without a fault there is
/// a number where the observation is not complete
/// ([`Observation::is_complete`](crate::Observation::is_complete)). It takes time linear in the bytes.
///
/// # Errors
/// [`AllocError`] only where an allocation was refused.
pub fn incomplete_line(alloc: Global, text: &[u8]) -> Result<Option<u64>, AllocError> {
    let parts = parts_at(alloc, text, b'\n')?;
    let count = parts.len().saturating_sub(1);
    let (lines, _rest) = parts.split_at(count);
    match lines.split_last() {
        Some((last, before)) => {
            if ends(alloc, before, last)? {
                return Ok(None);
            }
            Ok(Some(lines.len() as u64))
        }
        None => Ok(Some(0)),
    }
}
