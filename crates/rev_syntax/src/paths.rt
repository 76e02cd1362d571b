//! Paths and lists of paths in a line.
ghost use Rattle.std.specs.Prelude.{◌≡◌, Ok, None, Some, true, false, drop, MatchResult, MatchOption};
ghost use Rattle.rev_syntax.specs.Bytes.{begins_with};
ghost use Rattle.rev_syntax.specs.Faults.{IsFault, fault_at, stuck_kind};
ghost use Rattle.rev_syntax.specs.Paths.{text_of, path_of, raw_paths, texts_of, list_of, after_mark, list_after};

use crate::bytes::{End, begins_with, split_free, without_spaces};
use crate::fault::{ReadFault, SyntaxKind};
use crate::lines::Line;
use crate::text::Text;
use std::alloc::Global;

/// What stands before a list of paths of its own.
#[derive(Clone, Copy)]
pub(crate) enum Mark {
    /// `|`: implicit outputs or inputs.
    Bar,
    /// `||`: order-only inputs.
    TwoBars,
    /// `|@`: validations.
    BarAt,
}

/// The fault of a line that needs something else than what is left of it.
pub(crate) fn stuck(line: &Line, text: &[u8]) -> ReadFault
    ensures { result ≡ ReadFault.Refused (fault_at line.now (stuck_kind line.now.ended text.now)) }
{
    if text.is_empty() {
        return line.end_fault();
    }
    line.fault(SyntaxKind::Syntax)
}

/// The text that these bytes of a line are.
pub(crate) fn text_at<'a>(line: &Line, raw: &'a [u8]) -> Result<Text<'a>, ReadFault>
    ensures { MatchResult result
        (λ text. text_of line.now raw.now ≡ Ok text)
        (λ fault. IsFault fault (text_of line.now raw.now)) }
{
    match Text::new(raw) {
        Ok(text) => Ok(text),
        Err(kind) => Err(line.fault(kind)),
    }
}

/// A path, and what follows it and its spaces.
pub(crate) fn path<'a>(line: &Line, text: &'a [u8]) -> Result<(Text<'a>, &'a [u8]), ReadFault>
    ensures { MatchResult result
        (λ part. path_of line.now text.now ≡ Ok (part.0, part.1.now))
        (λ fault. IsFault fault (path_of line.now text.now)) }
{
    let (raw, rest) = split_free(End::PathEnd, text);
    if raw.is_empty() {
        return Err(stuck(line, text));
    }
    let path = text_at(line, raw)?;
    Ok((path, without_spaces(rest)))
}

// The paths between spaces.
fn texts<'a>(alloc: Global, line: &Line, text: &'a [u8]) -> Result<Vec<Text<'a>>, ReadFault>
    ensures { MatchResult result
        (λ texts. texts_of line.now (raw_paths text.now) ≡ Ok texts.items)
        (λ fault. IsFault fault (texts_of line.now (raw_paths text.now))) }
{
    let mut texts = Vec::new(alloc);
    let mut rest = without_spaces(text);
    while !rest.is_empty() {
        let (raw, after) = split_free(End::SpaceEnd, rest);
        let path = text_at(line, raw)?;
        texts.push(path)?;
        rest = without_spaces(after);
    }
    Ok(texts)
}

/// A list of paths, and what follows it.
pub(crate) fn list<'a>(
    alloc: Global,
    line: &Line,
    text: &'a [u8],
) -> Result<(Vec<Text<'a>>, &'a [u8]), ReadFault>
    ensures { MatchResult result
        (λ part. list_of line.now text.now ≡ Ok (part.0.items, part.1.now))
        (λ fault. IsFault fault (list_of line.now text.now)) }
{
    let (raws, rest) = split_free(End::ListEnd, text);
    let paths = texts(alloc, line, raws)?;
    Ok((paths, rest))
}

// What follows a byte, where that byte stands.
fn after_byte(byte: u8, text: &[u8]) -> Option<&[u8]>
    ensures { MatchOption result (begins_with byte text.now ≡ false)
        (λ after. (begins_with byte text.now ≡ true) × (after.now ≡ drop 1 text.now)) }
{
    let (first, rest) = text.split_first()?;
    if *first != byte {
        return None;
    }
    Some(rest)
}

// What follows a mark, where that mark stands.
fn after_mark(mark: Mark, text: &[u8]) -> Option<&[u8]>
    ensures { MatchOption result (after_mark mark text.now ≡ None)
        (λ after. after_mark mark text.now ≡ Some after.now) }
{
    let (byte, rest) = text.split_first()?;
    if *byte != b'|' {
        return None;
    }
    match mark {
        Mark::Bar => {
            if begins_with(b'|', rest) || begins_with(b'@', rest) {
                return None;
            }
            Some(rest)
        }
        Mark::TwoBars => after_byte(b'|', rest),
        Mark::BarAt => after_byte(b'@', rest),
    }
}

/// The list of paths behind a mark, which is empty where the mark does not stand, and what follows.
pub(crate) fn list_after<'a>(
    alloc: Global,
    line: &Line,
    mark: Mark,
    text: &'a [u8],
) -> Result<(Vec<Text<'a>>, &'a [u8]), ReadFault>
    ensures { MatchResult result
        (λ part. list_after line.now mark text.now ≡ Ok (part.0.items, part.1.now))
        (λ fault. IsFault fault (list_after line.now mark text.now)) }
{
    match after_mark(mark, text) {
        None => Ok((Vec::new(alloc), text)),
        Some(after) => list(alloc, line, after),
    }
}
