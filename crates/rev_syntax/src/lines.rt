//! The lines of a manifest: split at line feeds, joined and numbered.
ghost use Rattle.std.specs.Prelude.{◌≡◌, ◌++◌, ◌∷◌, [], List, ℕ, suc, false, true, IfOk, length};
ghost use Rattle.rev_syntax.specs.Lines.{file_lines, is_dropped, ends_alone, without_return, without_last, before_first, joined, lines_from, lines_of};
ghost use Rattle.rev_syntax.specs.Joining.{texts, lines_after};
ghost use Rattle.rev_syntax.specs.Faults.{fault_at, end_kind};

use crate::bytes::{piece_len, without_spaces};
use crate::fault::{ReadFault, SyntaxFault, SyntaxKind};
use std::alloc::{AllocError, Global};
use std::marker::Model;

/// A line of a manifest, joined with those that continue it.
#[derive(Debug, Drop)]
pub struct Line {
    // The number of its first line in the file, from 1.
    number: u64,
    text: Vec<u8>,
    // Whether it ends: the last line of a file does not where it has a `$` alone at its end.
    ended: bool,
}

impl Model for Line {
    ghost use Rattle.rev_syntax.specs.Lines.{LineValue};

    ghost Value = { LineValue };

    ghost view = { λ line. record { number = line.number; text = line.text.items; ended = line.ended } };
}

impl Line {
    /// The number of its first line in the file, from 1.
    pub(crate) fn number(&self) -> u64
        ensures { result ≡ self.now.number }
    {
        self.number
    }

    /// Its bytes, without the `$` of those that go on in the next.
    pub(crate) fn text(&self) -> &[u8]
        ensures { result.now ≡ self.now.text }
    {
        self.text.as_slice()
    }

    /// Whether it ends: the last line of a file does not where it has a `$` alone at its end.
    pub(crate) fn is_ended(&self) -> bool
        ensures { result ≡ self.now.ended }
    {
        self.ended
    }

    /// The fault of that kind at this line.
    pub(crate) fn fault(&self, kind: SyntaxKind) -> ReadFault
        ensures { result ≡ ReadFault.Refused (fault_at self.now kind) }
    {
        ReadFault::Refused(SyntaxFault {
            kind,
            line: self.number,
        })
    }

    /// The fault where this line ends and more is needed.
    pub(crate) fn end_fault(&self) -> ReadFault
        ensures { result ≡ ReadFault.Refused (fault_at self.now (end_kind self.now.ended)) }
    {
        if self.ended {
            return self.fault(SyntaxKind::Syntax);
        }
        self.fault(SyntaxKind::BadEscape)
    }
}

// A text without the CR at its end, if there is one.
fn without_return(text: &[u8]) -> &[u8]
    ensures { result.now ≡ without_return text.now }
{
    match text.split_last() {
        None => text,
        Some((last, front)) => {
            if *last == b'\r' {
                return front;
            }
            text
        }
    }
}

// The lines as they stand in the file.
fn file_lines<'a>(alloc: Global, content: &'a [u8]) -> Result<Vec<&'a [u8]>, AllocError>
    ensures { IfOk result (λ lines. texts lines.items ≡ file_lines content.now) }
{
    let mut lines = Vec::new(alloc);
    let mut rest = content;
    while !rest.is_empty() {
        let end = piece_len(b'\n', rest);
        match rest[end..].split_first() {
            None => {
                lines.push(rest)?;
                return Ok(lines);
            }
            Some((_, after)) => {
                lines.push(without_return(&rest[..end]))?;
                rest = after;
            }
        }
    }
    Ok(lines)
}

// Whether a line is blank or a comment.
fn is_dropped(text: &[u8]) -> bool
    ensures { result ≡ is_dropped text.now }
{
    match without_spaces(text).first() {
        None => true,
        Some(byte) => *byte == b'#',
    }
}

// Whether a line ends in a `$` that no `$` before it takes along.
fn ends_alone(text: &[u8]) -> bool
    ensures { result ≡ ends_alone text.now }
{
    let mut takes = false;
    for byte in text {
        takes = !takes & (*byte == b'$');
    }
    takes
}

// A text without its last byte.
fn without_last(text: &[u8]) -> &[u8]
    ensures { result.now ≡ without_last text.now }
{
    match text.split_last() {
        Some((_, front)) => front,
        None => text,
    }
}

// Adds a text to a line, which then ends or goes on in the next line of the file.
fn extend_line(
    lines: &mut Vec<Line>,
    mut line: Line,
    text: &[u8],
) -> Result<Option<Line>, AllocError>
    ensures { IfOk result (λ unended. (m n : ℕ) (more : List (List ℕ)) →
        lines.new.items ++ lines_after unended n more
        ≡ lines.old.items ++ before_first line.number line.text (joined m text.now (lines_from (ends_alone text.now) n more))) }
{
    if ends_alone(text) {
        line.text.extend_from_slice(without_last(text))?;
        return Ok(Some(line));
    }
    line.text.extend_from_slice(text)?;
    line.ended = true;
    lines.push(line)?;
    Ok(None)
}

// Adds a line of the file to the lines, and to the one that it continues, if there is one.
fn add_line(
    alloc: Global,
    lines: &mut Vec<Line>,
    unended: Option<Line>,
    number: u64,
    raw: &[u8],
) -> Result<Option<Line>, AllocError>
    ensures { IfOk result (λ next. (more : List (List ℕ)) →
        lines.new.items ++ lines_after next (suc number) more ≡ lines.old.items ++ lines_after unended number (raw.now ∷ more)) }
{
    match unended {
        Some(line) => extend_line(lines, line, without_spaces(raw)),
        None => {
            if is_dropped(raw) {
                return Ok(None);
            }
            let line = Line {
                number,
                text: Vec::new(alloc),
                ended: false,
            };
            extend_line(lines, line, raw)
        }
    }
}

/// The lines of a file, in time and memory linear in its bytes. They are split at line feeds; each takes one CR before
/// it along. Lines of spaces alone and comments are dropped; a line that ends in a `$` alone goes on in the next,
/// whose leading spaces are left out.
///
/// # Errors
/// [`AllocError`] where an allocation was refused.
pub fn lines_of(alloc: Global, content: &[u8]) -> Result<Vec<Line>, AllocError>
    ensures { IfOk result (λ lines. lines.items ≡ lines_of content.now) }
{
    let raw_lines = file_lines(alloc, content)?;
    let mut lines = Vec::new(alloc);
    let mut unended: Option<Line> = None;
    for (i, raw) in raw_lines.iter().enumerate() {
        unended = add_line(alloc, &mut lines, unended, i as u64 + 1, raw)?;
    }
    match unended {
        None => Ok(lines),
        Some(mut line) => {
            line.ended = false;
            lines.push(line)?;
            Ok(lines)
        }
    }
}
