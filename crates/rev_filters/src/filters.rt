//! Filters, from their texts.
ghost use Rattle.std.specs.Prelude.{◌≡◌, filter, position, Some, None, IfOk, OnOk, IsErrOf};
ghost use Rattle.std.specs.List.{list_any};
ghost use Rattle.rev_fields.specs.Lines.{is_blank};
ghost use Rattle.rev_fields.specs.Parts.{slices_of, vectors_of};
ghost use Rattle.rev_filters.specs.declared.faults.Fault.{Fault};
ghost use Rattle.rev_filters.specs.Texts.{fault_of, has_gap as has_gap_of, is_pattern as is_pattern_of, patterns_of};

use crate::faults::{Fault, FaultKind, MAX_BYTES, ReadFault};
use rev_fields::parts_at;
use std::alloc::{AllocError, Global};
use std::marker::Model;

/// Patterns, in the order of their lines. Each hides paths of an observation.
#[derive(Debug, Drop)]
pub struct Filters {
    patterns: Vec<Vec<u8>>,
}

impl Model for Filters {
    ghost use Rattle.std.specs.Prelude.{List, ℕ};
    ghost use Rattle.rev_fields.specs.Parts.{vectors_of};

    ghost Value = { List (List ℕ) };

    ghost view = { λ f. vectors_of f.patterns.items };
}

impl Filters {
    /// The patterns.
    pub(crate) fn patterns(&self) -> &[Vec<u8>]
        ensures { vectors_of result.now ≡ self.now }
    {
        self.patterns.as_slice()
    }
}

// Whether a line is a pattern, and no remark.
fn is_pattern(line: &[u8]) -> bool
    ensures { result ≡ is_pattern_of line.now }
{
    match line {
        [] => false,
        [first, ..] => *first != b'#',
    }
}

// Whether one of the parts is empty.
fn any_blank(parts: &[&[u8]]) -> bool
    ensures { result ≡ list_any is_blank (slices_of parts.now) }
{
    for part in parts {
        if part.is_empty() {
            return true;
        }
    }
    false
}

// Whether a line is a pattern with nothing between two slashes, or behind the last one.
fn has_gap(alloc: Global, line: &[u8]) -> Result<bool, AllocError>
    ensures { IfOk result (λ gap. gap ≡ has_gap_of line.now) }
{
    if !is_pattern(line) {
        return Ok(false);
    }
    let parts = parts_at(alloc, line, b'/')?;
    Ok(any_blank(&parts[1..]))
}

// The place of the first line that has a gap.
fn first_gap(alloc: Global, lines: &[&[u8]]) -> Result<Option<usize>, AllocError>
    ensures { IfOk result (λ place. place ≡ position has_gap_of (slices_of lines.now)) }
{
    for (place, line) in lines.iter().enumerate() {
        if has_gap(alloc, line)? {
            return Ok(Some(place));
        }
    }
    Ok(None)
}

// The lines that are patterns.
fn patterns(alloc: Global, lines: &[&[u8]]) -> Result<Vec<Vec<u8>>, AllocError>
    ensures { IfOk result (λ patterns. vectors_of patterns.items ≡ filter is_pattern_of (slices_of lines.now)) }
{
    let mut patterns = Vec::new(alloc);
    for line in lines {
        if is_pattern(line) {
            patterns.push(Vec::from_slice(alloc, line)?)?;
        }
    }
    Ok(patterns)
}

/// Reads patterns, one a line: an empty line is a remark, and so is one that begins with `#`. The last line may be
/// without its LF. It takes time linear in the bytes.
///
/// # Errors
/// [`ReadFault::Numbered`] with the first fault of the text. [`ReadFault::Memory`] only where an allocation was refused.
pub fn read(alloc: Global, text: &[u8]) -> Result<Filters, ReadFault>
    ensures patterns { IfOk result (λ filters. filters ≡ patterns_of text.now) }
    ensures faultless { OnOk result (fault_of text.now ≡ None) }
    ensures fault { (f : Fault) → IsErrOf result (ReadFault.Numbered f) → fault_of text.now ≡ Some f }
{
    if text.len() > MAX_BYTES {
        return Err(ReadFault::Numbered(Fault {
            kind: FaultKind::Long,
            line: 0,
        }));
    }
    let lines = parts_at(alloc, text, b'\n')?;
    if let Some(place) = first_gap(alloc, &lines)? {
        return Err(ReadFault::Numbered(Fault {
            kind: FaultKind::Syntax,
            line: place as u64 + 1,
        }));
    }
    let patterns = patterns(alloc, &lines)?;
    Ok(Filters { patterns })
}
