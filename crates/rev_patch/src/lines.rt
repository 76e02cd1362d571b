//! The lines of a text, and the changes of each.
ghost use Rattle.std.specs.Prelude.{◌≡◌, ◌++◌, map, IfOk, OnOk};
ghost use Rattle.rev_patch.specs.Lines.{edited, edits, line_of, lines_of, lines_of_parts, new_text, edit_of};
ghost use Rattle.rev_fields.specs.Parts.{slices_of};
ghost use Rattle.rev_patch.specs.Noted.{noted, part_lines};

use crate::changes::Change;
use rev_fields::parts_at;
use std::alloc::{AllocError, Global};

/// A line of a text, without its end.
#[derive(Clone, Copy)]
pub(crate) struct Row<'a> {
    /// The line as it is in the file.
    pub(crate) old: &'a [u8],
    /// The changed line. `None` where the line stays.
    pub(crate) new: Option<&'a [u8]>,
    /// Whether a line end follows.
    pub(crate) is_ended: bool,
}

// Adds a part of a text that is cut at LF. What stands behind the last line's end is no line.
fn push_part<'a>(rows: &mut Vec<Row<'a>>, part: &'a [u8], is_ended: bool) -> Result<(), AllocError>
    ensures { OnOk result (map line_of rows.new.items ≡ map line_of rows.old.items ++ part_lines is_ended part.now) }
{
    if is_ended || !part.is_empty() {
        rows.push(Row {
            old: part,
            new: None,
            is_ended,
        })?;
        return Ok(());
    }
    Ok(())
}

// Adds the parts of a text that is cut at LF.
fn push_parts<'a>(rows: &mut Vec<Row<'a>>, parts: &[&'a [u8]]) -> Result<(), AllocError>
    ensures { OnOk result (map line_of rows.new.items
        ≡ map line_of rows.old.items ++ lines_of_parts (slices_of parts.now)) }
{
    for (place, part) in parts.iter().enumerate() {
        push_part(rows, part, place + 1 < parts.len())?;
    }
    Ok(())
}

/// The lines of a text.
pub(crate) fn rows_of(alloc: Global, text: &[u8]) -> Result<Vec<Row<'_>>, AllocError>
    ensures { IfOk result (λ rows. map line_of rows.items ≡ lines_of text.now) }
{
    let parts = parts_at(alloc, text, b'\n')?;
    let mut rows = Vec::with_capacity(alloc, parts.len())?;
    push_parts(&mut rows, &parts)?;
    Ok(rows)
}

// Notes what a line is changed to, unless an earlier change named it.
fn note<'a>(rows: &mut [Row<'a>], change: &'a Change)
    ensures { map line_of rows.new ≡ noted (map line_of rows.old) (edit_of change.now) }
{
    if let Some(row) = rows.get(change.line) {
        if row.new.is_none() {
            rows[change.line] = Row {
                old: row.old,
                new: Some(&change.text),
                is_ended: row.is_ended,
            };
        }
    }
}

/// The lines of a text, each with the first change that names it.
pub(crate) fn edited_rows<'a>(
    alloc: Global,
    text: &'a [u8],
    changes: &'a [Change],
) -> Result<Vec<Row<'a>>, AllocError>
    ensures { IfOk result (λ rows. map line_of rows.items ≡ edited text.now (edits changes.now)) }
{
    let mut rows = rows_of(alloc, text)?;
    for change in changes {
        note(&mut rows, change);
    }
    Ok(rows)
}

/// Appends a line with its end, changed where it has a change.
pub(crate) fn push_new(text: &mut Vec<u8>, row: &Row<'_>) -> Result<(), AllocError>
    ensures { OnOk result (text.new.items ≡ text.old.items ++ new_text (line_of row.now)) }
{
    match row.new {
        Some(new) => text.extend_from_slice(new)?,
        None => text.extend_from_slice(row.old)?,
    }
    if row.is_ended {
        text.push(b'\n')?;
    }
    Ok(())
}
