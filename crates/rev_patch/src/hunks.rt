//! Changed lines in the form of `diff -u`.
ghost use Rattle.std.specs.Prelude.{◌≡◌, ◌+◌, ◌-◌, ◌<◌, ◌≤◌, ◌++◌, map, length, IfOk, OnOk};
ghost use Rattle.std.specs.List.{flat_map, slice_range};
ghost use Rattle.rev_patch.specs.Lines.{edited, edits, edit_of, line_of};
ghost use Rattle.rev_patch.specs.Patch.{are_near, end_text, head, hunk, hunk_text, name_line, patch_of, range_text, signed, told};
ghost use Rattle.rev_patch.specs.Runs.{first_run};

use crate::changes::Change;
use crate::lines::{Row, edited_rows};
use rev_fields::push_number;
use std::alloc::{AllocError, Global};

// How many lines stand before and behind a change.
const CONTEXT: usize = 3;

// Adds the end of a line.
fn push_end(patch: &mut Vec<u8>, is_ended: bool) -> Result<(), AllocError>
    ensures { OnOk result (patch.new.items ≡ patch.old.items ++ end_text is_ended) }
{
    if is_ended {
        return patch.extend_from_slice(b"\n");
    }
    patch.extend_from_slice(b"\n\\ No newline at end of file\n")
}

// Adds a line with its sign.
fn push_line(patch: &mut Vec<u8>, sign: u8, line: &[u8], is_ended: bool) -> Result<(), AllocError>
    ensures { OnOk result (patch.new.items ≡ patch.old.items ++ signed sign line.now is_ended) }
{
    patch.push(sign)?;
    patch.extend_from_slice(line)?;
    push_end(patch, is_ended)
}

// Adds a line as it was, and as it is now if it changes.
fn push_told(patch: &mut Vec<u8>, row: &Row<'_>) -> Result<(), AllocError>
    ensures { OnOk result (patch.new.items ≡ patch.old.items ++ told (line_of row.now)) }
{
    match row.new {
        Some(new) => {
            push_line(patch, b'-', row.old, row.is_ended)?;
            push_line(patch, b'+', new, row.is_ended)
        }
        None => push_line(patch, b' ', row.old, row.is_ended),
    }
}

// Adds the place and the length of a hunk.
fn push_range(patch: &mut Vec<u8>, sign: u8, first: usize, count: usize) -> Result<(), AllocError>
    ensures { OnOk result (patch.new.items ≡ patch.old.items ++ range_text sign first count) }
{
    patch.push(sign)?;
    push_number(patch, first as u64)?;
    patch.push(b',')?;
    push_number(patch, count as u64)
}

// Adds the head of a hunk.
fn push_head(patch: &mut Vec<u8>, first: usize, count: usize) -> Result<(), AllocError>
    ensures { OnOk result (patch.new.items ≡ patch.old.items ++ head first count) }
{
    patch.extend_from_slice(b"@@ ")?;
    push_range(patch, b'-', first, count)?;
    patch.push(b' ')?;
    push_range(patch, b'+', first, count)?;
    patch.extend_from_slice(b" @@\n")
}

// Adds lines, each as it was, and as it is now if it changes.
fn push_lines(patch: &mut Vec<u8>, rows: &[Row<'_>]) -> Result<(), AllocError>
    ensures { OnOk result (patch.new.items ≡ patch.old.items ++ flat_map told (map line_of rows.now)) }
{
    for row in rows {
        push_told(patch, row)?;
    }
    Ok(())
}

// The lines from three before one place to three behind another, as far as there are lines.
fn around<'r, 'a>(rows: &'r [Row<'a>], first: usize, last: usize) -> &'r [Row<'a>]
    ensures { map line_of result.now ≡ slice_range (map line_of rows.now) (first - 3) (last + 4) }
{
    let from = first.saturating_sub(CONTEXT);
    let to = last.saturating_add(CONTEXT + 1);
    let (_, behind) = rows.split_at(from.min(rows.len()));
    let (part, _) = behind.split_at(to.saturating_sub(from).min(behind.len()));
    part
}

// Adds a hunk of lines, the first of which has this number.
fn push_hunk_of(patch: &mut Vec<u8>, first: usize, rows: &[Row<'_>]) -> Result<(), AllocError>
    ensures { OnOk result (patch.new.items ≡ patch.old.items ++ hunk_text first (map line_of rows.now)) }
{
    push_head(patch, first, rows.len())?;
    push_lines(patch, rows)?;
    Ok(())
}

// The number of the line at which the hunk of a change begins, from 1.
fn first_line(change: &Change) -> usize
    ensures { result ≡ change.now.line - 3 + 1 }
{
    let line = change.line;
    if line < CONTEXT {
        1
    } else {
        line - CONTEXT + 1
    }
}

// Adds the hunk of changes that stand near each other.
fn push_hunk(patch: &mut Vec<u8>, rows: &[Row<'_>], changes: &[Change]) -> Result<(), AllocError>
    ensures { OnOk result (patch.new.items ≡ patch.old.items ++ hunk (map line_of rows.now) (edits changes.now)) }
{
    let Some(first) = changes.first() else {
        return Ok(());
    };
    let Some(last) = changes.last() else {
        return Ok(());
    };
    let part = around(rows, first.line, last.line);
    push_hunk_of(patch, first_line(first), part)?;
    Ok(())
}

// Adds a line that names the file.
fn push_name(patch: &mut Vec<u8>, sign: &[u8], name: &[u8]) -> Result<(), AllocError>
    ensures { OnOk result (patch.new.items ≡ patch.old.items ++ name_line sign.now name.now) }
{
    patch.extend_from_slice(sign)?;
    patch.extend_from_slice(name)?;
    // So a name with spaces ends where it does.
    if name.contains(&b' ') {
        patch.push(b'\t')?;
    }
    patch.push(b'\n')?;
    Ok(())
}

// Whether one hunk has both changes, since the lines around them meet or touch.
fn are_near(one: &Change, other: &Change) -> bool
    ensures { result ≡ are_near (edit_of one.now) (edit_of other.now) }
{
    other.line.saturating_sub(one.line) <= 2 * CONTEXT + 1
}

// How many changes the first hunk has.
fn first_hunk(changes: &[Change]) -> usize
    ensures run { result ≡ first_run are_near (edits changes.now) }
    ensures within { result ≤ length changes.now }
    ensures some { 0 < length changes.now → 0 < result }
{
    let Some((first, rest)) = changes.split_first() else {
        return 0;
    };
    let mut last = first;
    for (number, change) in rest.iter().enumerate() {
        if !are_near(last, change) {
            return number + 1;
        }
        last = change;
    }
    changes.len()
}

/// The changes of a file in the form of `diff -u`, which `patch -p0` takes; empty where nothing changes. `changes`
/// stand in the order of their lines.
///
/// # Errors
/// [`AllocError`] only where an allocation was refused.
pub fn patch_text(
    alloc: Global,
    name: &[u8],
    text: &[u8],
    changes: &[Change],
) -> Result<Vec<u8>, AllocError>
    ensures { IfOk result (λ patch. patch.items
        ≡ patch_of name.now (edited text.now (edits changes.now)) (edits changes.now)) }
{
    let mut patch = Vec::new(alloc);
    if changes.is_empty() {
        return Ok(patch);
    }
    push_name(&mut patch, b"--- ", name)?;
    push_name(&mut patch, b"+++ ", name)?;
    let rows = edited_rows(alloc, text, changes)?;
    let mut rest = changes;
    while 0 < rest.len() {
        let (group, further) = rest.split_at(first_hunk(rest));
        push_hunk(&mut patch, &rows, group)?;
        rest = further;
    }
    Ok(patch)
}
