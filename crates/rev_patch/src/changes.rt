//! Lines of a manifest's file to which order-only inputs are added.
ghost use Rattle.std.specs.Prelude.{◌≡◌, ◌≤◌, ◌<◌, ◌==◌, ◌||◌, not, ◌++◌, Some, map, length, take, drop, IfOk, OnOk};
ghost use Rattle.std.specs.List.{flat_map, list_all};
ghost use Rattle.rev_patch.specs.Additions.{added, edit_at, edits_for, edits_of, is_written, paths_text, place_for, same_line, spaced_path, texts_of, unless, written, written_byte};
ghost use Rattle.rev_patch.specs.Lines.{edit_of, edited, edits, line_of, new_text};
ghost use Rattle.rev_patch.specs.Runs.{first_run};

use crate::lines::{Row, edited_rows, push_new, rows_of};
use crate::statement::{Place, place_of};
use std::alloc::{AllocError, Global};

/// An order-only input that is added to a build statement.
#[derive(Clone, Copy, Debug, PartialEq, Eq)]
pub struct Addition<'a> {
    /// The line at which the statement begins, from 1.
    pub line: u64,
    /// The path itself, not its spelling in a manifest.
    pub path: &'a [u8],
}

/// A line that is changed.
#[derive(Debug, Drop)]
pub struct Change {
    /// The number of the line, from 0.
    pub line: usize,
    /// The text of the changed line, without the line's end.
    pub text: Vec<u8>,
}

/// Whether a build line can name this path. It cannot name a path with a `|` or a line end, since no escape exists for
/// these bytes.
pub fn is_written(path: &[u8]) -> bool
    ensures { result ≡ is_written path.now }
{
    !path.contains(&b'|') && !path.contains(&b'\n') && !path.contains(&b'\r')
}

// Whether the paths of additions can.
fn are_written(additions: &[Addition<'_>]) -> bool
    ensures { result ≡ list_all (λ a. is_written a.path.now) additions.now }
{
    for addition in additions {
        if !is_written(addition.path) {
            return false;
        }
    }
    true
}

// Adds a path as it is written on a build line.
fn push_path(text: &mut Vec<u8>, path: &[u8]) -> Result<(), AllocError>
    ensures { OnOk result (text.new.items ≡ text.old.items ++ written path.now) }
{
    for byte in path {
        push_byte(text, *byte)?;
    }
    Ok(())
}

// Adds a byte as it is written on a build line.
fn push_byte(text: &mut Vec<u8>, byte: u8) -> Result<(), AllocError>
    ensures { OnOk result (text.new.items ≡ text.old.items ++ written_byte byte) }
{
    if byte == b'$' || byte == b' ' || byte == b':' {
        text.push(b'$')?;
        text.push(byte)?;
        return Ok(());
    }
    text.push(byte)?;
    Ok(())
}

// Adds the paths of additions, each behind a space.
fn push_spaced(text: &mut Vec<u8>, additions: &[Addition<'_>]) -> Result<(), AllocError>
    ensures { OnOk result (text.new.items ≡ text.old.items ++ flat_map spaced_path additions.now) }
{
    for addition in additions {
        text.push(b' ')?;
        push_path(text, addition.path)?;
    }
    Ok(())
}

// Adds the paths of additions, with a space between each two.
fn push_paths(text: &mut Vec<u8>, additions: &[Addition<'_>]) -> Result<(), AllocError>
    ensures { OnOk result (text.new.items ≡ text.old.items ++ paths_text additions.now) }
{
    let Some((first, others)) = additions.split_first() else {
        return Ok(());
    };
    push_path(text, first.path)?;
    push_spaced(text, others)?;
    Ok(())
}

// Adds bytes, unless they are to be left out.
fn push_unless(text: &mut Vec<u8>, is_left_out: bool, bytes: &[u8]) -> Result<(), AllocError>
    ensures { OnOk result (text.new.items ≡ text.old.items ++ unless is_left_out bytes.now) }
{
    if is_left_out {
        return Ok(());
    }
    text.extend_from_slice(bytes)
}

// Adds what is added to a statement.
fn push_added(
    text: &mut Vec<u8>,
    place: Place,
    additions: &[Addition<'_>],
) -> Result<(), AllocError>
    ensures { OnOk result (text.new.items ≡ text.old.items ++ added place additions.now) }
{
    text.push(b' ')?;
    push_unless(text, place.has_sign, b"|| ")?;
    push_paths(text, additions)?;
    Ok(())
}

// The line of a place with what is added there.
fn changed_line(
    alloc: Global,
    line: &[u8],
    place: Place,
    additions: &[Addition<'_>],
) -> Result<Vec<u8>, AllocError>
    ensures { IfOk result (λ text. text.items
        ≡ take place.at line.now ++ added place additions.now ++ drop place.at line.now) }
{
    let (before, behind) = line.split_at(place.at.min(line.len()));
    let mut text = Vec::new(alloc);
    text.extend_from_slice(before)?;
    push_added(&mut text, place, additions)?;
    text.extend_from_slice(behind)?;
    Ok(text)
}

// Adds the change for additions that are put at a place.
fn push_change_at(
    alloc: Global,
    changes: &mut Vec<Change>,
    rows: &[Row<'_>],
    place: Place,
    additions: &[Addition<'_>],
) -> Result<(), AllocError>
    ensures { OnOk result (edits changes.new.items
        ≡ edits changes.old.items ++ edit_at (texts_of (map line_of rows.now)) additions.now (Some place)) }
{
    let Some(row) = rows.get(place.line) else {
        return Ok(());
    };
    let text = changed_line(alloc, row.old, place, additions)?;
    changes.push(Change {
        line: place.line,
        text,
    })?;
    Ok(())
}

// Whether additions are left out, by the line of the first: it is no line, or a path is none that can be written.
fn is_left_out(line: u64, additions: &[Addition<'_>]) -> bool
    ensures { result ≡ (line == 0 || not (list_all (λ a. is_written a.path.now) additions.now)) }
{
    line == 0 || !are_written(additions)
}

// Where the additions to one statement are put; none where they are left out.
fn place_for(rows: &[Row<'_>], additions: &[Addition<'_>]) -> Option<Place>
    ensures { result ≡ place_for (texts_of (map line_of rows.now)) additions.now }
{
    let Some(first) = additions.first() else {
        return None;
    };
    if is_left_out(first.line, additions) {
        return None;
    }
    place_of(rows, first.line.saturating_sub(1) as usize)
}

// Adds the change for the additions to one statement.
fn push_change(
    alloc: Global,
    changes: &mut Vec<Change>,
    rows: &[Row<'_>],
    additions: &[Addition<'_>],
) -> Result<(), AllocError>
    ensures { OnOk result (edits changes.new.items
        ≡ edits changes.old.items ++ edits_for (texts_of (map line_of rows.now)) additions.now) }
{
    let Some(place) = place_for(rows, additions) else {
        return Ok(());
    };
    push_change_at(alloc, changes, rows, place, additions)?;
    Ok(())
}

// How many additions are to the first statement.
fn first_statement(additions: &[Addition<'_>]) -> usize
    ensures run { result ≡ first_run same_line additions.now }
    ensures within { result ≤ length additions.now }
    ensures some { 0 < length additions.now → 0 < result }
{
    let Some((first, rest)) = additions.split_first() else {
        return 0;
    };
    let mut last = first;
    for (number, addition) in rest.iter().enumerate() {
        if last.line != addition.line {
            return number + 1;
        }
        last = addition;
    }
    additions.len()
}

/// The changed lines of a file to which these order-only inputs are added. `additions` stand in the order of their
/// lines, so those of one statement stand side by side.
///
/// The paths are put after the last path or sign before the statement's validations, with `||` where the statement has
/// none. Each `$`, space and `:` of a path is written with a `$` before it. A statement is left as it is where no line
/// of the file has its number, or where no build line can name one of the paths added to it.
///
/// # Errors
/// [`AllocError`] only where an allocation was refused.
pub fn changes_of(
    alloc: Global,
    text: &[u8],
    additions: &[Addition<'_>],
) -> Result<Vec<Change>, AllocError>
    ensures { IfOk result (λ changes. edits changes.items ≡ edits_of text.now additions.now) }
{
    let rows = rows_of(alloc, text)?;
    let mut changes = Vec::new(alloc);
    let mut at = 0;
    while at < additions.len() {
        let (_, rest) = additions.split_at(at);
        let (group, _) = rest.split_at(first_statement(rest));
        push_change(alloc, &mut changes, &rows, group)?;
        at += group.len();
    }
    Ok(changes)
}

/// The text with the changed lines in place of the old ones. Where several changes name one line, the first counts. All
/// other lines and all line ends stay as they are.
///
/// # Errors
/// [`AllocError`] only where an allocation was refused.
pub fn changed_text(alloc: Global, text: &[u8], changes: &[Change]) -> Result<Vec<u8>, AllocError>
    ensures { IfOk result (λ changed. changed.items ≡ flat_map new_text (edited text.now (edits changes.now))) }
{
    let mut changed = Vec::new(alloc);
    for row in &edited_rows(alloc, text, changes)? {
        push_new(&mut changed, row)?;
    }
    Ok(changed)
}
