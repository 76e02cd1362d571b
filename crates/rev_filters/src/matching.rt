//! Whether a part of a pattern matches a component of a path.
ghost use Rattle.std.specs.Prelude.{◌≡◌, ◌+◌, ◌&&◌, ◌||◌, ℕ, List, Bool, length, IfOk};
ghost use Rattle.std.specs.List.{list_any};
ghost use Rattle.rev_fields.specs.Lines.{is_blank};
ghost use Rattle.rev_fields.specs.Parts.{slices_of};
ghost use Rattle.rev_filters.specs.Patterns.{after, begins as begins_of, hides_by as hides_of, matches as matches_of, some_end};
ghost use Rattle.rev_filters.specs.Rows.{IsRow};

use std::alloc::{AllocError, Global};

// A row for the end of a pattern: the bytes that are left have to be none.
fn last_row(alloc: Global, bytes: &[u8]) -> Result<Vec<bool>, AllocError>
    ensures { IfOk result (λ row. IsRow is_blank bytes.now row.items) }
{
    let mut row = vec![in alloc; false; bytes.len() + 1]?;
    row[bytes.len()] = true;
    Ok(row)
}

// One of two tests, or the other.
fn either(one: bool, other: bool) -> bool
    ensures { result ≡ (one || other) }
{
    one || other
}

// Both of two tests.
fn both(one: bool, other: bool) -> bool
    ensures { result ≡ (one && other) }
{
    one && other
}

// The row for `*` before what a row is for.
fn spread(row: &mut Vec<bool>)
    ensures { (passes : List ℕ → Bool) (bytes : List ℕ) → IsRow passes bytes row.old.items
        → IsRow (some_end passes) bytes row.new.items }
{
    let mut place = row.len();
    let mut any = false;
    while place > 0 {
        place -= 1;
        let here = row[place];
        any = either(here, any);
        row[place] = any;
    }
}

// The row for a byte before what a row is for.
fn step(bytes: &[u8], byte: u8, row: &mut Vec<bool>)
    requires { length row.old.items ≡ length bytes.now + 1 }
    ensures { (passes : List ℕ → Bool) → IsRow passes bytes.now row.old.items
        → IsRow (after byte passes) bytes.now row.new.items }
{
    for place in 0..bytes.len() {
        let next = row[place + 1];
        let here = bytes[place] == byte;
        row[place] = both(here, next);
    }
    row[bytes.len()] = false;
}

// Whether a part matches bytes, by a row for each of its ends.
fn matches_by_rows(alloc: Global, part: &[u8], bytes: &[u8]) -> Result<bool, AllocError>
    ensures { IfOk result (λ found. found ≡ matches_of part.now bytes.now) }
{
    let mut row = last_row(alloc, bytes)?;
    let mut place = part.len();
    while place > 0 {
        place -= 1;
        let byte = part[place];
        if byte == b'*' {
            spread(&mut row);
        } else {
            step(bytes, byte, &mut row);
        }
    }
    Ok(row[0])
}

/// Whether a pattern matches all of some bytes: in it `*` stands for any bytes, also for none, and every other byte for
/// itself. What stands before the first `*` is compared byte by byte; the rest takes time linear in the bytes of the
/// pattern times those that are matched.
///
/// # Errors
/// [`AllocError`] only where an allocation was refused.
pub fn matches(alloc: Global, part: &[u8], bytes: &[u8]) -> Result<bool, AllocError>
    ensures { IfOk result (λ found. found ≡ matches_of part.now bytes.now) }
{
    for (place, byte) in part.iter().enumerate() {
        if *byte == b'*' {
            return matches_by_rows(alloc, &part[place..], &bytes[place..]);
        }
        if place >= bytes.len() || bytes[place] != *byte {
            return Ok(false);
        }
    }
    Ok(bytes.len() == part.len())
}

// Whether a part matches one of the components.
fn matches_one(alloc: Global, part: &[u8], components: &[&[u8]]) -> Result<bool, AllocError>
    ensures { IfOk result (λ found. found ≡ list_any (matches_of part.now) (slices_of components.now)) }
{
    for component in components {
        if matches(alloc, part, component)? {
            return Ok(true);
        }
    }
    Ok(false)
}

// Whether parts match the first components, one by one.
fn begins(alloc: Global, parts: &[&[u8]], components: &[&[u8]]) -> Result<bool, AllocError>
    ensures { IfOk result (λ found. found ≡ begins_of (slices_of parts.now) (slices_of components.now)) }
{
    for (place, part) in parts.iter().enumerate() {
        if place >= components.len() {
            return Ok(false);
        }
        if !matches(alloc, part, components[place])? {
            return Ok(false);
        }
    }
    Ok(true)
}

/// Whether a pattern of these parts hides a path of these components.
///
/// # Errors
/// [`AllocError`] only where an allocation was refused.
pub(crate) fn hides_by(
    alloc: Global,
    parts: &[&[u8]],
    components: &[&[u8]],
) -> Result<bool, AllocError>
    ensures { IfOk result (λ found. found ≡ hides_of (slices_of parts.now) (slices_of components.now)) }
{
    match parts {
        [] => Ok(false),
        [part] => matches_one(alloc, part, components),
        _ => begins(alloc, parts, components),
    }
}
