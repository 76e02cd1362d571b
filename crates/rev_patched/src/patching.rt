//! The changed lines that add orders to the files of a manifest.
ghost use Rattle.std.specs.Prelude.{◌≡◌, ◌≤◌, length, slice_get, IfOk, IfSome};
ghost use Rattle.std.specs.Option.{option_copied};
ghost use Rattle.rev_manifest.specs.Seen.{seen_files};
ghost use Rattle.rev_patched.specs.Orders.{IsPatched, patched, patched_file, seen_file};

use crate::check::is_patched;
use crate::orders::{Order, lists_of};
use rev_manifest::{Build, Manifest};
use rev_patch::{Addition, Change, changed_text, changes_of};
use rev_paths::Name;
use std::alloc::{AllocError, Global};

// The build statement of an edge that has orders: its file, its line, and the edge.
type Statement = [u64; 3];

// The statements of the edges that have orders, by file and line.
fn statements_of(
    alloc: Global,
    builds: &[Build],
    lists: &[Vec<Name>],
) -> Result<Vec<Statement>, AllocError> {
    let mut statements = Vec::new(alloc);
    for (edge, build) in builds.iter().enumerate() {
        if lists.get(edge).is_some_and(|list| !list.is_empty()) {
            statements.push([build.file(), build.line(), edge as u64])?;
        }
    }
    statements.sort_unstable();
    Ok(statements)
}

// How many of these statements, from the first on, stand in a file.
fn count_in(statements: &[Statement], file: u64) -> usize
    ensures { result ≤ length statements.now }
{
    for (number, statement) in statements.iter().enumerate() {
        if statement[0] != file {
            return number;
        }
    }
    statements.len()
}

// What is added to a file, by the statements that stand in it. One statement can make several edges, each with the same
// orders.
fn additions_to<'a>(
    alloc: Global,
    statements: &[Statement],
    lists: &'a [Vec<Name>],
) -> Result<Vec<Addition<'a>>, AllocError> {
    let mut additions = Vec::new(alloc);
    let mut last = 0;
    for statement in statements {
        let [_file, line, edge] = *statement;
        if line != last {
            if let Some(list) = lists.get(edge as usize) {
                push_additions(&mut additions, line, list)?;
            }
        }
        last = line;
    }
    Ok(additions)
}

// Adds what is added to one statement.
fn push_additions<'a>(
    additions: &mut Vec<Addition<'a>>,
    line: u64,
    paths: &'a [Name],
) -> Result<(), AllocError> {
    for path in paths {
        additions.push(Addition {
            line,
            path: path.as_bytes(),
        })?;
    }
    Ok(())
}

// What is changed in each file.
fn changes_for(
    alloc: Global,
    files: &[(Vec<u8>, Vec<u8>)],
    builds: &[Build],
    orders: &[Order<'_>],
) -> Result<Vec<Vec<Change>>, AllocError> {
    let lists = lists_of(alloc, builds.len(), orders)?;
    let statements = statements_of(alloc, builds, &lists)?;
    let mut rest = statements.as_slice();
    let mut changes = Vec::new(alloc);
    for (file, (_name, text)) in files.iter().enumerate() {
        let (here, behind) = rest.split_at(count_in(rest, file as u64));
        let additions = additions_to(alloc, here, &lists)?;
        changes.push(changes_of(alloc, text, &additions)?)?;
        rest = behind;
    }
    Ok(changes)
}

// A file with its lines changed; where there are no changes of it, as it is.
fn patched_file(
    alloc: Global,
    file: &(Vec<u8>, Vec<u8>),
    changes: Option<&Vec<Change>>,
) -> Result<(Vec<u8>, Vec<u8>), AllocError>
    ensures { IfOk result (λ patched. seen_file patched ≡ patched_file (seen_file file.now) (option_copied changes.entry)) }
{
    let name = file.0.clone()?;
    let text = match changes {
        Some(changes) => changed_text(alloc, &file.1, changes)?,
        None => file.1.clone()?,
    };
    Ok((name, text))
}

// The changes of a file, by its number, where there are some.
fn changes_at(changes: &[Vec<Change>], number: usize) -> Option<&Vec<Change>>
    ensures { option_copied result ≡ slice_get changes.now number }
{
    if number < changes.len() {
        return Some(&changes[number]);
    }
    None
}

/// The files with their lines changed.
///
/// # Errors
/// [`AllocError`] only where an allocation was refused.
pub(crate) fn patched_files(
    alloc: Global,
    files: &[(Vec<u8>, Vec<u8>)],
    changes: &[Vec<Change>],
) -> Result<Vec<(Vec<u8>, Vec<u8>)>, AllocError>
    ensures { IfOk result (λ changed. seen_files changed.items ≡ patched (seen_files files.now) changes.now) }
{
    let mut changed = Vec::new(alloc);
    for (number, file) in files.iter().enumerate() {
        changed.push(patched_file(alloc, file, changes_at(changes, number))?)?;
    }
    Ok(changed)
}

/// The changed lines of each file that add these orders to a manifest. `files` are the files from which the manifest
/// was read.
///
/// `None` where the changed files do not say the manifest with these orders and nothing else. This is so where one
/// statement makes several edges and not all of them have the order, or where an edge would wait for itself. The caller
/// sees to it that a build line can name the path of each order ([`writable_output`]), and that the edges of one
/// statement have the same orders. The time is linear in the files, and `n log n` in the orders.
///
/// # Errors
/// [`AllocError`] only where an allocation was refused.
///
/// [`writable_output`]: crate::writable_output
pub fn patch_for(
    alloc: Global,
    files: &[(Vec<u8>, Vec<u8>)],
    old: &Manifest,
    orders: &[Order<'_>],
) -> Result<Option<Vec<Vec<Change>>>, AllocError>
    ensures { IfOk result (λ found. IfSome found (λ changes.
        IsPatched old.now orders.now (patched (seen_files files.now) changes.items))) }
{
    let changes = changes_for(alloc, files, old.builds(), orders)?;
    let changed = patched_files(alloc, files, &changes)?;
    if is_patched(alloc, &changed, old, orders)? {
        return Ok(Some(changes));
    }
    Ok(None)
}
