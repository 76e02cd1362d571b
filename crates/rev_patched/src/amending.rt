//! The changed lines that add outputs, inputs and orders to the files of a manifest.
ghost use Rattle.std.specs.Prelude.{◌≡◌, IfOk, IfSome};
ghost use Rattle.rev_manifest.specs.Seen.{seen_files};
ghost use Rattle.rev_patched.specs.Orders.{patched};
ghost use Rattle.rev_patched.specs.Amended.{IsAmendedBy};

use crate::amended::is_amended;
use crate::orders::{Order, lists_of};
use crate::patching::patched_files;
use crate::spots::{Spots, spots_of};
use rev_manifest::{Build, Manifest};
use rev_patch::{Change, is_written};
use rev_paths::Name;
use std::alloc::{AllocError, Global};

/// What is added to edges: paths behind those that stand there.
#[derive(Debug, Drop)]
pub struct Amendments<'a> {
    /// The paths that edges have as implicit outputs.
    pub outputs: Vec<Order<'a>>,
    /// The paths that edges have as implicit inputs.
    pub inputs: Vec<Order<'a>>,
    /// The paths that edges have as order-only inputs.
    pub orders: Vec<Order<'a>>,
}

// A text that is put in front of a byte of a file.
#[derive(Drop)]
struct Insertion {
    at: usize,
    text: Vec<u8>,
}

// What is added to each edge.
#[derive(Drop)]
struct Lists {
    outputs: Vec<Vec<Name>>,
    inputs: Vec<Vec<Name>>,
    orders: Vec<Vec<Name>>,
}

// The paths of a list at a place; none where there is no list.
fn paths_at(lists: &[Vec<Name>], place: usize) -> &[Name] {
    match lists.get(place) {
        Some(paths) => paths,
        None => &[],
    }
}

impl Lists {
    // What is added to each of so many edges.
    fn new(alloc: Global, edges: usize, amendments: &Amendments<'_>) -> Result<Lists, AllocError> {
        Ok(Lists {
            outputs: lists_of(alloc, edges, &amendments.outputs)?,
            inputs: lists_of(alloc, edges, &amendments.inputs)?,
            orders: lists_of(alloc, edges, &amendments.orders)?,
        })
    }

    // Whether something is added to an edge.
    fn has(&self, edge: usize) -> bool {
        !paths_at(&self.outputs, edge).is_empty()
            || !paths_at(&self.inputs, edge).is_empty()
            || !paths_at(&self.orders, edge).is_empty()
    }
}

// Adds a path as it is written on a build line.
fn push_written(text: &mut Vec<u8>, path: &[u8]) -> Result<(), AllocError> {
    for byte in path {
        if *byte == b'$' || *byte == b' ' || *byte == b':' {
            text.push(b'$')?;
        }
        text.push(*byte)?;
    }
    Ok(())
}

// The text that adds paths to a part of a statement: behind a sign where that is not there.
fn text_of(
    alloc: Global,
    sign: &[u8],
    has_sign: bool,
    paths: &[Name],
) -> Result<Vec<u8>, AllocError> {
    let mut text = Vec::new(alloc);
    if !has_sign {
        text.extend_from_slice(sign)?;
    }
    for path in paths {
        text.push(b' ')?;
        push_written(&mut text, path.as_bytes())?;
    }
    Ok(text)
}

// Adds the insertion of paths at a spot, unless there are none.
fn push_insertion(
    alloc: Global,
    insertions: &mut Vec<Insertion>,
    at: usize,
    sign: &[u8],
    has_sign: bool,
    paths: &[Name],
) -> Result<(), AllocError> {
    if paths.is_empty() {
        return Ok(());
    }
    let text = text_of(alloc, sign, has_sign, paths)?;
    insertions.push(Insertion { at, text })?;
    Ok(())
}

// Adds the insertions into the statement of an edge, in the order of their places.
fn push_statement(
    alloc: Global,
    insertions: &mut Vec<Insertion>,
    spots: Spots,
    lists: &Lists,
    edge: usize,
) -> Result<(), AllocError> {
    let outputs = paths_at(&lists.outputs, edge);
    let inputs = paths_at(&lists.inputs, edge);
    let orders = paths_at(&lists.orders, edge);
    let (outs, ins, last) = (spots.outputs, spots.inputs, spots.orders);
    push_insertion(alloc, insertions, outs.end, b" |", outs.has_sign, outputs)?;
    push_insertion(alloc, insertions, ins.end, b" |", ins.has_sign, inputs)?;
    push_insertion(alloc, insertions, last.end, b" ||", last.has_sign, orders)
}

// The statements that something is added to, each with its line and the first of its edges, by their lines.
fn statements_in(
    alloc: Global,
    builds: &[Build],
    lists: &Lists,
    file: usize,
) -> Result<Vec<(u64, usize)>, AllocError> {
    let mut statements = Vec::new(alloc);
    for (edge, build) in builds.iter().enumerate() {
        if build.file() == file as u64 && lists.has(edge) {
            statements.push((build.line(), edge))?;
        }
    }
    statements.sort_unstable();
    Ok(statements)
}

// The insertions into a file.
fn insertions_in(
    alloc: Global,
    builds: &[Build],
    lists: &Lists,
    file: usize,
    text: &[u8],
    starts: &[usize],
) -> Result<Vec<Insertion>, AllocError> {
    let mut insertions = Vec::new(alloc);
    let mut last = 0;
    for (line, edge) in &statements_in(alloc, builds, lists, file)? {
        if *line != last && *line > 0 {
            if let Some(start) = starts.get((*line - 1) as usize) {
                let spots = spots_of(text, *start);
                push_statement(alloc, &mut insertions, spots, lists, *edge)?;
            }
        }
        last = *line;
    }
    Ok(insertions)
}

// Where each line of a text begins.
fn starts_of(alloc: Global, text: &[u8]) -> Result<Vec<usize>, AllocError> {
    let mut starts = vec![in alloc; 0]?;
    for (place, byte) in text.iter().enumerate() {
        if *byte == b'\n' {
            starts.push(usize::saturating_add(place, 1))?;
        }
    }
    Ok(starts)
}

// The bytes of a text from one place up to another.
fn part_of(text: &[u8], from: usize, to: usize) -> &[u8] {
    let (before, _) = text.split_at(to.min(text.len()));
    before.split_at(from.min(before.len())).1
}

// The line that has a place behind its first byte, by where lines begin.
fn line_at(starts: &[usize], at: usize) -> usize {
    match starts.binary_search(&at) {
        Ok(place) | Err(place) => place.saturating_sub(1),
    }
}

// Where a line ends, by where lines begin.
fn end_of(text: &[u8], starts: &[usize], line: usize) -> usize {
    match starts.get(usize::saturating_add(line, 1)) {
        Some(next) => next.saturating_sub(1),
        None => text.len(),
    }
}

// The changed lines of a text into which others are put, in the order of their places.
fn changes_by(
    alloc: Global,
    text: &[u8],
    starts: &[usize],
    insertions: &[Insertion],
) -> Result<Vec<Change>, AllocError> {
    let mut changes: Vec<Change> = Vec::new(alloc);
    let mut left = 0;
    for insertion in insertions {
        let line = line_at(starts, insertion.at);
        let is_same = changes.last().is_some_and(|change| change.line == line);
        if !is_same {
            end_change(&mut changes, text, starts, left)?;
            left = starts.get(line).copied().unwrap_or(0);
            changes.push(Change {
                line,
                text: Vec::new(alloc),
            })?;
        }
        if let Some(change) = changes.last_mut() {
            change
                .text
                .extend_from_slice(part_of(text, left, insertion.at))?;
            change.text.extend_from_slice(&insertion.text)?;
        }
        left = insertion.at;
    }
    end_change(&mut changes, text, starts, left)?;
    Ok(changes)
}

// Adds to the last change what is left of its line.
fn end_change(
    changes: &mut Vec<Change>,
    text: &[u8],
    starts: &[usize],
    left: usize,
) -> Result<(), AllocError> {
    if let Some(change) = changes.last_mut() {
        let end = end_of(text, starts, change.line);
        change.text.extend_from_slice(part_of(text, left, end))?;
    }
    Ok(())
}

// What is changed in each file.
fn changes_for(
    alloc: Global,
    files: &[(Vec<u8>, Vec<u8>)],
    builds: &[Build],
    amendments: &Amendments<'_>,
) -> Result<Vec<Vec<Change>>, AllocError> {
    let lists = Lists::new(alloc, builds.len(), amendments)?;
    let mut changes = Vec::new(alloc);
    for (file, (_name, text)) in files.iter().enumerate() {
        let starts = starts_of(alloc, text)?;
        let insertions = insertions_in(alloc, builds, &lists, file, text, &starts)?;
        changes.push(changes_by(alloc, text, &starts, &insertions)?)?;
    }
    Ok(changes)
}

// Whether a build line can name each path that is added.
fn are_written(amendments: &Amendments<'_>) -> bool {
    let is_named = |order: &Order<'_>| is_written(order.path.as_bytes());
    amendments.outputs.iter().all(is_named)
        && amendments.inputs.iter().all(is_named)
        && amendments.orders.iter().all(is_named)
}

/// The changed lines of each file that make these additions to a manifest. `files` are the files from which the manifest
/// was read.
///
/// `None` where the changed files do not say the manifest with these additions and nothing else. This is so where one
/// statement makes several edges and not all of them have the same additions, where an output has two producers, where
/// a build line cannot name a path, or where an edge would wait for itself.
///
/// # Errors
/// [`AllocError`] only where an allocation was refused.
pub fn amendments_for(
    alloc: Global,
    files: &[(Vec<u8>, Vec<u8>)],
    old: &Manifest,
    amendments: &Amendments<'_>,
) -> Result<Option<Vec<Vec<Change>>>, AllocError>
    ensures { IfOk result (λ found. IfSome found (λ changes.
        IsAmendedBy old.now amendments.now.outputs.items amendments.now.inputs.items amendments.now.orders.items
        (patched (seen_files files.now) changes.items))) }
{
    if !are_written(amendments) {
        return Ok(None);
    }
    let changes = changes_for(alloc, files, old.builds(), amendments)?;
    let changed = patched_files(alloc, files, &changes)?;
    if is_amended(alloc, &changed, old, amendments)? {
        return Ok(Some(changes));
    }
    Ok(None)
}
