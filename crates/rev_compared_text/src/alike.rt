//! Entries of a section that are alike, so that one of them is told for all.
use crate::changes::{flags_that_differ, inputs_alone, other_part};
use crate::facts::{Changed, Differing};
use crate::reads::{beside, listed};
use crate::side::{Side, ending_word};
use indexmap::IndexMap;
use rev_manifest::Build;
use rev_races_text::Shown;
use std::alloc::{AllocError, Global};

/// How many groups there are at most whose entries are alike in each detail. Where there are more, those are alike that
/// differ in the same kinds of things.
pub(crate) const FEW: usize = 5;

/// Entries that are alike.
#[derive(Clone, Copy)]
pub(crate) struct Group {
    /// The place of the first of them in the section.
    pub(crate) first: usize,
    /// How many there are.
    pub(crate) count: usize,
}

// Counts an entry among those with the same key.
fn count_in(
    groups: &mut IndexMap<Vec<u8>, Group>,
    key: Vec<u8>,
    place: usize,
) -> Result<(), AllocError> {
    if let Some(group) = groups.get_mut(key.as_slice()) {
        group.count = group.count.saturating_add(1);
        return Ok(());
    }
    groups.insert(
        key,
        Group {
            first: place,
            count: 1,
        },
    )?;
    Ok(())
}

// The groups, without their keys.
fn groups_of(alloc: Global, groups: &IndexMap<Vec<u8>, Group>) -> Result<Vec<Group>, AllocError> {
    let mut all = Vec::new(alloc);
    for group in groups.values() {
        all.push(*group)?;
    }
    Ok(all)
}

// Adds names to a key, each behind a byte that no name has.
fn push_names(key: &mut Vec<u8>, names: &[Shown<'_>]) -> Result<(), AllocError> {
    for name in names {
        key.push(0)?;
        key.extend_from_slice(name.0)?;
    }
    key.push(b'\n')?;
    Ok(())
}

// Adds the inputs that two statements do not share.
fn push_inputs(
    alloc: Global,
    key: &mut Vec<u8>,
    build: &Build,
    other: &Build,
) -> Result<(), AllocError> {
    push_names(key, &inputs_alone(alloc, build, other)?)?;
    push_names(key, &inputs_alone(alloc, other, build)?)
}

// Adds the details that statements which differ alike have in common: the inputs that they do not share, and the parts
// in which their commands differ.
fn push_details(
    alloc: Global,
    key: &mut Vec<u8>,
    changed: &Changed,
    build: &Build,
    other: &Build,
) -> Result<(), AllocError> {
    if changed.changes.inputs {
        push_inputs(alloc, key, build, other)?;
    }
    if changed.changes.command {
        key.extend_from_slice(other_part(build.command(), other.command()))?;
        key.push(0)?;
        key.extend_from_slice(other_part(other.command(), build.command()))?;
    }
    Ok(())
}

// A byte for each of two answers.
fn answer_byte(is: bool) -> u8 {
    if is { b'+' } else { b'-' }
}

// Adds what of two statements differs.
fn push_kinds<'a>(
    alloc: Global,
    key: &mut Vec<u8>,
    one: Side<'a>,
    build: &Build,
    other: Side<'a>,
    twin: &Build,
    changed: &Changed,
) -> Result<(), AllocError> {
    let changes = changed.changes;
    key.push(answer_byte(changes.outputs))?;
    key.push(answer_byte(changes.inputs))?;
    key.push(answer_byte(changes.command))?;
    push_names(key, &flags_that_differ(alloc, one, build, other, twin)?)
}

// What statements that differ alike have in common: the kinds of what differs, and, where asked, the details.
fn key_of_change<'a>(
    alloc: Global,
    one: Side<'a>,
    other: Side<'a>,
    changed: &Changed,
    has_details: bool,
) -> Result<Vec<u8>, AllocError> {
    let mut key = Vec::new(alloc);
    if let (Some(build), Some(twin)) = (one.build(changed.edge), other.build(changed.twin)) {
        push_kinds(alloc, &mut key, one, build, other, twin, changed)?;
        if has_details {
            push_details(alloc, &mut key, changed, build, twin)?;
        }
    }
    Ok(key)
}

// The groups of statements that differ alike. Where the details count, no more are made than one too many.
fn grouped_changes<'a>(
    alloc: Global,
    one: Side<'a>,
    other: Side<'a>,
    changed: &[Changed],
    has_details: bool,
) -> Result<Vec<Group>, AllocError> {
    let mut groups = IndexMap::new(alloc);
    for (place, change) in changed.iter().enumerate() {
        if !has_details || groups.len() <= FEW {
            let key = key_of_change(alloc, one, other, change, has_details)?;
            count_in(&mut groups, key, place)?;
        }
    }
    groups_of(alloc, &groups)
}

/// The groups of statements that differ alike, in the order of their first ones.
pub(crate) fn alike_changes<'a>(
    alloc: Global,
    one: Side<'a>,
    other: Side<'a>,
    changed: &[Changed],
) -> Result<Vec<Group>, AllocError> {
    let groups = grouped_changes(alloc, one, other, changed, true)?;
    if groups.len() <= FEW {
        return Ok(groups);
    }
    grouped_changes(alloc, one, other, changed, false)
}

// Adds the paths that are listed as read by one of two runs alone.
fn push_reads<'a>(
    alloc: Global,
    key: &mut Vec<u8>,
    one: Side<'a>,
    other: Side<'a>,
    d: &Differing,
) -> Result<(), AllocError> {
    let here = listed(alloc, one, d.edge, &d.last)?;
    let there = listed(alloc, other, d.twin, &d.other)?;
    push_names(key, &beside(alloc, here.as_slice(), there.as_slice())?)?;
    push_names(key, &beside(alloc, there.as_slice(), here.as_slice())?)
}

// What runs that differ alike have in common: how the commands ended, the kinds of what differs, and, where asked, the
// paths that one of them alone lists as read.
fn key_of_run<'a>(
    alloc: Global,
    one: Side<'a>,
    other: Side<'a>,
    d: &Differing,
    has_details: bool,
) -> Result<Vec<u8>, AllocError> {
    let mut key = Vec::new(alloc);
    key.extend_from_slice(ending_word(d.last.ending).as_bytes())?;
    key.push(0)?;
    key.extend_from_slice(ending_word(d.other.ending).as_bytes())?;
    key.push(answer_byte(d.differences.presence))?;
    key.push(answer_byte(d.differences.reads))?;
    if has_details && d.differences.reads {
        push_reads(alloc, &mut key, one, other, d)?;
    }
    Ok(key)
}

// The groups of runs that differ alike. Where the details count, no more are made than one too many.
fn grouped_runs<'a>(
    alloc: Global,
    one: Side<'a>,
    other: Side<'a>,
    differing: &[Differing],
    has_details: bool,
) -> Result<Vec<Group>, AllocError> {
    let mut groups = IndexMap::new(alloc);
    for (place, difference) in differing.iter().enumerate() {
        if !has_details || groups.len() <= FEW {
            let key = key_of_run(alloc, one, other, difference, has_details)?;
            count_in(&mut groups, key, place)?;
        }
    }
    groups_of(alloc, &groups)
}

/// The groups of runs that differ alike, in the order of their first ones.
pub(crate) fn alike_runs<'a>(
    alloc: Global,
    one: Side<'a>,
    other: Side<'a>,
    differing: &[Differing],
) -> Result<Vec<Group>, AllocError> {
    let groups = grouped_runs(alloc, one, other, differing, true)?;
    if groups.len() <= FEW {
        return Ok(groups);
    }
    grouped_runs(alloc, one, other, differing, false)
}
