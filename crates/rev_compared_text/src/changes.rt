//! What differs between two build statements, by name.
use crate::reads::{add_others, set_of};
use crate::side::Side;
use indexmap::IndexMap;
use rev_compared::same_pools;
use rev_manifest::Build;
use rev_paths::Name;
use rev_races_text::Shown;
use std::alloc::{AllocError, Global};

// A command of at most so many bytes is told whole.
const SHORT: usize = 80;
// The most bytes of a command that words tell, unless they tell all.
const PART: usize = 240;

// The paths of some lists that are not among others.
fn others_than<'a>(
    alloc: Global,
    lists: &[&'a [Name]],
    set: &IndexMap<Name, ()>,
) -> Result<Vec<Shown<'a>>, AllocError> {
    let mut alone = Vec::new(alloc);
    for list in lists {
        add_others(&mut alone, list, set)?;
    }
    Ok(alone)
}

// The paths of some lists that are in none of others.
fn in_none<'a>(
    alloc: Global,
    lists: &[&'a [Name]],
    others: &[&[Name]],
) -> Result<Vec<Shown<'a>>, AllocError> {
    let set = set_of(alloc, others)?;
    others_than(alloc, lists, &set)
}

/// The inputs of a statement, of whichever kind, that are not inputs of another one.
pub(crate) fn inputs_alone<'a>(
    alloc: Global,
    build: &'a Build,
    other: &Build,
) -> Result<Vec<Shown<'a>>, AllocError> {
    in_none(
        alloc,
        &[
            build.explicit(),
            build.implicit(),
            build.order_only(),
            build.validations(),
        ],
        &[
            other.explicit(),
            other.implicit(),
            other.order_only(),
            other.validations(),
        ],
    )
}

/// The outputs of a statement that are not outputs of another one.
pub(crate) fn outputs_alone<'a>(
    alloc: Global,
    build: &'a Build,
    other: &Build,
) -> Result<Vec<Shown<'a>>, AllocError> {
    in_none(
        alloc,
        &[build.explicit_outs(), build.implicit_outs()],
        &[other.explicit_outs(), other.implicit_outs()],
    )
}

// Adds the name of a flag that differs.
fn add_flag<'a>(
    flags: &mut Vec<Shown<'a>>,
    differs: bool,
    name: &'a [u8],
) -> Result<(), AllocError> {
    if differs {
        flags.push(Shown(name))?;
    }
    Ok(())
}

/// The names of the flags in which two statements differ.
pub(crate) fn flags_that_differ<'a>(
    alloc: Global,
    one: Side<'a>,
    build: &Build,
    other: Side<'a>,
    other_build: &Build,
) -> Result<Vec<Shown<'a>>, AllocError> {
    let other_deps = build.keeps_deps() != other_build.keeps_deps();
    let (pools, other_pools) = (one.manifest.pools(), other.manifest.pools());
    let other_pool = !same_pools(pools, other_pools, build.pool(), other_build.pool());
    let mut flags = Vec::new(alloc);
    add_flag(&mut flags, build.phony() != other_build.phony(), b"phony")?;
    add_flag(
        &mut flags,
        build.depfile() != other_build.depfile(),
        b"depfile",
    )?;
    add_flag(&mut flags, other_deps, b"deps")?;
    add_flag(
        &mut flags,
        build.rspfile() != other_build.rspfile(),
        b"rspfile",
    )?;
    add_flag(
        &mut flags,
        build.restat() != other_build.restat(),
        b"restat",
    )?;
    add_flag(
        &mut flags,
        build.generator() != other_build.generator(),
        b"generator",
    )?;
    add_flag(&mut flags, other_pool, b"pool")?;
    Ok(flags)
}

/// A part of a command, and whether there is more before it and behind it.
#[derive(Clone, Copy)]
pub(crate) struct Part<'a> {
    pub(crate) text: &'a [u8],
    pub(crate) has_before: bool,
    pub(crate) has_behind: bool,
}

// The byte at a place, or 0.
fn byte_at(text: &[u8], place: usize) -> u8 {
    match text.get(place) {
        Some(byte) => *byte,
        None => 0,
    }
}

// How many bytes two texts begin with alike, up to the end of a word and the space behind it.
fn alike_before(text: &[u8], other: &[u8], most: usize) -> usize {
    let mut alike = 0;
    for place in 0..most {
        let byte = byte_at(text, place);
        if byte != byte_at(other, place) {
            return alike;
        }
        if byte == b' ' {
            alike = place.saturating_add(1);
        }
    }
    alike
}

// How many of so many last bytes of two texts are alike, from a space on.
fn alike_behind(text: &[u8], other: &[u8], most: usize) -> usize {
    let mut alike = 0;
    for place in 0..most {
        let count = place.saturating_add(1);
        let byte = byte_at(text, text.len().saturating_sub(count));
        if byte != byte_at(other, other.len().saturating_sub(count)) {
            return alike;
        }
        if byte == b' ' {
            alike = count;
        }
    }
    alike
}

// The part of a text between two places, and no more than words tell.
fn part_between(text: &[u8], before: usize, end: usize) -> Part<'_> {
    let shown = end.min(before.saturating_add(PART));
    Part {
        text: text.get(before..shown).unwrap_or(text),
        has_before: before > 0,
        has_behind: shown < text.len(),
    }
}

// Where the part of a command in which it differs from another one begins and ends, in whole words.
fn ends_of_part(command: &[u8], other: &[u8]) -> (usize, usize) {
    let most = command.len().min(other.len());
    let before = alike_before(command, other, most);
    let behind = alike_behind(command, other, most.saturating_sub(before));
    (before, command.len().saturating_sub(behind))
}

/// The part of a command in which it differs from another one, in whole words.
pub(crate) fn other_part<'a>(command: &'a [u8], other: &[u8]) -> &'a [u8] {
    let (before, end) = ends_of_part(command, other);
    command.get(before..end).unwrap_or(command)
}

/// The part of a command in which it differs from another one, in whole words; the whole command where it is short, or
/// all is told.
pub(crate) fn part_of<'a>(command: &'a [u8], other: &[u8], all: bool) -> Part<'a> {
    if all || (command.len() <= SHORT && other.len() <= SHORT) {
        return Part {
            text: command,
            has_before: false,
            has_behind: false,
        };
    }
    let (before, end) = ends_of_part(command, other);
    part_between(command, before, end)
}
