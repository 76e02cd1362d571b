//! Which paths and outputs stand on one side alone.
use crate::side::Side;
use indexmap::IndexMap;
use rev_compared::{Last, end_of, stamps_of};
use rev_depfile::{DepfileFault, read};
use rev_events::{Event, Listing};
use rev_paths::Name;
use rev_races_text::Shown;
use std::alloc::{AllocError, Global};

/// The paths that a command is said to have read: as they were listed, or as its depfile has them.
#[derive(Drop)]
pub(crate) enum PathList<'a> {
    Shared(&'a [Name]),
    Read(Vec<Name>),
}

impl PathList<'_> {
    /// The paths.
    pub(crate) fn as_slice(&self) -> &[Name] {
        match self {
            PathList::Shared(paths) => *paths,
            PathList::Read(paths) => paths.as_slice(),
        }
    }
}

// The outputs of an edge.
fn outputs_of<'a>(alloc: Global, side: Side<'a>, edge: u32) -> Result<Vec<Name>, AllocError> {
    let mut outputs = Vec::new(alloc);
    let Some(build) = side.build(edge) else {
        return Ok(outputs);
    };
    for output in build.explicit_outs() {
        outputs.push(output.copy()?)?;
    }
    for output in build.implicit_outs() {
        outputs.push(output.copy()?)?;
    }
    Ok(outputs)
}

// The paths that a depfile of an edge has; none where it has a fault, as no accepted event has.
fn read_of<'a>(
    alloc: Global,
    side: Side<'a>,
    edge: u32,
    text: &[u8],
) -> Result<Vec<Name>, AllocError> {
    let outputs = outputs_of(alloc, side, edge)?;
    match read(alloc, text, &outputs) {
        Ok(paths) => Ok(paths),
        Err(DepfileFault::Memory) => Err(AllocError),
        Err(_) => Ok(Vec::new(alloc)),
    }
}

/// The paths that the command of an edge is said to have read in its last run.
pub(crate) fn listed<'a>(
    alloc: Global,
    side: Side<'a>,
    edge: u32,
    last: &Last,
) -> Result<PathList<'a>, AllocError> {
    match end_of(side.history, last.ended) {
        Some(
            Event::Finish {
                listing: Listing::Paths(paths),
                ..
            },
        ) => Ok(PathList::Shared(paths.as_slice())),
        Some(
            Event::Finish {
                listing: Listing::Depfile(text),
                ..
            },
        ) => Ok(PathList::Read(read_of(alloc, side, edge, text.as_slice())?)),
        _ => Ok(PathList::Shared(&[])),
    }
}

// Adds the paths to those that are there.
fn add_to_set(set: &mut IndexMap<Name, ()>, paths: &[Name]) -> Result<(), AllocError> {
    for path in paths {
        set.insert(path.copy()?, ())?;
    }
    Ok(())
}

/// The paths of some lists, to look one up.
pub(crate) fn set_of(alloc: Global, lists: &[&[Name]]) -> Result<IndexMap<Name, ()>, AllocError> {
    let mut set = IndexMap::new(alloc);
    for list in lists {
        add_to_set(&mut set, list)?;
    }
    Ok(set)
}

/// Some paths, to look one up.
pub(crate) fn set_of_paths(
    alloc: Global,
    paths: &[Name],
) -> Result<IndexMap<Name, ()>, AllocError> {
    set_of(alloc, &[paths])
}

/// Adds the paths that are not among some.
pub(crate) fn add_others<'a>(
    alone: &mut Vec<Shown<'a>>,
    paths: &'a [Name],
    set: &IndexMap<Name, ()>,
) -> Result<(), AllocError> {
    for path in paths {
        if !set.contains_key(path) {
            alone.push(Shown(path.as_bytes()))?;
        }
    }
    Ok(())
}

/// The paths of some that are not among others.
pub(crate) fn beside<'a>(
    alloc: Global,
    paths: &'a [Name],
    others: &[Name],
) -> Result<Vec<Shown<'a>>, AllocError> {
    let set = set_of_paths(alloc, others)?;
    let mut alone = Vec::new(alloc);
    add_others(&mut alone, paths, &set)?;
    Ok(alone)
}

// Adds the outputs of one list that are there after one run and not after the other.
fn add_there<'a>(
    outputs: &'a [Name],
    stamps: &[u64],
    others: &[u64],
    from: usize,
    there: &mut Vec<Shown<'a>>,
) -> Result<(), AllocError> {
    for (place, output) in outputs.iter().enumerate() {
        let at = place.saturating_add(from);
        let stamp = stamps.get(at).copied().unwrap_or(0);
        let other = others.get(at).copied().unwrap_or(0);
        if stamp != 0 && other == 0 {
            there.push(Shown(output.as_bytes()))?;
        }
    }
    Ok(())
}

/// The outputs of an edge that are there after its run, and of which those of its twin are not after the other run, by
/// their places in the statement.
pub(crate) fn there_alone<'a>(
    alloc: Global,
    side: Side<'a>,
    edge: u32,
    last: &Last,
    other: Side<'a>,
    other_last: &Last,
) -> Result<Vec<Shown<'a>>, AllocError> {
    let mut there = Vec::new(alloc);
    let Some(build) = side.build(edge) else {
        return Ok(there);
    };
    let here = stamps_of(end_of(side.history, last.ended));
    let others = stamps_of(end_of(other.history, other_last.ended));
    let explicit = build.explicit_outs();
    add_there(explicit, here, others, 0, &mut there)?;
    add_there(
        build.implicit_outs(),
        here,
        others,
        explicit.len(),
        &mut there,
    )?;
    Ok(there)
}

/// Whether one of the outputs of an edge is among some paths.
pub(crate) fn makes_one<'a>(side: Side<'a>, edge: u32, paths: &IndexMap<Name, ()>) -> bool {
    let Some(build) = side.build(edge) else {
        return false;
    };
    for output in build.explicit_outs() {
        if paths.contains_key(output) {
            return true;
        }
    }
    for output in build.implicit_outs() {
        if paths.contains_key(output) {
            return true;
        }
    }
    false
}
