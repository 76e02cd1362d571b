//! The lines of conflicts that were observed.
use crate::drawing::{Drawing, Drawn, MOST, push_numbered};
use rev_conflicts::{Conflict, ConflictKind, Place};
use rev_history::History;
use rev_observed::Observation;
use rev_picture::LineKind;
use rev_runs::Run;
use rev_shown::push_shown;
use std::alloc::{AllocError, Global};

// What stands before the two events of a conflict.
fn kind_words(kind: ConflictKind) -> &'static [u8] {
    match kind {
        ConflictKind::Clash => b"observed clash of ",
        ConflictKind::Race { .. } => b"observed race of ",
        ConflictKind::Cycle { .. } => b"observed cycle of ",
        ConflictKind::Unstable { .. } => b"observed unstable file of ",
    }
}

// Adds the path of a number, of those that were observed.
fn push_path(text: &mut Vec<u8>, observation: &Observation, path: u64) -> Result<(), AllocError> {
    let paths = observation.paths();
    if path >= paths.len() {
        return Ok(());
    }
    push_shown(text, paths.path(path).as_bytes())
}

// Adds a place: a path, or the entries of a folder.
fn push_place(
    text: &mut Vec<u8>,
    observation: &Observation,
    place: Place,
) -> Result<(), AllocError> {
    match place {
        Place::File(path) => push_path(text, observation, path),
        Place::Entries(path) => {
            text.extend_from_slice(b"the entries of ")?;
            push_path(text, observation, path)
        }
    }
}

// The words of a conflict, as `observed race of 6 finish version.h and 12 start main.o (job 5): version.h`.
fn conflict_words(
    alloc: Global,
    history: &History,
    observation: &Observation,
    conflict: &Conflict,
    one: u32,
    other: u32,
) -> Result<Vec<u8>, AllocError> {
    let mut words = Vec::new(alloc);
    words.extend_from_slice(kind_words(conflict.kind))?;
    push_numbered(&mut words, history, one)?;
    words.extend_from_slice(b" and ")?;
    push_numbered(&mut words, history, other)?;
    words.extend_from_slice(b": ")?;
    push_place(&mut words, observation, conflict.place)?;
    Ok(words)
}

// Sets the last run of an edge.
fn set_run(last: &mut [Option<Run>], run: Run) {
    let place = run.edge as usize;
    if place < last.len() {
        last[place] = Some(run);
    }
}

// The last kept run of each edge.
fn last_runs(alloc: Global, runs: &[Run], count: u32) -> Result<Vec<Option<Run>>, AllocError> {
    let mut last = vec![in alloc; None; count as usize]?;
    for run in runs {
        if run.kept {
            set_run(&mut last, *run);
        }
    }
    Ok(last)
}

// The last run of an edge, if there is one.
fn run_of(last: &[Option<Run>], edge: u32) -> Option<Run> {
    match last.get(edge as usize) {
        Some(run) => *run,
        None => None,
    }
}

// Adds the line of a conflict of which both commands ran.
fn add_conflict(
    alloc: Global,
    history: &History,
    observation: &Observation,
    last: &[Option<Run>],
    conflict: &Conflict,
    all: &mut Vec<Drawn>,
) -> Result<(), AllocError> {
    let Some(maker) = run_of(last, conflict.maker) else {
        return Ok(());
    };
    let Some(user) = run_of(last, conflict.user) else {
        return Ok(());
    };
    let one = maker.ended.unwrap_or(maker.began);
    let other = user.began;
    let words = conflict_words(alloc, history, observation, conflict, one, other)?;
    all.push(Drawn {
        kind: LineKind::Observed,
        one,
        other,
        words,
    })?;
    Ok(())
}

// The makers and users of the races that are drawn by lists, in rising order.
fn pairs_of(alloc: Global, drawing: &Drawing<'_>) -> Result<Vec<(u32, u32)>, AllocError> {
    let mut pairs = Vec::new(alloc);
    for race in drawing.races {
        pairs.push((race.maker, race.user))?;
    }
    pairs.sort_unstable();
    Ok(pairs)
}

/// Adds a line for each of the first conflicts. Two edges get one line, with the first place at which they conflict.
/// They get none where a race between them is drawn already.
///
/// # Errors
/// [`AllocError`] only where an allocation was refused.
pub(crate) fn add_conflicts(
    alloc: Global,
    drawing: &Drawing<'_>,
    runs: &[Run],
    all: &mut Vec<Drawn>,
) -> Result<(), AllocError> {
    let Some(observation) = drawing.observation else {
        return Ok(());
    };
    let history = drawing.history;
    let last = last_runs(alloc, runs, history.graph().edges())?;
    let pairs = pairs_of(alloc, drawing)?;
    let mut before = None;
    for conflict in drawing.conflicts {
        let pair = (conflict.maker, conflict.user);
        let is_again = before == Some(pair) || pairs.binary_search(&pair).is_ok();
        before = Some(pair);
        if !is_again && all.len() < MOST {
            add_conflict(alloc, history, observation, &last, conflict, all)?;
        }
    }
    Ok(())
}
