//! What differs between two recordings.
use crate::side::{Day, Side};
use rev_compared::{
    Changes, Differences, Ending, Last, compare_runs, compare_statements, first_inverted, last_at,
    last_runs, matched, ran_alone, twin_at, twins,
};
use std::alloc::{AllocError, Global};

/// An edge of the one manifest and its twin, whose statements differ.
#[derive(Clone, Copy)]
pub(crate) struct Changed {
    pub(crate) edge: u32,
    pub(crate) twin: u32,
    pub(crate) changes: Changes,
}

/// An edge of the one manifest and its twin, whose last runs differ.
#[derive(Clone, Copy)]
pub(crate) struct Differing {
    pub(crate) edge: u32,
    pub(crate) twin: u32,
    pub(crate) last: Last,
    pub(crate) other: Last,
    pub(crate) differences: Differences,
}

/// Two events that depend on each other and stand the other way round there: their numbers here and there.
#[derive(Clone, Copy)]
pub(crate) struct Inverted {
    pub(crate) first: u32,
    pub(crate) second: u32,
    pub(crate) other_first: u32,
    pub(crate) other_second: u32,
}

/// Which edges of two recordings are one, and how they ran.
pub(crate) struct Known {
    // For each edge of the one its twin in the other, and the other way round.
    twins: Vec<Option<u32>>,
    back: Vec<Option<u32>>,
    // The last runs of the edges of each.
    lasts: Vec<Option<Last>>,
    others: Vec<Option<Last>>,
}

impl Drop for Known {
    fn drop(self) {
        let Known {
            twins: _twins,
            back: _back,
            lasts: _lasts,
            others: _others,
        } = self;
    }
}

/// What differs between two recordings, by the numbers of edges.
pub(crate) struct Facts {
    /// Whether each edge of both has a twin.
    pub(crate) are_paired: bool,
    /// The edges whose statements differ.
    pub(crate) changed: Vec<Changed>,
    /// The edges that ran in the one alone, and in the other.
    pub(crate) ran: Vec<u32>,
    pub(crate) other_ran: Vec<u32>,
    /// The edges that ran in both, and whose runs differ.
    pub(crate) differing: Vec<Differing>,
    /// The first pair of dependent events of the one that stand the other way round in the other, and that of the
    /// other.
    pub(crate) inverted: Option<Inverted>,
    pub(crate) other_inverted: Option<Inverted>,
}

impl Drop for Facts {
    fn drop(self) {
        let Facts {
            are_paired: _are_paired,
            changed: _changed,
            ran: _ran,
            other_ran: _other_ran,
            differing: _differing,
            inverted: _inverted,
            other_inverted: _other_inverted,
        } = self;
    }
}

// Whether anything differs between two statements.
fn is_change(changes: Changes) -> bool {
    changes.outputs || changes.inputs || changes.command || changes.flags
}

// Whether anything differs between two runs.
fn is_difference(differences: Differences) -> bool {
    differences.status || differences.presence || differences.reads
}

// What differs between an edge and its twin, where anything does.
fn change_of<'a>(one: Side<'a>, other: Side<'a>, edge: u32, twin: u32) -> Option<Changed> {
    let build = one.build(edge)?;
    let other_build = other.build(twin)?;
    let changes = compare_statements(one.manifest, other.manifest, build, other_build);
    if is_change(changes) {
        return Some(Changed {
            edge,
            twin,
            changes,
        });
    }
    None
}

// The edges whose statements differ.
fn changed_in<'a>(alloc: Global, a: Day<'a>, b: Day<'a>) -> Result<Vec<Changed>, AllocError> {
    let mut changed = Vec::new(alloc);
    for edge in 0..a.side.edges() {
        if let Some(twin) = twin_at(a.twins, edge) {
            if let Some(change) = change_of(a.side, b.side, edge, twin) {
                changed.push(change)?;
            }
        }
    }
    Ok(changed)
}

// What differs between the runs of an edge and of its twin, where both ran and anything does.
fn difference_of<'a>(a: Day<'a>, b: Day<'a>, edge: u32, twin: u32) -> Option<Differing> {
    let last = last_at(a.lasts, edge)?;
    let other = last_at(b.lasts, twin)?;
    let differences = compare_runs(a.side.history, &last, b.side.history, &other);
    if is_difference(differences) {
        return Some(Differing {
            edge,
            twin,
            last,
            other,
            differences,
        });
    }
    None
}

// The edges that ran in both, and whose runs differ.
fn differing_in<'a>(alloc: Global, a: Day<'a>, b: Day<'a>) -> Result<Vec<Differing>, AllocError> {
    let mut differing = Vec::new(alloc);
    for edge in 0..a.side.edges() {
        if let Some(twin) = twin_at(a.twins, edge) {
            if let Some(difference) = difference_of(a, b, edge, twin) {
                differing.push(difference)?;
            }
        }
    }
    Ok(differing)
}

// The first pair of dependent events that stand the other way round. Both have a number there.
fn inverted_in<'a>(
    alloc: Global,
    here: Day<'a>,
    there: Day<'a>,
) -> Result<Option<Inverted>, AllocError> {
    let history = here.side.history;
    let same = matched(alloc, history, here.lasts, here.twins, there.lasts)?;
    match first_inverted(alloc, history, &same)? {
        Some((first, second)) => Ok(Some(Inverted {
            first,
            second,
            other_first: twin_at(&same, first).unwrap_or(0),
            other_second: twin_at(&same, second).unwrap_or(0),
        })),
        None => Ok(None),
    }
}

// The edges that ran in one recording alone.
fn ran_in<'a>(alloc: Global, here: Day<'a>, there: Day<'a>) -> Result<Vec<u32>, AllocError> {
    ran_alone(
        alloc,
        here.side.edges(),
        here.lasts,
        here.twins,
        there.lasts,
    )
}

/// Which edges of two recordings are one, and how they ran.
pub(crate) fn known_of<'a>(
    alloc: Global,
    one: Side<'a>,
    other: Side<'a>,
) -> Result<Known, AllocError> {
    let (graph, other_graph) = (one.history.graph(), other.history.graph());
    Ok(Known {
        twins: twins(alloc, graph, other_graph)?,
        back: twins(alloc, other_graph, graph)?,
        lasts: last_runs(alloc, one.history)?,
        others: last_runs(alloc, other.history)?,
    })
}

/// What differs between two recordings.
pub(crate) fn facts_of<'a>(alloc: Global, a: Day<'a>, b: Day<'a>) -> Result<Facts, AllocError> {
    let inverted = inverted_in(alloc, a, b)?;
    let other_inverted = inverted_in(alloc, b, a)?;
    Ok(Facts {
        are_paired: all_paired(a.twins) && all_paired(b.twins),
        changed: changed_in(alloc, a, b)?,
        ran: ran_in(alloc, a, b)?,
        other_ran: ran_in(alloc, b, a)?,
        differing: differing_in(alloc, a, b)?,
        inverted,
        other_inverted,
    })
}

impl Known {
    /// The one recording beside the other.
    pub(crate) fn one<'a>(&'a self, side: Side<'a>) -> Day<'a> {
        Day {
            letter: "A",
            key: "a",
            side,
            lasts: self.lasts.as_slice(),
            twins: self.twins.as_slice(),
        }
    }

    /// The other recording beside the one.
    pub(crate) fn other<'a>(&'a self, side: Side<'a>) -> Day<'a> {
        Day {
            letter: "B",
            key: "b",
            side,
            lasts: self.others.as_slice(),
            twins: self.back.as_slice(),
        }
    }
}

impl Facts {
    /// Whether nothing differs.
    pub(crate) fn are_none(&self) -> bool {
        self.are_paired
            && self.changed.is_empty()
            && self.ran.is_empty()
            && self.other_ran.is_empty()
            && self.differing.is_empty()
            && self.inverted.is_none()
            && self.other_inverted.is_none()
    }
}

// Whether each edge has a twin.
fn all_paired(twins: &[Option<u32>]) -> bool {
    for twin in twins {
        if twin.is_none() {
            return false;
        }
    }
    true
}

/// The edges that have no twin.
pub(crate) fn alone_in(alloc: Global, twins: &[Option<u32>]) -> Result<Vec<u32>, AllocError> {
    let mut alone = Vec::new(alloc);
    let mut edge: u32 = 0;
    for twin in twins {
        if twin.is_none() {
            alone.push(edge)?;
        }
        edge = edge.saturating_add(1);
    }
    Ok(alone)
}

/// How many edges have a run, and how many of these failed.
pub(crate) fn counts(lasts: &[Option<Last>]) -> (u64, u64) {
    let mut ran: u64 = 0;
    let mut failed: u64 = 0;
    for last in lasts {
        if let Some(last) = last {
            ran = ran.saturating_add(1);
            if last.ending == Ending::Failed {
                failed = failed.saturating_add(1);
            }
        }
    }
    (ran, failed)
}
