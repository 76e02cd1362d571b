//! Which commands ran in one build alone, and which had ended in one alone before another began.
ghost use Rattle.std.specs.Prelude.{◌≡◌, ◌++◌, ◌∷◌, [], None, Some, false, slice_index_or, if◌then◌else◌, IfOk, OnOk};
ghost use Rattle.rev_compared.specs.Alone.{finished_alone_of, is_alone as is_alone_of, is_finished_alone as is_finished_alone_of, is_made as is_made_of, is_made_at as is_made_at_of, is_made_by as is_made_by_of, ran_alone_of, twin_last as twin_last_of};

use crate::lasts::{Ending, Last};
use std::alloc::{AllocError, Global};

/// The last run of an edge, by the last runs of all: `None` where it has none.
pub fn last_at(lasts: &[Option<Last>], edge: u32) -> Option<Last>
    ensures { result ≡ slice_index_or lasts.now edge None }
{
    if edge as usize >= lasts.len() {
        return None;
    }
    lasts[edge as usize]
}

/// The twin of an edge, by the twins of all: `None` where it has none.
pub fn twin_at(twins: &[Option<u32>], edge: u32) -> Option<u32>
    ensures { result ≡ slice_index_or twins.now edge None }
{
    if edge as usize >= twins.len() {
        return None;
    }
    twins[edge as usize]
}

/// The last run of an edge's twin, if it has a twin, and the twin has one.
pub(crate) fn twin_last(twins: &[Option<u32>], others: &[Option<Last>], edge: u32) -> Option<Last>
    ensures { result ≡ twin_last_of twins.now others.now edge }
{
    match twin_at(twins, edge) {
        Some(twin) => last_at(others, twin),
        None => None,
    }
}

/// Adds a number that passes.
pub(crate) fn add_where(numbers: &mut Vec<u32>, number: u32, passes: bool) -> Result<(), AllocError>
    ensures { OnOk result (numbers.new.items ≡ numbers.old.items ++ (if passes then number ∷ [] else [])) }
{
    if passes {
        numbers.push(number)?;
    }
    Ok(())
}

// Whether an edge has a run, and its twin has none.
fn is_alone(last: Option<Last>, other: Option<Last>) -> bool
    ensures { result ≡ is_alone_of last other }
{
    match (last, other) {
        (Some(_last), None) => true,
        _ => false,
    }
}

/// Those of so many edges that have a run, and whose twins have none, or which have no twin, in their order. `lasts`
/// are the last runs of the edges, `twins` their twins in another graph, and `others` the last runs of the edges there.
///
/// # Errors
/// [`AllocError`] only where an allocation was refused.
pub fn ran_alone(
    alloc: Global,
    edges: u32,
    lasts: &[Option<Last>],
    twins: &[Option<u32>],
    others: &[Option<Last>],
) -> Result<Vec<u32>, AllocError>
    ensures { IfOk result (λ found. found.items ≡ ran_alone_of edges lasts.now twins.now others.now) }
{
    let mut found = Vec::new(alloc);
    for edge in 0..edges {
        let passes = is_alone(last_at(lasts, edge), twin_last(twins, others, edge));
        add_where(&mut found, edge, passes)?;
    }
    Ok(found)
}

/// What was made in a history when one of its commands began.
#[derive(Clone, Copy)]
pub struct Moment<'a> {
    /// The number of the event that began the command.
    pub number: u32,
    /// For each edge the last of its runs that began before that event, as
    /// [`last_runs_before`](crate::last_runs_before) gives it.
    pub lasts: &'a [Option<Last>],
    /// For each edge whether it had been made before the recording began, as [`made_earlier`](crate::made_earlier)
    /// gives it.
    pub earlier: &'a [bool],
}

// What is marked of an edge, by the marks of all.
fn mark_at(marks: &[bool], edge: u32) -> bool
    ensures { result ≡ slice_index_or marks.now edge false }
{
    if edge as usize >= marks.len() {
        return false;
    }
    marks[edge as usize]
}

// Whether an edge is made before the event of a number: its last run ended well before it, or it has none and had been
// made earlier.
fn is_made(last: Option<Last>, earlier: bool, number: u32) -> bool
    ensures { result ≡ is_made_of last earlier number }
{
    match last {
        None => earlier,
        Some(
            Last {
                ended: Some(ended),
                ending: Ending::Well,
                ..
            },
        ) => ended < number,
        _ => false,
    }
}

// The same of an edge at a moment.
fn is_made_at(moment: &Moment<'_>, edge: u32) -> bool
    ensures { result ≡ is_made_at_of moment.now.lasts.now moment.now.earlier.now moment.now.number edge }
{
    is_made(
        last_at(moment.lasts, edge),
        mark_at(moment.earlier, edge),
        moment.number,
    )
}

// The same of an edge that may not be there.
fn is_made_by(moment: &Moment<'_>, edge: Option<u32>) -> bool
    ensures { result ≡ is_made_by_of moment.now.lasts.now moment.now.earlier.now moment.now.number edge }
{
    match edge {
        Some(edge) => is_made_at(moment, edge),
        None => false,
    }
}

// Whether an edge is made at one moment, and its twin not at another.
fn is_finished_alone(
    here: &Moment<'_>,
    twins: &[Option<u32>],
    there: &Moment<'_>,
    edge: u32,
) -> bool
    ensures { result ≡ is_finished_alone_of here.now.lasts.now here.now.earlier.now here.now.number twins.now
        there.now.lasts.now there.now.earlier.now there.now.number edge }
{
    is_made_at(here, edge) && !is_made_by(there, twin_at(twins, edge))
}

/// Those of so many edges that were made when a command began here, and whose twins were not when it began there, or
/// which have no twin, in their order. `here` and `there` are the moments at which it began, and `twins` are the twins
/// of the edges in the other graph.
///
/// # Errors
/// [`AllocError`] only where an allocation was refused.
pub fn finished_alone(
    alloc: Global,
    edges: u32,
    here: &Moment<'_>,
    twins: &[Option<u32>],
    there: &Moment<'_>,
) -> Result<Vec<u32>, AllocError>
    ensures { IfOk result (λ found. found.items
        ≡ finished_alone_of edges here.now.lasts.now here.now.earlier.now here.now.number twins.now
        there.now.lasts.now there.now.earlier.now there.now.number) }
{
    let mut found = Vec::new(alloc);
    for edge in 0..edges {
        let passes = is_finished_alone(here, twins, there, edge);
        add_where(&mut found, edge, passes)?;
    }
    Ok(found)
}
