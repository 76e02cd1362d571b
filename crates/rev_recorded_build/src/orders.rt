//! In which order Ninja takes up the edges of a build.
use rev_graph::Graph;
use std::alloc::{AllocError, Global};

/// The edges: those that make an edge's inputs stand before it.
///
/// # Errors
/// [`AllocError`] only where an allocation was refused.
pub(crate) fn makers_first(alloc: Global, graph: &Graph) -> Result<Vec<u32>, AllocError> {
    let mut turns = Vec::new(alloc);
    for edge in 0..graph.edges() {
        turns.push((graph.rank(edge), edge))?;
    }
    turns.sort_unstable();
    let mut edges = Vec::with_capacity(alloc, turns.len())?;
    for turn in &turns {
        edges.push(turn.1)?;
    }
    Ok(edges)
}

// The number of an edge; 0 of none.
fn at(numbers: &[u64], edge: u32) -> u64 {
    numbers.get(edge as usize).copied().unwrap_or(0)
}

// Raises the number of an edge to another that is greater.
fn raise(numbers: &mut Vec<u64>, edge: u32, number: u64) {
    if let Some(known) = numbers.get_mut(edge as usize)
        && *known < number
    {
        *known = number;
    }
}

/// For each edge its weight, as Ninja's `Plan::ComputeCriticalPath` has it: `owns` has an edge's own, to which the
/// greatest weight of the edges is added for which it makes an input. `edges` has each edge behind its makers.
///
/// # Errors
/// [`AllocError`] only where an allocation was refused.
pub(crate) fn weights(
    alloc: Global,
    edges: &[u32],
    makers: &[Vec<u32>],
    owns: &[u64],
) -> Result<Vec<u64>, AllocError> {
    let mut below = vec![in alloc; 0; makers.len()]?;
    let mut weights = vec![in alloc; 0; makers.len()]?;
    for edge in edges.iter().rev() {
        let weight = at(&below, *edge).saturating_add(at(owns, *edge));
        raise(&mut weights, *edge, weight);
        if let Some(list) = makers.get(*edge as usize) {
            for maker in list {
                raise(&mut below, *maker, weight);
            }
        }
    }
    Ok(weights)
}

// Takes an edge up, where it was not, and gives the edges that come next to a stack: its makers, the first one on top.
fn take_up(
    makers: &[Vec<u32>],
    places: &mut Vec<Option<u64>>,
    stack: &mut Vec<u32>,
    edge: u32,
    place: u64,
) -> Result<u64, AllocError> {
    let Some(known) = places.get_mut(edge as usize) else {
        return Ok(place);
    };
    if known.is_some() {
        return Ok(place);
    }
    *known = Some(place);
    if let Some(list) = makers.get(edge as usize) {
        for maker in list.iter().rev() {
            stack.push(*maker)?;
        }
    }
    Ok(place.saturating_add(1))
}

// How many edges are given to the stack at most: each target, and each maker of each edge once.
fn most_taken(makers: &[Vec<u32>], targets: &[u32]) -> usize {
    let mut count = targets.len();
    for list in makers {
        count = count.saturating_add(list.len());
    }
    count
}

/// For each edge its place in the plan, which Ninja makes depth first from the targets (`Plan::AddSubTarget`); none of
/// an edge that no target needs.
///
/// # Errors
/// [`AllocError`] only where an allocation was refused.
pub(crate) fn places_in_plan(
    alloc: Global,
    makers: &[Vec<u32>],
    targets: &[u32],
) -> Result<Vec<Option<u64>>, AllocError> {
    let mut places = vec![in alloc; None; makers.len()]?;
    let mut stack = Vec::new(alloc);
    for target in targets.iter().rev() {
        stack.push(*target)?;
    }
    let mut place = 0;
    for _ in 0..most_taken(makers, targets) {
        let Some(edge) = stack.pop() else {
            break;
        };
        place = take_up(makers, &mut places, &mut stack, edge, place)?;
    }
    Ok(places)
}

/// The place of an edge in the plan; none of an edge that no target needs.
pub(crate) fn place_of(places: &[Option<u64>], edge: u32) -> Option<u64> {
    match places.get(edge as usize) {
        Some(place) => *place,
        None => None,
    }
}

/// How long the command of an edge took; none of an edge that did not run.
pub(crate) fn duration_of(durations: &[Option<u32>], edge: u32) -> Option<u32> {
    match durations.get(edge as usize) {
        Some(duration) => *duration,
        None => None,
    }
}

/// Whether an edge has a mark.
pub(crate) fn has_mark(marks: &[bool], edge: u32) -> bool {
    marks.get(edge as usize).copied().unwrap_or(false)
}

// Whether one of the makers of an edge has a mark.
fn has_marked_maker(steps: &[Vec<u32>], marks: &[bool], edge: u32) -> bool {
    let Some(makers) = steps.get(edge as usize) else {
        return false;
    };
    for maker in makers {
        if has_mark(marks, *maker) {
            return true;
        }
    }
    false
}

/// Marks of the edges that ran, and of those that wait for one that did. `edges` has each edge behind its makers.
///
/// # Errors
/// [`AllocError`] only where an allocation was refused.
pub(crate) fn live_marks(
    alloc: Global,
    edges: &[u32],
    steps: &[Vec<u32>],
    durations: &[Option<u32>],
) -> Result<Vec<bool>, AllocError> {
    let mut marks = vec![in alloc; false; steps.len()]?;
    for edge in edges {
        let has_run = duration_of(durations, *edge).is_some();
        let is_live = has_run || has_marked_maker(steps, &marks, *edge);
        if let Some(mark) = marks.get_mut(*edge as usize) {
            *mark = is_live;
        }
    }
    Ok(marks)
}
