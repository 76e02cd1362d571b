//! Builds in which a command is faster, a pool has another depth, or an edge does not wait for a maker.
ghost use Rattle.std.specs.Prelude.{◌<◌, length};

use rev_graph::{Graph, edges_among};
use rev_manifest::Manifest;
use rev_paths::{Name, PathFault};
use rev_schedule::Build;
use rev_schedule_wishes::{Faster, PoolDepth, Waiting, sooner};
use std::alloc::{AllocError, Global};

/// Why a build is not changed as it is asked for.
#[derive(Clone, Copy, Debug, PartialEq, Eq)]
pub enum ChangeFault {
    /// No command that ran makes the output of the wish at this place.
    NoCommand(usize),
    /// The manifest has no pool of the name in the wish at this place.
    NoPool(usize),
    /// The edge of the line at this place has no order-only input that the named maker makes.
    NoOrder(usize),
    /// The system refused memory.
    Memory,
}

impl From<AllocError> for ChangeFault {
    fn from(_error: AllocError) -> ChangeFault {
        ChangeFault::Memory
    }
}

impl<T: Drop> From<std::alloc::AllocFailed<T>> for ChangeFault {
    fn from(_error: std::alloc::AllocFailed<T>) -> ChangeFault {
        ChangeFault::Memory
    }
}

// The edge that makes a path of these bytes.
fn edge_making(alloc: Global, graph: &Graph, path: &[u8]) -> Result<Option<u32>, AllocError> {
    match Name::new(alloc, path) {
        Ok(name) => Ok(graph.producer(&name)),
        Err(PathFault::Memory) => Err(AllocError),
        Err(_) => Ok(None),
    }
}

// Makes a command faster, and answers whether it ran.
fn make_one_faster(
    alloc: Global,
    graph: &Graph,
    build: &mut Build,
    faster: &Faster<'_>,
) -> Result<bool, AllocError> {
    let Some(edge) = edge_making(alloc, graph, faster.out)? else {
        return Ok(false);
    };
    match build.jobs.get_mut(edge as usize) {
        Some(job) if !job.phony => {
            job.duration = sooner(job.duration, faster.factor);
            Ok(true)
        }
        _ => Ok(false),
    }
}

/// Makes commands that ran faster.
///
/// # Errors
/// [`ChangeFault::NoCommand`] with the first place of a wish whose output no command that ran makes;
/// [`ChangeFault::Memory`] only where an allocation was refused.
pub(crate) fn make_faster(
    alloc: Global,
    graph: &Graph,
    build: &mut Build,
    wishes: &[Faster<'_>],
) -> Result<(), ChangeFault> {
    for (place, faster) in wishes.iter().enumerate() {
        if !make_one_faster(alloc, graph, build, faster)? {
            return Err(ChangeFault::NoCommand(place));
        }
    }
    Ok(())
}

// The number of a pool of the manifest, by its name.
fn pool_named(manifest: &Manifest, name: &[u8]) -> Option<usize> {
    for (number, pool) in manifest.pools().iter().enumerate() {
        if pool.0.as_slice() == name {
            return Some(number);
        }
    }
    None
}

// Gives a pool another depth, and answers whether the manifest has it.
fn make_one_depth(manifest: &Manifest, build: &mut Build, pool: &PoolDepth<'_>) -> bool {
    let Some(number) = pool_named(manifest, pool.name) else {
        return false;
    };
    match build.depths.get_mut(number.saturating_add(1)) {
        Some(depth) => {
            *depth = pool.depth;
            true
        }
        None => false,
    }
}

/// Gives pools other depths.
///
/// # Errors
/// [`ChangeFault::NoPool`] with the first place of a wish whose pool the manifest does not have.
pub(crate) fn make_depths(
    manifest: &Manifest,
    build: &mut Build,
    wishes: &[PoolDepth<'_>],
) -> Result<(), ChangeFault> {
    for (place, pool) in wishes.iter().enumerate() {
        if !make_one_depth(manifest, build, pool) {
            return Err(ChangeFault::NoPool(place));
        }
    }
    Ok(())
}

// What is known of an edge as a maker of another one's order-only inputs.
#[derive(Clone, Copy, PartialEq, Eq)]
enum Mark {
    // The other one waits for it.
    Free,
    // The other one is not to wait for it.
    Left,
    // So it is, and it makes an order-only input of the other one.
    Met,
}

// A maker for which an edge is not to wait, by the line at a place.
#[derive(Clone, Copy)]
struct Left {
    maker: u32,
    place: usize,
}

// Marks an edge.
fn set_mark(marks: &mut Vec<Mark>, edge: u32, mark: Mark) {
    if let Some(known) = marks.get_mut(edge as usize) {
        *known = mark;
    }
}

// The mark of an edge.
fn mark_of(marks: &[Mark], edge: u32) -> Mark {
    marks.get(edge as usize).copied().unwrap_or(Mark::Free)
}

// For each edge the makers for which it is not to wait.
fn lefts_of(
    alloc: Global,
    graph: &Graph,
    lines: &[Waiting],
) -> Result<Vec<Vec<Left>>, ChangeFault> {
    let mut lefts = Vec::new(alloc);
    for _ in 0..graph.edges() {
        lefts.push(Vec::new(alloc))?;
    }
    for (place, line) in lines.iter().enumerate() {
        let edge = edge_making(alloc, graph, &line.out)?;
        let maker = edge_making(alloc, graph, &line.input)?;
        let (Some(edge), Some(maker)) = (edge, maker) else {
            return Err(ChangeFault::NoOrder(place));
        };
        if let Some(list) = lefts.get_mut(edge as usize) {
            list.push(Left { maker, place })?;
        }
    }
    Ok(lefts)
}

// The edges for which an edge waits, without the marked makers of its order-only inputs. These are marked as met.
fn kept_steps(
    alloc: Global,
    graph: &Graph,
    marks: &mut Vec<Mark>,
    edge: u32,
) -> Result<Vec<u32>, AllocError>
    requires { edge < length graph.now.manifest.builds }
{
    let counted = graph.counted_producers(edge);
    let mut kept = edges_among(alloc, counted)?;
    let order_only = graph.producers(edge).get(counted.len()..).unwrap_or(&[]);
    for maker in order_only {
        if let Some(maker) = *maker {
            if mark_of(marks, maker) == Mark::Free {
                kept.push(maker)?;
            } else {
                set_mark(marks, maker, Mark::Met);
            }
        }
    }
    Ok(kept)
}

// Takes marks of makers away, and gives the place of the first line whose maker was not met.
fn free_marks(marks: &mut Vec<Mark>, lefts: &[Left]) -> Option<usize> {
    let mut unmet = None;
    for left in lefts {
        if unmet.is_none() && mark_of(marks, left.maker) == Mark::Left {
            unmet = Some(left.place);
        }
    }
    for left in lefts {
        set_mark(marks, left.maker, Mark::Free);
    }
    unmet
}

// The edges for which an edge waits, where it does not wait for some makers of its order-only inputs.
fn steps_left(
    alloc: Global,
    graph: &Graph,
    marks: &mut Vec<Mark>,
    lefts: &[Left],
    edge: u32,
) -> Result<Vec<u32>, ChangeFault>
    requires { edge < length graph.now.manifest.builds }
{
    for left in lefts {
        set_mark(marks, left.maker, Mark::Left);
    }
    let kept = kept_steps(alloc, graph, marks, edge)?;
    match free_marks(marks, lefts) {
        Some(place) => Err(ChangeFault::NoOrder(place)),
        None => Ok(kept),
    }
}

/// For each edge the edges that it waits for, where the edges of some lines do not wait for the makers that these lines
/// name. Of such an edge all order-only inputs are left out that the maker makes. It takes time and memory linear in
/// lines and inputs.
///
/// # Errors
/// [`ChangeFault::NoOrder`] with the place of a line whose edge has no such input; [`ChangeFault::Memory`] only where an
/// allocation was refused.
pub(crate) fn steps_without(
    alloc: Global,
    graph: &Graph,
    lines: &[Waiting],
) -> Result<Vec<Vec<u32>>, ChangeFault> {
    let lefts = lefts_of(alloc, graph, lines)?;
    let mut marks = vec![in alloc; Mark::Free; lefts.len()]?;
    let mut steps = Vec::new(alloc);
    for edge in 0..graph.edges() {
        let left = match lefts.get(edge as usize) {
            Some(list) => list.as_slice(),
            None => &[],
        };
        steps.push(steps_left(alloc, graph, &mut marks, left, edge)?)?;
    }
    Ok(steps)
}
