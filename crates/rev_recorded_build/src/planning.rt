//! The build that was recorded, as it can be scheduled again.
use crate::orders::{
    duration_of, has_mark, live_marks, makers_first, place_of, places_in_plan, weights,
};
use rev_graph::Graph;
use rev_manifest::Manifest;
use rev_paths::Name;
use rev_schedule::{Build, Job};
use std::alloc::{AllocError, Global};

// The edges that make some paths.
fn made_by(alloc: Global, graph: &Graph, paths: &[Name]) -> Result<Vec<u32>, AllocError> {
    let mut edges = Vec::new(alloc);
    for path in paths {
        if let Some(edge) = graph.producer(path) {
            edges.push(edge)?;
        }
    }
    Ok(edges)
}

// Marks the makers of all edges.
fn used_marks(alloc: Global, steps: &[Vec<u32>]) -> Result<Vec<bool>, AllocError> {
    let mut marks = vec![in alloc; false; steps.len()]?;
    for list in steps {
        for maker in list {
            if let Some(mark) = marks.get_mut(*maker as usize) {
                *mark = true;
            }
        }
    }
    Ok(marks)
}

// The edges that make no input of another.
fn roots(alloc: Global, graph: &Graph, steps: &[Vec<u32>]) -> Result<Vec<u32>, AllocError> {
    let used = used_marks(alloc, steps)?;
    let mut edges = Vec::new(alloc);
    for edge in 0..graph.edges() {
        if !has_mark(&used, edge) {
            edges.push(edge)?;
        }
    }
    Ok(edges)
}

// The edges of the targets of a build: of those that are named, else of the defaults, else all that make no input.
fn target_edges(
    alloc: Global,
    graph: &Graph,
    steps: &[Vec<u32>],
    targets: &[Name],
) -> Result<Vec<u32>, AllocError> {
    if !targets.is_empty() {
        return made_by(alloc, graph, targets);
    }
    if !graph.defaults().is_empty() {
        return made_by(alloc, graph, graph.defaults());
    }
    roots(alloc, graph, steps)
}

// Adds the edges that ran and that no target needs, as those of validations.
fn with_validations(
    alloc: Global,
    graph: &Graph,
    steps: &[Vec<u32>],
    durations: &[Option<u32>],
    targets: Vec<u32>,
) -> Result<Vec<u32>, AllocError> {
    let needed = places_in_plan(alloc, steps, &targets)?;
    let mut targets = targets;
    for edge in 0..graph.edges() {
        if duration_of(durations, edge).is_some() && place_of(&needed, edge).is_none() {
            targets.push(edge)?;
        }
    }
    Ok(targets)
}

// Marks of the edges that Ninja had in mind: those that the targets need and that ran, or for which one ran.
fn wanted_marks(
    alloc: Global,
    graph: &Graph,
    steps: &[Vec<u32>],
    durations: &[Option<u32>],
    targets: &[u32],
) -> Result<Vec<bool>, AllocError> {
    let edges = makers_first(alloc, graph)?;
    let live = live_marks(alloc, &edges, steps, durations)?;
    let needed = places_in_plan(alloc, steps, targets)?;
    let mut marks = Vec::new(alloc);
    for edge in 0..graph.edges() {
        marks.push(has_mark(&live, edge) && place_of(&needed, edge).is_some())?;
    }
    Ok(marks)
}

// The makers of an edge that have a mark; none where the edge has none.
fn kept_makers(
    alloc: Global,
    steps: &[Vec<u32>],
    marks: &[bool],
    edge: u32,
) -> Result<Vec<u32>, AllocError> {
    let mut kept = Vec::new(alloc);
    let Some(makers) = steps.get(edge as usize) else {
        return Ok(kept);
    };
    if !has_mark(marks, edge) {
        return Ok(kept);
    }
    for maker in makers {
        if has_mark(marks, *maker) {
            kept.push(*maker)?;
        }
    }
    Ok(kept)
}

// For each edge with a mark those of its makers that have one; of another edge nothing.
fn marked_makers(
    alloc: Global,
    graph: &Graph,
    steps: &[Vec<u32>],
    marks: &[bool],
) -> Result<Vec<Vec<u32>>, AllocError> {
    let mut makers = Vec::new(alloc);
    for edge in 0..graph.edges() {
        makers.push(kept_makers(alloc, steps, marks, edge)?)?;
    }
    Ok(makers)
}

// The turns of edges that are ready, and of those that wait for nobody as the build begins.
#[derive(Drop)]
struct Turns {
    rank: Vec<u64>,
    planned: Vec<Option<u64>>,
}

// Ranks that fall as the weight rises.
fn ranks_by_weight(alloc: Global, weights: &[u64]) -> Result<Vec<u64>, AllocError> {
    let mut ranks = Vec::with_capacity(alloc, weights.len())?;
    for weight in weights {
        ranks.push(u64::MAX.saturating_sub(*weight))?;
    }
    Ok(ranks)
}

// For each edge the weight of its own that Ninja gives it: 1, and 0 where it is phony.
fn own_weights(alloc: Global, graph: &Graph) -> Result<Vec<u64>, AllocError> {
    let mut owns = Vec::new(alloc);
    for edge in 0..graph.edges() {
        owns.push(if graph.is_phony(edge) { 0 } else { 1 })?;
    }
    Ok(owns)
}

// The job of an edge whose command took so long, if it ran. Pool 0 has no limit, and pool n + 1 is the manifest's pool n.
fn job_of(manifest: &Manifest, turns: &Turns, edge: u32, duration: Option<u32>) -> Job {
    let rank = turns.rank.get(edge as usize).copied().unwrap_or(0);
    let planned = place_of(&turns.planned, edge).unwrap_or(rank);
    let pool = match manifest.builds().get(edge as usize) {
        Some(build) if duration.is_some() => build.pool(),
        _ => None,
    };
    Job {
        duration: duration.unwrap_or(0),
        pool: pool.map_or(0, |pool| pool.saturating_add(1)),
        rank,
        planned,
        phony: duration.is_none(),
    }
}

// The depths of the pools: one without a limit, and those of the manifest.
fn depths_of(alloc: Global, manifest: &Manifest) -> Result<Vec<u32>, AllocError> {
    let mut depths = Vec::new(alloc);
    depths.push(0)?;
    for pool in manifest.pools() {
        depths.push(pool.1)?;
    }
    Ok(depths)
}

// The jobs of the edges.
fn jobs_of(
    alloc: Global,
    manifest: &Manifest,
    graph: &Graph,
    turns: &Turns,
    durations: &[Option<u32>],
) -> Result<Vec<Job>, AllocError> {
    let mut jobs = Vec::new(alloc);
    for edge in 0..graph.edges() {
        jobs.push(job_of(manifest, turns, edge, duration_of(durations, edge)))?;
    }
    Ok(jobs)
}

// The edges that wait for each other, and those that the targets name.
#[derive(Drop)]
struct Wanted {
    makers: Vec<Vec<u32>>,
    targets: Vec<u32>,
}

// What Ninja had in mind.
fn wanted_by(
    alloc: Global,
    graph: &Graph,
    steps: &[Vec<u32>],
    durations: &[Option<u32>],
    targets: &[Name],
) -> Result<Wanted, AllocError> {
    let named = target_edges(alloc, graph, steps, targets)?;
    let targets = with_validations(alloc, graph, steps, durations, named)?;
    let marks = wanted_marks(alloc, graph, steps, durations, &targets)?;
    let makers = marked_makers(alloc, graph, steps, &marks)?;
    Ok(Wanted { makers, targets })
}

// The build of the jobs and of those who wait.
fn build_with(
    alloc: Global,
    manifest: &Manifest,
    graph: &Graph,
    turns: &Turns,
    durations: &[Option<u32>],
    makers: Vec<Vec<u32>>,
) -> Result<Build, AllocError> {
    Ok(Build {
        jobs: jobs_of(alloc, manifest, graph, turns, durations)?,
        depths: depths_of(alloc, manifest)?,
        makers,
    })
}

/// The build in which commands took so long, by the numbers of their edges: none of an edge that did not run. Edges that
/// are ready start by their numbers, and come first to their pools in the order of the plan, as up to Ninja 1.11. The
/// edges keep their numbers. An edge that did not run takes no time, and one waits for it only where it waits for one
/// that ran. `steps` has for each edge the edges that it waits for, and `targets` are those that were named. Pool 0 has
/// no limit, and pool n + 1 is the manifest's pool n.
///
/// # Errors
/// [`AllocError`] only where an allocation was refused.
pub fn build_by_numbers(
    alloc: Global,
    manifest: &Manifest,
    graph: &Graph,
    steps: &[Vec<u32>],
    durations: &[Option<u32>],
    targets: &[Name],
) -> Result<Build, AllocError> {
    let wanted = wanted_by(alloc, graph, steps, durations, targets)?;
    let turns = Turns {
        rank: Vec::new(alloc),
        planned: places_in_plan(alloc, &wanted.makers, &wanted.targets)?,
    };
    build_with(alloc, manifest, graph, &turns, durations, wanted.makers)
}

/// The same build, in which edges that are ready start by the weight of the critical path, as from Ninja 1.12 on.
///
/// # Errors
/// As [`build_by_numbers`].
pub fn build_by_weights(
    alloc: Global,
    manifest: &Manifest,
    graph: &Graph,
    steps: &[Vec<u32>],
    durations: &[Option<u32>],
    targets: &[Name],
) -> Result<Build, AllocError> {
    let wanted = wanted_by(alloc, graph, steps, durations, targets)?;
    let edges = makers_first(alloc, graph)?;
    let owns = own_weights(alloc, graph)?;
    let weights = weights(alloc, &edges, &wanted.makers, &owns)?;
    let turns = Turns {
        rank: ranks_by_weight(alloc, &weights)?,
        planned: Vec::new(alloc),
    };
    build_with(alloc, manifest, graph, &turns, durations, wanted.makers)
}
