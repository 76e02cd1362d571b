//! Edges expanded on several threads: each thread takes a part of the list.
ghost use Rattle.std.specs.Prelude.{◌++◌, map, IfOk, IfSome, List};
ghost use Rattle.std.specs.Thread.{IsSync};
ghost use Rattle.rev_scopes.specs.Scopes.{ScopeValue};
ghost use Rattle.rev_manifest.specs.Pools.{PoolValue};
ghost use Rattle.rev_manifest.specs.Declarations.{DeclaredEdgeValue};
ghost use Rattle.rev_manifest.specs.Manifest.{AreEnded};
ghost use Rattle.rev_manifest.specs.Held.{seen_edge};

use crate::declarations::DeclaredEdge;
use crate::ends::{EndedEdges, builds_of};
use crate::fault::ReadFault;
use crate::pools::Pools;
use rev_scopes::Scopes;
use std::alloc::{AllocError, Global};
use std::thread::{Threads, join};

/// The fewest edges that a thread is started for.
const FEWEST_EDGES: usize = 512;

// The edges of two parts, of which each was ended where so many bytes of values might be made. None are given where one
// part may have a fault, or the two make more together.
fn joined(
    room: usize,
    earlier: Result<Option<EndedEdges>, AllocError>,
    later: Result<Option<EndedEdges>, AllocError>,
) -> Result<Option<EndedEdges>, AllocError>
    ensures { (scopes : List ScopeValue) (pools : List PoolValue) (front back : List DeclaredEdgeValue)
        → IfOk earlier (λ found. IfSome found (λ ended. AreEnded scopes pools room ended.left front ended.builds.items))
        → IfOk later (λ found. IfSome found (λ ended. AreEnded scopes pools room ended.left back ended.builds.items))
        → IfOk result (λ found. IfSome found (λ ended. AreEnded scopes pools room ended.left (front ++ back) ended.builds.items)) }
{
    let Some(first) = earlier? else {
        return Ok(None);
    };
    let Some(second) = later? else {
        return Ok(None);
    };
    let Some(made) = room.checked_sub(second.left) else {
        return Ok(None);
    };
    let Some(left) = first.left.checked_sub(made) else {
        return Ok(None);
    };
    let mut builds = first.builds;
    let mut others = second.builds;
    builds.append(&mut others)?;
    Ok(Some(EndedEdges { builds, left }))
}

// The edges of a part, where so many bytes of values may be made. None are given where one has a fault.
fn part_of(
    alloc: Global,
    scopes: &Scopes,
    pools: &Pools,
    room: usize,
    edges: Vec<DeclaredEdge>,
) -> Result<Option<EndedEdges>, AllocError>
    ensures { IfOk result (λ found.
        IfSome found (λ ended.
        AreEnded scopes.now pools.now room ended.left (map seen_edge edges.items) ended.builds.items)) }
{
    match builds_of(alloc, scopes, pools, room, edges) {
        Ok(ended) => Ok(Some(ended)),
        Err(ReadFault::Memory) => Err(AllocError),
        Err(ReadFault::Manifest(_)) => Ok(None),
    }
}

// The edges in reading order, ended on so many threads, where so many bytes of values may be made. None are given where
// one may have a fault.
fn builds_on<R: Threads + Sync>(
    rt: &R,
    alloc: Global,
    scopes: &Scopes,
    pools: &Pools,
    room: usize,
    mut edges: Vec<DeclaredEdge>,
    threads: usize,
) -> Result<Option<EndedEdges>, AllocError>
    ensures { IfOk result (λ found.
        IfSome found (λ ended.
        AreEnded scopes.now pools.now room ended.left (map seen_edge edges.items) ended.builds.items)) }
{
    if threads < 2 {
        return part_of(alloc, scopes, pools, room, edges);
    }
    let fewer = threads / 2;
    let place = (edges.len() / threads)
        .saturating_mul(fewer)
        .min(edges.len());
    let more = threads - fewer;
    let others = edges.split_off(place)?;
    // Else the earlier edges would keep the room of all.
    edges.shrink_to_fit();
    let (earlier, later) = join(
        rt,
        move || -> Result<Option<EndedEdges>, AllocError>
            requires { IsSync R.row }
            ensures { IfOk result (λ found.
                IfSome found (λ ended.
                AreEnded scopes.entry.now pools.entry.now room ended.left (map seen_edge edges.items) ended.builds.items)) }
        { builds_on(rt, alloc, scopes, pools, room, edges, fewer) },
        move || -> Result<Option<EndedEdges>, AllocError>
            requires { IsSync R.row }
            ensures { IfOk result (λ found.
                IfSome found (λ ended.
                AreEnded scopes.entry.now pools.entry.now room ended.left (map seen_edge others.items) ended.builds.items)) }
        { builds_on(rt, alloc, scopes, pools, room, others, more) },
    );
    joined(room, earlier, later)
}

/// The edges in reading order, ended on as many threads as there are processors, and on fewer where there are few edges.
/// So many bytes of values may be made. None are given where an edge may have a fault.
pub(crate) fn builds_by_threads<R: Threads + Sync>(
    rt: &R,
    alloc: Global,
    scopes: &Scopes,
    pools: &Pools,
    room: usize,
    edges: Vec<DeclaredEdge>,
) -> Result<Option<EndedEdges>, AllocError>
    ensures { IfOk result (λ found.
        IfSome found (λ ended.
        AreEnded scopes.now pools.now room ended.left (map seen_edge edges.items) ended.builds.items)) }
{
    let most = edges.len() / FEWEST_EDGES;
    let threads = match std::thread::available_parallelism(rt) {
        Ok(processors) => processors.get().min(most),
        Err(_) => 1,
    };
    builds_on(rt, alloc, scopes, pools, room, edges, threads)
}
