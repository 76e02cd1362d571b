//! The depths of pools, which can change while a build runs.
ghost use Rattle.std.specs.Prelude.{◌≡◌, ◌<◌, length, not};
ghost use Rattle.rev_events.specs.Kinds.{resize_refusal as resize_refusal_in};
ghost use Rattle.rev_events.specs.Pools.{first_held as first_held_in, present_depth as present_depth_in, present_or, present_pool as present_pool_in, slots_between, slots_lost as slots_lost_in};
ghost use Rattle.rev_events.specs.Refusal.{bad_resize, is_depth as is_depth_in, refuse_if};
ghost use Rattle.rev_events.specs.declared.refusal.Refusal.TheVariants.{BadResize};

use crate::refusal::Refusal;
use crate::words::{given_depth, slot_holder};
use rev_cells::Cells;
use rev_graph::Graph;
use std::ops::Range;

/// The greatest depth that a pool can be given, and that a pool can have to be given another.
const MAX_DEPTH: u32 = 1024;

// The depth that a pool was given, or else that of the manifest.
fn given_or(cells: &Cells, pool: u32, depth: u32) -> u32
    ensures { result ≡ present_or cells.now.state pool depth }
{
    match given_depth(cells, pool) {
        Some(given) => given,
        None => depth,
    }
}

/// The present depth of a pool; `None` where the manifest has no pool of that number.
pub(crate) fn present_depth(graph: &Graph, cells: &Cells, pool: u32) -> Option<u32>
    ensures { result ≡ present_depth_in graph.now.manifest cells.now.state pool }
{
    match graph.depth(pool) {
        Some(depth) => Some(given_or(cells, pool, depth)),
        None => None,
    }
}

/// The number and the present depth of an edge's pool, none where it has no pool, or one of depth 0 in the manifest.
pub(crate) fn present_pool(graph: &Graph, cells: &Cells, edge: u32) -> Option<(u32, u32)>
    requires { edge < length graph.now.manifest.builds }
    ensures { result ≡ present_pool_in graph.now.manifest cells.now.state edge }
{
    match graph.pool(edge) {
        Some((pool, depth)) => Some((pool, given_or(cells, pool, depth))),
        None => None,
    }
}

// Whether a pool can have the depth, to be given another or to be given it.
fn is_depth(depth: u32) -> bool
    ensures { result ≡ is_depth_in depth }
{
    0 < depth && depth <= MAX_DEPTH
}

/// The slots that a pool loses where it is given a depth: those from that depth up to its present one. It loses none
/// where it grows or keeps its depth. It loses none, too, where it cannot be given the depth: the manifest has no such
/// pool, or its present depth or the given one is not from 1 to 1,024.
///
/// It takes constant time.
pub fn slots_lost(graph: &Graph, cells: &Cells, pool: u32, depth: u32) -> Range<u32>
    ensures { slots_between result.start result.end
        ≡ slots_lost_in depth (present_depth_in graph.now.manifest cells.now.state pool) }
{
    match present_depth(graph, cells, pool) {
        Some(present) => {
            if is_depth(present) && is_depth(depth) {
                depth..present
            } else {
                0..0
            }
        }
        None => 0..0,
    }
}

// The first of these slots that is held, with its holder.
fn first_held(cells: &Cells, pool: u32, slots: Range<u32>) -> Option<(u32, u32)>
    ensures { result ≡ first_held_in cells.now.state pool (slots_between slots.start slots.end) }
{
    for slot in slots.start..slots.end {
        if let Some(edge) = slot_holder(cells, pool, slot) {
            return Some((slot, edge));
        }
    }
    None
}

// Whether a pool of this depth, if there is one, can be given another.
fn is_resizable(present: Option<u32>, depth: u32) -> bool
    ensures { bad_resize present depth ≡ refuse_if (not result) BadResize }
{
    match present {
        Some(present) => is_depth(present) && is_depth(depth),
        None => false,
    }
}

/// Why a pool is not given a depth.
pub(crate) fn resize_refusal(graph: &Graph, cells: &Cells, pool: u32, depth: u32) -> Option<Refusal>
    ensures { result ≡ resize_refusal_in graph.now.manifest pool depth cells.now.state }
{
    if !is_resizable(present_depth(graph, cells, pool), depth) {
        return Some(Refusal::BadResize);
    }
    match first_held(cells, pool, slots_lost(graph, cells, pool, depth)) {
        Some((slot, edge)) => Some(Refusal::DepthInUse(slot, edge)),
        None => None,
    }
}
