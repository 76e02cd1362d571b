//! A line of edges, from which the first one is taken.
ghost use Rattle.std.specs.BinaryHeap.{IsHeap, heap_items};
ghost use Rattle.std.specs.Ordering.{nat_cmp, ordering_then};
ghost use Rattle.std.proofs.Props.{props};

use std::cmp::Reverse;
use std::collections::BinaryHeap;

mod calls;

/// Edges, each with the number that it goes by: the one of the least number goes first, of equal numbers the one of the
/// least edge.
#[derive(Drop)]
pub(crate) struct Line {
    heap: BinaryHeap<Reverse<(u64, u32)>>,
    ghost ordered: { IsHeap (λ x y. ordering_then (nat_cmp y.0.0 x.0.0) (nat_cmp y.0.1 x.0.1)) (heap_items heap) } by { Prim.hlevel props },
}
