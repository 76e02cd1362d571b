//! The chain from an edge to the reasons behind it.
ghost use Rattle.std.specs.Prelude.{◌≡◌, ◌<◌, ℕ, [], Option, true, false, length, replicate, option_and_then, IfOk, IfSome, OnOk, slice_get, slice_set};
ghost use Rattle.std.specs.List.{position};
ghost use Rattle.rev_ranks.specs.Sets.{is_marked};
ghost use Rattle.rev_dirty.specs.Reasons.{holds};
ghost use Rattle.rev_plan.specs.Chain.{can_follow, chain_of, counted_producers as counted_producers_in, has_wanted_mark, step_from, told_reasons, turn_from};

use crate::steps::line_producers;
use rev_cells::{Cell, Cells, Mark, Value};
use rev_dirty::{DependencyScan, Reason, listed_inputs, producers_of};
use rev_graph::Graph;
use std::alloc::{AllocError, Global};

/// How an edge's command comes to be run: from the edge by inputs to one with reasons.
#[derive(Debug)]
pub struct Chain {
    /// Each edge that has no reason itself, with the position of the input by which the chain goes on. Positions are
    /// in one list: explicit, implicit and order-only inputs, and then what the deps record lists.
    pub steps: Vec<(u32, u64)>,
    /// The edge at which the chain ends.
    pub last: u32,
    /// The reasons of that edge.
    pub reasons: Vec<Reason>,
}

impl Drop for Chain {
    fn drop(self) {
        let Chain {
            steps: _steps,
            last: _last,
            reasons: _reasons,
        } = self;
    }
}

// Whether the mark of an edge is `Wanted`.
fn is_wanted(cells: &Cells, edge: u32) -> bool
    ensures { result ≡ has_wanted_mark cells.now.state edge }
{
    match cells.get(&Cell::Mark(edge)) {
        Some(Value::Mark(Mark::Wanted)) => true,
        _ => false,
    }
}

// Whether an edge has a mark.
fn is_in(marks: &[bool], edge: u32) -> bool
    ensures { result ≡ is_marked marks.now edge }
{
    marks.get(edge as usize).copied().unwrap_or(false)
}

// Whether there is an edge, and it is wanted and has no mark.
fn follows(cells: &Cells, in_chain: &[bool], producer: Option<u32>) -> bool
    ensures { result ≡ holds (can_follow cells.now.state (is_marked in_chain.now)) producer }
{
    match producer {
        Some(edge) => is_wanted(cells, edge) && !is_in(in_chain, edge),
        None => false,
    }
}

// For each input of an edge the edge that produces it, and none for an order-only one.
fn counted_producers(
    alloc: Global,
    graph: &Graph,
    cells: &Cells,
    edge: u32,
) -> Result<Vec<Option<u32>>, AllocError>
    requires { edge < length graph.now.manifest.builds }
    ensures { IfOk result (λ producers. producers.items
        ≡ counted_producers_in graph.now.manifest.builds cells.now.state edge) }
{
    let (counted, order_only) = line_producers(graph, edge);
    let mut producers = Vec::from_slice(alloc, counted)?;
    let skipped = vec![in alloc; None; order_only.len()]?;
    producers.extend_from_slice(&skipped)?;
    let listed = producers_of(alloc, graph, listed_inputs(graph, cells, edge))?;
    producers.extend_from_slice(&listed)?;
    Ok(producers)
}

// The position of the first producer that is wanted and has no mark.
fn first_follower(cells: &Cells, in_chain: &[bool], producers: &[Option<u32>]) -> Option<usize>
    ensures { result ≡ position (holds (can_follow cells.now.state (is_marked in_chain.now)))
        producers.now }
{
    producers
        .iter()
        .position(|producer| follows(cells, in_chain, *producer))
}

// The producer at a position, if there is one.
fn producer_at(producers: &[Option<u32>], position: usize) -> Option<u32>
    ensures { result ≡ option_and_then (λ (producer : Option ℕ). producer)
        (slice_get producers.now position) }
{
    match producers.get(position) {
        Some(producer) => *producer,
        None => None,
    }
}

// Where a chain goes from an edge, if it goes on.
fn next_step(
    alloc: Global,
    graph: &Graph,
    cells: &Cells,
    in_chain: &[bool],
    edge: u32,
) -> Result<Option<(u64, u32)>, AllocError>
    requires { edge < length graph.now.manifest.builds }
    ensures { IfOk result (λ step. step
        ≡ step_from graph.now.manifest.builds cells.now.state (is_marked in_chain.now) edge) }
{
    let producers = counted_producers(alloc, graph, cells, edge)?;
    let Some(position) = first_follower(cells, in_chain, &producers) else {
        return Ok(None);
    };
    match producer_at(&producers, position) {
        Some(next) => Ok(Some((position as u64, next))),
        None => Ok(None),
    }
}

// Where a chain goes from an edge that it has come to, if it goes on: the edge then has its mark. What is told of the edge
// is put into `reasons`.
fn turn_at(
    alloc: Global,
    graph: &Graph,
    cells: &Cells,
    scan: &mut DependencyScan<'_>,
    in_chain: &mut Vec<bool>,
    edge: u32,
    reasons: &mut Vec<Reason>,
) -> Result<Option<(u64, u32)>, AllocError>
    requires edge { edge < length graph.now.manifest.builds }
    requires each { length in_chain.old.items ≡ length graph.now.manifest.builds }
    requires graph { scan.old.graph ≡ graph.now }
    requires state { scan.old.state ≡ cells.now.state }
    requires none { reasons.old.items ≡ [] }
    ensures turn { IfOk result (λ turn. turn ≡ turn_from graph.now.manifest.builds cells.now.state
        (is_marked (slice_set in_chain.old.items edge true)) edge) }
    ensures marks { IfOk result (λ turn.
        IfSome turn (λ _. in_chain.new.items ≡ slice_set in_chain.old.items edge true)) }
    ensures reasons { OnOk result (reasons.new.items
        ≡ told_reasons graph.now.manifest.builds cells.now.state edge) }
    ensures same { scan.new ≡ scan.old }
{
    if !is_wanted(cells, edge) {
        return Ok(None);
    }
    *reasons = scan.reasons(edge)?;
    if !reasons.is_empty() {
        return Ok(None);
    }
    in_chain[edge as usize] = true;
    next_step(alloc, graph, cells, in_chain, edge)
}

// Goes on from an edge, adds the steps of the chain, and gives the edge at which it ends. What is told of that edge is
// put into `reasons`.
fn walk(
    alloc: Global,
    graph: &Graph,
    cells: &Cells,
    scan: &mut DependencyScan<'_>,
    in_chain: &mut Vec<bool>,
    edge: u32,
    steps: &mut Vec<(u32, u64)>,
    reasons: &mut Vec<Reason>,
) -> Result<u32, AllocError>
    requires edge { edge < length graph.now.manifest.builds }
    requires in_chain { in_chain.old.items ≡ replicate (length graph.now.manifest.builds) false }
    requires graph { scan.old.graph ≡ graph.now }
    requires state { scan.old.state ≡ cells.now.state }
    requires no_steps { steps.old.items ≡ [] }
    requires no_reasons { reasons.old.items ≡ [] }
    ensures { IfOk result (λ last. chain_of graph.now.manifest.builds cells.now.state edge
        ≡ record { steps = steps.new.items; last = last; reasons = reasons.new.items }) }
{
    let mut last = edge;
    'turns: while let Some((position, next)) = turn_at(
        alloc, graph, cells, scan, in_chain, last, reasons,
    )? {
        steps.push((last, position))?;
        last = next;
    }
    Ok(last)
}

/// The chain from an edge. At an edge that is not `Wanted` it ends with no reasons. At one with reasons it ends with
/// them. Else it steps by the first input, not order-only, whose producer is `Wanted` and not yet in the chain; without
/// one it ends with no reasons.
///
/// # Errors
/// [`AllocError`] only where an allocation was refused.
pub fn why(alloc: Global, graph: &Graph, cells: &Cells, edge: u32) -> Result<Chain, AllocError>
    requires { edge < length graph.now.manifest.builds }
    ensures steps { IfOk result (λ chain. chain.steps.items
        ≡ (chain_of graph.now.manifest.builds cells.now.state edge).steps) }
    ensures last { IfOk result (λ chain. chain.last
        ≡ (chain_of graph.now.manifest.builds cells.now.state edge).last) }
    ensures reasons { IfOk result (λ chain. chain.reasons.items
        ≡ (chain_of graph.now.manifest.builds cells.now.state edge).reasons) }
{
    let mut in_chain = vec![in alloc; false; graph.edges() as usize]?;
    let mut scan = DependencyScan::new(alloc, graph, cells);
    let mut steps = Vec::new(alloc);
    let mut reasons = Vec::new(alloc);
    let last = walk(
        alloc,
        graph,
        cells,
        &mut scan,
        &mut in_chain,
        edge,
        &mut steps,
        &mut reasons,
    )?;
    Ok(Chain {
        steps,
        last,
        reasons,
    })
}
