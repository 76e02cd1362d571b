//! Which edges each edge steps to, and the ranks of edges.
ghost use Rattle.std.specs.Prelude.{◌≡◌, ◌<◌, ◌≤◌, ◌++◌, ℕ, List, map, length, slice_get, None, Some, IfOk, IfErr, OnOk};
ghost use Rattle.std.specs.Option.{option_or, option_copied};
ghost use Rattle.std.specs.List.{filter_map, list_any};
ghost use Rattle.rev_ranks.specs.Graph.{graph_of};
ghost use Rattle.rev_graph.specs.Entries.{entry, given, produced_by};
ghost use Rattle.rev_graph.specs.Fault.{Explains};
ghost use Rattle.rev_graph.specs.Graph.{outputs_of, inputs_of, has_path, needs, input_producers, successor_lists, EdgeReaches, IsLeastOnCycle, IsRanked, build_at, first_double};
ghost use Rattle.rev_graph.specs.Lists.{lists_of};
ghost use Rattle.rev_graph.specs.declared.graph.TheConstants.Graph.{MAX_EDGES};

use crate::fault::GraphFault;
use crate::table::{Table, add, value_or_add};
use rev_manifest::Build;
use rev_paths::Name;
use rev_ranks::{RankFault, ranks};
use std::alloc::{AllocError, Global};

// Adds the producers of names. The table has the names from then on.
fn push_producers(
    producers: &mut Vec<Option<u32>>,
    table: &mut Table,
    names: &[Name],
) -> Result<(), AllocError>
    ensures producers { OnOk result (producers.new.items
        ≡ producers.old.items ++ map (produced_by table.old.entries) names.now) }
    ensures entries { OnOk result ((path : List ℕ)
        → entry table.new.entries path
        ≡ option_or (entry table.old.entries path) (given (has_path names.now path) None)) }
{
    for name in names {
        producers.push(value_or_add(table, name, None)?)?;
    }
    Ok(())
}

// The producers of an edge's inputs. The table has all of its build line from then on.
fn producers_of(
    alloc: Global,
    table: &mut Table,
    edge: &Build,
) -> Result<Vec<Option<u32>>, AllocError>
    ensures producers { IfOk result (λ producers. producers.items
        ≡ map (produced_by table.old.entries) (inputs_of edge.now)) }
    ensures entries { OnOk result ((path : List ℕ)
        → entry table.new.entries path
        ≡ option_or (entry table.old.entries path) (given (needs path edge.now) None)) }
{
    let (explicit, implicit, order_only) = (edge.explicit(), edge.implicit(), edge.order_only());
    let inputs = explicit
        .len()
        .saturating_add(implicit.len())
        .saturating_add(order_only.len());
    let mut producers = Vec::with_capacity(alloc, inputs)?;
    push_producers(&mut producers, table, explicit)?;
    push_producers(&mut producers, table, implicit)?;
    push_producers(&mut producers, table, order_only)?;
    add(table, edge.validations(), None)?;
    Ok(producers)
}

/// For each edge the producers of its inputs, in order, where the table has all outputs. It has all of the build lines
/// from then on.
pub(crate) fn all_producers(
    alloc: Global,
    table: &mut Table,
    edges: &[Build],
) -> Result<Vec<Vec<Option<u32>>>, AllocError>
    ensures producers { IfOk result (λ all. lists_of all.items
        ≡ map (λ build. map (produced_by table.old.entries) (inputs_of build)) edges.now) }
    ensures entries { OnOk result ((path : List ℕ)
        → entry table.new.entries path
        ≡ option_or (entry table.old.entries path)
        (given (list_any (needs path) edges.now) None)) }
{
    let mut all = Vec::with_capacity(alloc, edges.len())?;
    for edge in edges {
        all.push(producers_of(alloc, table, edge)?)?;
    }
    Ok(all)
}

/// The edges among producers, in their order; a path that nothing produces has none.
///
/// # Errors
/// [`AllocError`] where an allocation was refused.
pub fn edges_among(alloc: Global, producers: &[Option<u32>]) -> Result<Vec<u32>, AllocError>
    ensures { IfOk result (λ edges. edges.items ≡ filter_map (λ producer. producer) producers.now) }
{
    producers
        .iter()
        .filter_map(|producer| *producer)
        .collect(alloc)
}

// For each edge the edges that it steps to.
fn all_successors(
    alloc: Global,
    producers: &[Vec<Option<u32>>],
) -> Result<Vec<Vec<u32>>, AllocError>
    ensures { IfOk result (λ all. graph_of all.items
        ≡ map (filter_map (λ producer. producer)) (lists_of producers.now)) }
{
    let mut all = Vec::with_capacity(alloc, producers.len())?;
    for list in producers {
        all.push(edges_among(alloc, list)?)?;
    }
    Ok(all)
}

// The first output of an edge that has one.
fn first_output(edge: &Build) -> Result<Name, AllocError>
    requires { 0 < length (outputs_of edge.now) }
    ensures { IfOk result (λ name. slice_get (outputs_of edge.now) 0 ≡ Some name) }
{
    if let Some(name) = edge.explicit_outs().first() {
        return name.copy();
    }
    match edge.implicit_outs().first() {
        Some(name) => name.copy(),
        None => unreachable!(),
    }
}

// The fault that names the least edge on a cycle.
fn cycle_at(edges: &[Build], edge: u32) -> Result<GraphFault, AllocError>
    requires few { length edges.now ≤ MAX_EDGES }
    requires single { first_double edges.now ≡ None }
    requires cycle { IsLeastOnCycle edges.now edge }
    ensures { IfOk result (λ fault. Explains fault edges.now) }
{
    let name = first_output(&edges[edge as usize])?;
    Ok(GraphFault::Cycle(name))
}

// Ranks of the nodes, by the producers of each edge's inputs.
fn ranks_by(alloc: Global, edges: &[Build], successors: &[Vec<u32>]) -> Result<Vec<u32>, GraphFault>
    requires few { length edges.now ≤ MAX_EDGES }
    requires single { first_double edges.now ≡ None }
    requires successors { graph_of successors.now ≡ successor_lists edges.now }
    ensures ranked { IfOk result (λ ranks. IsRanked edges.now ranks.items) }
    ensures acyclic { OnOk result ((edge : ℕ) → EdgeReaches edges.now edge edge → ⊥) }
    ensures fault { IfErr result (λ fault. Explains fault edges.now) }
{
    match ranks(alloc, successors) {
        Ok(ranks) => Ok(ranks),
        Err(RankFault::Memory) => Err(GraphFault::Memory),
        Err(RankFault::Cycle(edge)) => Err(cycle_at(edges, edge)?),
    }
}

/// Ranks of edges, each below their number and above the ranks of the edges that it steps to.
///
/// # Errors
/// [`GraphFault::Cycle`] with the first output of the least edge that reaches itself, and [`GraphFault::Memory`].
pub(crate) fn ranks_of(
    alloc: Global,
    edges: &[Build],
    producers: &[Vec<Option<u32>>],
) -> Result<Vec<u32>, GraphFault>
    requires few { length edges.now ≤ MAX_EDGES }
    requires single { first_double edges.now ≡ None }
    requires producers { lists_of producers.now ≡ map (input_producers edges.now) edges.now }
    ensures ranked { IfOk result (λ ranks. IsRanked edges.now ranks.items) }
    ensures acyclic { OnOk result ((edge : ℕ) → EdgeReaches edges.now edge edge → ⊥) }
    ensures fault { IfErr result (λ fault. Explains fault edges.now) }
{
    let successors = all_successors(alloc, producers)?;
    ranks_by(alloc, edges, &successors)
}
