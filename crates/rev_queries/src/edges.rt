//! Edges by their outputs, and edges that wait for others.
ghost use Rattle.std.specs.Prelude.{◌≡◌, ◌<◌, ◌++◌, ◌∷◌, [], ◌||◌, if◌then◌else◌, length, IfOk, OnOk};
ghost use Rattle.std.specs.List.{list_any};
ghost use Rattle.rev_filters.specs.Patterns.{matches as matches_of};
ghost use Rattle.rev_queries.specs.Edges.{edges_like as edges_by, has_match as has_match_of, has_output_of as has_output_by, users_of};
ghost use Rattle.rev_runs.specs.Edges.{is_edge as is_edge_of};

use rev_filters::matches;
use rev_graph::Graph;
use rev_paths::Name;
use std::alloc::{AllocError, Global};

// Whether one of some outputs matches a pattern.
fn any_matches(alloc: Global, pattern: &[u8], outputs: &[Name]) -> Result<bool, AllocError>
    ensures { IfOk result (λ found. found ≡ list_any (matches_of pattern.now) outputs.now) }
{
    for output in outputs {
        if matches(alloc, pattern, output.as_bytes())? {
            return Ok(true);
        }
    }
    Ok(false)
}

// Whether an output of an edge matches a pattern.
fn has_match(alloc: Global, graph: &Graph, pattern: &[u8], edge: u32) -> Result<bool, AllocError>
    requires { edge < length graph.now.manifest.builds }
    ensures { IfOk result (λ found. found ≡ has_match_of graph.now.manifest.builds pattern.now edge) }
{
    let outputs = graph.outputs(edge);
    if any_matches(alloc, pattern, outputs.explicit)? {
        return Ok(true);
    }
    any_matches(alloc, pattern, outputs.implicit)
}

// Adds a number that passes.
fn add_where(numbers: &mut Vec<u32>, number: u32, passes: bool) -> Result<(), AllocError>
    ensures { OnOk result (numbers.new.items ≡ numbers.old.items ++ (if passes then number ∷ [] else [])) }
{
    if passes {
        numbers.push(number)?;
    }
    Ok(())
}

/// The edges that have an output which matches a pattern, in their order. In the pattern `*` stands for any bytes, also
/// for none, and every other byte for itself. It takes time linear in the bytes of the outputs times those of the
/// pattern.
///
/// # Errors
/// [`AllocError`] only where an allocation was refused.
pub fn edges_like(alloc: Global, graph: &Graph, pattern: &[u8]) -> Result<Vec<u32>, AllocError>
    ensures { IfOk result (λ edges. edges.items ≡ edges_by graph.now.manifest.builds pattern.now) }
{
    let mut edges = Vec::new(alloc);
    for edge in 0..graph.edges() {
        let passes = has_match(alloc, graph, pattern, edge)?;
        add_where(&mut edges, edge, passes)?;
    }
    Ok(edges)
}

// Whether there is an edge, and it is this one.
fn is_edge(edge: u32, found: Option<u32>) -> bool
    ensures { result ≡ is_edge_of edge found }
{
    match found {
        Some(found) => found == edge,
        None => false,
    }
}

// Whether an edge has an output of another one as an explicit, implicit or order-only input.
fn has_output_of(graph: &Graph, edge: u32, other: u32) -> bool
    requires { other < length graph.now.manifest.builds }
    ensures { result ≡ has_output_by graph.now.manifest.builds edge other }
{
    graph
        .producers(other)
        .iter()
        .any(|producer| is_edge(edge, *producer))
}

/// The edges that wait for an edge itself, in their order: those that have an output of it as an explicit, implicit or
/// order-only input. Each input of an edge is looked at once.
///
/// # Errors
/// [`AllocError`] only where an allocation was refused.
pub fn users(alloc: Global, graph: &Graph, edge: u32) -> Result<Vec<u32>, AllocError>
    ensures { IfOk result (λ edges. edges.items ≡ users_of graph.now.manifest.builds edge) }
{
    let mut edges = Vec::new(alloc);
    for other in 0..graph.edges() {
        let passes = has_output_of(graph, edge, other);
        add_where(&mut edges, other, passes)?;
    }
    Ok(edges)
}
