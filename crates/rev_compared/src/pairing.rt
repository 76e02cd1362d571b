//! Edges of two manifests that are one.
ghost use Rattle.std.specs.Prelude.{◌≡◌, ◌++◌, ◌∷◌, [], IfOk};
ghost use Rattle.std.specs.Option.{option_copied};
ghost use Rattle.rev_compared.specs.Twins.{is_name as is_name_of, twin_of, twins_of, with_first as with_first_of};

use rev_graph::Graph;
use rev_paths::Name;
use rev_shown::first_output;
use std::alloc::{AllocError, Global};

// Whether there is a name, and it is this one.
fn is_name(out: &Name, found: Option<&Name>) -> bool
    ensures { result ≡ is_name_of out.now (option_copied found.entry) }
{
    match found {
        Some(found) => found == out,
        None => false,
    }
}

// An edge, where its first output is this one.
fn with_first(graph: &Graph, out: &Name, edge: u32) -> Option<u32>
    ensures { result ≡ with_first_of graph.now.manifest.builds out.now edge }
{
    if is_name(out, first_output(graph, edge)) {
        return Some(edge);
    }
    None
}

/// The twin of an edge in another graph: the edge that has the same first output. `None` where the other graph has
/// none.
pub fn twin(graph: &Graph, other: &Graph, edge: u32) -> Option<u32>
    ensures { result ≡ twin_of graph.now.manifest.builds other.now.manifest.builds edge }
{
    let out = first_output(graph, edge)?;
    let found = other.producer(out)?;
    with_first(other, out, found)
}

/// The twins of all edges of a graph in another one, each as [`twin`] gives it, in time linear in the edges up to
/// hashing.
///
/// # Errors
/// [`AllocError`] only where an allocation was refused.
pub fn twins(alloc: Global, graph: &Graph, other: &Graph) -> Result<Vec<Option<u32>>, AllocError>
    ensures { IfOk result (λ twins. twins.items ≡ twins_of graph.now.manifest.builds other.now.manifest.builds) }
{
    let mut twins = Vec::new(alloc);
    for edge in 0..graph.edges() {
        twins.push(twin(graph, other, edge))?;
    }
    Ok(twins)
}
