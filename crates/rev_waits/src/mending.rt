//! What orders one edge before another.
ghost use Rattle.std.specs.Prelude.{◌≡◌, ◌<◌, ◌↔◌, length, slice_get, IfOk, IfSome, IsSome, IsTrue};
ghost use Rattle.std.specs.Option.{option_copied};
ghost use Rattle.rev_graph.specs.Graph.{build_at, outputs_of};
ghost use Rattle.rev_waits.specs.Mending.{CanMend, IsApart, Mends};

use crate::waiting::{steps, waited_for};
use rev_graph::Graph;
use rev_paths::Name;
use std::alloc::{AllocError, Global};

// The first output of an edge.
fn first_output(graph: &Graph, edge: u32) -> Option<&Name>
    requires { edge < length graph.now.manifest.builds }
    ensures { option_copied result ≡ slice_get (outputs_of (build_at graph.now.manifest.builds edge)) 0 }
{
    let outputs = graph.outputs(edge);
    match outputs.explicit.first() {
        Some(out) => Some(out),
        None => outputs.implicit.first(),
    }
}

// Whether two edges are not one, and the maker does not wait for the user.
fn are_apart(alloc: Global, graph: &Graph, user: u32, maker: u32) -> Result<bool, AllocError>
    requires user { user < length graph.now.manifest.builds }
    requires maker { maker < length graph.now.manifest.builds }
    ensures { IfOk result (λ apart. IsTrue apart ↔ IsApart graph.now.manifest.builds user maker) }
{
    if maker == user {
        return Ok(false);
    }
    let steps = steps(alloc, graph)?;
    let waited = waited_for(alloc, graph, &steps, maker)?;
    Ok(!waited[user as usize])
}

/// What orders an edge behind another, written after `||` on its build line: the first output of that one. With it the
/// edge waits for it, and still no edge waits for itself. `None` where no order can do that: the two are one, the
/// maker waits for the user, or a number is not an edge's. It takes time and memory linear in edges and steps.
///
/// # Errors
/// [`AllocError`] only where an allocation was refused.
pub fn mend<'a>(
    alloc: Global,
    graph: &'a Graph,
    user: u32,
    maker: u32,
) -> Result<Option<&'a Name>, AllocError>
    ensures mends { IfOk result (λ out. IfSome (option_copied out)
        (Mends graph.now.manifest.builds user maker)) }
    ensures found { IfOk result (λ out. IsSome (option_copied out) ↔ CanMend graph.now.manifest.builds user maker) }
{
    let edges = graph.edges();
    if user >= edges {
        return Ok(None);
    }
    if maker >= edges {
        return Ok(None);
    }
    if !are_apart(alloc, graph, user, maker)? {
        return Ok(None);
    }
    let Some(out) = first_output(graph, maker) else {
        return Ok(None);
    };
    let _producer = graph.producer(out);
    Ok(Some(out))
}
