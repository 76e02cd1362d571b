//! Which outputs a text names.
ghost use Rattle.std.specs.Prelude.{◌≡◌, ◌&&◌, ◌==◌, List, ℕ, bytes_eq, find, map, Contains, IfOk};
ghost use Rattle.std.specs.List.{list_any};
ghost use Rattle.std.specs.Option.{option_copied};
ghost use Rattle.indexmap.specs.IndexSet.{contains};
ghost use Rattle.rev_graph.specs.Graph.{build_at, outputs_of};
ghost use Rattle.rev_named.specs.Named.{AreLastComponents, ends_of, is_named_by, is_one, named_output};
ghost use Rattle.rev_named.specs.Words.{path_in};

use crate::components::{LastComponents, component_of};
use crate::words::{path_of, words};
use indexmap::IndexSet;
use rev_graph::Graph;
use rev_paths::Name;
use std::alloc::{AllocError, Global};

// Whether an end of a path is one of some words.
fn is_word(alloc: Global, words: &IndexSet<Name>, end: &[u8]) -> Result<bool, AllocError>
    ensures { IfOk result (λ found. found ≡ is_one (contains bytes_eq words.now) (path_in end.now)) }
{
    let Some(path) = path_of(alloc, end)? else {
        return Ok(false);
    };
    Ok(words.contains(&path))
}

// Whether a byte of a path is a slash behind which one of some words stands.
fn is_end(alloc: Global, words: &IndexSet<Name>, byte: u8, after: &[u8]) -> Result<bool, AllocError>
    ensures { IfOk result (λ found. found ≡ (byte == 47
        && is_one (contains bytes_eq words.now) (path_in after.now))) }
{
    if byte != b'/' {
        return Ok(false);
    }
    is_word(alloc, words, after)
}

// Whether what stands behind a slash of a path is one of some words.
fn has_end(alloc: Global, words: &IndexSet<Name>, path: &[u8]) -> Result<bool, AllocError>
    ensures { IfOk result (λ found. found
        ≡ list_any (λ end. is_one (contains bytes_eq words.now) (path_in end)) (ends_of path.now)) }
{
    let mut rest = path;
    while let Some((byte, after)) = rest.split_first() {
        if is_end(alloc, words, *byte, after)? {
            return Ok(true);
        }
        rest = after;
    }
    Ok(false)
}

// Whether some words name an output of an edge.
fn is_named(
    alloc: Global,
    graph: &Graph,
    components: &LastComponents,
    words: &IndexSet<Name>,
    edge: u32,
    out: &Name,
) -> Result<bool, AllocError>
    requires components { AreLastComponents graph.now.manifest.builds components.now }
    requires out { Contains (outputs_of (build_at graph.now.manifest.builds edge)) out.now }
    ensures { IfOk result (λ named. named
        ≡ is_named_by graph.now.manifest.builds (contains bytes_eq words.now) edge out.now) }
{
    if words.contains(out) {
        return Ok(true);
    }
    if !has_end(alloc, words, out.as_bytes())? {
        return Ok(false);
    }
    let last = component_of(alloc, out)?;
    Ok(components.is_alone(edge, &last))
}

// The first of some outputs of an edge that some words name.
fn first_among<'a>(
    alloc: Global,
    graph: &Graph,
    components: &LastComponents,
    words: &IndexSet<Name>,
    edge: u32,
    outputs: &'a [Name],
) -> Result<Option<&'a Name>, AllocError>
    requires components { AreLastComponents graph.now.manifest.builds components.now }
    requires outputs { (out : List ℕ) → Contains outputs.now out
        → Contains (outputs_of (build_at graph.now.manifest.builds edge)) out }
    ensures { IfOk result (λ named. option_copied named
        ≡ find (is_named_by graph.now.manifest.builds (contains bytes_eq words.now) edge) outputs.now) }
{
    for out in outputs {
        if is_named(alloc, graph, components, words, edge, out)? {
            return Ok(Some(out));
        }
    }
    Ok(None)
}

// The first output of an edge that some words name.
fn first_named<'a>(
    alloc: Global,
    graph: &'a Graph,
    components: &LastComponents,
    words: &IndexSet<Name>,
    edge: u32,
) -> Result<Option<&'a Name>, AllocError>
    requires components { AreLastComponents graph.now.manifest.builds components.now }
    ensures { IfOk result (λ named. option_copied named
        ≡ find (is_named_by graph.now.manifest.builds (contains bytes_eq words.now) edge)
        (outputs_of (build_at graph.now.manifest.builds edge))) }
{
    if edge >= graph.edges() {
        return Ok(None);
    }
    let outputs = graph.outputs(edge);
    let explicit = first_among(alloc, graph, components, words, edge, outputs.explicit)?;
    if explicit.is_some() {
        return Ok(explicit);
    }
    let implicit = first_among(alloc, graph, components, words, edge, outputs.implicit)?;
    Ok(implicit)
}

// For each edge its first output that some words name.
fn all_named<'a>(
    alloc: Global,
    graph: &'a Graph,
    components: &LastComponents,
    words: &IndexSet<Name>,
    edges: &[u32],
) -> Result<Vec<Option<&'a Name>>, AllocError>
    requires { AreLastComponents graph.now.manifest.builds components.now }
    ensures { IfOk result (λ named. map option_copied named.items
        ≡ map (λ edge. find (is_named_by graph.now.manifest.builds (contains bytes_eq words.now) edge)
        (outputs_of (build_at graph.now.manifest.builds edge))) edges.now) }
{
    let mut named = Vec::new(alloc);
    for edge in edges {
        named.push(first_named(alloc, graph, components, words, *edge)?)?;
    }
    Ok(named)
}

/// For each edge its first output that a text names, explicit before implicit ones; none where the text names none.
///
/// The words of the text are what stands between bytes that a file's name does not have, without dots at the end. An
/// output is named where it is a word; or where a word is an end of it, by whole components, and no other edge, and no
/// source, has its last component. Paths are compared in canonical form.
///
/// `components` has the last components of the graph's paths. The text is gone through once; each output takes a look
/// at each of its ends, up to hashing.
///
/// # Errors
/// [`AllocError`] only where an allocation was refused.
pub fn named_outputs<'a>(
    alloc: Global,
    graph: &'a Graph,
    components: &LastComponents,
    text: &[u8],
    edges: &[u32],
) -> Result<Vec<Option<&'a Name>>, AllocError>
    requires { AreLastComponents graph.now.manifest.builds components.now }
    ensures { IfOk result (λ named. map option_copied named.items
        ≡ map (named_output graph.now.manifest.builds text.now) edges.now) }
{
    let found = words(alloc, text)?;
    let named = all_named(alloc, graph, components, &found, edges)?;
    Ok(named)
}
