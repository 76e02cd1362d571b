//! Which paths a build line declares.
ghost use Rattle.std.specs.Prelude.{◌≡◌, ◌<◌, ◌||◌, ◌++◌, ℕ, false, length, slice_index_or, IfOk, IfSome};
ghost use Rattle.std.specs.List.{list_any};
ghost use Rattle.rev_paths.specs.Paths.{place_of};
ghost use Rattle.rev_graph.specs.Graph.{build_at, inputs_of};
ghost use Rattle.rev_looked.specs.Needs.{is_number};

use rev_graph::Graph;
use rev_paths::{Name, Paths};
use std::alloc::{AllocError, Global};

// Whether there is a place, and it is this one.
fn is_path(path: u64, place: Option<u64>) -> bool
    ensures { result ≡ is_number path place }
{
    match place {
        Some(place) => place == path,
        None => false,
    }
}

// Marks a path, if there is one.
fn mark(marks: &mut [bool], place: Option<u64>)
    requires { IfSome place (λ place. place < length marks.old) }
    ensures { (path : ℕ) → path < length marks.old → slice_index_or marks.new path false
        ≡ (slice_index_or marks.old path false || is_number path place) }
{
    let Some(place) = place else {
        return;
    };
    marks[place as usize] = true;
}

// Marks the paths that names are.
fn mark_names(paths: &Paths, names: &[Name], marks: &mut [bool])
    requires { length marks.old ≡ length paths.now }
    ensures { (path : ℕ) → path < length marks.old → slice_index_or marks.new path false
        ≡ (slice_index_or marks.old path false || list_any (λ name. is_number path (place_of name paths.now)) names.now) }
{
    for name in names {
        mark(marks, paths.find(name));
    }
}

/// A mark for each path that is an input on the build line of an edge.
///
/// # Errors
/// [`AllocError`] only where an allocation was refused.
pub(crate) fn declared(
    alloc: Global,
    graph: &Graph,
    paths: &Paths,
    edge: u32,
) -> Result<Vec<bool>, AllocError>
    requires { edge < length graph.now.manifest.builds }
    ensures count { IfOk result (λ marks. length marks.items ≡ length paths.now) }
    ensures each { IfOk result (λ marks. (path : ℕ) → path < length paths.now → slice_index_or marks.items path false
        ≡ list_any (λ name. is_number path (place_of name paths.now)) (inputs_of (build_at graph.now.manifest.builds edge))) }
{
    let mut marks = vec![in alloc; false; paths.len() as usize]?;
    let inputs = graph.inputs(edge);
    mark_names(paths, inputs.explicit, &mut marks);
    mark_names(paths, inputs.implicit, &mut marks);
    mark_names(paths, inputs.order_only, &mut marks);
    Ok(marks)
}

// Whether one of the names is a path.
fn is_one(paths: &Paths, names: &[Name], path: u64) -> bool
    ensures { result ≡ list_any (λ name. is_number path (place_of name paths.now)) names.now }
{
    names.iter().any(|name| is_path(path, paths.find(name)))
}

// Whether one of three holds.
fn any_of(first: bool, second: bool, third: bool) -> bool
    ensures { result ≡ ((first || second) || third) }
{
    first || second || third
}

/// Whether a path is an input on the build line of an edge: the inputs are looked up one by one.
pub(crate) fn is_declared(graph: &Graph, paths: &Paths, edge: u32, path: u64) -> bool
    requires { edge < length graph.now.manifest.builds }
    ensures { result ≡ list_any (λ name. is_number path (place_of name paths.now))
        (inputs_of (build_at graph.now.manifest.builds edge)) }
{
    let inputs = graph.inputs(edge);
    let explicit = is_one(paths, inputs.explicit, path);
    let implicit = is_one(paths, inputs.implicit, path);
    let order_only = is_one(paths, inputs.order_only, path);
    any_of(explicit, implicit, order_only)
}
