//! Lists with nothing to tell, found by a look at each path.
ghost use Rattle.std.specs.Prelude.{◌≡◌, ◌<◌, ◌⊎◌, ℕ, List, None, Some, false, true, bytes_eq, length, slice_index_or, IfOk, OnOk, IsTrue};
ghost use Rattle.std.specs.List.{All};
ghost use Rattle.indexmap.specs.IndexSet.{contains};
ghost use Rattle.rev_graph.specs.Graph.{successor_lists};
ghost use Rattle.rev_ranks.specs.Graph.{graph_of};
ghost use Rattle.rev_races.specs.Endings.{AreEndings};
ghost use Rattle.rev_races.specs.Searches.{AreDirect, IsCovered, IsFirstOrQuiet, IsQuiet};

use crate::endings::may_be_made;
use crate::order::is_new;
use crate::runs::at;
use indexmap::IndexSet;
use rev_graph::Graph;
use rev_paths::Name;
use std::alloc::{AllocError, Global};

/// Marks the edges that an edge steps to with its number. Marks are not cleared: a mark with another number is none.
pub fn mark_direct(steps: &[Vec<u32>], edge: u32, direct: &mut Vec<Option<u32>>)
    requires edge { edge < length steps.now }
    requires inside { All (λ v. All (λ s. s < length steps.now) v.items) steps.now }
    requires direct { AreDirect (graph_of steps.now) direct.old.items }
    ensures { AreDirect (graph_of steps.now) direct.new.items }
{
    let producers = steps[edge as usize].as_slice();
    for producer in producers {
        direct[*producer as usize] = Some(edge);
    }
}

/// Whether a mark says that an edge steps to a node: the last edge whose marks were made.
pub fn is_marked(direct: &[Option<u32>], node: u32, edge: u32) -> bool
    ensures { IsTrue result → slice_index_or direct.now node None ≡ Some edge }
{
    match at(direct, node) {
        Some(marked) => marked == edge,
        None => false,
    }
}

// Whether an edge makes a path, or others do, that the user may not wait for: no edge that the user steps to produces
// it.
fn is_suspect(
    graph: &Graph,
    endings: &[bool],
    direct: &[Option<u32>],
    user: u32,
    path: &Name,
) -> bool
    requires endings { AreEndings graph.now.manifest.builds endings.now }
    requires direct { AreDirect (successor_lists graph.now.manifest.builds) direct.now }
    ensures { result ≡ false → IsQuiet graph.now.manifest.builds user path.now }
{
    if !may_be_made(endings, path) {
        return false;
    }
    match graph.producer(path) {
        Some(producer) => !is_marked(direct, producer, user),
        None => false,
    }
}

// Whether a path may be told and was not seen, of which it is one then.
fn is_new_suspect(
    graph: &Graph,
    endings: &[bool],
    direct: &[Option<u32>],
    user: u32,
    path: &Name,
    seen: &mut IndexSet<Name>,
) -> Result<bool, AllocError>
    requires endings { AreEndings graph.now.manifest.builds endings.now }
    requires direct { AreDirect (successor_lists graph.now.manifest.builds) direct.now }
    ensures new { IfOk result (λ new. new ≡ true → contains bytes_eq seen.old path.now ≡ false) }
    ensures passed { IfOk result (λ new. new ≡ false
        → (contains bytes_eq seen.old path.now ≡ true) ⊎ IsQuiet graph.now.manifest.builds user path.now) }
    ensures noted { OnOk result ((contains bytes_eq seen.new path.now ≡ true)
        ⊎ IsQuiet graph.now.manifest.builds user path.now) }
    ensures kept { OnOk result ((other : List ℕ) → contains bytes_eq seen.old other ≡ true
        → contains bytes_eq seen.new other ≡ true) }
    ensures only { OnOk result ((other : List ℕ) → contains bytes_eq seen.new other ≡ true
        → (other ≡ path.now) ⊎ (contains bytes_eq seen.old other ≡ true)) }
{
    if !is_suspect(graph, endings, direct, user, path) {
        return Ok(false);
    }
    is_new(seen, path)
}

/// The first places of the paths of a list that may be told. `endings` has a mark for each ending of an output, and
/// `direct` has the marks of the user.
///
/// # Errors
/// [`AllocError`] only where an allocation was refused.
pub(crate) fn suspects(
    alloc: Global,
    graph: &Graph,
    endings: &[bool],
    direct: &[Option<u32>],
    user: u32,
    paths: &[Name],
) -> Result<Vec<usize>, AllocError>
    requires endings { AreEndings graph.now.manifest.builds endings.now }
    requires direct { AreDirect (successor_lists graph.now.manifest.builds) direct.now }
    ensures within { IfOk result (λ places. All (λ place. place < length paths.now) places.items) }
    ensures firsts { IfOk result (λ places. All (IsFirstOrQuiet graph.now.manifest.builds user paths.now) places.items) }
    ensures rest { IfOk result (λ places. (place : ℕ) → place < length paths.now
        → IsCovered graph.now.manifest.builds user paths.now places.items place) }
{
    let mut seen = IndexSet::new(alloc);
    let mut places = Vec::new(alloc);
    for (place, path) in paths.iter().enumerate() {
        let new = is_new_suspect(graph, endings, direct, user, path, &mut seen)?;
        if new {
            places.push(place)?;
        }
    }
    Ok(places)
}
