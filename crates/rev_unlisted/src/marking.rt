//! Marks of the paths that count for an edge.
ghost use Rattle.std.specs.Prelude.{◌≡◌, ◌+◌, ◌∷◌, ◌<◌, ◌≤◌, ◌↔◌, [], ℕ, Some, None, length, slice_index_or, IfOk, IfSome, IsTrue};
ghost use Rattle.std.specs.List.{IsDistinct};
ghost use Rattle.std.specs.Str.{bytes_eq};
ghost use Rattle.rev_paths.specs.Paths.{place_of};
ghost use Rattle.rev_unlisted.specs.Found.{AreCountedAtMost, AreCountedOf, IsMarked, names_of};

use rev_graph::Graph;
use rev_paths::{Name, Paths};
use std::alloc::{AllocError, Global};

/// So many places without marks.
///
/// # Errors
/// [`AllocError`] only where an allocation was refused.
pub(crate) fn no_marks(alloc: Global, count: usize) -> Result<Vec<Option<u32>>, AllocError>
    ensures each { IfOk result (λ marks. length marks.items ≡ count) }
    ensures none { IfOk result (λ marks. (k : ℕ) → slice_index_or marks.items k None ≡ None) }
{
    let marks = vec![in alloc; None; count]?;
    Ok(marks)
}

// The number of a name. A guess that fits saves the look-up.
fn find_near(paths: &Paths, name: &Name, guess: u64) -> Option<u64>
    ensures place { result ≡ place_of name.now paths.now }
    ensures within { IfSome result (λ place. place < length paths.now) }
{
    if guess < paths.len() && *paths.path(guess) == *name {
        return Some(guess);
    }
    paths.find(name)
}

// Marks the path of a name with a user's number. `last` is 0, or the number of the path before it and 1, and so is what
// this gives for the next. `nexts` has for each of these the path that came next where lists last had it: lists name
// the same paths in the same order.
fn mark_name(
    paths: &Paths,
    name: &Name,
    user: u32,
    last: usize,
    nexts: &mut Vec<u64>,
    marks: &mut Vec<Option<u32>>,
) -> usize
    requires last { last ≤ length paths.now }
    requires nexts { length nexts.old.items ≡ length paths.now + 1 }
    requires marks { length marks.old.items ≡ length paths.now }
    ensures last { result ≤ length paths.now }
    ensures nexts { length nexts.new.items ≡ length paths.now + 1 }
    ensures marks { IsMarked paths.now user (name.now ∷ []) marks.old.items marks.new.items }
{
    let Some(path) = find_near(paths, name, nexts[last]) else {
        return last;
    };
    nexts[last] = path;
    marks[path as usize] = Some(user);
    path as usize + 1
}

// Marks the paths of names with a user's number.
fn mark_names(
    paths: &Paths,
    names: &[Name],
    user: u32,
    nexts: &mut Vec<u64>,
    marks: &mut Vec<Option<u32>>,
)
    requires nexts { length nexts.old.items ≡ length paths.now + 1 }
    requires marks { length marks.old.items ≡ length paths.now }
    ensures nexts { length nexts.new.items ≡ length paths.now + 1 }
    ensures marks { IsMarked paths.now user names.now marks.old.items marks.new.items }
{
    let mut last = 0;
    for name in names {
        last = mark_name(paths, name, user, last, nexts, marks);
    }
}

/// Marks the paths that count for an edge with its number. Earlier marks stay: only a mark with this number counts.
/// `nexts` has the paths that are tried first.
pub(crate) fn mark_counted(
    graph: &Graph,
    lists: &[&[Name]],
    paths: &Paths,
    user: u32,
    nexts: &mut Vec<u64>,
    marks: &mut Vec<Option<u32>>,
)
    requires user { user < length graph.now.manifest.builds }
    requires each { length lists.now ≡ length graph.now.manifest.builds }
    requires distinct { IsDistinct bytes_eq paths.now }
    requires nexts { length nexts.old.items ≡ length paths.now + 1 }
    requires marks { AreCountedAtMost graph.now.manifest.builds (names_of lists.now) paths.now marks.old.items }
    ensures nexts { length nexts.new.items ≡ length paths.now + 1 }
    ensures marks { AreCountedAtMost graph.now.manifest.builds (names_of lists.now) paths.now marks.new.items }
    ensures exact { AreCountedOf graph.now.manifest.builds (names_of lists.now) paths.now user marks.new.items }
{
    let inputs = graph.inputs(user);
    mark_names(paths, inputs.explicit, user, nexts, marks);
    mark_names(paths, inputs.implicit, user, nexts, marks);
    mark_names(paths, lists[user as usize], user, nexts, marks);
}

/// Whether a path has the mark of an edge.
pub(crate) fn is_marked(marks: &[Option<u32>], path: usize, edge: u32) -> bool
    requires { path < length marks.now }
    ensures { IsTrue result ↔ (slice_index_or marks.now path None ≡ Some edge) }
{
    match marks[path] {
        Some(marked) => marked == edge,
        None => false,
    }
}
