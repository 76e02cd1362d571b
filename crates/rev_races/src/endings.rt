//! Paths that no edge makes, told by the bytes by which they end.
ghost use Rattle.std.specs.Prelude.{◌≡◌, ◌<◌, ℕ, List, true, length, Contains, IfOk};
ghost use Rattle.rev_ranks.specs.Sets.{is_marked};
ghost use Rattle.rev_races.specs.Endings.{AreEndings, byte_from_end as byte_so_far, ending as ending_of, long_ending as long_ending_of, short_ending as short_ending_of};

use rev_graph::Graph;
use rev_paths::Name;
use std::alloc::{AllocError, Global};

// How many endings there are.
const ENDINGS: usize = 1_048_573;

// The byte that stands so far from the end of a path, from 1; 0 where the path is shorter.
fn byte_from_end(path: &[u8], back: usize) -> u8
    requires { 0 < back }
    ensures { result ≡ byte_so_far path.now back }
{
    if path.len() < back {
        return 0;
    }
    path[path.len() - back]
}

// What a path of less than eight bytes ends by.
#[tactic(auto, unfolding(crate::specs::Endings::short_ending))]
fn short_ending(path: &[u8]) -> usize
    ensures ending { result ≡ short_ending_of path.now }
    ensures within { result < 1048573 }
{
    let last = byte_from_end(path, 1) as usize;
    let third = byte_from_end(path, 3) as usize;
    let fourth = byte_from_end(path, 4) as usize;
    let fifth = byte_from_end(path, 5) as usize;
    (last + third * 31 + fourth * 961 + fifth * 29_791) % ENDINGS
}

// What a path with these last eight bytes ends by.
#[tactic(auto, unfolding(crate::specs::Endings::long_ending))]
fn long_ending(last: &[u8; 8]) -> usize
    ensures ending { result ≡ long_ending_of last.now }
    ensures within { result < 1048573 }
{
    (u64::from_le_bytes(*last) % ENDINGS as u64) as usize
}

// The ending of a path.
#[tactic(auto, unfolding(crate::specs::Endings::ending))]
fn ending(path: &[u8]) -> usize
    ensures ending { result ≡ ending_of path.now }
    ensures within { result < 1048573 }
{
    match path.last_chunk::<8>() {
        Some(last) => long_ending(last),
        None => short_ending(path),
    }
}

// Marks the ending of a path.
fn mark_ending(path: &Name, marks: &mut Vec<bool>)
    requires { length marks.old.items ≡ 1048573 }
    ensures size { length marks.new.items ≡ 1048573 }
    ensures kept { (n : ℕ) → is_marked marks.old.items n ≡ true → is_marked marks.new.items n ≡ true }
    ensures marked { is_marked marks.new.items (ending_of path.now) ≡ true }
{
    let place = ending(path.as_bytes());
    marks[place] = true;
}

// Marks the endings of paths.
fn mark_endings(paths: &[Name], marks: &mut Vec<bool>)
    requires { length marks.old.items ≡ 1048573 }
    ensures size { length marks.new.items ≡ 1048573 }
    ensures kept { (n : ℕ) → is_marked marks.old.items n ≡ true → is_marked marks.new.items n ≡ true }
    ensures marked { (path : List ℕ) → Contains paths.now path → is_marked marks.new.items (ending_of path) ≡ true }
{
    for path in paths {
        mark_ending(path, marks);
    }
}

/// A mark for each ending of an output of an edge.
///
/// # Errors
/// [`AllocError`] only where an allocation was refused.
pub(crate) fn output_endings(alloc: Global, graph: &Graph) -> Result<Vec<bool>, AllocError>
    ensures { IfOk result (λ endings. AreEndings graph.now.manifest.builds endings.items) }
{
    let mut marks = vec![in alloc; false; ENDINGS]?;
    for edge in 0..graph.edges() {
        let outputs = graph.outputs(edge);
        mark_endings(outputs.explicit, &mut marks);
        mark_endings(outputs.implicit, &mut marks);
    }
    Ok(marks)
}

/// Whether an output of an edge may be a path: one ends alike. It hashes nothing.
pub(crate) fn may_be_made(endings: &[bool], path: &Name) -> bool
    ensures { result ≡ is_marked endings.now (ending_of path.now) }
{
    endings
        .get(ending(path.as_bytes()))
        .copied()
        .unwrap_or(false)
}
