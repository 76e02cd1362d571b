//! Edges that have a list of what they read.
ghost use Rattle.std.specs.Prelude.{◌≡◌, ◌<◌, map, length, IfOk};
ghost use Rattle.rev_judged.specs.Judged.{has_list};
ghost use Rattle.rev_races.specs.Judged.{edges_of};

use rev_history::History;
use rev_races::listed;
use std::alloc::{AllocError, Global};

// Whether an edge has a list.
fn lists_some(history: &History, edge: u32) -> bool
    requires { edge < length history.now.timeline.manifest.builds }
    ensures { result ≡ has_list history.now.timeline edge }
{
    let paths = listed(history, edge);
    paths.is_some()
}

/// For each edge, whether it has a list of what its command read.
///
/// # Errors
/// [`AllocError`] only where an allocation was refused.
pub(crate) fn listed_edges(alloc: Global, history: &History) -> Result<Vec<bool>, AllocError>
    ensures { IfOk result (λ marks. marks.items
        ≡ map (has_list history.now.timeline) (edges_of history.now.timeline.manifest.builds)) }
{
    let count = history.graph().edges();
    let mut marks = Vec::new(alloc);
    for edge in 0..count {
        marks.push(lists_some(history, edge))?;
    }
    Ok(marks)
}
