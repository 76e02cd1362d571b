//! Edges that run before all else.
ghost use Rattle.std.specs.Prelude.{◌≡◌, IfOk};
ghost use Rattle.rev_conflicts.specs.Tables.{AreEarly};

use rev_graph::Graph;
use rev_paths::Name;
use std::alloc::{AllocError, Global};

/// A mark for each edge that makes one of some files.
///
/// # Errors
/// [`AllocError`] only where an allocation was refused.
pub fn early_edges(alloc: Global, graph: &Graph, files: &[Name]) -> Result<Vec<bool>, AllocError>
    ensures { IfOk result (λ marks. AreEarly graph.now.manifest.builds files.now marks.items) }
{
    let mut marks = vec![in alloc; false; graph.edges() as usize]?;
    for file in files {
        if let Some(producer) = graph.producer(file) {
            marks[producer as usize] = true;
        }
    }
    Ok(marks)
}
