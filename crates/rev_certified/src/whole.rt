//! Commands that were observed whole.
ghost use Rattle.std.specs.Prelude.{◌≡◌, ◌<◌, length, All, IfOk};
ghost use Rattle.rev_certified.specs.Whole.{AreWholeBy};

use rev_graph::Graph;
use rev_observed::Command;
use std::alloc::{AllocError, Global};

/// For each edge whether its command was observed whole: it is among these commands, whose edges these are, and has no
/// flag.
///
/// # Errors
/// [`AllocError`] only where an allocation was refused.
pub(crate) fn seen_whole(
    alloc: Global,
    graph: &Graph,
    commands: &[Command],
    edges: &[u32],
) -> Result<Vec<bool>, AllocError>
    requires within { All (λ e. e < length graph.now.manifest.builds) edges.now }
    requires each { length edges.now ≡ length commands.now }
    ensures each { IfOk result (λ marks. length marks.items ≡ length graph.now.manifest.builds) }
    ensures whole { IfOk result (λ marks. AreWholeBy commands.now edges.now (length commands.now) marks.items) }
{
    let mut marks = vec![in alloc; false; graph.edges() as usize]?;
    for (number, command) in commands.iter().enumerate() {
        if command.flags().is_whole() {
            let edge = edges[number];
            marks[edge as usize] = true;
        }
    }
    Ok(marks)
}
