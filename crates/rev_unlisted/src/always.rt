//! Which edges Ninja runs in each build.
ghost use Rattle.std.specs.Prelude.{◌≡◌, ◌<◌, length, IfOk};
ghost use Rattle.std.specs.List.{list_any};
ghost use Rattle.rev_graph.specs.Graph.{build_at, outputs_of};
ghost use Rattle.rev_history.specs.Timeline.{state_at};
ghost use Rattle.rev_ranks.specs.Sets.{IsSetOf, is_marked_or_leads};
ghost use Rattle.rev_unlisted.specs.Always.{is_never_done as is_never_done_in, lacks, lacks_inputs as lacks_inputs_in, never_done_in, sure_lists};
ghost use Rattle.rev_unlisted.specs.Answer.{lists_in};

use crate::answer::all_lists;
use crate::follows::follow_steps;
use rev_cells::Cells;
use rev_cells::records::stamp;
use rev_graph::Graph;
use rev_history::History;
use rev_paths::Paths;
use rev_ranks::leading_to;
use std::alloc::{AllocError, Global};

// Whether an output of an edge is not there.
fn lacks_output(graph: &Graph, cells: &Cells, edge: u32) -> bool
    requires { edge < length graph.now.manifest.builds }
    ensures { result ≡ list_any (lacks cells.now.state) (outputs_of (build_at graph.now.manifest.builds edge)) }
{
    let outputs = graph.outputs(edge);
    outputs
        .explicit
        .iter()
        .chain(outputs.implicit.iter())
        .any(|output| stamp(cells, output) == 0)
}

// Whether an edge has no inputs.
fn lacks_inputs(graph: &Graph, edge: u32) -> bool
    requires { edge < length graph.now.manifest.builds }
    ensures { result ≡ lacks_inputs_in (build_at graph.now.manifest.builds edge) }
{
    let inputs = graph.inputs(edge);
    inputs.explicit.is_empty() && inputs.implicit.is_empty() && inputs.order_only.is_empty()
}

// Whether Ninja finds an edge to do by itself.
fn is_never_done(graph: &Graph, cells: &Cells, edge: u32) -> bool
    requires { edge < length graph.now.manifest.builds }
    ensures { result ≡ is_never_done_in cells.now.state (build_at graph.now.manifest.builds edge) }
{
    lacks_output(graph, cells, edge) && (!graph.is_phony(edge) || lacks_inputs(graph, edge))
}

// A mark for each edge: whether Ninja finds it to do by itself.
fn never_done(alloc: Global, graph: &Graph, cells: &Cells) -> Result<Vec<bool>, AllocError>
    ensures { IfOk result (λ marks. marks.items ≡ never_done_in graph.now.manifest.builds cells.now.state) }
{
    let mut marks = Vec::new(alloc);
    for edge in 0..graph.edges() {
        marks.push(is_never_done(graph, cells, edge))?;
    }
    Ok(marks)
}

/// A mark for each edge: whether Ninja runs its command in each build, since an output of it is not there, or of an edge
/// that makes what counts for it, past no other edge with restat. Such a command never keeps what it made of an old file.
///
/// It takes time linear in the build lines and lists.
///
/// # Errors
/// [`AllocError`] only where an allocation was refused.
pub fn always_run(alloc: Global, history: &History) -> Result<Vec<bool>, AllocError>
    ensures { IfOk result (λ marks.
        IsSetOf (sure_lists history.now.timeline.manifest.builds (lists_in history.now.timeline))
        (is_marked_or_leads (sure_lists history.now.timeline.manifest.builds (lists_in history.now.timeline))
        (never_done_in history.now.timeline.manifest.builds (state_at history.now.timeline))) marks.items) }
{
    let graph = history.graph();
    let _edges = graph.edges();
    let lists = all_lists(alloc, history)?;
    let none = Paths::new(alloc);
    let steps = follow_steps(alloc, graph, &lists, &none, true)?;
    let goals = never_done(alloc, graph, history.cells())?;
    let marks = leading_to(alloc, &steps, &goals)?;
    Ok(marks)
}
