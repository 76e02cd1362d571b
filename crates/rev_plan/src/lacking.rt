//! Inputs that are missing and that no edge produces.
ghost use Rattle.std.specs.Prelude.{◌≡◌, ◌<◌, ◌==◌, ◌&&◌, ℕ, length, Some, is_none, slice_get};
ghost use Rattle.std.specs.Option.{option_map};
ghost use Rattle.rev_graph.specs.Graph.{build_at, inputs_of};
ghost use Rattle.rev_cells.specs.State.{stamp_of};
ghost use Rattle.rev_ranks.specs.Sets.{is_marked};
ghost use Rattle.rev_plan.specs.Plan.{lacking as lacking_in, missing_among};
ghost use Rattle.rev_plan.specs.Plan.{PlanRefusal.MissingInput};

use rev_cells::Cells;
use rev_cells::records::stamp;
use rev_graph::Graph;
use rev_paths::Name;

// The input at a position on an edge's build line.
fn input_at(graph: &Graph, edge: u32, position: usize) -> &Name
    requires edge { edge < length graph.now.manifest.builds }
    requires position { position < length (inputs_of (build_at graph.now.manifest.builds edge)) }
    ensures { slice_get (inputs_of (build_at graph.now.manifest.builds edge)) position ≡ Some result.now }
{
    let inputs = graph.inputs(edge);
    if position < inputs.explicit.len() {
        return &inputs.explicit[position];
    }
    let position = position - inputs.explicit.len();
    if position < inputs.implicit.len() {
        return &inputs.implicit[position];
    }
    &inputs.order_only[position - inputs.implicit.len()]
}

// The producer at a position.
fn producer_at(producers: &[Option<u32>], position: usize) -> Option<u32>
    requires { position < length producers.now }
    ensures { slice_get producers.now position ≡ Some result }
{
    producers[position]
}

// Whether a path is missing and nothing produces it.
fn is_lacking(cells: &Cells, path: &Name, producer: Option<u32>) -> bool
    ensures { result ≡ (is_none producer && (stamp_of cells.now.state path.now == 0)) }
{
    producer.is_none() && stamp(cells, path) == 0
}

// The position of the first input on an edge's build line that is missing and that no edge produces.
fn first_lacking(graph: &Graph, cells: &Cells, edge: u32) -> Option<usize>
    requires { edge < length graph.now.manifest.builds }
    ensures { result ≡ lacking_in graph.now.manifest.builds cells.now.state edge }
{
    let producers = graph.producers(edge);
    for position in 0..producers.len() {
        let producer = producer_at(producers, position);
        let lacking = is_lacking(cells, input_at(graph, edge, position), producer);
        if lacking {
            return Some(position);
        }
    }
    None
}

/// The first input that is missing and that no edge produces, of the least edge that has a mark and such an input: its
/// position on the build line, and the edge.
pub(crate) fn missing_input_among(
    graph: &Graph,
    cells: &Cells,
    marks: &[bool],
) -> Option<(u64, u32)>
    requires { length marks.now ≡ length graph.now.manifest.builds }
    ensures { option_map (λ (at : ℕ × ℕ). MissingInput at.0 at.1) result
        ≡ missing_among graph.now.manifest.builds cells.now.state (is_marked marks.now) }
{
    for edge in 0..graph.edges() {
        if marks[edge as usize] {
            if let Some(position) = first_lacking(graph, cells, edge) {
                return Some((position as u64, edge));
            }
        }
    }
    None
}
