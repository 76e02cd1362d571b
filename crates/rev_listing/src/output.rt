//! Outputs and inputs of edges, as fields of lines.
ghost use Rattle.std.specs.Prelude.{◌≡◌, ◌++◌, slice_get, OnOk};
ghost use Rattle.std.specs.List.{slice_index_or};
ghost use Rattle.std.specs.Option.{option_copied};
ghost use Rattle.rev_dirty.specs.Inputs.{inputs, paths_of};
ghost use Rattle.rev_fields.specs.Fields.{field_text, spaced};
ghost use Rattle.rev_graph.specs.Graph.{build_at, outputs_of};
ghost use Rattle.rev_listing.specs.Marks.{output_field};
ghost use Rattle.rev_listing.specs.Why.{input_at, output_at};
ghost use Rattle.rev_listing.specs.Parts.{path_bytes};

use rev_cells::Cells;
use rev_dirty::listed_inputs;
use rev_fields::next_field;
use rev_graph::Graph;
use rev_paths::Name;
use std::alloc::AllocError;

// What stands at a position of two slices, one behind the other.
fn of_two<'a>(first: &'a [Name], second: &'a [Name], position: u64) -> Option<&'a Name>
    ensures { option_copied result ≡ slice_get (first.entry.now ++ second.entry.now) position }
{
    let position = position as usize;
    if position < first.len() {
        return first.get(position);
    }
    second.get(position - first.len())
}

// The bytes of a path, none where there is no path.
fn bytes_of(path: Option<&Name>) -> &[u8]
    ensures { result.now ≡ path_bytes (option_copied path.entry) }
{
    match path {
        None => b"",
        Some(path) => path.as_bytes(),
    }
}

/// Adds a space and the output of an edge at a position.
pub(crate) fn next_output(
    text: &mut Vec<u8>,
    graph: &Graph,
    edge: u32,
    position: u64,
) -> Result<(), AllocError>
    ensures { OnOk result (text.new.items
        ≡ text.old.items ++ spaced (output_at graph.now.manifest.builds edge position)) }
{
    if edge >= graph.edges() {
        return next_field(text, b"");
    }
    let outputs = graph.outputs(edge);
    next_field(
        text,
        bytes_of(of_two(outputs.explicit, outputs.implicit, position)),
    )
}

/// Adds a space and the first output of an edge.
pub(crate) fn next_edge(text: &mut Vec<u8>, graph: &Graph, edge: u32) -> Result<(), AllocError>
    ensures { OnOk result (text.new.items
        ≡ text.old.items ++ spaced (output_field graph.now.manifest.builds edge)) }
{
    next_output(text, graph, edge, 0)
}

/// Adds a space and the input of an edge at a position, of all its inputs, those of the deps record among them.
pub(crate) fn next_input(
    text: &mut Vec<u8>,
    graph: &Graph,
    cells: &Cells,
    edge: u32,
    position: u64,
) -> Result<(), AllocError>
    ensures { OnOk result (text.new.items
        ≡ text.old.items ++ spaced
        (input_at graph.now.manifest.builds cells.now.state edge position)) }
{
    if edge >= graph.edges() {
        return next_field(text, b"");
    }
    let inputs = graph.inputs(edge);
    let listed = listed_inputs(graph, cells, edge);
    let on_line = inputs.explicit.len() as u64 + inputs.implicit.len() as u64;
    if position < on_line {
        return next_field(
            text,
            bytes_of(of_two(inputs.explicit, inputs.implicit, position)),
        );
    }
    next_field(
        text,
        bytes_of(of_two(inputs.order_only, listed, position - on_line)),
    )
}
