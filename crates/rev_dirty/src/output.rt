//! What is asked of an edge's outputs.
ghost use Rattle.std.specs.Prelude.{◌≡◌, ◌<◌, ◌++◌, true, Some, map, max, length, slice_get, IfOk, OnOk, if◌then◌else◌};
ghost use Rattle.std.specs.Option.{option_copied};
ghost use Rattle.rev_graph.specs.Graph.{build_at, outputs_of as outputs_on};
ghost use Rattle.rev_dirty.specs.Facts.{output_facts};
ghost use Rattle.rev_dirty.specs.Reasons.{lacks_first as lacks_first_of, reasons_of, recorded_stamp};
ghost use Rattle.rev_dirty.specs.declared.reason.Reason.TheVariants.{Missing};

use rev_cells::records::{built, stamp};
use rev_cells::{BuiltRecord, Cells};
use rev_graph::Graph;
use rev_paths::Name;
use std::alloc::{AllocError, Global};

/// What is asked of an output.
#[derive(Clone, Copy)]
pub(crate) struct Output {
    /// Its stamp, 0 where it is missing.
    pub(crate) stamp: u64,
    /// The stamp that it counts with against those of the inputs.
    pub(crate) effective: u64,
    /// Whether it has no record in the build log where one is asked for.
    pub(crate) unrecorded: bool,
    /// Whether it was made by another command than the edge's where that is asked.
    pub(crate) command_changed: bool,
}

// The stamp that an output counts with.
fn effective(restat: bool, stamp: u64, built: Option<&BuiltRecord>) -> u64
    ensures { result ≡ (if restat then max stamp (recorded_stamp (option_copied built.entry)) else stamp) }
{
    if !restat {
        return stamp;
    }
    match built {
        Some(built) => {
            if built.stamp > stamp {
                built.stamp
            } else {
                stamp
            }
        }
        None => stamp,
    }
}

// What is asked of an output of an edge.
fn output_of(graph: &Graph, cells: &Cells, edge: u32, path: &Name) -> Output
    requires { edge < length graph.now.manifest.builds }
    ensures { result ≡ output_facts cells.now.state (build_at graph.now.manifest.builds edge) path.now }
{
    let stamp = stamp(cells, path);
    let built = built(cells, path);
    let effective = effective(graph.restat(edge), stamp, built);
    if graph.generator(edge) {
        return Output {
            stamp,
            effective,
            unrecorded: false,
            command_changed: false,
        };
    }
    match built {
        Some(built) => Output {
            stamp,
            effective,
            unrecorded: false,
            command_changed: built.command.as_slice() != graph.command(edge),
        },
        None => Output {
            stamp,
            effective,
            unrecorded: true,
            command_changed: false,
        },
    }
}

// Adds what is asked of outputs.
fn push_outputs(
    outputs: &mut Vec<Output>,
    graph: &Graph,
    cells: &Cells,
    edge: u32,
    paths: &[Name],
) -> Result<(), AllocError>
    requires { edge < length graph.now.manifest.builds }
    ensures { OnOk result (outputs.new.items
        ≡ outputs.old.items
        ++ map (output_facts cells.now.state (build_at graph.now.manifest.builds edge))
        paths.now) }
{
    for path in paths {
        outputs.push(output_of(graph, cells, edge, path))?;
    }
    Ok(())
}

/// What is asked of the outputs of an edge.
pub(crate) fn outputs_of(
    alloc: Global,
    graph: &Graph,
    cells: &Cells,
    edge: u32,
) -> Result<Vec<Output>, AllocError>
    requires { edge < length graph.now.manifest.builds }
    ensures { IfOk result (λ outputs. outputs.items
        ≡ map (output_facts cells.now.state (build_at graph.now.manifest.builds edge))
        (outputs_on (build_at graph.now.manifest.builds edge))) }
{
    let paths = graph.outputs(edge);
    let mut outputs = Vec::new(alloc);
    push_outputs(&mut outputs, graph, cells, edge, paths.explicit)?;
    push_outputs(&mut outputs, graph, cells, edge, paths.implicit)?;
    Ok(outputs)
}

/// The first output of an edge.
pub(crate) fn first_output(graph: &Graph, edge: u32) -> Option<&Name>
    requires { edge < length graph.now.manifest.builds }
    ensures { option_copied result ≡ slice_get (outputs_on (build_at graph.now.manifest.builds edge)) 0 }
{
    let outputs = graph.outputs(edge);
    match outputs.explicit.first() {
        Some(output) => Some(output),
        None => outputs.implicit.first(),
    }
}

/// Whether an edge that is not phony lacks its first output, which is then the first of its reasons.
pub(crate) fn lacks_first(graph: &Graph, cells: &Cells, edge: u32) -> bool
    requires { edge < length graph.now.manifest.builds }
    ensures exact { result ≡ lacks_first_of cells.now.state (build_at graph.now.manifest.builds edge) }
    ensures first { result ≡ true
        → slice_get (reasons_of graph.now.manifest.builds cells.now.state edge) 0 ≡ Some (Missing 0) }
{
    if graph.is_phony(edge) {
        return false;
    }
    match first_output(graph, edge) {
        Some(output) => stamp(cells, output) == 0,
        None => false,
    }
}
