//! Cells in words.
ghost use Rattle.std.specs.Prelude.{◌≡◌, ◌++◌, codes, decimal, OnOk};
ghost use Rattle.std.specs.Option.{option_copied};
ghost use Rattle.rev_shown.specs.Cells.{cell_words, first_output as first_output_of, mark_words};
ghost use Rattle.rev_shown.specs.Shown.{shown};

use crate::names::push_shown;
use crate::parts::{push_counted, push_named};
use rev_cells::Cell;
use rev_graph::Graph;
use rev_paths::Name;
use std::alloc::AllocError;

/// The first output of an edge. `None` where the graph has no edge with this number.
pub fn first_output(graph: &Graph, edge: u32) -> Option<&Name>
    ensures { option_copied result ≡ first_output_of graph.now.manifest.builds edge }
{
    if edge >= graph.edges() {
        return None;
    }
    let outputs = graph.outputs(edge);
    match outputs.explicit.first() {
        Some(out) => Some(out),
        None => outputs.implicit.first(),
    }
}

// Adds a mark, by the output of its edge.
fn push_mark(text: &mut Vec<u8>, out: Option<&Name>) -> Result<(), AllocError>
    ensures { OnOk result (text.new.items ≡ text.old.items ++ mark_words (option_copied out.entry)) }
{
    match out {
        Some(out) => push_named(text, b"the mark of ", out),
        None => text.extend_from_slice(b"a mark"),
    }
}

// Adds a place in a pool.
fn push_place(text: &mut Vec<u8>, pool: u32, place: u32) -> Result<(), AllocError>
    ensures { OnOk result (text.new.items ≡ text.old.items
        ++ (codes "slot " ++ decimal place ++ codes " of pool " ++ decimal pool)) }
{
    push_counted(text, b"slot ", u64::from(place))?;
    push_counted(text, b" of pool ", u64::from(pool))?;
    Ok(())
}

// Adds a record of the deps log.
fn push_deps(text: &mut Vec<u8>, path: &Name) -> Result<(), AllocError>
    ensures { OnOk result (text.new.items ≡ text.old.items
        ++ (codes "the list of what " ++ shown path.now ++ codes " read")) }
{
    push_named(text, b"the list of what ", path)?;
    text.extend_from_slice(b" read")
}

/// Appends a cell in words: `a.o` for the stamp of that file, `the mark of a.o` for the mark of the edge that makes it.
///
/// # Errors
/// [`AllocError`] only where an allocation was refused.
pub fn push_cell(text: &mut Vec<u8>, graph: &Graph, cell: &Cell) -> Result<(), AllocError>
    ensures { OnOk result (text.new.items ≡ text.old.items ++ cell_words graph.now.manifest.builds cell.now) }
{
    match cell {
        Cell::Stamp(path) => push_shown(text, path.as_bytes()),
        Cell::Mark(edge) => push_mark(text, first_output(graph, *edge)),
        Cell::Job(job) => push_counted(text, b"job ", u64::from(*job)),
        Cell::Slot(pool, place) => push_place(text, *pool, *place),
        Cell::Depth(pool) => push_counted(text, b"the depth of pool ", u64::from(*pool)),
        Cell::Built(path) => push_named(text, b"the build log's record of ", path),
        Cell::Deps(path) => push_deps(text, path),
        Cell::Halted => text.extend_from_slice(b"the interrupt"),
    }
}
