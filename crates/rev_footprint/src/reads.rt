//! The cells that events read.
ghost use Rattle.std.specs.Prelude.{◌≡◌, ◌<◌, ◌∷◌, ◌++◌, [], length, map, IfOk, OnOk};
ghost use Rattle.std.specs.List.{cons_option, filter_map};
ghost use Rattle.rev_cells.specs.declared.cell.Cell.TheVariants.{Mark};
ghost use Rattle.rev_dirty.specs.Inputs.{inputs, paths_in, deps_record};
ghost use Rattle.rev_dirty.specs.Seen.{stamp_cells, built_cells, seen_stamps, producer_marks};
ghost use Rattle.rev_dirty.specs.Visible.{line_inputs};
ghost use Rattle.rev_graph.specs.Graph.{build_at, producer_of};
ghost use Rattle.rev_footprint.specs.Adds.{Adds};
ghost use Rattle.rev_footprint.specs.Behind.{phony_producers, stamps_behind, AreBehind, ArePhony};

use crate::behind::{add_behind, add_phony};
use indexmap::IndexSet;
use rev_cells::{Cell, Cells};
use rev_graph::Graph;
use rev_paths::Name;
use std::alloc::{AllocError, Global};

/// Adds a cell.
pub(crate) fn add(reads: &mut IndexSet<Cell>, cell: Cell) -> Result<(), AllocError>
    ensures { OnOk result (Adds reads.old.keys reads.new.keys (cell ∷ [])) }
{
    reads.insert(cell)?;
    Ok(())
}

/// Adds the stamps of paths.
pub(crate) fn add_stamps(reads: &mut IndexSet<Cell>, paths: &[Name]) -> Result<(), AllocError>
    ensures { OnOk result (Adds reads.old.keys reads.new.keys (stamp_cells paths.now)) }
{
    for path in paths {
        add(reads, Cell::Stamp(path.copy()?))?;
    }
    Ok(())
}

/// Adds the built records of paths.
pub(crate) fn add_built(reads: &mut IndexSet<Cell>, paths: &[Name]) -> Result<(), AllocError>
    ensures { OnOk result (Adds reads.old.keys reads.new.keys (built_cells paths.now)) }
{
    for path in paths {
        add(reads, Cell::Built(path.copy()?))?;
    }
    Ok(())
}

// Adds the mark of an edge, if there is one.
fn add_mark(reads: &mut IndexSet<Cell>, edge: Option<u32>) -> Result<(), AllocError>
    ensures { OnOk result (Adds reads.old.keys reads.new.keys (map Mark (cons_option edge []))) }
{
    match edge {
        Some(edge) => {
            add(reads, Cell::Mark(edge))?;
            Ok(())
        }
        None => Ok(()),
    }
}

// Adds the marks of the edges among producers.
fn add_marks(reads: &mut IndexSet<Cell>, producers: &[Option<u32>]) -> Result<(), AllocError>
    ensures { OnOk result (Adds reads.old.keys reads.new.keys
        (map Mark (filter_map (λ producer. producer) producers.now))) }
{
    for producer in producers {
        add_mark(reads, *producer)?;
    }
    Ok(())
}

/// Adds the marks of the producers of all inputs of an edge, where `listed` produce those that its deps record lists.
pub(crate) fn add_producer_marks(
    graph: &Graph,
    cells: &Cells,
    reads: &mut IndexSet<Cell>,
    edge: u32,
    listed: &[Option<u32>],
) -> Result<(), AllocError>
    requires edge { edge < length graph.now.manifest.builds }
    requires listed { listed.now ≡ map (producer_of graph.now.manifest.builds)
        (paths_in (deps_record cells.now.state (build_at graph.now.manifest.builds edge))) }
    ensures { OnOk result (Adds reads.old.keys reads.new.keys
        (producer_marks graph.now.manifest.builds
        (inputs cells.now.state (build_at graph.now.manifest.builds edge)))) }
{
    add_marks(reads, graph.producers(edge))?;
    add_marks(reads, listed)?;
    Ok(())
}

// Adds the stamps of the inputs that count of phony edges.
fn add_stamps_behind(
    graph: &Graph,
    reads: &mut IndexSet<Cell>,
    edges: &[u32],
) -> Result<(), AllocError>
    requires { ArePhony graph.now.manifest.builds edges.now }
    ensures { OnOk result (Adds reads.old.keys reads.new.keys
        (stamps_behind graph.now.manifest.builds edges.now)) }
{
    for edge in edges {
        let inputs = graph.inputs(*edge);
        add_stamps(reads, inputs.explicit)?;
        add_stamps(reads, inputs.implicit)?;
    }
    Ok(())
}

// The phony edges behind the inputs of an edge that count, of which its deps record lists some, and `producers` produce
// these.
fn edges_behind(
    alloc: Global,
    graph: &Graph,
    edge: u32,
    listed: &[Name],
    producers: &[Option<u32>],
) -> Result<IndexSet<u32>, AllocError>
    requires edge { edge < length graph.now.manifest.builds }
    requires producers { producers.now ≡ map (producer_of graph.now.manifest.builds) listed.now }
    ensures behind { IfOk result (λ edges.
        AreBehind graph.now.manifest.builds
        (phony_producers graph.now.manifest.builds
        (line_inputs (build_at graph.now.manifest.builds edge) ++ listed.now)) edges.keys) }
    ensures phony { IfOk result (λ edges. ArePhony graph.now.manifest.builds edges.keys) }
{
    let mut edges = IndexSet::new(alloc);
    add_phony(graph, &mut edges, graph.counted_producers(edge))?;
    add_phony(graph, &mut edges, producers)?;
    add_behind(graph, &mut edges)?;
    Ok(edges)
}

// Makes room for so many cells.
fn make_room(reads: &mut IndexSet<Cell>, cells: usize) -> Result<(), AllocError>
    ensures { OnOk result (Adds reads.old.keys reads.new.keys []) }
{
    reads.reserve(cells)?;
    Ok(())
}

// Adds the stamps of the inputs of an edge that count, of which its deps record lists some.
fn add_input_stamps(
    graph: &Graph,
    reads: &mut IndexSet<Cell>,
    edge: u32,
    listed: &[Name],
) -> Result<(), AllocError>
    requires { edge < length graph.now.manifest.builds }
    ensures { OnOk result (Adds reads.old.keys reads.new.keys
        (stamp_cells (line_inputs (build_at graph.now.manifest.builds edge) ++ listed.now))) }
{
    let on_line = graph.inputs(edge);
    let on_line_count = on_line
        .explicit
        .len()
        .saturating_add(on_line.implicit.len());
    make_room(reads, on_line_count.saturating_add(listed.len()))?;
    add_stamps(reads, on_line.explicit)?;
    add_stamps(reads, on_line.implicit)?;
    add_stamps(reads, listed)?;
    Ok(())
}

/// Adds the stamps that are seen of an edge's inputs that count: their own, and those of what is seen through phony
/// edges, whatever the stamps are. `producers` are those of the inputs that its deps record lists.
pub(crate) fn add_seen_stamps(
    alloc: Global,
    graph: &Graph,
    cells: &Cells,
    reads: &mut IndexSet<Cell>,
    edge: u32,
    listed: &[Name],
    producers: &[Option<u32>],
) -> Result<(), AllocError>
    requires edge { edge < length graph.now.manifest.builds }
    requires listed { listed.now ≡ paths_in
        (deps_record cells.now.state (build_at graph.now.manifest.builds edge)) }
    requires producers { producers.now ≡ map (producer_of graph.now.manifest.builds) listed.now }
    ensures { OnOk result (Adds reads.old.keys reads.new.keys
        (seen_stamps graph.now.manifest.builds
        (inputs cells.now.state (build_at graph.now.manifest.builds edge)))) }
{
    // What it promises of every graph, that no edge reaches itself, is what the stamps behind phony edges rest on.
    let _edges = graph.edges();
    let edges = edges_behind(alloc, graph, edge, listed, producers)?;
    add_input_stamps(graph, reads, edge, listed)?;
    add_stamps_behind(graph, reads, edges.as_slice())?;
    Ok(())
}
