//! The footprint of an event.
ghost use Rattle.std.specs.Prelude.{◌≡◌, ◌<◌, ◌++◌, true, [], length, map, take, IfOk, OnOk};
ghost use Rattle.std.specs.List.{IsDistinct};
ghost use Rattle.std.specs.Ordering.{eq_by_cmp};
ghost use Rattle.rev_events.specs.Machine.{of_edge, edge_of};
ghost use Rattle.rev_dirty.specs.Inputs.{paths_in, deps_record};
ghost use Rattle.rev_dirty.specs.Seen.{stamp_cells, built_cells, deps_cells};
ghost use Rattle.rev_graph.specs.Graph.{build_at, outputs_of};
ghost use Rattle.rev_cells.specs.declared.cell.Cell.TheVariants.{Slot as SlotCell};
ghost use Rattle.rev_cells.specs.Keys.{cell_cmp};
ghost use Rattle.rev_cells.specs.State.{State};
ghost use Rattle.rev_events.specs.Pools.{slots_between};
ghost use Rattle.rev_events.specs.Written.{written as written_by};
ghost use Rattle.rev_manifest.specs.Manifest.{ManifestValue};
ghost use Rattle.rev_footprint.specs.Adds.{Adds};
ghost use Rattle.rev_footprint.specs.Footprint.{footprint as footprint_of, is_plan as is_plan_event};
ghost use Rattle.rev_footprint.specs.Reads.{depth_cells, start_reads, clean_reads, pass_reads, resize_reads, reads_besides};

use crate::footprints::Footprint;
use crate::listed::add_others;
use crate::reads::{add, add_built, add_producer_marks, add_seen_stamps, add_stamps};
use crate::writes::{deps_cell, written};
use indexmap::IndexSet;
use rev_cells::{Cell, Cells};
use rev_dirty::{listed_inputs, producers_of};
use rev_events::{Event, slots_lost};
use rev_graph::Graph;
use rev_paths::Name;
use std::alloc::{AllocError, Global};
use std::ops::Range;

// Room for the cells that most events read.
const USUAL: usize = 32;

// Adds the stamps of an edge's outputs.
fn add_output_stamps(graph: &Graph, reads: &mut IndexSet<Cell>, edge: u32) -> Result<(), AllocError>
    requires { edge < length graph.now.manifest.builds }
    ensures { OnOk result (Adds reads.old.keys reads.new.keys
        (stamp_cells (outputs_of (build_at graph.now.manifest.builds edge)))) }
{
    let outputs = graph.outputs(edge);
    add_stamps(reads, outputs.explicit)?;
    add_stamps(reads, outputs.implicit)?;
    Ok(())
}

// Adds the built records of an edge's outputs.
fn add_output_records(
    graph: &Graph,
    reads: &mut IndexSet<Cell>,
    edge: u32,
) -> Result<(), AllocError>
    requires { edge < length graph.now.manifest.builds }
    ensures { OnOk result (Adds reads.old.keys reads.new.keys
        (built_cells (outputs_of (build_at graph.now.manifest.builds edge)))) }
{
    let outputs = graph.outputs(edge);
    add_built(reads, outputs.explicit)?;
    add_built(reads, outputs.implicit)?;
    Ok(())
}

// Adds the deps record of an edge that keeps one.
fn add_deps(graph: &Graph, reads: &mut IndexSet<Cell>, edge: u32) -> Result<(), AllocError>
    requires { edge < length graph.now.manifest.builds }
    ensures { OnOk result (Adds reads.old.keys reads.new.keys
        (deps_cells (build_at graph.now.manifest.builds edge))) }
{
    match deps_cell(graph, edge)? {
        Some(cell) => {
            add(reads, cell)?;
            Ok(())
        }
        None => Ok(()),
    }
}

// Adds what the reasons of an edge depend on.
fn add_reason_cells(
    alloc: Global,
    graph: &Graph,
    cells: &Cells,
    reads: &mut IndexSet<Cell>,
    edge: u32,
) -> Result<(), AllocError>
    requires { edge < length graph.now.manifest.builds }
    ensures { OnOk result (Adds reads.old.keys reads.new.keys
        (clean_reads graph.now.manifest edge cells.now.state)) }
{
    let listed = listed_inputs(graph, cells, edge);
    let producers = producers_of(alloc, graph, listed)?;
    add_producer_marks(graph, cells, reads, edge, &producers)?;
    add_seen_stamps(alloc, graph, cells, reads, edge, listed, &producers)?;
    add_output_stamps(graph, reads, edge)?;
    add_output_records(graph, reads, edge)?;
    add_deps(graph, reads, edge)?;
    Ok(())
}

// Adds the depth of a pool whose slot is named.
fn add_depth(
    reads: &mut IndexSet<Cell>,
    pool: Option<(u32, u32)>,
    slot: Option<u32>,
) -> Result<(), AllocError>
    ensures { OnOk result (Adds reads.old.keys reads.new.keys (depth_cells pool slot)) }
{
    match (pool, slot) {
        (Some((pool, _)), Some(_)) => {
            add(reads, Cell::Depth(pool))?;
            Ok(())
        }
        _ => Ok(()),
    }
}

// Adds what a start of an edge reads besides.
fn add_start_cells(
    alloc: Global,
    graph: &Graph,
    cells: &Cells,
    reads: &mut IndexSet<Cell>,
    edge: u32,
    slot: Option<u32>,
) -> Result<(), AllocError>
    requires { edge < length graph.now.manifest.builds }
    ensures { OnOk result (Adds reads.old.keys reads.new.keys
        (start_reads graph.now.manifest edge slot cells.now.state)) }
{
    add(reads, Cell::Halted)?;
    add_depth(reads, graph.pool(edge), slot)?;
    add_reason_cells(alloc, graph, cells, reads, edge)?;
    Ok(())
}

// Adds what a pass of an edge reads besides.
fn add_pass_cells(
    alloc: Global,
    graph: &Graph,
    cells: &Cells,
    reads: &mut IndexSet<Cell>,
    edge: u32,
) -> Result<(), AllocError>
    requires { edge < length graph.now.manifest.builds }
    ensures { OnOk result (Adds reads.old.keys reads.new.keys
        (pass_reads graph.now.manifest edge cells.now.state)) }
{
    let listed = listed_inputs(graph, cells, edge);
    let producers = producers_of(alloc, graph, listed)?;
    add_producer_marks(graph, cells, reads, edge, &producers)?;
    add_output_stamps(graph, reads, edge)?;
    add_deps(graph, reads, edge)?;
    Ok(())
}

// Adds what a start reads besides of the edge that has the output.
fn of_start(
    alloc: Global,
    graph: &Graph,
    cells: &Cells,
    reads: &mut IndexSet<Cell>,
    out: &Name,
    slot: Option<u32>,
) -> Result<(), AllocError>
    ensures { OnOk result (Adds reads.old.keys reads.new.keys
        (of_edge [] (λ edge. start_reads graph.now.manifest edge slot cells.now.state)
        (edge_of graph.now.manifest out.now))) }
{
    match graph.producer(out) {
        Some(edge) => {
            add_start_cells(alloc, graph, cells, reads, edge, slot)?;
            Ok(())
        }
        None => Ok(()),
    }
}

// Adds what a clean reads besides of the edge that has the output.
fn of_clean(
    alloc: Global,
    graph: &Graph,
    cells: &Cells,
    reads: &mut IndexSet<Cell>,
    out: &Name,
) -> Result<(), AllocError>
    ensures { OnOk result (Adds reads.old.keys reads.new.keys
        (of_edge [] (λ edge. clean_reads graph.now.manifest edge cells.now.state)
        (edge_of graph.now.manifest out.now))) }
{
    match graph.producer(out) {
        Some(edge) => {
            add_reason_cells(alloc, graph, cells, reads, edge)?;
            Ok(())
        }
        None => Ok(()),
    }
}

// Adds what a pass reads besides of the edge that has the output.
fn of_pass(
    alloc: Global,
    graph: &Graph,
    cells: &Cells,
    reads: &mut IndexSet<Cell>,
    out: &Name,
) -> Result<(), AllocError>
    ensures { OnOk result (Adds reads.old.keys reads.new.keys
        (of_edge [] (λ edge. pass_reads graph.now.manifest edge cells.now.state)
        (edge_of graph.now.manifest out.now))) }
{
    match graph.producer(out) {
        Some(edge) => {
            add_pass_cells(alloc, graph, cells, reads, edge)?;
            Ok(())
        }
        None => Ok(()),
    }
}

// Adds slots of a pool.
fn add_slots(reads: &mut IndexSet<Cell>, pool: u32, slots: Range<u32>) -> Result<(), AllocError>
    ensures { OnOk result (Adds reads.old.keys reads.new.keys
        (map (SlotCell pool) (slots_between slots.start slots.end))) }
{
    for slot in slots.start..slots.end {
        add(reads, Cell::Slot(pool, slot))?;
    }
    Ok(())
}

// Adds the slots that a pool loses where it is given a depth.
fn of_resize(
    graph: &Graph,
    cells: &Cells,
    reads: &mut IndexSet<Cell>,
    pool: u32,
    depth: u32,
) -> Result<(), AllocError>
    ensures { OnOk result (Adds reads.old.keys reads.new.keys
        (resize_reads graph.now.manifest pool depth cells.now.state)) }
{
    add_slots(reads, pool, slots_lost(graph, cells, pool, depth))?;
    Ok(())
}

// Adds what an event reads besides the cells that it writes.
fn add_besides(
    alloc: Global,
    graph: &Graph,
    cells: &Cells,
    reads: &mut IndexSet<Cell>,
    event: &Event,
) -> Result<(), AllocError>
    ensures { OnOk result (Adds reads.old.keys reads.new.keys
        (reads_besides graph.now.manifest cells.now.state event.now)) }
{
    match event {
        Event::Start { out, job: _, slot } => of_start(alloc, graph, cells, reads, out, *slot),
        Event::Clean { out } => of_clean(alloc, graph, cells, reads, out),
        Event::Pass { out } => of_pass(alloc, graph, cells, reads, out),
        Event::Abort { out: _, stamps: _ } => add(reads, Cell::Halted),
        Event::Plan(_) => Ok(()),
        Event::Finish {
            out: _,
            stamps: _,
            listing: _,
        } => Ok(()),
        Event::Fail { out: _, stamps: _ } => Ok(()),
        Event::Touch { path: _, stamp: _ } => Ok(()),
        Event::Interrupt => Ok(()),
        Event::Resize { pool, depth } => of_resize(graph, cells, reads, *pool, *depth),
    }
}

// Whether an event is a plan.
fn is_plan(event: &Event) -> bool
    ensures { result ≡ is_plan_event event.now }
{
    match event {
        Event::Plan(_) => true,
        _ => false,
    }
}

// Whether an event reads no cells but those that it writes.
fn reads_its_writes(event: &Event) -> bool
    ensures { result ≡ true → (manifest : ManifestValue) (state : State)
        → reads_besides manifest state event.now ≡ [] }
{
    match event {
        Event::Start {
            out: _,
            job: _,
            slot: _,
        } => false,
        Event::Clean { out: _ } => false,
        Event::Pass { out: _ } => false,
        Event::Abort { out: _, stamps: _ } => false,
        Event::Resize { pool: _, depth: _ } => false,
        Event::Plan(_) => true,
        Event::Finish {
            out: _,
            stamps: _,
            listing: _,
        } => true,
        Event::Fail { out: _, stamps: _ } => true,
        Event::Touch { path: _, stamp: _ } => true,
        Event::Interrupt => true,
    }
}

// Puts what an event reads besides behind the cells that it writes.
fn add_reads(
    alloc: Global,
    graph: &Graph,
    cells: &Cells,
    event: &Event,
    written: &mut Vec<Cell>,
) -> Result<(), AllocError>
    requires { IsDistinct (eq_by_cmp cell_cmp) written.old.items }
    ensures front { OnOk result (take (length written.old.items) written.new.items ≡ written.old.items) }
    ensures all { OnOk result (Adds written.old.items written.new.items
        (reads_besides graph.now.manifest cells.now.state event.now)) }
    ensures distinct { OnOk result (IsDistinct (eq_by_cmp cell_cmp) written.new.items) }
{
    if reads_its_writes(event) {
        return Ok(());
    }
    let mut read = IndexSet::with_capacity(alloc, USUAL)?;
    add_besides(alloc, graph, cells, &mut read, event)?;
    add_others(alloc, written, read)?;
    Ok(())
}

/// The footprint of an event in a state: exactly the cells that an accepted event of its kind reads and writes there.
/// A plan is whole.
///
/// A start or a clean reads the marks of the producers of the edge's inputs, the stamps and built records of its
/// outputs, and its deps record where it keeps one. It reads, too, the stamps that are seen of its inputs that are not
/// order-only, through phony edges whatever the stamps are. A start also reads whether the build is halted and, where
/// it names a slot of its edge's pool, that pool's depth. A pass reads no visible stamp. An abort reads whether the
/// build is halted. A resize writes the depth of its pool, which it reads too, and reads the slots that the pool
/// loses.
///
/// It takes time linear in the cells and in what the phony edges have through which inputs are seen, up to hashing.
///
/// # Errors
/// [`AllocError`] only where an allocation was refused.
pub fn footprint(
    alloc: Global,
    graph: &Graph,
    cells: &Cells,
    event: &Event,
) -> Result<Footprint, AllocError>
    ensures { IfOk result (λ footprint. footprint
        ≡ footprint_of graph.now.manifest cells.now.state event.now) }
{
    // What it promises of every graph, that no output stands twice on a build line, is why no cell is written twice.
    let _edges = graph.edges();
    let mut listed = written(alloc, graph, cells, event)?;
    let writes = listed.len();
    add_reads(alloc, graph, cells, event, &mut listed)?;
    Ok(Footprint::of(listed, writes, is_plan(event)))
}
