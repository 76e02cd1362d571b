//! The cells that events write, in the order of their effects.
ghost use Rattle.std.specs.Prelude.{◌≡◌, ◌<◌, ◌++◌, ◌∷◌, [], ℕ, List, length, map, option_to_list, IfOk, OnOk};
ghost use Rattle.rev_cells.specs.declared.cell.Cell.TheVariants.{Halted, Mark as MarkCell, Stamp as StampCell};
ghost use Rattle.rev_cells.specs.State.{State, mark_of};
ghost use Rattle.rev_dirty.specs.Seen.{stamp_cells, built_cells, deps_cells};
ghost use Rattle.rev_events.specs.Edge.{slot_cells, held_cells};
ghost use Rattle.rev_events.specs.Machine.{of_edge, edge_of};
ghost use Rattle.rev_events.specs.Written.{start_writes as start_writes_of, mark_writes as mark_writes_of, finish_writes as finish_writes_of, end_writes as end_writes_of, written as written_by};
ghost use Rattle.rev_graph.specs.Graph.{build_at, outputs_of, pool_of};
ghost use Rattle.rev_plan.specs.Plan.{edge_numbers};
ghost use Rattle.rev_footprint.specs.Run.{run_in, held_by};

use rev_cells::{Cell, Cells, Mark, Value};
use rev_events::Event;
use rev_graph::Graph;
use rev_paths::Name;
use std::alloc::{AllocError, Global};

// Adds the place in a pool that is named, where the pool has places.
fn push_slot(
    writes: &mut Vec<Cell>,
    pool: Option<(u32, u32)>,
    slot: Option<u32>,
) -> Result<(), AllocError>
    ensures { OnOk result (writes.new.items ≡ writes.old.items ++ slot_cells pool slot) }
{
    match pool {
        Some((number, _)) => match slot {
            Some(place) => {
                writes.push(Cell::Slot(number, place))?;
                Ok(())
            }
            None => Ok(()),
        },
        None => Ok(()),
    }
}

// The job of an edge, and its place in its pool, while its command runs.
fn running(cells: &Cells, edge: u32) -> Option<(u32, Option<u32>)>
    ensures { result ≡ run_in (mark_of cells.now.state edge) }
{
    match cells.get(&Cell::Mark(edge)) {
        Some(Value::Mark(Mark::Running { job, slot, seen: _ })) => Some((*job, *slot)),
        _ => None,
    }
}

// Adds what an edge of the pool holds in a run.
fn push_run(
    writes: &mut Vec<Cell>,
    pool: Option<(u32, u32)>,
    run: Option<(u32, Option<u32>)>,
) -> Result<(), AllocError>
    ensures { OnOk result (writes.new.items ≡ writes.old.items ++ held_by pool run) }
{
    match run {
        Some((job, slot)) => {
            writes.push(Cell::Job(job))?;
            push_slot(writes, pool, slot)?;
            Ok(())
        }
        None => Ok(()),
    }
}

// Adds the job and the place in its pool that an edge holds while its command runs.
fn push_held(
    writes: &mut Vec<Cell>,
    graph: &Graph,
    cells: &Cells,
    edge: u32,
) -> Result<(), AllocError>
    requires { edge < length graph.now.manifest.builds }
    ensures { OnOk result (writes.new.items
        ≡ writes.old.items
        ++ held_cells (pool_of graph.now.manifest edge) (mark_of cells.now.state edge)) }
{
    push_run(writes, graph.pool(edge), running(cells, edge))?;
    Ok(())
}

// Adds the stamps of paths.
fn push_stamps(writes: &mut Vec<Cell>, paths: &[Name]) -> Result<(), AllocError>
    ensures { OnOk result (writes.new.items ≡ writes.old.items ++ stamp_cells paths.now) }
{
    for path in paths {
        writes.push(Cell::Stamp(path.copy()?))?;
    }
    Ok(())
}

// Adds the built records of paths.
fn push_built(writes: &mut Vec<Cell>, paths: &[Name]) -> Result<(), AllocError>
    ensures { OnOk result (writes.new.items ≡ writes.old.items ++ built_cells paths.now) }
{
    for path in paths {
        writes.push(Cell::Built(path.copy()?))?;
    }
    Ok(())
}

// Adds the stamps of an edge's outputs.
fn push_output_stamps(writes: &mut Vec<Cell>, graph: &Graph, edge: u32) -> Result<(), AllocError>
    requires { edge < length graph.now.manifest.builds }
    ensures { OnOk result (writes.new.items
        ≡ writes.old.items
        ++ stamp_cells (outputs_of (build_at graph.now.manifest.builds edge))) }
{
    let outputs = graph.outputs(edge);
    push_stamps(writes, outputs.explicit)?;
    push_stamps(writes, outputs.implicit)?;
    Ok(())
}

// Adds the built records of an edge's outputs.
fn push_output_records(writes: &mut Vec<Cell>, graph: &Graph, edge: u32) -> Result<(), AllocError>
    requires { edge < length graph.now.manifest.builds }
    ensures { OnOk result (writes.new.items
        ≡ writes.old.items
        ++ built_cells (outputs_of (build_at graph.now.manifest.builds edge))) }
{
    let outputs = graph.outputs(edge);
    push_built(writes, outputs.explicit)?;
    push_built(writes, outputs.implicit)?;
    Ok(())
}

/// The deps record of an edge that keeps one: that of its first output.
pub(crate) fn deps_cell(graph: &Graph, edge: u32) -> Result<Option<Cell>, AllocError>
    requires { edge < length graph.now.manifest.builds }
    ensures { IfOk result (λ cell. option_to_list cell
        ≡ deps_cells (build_at graph.now.manifest.builds edge)) }
{
    if !graph.keeps_deps(edge) {
        return Ok(None);
    }
    let outputs = graph.outputs(edge);
    if let Some(path) = outputs.explicit.first() {
        return Ok(Some(Cell::Deps(path.copy()?)));
    }
    match outputs.implicit.first() {
        Some(path) => Ok(Some(Cell::Deps(path.copy()?))),
        None => Ok(None),
    }
}

// Adds a cell, if there is one.
fn push_some(writes: &mut Vec<Cell>, cell: Option<Cell>) -> Result<(), AllocError>
    ensures { OnOk result (writes.new.items ≡ writes.old.items ++ option_to_list cell) }
{
    match cell {
        Some(cell) => {
            writes.push(cell)?;
            Ok(())
        }
        None => Ok(()),
    }
}

// The cells that a start writes.
fn start_writes(
    alloc: Global,
    graph: &Graph,
    edge: u32,
    job: u32,
    slot: Option<u32>,
) -> Result<Vec<Cell>, AllocError>
    requires { edge < length graph.now.manifest.builds }
    ensures { IfOk result (λ writes. (state : State)
        → writes.items ≡ start_writes_of graph.now.manifest edge job slot state) }
{
    let mut writes = Vec::with_capacity(alloc, 2)?;
    writes.push(Cell::Mark(edge))?;
    writes.push(Cell::Job(job))?;
    push_slot(&mut writes, graph.pool(edge), slot)?;
    Ok(writes)
}

// The cells that a command writes which ended without success.
fn end_writes(
    alloc: Global,
    graph: &Graph,
    cells: &Cells,
    edge: u32,
) -> Result<Vec<Cell>, AllocError>
    requires { edge < length graph.now.manifest.builds }
    ensures { IfOk result (λ writes. writes.items ≡ end_writes_of graph.now.manifest edge cells.now.state) }
{
    let mut writes = Vec::new(alloc);
    writes.push(Cell::Mark(edge))?;
    push_held(&mut writes, graph, cells, edge)?;
    push_output_stamps(&mut writes, graph, edge)?;
    Ok(writes)
}

// The cells that a command writes which ended well.
fn finish_writes(
    alloc: Global,
    graph: &Graph,
    cells: &Cells,
    edge: u32,
) -> Result<Vec<Cell>, AllocError>
    requires { edge < length graph.now.manifest.builds }
    ensures { IfOk result (λ writes. writes.items
        ≡ finish_writes_of graph.now.manifest edge cells.now.state) }
{
    let mut writes = Vec::new(alloc);
    writes.push(Cell::Mark(edge))?;
    push_held(&mut writes, graph, cells, edge)?;
    push_output_stamps(&mut writes, graph, edge)?;
    push_output_records(&mut writes, graph, edge)?;
    push_some(&mut writes, deps_cell(graph, edge)?)?;
    Ok(writes)
}

// One cell.
fn one(alloc: Global, cell: Cell) -> Result<Vec<Cell>, AllocError>
    ensures { IfOk result (λ writes. writes.items ≡ cell ∷ []) }
{
    let mut writes = Vec::with_capacity(alloc, 1)?;
    writes.push(cell)?;
    Ok(writes)
}

// The cells that a clean or a pass writes.
fn mark_writes(alloc: Global, graph: &Graph, edge: u32) -> Result<Vec<Cell>, AllocError>
    requires { edge < length graph.now.manifest.builds }
    ensures { IfOk result (λ writes. (state : State)
        → writes.items ≡ mark_writes_of graph.now.manifest edge state) }
{
    let writes = one(alloc, Cell::Mark(edge))?;
    Ok(writes)
}

// The marks of all edges, and whether the build is halted.
fn plan_writes(alloc: Global, graph: &Graph) -> Result<Vec<Cell>, AllocError>
    ensures { IfOk result (λ writes. writes.items
        ≡ map MarkCell (edge_numbers graph.now.manifest.builds) ++ Halted ∷ []) }
{
    let mut writes = Vec::new(alloc);
    for edge in 0..graph.edges() {
        writes.push(Cell::Mark(edge))?;
    }
    writes.push(Cell::Halted)?;
    Ok(writes)
}

// The cells that a start of the edge writes which has the output.
fn of_start(
    alloc: Global,
    graph: &Graph,
    out: &Name,
    job: u32,
    slot: Option<u32>,
) -> Result<Vec<Cell>, AllocError>
    ensures { IfOk result (λ writes. (state : State)
        → writes.items ≡ of_edge []
        (λ edge. start_writes_of graph.now.manifest edge job slot state)
        (edge_of graph.now.manifest out.now)) }
{
    match graph.producer(out) {
        Some(edge) => start_writes(alloc, graph, edge, job, slot),
        None => Ok(Vec::new(alloc)),
    }
}

// The cells that a finish of the edge writes which has the output.
fn of_finish(
    alloc: Global,
    graph: &Graph,
    cells: &Cells,
    out: &Name,
) -> Result<Vec<Cell>, AllocError>
    ensures { IfOk result (λ writes. writes.items
        ≡ of_edge [] (λ edge. finish_writes_of graph.now.manifest edge cells.now.state)
        (edge_of graph.now.manifest out.now)) }
{
    match graph.producer(out) {
        Some(edge) => finish_writes(alloc, graph, cells, edge),
        None => Ok(Vec::new(alloc)),
    }
}

// The cells that an end without success of the edge writes which has the output.
fn of_end(alloc: Global, graph: &Graph, cells: &Cells, out: &Name) -> Result<Vec<Cell>, AllocError>
    ensures { IfOk result (λ writes. writes.items
        ≡ of_edge [] (λ edge. end_writes_of graph.now.manifest edge cells.now.state)
        (edge_of graph.now.manifest out.now)) }
{
    match graph.producer(out) {
        Some(edge) => end_writes(alloc, graph, cells, edge),
        None => Ok(Vec::new(alloc)),
    }
}

// The mark of the edge that has the output.
fn of_mark(alloc: Global, graph: &Graph, out: &Name) -> Result<Vec<Cell>, AllocError>
    ensures { IfOk result (λ writes. (state : State)
        → writes.items ≡ of_edge [] (λ edge. mark_writes_of graph.now.manifest edge state)
        (edge_of graph.now.manifest out.now)) }
{
    match graph.producer(out) {
        Some(edge) => mark_writes(alloc, graph, edge),
        None => Ok(Vec::new(alloc)),
    }
}

// The stamp of a path.
fn of_touch(alloc: Global, path: &Name) -> Result<Vec<Cell>, AllocError>
    ensures { IfOk result (λ writes. writes.items ≡ StampCell path.now ∷ []) }
{
    one(alloc, Cell::Stamp(path.copy()?))
}

/// The cells that an event writes, in the order of its effect.
pub(crate) fn written(
    alloc: Global,
    graph: &Graph,
    cells: &Cells,
    event: &Event,
) -> Result<Vec<Cell>, AllocError>
    ensures { IfOk result (λ writes. writes.items
        ≡ written_by graph.now.manifest cells.now.state event.now) }
{
    match event {
        Event::Plan(_) => plan_writes(alloc, graph),
        Event::Start { out, job, slot } => {
            let started = of_start(alloc, graph, out, *job, *slot)?;
            Ok(started)
        }
        Event::Finish {
            out,
            stamps: _,
            listing: _,
        } => of_finish(alloc, graph, cells, out),
        Event::Fail { out, stamps: _ } => of_end(alloc, graph, cells, out),
        Event::Abort { out, stamps: _ } => of_end(alloc, graph, cells, out),
        Event::Clean { out } => {
            let cleaned = of_mark(alloc, graph, out)?;
            Ok(cleaned)
        }
        Event::Pass { out } => {
            let passed = of_mark(alloc, graph, out)?;
            Ok(passed)
        }
        Event::Touch { path, stamp: _ } => of_touch(alloc, path),
        Event::Interrupt => one(alloc, Cell::Halted),
        Event::Resize { pool, depth: _ } => one(alloc, Cell::Depth(*pool)),
    }
}
