//! How far edges have come, what is held, and the depths that pools were given.
ghost use Rattle.std.specs.Prelude.{◌≡◌, ◌++◌, ◌∷◌, [], IfOk, OnOk};
ghost use Rattle.std.specs.List.{flat_map};
ghost use Rattle.rev_cells.specs.State.{depth_in, halted_in, job_in, mark_in, slot_in, value_at};
ghost use Rattle.rev_cells.specs.declared.mark.Mark.TheVariants as mark;
ghost use Rattle.rev_fields.specs.Fields.{spaced};
ghost use Rattle.rev_listing.specs.Listing.{line};
ghost use Rattle.rev_listing.specs.Marks.{depth_text, halted_text, job_text, mark_fields, mark_text, marks_text, number_or_dash, numbers_or_dash, output_field, slot_text};
ghost use Rattle.std.specs.Prelude.{codes, decimal};

use crate::nondefault_cells::{Kinds, cells_told};
use crate::output::next_edge;
use rev_cells::{Cell, Cells, Mark, Value};
use rev_fields::{next_number, next_numbers};
use rev_graph::Graph;
use std::alloc::{AllocError, Global};

// Adds a space and a number, or a dash where there is none.
fn next_or_dash(text: &mut Vec<u8>, number: Option<u32>) -> Result<(), AllocError>
    ensures { OnOk result (text.new.items ≡ text.old.items ++ spaced (number_or_dash number)) }
{
    match number {
        None => text.extend_from_slice(b" -"),
        Some(number) => next_number(text, u64::from(number)),
    }
}

// Adds a space and positions with commas between them, or a dash where there is none.
fn next_positions(text: &mut Vec<u8>, positions: &[u64]) -> Result<(), AllocError>
    ensures { OnOk result (text.new.items ≡ text.old.items ++ spaced (numbers_or_dash positions.now)) }
{
    if positions.is_empty() {
        return text.extend_from_slice(b" -");
    }
    next_numbers(text, positions)
}

// Adds a mark of a command that runs.
fn push_running(
    text: &mut Vec<u8>,
    job: u32,
    slot: Option<u32>,
    seen: u64,
) -> Result<(), AllocError>
    ensures { OnOk result (text.new.items
        ≡ text.old.items ++ flat_map spaced (mark_fields (mark.Running job slot seen))) }
{
    text.extend_from_slice(b" running")?;
    next_number(text, u64::from(job))?;
    next_or_dash(text, slot)?;
    next_number(text, seen)
}

// Adds a mark of a command that is done.
fn push_done(text: &mut Vec<u8>, changed: &[u64]) -> Result<(), AllocError>
    ensures { OnOk result (text.new.items
        ≡ text.old.items ++ flat_map spaced (mark_fields (mark.Done changed.now))) }
{
    text.extend_from_slice(b" done")?;
    next_positions(text, changed)
}

// Adds a mark.
fn push_mark(text: &mut Vec<u8>, mark: &Mark) -> Result<(), AllocError>
    ensures { OnOk result (text.new.items ≡ text.old.items ++ flat_map spaced (mark_fields mark.now)) }
{
    match mark {
        Mark::Idle => text.extend_from_slice(b" idle"),
        Mark::Wanted => text.extend_from_slice(b" wanted"),
        Mark::Through => text.extend_from_slice(b" through"),
        Mark::Running { job, slot, seen } => push_running(text, *job, *slot, *seen),
        Mark::Done(changed) => push_done(text, changed.as_slice()),
        Mark::Clean => text.extend_from_slice(b" clean"),
        Mark::Failed => text.extend_from_slice(b" failed"),
        Mark::Stopped => text.extend_from_slice(b" stopped"),
    }
}

// Adds the mark that a cell holds, Idle where it is of another kind.
fn push_mark_at(text: &mut Vec<u8>, cells: &Cells, cell: &Cell) -> Result<(), AllocError>
    ensures { OnOk result (text.new.items
        ≡ text.old.items ++ flat_map spaced
        (mark_fields (mark_in (value_at cells.now.state cell.now)))) }
{
    match cells.get(cell) {
        Some(Value::Mark(mark)) => push_mark(text, mark),
        _ => push_mark(text, &Mark::Idle),
    }
}

// Adds `mark E OUT WORD`.
fn push_edge(
    text: &mut Vec<u8>,
    graph: &Graph,
    cells: &Cells,
    cell: &Cell,
    edge: u32,
) -> Result<(), AllocError>
    ensures { OnOk result (text.new.items
        ≡ text.old.items ++ line
        (codes "mark" ∷ decimal edge ∷ output_field graph.now.manifest.builds edge
        ∷ mark_fields (mark_in (value_at cells.now.state cell.now)))) }
{
    text.extend_from_slice(b"mark")?;
    next_number(text, u64::from(edge))?;
    next_edge(text, graph, edge)?;
    push_mark_at(text, cells, cell)?;
    text.extend_from_slice(b"\n")
}

// The edge that a job's cell holds.
fn job_at(cells: &Cells, cell: &Cell) -> Option<u32>
    ensures { result ≡ job_in (value_at cells.now.state cell.now) }
{
    match cells.get(cell) {
        Some(Value::Job(holder)) => *holder,
        _ => None,
    }
}

// The edge that a slot's cell holds.
fn slot_at(cells: &Cells, cell: &Cell) -> Option<u32>
    ensures { result ≡ slot_in (value_at cells.now.state cell.now) }
{
    match cells.get(cell) {
        Some(Value::Slot(holder)) => *holder,
        _ => None,
    }
}

// The depth that a pool's cell holds.
fn depth_at(cells: &Cells, cell: &Cell) -> Option<u32>
    ensures { result ≡ depth_in (value_at cells.now.state cell.now) }
{
    match cells.get(cell) {
        Some(Value::Depth(depth)) => *depth,
        _ => None,
    }
}

// Whether a cell says that the build was interrupted.
fn halted_at(cells: &Cells, cell: &Cell) -> bool
    ensures { result ≡ halted_in (value_at cells.now.state cell.now) }
{
    match cells.get(cell) {
        Some(Value::Halted(halted)) => *halted,
        _ => false,
    }
}

// Adds `job J E`, where the job is held.
fn push_job(text: &mut Vec<u8>, job: u32, holder: Option<u32>) -> Result<(), AllocError>
    ensures { OnOk result (text.new.items ≡ text.old.items ++ job_text job holder) }
{
    let Some(edge) = holder else {
        return Ok(());
    };
    text.extend_from_slice(b"job")?;
    next_number(text, u64::from(job))?;
    next_number(text, u64::from(edge))?;
    text.extend_from_slice(b"\n")
}

// Adds `slot POOL S E`, where the slot is held.
fn push_slot(
    text: &mut Vec<u8>,
    pool: u32,
    place: u32,
    holder: Option<u32>,
) -> Result<(), AllocError>
    ensures { OnOk result (text.new.items ≡ text.old.items ++ slot_text pool place holder) }
{
    let Some(edge) = holder else {
        return Ok(());
    };
    text.extend_from_slice(b"slot")?;
    next_number(text, u64::from(pool))?;
    next_number(text, u64::from(place))?;
    next_number(text, u64::from(edge))?;
    text.extend_from_slice(b"\n")
}

// Adds `depth POOL N`, where the pool was given a depth.
fn push_depth(text: &mut Vec<u8>, pool: u32, depth: Option<u32>) -> Result<(), AllocError>
    ensures { OnOk result (text.new.items ≡ text.old.items ++ depth_text pool depth) }
{
    let Some(depth) = depth else {
        return Ok(());
    };
    text.extend_from_slice(b"depth")?;
    next_number(text, u64::from(pool))?;
    next_number(text, u64::from(depth))?;
    text.extend_from_slice(b"\n")
}

// Adds `halted`, where the build was interrupted.
fn push_halted(text: &mut Vec<u8>, halted: bool) -> Result<(), AllocError>
    ensures { OnOk result (text.new.items ≡ text.old.items ++ halted_text halted) }
{
    if !halted {
        return Ok(());
    }
    text.extend_from_slice(b"halted\n")
}

// Adds the line of a cell that is a mark, or says what is held, what depth a pool was given or that the build was
// interrupted.
fn push_cell(
    text: &mut Vec<u8>,
    graph: &Graph,
    cells: &Cells,
    cell: &Cell,
) -> Result<(), AllocError>
    ensures { OnOk result (text.new.items
        ≡ text.old.items ++ mark_text graph.now.manifest.builds cell.now
        (value_at cells.now.state cell.now)) }
{
    match cell {
        Cell::Mark(edge) => push_edge(text, graph, cells, cell, *edge),
        Cell::Job(job) => push_job(text, *job, job_at(cells, cell)),
        Cell::Slot(pool, place) => push_slot(text, *pool, *place, slot_at(cells, cell)),
        Cell::Depth(pool) => push_depth(text, *pool, depth_at(cells, cell)),
        Cell::Halted => push_halted(text, halted_at(cells, cell)),
        Cell::Stamp(_) => Ok(()),
        Cell::Built(_) => Ok(()),
        Cell::Deps(_) => Ok(()),
    }
}

/// A line `mark E OUT WORD` for each edge that is not `Idle`, then `job J E` and `slot POOL S E` for what is held.
/// Then a line `depth POOL N` for each pool that was given a depth, also where it is that of the manifest, in rising
/// numbers. Last `halted`, where the build was interrupted.
pub fn marks_text(alloc: Global, graph: &Graph, cells: &Cells) -> Result<Vec<u8>, AllocError>
    ensures { IfOk result (λ text. text.items ≡ marks_text graph.now.manifest.builds cells.now.state) }
{
    let there = cells_told(alloc, cells, Kinds::Marks)?;
    let mut text = Vec::new(alloc);
    for (cell, _) in &there {
        push_cell(&mut text, graph, cells, cell)?;
    }
    Ok(text)
}
