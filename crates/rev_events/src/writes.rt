//! What is written to cells.
ghost use Rattle.std.specs.Prelude.{◌≡◌, ◌<◌, ◌^◌, ◌∷◌, [], None, Some, true, not, ◌||◌, ◌==◌, map, length, drop, IfOk, OnOk};
ghost use Rattle.std.specs.List.{range_with_len};
ghost use Rattle.rev_cells.specs.declared.cell.Cell.TheVariants as cell;
ghost use Rattle.rev_cells.specs.declared.value.Value.TheVariants as value;
ghost use Rattle.rev_cells.specs.State.{mark_of, stamp_of};
ghost use Rattle.rev_cells.specs.Values.{Fits};
ghost use Rattle.rev_dirty.specs.Reasons.{is_missing};
ghost use Rattle.rev_graph.specs.Graph.{build_at, outputs_of, pool_of};
ghost use Rattle.rev_events.specs.Edge.{Adds, built_with, changes, first_of, free_held, listed as listed_by, seen_by, where_true, write, write_built, write_deps, write_slot, write_stamps};
ghost use Rattle.rev_events.specs.Machine.{write_marks};
ghost use Rattle.rev_events.specs.declared.event.Listing.{Listing};

use crate::words::running;
use rev_cells::records::stamp;
use rev_cells::{BuiltRecord, Cell, Cells, DepsRecord, Mark, Names, Text, Value};
use rev_graph::Graph;
use rev_paths::Name;
use std::alloc::{AllocError, Global};

/// Cells, each with the value that is written to it.
pub(crate) type Writes = Vec<(Cell, Value)>;

/// Adds the write of a value of its kind to a cell.
pub(crate) fn push_write(writes: &mut Writes, cell: Cell, value: Value) -> Result<(), AllocError>
    requires { Fits cell value }
    ensures { OnOk result (Adds writes.old.items writes.new.items (write cell value ∷ [])) }
{
    writes.push((cell, value))?;
    Ok(())
}

/// The write of a value of its kind to a cell.
pub(crate) fn one_write(alloc: Global, cell: Cell, value: Value) -> Result<Writes, AllocError>
    requires { Fits cell value }
    ensures { IfOk result (λ writes. Adds [] writes.items (write cell value ∷ [])) }
{
    let mut writes = Vec::new(alloc);
    push_write(&mut writes, cell, value)?;
    Ok(writes)
}

/// Adds the write to the slot that is named, where the edge's pool has slots.
pub(crate) fn push_slot(
    writes: &mut Writes,
    pool: Option<(u32, u32)>,
    slot: Option<u32>,
    holder: Option<u32>,
) -> Result<(), AllocError>
    ensures { OnOk result (Adds writes.old.items writes.new.items (write_slot pool slot holder)) }
{
    match (pool, slot) {
        (Some((pool, _)), Some(slot)) => {
            push_write(writes, Cell::Slot(pool, slot), Value::Slot(holder))
        }
        _ => Ok(()),
    }
}

/// Adds the writes that free a running edge's job and slot.
pub(crate) fn push_freed(
    writes: &mut Writes,
    graph: &Graph,
    cells: &Cells,
    edge: u32,
) -> Result<(), AllocError>
    requires { edge < length graph.now.manifest.builds }
    ensures { OnOk result (Adds writes.old.items writes.new.items
        (free_held (pool_of graph.now.manifest edge) (mark_of cells.now.state edge))) }
{
    match running(cells, edge) {
        Some(run) => {
            push_write(writes, Cell::Job(run.job), Value::Job(None))?;
            push_slot(writes, graph.pool(edge), run.slot, None)?;
            Ok(())
        }
        None => Ok(()),
    }
}

// The stamp at a place, 0 past the last.
fn stamp_at(stamps: &[u64], place: usize) -> u64
    ensures { result ≡ first_of 0 (drop place stamps.now) }
{
    match stamps.get(place) {
        Some(stamp) => *stamp,
        None => 0,
    }
}

// Whether the output at a place changed, which it did past the last.
fn flag_at(flags: &[bool], place: usize) -> bool
    ensures { result ≡ first_of true (drop place flags.now) }
{
    match flags.get(place) {
        Some(flag) => *flag,
        None => true,
    }
}

/// Adds the stamps of outputs.
pub(crate) fn push_stamps(
    writes: &mut Writes,
    outputs: &[Name],
    stamps: &[u64],
) -> Result<(), AllocError>
    ensures { OnOk result (Adds writes.old.items writes.new.items (write_stamps outputs.now stamps.now)) }
{
    for (place, path) in outputs.iter().enumerate() {
        let stamp = stamp_at(stamps, place);
        push_write(writes, Cell::Stamp(path.copy()?), Value::Stamp(stamp))?;
    }
    Ok(())
}

// Whether an output changed: always, but under restat only where it has another stamp than before (Ninja manual,
// restat).
fn has_changed(restat: bool, before: u64, now: u64) -> bool
    ensures { result ≡ (not restat || not (before == now)) }
{
    !restat || before != now
}

/// For each output of an edge whether it changed, where `stamps` are those that it has now.
pub(crate) fn changed_flags(
    alloc: Global,
    graph: &Graph,
    cells: &Cells,
    edge: u32,
    outputs: &[Name],
    stamps: &[u64],
) -> Result<Vec<bool>, AllocError>
    requires { edge < length graph.now.manifest.builds }
    ensures { IfOk result (λ flags. flags.items
        ≡ changes (build_at graph.now.manifest.builds edge).restat
        (map (stamp_of cells.now.state) outputs.now) stamps.now) }
{
    let restat = graph.restat(edge);
    let mut flags = Vec::new(alloc);
    for (place, path) in outputs.iter().enumerate() {
        let before = stamp(cells, path);
        let changed = has_changed(restat, before, stamp_at(stamps, place));
        flags.push(changed)?;
    }
    Ok(flags)
}

/// For each output whether it is missing.
pub(crate) fn missing_flags(
    alloc: Global,
    cells: &Cells,
    outputs: &[Name],
) -> Result<Vec<bool>, AllocError>
    ensures { IfOk result (λ flags. flags.items ≡ map (is_missing cells.now.state) outputs.now) }
{
    let mut flags = Vec::new(alloc);
    for path in outputs {
        flags.push(stamp(cells, path) == 0)?;
    }
    Ok(flags)
}

/// The positions at which flags are set.
pub(crate) fn positions(alloc: Global, flags: &[bool]) -> Result<Vec<u64>, AllocError>
    ensures { IfOk result (λ positions. positions.items ≡ where_true flags.now) }
{
    let mut positions = Vec::new(alloc);
    for (position, flag) in flags.iter().enumerate() {
        if *flag {
            positions.push(position as u64)?;
        }
    }
    Ok(positions)
}

/// All positions below a number.
pub(crate) fn all_positions(alloc: Global, count: usize) -> Result<Vec<u64>, AllocError>
    ensures { IfOk result (λ positions. positions.items ≡ range_with_len 0 count) }
{
    let mut positions = Vec::new(alloc);
    for position in 0..count {
        positions.push(position as u64)?;
    }
    Ok(positions)
}

// The greatest stamp that the inputs of an edge had when its command was started.
fn seen(cells: &Cells, edge: u32) -> u64
    ensures { result ≡ seen_by (mark_of cells.now.state edge) }
{
    match running(cells, edge) {
        Some(run) => run.seen,
        None => 0,
    }
}

// The record that the output at a place gets: with its stamp where it changed, and else with the stamp that the command
// has seen.
fn built_at(
    command: &Text,
    seen: u64,
    flags: &[bool],
    stamps: &[u64],
    place: usize,
) -> Result<BuiltRecord, AllocError>
    ensures { IfOk result (λ built. value.Built (Some built)
        ≡ built_with command.now seen (first_of true (drop place flags.now))
        (first_of 0 (drop place stamps.now))) }
{
    let command = command.copy()?;
    if flag_at(flags, place) {
        return Ok(BuiltRecord {
            command,
            stamp: stamp_at(stamps, place),
        });
    }
    Ok(BuiltRecord {
        command,
        stamp: seen,
    })
}

/// Adds the built records of outputs, by whether each changed: with its stamp, or with the stamp that the command has
/// seen.
pub(crate) fn push_built(
    writes: &mut Writes,
    graph: &Graph,
    cells: &Cells,
    edge: u32,
    outputs: &[Name],
    flags: &[bool],
    stamps: &[u64],
) -> Result<(), AllocError>
    requires { edge < length graph.now.manifest.builds }
    ensures { OnOk result (Adds writes.old.items writes.new.items
        (write_built (build_at graph.now.manifest.builds edge).command
        (seen_by (mark_of cells.now.state edge)) outputs.now flags.now stamps.now)) }
{
    let seen = seen(cells, edge);
    let command = Text::of_shared(graph.shared_command(edge)?);
    for (place, path) in outputs.iter().enumerate() {
        let built = built_at(&command, seen, flags, stamps, place)?;
        push_write(writes, Cell::Built(path.copy()?), Value::Built(Some(built)))?;
    }
    Ok(())
}

/// Adds the deps record of the first output, which lists paths, where the edge keeps deps.
pub(crate) fn push_deps(
    writes: &mut Writes,
    graph: &Graph,
    edge: u32,
    outputs: &[Name],
    stamps: &[u64],
    paths: Names,
) -> Result<(), AllocError>
    requires edge { edge < length graph.now.manifest.builds }
    requires outputs { outputs.now ≡ outputs_of (build_at graph.now.manifest.builds edge) }
    ensures { OnOk result ((listing : Listing) → paths ≡ listed_by listing
        → Adds writes.old.items writes.new.items
        (write_deps (build_at graph.now.manifest.builds edge) stamps.now listing)) }
{
    if !graph.keeps_deps(edge) {
        return Ok(());
    }
    let Some(path) = outputs.first() else {
        return Ok(());
    };
    let deps = DepsRecord {
        stamp: stamp_at(stamps, 0),
        paths,
    };
    push_write(writes, Cell::Deps(path.copy()?), Value::Deps(Some(deps)))
}

/// Adds a mark for each edge.
pub(crate) fn push_marks(writes: &mut Writes, marks: &[Mark]) -> Result<(), AllocError>
    requires { length marks.now < 2 ^ 32 }
    ensures { OnOk result (Adds writes.old.items writes.new.items
        (write_marks (range_with_len 0 (length marks.now)) marks.now)) }
{
    for (edge, mark) in marks.iter().enumerate() {
        push_write(writes, Cell::Mark(edge as u32), Value::Mark(mark.copy()?))?;
    }
    Ok(())
}
