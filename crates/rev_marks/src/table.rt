//! Masks of events, under the cells that they read and write.
ghost use Rattle.std.specs.Prelude.{◌≡◌, ◌||◌, ◌&&◌, ◌∷◌, ℕ, filter, false, [], OnOk};
ghost use Rattle.std.specs.List.{list_any};
ghost use Rattle.rev_causal.specs.Store.{Footprint as Print, among, conflict};
ghost use Rattle.rev_cells.specs.declared.cell.Cell.{Cell};
ghost use Rattle.rev_cells.specs.Keys.{cell_cmp};
ghost use Rattle.rev_marks.specs.Masks.{has_mark};
ghost use Rattle.rev_held.specs.Beside.{is_place as is_place_of};
ghost use Rattle.rev_marks.specs.Table.{IsNoted, Marks, counted, is_marked, is_met, mask_of, print_by, viewed};

use indexmap::IndexMap;
use rev_cells::Cell;
use rev_history::KeptCells;
use std::alloc::{AllocError, Global};

/// The masks of events that were noted, those that read a cell and those that write it, joined under the cell; and
/// those of all, and of all that are whole.
pub(crate) struct Table {
    pub(crate) all: u64,
    pub(crate) whole: u64,
    pub(crate) read: IndexMap<Cell, u64>,
    pub(crate) written: IndexMap<Cell, u64>,
}

impl Drop for Table {
    fn drop(self) {
        let Table {
            all: _all,
            whole: _whole,
            read: _read,
            written: _written,
        } = self;
    }
}

/// That of no event.
pub(crate) fn no_events(alloc: Global) -> Table
    ensures all { result.all ≡ 0 }
    ensures whole { result.whole ≡ 0 }
    ensures read { result.read.entries ≡ [] }
    ensures written { result.written.entries ≡ [] }
{
    Table {
        all: 0,
        whole: 0,
        read: IndexMap::new(alloc),
        written: IndexMap::new(alloc),
    }
}

// Whether a cell is that of a job or of a slot.
fn is_place(cell: &Cell) -> bool
    ensures { result ≡ is_place_of cell.now }
{
    match cell {
        Cell::Job(_) => true,
        Cell::Slot(_, _) => true,
        _ => false,
    }
}

// Whether a cell counts, where those of jobs and slots may be left out.
fn counts(beside: bool, cell: &Cell) -> bool
    ensures { result ≡ counted beside cell.now }
{
    !(beside && is_place(cell))
}

// The mask under a cell.
fn mask_at(masks: &IndexMap<Cell, u64>, cell: &Cell) -> u64
    ensures { result ≡ mask_of masks.now.entries cell.now }
{
    match masks.get(cell) {
        Some(mask) => *mask,
        None => 0,
    }
}

// The same, where the cell counts.
fn counted_at(masks: &IndexMap<Cell, u64>, beside: bool, cell: &Cell) -> u64
    ensures { (i : ℕ) → has_mark i result ≡ (counted beside cell.now && is_marked masks.now.entries i cell.now) }
{
    if counts(beside, cell) {
        mask_at(masks, cell)
    } else {
        0
    }
}

// The marks under those cells that count.
fn marks_at(masks: &IndexMap<Cell, u64>, beside: bool, cells: &KeptCells<'_>) -> u64
    ensures { (i : ℕ) → has_mark i result
        ≡ list_any (λ c. counted beside c && is_marked masks.now.entries i c) cells.now }
{
    let mut marks = 0;
    for index in 0..cells.len() {
        marks |= counted_at(masks, beside, cells.at(index));
    }
    marks
}

// Adds the marks of a mask under a cell.
fn mark(masks: &mut IndexMap<Cell, u64>, cell: &Cell, mask: u64) -> Result<(), AllocError>
    ensures { OnOk result (Marks masks.old.entries masks.new.entries (cell.now ∷ []) mask) }
{
    let old = mask_at(masks, cell);
    let new = old | mask;
    if new == old {
        return Ok(());
    }
    masks.insert(cell.copy()?, new)?;
    Ok(())
}

// The same, where the cell counts.
fn mark_counted(
    masks: &mut IndexMap<Cell, u64>,
    beside: bool,
    cell: &Cell,
    mask: u64,
) -> Result<(), AllocError>
    ensures { OnOk result (Marks masks.old.entries masks.new.entries (filter (counted beside) (cell.now ∷ [])) mask) }
{
    if counts(beside, cell) {
        mark(masks, cell, mask)?;
    }
    Ok(())
}

// Adds the marks of a mask under those cells that count.
fn mark_all(
    masks: &mut IndexMap<Cell, u64>,
    beside: bool,
    cells: &KeptCells<'_>,
    mask: u64,
) -> Result<(), AllocError>
    ensures { OnOk result (Marks masks.old.entries masks.new.entries (filter (counted beside) cells.now) mask) }
{
    for index in 0..cells.len() {
        mark_counted(masks, beside, cells.at(index), mask)?;
    }
    Ok(())
}

/// The marks of the noted events on which one depends that reads and writes these cells.
pub(crate) fn met(
    table: &Table,
    beside: bool,
    whole: bool,
    reads: &KeptCells<'_>,
    writes: &KeptCells<'_>,
) -> u64
    ensures { (i : ℕ) → has_mark i result
        ≡ is_met table.now i (viewed beside (print_by whole reads.now writes.now)) }
{
    if whole {
        return table.all;
    }
    table.whole
        | (marks_at(&table.written, beside, reads)
            | (marks_at(&table.written, beside, writes) | marks_at(&table.read, beside, writes)))
}

/// Notes one more event with its mask.
pub(crate) fn note(
    table: &mut Table,
    beside: bool,
    whole: bool,
    reads: &KeptCells<'_>,
    writes: &KeptCells<'_>,
    mask: u64,
) -> Result<(), AllocError>
    ensures { OnOk result (IsNoted table.old table.new (viewed beside (print_by whole reads.now writes.now)) mask) }
{
    table.all |= mask;
    if whole {
        table.whole |= mask;
        return Ok(());
    }
    mark_all(&mut table.read, beside, reads, mask)?;
    mark_all(&mut table.written, beside, writes, mask)?;
    Ok(())
}
