//! A small machine that shows every side of the theory: registers that hold numbers, and a lock. One of its events is
//! whole, one has a footprint that depends on the state, and two can be refused.

ghost use Rattle.std.specs.Prelude.{◌≡◌, IfOk, [], ◌∷◌};
ghost use Rattle.std.specs.FinMap as finmap;
ghost use Rattle.std.specs.List.{list_any};
ghost use Rattle.std.specs.Ordering.{eq_by_cmp};
ghost use Rattle.rev_causal.specs.Store.{set_cells, among, is_accessed, conflict as conflicts, replaced};
ghost use Rattle.rev_causal.specs.Store.Footprint.{Whole, Cells as Of};
ghost use Rattle.rev_causal.specs.Registers as table;
ghost use Rattle.rev_causal.specs.Registers.{cell_cmp, cells_of};

use std::alloc::{AllocError, Global};
use std::marker::Model;

pub mod history;
pub mod laws;

/// A cell of the state.
#[derive(Clone, Copy, Debug, PartialEq, Eq)]
pub enum Cell {
    /// The register of that number. It holds 0 where nothing was stored.
    Register(u32),
    /// The lock. It is open at first.
    Lock,
}

/// What may happen.
#[derive(Clone, Copy, Debug, PartialEq, Eq)]
pub enum Event {
    /// The register gets the value. Never refused.
    Set { register: u32, value: u32 },
    /// The register gets what the register holds whose number `pointer` holds. Refused where the lock is closed.
    Load { register: u32, pointer: u32 },
    /// The lock is closed. Refused where it is.
    Close,
    /// Each register below `count` gets what the next one holds. Never refused, and whole.
    Shift { count: u32 },
}

/// Why an event is refused.
#[derive(Clone, Copy, Debug, PartialEq, Eq)]
pub enum Refusal {
    /// The lock is closed.
    Closed,
}

/// The cells that an event reads and writes.
#[derive(Drop)]
pub struct Footprint {
    whole: bool,
    reads: Vec<Cell>,
    writes: Vec<Cell>,
}

impl Model for Footprint {
    ghost use Rattle.rev_causal.specs.Store as store;
    ghost use Rattle.rev_causal.specs.Registers.{coded_print, print_of};
    ghost use Rattle.rev_causal.specs.declared.registers.Cell.{Cell};

    ghost Value = { store.Footprint Cell };

    ghost coded = { coded_print };

    ghost view = { λ f. print_of f.whole f.reads.items f.writes.items };
}

impl Footprint {
    /// The footprint of an event that reads and writes all cells.
    pub fn whole(alloc: Global) -> Self
        ensures { result ≡ Whole }
    {
        Footprint {
            whole: true,
            reads: Vec::new(alloc),
            writes: Vec::new(alloc),
        }
    }

    /// The footprint of an event that reads those cells and writes these.
    pub fn of(reads: Vec<Cell>, writes: Vec<Cell>) -> Self
        ensures { result ≡ Of reads.items writes.items }
    {
        Footprint {
            whole: false,
            reads,
            writes,
        }
    }

    /// An equal footprint.
    pub fn copy(&self, alloc: Global) -> Result<Self, AllocError>
        ensures { IfOk result (λ copy. copy ≡ self.now) }
    {
        Ok(Footprint {
            whole: self.whole,
            reads: Vec::from_slice(alloc, &self.reads)?,
            writes: Vec::from_slice(alloc, &self.writes)?,
        })
    }

    /// Makes this the footprint that reads and writes all that either does. After an error it is any footprint.
    pub fn join(&mut self, other: &Footprint) -> Result<(), AllocError>
        ensures { IfOk result (λ _. self.new ≡ table.joined self.old other.now) }
    {
        self.whole = self.whole || other.whole;
        self.reads.extend_from_slice(&other.reads)?;
        self.writes.extend_from_slice(&other.writes)?;
        Ok(())
    }

    /// Whether the cell is read or written.
    pub fn accesses(&self, cell: Cell) -> bool
        ensures { result ≡ is_accessed cell_cmp self.now cell }
    {
        self.whole || has(&self.writes, cell) || has(&self.reads, cell)
    }
}

fn has(cells: &[Cell], cell: Cell) -> bool
    ensures { result ≡ among cell_cmp cells.now cell }
{
    cells.iter().any(|c| *c == cell)
}

fn any_accessed(cells: &[Cell], footprint: &Footprint) -> bool
    ensures { result ≡ list_any (is_accessed cell_cmp footprint.now) cells.now }
{
    cells.iter().any(|c| footprint.accesses(*c))
}

/// Whether two footprints conflict: one is whole, or a cell that one writes is read or written by the other.
pub fn conflict(a: &Footprint, b: &Footprint) -> bool
    ensures { result ≡ conflicts cell_cmp a.now b.now }
{
    if a.whole || b.whole {
        return true;
    }
    any_accessed(&a.writes, b) || any_accessed(&b.writes, a)
}

/// What the cells hold, kept as the list of what was written, the last write first.
#[derive(Drop)]
pub struct Cells {
    table: Vec<(Cell, Option<u32>)>,
}

impl Model for Cells {
    ghost use Rattle.rev_causal.specs.Registers.{State, coded_state, cells_of};

    ghost Value = { State };

    ghost coded = { coded_state };

    ghost view = { λ a. cells_of a.table.items };
}

impl Cells {
    /// Nothing is stored, and the lock is open.
    pub fn new(alloc: Global) -> Self
        ensures { result ≡ finmap.empty }
    {
        Cells {
            table: Vec::new(alloc),
        }
    }

    /// What the cell holds, `None` where it is at its default.
    pub fn get(&self, cell: Cell) -> Option<u32>
        ensures { result ≡ finmap.get self.now cell }
    {
        value_in(&self.table, cell)
    }

    /// These cells after some writes.
    pub fn written(
        &self,
        alloc: Global,
        writes: &[(Cell, Option<u32>)],
    ) -> Result<Cells, AllocError>
        ensures { IfOk result (λ cells. cells ≡ set_cells cell_cmp self.now writes.now) }
    {
        Ok(Cells {
            table: with_front(alloc, &self.table, writes)?,
        })
    }
}

fn same_cell(a: Cell, b: Cell) -> bool
    ensures { result ≡ eq_by_cmp cell_cmp a b }
{
    a == b
}

fn value_in(table: &[(Cell, Option<u32>)], cell: Cell) -> Option<u32>
    ensures { result ≡ finmap.get (cells_of table.now) cell }
{
    for write in table {
        if same_cell(cell, write.0) {
            return write.1;
        }
    }
    None
}

fn with_front(
    alloc: Global,
    table: &[(Cell, Option<u32>)],
    writes: &[(Cell, Option<u32>)],
) -> Result<Vec<(Cell, Option<u32>)>, AllocError>
    ensures { IfOk result (λ all. cells_of all.items ≡ set_cells cell_cmp (cells_of table.now) writes.now) }
{
    let mut all = Vec::from_slice(alloc, table)?;
    for write in writes {
        all.insert(0, *write)?;
    }
    Ok(all)
}

/// The event's refusal, if it has one.
#[tactic(auto, unfolding(crate::specs::Registers::refusal))]
pub fn check(cells: &Cells, event: Event) -> Option<Refusal>
    ensures { result ≡ table.refusal cells.now event }
{
    match event {
        Event::Set { .. } | Event::Shift { .. } => None,
        Event::Load { .. } | Event::Close => {
            if cells.get(Cell::Lock).is_some() {
                Some(Refusal::Closed)
            } else {
                None
            }
        },
    }
}

/// What an event that is not refused writes: each cell with what it then holds.
#[tactic(auto, unfolding(crate::specs::Registers::effect))]
pub fn effect(
    alloc: Global,
    cells: &Cells,
    event: Event,
) -> Result<Vec<(Cell, Option<u32>)>, AllocError>
    ensures { IfOk result (λ writes. writes.items ≡ table.effect cells.now event) }
{
    match event {
        Event::Set { register, value } => one(
            alloc,
            Cell::Register(register),
            if value == 0 { None } else { Some(value) },
        ),
        Event::Load { register, pointer } => {
            let from = pointed(cells, pointer);
            one(alloc, Cell::Register(register), cells.get(from))
        },
        Event::Close => one(alloc, Cell::Lock, Some(1)),
        Event::Shift { count } => shifted(alloc, cells, count),
    }
}

/// The register whose number the register `pointer` holds.
fn pointed(cells: &Cells, pointer: u32) -> Cell
    ensures { result ≡ table.pointed cells.now pointer }
{
    Cell::Register(cells.get(Cell::Register(pointer)).unwrap_or(0))
}

fn one(
    alloc: Global,
    cell: Cell,
    value: Option<u32>,
) -> Result<Vec<(Cell, Option<u32>)>, AllocError>
    ensures { IfOk result (λ writes. writes.items ≡ (cell, value) ∷ []) }
{
    let mut writes = Vec::new(alloc);
    writes.push((cell, value))?;
    Ok(writes)
}

fn shifted(alloc: Global, cells: &Cells, count: u32) -> Result<Vec<(Cell, Option<u32>)>, AllocError>
    ensures { IfOk result (λ writes. writes.items ≡ table.shifted cells.now count) }
{
    let mut writes = Vec::new(alloc);
    for register in 0..count {
        writes.push((
            Cell::Register(register),
            cells.get(Cell::Register(register + 1)),
        ))?;
    }
    Ok(writes)
}

/// The footprint of an event that is not refused.
#[tactic(auto, unfolding(crate::specs::Registers::footprint))]
pub fn footprint_of(alloc: Global, cells: &Cells, event: Event) -> Result<Footprint, AllocError>
    ensures { IfOk result (λ footprint. footprint ≡ table.footprint cells.now event) }
{
    let mut reads = Vec::new(alloc);
    let mut writes = Vec::new(alloc);
    match event {
        Event::Set { register, .. } => writes.push(Cell::Register(register))?,
        Event::Load { register, pointer } => {
            reads.push(Cell::Lock)?;
            reads.push(Cell::Register(pointer))?;
            reads.push(pointed(cells, pointer))?;
            writes.push(Cell::Register(register))?;
        },
        Event::Close => writes.push(Cell::Lock)?,
        Event::Shift { .. } => return Ok(Footprint::whole(alloc)),
    }
    Ok(Footprint::of(reads, writes))
}

/// What the cells to be written hold before.
pub fn values_before(
    alloc: Global,
    cells: &Cells,
    writes: &[(Cell, Option<u32>)],
) -> Result<Vec<(Cell, Option<u32>)>, AllocError>
    ensures { IfOk result (λ values. values.items ≡ replaced cells.now writes.now) }
{
    let mut values = Vec::new(alloc);
    for write in writes {
        values.push((write.0, cells.get(write.0)))?;
    }
    Ok(values)
}
