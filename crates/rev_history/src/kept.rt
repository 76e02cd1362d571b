//! Footprints of kept events, as a history lends them.
ghost use Rattle.std.specs.Prelude.{◌≡◌, ◌<◌, IfOk, length, slice_index_or, take};
ghost use Rattle.std.specs.FinSet as sets;
ghost use Rattle.std.specs.List.{IsDistinct};
ghost use Rattle.std.specs.Ordering.{eq_by_cmp};
ghost use Rattle.rev_causal.specs.Store.{among, conflict as conflict_of, is_accessed};
ghost use Rattle.rev_cells.specs.Keys.{cell_cmp};
ghost use Rattle.rev_footprint.specs.Value.{print_of};
ghost use Rattle.rev_history.specs.Kept.{named_cells};

use crate::steps::Step;
use rev_cells::{Cell, Cells};
use rev_footprint::{Footprint, HasCells, conflict_between};
use std::alloc::{AllocError, Global};
use std::marker::Model;

/// Cells of a kept footprint, which the history lends by their places.
#[derive(Drop)]
pub struct KeptCells<'a> {
    places: &'a [u32],
    cells: &'a Cells,
}

impl<'a> Model for KeptCells<'a> {
    ghost use Rattle.std.specs.Prelude.{List};
    ghost use Rattle.rev_cells.specs.declared.cell.Cell.{Cell};
    ghost use Rattle.rev_cells.specs.Keys.{coded_cell};
    ghost use Rattle.std.specs.Coded.{coded_list};
    ghost use Rattle.rev_cells.specs.Places.{AreWithin, cells_at};

    ghost Value = { List Cell };

    ghost coded = { coded_list coded_cell };

    ghost view = { λ a. cells_at a.cells.now.places a.places.now };

    ghost invariant = { λ a. AreWithin a.cells.now.places a.places.now };
}

impl<'a> KeptCells<'a> {
    /// How many cells these are.
    pub fn len(&self) -> usize
        ensures { result ≡ length self.now }
    {
        self.places.len()
    }

    /// The cell at an index, which counts from 0.
    pub fn at(&self, index: usize) -> &'a Cell
        requires { index < length self.now }
        ensures { result.now ≡ slice_index_or self.now index result.now }
    {
        match self.cells.place(self.places[index] as u64) {
            Some(cell) => cell,
            None => unreachable!(),
        }
    }

    /// Whether a cell is one of these. They are looked at one by one.
    pub fn has(&self, cell: &Cell) -> bool
        ensures { result ≡ among cell_cmp self.now cell.now }
    {
        for index in 0..self.len() {
            if cell == self.at(index) {
                return true;
            }
        }
        false
    }

    // Equal cells in a list of their own, with room for no more.
    fn copied(&self, alloc: Global) -> Result<Vec<Cell>, AllocError>
        ensures { IfOk result (λ copied. copied.items ≡ self.now) }
    {
        let mut copied = Vec::with_capacity(alloc, self.len())?;
        for index in 0..self.len() {
            copied.push(self.at(index).copy()?)?;
        }
        Ok(copied)
    }
}

/// The footprint that a kept event has in the state at its place. It is held by the places of its cells, four bytes
/// each, and lends the cells one by one.
#[derive(Drop)]
pub struct KeptFootprint<'a> {
    pub(crate) step: &'a Step,
    pub(crate) cells: &'a Cells,
}

impl<'a> Model for KeptFootprint<'a> {
    ghost use Rattle.rev_footprint.specs.Value.{FootprintValue, footprint_code};
    ghost use Rattle.rev_history.specs.Sound.{IsPlacedIn};
    ghost use Rattle.rev_history.specs.Steps.{footprint_at};

    ghost Value = { FootprintValue };

    ghost coded = { footprint_code };

    ghost view = { λ a. footprint_at a.cells.now.places a.step.now };

    ghost invariant = { λ a. IsPlacedIn a.cells.now.places a.step.now };
}

impl<'a> KeptFootprint<'a> {
    /// The cells that the event reads, each once, the written ones first. Of a whole event, which reads every cell,
    /// these are the written ones alone.
    pub fn reads(&self) -> KeptCells<'a>
        ensures same { sets.from_list result ≡ self.now.reads }
        ensures first { take (length self.now.writes) result ≡ self.now.writes }
        ensures distinct { IsDistinct (eq_by_cmp cell_cmp) result }
    {
        KeptCells {
            places: self.step.places.read(),
            cells: self.cells,
        }
    }

    /// The cells that the event writes, each once, in the order of its effect.
    pub fn writes(&self) -> KeptCells<'a>
        ensures same { result ≡ self.now.writes }
        ensures distinct { IsDistinct (eq_by_cmp cell_cmp) result }
    {
        KeptCells {
            places: self.step.places.written(),
            cells: self.cells,
        }
    }

    /// Whether the event reads every cell, as a plan does.
    pub fn whole(&self) -> bool
        ensures { result ≡ self.now.whole }
    {
        self.step.places.whole()
    }

    /// Whether the event reads or writes a cell. Of a whole event, which reads every cell, only the named cells count.
    /// The named cells are looked at one by one.
    pub fn has(&self, cell: &Cell) -> bool
        ensures { result ≡ is_accessed cell_cmp (named_cells self.now) cell.now }
    {
        self.reads().has(cell)
    }

    /// An equal footprint with a list of its own: it reads and writes the same cells, each in its order, and is whole
    /// where this one is.
    ///
    /// # Errors
    /// [`AllocError`] only where an allocation was refused.
    pub fn to_footprint(&self, alloc: Global) -> Result<Footprint, AllocError>
        ensures { IfOk result (λ footprint. footprint ≡ self.now) }
    {
        let read = self.reads().copied(alloc)?;
        Ok(Footprint::of(read, self.writes().len(), self.whole()))
    }
}

impl<'a> HasCells for KeptFootprint<'a> {
    ghost footprint = { λ f. f };

    fn reads_all(&self) -> bool {
        self.whole()
    }

    fn written_count(&self) -> usize {
        self.writes().len()
    }

    fn written_cell(&self, place: usize) -> &Cell {
        self.writes().at(place)
    }

    fn accesses(&self, cell: &Cell) -> bool {
        self.has(cell)
    }
}

/// [`conflict_between`] of two footprints that a history lends.
pub fn conflict(first: &KeptFootprint<'_>, second: &KeptFootprint<'_>) -> bool
    ensures { result ≡ conflict_of cell_cmp (print_of first.now) (print_of second.now) }
{
    conflict_between(first, second)
}
