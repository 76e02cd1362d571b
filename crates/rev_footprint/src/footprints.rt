//! Footprints.
ghost use Rattle.std.specs.Prelude.{◌≡◌, ◌≤◌, length, take};
ghost use Rattle.std.specs.FinSet as cells;
ghost use Rattle.std.specs.List.{IsDistinct};
ghost use Rattle.std.specs.Ordering.{eq_by_cmp};
ghost use Rattle.rev_cells.specs.Keys.{cell_cmp};

use crate::conflicts::HasCells;
use crate::listed::is_among;
use rev_cells::Cell;
use std::marker::Model;

/// The cells that an event reads and writes in a state. A written cell is read too, so all stand in one list, which
/// has room for them and no more: first the written ones, then those that are only read.
pub struct Footprint {
    cells: Vec<Cell>,
    written: usize,
    whole: bool,
}

impl Drop for Footprint {
    fn drop(self) {
        let Footprint {
            cells: _cells,
            written: _written,
            whole: _whole,
        } = self;
    }
}

impl Model for Footprint {
    ghost use Rattle.rev_footprint.specs.Value.{FootprintValue, footprint_code};

    ghost Value = { FootprintValue };

    ghost coded = { footprint_code };

    ghost use Rattle.rev_footprint.specs.Sound.{value_of, IsSound};

    ghost view = { value_of };

    ghost invariant = { IsSound };
}

impl Footprint {
    /// The footprint of an event that reads these cells and writes the first `written` of them. Of a whole event they
    /// are those that it writes. It takes no memory: where a list with room for no more is refused, the larger one
    /// stays.
    pub fn of(read: Vec<Cell>, written: usize, whole: bool) -> Footprint
        requires within { written ≤ length read.items }
        requires distinct { IsDistinct (eq_by_cmp cell_cmp) read.items }
        ensures { result ≡ record {
          reads = cells.from_list read.items;
          writes = take written read.items;
          whole =
              whole;
        } }
    {
        let mut cells = read;
        cells.shrink_to_fit();
        Footprint {
            cells,
            written,
            whole,
        }
    }

    /// The cells that are read, each once, the written ones first; of a whole event, which reads every cell, those
    /// alone.
    pub fn reads(&self) -> &[Cell]
        ensures same { cells.from_list result.now ≡ self.now.reads }
        ensures first { take (length self.now.writes) result.now ≡ self.now.writes }
        ensures distinct { IsDistinct (eq_by_cmp cell_cmp) result.now }
    {
        self.cells.as_slice()
    }

    /// The cells that are written, each once, in the order of the event's effect.
    pub fn writes(&self) -> &[Cell]
        ensures same { result.now ≡ self.now.writes }
        ensures distinct { IsDistinct (eq_by_cmp cell_cmp) result.now }
    {
        &self.cells[..self.written]
    }

    /// Whether the event reads every cell, as a plan does.
    pub fn whole(&self) -> bool
        ensures { result ≡ self.now.whole }
    {
        self.whole
    }
}

impl HasCells for Footprint {
    ghost footprint = { λ f. f };

    fn reads_all(&self) -> bool {
        Footprint::whole(self)
    }

    fn written_count(&self) -> usize {
        self.written
    }

    fn written_cell(&self, place: usize) -> &Cell {
        &self.cells[place]
    }

    // A written cell is read too.
    fn accesses(&self, cell: &Cell) -> bool {
        is_among(self.reads(), cell)
    }
}
