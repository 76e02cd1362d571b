//! When two footprints conflict, whoever holds their cells.
ghost use Rattle.std.specs.Prelude.{◌≡◌, ◌<◌, length, slice_index_or};
ghost use Rattle.std.specs.List.{list_any};
ghost use Rattle.rev_causal.specs.Store.{conflict as conflict_of};
ghost use Rattle.rev_cells.specs.Keys.{cell_cmp};
ghost use Rattle.rev_footprint.specs.Value.{FootprintValue, names, print_of};

use crate::footprints::Footprint;
use rev_cells::Cell;

/// What has the cells of a footprint: a [`Footprint`], which has a list of its own, or what a history lends of a kept
/// event's.
pub trait HasCells {
    ghost footprint: { Self → FootprintValue };

    /// Whether every cell is read, as by a plan.
    fn reads_all(&self) -> bool
        ensures { result ≡ (footprint self.now).whole };

    /// How many cells are written.
    fn written_count(&self) -> usize
        ensures { result ≡ length (footprint self.now).writes };

    /// The written cell at a place in the order of the event's effect.
    fn written_cell(&self, place: usize) -> &Cell
        requires { place < length (footprint self.now).writes }
        ensures { result.now ≡ slice_index_or (footprint self.now).writes place result.now };

    /// Whether a cell is read or written; of a whole event, whether it is written.
    fn accesses(&self, cell: &Cell) -> bool
        ensures { result ≡ names (footprint self.now) cell.now };
}

// Whether a cell that one writes is read or written by the other.
fn writes_to<F: HasCells, G: HasCells>(one: &F, other: &G) -> bool
    ensures { result ≡ list_any (names (G.footprint other.now)) (F.footprint one.now).writes }
{
    for place in 0..one.written_count() {
        if other.accesses(one.written_cell(place)) {
            return true;
        }
    }
    false
}

/// Whether two footprints conflict: one is whole, or a cell that one writes is read or written by the other.
///
/// It takes no memory. Each cell that one writes is looked for among those that the other names, one by one.
pub fn conflict_between<F: HasCells, G: HasCells>(first: &F, second: &G) -> bool
    ensures { result ≡ conflict_of cell_cmp (print_of (F.footprint first.now)) (print_of (G.footprint second.now)) }
{
    if first.reads_all() {
        return true;
    }
    if second.reads_all() {
        return true;
    }
    if writes_to(first, second) {
        return true;
    }
    writes_to(second, first)
}

/// [`conflict_between`] of two footprints that have lists of their own.
pub fn conflict(first: &Footprint, second: &Footprint) -> bool
    ensures { result ≡ conflict_of cell_cmp (print_of first.now) (print_of second.now) }
{
    conflict_between(first, second)
}
