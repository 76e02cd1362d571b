//! The kept numbers in the access lists of their footprints.
ghost use Rattle.std.specs.Prelude.{◌≡◌, List, None, true, length, map, IfOk, OnOk, OnErr};
ghost use Rattle.std.specs.List.{AllByRecursion, IsDistinct};
ghost use Rattle.std.specs.Ordering.{eq_by_cmp};
ghost use Rattle.rev_accesses.specs.Places.{print_of as print_by_places};
ghost use Rattle.rev_accesses.specs.Value.{Prints, Shows};
ghost use Rattle.rev_causal.specs.AccessLists.{lists_read, lists_write, first_above as first_above_in, lesser as lesser_of, nearest_user as nearest_user_in, nearest_writer as nearest_writer_in, numbers_by};
ghost use Rattle.rev_causal.specs.Chosen.{IsRising as IsRisingNumbers};
ghost use Rattle.rev_causal.specs.History.{IsRising, event_at, put};
ghost use Rattle.rev_causal.specs.KeptHistory.{nearest_in};
ghost use Rattle.rev_cells.specs.declared.cell.Cell.{Cell};
ghost use Rattle.rev_cells.specs.declared.value.Value.{Value};
ghost use Rattle.rev_cells.specs.Effects.{cells_of, former_values, set_all, stored_in, stored_values};
ghost use Rattle.rev_cells.specs.Keys.{cell_cmp};
ghost use Rattle.rev_cells.specs.Places.{IsGrown};
ghost use Rattle.rev_cells.specs.Values.{Fits};
ghost use Rattle.rev_footprint.specs.Value.{print_of};
ghost use Rattle.rev_history.specs.Named.{AreNamed, CellPrints};
ghost use Rattle.rev_history.specs.Sound.{IsPlacedIn};
ghost use Rattle.rev_history.specs.Steps.{IsPrintAt, footprint_at, replaced_at};

use crate::steps::Step;
use rev_accesses::{Accesses, Places};
use rev_cells::{Cell, Cells, Value};
use rev_footprint::Footprint;
use rev_numbers::{first_above, lesser};
use std::alloc::{AllocError, Global};

// The least number above another of those that read or write a cell. It takes no memory.
fn first_user(accesses: &Accesses, cells: &Cells, cell: &Cell, number: u32) -> Option<u32>
    ensures { (prints : Prints) (named : CellPrints) → Shows accesses.now prints
        → AreNamed cells.now.places prints named
        → result ≡ lesser_of (first_above_in number (numbers_by (lists_write cell_cmp cell.now) named))
        (first_above_in number (numbers_by (lists_read cell_cmp cell.now) named)) }
{
    match cells.place_of(cell) {
        Some(place) => accesses.first_user(place, number),
        None => None,
    }
}

// The least number above another of those that write a cell. It takes no memory.
fn first_writer(accesses: &Accesses, cells: &Cells, cell: &Cell, number: u32) -> Option<u32>
    ensures { (prints : Prints) (named : CellPrints) → Shows accesses.now prints
        → AreNamed cells.now.places prints named
        → result ≡ first_above_in number (numbers_by (lists_write cell_cmp cell.now) named) }
{
    match cells.place_of(cell) {
        Some(place) => accesses.first_writer(place, number),
        None => None,
    }
}

// The least number above another of those that read or write one of some cells. It takes no memory.
fn nearest_user(accesses: &Accesses, cells: &Cells, written: &[Cell], number: u32) -> Option<u32>
    ensures { (prints : Prints) (named : CellPrints) → Shows accesses.now prints
        → AreNamed cells.now.places prints named
        → result ≡ nearest_user_in cell_cmp number written.now named }
{
    let mut least = None;
    for cell in written {
        least = lesser(least, first_user(accesses, cells, cell, number));
    }
    least
}

// The least number above another of those that write one of some cells. It takes no memory.
fn nearest_writer(accesses: &Accesses, cells: &Cells, read: &[Cell], number: u32) -> Option<u32>
    ensures { (prints : Prints) (named : CellPrints) → Shows accesses.now prints
        → AreNamed cells.now.places prints named
        → result ≡ nearest_writer_in cell_cmp number read.now named }
{
    let mut least = None;
    for cell in read {
        least = lesser(least, first_writer(accesses, cells, cell, number));
    }
    least
}

/// The least of the kept numbers above another whose footprint conflicts with one. It takes no memory.
pub(crate) fn nearest(
    number: u32,
    footprint: &Footprint,
    kept: &[u32],
    accesses: &Accesses,
    cells: &Cells,
) -> Option<u32>
    requires { IsRisingNumbers kept.now }
    ensures { (prints : Prints) (named : CellPrints) → IsRising named → numbers_by (λ f. true) named ≡ kept.now
        → Shows accesses.now prints → AreNamed cells.now.places prints named
        → result ≡ nearest_in cell_cmp number (print_of footprint.now) named }
{
    if footprint.whole() {
        return first_above(kept, number);
    }
    let whole = accesses.first_whole(number);
    let used = nearest_user(accesses, cells, footprint.writes(), number);
    let source = nearest_writer(accesses, cells, footprint.reads(), number);
    lesser(whole, lesser(used, source))
}

// The places of a footprint's cells. A cell that has none gets one.
fn places_of(alloc: Global, cells: &mut Cells, footprint: &Footprint) -> Result<Places, AllocError>
    ensures places { IfOk result (IsPrintAt cells.new.places footprint.now) }
    ensures grown { IsGrown cells.old.places cells.new.places }
    ensures distinct { IsDistinct (eq_by_cmp cell_cmp) cells.new.places }
    ensures state { cells.new.state ≡ cells.old.state }
    ensures jobs { cells.new.jobs ≡ cells.old.jobs }
    ensures writes { cells.new.writes ≡ cells.old.writes }
{
    match cells.places_of(alloc, footprint.reads()) {
        Ok(read) => {
            let _first = cells.place(0);
            let writes = footprint.writes();
            Ok(Places::of(read, writes.len(), footprint.whole()))
        }
        Err(AllocError) => {
            let _first = cells.place(0);
            Err(AllocError)
        }
    }
}

// The values that are written, in a list with room for no more.
fn values_of(alloc: Global, writes: Vec<(Cell, Value)>) -> Result<Vec<Value>, AllocError>
    ensures { IfOk result (λ values. values.items ≡ map (λ (w : Cell × Value). w.1) writes.items) }
{
    let mut values = Vec::with_capacity(alloc, writes.len())?;
    for write in writes {
        let (_cell, value) = write;
        values.push(value)?;
    }
    Ok(values)
}

/// Puts a number into the lists of its footprint and writes the cells of its event, or does neither. It gives the step
/// of the event: the places of the footprint's cells, and what the written cells held, with room for no more. Cells
/// may have got places in either case.
pub(crate) fn write_noted(
    alloc: Global,
    accesses: &mut Accesses,
    cells: &mut Cells,
    number: u32,
    footprint: &Footprint,
    writes: Vec<(Cell, Value)>,
) -> Result<Step, AllocError>
    requires fits { AllByRecursion (λ (w : Cell × Value). Fits w.0 w.1) writes.items }
    requires cells { cells_of writes.items ≡ footprint.now.writes }
    ensures state { OnOk result (cells.new.state ≡ set_all cells.old.state writes.items) }
    ensures jobs { cells.new.jobs ≡ cells.old.jobs }
    ensures print { IfOk result (λ step. footprint_at cells.new.places step ≡ footprint.now) }
    ensures placed { IfOk result (IsPlacedIn cells.new.places) }
    ensures grown { IsGrown cells.old.places cells.new.places }
    ensures distinct { IsDistinct (eq_by_cmp cell_cmp) cells.new.places }
    ensures former_fits { IfOk result (λ step. AllByRecursion (λ (w : Cell × Value). Fits w.0 w.1)
        (replaced_at cells.new.places step)) }
    ensures stored { IsDistinct (eq_by_cmp cell_cmp) (cells_of writes.items)
        → IfOk result (λ step. stored_values (replaced_at cells.new.places step)
        ≡ stored_in cells.old.state writes.items) }
    ensures unchanged { OnErr result (cells.new.state ≡ cells.old.state) }
    ensures not_counted { OnErr result (cells.new.writes ≡ cells.old.writes) }
    ensures noted { IfOk result (λ step. (prints : Prints) → IsRising prints → event_at number prints ≡ None
        → Shows accesses.old prints
        → Shows accesses.new (put number (print_by_places step.places) prints)) }
    ensures not_noted { OnErr result ((prints : Prints) → IsRising prints → event_at number prints ≡ None
        → Shows accesses.old prints → Shows accesses.new prints) }
{
    let places = places_of(alloc, cells, footprint)?;
    let mut replaced = values_of(alloc, writes)?;
    accesses.put(number, &places)?;
    cells.exchange_at(places.written(), &mut replaced);
    Ok(Step { places, replaced })
}
