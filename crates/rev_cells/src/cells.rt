//! The cells and what they hold.
ghost use Rattle.std.specs.Prelude.{◌≡◌, ◌↔◌, ◌++◌, ◌∷◌, [], Some, IsTrue, IsSome, IfOk, IfSome, IfNone, OnOk, OnErr, slice_get, length, Contains, ◌<◌, ◌^◌, ◌⊎◌};
ghost use Rattle.std.specs.Option.{option_copied};
ghost use Rattle.std.specs.List.{AllByRecursion, IsDistinct};
ghost use Rattle.std.specs.Ordering.{eq_by_cmp};
ghost use Rattle.std.specs.FinMap as map;
ghost use Rattle.rev_cells.specs.declared.cell.Cell.{Cell};
ghost use Rattle.rev_cells.specs.Asked.{asked_cell};
ghost use Rattle.rev_cells.specs.Keys.{cell_cmp};
ghost use Rattle.rev_cells.specs.Effects.{cells_of, former_values, set_all, stored_in, stored_values};
ghost use Rattle.rev_cells.specs.Places.{AreWithin, IsGrown, cells_at, with_values};
ghost use Rattle.rev_cells.specs.State.{default_or, set, value_at};
ghost use Rattle.rev_cells.specs.Table.{Table, no_records, opened, raised, raised_by, written, written_all};
ghost use Rattle.rev_cells.specs.Values.{Fits, unless_default};

use crate::alike::same_entries;
use crate::asked::Asked;
use crate::cell::Cell;
use crate::opening::Opening;
use crate::value::Value;
use indexmap::IndexMap;
use std::alloc::{AllocError, Global};
use std::marker::Model;
use std::mem;

/// What each cell holds. Some cells have a place: all that hold no default, and those for which one was made.
/// A cell that has a place can be written with no more memory.
pub struct Cells {
    jobs: u32,
    entries: IndexMap<Cell, Value>,
    writes: u64,
}

// Written, since a derived drop is proved again at each exit of each caller.
impl Drop for Cells {
    fn drop(self) {
        let Cells {
            jobs: _jobs,
            entries: _entries,
            writes: _writes,
        } = self;
    }
}

impl Model for Cells {
    ghost use Rattle.rev_cells.specs.Table.{Table, table_code};

    ghost Value = { Table };

    ghost coded = { table_code };

    ghost use Rattle.rev_cells.specs.Sound.{table_of, IsSound};

    ghost view = { table_of };

    ghost invariant = { IsSound };
}

// A place as it is kept, in four bytes. One past `u32` is reported as out of memory.
fn as_place(place: usize) -> Result<u32, AllocError>
    ensures { IfOk result (λ kept. kept ≡ place) }
{
    match u32::try_from(place) {
        Ok(kept) => Ok(kept),
        Err(_) => Err(AllocError),
    }
}

// The count of writes after one more.
fn one_write_more(writes: u64) -> u64
    ensures { result ≡ raised writes }
{
    writes.saturating_add(1)
}

impl Cells {
    // Every cell at its default, and no places.
    pub(crate) fn with_jobs(alloc: Global, jobs: u32) -> Cells
        ensures { result ≡ opened (no_records jobs) }
    {
        Cells {
            jobs,
            entries: IndexMap::new(alloc),
            writes: 0,
        }
    }

    /// The cells with what an opening gives them. The places are those of its records, in the order in which they were
    /// given.
    pub fn new(_alloc: Global, opening: &Opening) -> Result<Cells, AllocError>
        ensures { IfOk result (λ cells. cells ≡ opened opening.now) }
    {
        let mut cells = opening.cells().copy()?;
        cells.writes = 0;
        Ok(cells)
    }

    // Equal cells.
    pub(crate) fn copy(&self) -> Result<Cells, AllocError>
        ensures { IfOk result (λ copy. copy ≡ self.now) }
    {
        Ok(Cells {
            jobs: self.jobs,
            entries: self.entries.clone()?,
            writes: self.writes,
        })
    }

    // Whether each cell holds the same as in others.
    pub(crate) fn same_state(&self, other: &Cells) -> bool
        ensures { IsTrue result ↔ (other.now.state ≡ self.now.state) }
    {
        same_entries(&self.entries, &other.entries)
    }

    // Changes the number of jobs.
    pub(crate) fn set_jobs(&mut self, jobs: u32)
        ensures { self.new ≡ record self.old { jobs = jobs } }
    {
        let Cells { jobs: now, .. } = self;
        *now = jobs;
    }

    /// How many jobs there are.
    pub fn jobs(&self) -> u32
        ensures { result ≡ self.now.jobs }
    {
        self.jobs
    }

    /// How often a cell was written, which stays at `u64::MAX` once it is there.
    pub fn writes(&self) -> u64
        ensures { result ≡ self.now.writes }
    {
        self.writes
    }

    /// The place at an index, which counts from 0, and none past the last. No cell has two places.
    pub fn place(&self, index: u64) -> Option<&Cell>
        ensures place { option_copied result ≡ slice_get self.now.places index }
        ensures distinct { IsDistinct (eq_by_cmp cell_cmp) self.now.places }
        ensures all { (c : Cell) → IsSome (map.get self.now.state c) → Contains self.now.places c }
        ensures few { length self.now.places < 2 ^ 64 }
    {
        if index >= self.entries.len() as u64 {
            return None;
        }
        let (cell, _) = self.entries.get_index(index as usize)?;
        Some(cell)
    }

    /// What a cell holds, where none means its default.
    pub fn get(&self, cell: &Cell) -> Option<&Value>
        ensures value { default_or cell.now (option_copied result) ≡ value_at self.now.state cell.now }
        ensures fits { IfSome (option_copied result) (Fits cell.now) }
    {
        self.entries.get(cell)
    }

    // What a cell holds that is asked for by a borrowed path.
    pub(crate) fn find(&self, asked: Asked<'_>) -> Option<&Value>
        ensures { default_or (asked_cell asked.entry) (option_copied result)
            ≡ value_at self.now.state (asked_cell asked.entry) }
    {
        self.entries.get(asked)
    }

    /// Whether a cell has a place.
    pub fn has(&self, cell: &Cell) -> bool
        ensures { IsTrue result ↔ Contains self.now.places cell.now }
    {
        self.entries.contains_key(cell)
    }

    /// Makes a place for a cell, after all others, unless it has one.
    pub fn reserve(&mut self, cell: &Cell) -> Result<(), AllocError>
        ensures state { self.new.state ≡ self.old.state }
        ensures jobs { self.new.jobs ≡ self.old.jobs }
        ensures writes { self.new.writes ≡ self.old.writes }
        ensures present { Contains self.old.places cell.now → self.new ≡ self.old }
        ensures added { OnOk result (Contains self.old.places cell.now
            ⊎ (self.new.places ≡ self.old.places ++ cell.now ∷ [])) }
        ensures has { OnOk result (Contains self.new.places cell.now) }
        ensures err { OnErr result (self.new ≡ self.old) }
    {
        if self.has(cell) {
            return Ok(());
        }
        self.add_place(cell)?;
        Ok(())
    }

    // Makes a place for a cell that has none, after all others.
    fn add_place(&mut self, cell: &Cell) -> Result<(), AllocError>
        requires { Contains self.old.places cell.now → ⊥ }
        ensures state { self.new.state ≡ self.old.state }
        ensures jobs { self.new.jobs ≡ self.old.jobs }
        ensures writes { self.new.writes ≡ self.old.writes }
        ensures added { OnOk result (self.new.places ≡ self.old.places ++ cell.now ∷ []) }
        ensures err { OnErr result (self.new ≡ self.old) }
    {
        let cell = cell.copy()?;
        let value = cell.default_value();
        self.entries.insert(cell, value)?;
        Ok(())
    }

    /// The place of a cell, which counts from 0; none where it has none. It takes no memory.
    pub fn place_of(&self, cell: &Cell) -> Option<usize>
        ensures some { IfSome result (λ place. slice_get self.now.places place ≡ Some cell.now) }
        ensures none { IfNone result (Contains self.now.places cell.now → ⊥) }
        ensures distinct { IsDistinct (eq_by_cmp cell_cmp) self.now.places }
    {
        self.entries.get_index_of(cell)
    }

    // The place of a cell, which gets one where it has none. The cell is looked up once, and a second time where it is
    // new.
    fn place_or_new(&mut self, cell: &Cell) -> Result<u32, AllocError>
        ensures place { IfOk result (λ place. slice_get self.new.places place ≡ Some cell.now) }
        ensures grown { IsGrown self.old.places self.new.places }
        ensures state { self.new.state ≡ self.old.state }
        ensures jobs { self.new.jobs ≡ self.old.jobs }
        ensures writes { self.new.writes ≡ self.old.writes }
    {
        if let Some(place) = self.place_of(cell) {
            return as_place(place);
        }
        let place = as_place(self.entries.len())?;
        self.add_place(cell)?;
        Ok(place)
    }

    /// The places of cells, in a list with room for no more. A cell that has none gets one, after all others.
    ///
    /// # Errors
    /// [`AllocError`] where an allocation was refused, or a place does not fit `u32`. Some of the cells may then have
    /// got places.
    pub fn places_of(&mut self, alloc: Global, cells: &[Cell]) -> Result<Vec<u32>, AllocError>
        ensures places { IfOk result (λ places. cells_at self.new.places places.items ≡ cells.now) }
        ensures within { IfOk result (λ places. AreWithin self.new.places places.items) }
        ensures grown { IsGrown self.old.places self.new.places }
        ensures state { self.new.state ≡ self.old.state }
        ensures jobs { self.new.jobs ≡ self.old.jobs }
        ensures writes { self.new.writes ≡ self.old.writes }
    {
        let mut places = Vec::with_capacity(alloc, cells.len())?;
        for cell in cells {
            let place = self.place_or_new(cell)?;
            places.push(place)?;
        }
        Ok(places)
    }

    /// Writes a value of its kind to a cell that has a place, and gives what the cell held. It is counted as a write.
    pub fn swap(&mut self, cell: &Cell, value: Value) -> Value
        requires has { Contains self.old.places cell.now }
        requires fits { Fits cell.now value }
        ensures former { result ≡ value_at self.old.state cell.now }
        ensures after { self.new ≡ written self.old cell.now value }
        ensures former_fits { Fits cell.now result }
        ensures stored { map.get self.old.state cell.now ≡ unless_default result }
        ensures back { set self.new.state cell.now result ≡ self.old.state }
    {
        let Some(slot) = self.entries.get_mut(cell) else {
            unreachable!()
        };
        let former = mem::replace(slot, value);
        self.writes = one_write_more(self.writes);
        former
    }

    // Makes a place for each cell that is written.
    fn reserve_all(&mut self, writes: &[(Cell, Value)]) -> Result<(), AllocError>
        ensures state { self.new.state ≡ self.old.state }
        ensures jobs { self.new.jobs ≡ self.old.jobs }
        ensures writes { self.new.writes ≡ self.old.writes }
        ensures more { (c : Cell) → Contains self.old.places c → Contains self.new.places c }
        ensures has { OnOk result (AllByRecursion (λ (w : Cell × Value). Contains self.new.places w.0)
            writes.now) }
    {
        for (cell, _) in writes {
            self.reserve(cell)?;
        }
        Ok(())
    }

    // Writes one cell, and leaves what it held in place of what was written.
    fn exchange_one(&mut self, write: &mut (Cell, Value))
        requires has { Contains self.old.places write.old.0 }
        requires fits { Fits write.old.0 write.old.1 }
        ensures former { write.new ≡ (write.old.0, value_at self.old.state write.old.0) }
        ensures former_fits { Fits write.new.0 write.new.1 }
        ensures stored { map.get self.old.state write.old.0 ≡ unless_default write.new.1 }
        ensures after { self.new ≡ written self.old write.old.0 write.old.1 }
    {
        let value = mem::replace(&mut write.1, Value::Halted(false));
        write.1 = self.swap(&write.0, value);
    }

    /// Writes cells that have places, in their order, and leaves beside each what it held when its turn came. Each is
    /// counted as a write. It takes no memory. Where no cell stands twice, another call with what is left restores the
    /// state.
    pub fn exchange(&mut self, writes: &mut Vec<(Cell, Value)>)
        requires has { AllByRecursion (λ (w : Cell × Value). Contains self.old.places w.0) writes.old.items }
        requires fits { AllByRecursion (λ (w : Cell × Value). Fits w.0 w.1) writes.old.items }
        ensures after { self.new ≡ written_all self.old writes.old.items }
        ensures former { writes.new.items ≡ former_values self.old.state writes.old.items }
        ensures former_fits { AllByRecursion (λ (w : Cell × Value). Fits w.0 w.1) writes.new.items }
        ensures stored { IsDistinct (eq_by_cmp cell_cmp) (cells_of writes.old.items)
            → stored_values writes.new.items ≡ stored_in self.old.state writes.old.items }
    {
        for place in 0..writes.len() {
            self.exchange_one(&mut writes[place]);
        }
    }

    // Writes a value of its kind to the cell at a place, and gives what the cell held.
    fn swap_at(&mut self, place: u32, value: Value) -> Value
        requires within { place < length self.old.places }
        requires fits { (c : Cell) → slice_get self.old.places place ≡ Some c → Fits c value }
        ensures former { (c : Cell) → slice_get self.old.places place ≡ Some c → result ≡ value_at self.old.state c }
        ensures after { (c : Cell) → slice_get self.old.places place ≡ Some c → self.new ≡ written self.old c value }
        ensures former_fits { (c : Cell) → slice_get self.old.places place ≡ Some c → Fits c result }
        ensures stored { (c : Cell) → slice_get self.old.places place ≡ Some c
            → map.get self.old.state c ≡ unless_default result }
    {
        let Some(slot) = self.entries.get_index_mut(place as usize) else {
            unreachable!()
        };
        let former = mem::replace(slot, value);
        self.writes = one_write_more(self.writes);
        former
    }

    // Writes a value to the cell at a place, and leaves what the cell held in its place.
    fn exchange_one_at(&mut self, place: u32, value: &mut Value)
        requires within { place < length self.old.places }
        requires fits { (c : Cell) → slice_get self.old.places place ≡ Some c → Fits c value.old }
        ensures former { (c : Cell) → slice_get self.old.places place ≡ Some c
            → value.new ≡ value_at self.old.state c }
        ensures after { (c : Cell) → slice_get self.old.places place ≡ Some c
            → self.new ≡ written self.old c value.old }
        ensures former_fits { (c : Cell) → slice_get self.old.places place ≡ Some c → Fits c value.new }
        ensures stored { (c : Cell) → slice_get self.old.places place ≡ Some c
            → map.get self.old.state c ≡ unless_default value.new }
    {
        let new = mem::replace(value, Value::Halted(false));
        *value = self.swap_at(place, new);
    }

    /// As [`Cells::exchange`], for values of the cells at some places. It takes no memory, and hashes no cell.
    pub fn exchange_at(&mut self, places: &[u32], values: &mut Vec<Value>)
        requires within { AreWithin self.old.places places.now }
        requires many { length values.old.items ≡ length places.now }
        requires fits { AllByRecursion (λ (w : Cell × Value). Fits w.0 w.1)
            (with_values (cells_at self.old.places places.now) values.old.items) }
        ensures after { self.new
            ≡ written_all self.old (with_values (cells_at self.old.places places.now) values.old.items) }
        ensures former { with_values (cells_at self.old.places places.now) values.new.items
            ≡ former_values self.old.state (with_values (cells_at self.old.places places.now) values.old.items) }
        ensures former_fits { AllByRecursion (λ (w : Cell × Value). Fits w.0 w.1)
            (with_values (cells_at self.old.places places.now) values.new.items) }
        ensures many { length values.new.items ≡ length values.old.items }
        ensures stored { let cells = cells_at self.old.places places.now in IsDistinct (eq_by_cmp cell_cmp) cells
            → stored_values (with_values cells values.new.items)
            ≡ stored_in self.old.state (with_values cells values.old.items) }
    {
        for index in 0..places.len() {
            self.exchange_one_at(places[index], &mut values[index]);
        }
    }

    /// Writes cells, in their order, and gives each with what it held when its turn came. Each is counted as a write.
    /// Places are made first, so that running out of memory leaves the state as it was.
    pub fn write_all(
        &mut self,
        writes: Vec<(Cell, Value)>,
    ) -> Result<Vec<(Cell, Value)>, AllocError>
        requires { AllByRecursion (λ (w : Cell × Value). Fits w.0 w.1) writes.items }
        ensures state { OnOk result (self.new.state ≡ set_all self.old.state writes.items) }
        ensures writes { OnOk result (self.new.writes ≡ raised_by (length writes.items) self.old.writes) }
        ensures jobs { self.new.jobs ≡ self.old.jobs }
        ensures more { (c : Cell) → Contains self.old.places c → Contains self.new.places c }
        ensures has { OnOk result (AllByRecursion (λ (w : Cell × Value). Contains self.new.places w.0)
            writes.items) }
        ensures former { IfOk result (λ former. former.items ≡ former_values self.old.state writes.items) }
        ensures former_fits { IfOk result (λ former. AllByRecursion (λ (w : Cell × Value). Fits w.0 w.1) former.items) }
        ensures stored { IsDistinct (eq_by_cmp cell_cmp) (cells_of writes.items)
            → IfOk result (λ former. stored_values former.items
            ≡ stored_in self.old.state writes.items) }
        ensures unchanged { OnErr result (self.new.state ≡ self.old.state) }
        ensures not_counted { OnErr result (self.new.writes ≡ self.old.writes) }
    {
        self.reserve_all(&writes)?;
        let mut former = writes;
        self.exchange(&mut former);
        Ok(former)
    }
}
