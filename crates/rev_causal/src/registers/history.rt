//! A history over the machine of registers: its kept events can be undone out of order, by the values that each
//! replaced.

ghost use Rattle.std.specs.Prelude.{◌≡◌, ◌↔◌, ℕ, ◌<◌, [], ◌∷◌, map, IfOk, IfErr, IsErrOf, OnOk, OnErr, MatchOption};
ghost use Rattle.std.specs.declared.option.Option.TheVariants.{None};
ghost use Rattle.rev_causal.specs.Order.{nearest as nearest_behind, cone};
ghost use Rattle.rev_causal.specs.Entries.{clash};
ghost use Rattle.rev_causal.specs.History.{IsRising, event_at, number_of, nearest_to, nearest_above as first_above};
ghost use Rattle.rev_causal.specs.Store.{set_cells, replaced};
ghost use Rattle.rev_causal.specs.Registers.{registers, register_machine, cell_cmp};
ghost use Rattle.rev_causal.specs.declared.registers.Refusal.{Refusal};
ghost use Rattle.rev_causal.specs.RegisterHistory.{state_of, nearest_of, in_the_way, undone as without_it, kept_at_its_place, cone_numbers, number_of_entry, numbered, entry_of, IsPlaceOf, IsKeptAt, IsMadeFor};

use super::{
    Cell, Cells, Event, Footprint, Refusal, check, conflict, effect, footprint_of, values_before,
};
use std::alloc::{AllocError, Global};
use std::marker::Model;

/// A kept event.
#[derive(Drop)]
pub struct Kept {
    /// Its number. Numbers rise in a history.
    pub number: u32,
    /// The event.
    pub event: Event,
    /// The cells that it read and wrote at its place.
    pub footprint: Footprint,
    /// What the cells that it wrote held before it.
    pub replaced: Vec<(Cell, Option<u32>)>,
}

/// Why a history refuses.
#[derive(Clone, Copy, Debug, Drop, PartialEq, Eq)]
pub enum HistoryFault {
    /// An allocation failed.
    Memory,
    /// No event is kept under that number.
    NotKept,
    /// An event is kept under that number.
    IsKept,
    /// The event is refused in the present state.
    Refused(Refusal),
    /// An undo: the event of this number depends on it, and it is the least that does.
    Needed(u32),
    /// A redo: the event of this number conflicts with it, and it is the least above its own that does.
    InTheWay(u32),
}

/// The first later event that conflicts.
fn nearest(of: &Kept, later: &[Kept]) -> Option<u32>
    ensures { result ≡ number_of register_machine
        (nearest_behind (clash register_machine) (entry_of of.now) (map entry_of later.now)) }
{
    for k in later {
        if conflict(&of.footprint, &k.footprint) {
            return Some(k.number);
        }
    }
    None
}

/// The first kept event above the number that conflicts with the footprint.
pub fn nearest_above(number: u32, footprint: &Footprint, kept: &[Kept]) -> Option<u32>
    ensures { result ≡ first_above register_machine number footprint.now (map entry_of kept.now) }
{
    for k in kept {
        if number < k.number && conflict(footprint, &k.footprint) {
            return Some(k.number);
        }
    }
    None
}

/// The first place whose number is not below this one.
fn place_of(number: u32, kept: &[Kept]) -> usize
    ensures { IsPlaceOf number kept.now result }
{
    for place in 0..kept.len() {
        if number <= kept[place].number {
            return place;
        }
    }
    kept.len()
}

/// The place at which the number is kept.
fn kept_at(number: u32, kept: &[Kept]) -> Option<usize>
    requires { IsRising (map numbered kept.now) }
    ensures { MatchOption result (event_at number (map numbered kept.now) ≡ None)
        (λ place. IsKeptAt number kept.now place) }
{
    let place = place_of(number, kept);
    if place < kept.len() {
        if kept[place].number == number {
            return Some(place);
        }
    }
    None
}

/// The number of the nearest event that depends on the one at the place.
fn dependent(number: u32, kept: &[Kept], place: usize) -> Option<u32>
    requires { IsKeptAt number kept.now place }
    ensures { result ≡ nearest_to register_machine number (map entry_of kept.now) }
{
    nearest(&kept[place], &kept[place + 1..])
}

/// The place of a kept event on which no other depends.
fn takeable(number: u32, kept: &[Kept]) -> Result<usize, HistoryFault>
    requires { IsRising (map numbered kept.now) }
    ensures taken { IfOk result (λ place. IsKeptAt number kept.now place
        × (nearest_to register_machine number (map entry_of kept.now) ≡ None)) }
    ensures not_kept { IsErrOf result HistoryFault.NotKept ↔ (event_at number (map numbered kept.now) ≡ None) }
    ensures needed { (m : ℕ) → IsErrOf result (HistoryFault.Needed m)
        ↔ (nearest_to register_machine number (map entry_of kept.now) ≡ Some m) }
{
    let Some(place) = kept_at(number, kept) else {
        return Err(HistoryFault::NotKept);
    };
    if let Some(other) = dependent(number, kept, place) {
        return Err(HistoryFault::Needed(other));
    }
    Ok(place)
}

/// The numbers of the cone of an event, among those that stand behind it.
fn cone_behind(alloc: Global, first: &Kept, later: &[Kept]) -> Result<Vec<u32>, AllocError>
    ensures { IfOk result (λ numbers. numbers.items
        ≡ map number_of_entry
        (entry_of first.now
        ∷ cone (clash register_machine) (entry_of first.now ∷ []) (map entry_of later.now))) }
{
    let mut numbers = Vec::new(alloc);
    numbers.push(first.number)?;
    let mut members = first.footprint.copy(alloc)?;
    for k in later {
        if conflict(&members, &k.footprint) {
            numbers.push(k.number)?;
            members.join(&k.footprint)?;
        }
    }
    Ok(numbers)
}

/// Whether the number is free and the event accepted in the cells.
fn keepable(number: u32, event: Event, kept: &[Kept], cells: &Cells) -> Result<(), HistoryFault>
    requires { IsRising (map numbered kept.now) }
    ensures ok { IfOk result (λ _. (event_at number (map numbered kept.now) ≡ None)
        × (registers.refusal cells.now event ≡ None)) }
    ensures is_kept { IsErrOf result HistoryFault.IsKept ↔ (event_at number (map numbered kept.now) ≡ None → ⊥) }
    ensures refused { (r : Refusal) → IsErrOf result (HistoryFault.Refused r)
        ↔ ((event_at number (map numbered kept.now) ≡ None)
        × (registers.refusal cells.now event ≡ Some r)) }
    ensures nothing_else { (m : ℕ) → IsErrOf result (HistoryFault.InTheWay m) → ⊥ }
{
    if let Some(_place) = kept_at(number, kept) {
        return Err(HistoryFault::IsKept);
    }
    match check(cells, event) {
        Some(refusal) => Err(HistoryFault::Refused(refusal)),
        None => Ok(()),
    }
}

/// What the event would replace now.
fn replaced_now(
    alloc: Global,
    cells: &Cells,
    event: Event,
) -> Result<Vec<(Cell, Option<u32>)>, AllocError>
    ensures { IfOk result (λ values. values.items ≡ replaced cells.now (registers.effect cells.now event)) }
{
    let writes = effect(alloc, cells, event)?;
    values_before(alloc, cells, &writes)
}

/// The cells after the event.
fn cells_after(alloc: Global, cells: &Cells, event: Event) -> Result<Cells, AllocError>
    ensures { IfOk result (λ after. after
        ≡ set_cells cell_cmp cells.now (registers.effect cells.now event)) }
{
    let writes = effect(alloc, cells, event)?;
    cells.written(alloc, &writes)
}

/// An opening, and the events that are kept after it under rising numbers.
#[derive(Drop)]
pub struct History {
    opening: Cells,
    cells: Cells,
    kept: Vec<Kept>,
}

impl Model for History {
    ghost use Rattle.rev_causal.specs.Registers.{State, coded_state};
    ghost use Rattle.rev_causal.specs.contracts.registers.Event as event;
    ghost use Rattle.rev_causal.specs.declared.registers.Event.{Event};
    ghost use Rattle.std.specs.Coded.{code_by, coded×, coded_list, coded_ℕ};
    ghost use Rattle.std.specs.Prelude.{ℕ, List, refl, map};
    ghost use Rattle.rev_causal.specs.RegisterHistory.{RegisterHistory, numbered, IsHistory};

    ghost Value = { RegisterHistory };

    ghost coded = { code_by (State × List (ℕ × Event)) (coded× coded_state (coded_list (coded× coded_ℕ event.the_row.coded))) (λ h. (h.opening, h.kept)) (λ p. record { opening = p.0; kept = p.1 }) (λ _. refl) };

    ghost view = { λ h. record { opening = h.opening; kept = map numbered h.kept.items } };

    ghost invariant = { λ h. IsHistory h.opening h.cells h.kept.items };
}

impl History {
    /// The history in which nothing is kept yet.
    pub fn new(alloc: Global, opening: &Cells) -> Result<Self, AllocError>
        ensures { IfOk result (λ history. history ≡ record { opening = opening.now; kept = [] }) }
    {
        Ok(History {
            opening: opening.written(alloc, &[])?,
            cells: opening.written(alloc, &[])?,
            kept: Vec::new(alloc),
        })
    }

    /// The state that the kept events lead to.
    pub fn cells(&self) -> &Cells
        ensures { result.now ≡ state_of self.now }
    {
        &self.cells
    }

    /// Takes out a kept event on which no other depends. Where it is refused, nothing changes.
    pub fn undo(&mut self, alloc: Global, number: u32) -> Result<Kept, HistoryFault>
        ensures ok { OnOk result (self.new ≡ without_it number self.old) }
        ensures free { IfOk result (λ _. nearest_of number self.old ≡ None) }
        ensures taken { IfOk result (λ k. (k.number ≡ number) × (event_at number self.old.kept ≡ Some k.event)) }
        ensures not_kept { IsErrOf result HistoryFault.NotKept ↔ (event_at number self.old.kept ≡ None) }
        ensures needed { (m : ℕ) → IsErrOf result (HistoryFault.Needed m) ↔ (nearest_of number self.old ≡ Some m) }
        ensures err { OnErr result (self.new ≡ self.old) }
    {
        let place = match takeable(number, &self.kept) {
            Ok(place) => place,
            Err(fault) => return Err(fault),
        };
        match self.cells.written(alloc, &self.kept[place].replaced) {
            Ok(cells) => {
                self.cells = cells;
                Ok(self.kept.remove(place))
            },
            Err(_) => Err(HistoryFault::Memory),
        }
    }

    /// The numbers of the kept event's cone, rising: its own, and each whose event depends on a member.
    pub fn cone(&self, alloc: Global, number: u32) -> Result<Vec<u32>, HistoryFault>
        ensures ok { IfOk result (λ numbers. numbers.items ≡ cone_numbers number self.now) }
        ensures not_kept { IsErrOf result HistoryFault.NotKept ↔ (event_at number self.now.kept ≡ None) }
    {
        let Some(place) = kept_at(number, &self.kept) else {
            return Err(HistoryFault::NotKept);
        };
        match cone_behind(alloc, &self.kept[place], &self.kept[place + 1..]) {
            Ok(numbers) => Ok(numbers),
            Err(_) => Err(HistoryFault::Memory),
        }
    }

    /// Accepts the event in the present state and keeps it at its number's place. Where it is refused, nothing changes.
    pub fn accept(&mut self, alloc: Global, number: u32, event: Event) -> Result<(), HistoryFault>
        ensures ok { OnOk result (self.new ≡ kept_at_its_place number event self.old) }
        ensures nothing_in_the_way { IfOk result (λ _. in_the_way number event self.old ≡ None) }
        ensures is_kept { IsErrOf result HistoryFault.IsKept ↔ (event_at number self.old.kept ≡ None → ⊥) }
        ensures refused { (r : Refusal) → IsErrOf result (HistoryFault.Refused r)
            ↔ ((event_at number self.old.kept ≡ None)
            × (registers.refusal (state_of self.old) event ≡ Some r)) }
        ensures in_the_way { (m : ℕ) → IsErrOf result (HistoryFault.InTheWay m)
            → in_the_way number event self.old ≡ Some m }
        ensures err { OnErr result (self.new ≡ self.old) }
    {
        match self.made(alloc, number, event) {
            Ok(made) => self.put(alloc, made),
            Err(fault) => Err(fault),
        }
    }

    /// Keeps an event again that was undone, as it is in the present state. Where it is refused, nothing changes.
    pub fn redo(&mut self, alloc: Global, undone: &Kept) -> Result<(), HistoryFault>
        ensures ok { OnOk result (self.new ≡ kept_at_its_place undone.now.number undone.now.event self.old) }
        ensures nothing_in_the_way { IfOk result (λ _. in_the_way undone.now.number undone.now.event self.old ≡ None) }
        ensures is_kept { IsErrOf result HistoryFault.IsKept
            ↔ (event_at undone.now.number self.old.kept ≡ None → ⊥) }
        ensures refused { (r : Refusal) → IsErrOf result (HistoryFault.Refused r)
            ↔ ((event_at undone.now.number self.old.kept ≡ None)
            × (registers.refusal (state_of self.old) undone.now.event ≡ Some r)) }
        ensures in_the_way { (m : ℕ) → IsErrOf result (HistoryFault.InTheWay m)
            → in_the_way undone.now.number undone.now.event self.old ≡ Some m }
        ensures err { OnErr result (self.new ≡ self.old) }
    {
        match self.made(alloc, undone.number, undone.event) {
            Ok(again) => self.put(alloc, again),
            Err(fault) => Err(fault),
        }
    }

    /// The event as it would be kept now.
    fn made(&self, alloc: Global, number: u32, event: Event) -> Result<Kept, HistoryFault>
        ensures made { IfOk result (λ k. IsMadeFor self.now k × (k.number ≡ number) × (k.event ≡ event)) }
        ensures is_kept { IsErrOf result HistoryFault.IsKept ↔ (event_at number self.now.kept ≡ None → ⊥) }
        ensures refused { (r : Refusal) → IsErrOf result (HistoryFault.Refused r)
            ↔ ((event_at number self.now.kept ≡ None)
            × (registers.refusal (state_of self.now) event ≡ Some r)) }
        ensures in_the_way { (m : ℕ) → IsErrOf result (HistoryFault.InTheWay m)
            → in_the_way number event self.now ≡ Some m }
    {
        if let Err(fault) = keepable(number, event, &self.kept, &self.cells) {
            return Err(fault);
        }
        let Ok(footprint) = footprint_of(alloc, &self.cells, event) else {
            return Err(HistoryFault::Memory);
        };
        if let Some(other) = nearest_above(number, &footprint, &self.kept) {
            return Err(HistoryFault::InTheWay(other));
        }
        let Ok(replaced) = replaced_now(alloc, &self.cells, event) else {
            return Err(HistoryFault::Memory);
        };
        Ok(Kept {
            number,
            event,
            footprint,
            replaced,
        })
    }

    fn put(&mut self, alloc: Global, made: Kept) -> Result<(), HistoryFault>
        requires { IsMadeFor self.old made }
        ensures ok { OnOk result (self.new ≡ kept_at_its_place made.number made.event self.old) }
        ensures memory { IfErr result (λ fault. fault ≡ HistoryFault.Memory) }
        ensures err { OnErr result (self.new ≡ self.old) }
    {
        let Ok(cells) = cells_after(alloc, &self.cells, made.event) else {
            return Err(HistoryFault::Memory);
        };
        let place = place_of(made.number, &self.kept);
        match self.kept.insert(place, made) {
            Ok(_) => {
                self.cells = cells;
                Ok(())
            },
            Err(_) => Err(HistoryFault::Memory),
        }
    }
}
