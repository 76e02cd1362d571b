//! Of some events, in the order in which they are found, the first that names each cell.
ghost use Rattle.std.specs.Prelude.{◌≡◌, ◌||◌, ◌∷◌, ◌++◌, ℕ, [], Bool, IfOk, List, OnOk, Some, None, find, if◌then◌else◌};
ghost use Rattle.std.specs.List.{list_any};
ghost use Rattle.std.specs.Map.{lookup};
ghost use Rattle.std.specs.Option.{option_or};
ghost use Rattle.rev_causal.specs.Store.{among, conflict};
ghost use Rattle.rev_cells.specs.declared.cell.Cell.{Cell};
ghost use Rattle.rev_cells.specs.Keys.{cell_cmp};
ghost use Rattle.rev_cells.specs.Same.{cell_eq};
ghost use Rattle.rev_footprint.specs.Value.{print_of};
ghost use Rattle.rev_history.specs.Timeline.{Timeline, kept_footprint};
ghost use Rattle.rev_held.specs.Firsts.{AreFirsts, first_where, later_of};
ghost use Rattle.rev_held.specs.Laws.{IsFalling};

use indexmap::IndexMap;
use rev_cells::Cell;
use rev_history::{History, KeptCells, KeptFootprint};
use std::alloc::{AllocError, Global};

/// The first of some events that reads or writes each cell, the first that writes each, the first that is a plan, and
/// the first that is kept.
pub(crate) struct Firsts {
    pub(crate) named: IndexMap<Cell, u32>,
    pub(crate) written: IndexMap<Cell, u32>,
    pub(crate) plan: Option<u32>,
    pub(crate) kept: Option<u32>,
}

impl Drop for Firsts {
    fn drop(self) {
        let Firsts {
            named: _named,
            written: _written,
            plan: _plan,
            kept: _kept,
        } = self;
    }
}

// Those of no event.
fn no_firsts(alloc: Global) -> Firsts
    ensures { (t : Timeline) → AreFirsts t [] result }
{
    Firsts {
        named: IndexMap::new(alloc),
        written: IndexMap::new(alloc),
        plan: None,
        kept: None,
    }
}

// Puts a number under a cell under which none stands.
fn put(firsts: &mut IndexMap<Cell, u32>, cell: &Cell, number: u32) -> Result<(), AllocError>
    ensures { OnOk result ((c : Cell) → lookup (cell_eq c) firsts.new.entries
        ≡ option_or (lookup (cell_eq c) firsts.old.entries) (if cell_eq cell.now c then Some number else None)) }
{
    if firsts.contains_key(cell) {
        return Ok(());
    }
    firsts.insert(cell.copy()?, number)?;
    Ok(())
}

// Puts a number under each of some cells under which none stands.
fn put_all(
    firsts: &mut IndexMap<Cell, u32>,
    cells: &KeptCells<'_>,
    number: u32,
) -> Result<(), AllocError>
    ensures { OnOk result ((c : Cell) → lookup (cell_eq c) firsts.new.entries
        ≡ option_or (lookup (cell_eq c) firsts.old.entries) (if among cell_cmp cells.now c then Some number else None)) }
{
    for index in 0..cells.len() {
        put(firsts, cells.at(index), number)?;
    }
    Ok(())
}

// What was found first, or else a number that passes.
fn or_where(found: Option<u32>, passes: bool, number: u32) -> Option<u32>
    ensures { result ≡ option_or found (if passes then Some number else None) }
{
    match found {
        Some(first) => Some(first),
        None if passes => Some(number),
        None => None,
    }
}

/// Adds the event of a number, which comes after those that are there.
pub(crate) fn add(
    firsts: &mut Firsts,
    footprint: &KeptFootprint<'_>,
    number: u32,
) -> Result<(), AllocError>
    ensures { OnOk result ((t : Timeline) (others : List ℕ) → Some footprint.now ≡ kept_footprint t number
        → AreFirsts t others firsts.old → AreFirsts t (others ++ number ∷ []) firsts.new) }
{
    put_all(&mut firsts.named, &footprint.reads(), number)?;
    put_all(&mut firsts.written, &footprint.writes(), number)?;
    firsts.plan = or_where(firsts.plan, footprint.whole(), number);
    firsts.kept = or_where(firsts.kept, true, number);
    Ok(())
}

/// Those of the event of a number alone.
///
/// # Errors
/// [`AllocError`] only where an allocation was refused.
pub(crate) fn firsts_of(alloc: Global, history: &History, number: u32) -> Result<Firsts, AllocError>
    ensures { IfOk result (AreFirsts history.now.timeline (number ∷ [])) }
{
    let mut firsts = no_firsts(alloc);
    let Some(footprint) = history.footprint_of(number) else {
        return Ok(firsts);
    };
    add(&mut firsts, &footprint, number)?;
    Ok(firsts)
}

// The later of two numbers, where there are two.
fn later(found: Option<u32>, other: Option<u32>) -> Option<u32>
    ensures { result ≡ later_of found other }
{
    let Some(one) = found else {
        return other;
    };
    match other {
        Some(second) if one < second => Some(second),
        _ => Some(one),
    }
}

// The latest of a number and of those under some cells. Of numbers that fall it is the first that passes a test or
// another one for some of the cells, where each is the first that passes its own.
fn latest_at(firsts: &IndexMap<Cell, u32>, cells: &KeptCells<'_>, found: Option<u32>) -> Option<u32>
    ensures { (p : ℕ → Bool) (q : Cell → ℕ → Bool) (others : List ℕ) → IsFalling others → found ≡ find p others
        → ((c : Cell) → lookup (cell_eq c) firsts.now.entries ≡ find (q c) others)
        → result ≡ find (λ other. p other || list_any (λ c. q c other) cells.now) others }
{
    let mut latest = found;
    for index in 0..cells.len() {
        latest = later(latest, firsts.get(cells.at(index)).copied());
    }
    latest
}

/// Of events whose numbers fall the first that conflicts with a footprint. It takes no memory, and time linear in the
/// cells of the footprint, up to hashing.
pub(crate) fn first_with(firsts: &Firsts, footprint: &KeptFootprint<'_>) -> Option<u32>
    ensures { (t : Timeline) (others : List ℕ) → IsFalling others → AreFirsts t others firsts.now
        → result ≡ first_where t (λ other. conflict cell_cmp (print_of footprint.now) (print_of other)) others }
{
    if footprint.whole() {
        return firsts.kept;
    }
    let latest = latest_at(&firsts.named, &footprint.writes(), firsts.plan);
    latest_at(&firsts.written, &footprint.reads(), latest)
}
