//! By which cells one event depends on several, or several on one, where the cells of the one are looked up.
ghost use Rattle.std.specs.Prelude.{◌≡◌, ◌||◌, ◌∷◌, ◌++◌, [], if◌then◌else◌, Bool, IfOk, List, None, OnOk, Some, find, map};
ghost use Rattle.std.specs.List.{position_or_len};
ghost use Rattle.std.specs.Option.{option_copied};
ghost use Rattle.rev_causal.specs.Store.{among, conflict};
ghost use Rattle.rev_cells.specs.declared.cell.Cell.{Cell};
ghost use Rattle.rev_cells.specs.Keys.{cell_cmp};
ghost use Rattle.rev_footprint.specs.Value.{FootprintValue, print_of};
ghost use Rattle.rev_history.specs.Timeline.{kept_footprint};
ghost use Rattle.rev_held.specs.Dependence.{dependence_of, depends_on, first_cell, is_accessed_by};
ghost use Rattle.rev_held.specs.Links.{link, link_between};
ghost use Rattle.rev_held.specs.Several.{FindsAs, IsNamed, IsTold, IsToldOf, IsWritten, dependents_of, earlier_of, needed_by};

use crate::linked::Link;
use indexmap::IndexSet;
use rev_cells::Cell;
use rev_history::{History, KeptCells, KeptFootprint};
use std::alloc::{AllocError, Global};

// Adds cells, each where it is mentioned first.
fn add_all(set: &mut IndexSet<Cell>, cells: &KeptCells<'_>) -> Result<(), AllocError>
    ensures { OnOk result ((before : List Cell) → FindsAs set.old.keys before
        → FindsAs set.new.keys (before ++ cells.now)) }
{
    for index in 0..cells.len() {
        set.insert(cells.at(index).copy()?)?;
    }
    Ok(())
}

// The cells that an event writes, in the order of its effect.
fn written(alloc: Global, footprint: &KeptFootprint<'_>) -> Result<IndexSet<Cell>, AllocError>
    ensures { IfOk result (λ set. IsWritten footprint.now set.keys) }
{
    let mut set = IndexSet::new(alloc);
    add_all(&mut set, &footprint.writes())?;
    Ok(set)
}

/// The cells that an event reads or writes.
pub(crate) fn named(
    alloc: Global,
    footprint: &KeptFootprint<'_>,
) -> Result<IndexSet<Cell>, AllocError>
    ensures { IfOk result (λ set. IsNamed footprint.now set.keys) }
{
    let mut set = IndexSet::new(alloc);
    add_all(&mut set, &footprint.writes())?;
    add_all(&mut set, &footprint.reads())?;
    Ok(set)
}

// A place, or the one that was found before it.
fn earlier(place: usize, found: Option<usize>) -> usize
    ensures { result ≡ earlier_of place found }
{
    match found {
        Some(other) if other < place => other,
        _ => place,
    }
}

// The place of the first cell of a set that stands at a place or is one of some cells; with the number of cells as the
// place, where none stands.
fn first_place(set: &IndexSet<Cell>, cells: &KeptCells<'_>, place: usize) -> usize
    ensures { (p : Cell → Bool) → place ≡ position_or_len p set.now.keys
        → result ≡ position_or_len (λ w. p w || among cell_cmp cells.now w) set.now.keys }
{
    let mut first = place;
    for index in 0..cells.len() {
        first = earlier(first, set.get_index_of(cells.at(index)));
    }
    first
}

// The first of the cells that an event writes which another one reads or writes.
fn first_written<'a>(set: &'a IndexSet<Cell>, other: &KeptFootprint<'_>) -> Option<&'a Cell>
    ensures { option_copied result ≡ find (is_accessed_by other.now) set.entry.now.keys }
{
    let place = first_place(set, &other.writes(), set.len());
    let place = first_place(set, &other.reads(), place);
    set.get_index(place)
}

/// The first of some cells that an event reads or writes.
pub(crate) fn first_named<'a>(cells: &KeptCells<'a>, set: &IndexSet<Cell>) -> Option<&'a Cell>
    ensures { option_copied result ≡ find (among cell_cmp set.now.keys) cells.now }
{
    for index in 0..cells.len() {
        let cell = cells.at(index);
        if set.contains(cell) {
            return Some(cell);
        }
    }
    None
}

// The first cell by which another event depends on one, whose cells stand in sets.
fn cell_on<'a>(
    written: &'a IndexSet<Cell>,
    named: &IndexSet<Cell>,
    other: &KeptFootprint<'a>,
) -> Option<&'a Cell>
    ensures { (f : FootprintValue) → IsWritten f written.entry.now.keys → IsNamed f named.now.keys
        → option_copied result ≡ first_cell f other.now }
{
    match first_written(written, other) {
        Some(cell) => Some(cell),
        None => first_named(&other.writes(), named),
    }
}

/// An equal cell, where there is one.
pub(crate) fn copied(cell: Option<&Cell>) -> Result<Option<Cell>, AllocError>
    ensures { IfOk result (λ copy. copy ≡ option_copied cell.entry) }
{
    match cell {
        Some(cell) => Ok(Some(cell.copy()?)),
        None => Ok(None),
    }
}

// The first cell by which the event of a later number depends on that of an earlier one, whose cells stand in sets.
fn one_on(
    history: &History,
    written: &IndexSet<Cell>,
    named: &IndexSet<Cell>,
    one: u32,
    other: u32,
) -> Result<Option<Cell>, AllocError>
    ensures { IfOk result (λ cell. (f : FootprintValue) → Some f ≡ kept_footprint history.now.timeline one
        → IsWritten f written.now.keys → IsNamed f named.now.keys
        → cell ≡ dependence_of history.now.timeline one other) }
{
    if one >= other {
        return Ok(None);
    }
    let Some(second) = history.footprint_of(other) else {
        return Ok(None);
    };
    copied(cell_on(written, named, &second))
}

// Links from an earlier number to each of some others, by no cell.
fn no_links(alloc: Global, one: u32, others: &[u32]) -> Result<Vec<Link>, AllocError>
    ensures { IfOk result (λ links. links.items ≡ map (link one None) others.now) }
{
    let mut links = Vec::new(alloc);
    for other in others {
        links.push(Link {
            one,
            other: *other,
            cell: None,
        })?;
    }
    Ok(links)
}

// The links from an earlier number, whose cells stand in sets, to each of some others.
fn links_by(
    alloc: Global,
    history: &History,
    written: &IndexSet<Cell>,
    named: &IndexSet<Cell>,
    one: u32,
    others: &[u32],
) -> Result<Vec<Link>, AllocError>
    requires { (whole : Bool) × IsToldOf history.now.timeline one whole written.now.keys named.now.keys }
    ensures { IfOk result (λ links. links.items ≡ map (link_between history.now.timeline one) others.now) }
{
    let mut links = Vec::new(alloc);
    for other in others {
        let cell = one_on(history, written, named, one, *other)?;
        links.push(Link {
            one,
            other: *other,
            cell,
        })?;
    }
    Ok(links)
}

/// For each of some numbers the link from an earlier one to it, with the first cell by which its event depends on that
/// one's ([`crate::dependence`]).
///
/// The cells of the earlier event are noted once, and those of each other one are looked up. It takes memory and time
/// linear in the cells that they read and write, up to hashing.
///
/// # Errors
/// [`AllocError`] only where an allocation was refused.
pub fn links_on(
    alloc: Global,
    history: &History,
    one: u32,
    others: &[u32],
) -> Result<Vec<Link>, AllocError>
    ensures { IfOk result (λ links. links.items ≡ map (link_between history.now.timeline one) others.now) }
{
    let Some(first) = history.footprint_of(one) else {
        return no_links(alloc, one, others);
    };
    let written = written(alloc, &first)?;
    let named = named(alloc, &first)?;
    links_by(alloc, history, &written, &named, one, others)
}

/// Adds a number that passes.
pub(crate) fn add_where(numbers: &mut Vec<u32>, number: u32, passes: bool) -> Result<(), AllocError>
    ensures { OnOk result (numbers.new.items ≡ numbers.old.items ++ (if passes then number ∷ [] else [])) }
{
    if passes {
        numbers.push(number)?;
    }
    Ok(())
}

// Whether an event, of which it is told whether it is a plan, and whose cells stand in sets, conflicts with another.
fn do_conflict(
    whole: bool,
    written: &IndexSet<Cell>,
    named: &IndexSet<Cell>,
    other: &KeptFootprint<'_>,
) -> bool
    ensures { (f : FootprintValue) → IsTold f whole written.now.keys named.now.keys
        → result ≡ conflict cell_cmp (print_of f) (print_of other.now) }
{
    if whole || other.whole() {
        return true;
    }
    match cell_on(written, named, other) {
        Some(_cell) => true,
        None => false,
    }
}

// Whether the event of a later number depends on that of an earlier one, whose cells stand in sets.
fn is_on_noted(
    history: &History,
    whole: bool,
    written: &IndexSet<Cell>,
    named: &IndexSet<Cell>,
    one: u32,
    other: u32,
) -> bool
    requires { IsToldOf history.now.timeline one whole written.now.keys named.now.keys }
    ensures { result ≡ depends_on history.now.timeline one other }
{
    if one >= other {
        return false;
    }
    match history.footprint_of(other) {
        Some(second) => do_conflict(whole, written, named, &second),
        None => false,
    }
}

// Whether the event of a later number, whose cells stand in sets, depends on that of an earlier one.
fn is_noted_on(
    history: &History,
    whole: bool,
    written: &IndexSet<Cell>,
    named: &IndexSet<Cell>,
    one: u32,
    other: u32,
) -> bool
    requires { IsToldOf history.now.timeline other whole written.now.keys named.now.keys }
    ensures { result ≡ depends_on history.now.timeline one other }
{
    if one >= other {
        return false;
    }
    match history.footprint_of(one) {
        Some(first) => do_conflict(whole, written, named, &first),
        None => false,
    }
}

// The kept numbers whose events depend on that of one, whose cells stand in sets.
fn all_on_noted(
    alloc: Global,
    history: &History,
    whole: bool,
    written: &IndexSet<Cell>,
    named: &IndexSet<Cell>,
    one: u32,
) -> Result<Vec<u32>, AllocError>
    requires { IsToldOf history.now.timeline one whole written.now.keys named.now.keys }
    ensures { IfOk result (λ numbers. numbers.items ≡ dependents_of history.now.timeline one) }
{
    let mut numbers = Vec::new(alloc);
    for kept in history.kept() {
        let passes = is_on_noted(history, whole, written, named, one, *kept);
        add_where(&mut numbers, *kept, passes)?;
    }
    Ok(numbers)
}

// The kept numbers on whose events that of one depends, whose cells stand in sets.
fn all_noted_on(
    alloc: Global,
    history: &History,
    whole: bool,
    written: &IndexSet<Cell>,
    named: &IndexSet<Cell>,
    other: u32,
) -> Result<Vec<u32>, AllocError>
    requires { IsToldOf history.now.timeline other whole written.now.keys named.now.keys }
    ensures { IfOk result (λ numbers. numbers.items ≡ needed_by history.now.timeline other) }
{
    let mut numbers = Vec::new(alloc);
    for kept in history.kept() {
        let passes = is_noted_on(history, whole, written, named, *kept, other);
        add_where(&mut numbers, *kept, passes)?;
    }
    Ok(numbers)
}

/// The kept numbers whose events depend on that of a number ([`crate::depends`]), in rising order.
///
/// The cells of that event are noted once, and those of each kept one are looked up. It takes memory and time linear in
/// the cells that they read and write, up to hashing.
///
/// # Errors
/// [`AllocError`] only where an allocation was refused.
pub fn dependents(alloc: Global, history: &History, one: u32) -> Result<Vec<u32>, AllocError>
    ensures { IfOk result (λ numbers. numbers.items ≡ dependents_of history.now.timeline one) }
{
    let Some(first) = history.footprint_of(one) else {
        return Ok(Vec::new(alloc));
    };
    let written = written(alloc, &first)?;
    let named = named(alloc, &first)?;
    all_on_noted(alloc, history, first.whole(), &written, &named, one)
}

/// The kept numbers on whose events that of a number depends ([`crate::depends`]), in rising order.
///
/// The cells of that event are noted once, and those of each kept one are looked up. It takes memory and time linear in
/// the cells that they read and write, up to hashing.
///
/// # Errors
/// [`AllocError`] only where an allocation was refused.
pub fn needed(alloc: Global, history: &History, other: u32) -> Result<Vec<u32>, AllocError>
    ensures { IfOk result (λ numbers. numbers.items ≡ needed_by history.now.timeline other) }
{
    let Some(second) = history.footprint_of(other) else {
        return Ok(Vec::new(alloc));
    };
    let written = written(alloc, &second)?;
    let named = named(alloc, &second)?;
    all_noted_on(alloc, history, second.whole(), &written, &named, other)
}
