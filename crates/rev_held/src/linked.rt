//! Dependences with their cells.
ghost use Rattle.std.specs.Prelude.{◌≡◌, ℕ, [], IfOk, Some, map};
ghost use Rattle.rev_footprint.specs.Value.{FootprintValue};
ghost use Rattle.rev_history.specs.Timeline.{kept_footprint};
ghost use Rattle.rev_held.specs.Dependence.{dependence_of};
ghost use Rattle.rev_held.specs.Links.{link_between};
ghost use Rattle.rev_held.specs.Noted.{AreNoted};
ghost use Rattle.rev_held.specs.Several.{IsNamed};

use crate::depending::{dependence, first_accessed};
use crate::several::{copied, first_named, named};
use indexmap::{IndexMap, IndexSet};
use rev_cells::Cell;
use rev_history::{History, KeptFootprint};
use std::alloc::{AllocError, Global};

/// A dependence of the event of a later kept number on that of an earlier one.
pub struct Link {
    /// The earlier number.
    pub one: u32,
    /// The later number.
    pub other: u32,
    /// The first cell by which it is ([`dependence`]); none where one of the two is a plan and no cell is named.
    pub cell: Option<Cell>,
}

impl Drop for Link {
    fn drop(self) {
        let Link {
            one: _one,
            other: _other,
            cell: _cell,
        } = self;
    }
}

// Of a number that is the later one of more pairs than these the cells are noted.
const FEW: u32 = 4;

// The cells that events read or write, under their numbers.
struct Noted {
    cells: IndexMap<u32, IndexSet<Cell>>,
}

impl Drop for Noted {
    fn drop(self) {
        let Noted { cells: _cells } = self;
    }
}

// Those of no event.
fn nothing_noted(alloc: Global) -> Noted
    ensures { result.cells.entries ≡ [] }
{
    Noted {
        cells: IndexMap::new(alloc),
    }
}

// Of how many pairs each number, up to the last, is the later one.
fn counts(alloc: Global, pairs: &[(u32, u32)], last: u32) -> Result<Vec<u32>, AllocError> {
    let mut counts: Vec<u32> = vec![in alloc; 0; last as usize + 1]?;
    for (_one, other) in pairs {
        if let Some(count) = counts.get_mut(*other as usize) {
            *count = count.saturating_add(1);
        }
    }
    Ok(counts)
}

// Whether a number is counted more often than a few times.
fn is_often(counts: &[u32], number: u32) -> bool {
    match counts.get(number as usize) {
        Some(count) => *count > FEW,
        None => false,
    }
}

// The first cell by which the event of a later number, whose cells stand in a set, depends on that of an earlier one.
fn one_of(
    history: &History,
    second: &KeptFootprint<'_>,
    named: &IndexSet<Cell>,
    one: u32,
    other: u32,
) -> Result<Option<Cell>, AllocError>
    ensures { IfOk result (λ cell. Some second.now ≡ kept_footprint history.now.timeline other
        → IsNamed second.now named.now.keys → cell ≡ dependence_of history.now.timeline one other) }
{
    if one >= other {
        return Ok(None);
    }
    let Some(first) = history.footprint_of(one) else {
        return Ok(None);
    };
    match first_named(&first.writes(), named) {
        Some(cell) => copied(Some(cell)),
        None => copied(first_accessed(&second.writes(), &first)),
    }
}

// The first cell by which the event of a later number depends on that of an earlier one. What the later one names is
// noted.
fn cell_of(
    alloc: Global,
    history: &History,
    noted: &mut Noted,
    one: u32,
    other: u32,
) -> Result<Option<Cell>, AllocError>
    requires { AreNoted history.now.timeline noted.old.cells.entries }
    ensures cell { IfOk result (λ cell. cell ≡ dependence_of history.now.timeline one other) }
    ensures noted { AreNoted history.now.timeline noted.new.cells.entries }
{
    let Some(second) = history.footprint_of(other) else {
        return Ok(None);
    };
    if let Some(named) = noted.cells.get(&other) {
        return one_of(history, &second, named, one, other);
    }
    let named = named(alloc, &second)?;
    let cell = one_of(history, &second, &named, one, other)?;
    noted.cells.insert(other, named)?;
    Ok(cell)
}

// The same. What the later one names is noted where it is often asked for.
fn cell_noted(
    alloc: Global,
    history: &History,
    noted: &mut Noted,
    is_often: bool,
    one: u32,
    other: u32,
) -> Result<Option<Cell>, AllocError>
    requires { AreNoted history.now.timeline noted.old.cells.entries }
    ensures cell { IfOk result (λ cell. cell ≡ dependence_of history.now.timeline one other) }
    ensures noted { AreNoted history.now.timeline noted.new.cells.entries }
{
    if is_often {
        return cell_of(alloc, history, noted, one, other);
    }
    copied(dependence(history, one, other))
}

/// For each of some numbers the link from it to a later one, with the first cell by which the later one's event depends
/// on its event ([`dependence`]).
///
/// The cells of the later event are noted once. It takes memory linear in these, and time linear in the cells that the
/// events read and write, up to hashing.
///
/// # Errors
/// [`AllocError`] only where an allocation was refused.
pub fn links_to(
    alloc: Global,
    history: &History,
    ones: &[u32],
    other: u32,
) -> Result<Vec<Link>, AllocError>
    ensures { IfOk result (λ links. links.items
        ≡ map (λ one. link_between history.now.timeline one other) ones.now) }
{
    let mut noted = nothing_noted(alloc);
    let mut links = Vec::new(alloc);
    for one in ones {
        let cell = cell_of(alloc, history, &mut noted, *one, other)?;
        links.push(Link {
            one: *one,
            other,
            cell,
        })?;
    }
    Ok(links)
}

/// For each of some pairs of numbers the link from the first to the second, with the first cell by which the event of
/// the second depends on that of the first ([`dependence`]).
///
/// The cells of a number that is the second one of several pairs are noted once. It takes memory linear in these, and
/// time linear in the cells that the events read and write, up to hashing.
///
/// # Errors
/// [`AllocError`] only where an allocation was refused.
pub fn links_of(
    alloc: Global,
    history: &History,
    pairs: &[(u32, u32)],
) -> Result<Vec<Link>, AllocError>
    ensures { IfOk result (λ links. links.items
        ≡ map (λ (pair : ℕ × ℕ). link_between history.now.timeline pair.0 pair.1) pairs.now) }
{
    let counts = counts(alloc, pairs, history.last())?;
    let mut noted = nothing_noted(alloc);
    let mut links = Vec::new(alloc);
    for (one, other) in pairs {
        let is_often = is_often(&counts, *other);
        let cell = cell_noted(alloc, history, &mut noted, is_often, *one, *other)?;
        links.push(Link {
            one: *one,
            other: *other,
            cell,
        })?;
    }
    Ok(links)
}
