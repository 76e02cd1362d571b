//! The cones of makers' ends, many at a time.
ghost use Rattle.std.specs.Prelude.{◌≡◌, ◌<◌, ◌≤◌, ℕ, [], length, slice_get, IfOk, IfSome, OnOk, Some};
ghost use Rattle.rev_held.specs.Beside.{held_beside};
ghost use Rattle.rev_history.specs.Timeline.{Timeline, is_among};
ghost use Rattle.rev_races.specs.Stories.{AreCones, held_by};

use crate::story::Happened;
use indexmap::IndexMap;
use rev_history::History;
use rev_marks::{MOST, beside_marks, cone_marks, is_marked};
use std::alloc::{AllocError, Global};

/// The cones of the events `asked`, as marks: `all` by all cells, and `beside`, once it is wanted, by all cells except
/// those of jobs and slots. `ends` are the events whose cones may be asked for.
pub(crate) struct Cones {
    pub(crate) ends: Vec<u32>,
    pub(crate) asked: Vec<u32>,
    pub(crate) all: IndexMap<u32, u64>,
    pub(crate) beside: Option<IndexMap<u32, u64>>,
}

// Written, since a derived drop is proved again at each exit of each caller.
impl Drop for Cones {
    fn drop(self) {
        let Cones {
            ends: _ends,
            asked: _asked,
            all: _all,
            beside: _beside,
        } = self;
    }
}

/// Those of no event.
pub(crate) fn no_cones(alloc: Global, ends: Vec<u32>) -> Cones
    ensures { (t : Timeline) → AreCones t result }
{
    Cones {
        ends,
        asked: Vec::new(alloc),
        all: IndexMap::new(alloc),
        beside: None,
    }
}

// A place at which a number stands among some.
fn place_in(numbers: &[u32], number: u32) -> Option<usize>
    ensures at { IfSome result (λ place. slice_get numbers.now place ≡ Some number) }
    ensures within { IfSome result (λ place. place < length numbers.now) }
{
    for place in 0..numbers.len() {
        if numbers[place] == number {
            return Some(place);
        }
    }
    None
}

// Adds an end, unless it is there or there are as many as can be asked of at once.
fn add_end(asked: &mut Vec<u32>, end: u32) -> Result<(), AllocError>
    requires few { length asked.old.items ≤ 64 }
    ensures few { OnOk result (length asked.new.items ≤ 64) }
    ensures first { OnOk result ((n : ℕ) → slice_get asked.old.items 0 ≡ Some n
        → slice_get asked.new.items 0 ≡ Some n) }
{
    if asked.len() >= MOST {
        return Ok(());
    }
    if asked.contains(&end) {
        return Ok(());
    }
    asked.push(end)?;
    Ok(())
}

// Those of some ends that stand behind a number, with it.
fn from_on(ends: &[u32], number: u32) -> &[u32] {
    match place_in(ends, number) {
        Some(place) => &ends[place..],
        None => &[],
    }
}

// The ends of which is asked at once: a number, and those of the ends that stand behind it.
fn asked_with(alloc: Global, number: u32, ends: &[u32]) -> Result<Vec<u32>, AllocError>
    ensures few { IfOk result (λ asked. length asked.items ≤ 64) }
    ensures first { IfOk result (λ asked. slice_get asked.items 0 ≡ Some number) }
{
    let mut asked = Vec::new(alloc);
    asked.push(number)?;
    for end in from_on(ends, number) {
        add_end(&mut asked, *end)?;
    }
    Ok(asked)
}

/// Has the cones be those of some events, among them one, and gives its place.
pub(crate) fn cones_for(
    alloc: Global,
    history: &History,
    number: u32,
    cones: &mut Cones,
) -> Result<usize, AllocError>
    requires cones { AreCones history.now.timeline cones.old }
    ensures cones { OnOk result (AreCones history.now.timeline cones.new) }
    ensures place { IfOk result (λ place. slice_get cones.new.asked.items place ≡ Some number) }
    ensures within { IfOk result (λ place. place < 64) }
{
    if let Some(place) = place_in(&cones.asked, number) {
        return Ok(place);
    }
    let asked = asked_with(alloc, number, &cones.ends)?;
    cones.all = cone_marks(alloc, history, &asked)?;
    cones.beside = None;
    cones.asked = asked;
    Ok(0)
}

// Whether an event is held by that at a place by more than jobs and slots.
fn is_held_beside(
    alloc: Global,
    history: &History,
    place: usize,
    number: u32,
    cones: &mut Cones,
) -> Result<bool, AllocError>
    requires cones { AreCones history.now.timeline cones.old }
    requires place { place < 64 }
    ensures cones { OnOk result (AreCones history.now.timeline cones.new) }
    ensures held { IfOk result (λ held. (f : ℕ) → slice_get cones.old.asked.items place ≡ Some f
        → held ≡ is_among (held_beside history.now.timeline f) number) }
{
    if let Some(marks) = &cones.beside {
        return Ok(is_marked(marks, place, number));
    }
    let marks = beside_marks(alloc, history, &cones.asked)?;
    let held = is_marked(&marks, place, number);
    cones.beside = Some(marks);
    Ok(held)
}

/// How an event is held by that at a place.
pub(crate) fn held(
    alloc: Global,
    history: &History,
    place: usize,
    number: u32,
    cones: &mut Cones,
) -> Result<Happened, AllocError>
    requires cones { AreCones history.now.timeline cones.old }
    requires place { place < 64 }
    ensures cones { OnOk result (AreCones history.now.timeline cones.new) }
    ensures held { IfOk result (λ held. (f : ℕ) → slice_get cones.old.asked.items place ≡ Some f
        → held ≡ held_by history.now.timeline f number) }
{
    if !is_marked(&cones.all, place, number) {
        return Ok(Happened::Free);
    }
    if is_held_beside(alloc, history, place, number, cones)? {
        return Ok(Happened::HeldRecord);
    }
    Ok(Happened::HeldPlace)
}
