//! The cones of many events in one pass over the kept ones.
ghost use Rattle.std.specs.Prelude.{◌≡◌, ◌≤◌, ℕ, length, slice_get, IfOk, OnOk};
ghost use Rattle.rev_footprint.specs.Value.{print_of};
ghost use Rattle.rev_history.specs.Timeline.{IsHistory, cone_numbers};
ghost use Rattle.rev_held.specs.Beside.{held_beside};
ghost use Rattle.rev_marks.specs.Cones.{cone_seen, seen};
ghost use Rattle.rev_marks.specs.Lanes.{AreTaken};
ghost use Rattle.rev_marks.specs.Masks.{AreMarks, has_mark};
ghost use Rattle.rev_marks.specs.Table.{IsNoted, is_met, viewed};

use crate::masks::asked_marks;
use crate::table::{Table, met, no_events, note};
use indexmap::IndexMap;
use rev_history::{History, KeptFootprint};
use std::alloc::{AllocError, Global};

// The marks of the noted events on which one depends.
fn met_by(table: &Table, beside: bool, footprint: &KeptFootprint<'_>) -> u64
    ensures { (i : ℕ) → has_mark i result ≡ is_met table.now i (viewed beside (print_of footprint.now)) }
{
    met(
        table,
        beside,
        footprint.whole(),
        &footprint.reads(),
        &footprint.writes(),
    )
}

// Notes one more event with its mask.
fn note_by(
    table: &mut Table,
    beside: bool,
    footprint: &KeptFootprint<'_>,
    mask: u64,
) -> Result<(), AllocError>
    ensures { OnOk result (IsNoted table.old table.new (viewed beside (print_of footprint.now)) mask) }
{
    note(
        table,
        beside,
        footprint.whole(),
        &footprint.reads(),
        &footprint.writes(),
        mask,
    )
}

// Goes through one more kept number: its mask has the marks of the places at which it is asked, and those of the events
// on which its own depends.
fn take(
    history: &History,
    asked: &[u32],
    beside: bool,
    number: u32,
    table: &mut Table,
    marks: &mut IndexMap<u32, u64>,
) -> Result<(), AllocError>
    requires few { length asked.now ≤ 64 }
    ensures { OnOk result (AreTaken (seen history.now.timeline beside) (slice_get asked.now) number
        table.old table.new marks.old.entries marks.new.entries) }
{
    let Some(footprint) = history.footprint_of(number) else {
        return Ok(());
    };
    let mask = asked_marks(asked, number) | met_by(table, beside, &footprint);
    if mask == 0 {
        return Ok(());
    }
    note_by(table, beside, &footprint, mask)?;
    marks.insert(number, mask)?;
    Ok(())
}

// Under each kept number the marks of the events in whose cones it is, with all cells or without those of jobs and
// slots.
fn marks_seen(
    alloc: Global,
    history: &History,
    asked: &[u32],
    beside: bool,
) -> Result<IndexMap<u32, u64>, AllocError>
    requires few { length asked.now ≤ 64 }
    ensures marks { IfOk result (λ marks. AreMarks (cone_seen history.now.timeline beside) asked.now marks.entries) }
    ensures legal { IsHistory history.now.timeline }
{
    let mut table = no_events(alloc);
    let mut marks = IndexMap::new(alloc);
    for number in history.kept() {
        take(history, asked, beside, *number, &mut table, &mut marks)?;
    }
    Ok(marks)
}

/// Under each kept number a mask. Bit i says whether the number's event is in the cone of the event at place i of
/// those asked: whether it is that event, or depends on a member ([`History::members`]). A number with no bit may have
/// no mask.
///
/// The kept events are gone through once. It takes time and memory linear in what they read and write, up to hashing.
///
/// # Errors
/// [`AllocError`] only where an allocation was refused.
pub fn cone_marks(
    alloc: Global,
    history: &History,
    asked: &[u32],
) -> Result<IndexMap<u32, u64>, AllocError>
    requires few { length asked.now ≤ 64 }
    ensures { IfOk result (λ marks. AreMarks (λ n. cone_numbers n history.now.timeline) asked.now marks.entries) }
{
    marks_seen(alloc, history, asked, false)
}

/// The same of what hangs on the events by more than jobs and slots: by a cell that is neither a job's nor a slot's.
///
/// # Errors
/// [`AllocError`] only where an allocation was refused.
pub fn beside_marks(
    alloc: Global,
    history: &History,
    asked: &[u32],
) -> Result<IndexMap<u32, u64>, AllocError>
    requires few { length asked.now ≤ 64 }
    ensures { IfOk result (λ marks. AreMarks (held_beside history.now.timeline) asked.now marks.entries) }
{
    marks_seen(alloc, history, asked, true)
}
