//! Which edges race.
ghost use Rattle.std.specs.Prelude.{◌≡◌, ◌<◌, ◌||◌, ◌==◌, ℕ, false, length, slice_index_or, IfOk};
ghost use Rattle.rev_bars.specs.Racing.{is_among, is_in_conflict, is_in_race, is_racing};

use rev_conflicts::Conflict;
use rev_races::Race;
use std::alloc::{AllocError, Global};

// Marks an edge, if there is a place for it.
fn mark(marks: &mut [bool], edge: u32)
    ensures { (e : ℕ) → e < length marks.old
        → slice_index_or marks.new e false ≡ (slice_index_or marks.old e false || (edge == e)) }
{
    if edge as usize >= marks.len() {
        return;
    }
    marks[edge as usize] = true;
}

// Marks two edges.
fn mark_both(marks: &mut [bool], maker: u32, user: u32)
    ensures { (e : ℕ) → e < length marks.old
        → slice_index_or marks.new e false ≡ (slice_index_or marks.old e false || is_among maker user e) }
{
    mark(marks, maker);
    mark(marks, user);
}

// Marks the makers and the users of races.
fn mark_races(marks: &mut [bool], races: &[Race])
    ensures { (e : ℕ) → e < length marks.old
        → slice_index_or marks.new e false ≡ (slice_index_or marks.old e false || is_in_race races.now e) }
{
    for race in races {
        mark_both(marks, race.maker, race.user);
    }
}

// Marks the makers and the users of conflicts.
fn mark_conflicts(marks: &mut [bool], conflicts: &[Conflict])
    ensures { (e : ℕ) → e < length marks.old
        → slice_index_or marks.new e false ≡ (slice_index_or marks.old e false || is_in_conflict conflicts.now e) }
{
    for conflict in conflicts {
        mark_both(marks, conflict.maker, conflict.user);
    }
}

/// For each of `count` edges, whether the edge is the maker or the user of one of these races or observed conflicts.
///
/// # Errors
/// [`AllocError`] only where an allocation was refused.
pub fn racing_marks(
    alloc: Global,
    races: &[Race],
    conflicts: &[Conflict],
    count: u32,
) -> Result<Vec<bool>, AllocError>
    ensures count { IfOk result (λ marks. length marks.items ≡ count) }
    ensures each { IfOk result (λ marks. (e : ℕ) → e < count
        → slice_index_or marks.items e false ≡ is_racing races.now conflicts.now e) }
{
    let mut marks = vec![in alloc; false; count as usize]?;
    mark_races(&mut marks, races);
    mark_conflicts(&mut marks, conflicts);
    Ok(marks)
}
