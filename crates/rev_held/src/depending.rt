//! Whether and why one kept event depends on another.
ghost use Rattle.std.specs.Prelude.{◌≡◌, find};
ghost use Rattle.std.specs.Option.{option_copied};
ghost use Rattle.rev_held.specs.Dependence.{dependence_of, depends_on, is_accessed_by};

use rev_cells::Cell;
use rev_history::{History, KeptCells, KeptFootprint, conflict};

/// The first of some cells that a footprint names.
pub(crate) fn first_accessed<'a>(
    cells: &KeptCells<'a>,
    footprint: &KeptFootprint<'_>,
) -> Option<&'a Cell>
    ensures { option_copied result ≡ find (is_accessed_by footprint.now) cells.now }
{
    for index in 0..cells.len() {
        let cell = cells.at(index);
        if footprint.has(cell) {
            return Some(cell);
        }
    }
    None
}

/// Whether the event of a later kept number depends on that of an earlier one. It does where one of the two is a plan,
/// or one writes a cell that the other reads or writes, each with the footprint of its place. It does not where a
/// number is not kept, or the second is not the later one.
///
/// It takes no memory. Each cell that one of the two writes is looked for among those that the other reads, one by
/// one.
pub fn depends(history: &History, one: u32, other: u32) -> bool
    ensures { result ≡ depends_on history.now.timeline one other }
{
    if one >= other {
        return false;
    }
    let Some(first) = history.footprint_of(one) else {
        return false;
    };
    let Some(second) = history.footprint_of(other) else {
        return false;
    };
    conflict(&first, &second)
}

/// The first cell by which the event of a later kept number depends on that of an earlier one. Of those that the
/// earlier one writes, in the order of its effect, it is the first that the later one reads or writes. Else, of those
/// that the later one writes, it is the first that the earlier one reads. `None` where it does not depend
/// ([`depends`]), and where it does for no named cell, since one of the two is a plan, which reads every cell.
///
/// It takes no memory. Each cell that one of the two writes is looked for among those that the other names, one by
/// one.
pub fn dependence<'a>(history: &'a History, one: u32, other: u32) -> Option<&'a Cell>
    ensures { option_copied result ≡ dependence_of history.now.timeline one other }
{
    if one >= other {
        return None;
    }
    let first = history.footprint_of(one)?;
    let second = history.footprint_of(other)?;
    match first_accessed(&first.writes(), &second) {
        Some(cell) => Some(cell),
        None => first_accessed(&second.writes(), &first),
    }
}
