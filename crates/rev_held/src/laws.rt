//! Laws of dependence.
ghost use Rattle.rev_held.specs.Laws.{CellsAreNamed, DependsIsExact, WaysAreAll};

/// The test of dependence is exact: the event of a later kept number conflicts with that of an earlier one.
pub fn depends_is_exact()
    ensures { DependsIsExact }
{}

/// Where a cell is named the later event depends on the earlier one, and where it depends a cell is named, unless one
/// of the two is a plan.
pub fn cells_are_named()
    ensures { CellsAreNamed }
{}

/// What [`crate::ways_to`] finds is exactly what an event rests on, by one dependence after another. Each kept number
/// comes once, from the latest down, beside the latest of these, or the number itself, that depends on it.
pub fn ways_are_all()
    ensures { WaysAreAll }
{}
