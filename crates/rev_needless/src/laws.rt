//! Laws of needless orders.
ghost use Rattle.rev_needless.specs.Laws.{NeedlessOneOutcome, NothingIsNeedless, PartIsNeedless};

/// No order at all is needless together.
pub fn nothing_is_needless()
    ensures { NothingIsNeedless }
{}

/// A part of a needless set of orders is needless.
pub fn part_is_needless()
    ensures { PartIsNeedless }
{}

/// Where no two commands conflict by what an observer noted of them, none conflict without a needless set of orders. So
/// each legal schedule of the build without these orders has the outcome of the build with them.
pub fn needless_one_outcome()
    ensures { NeedlessOneOutcome }
{}
