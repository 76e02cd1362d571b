//! Laws of outcomes.
ghost use Rattle.rev_world.specs.Laws.{OneOutcome};
ghost use Rattle.rev_world.specs.Making.{MakersMayAsk};
ghost use Rattle.rev_world.specs.Observed.{NothingToldOneOutcome};
ghost use Rattle.rev_world.specs.Pools.{OneOutcomeInPools, PoolsCount};
ghost use Rattle.rev_world.specs.Premises.{EnsuredCounts, FirstCounts, FoldersCount, LinksCount, LooksCount, MakersNeedNoOrder, OrderCounts};
ghost use Rattle.rev_world.specs.Searching.{SearchersMayAsk};
ghost use Rattle.rev_world.specs.Ways.{WaysAreTold};

/// Where one legal schedule of a build ends with each command ended, and no two unordered edges conflict in it, each
/// legal schedule from the same sources has its outcome.
pub fn one_outcome()
    ensures { OneOutcome }
{}

/// The same where unordered edges meet besides at temporaries of a pool of depth 1.
pub fn one_outcome_in_pools()
    ensures { OneOutcomeInPools }
{}

/// Where an observation says all that commands did, and no two unordered edges conflict by it, each legal schedule from
/// the same sources has its outcome.
pub fn nothing_told_one_outcome()
    ensures { NothingToldOneOutcome }
{}

/// Where a path leads depends on the looks on its way, and on nothing else.
pub fn ways_are_told()
    ensures { WaysAreTold }
{}

/// A command that asks for a folder, and makes it where it is missing, can be taken for one that ensures it. This holds
/// where the command does the same whatever the look showed.
pub fn makers_may_ask()
    ensures { MakersMayAsk }
{}

/// A command that asks for a folder before its entries can be taken for one that asks for the entries alone. This holds
/// where the command takes a missing folder for an empty one.
pub fn searchers_may_ask()
    ensures { SearchersMayAsk }
{}

/// Two commands that make one folder, and then each a file of its own in it, do not conflict.
pub fn makers_need_no_order()
    ensures { MakersNeedNoOrder }
{}

/// Without the rule that a look counts, where an unordered command leaves the place, the law is false.
pub fn looks_count()
    ensures { LooksCount }
{}

/// Without the rule that a look counts, where an unordered command ensures the place, the law is false.
pub fn folders_count()
    ensures { FoldersCount }
{}

/// Without the rule that a link on the way to a place is a look at the link, the law is false.
pub fn links_count()
    ensures { LinksCount }
{}

/// Without the rule that to ensure a folder counts, where an unordered command leaves the place, the law is false.
pub fn ensured_counts()
    ensures { EnsuredCounts }
{}

/// Without the rule that only an earlier ensure of its own excuses a command's look, the law is false.
pub fn first_counts()
    ensures { FirstCounts }
{}

/// Without the rule that commands wait by the order of the build lines, the law is false.
pub fn order_counts()
    ensures { OrderCounts }
{}

/// Without the rule that no two users of a temporary run at once, the law is false.
pub fn pools_count()
    ensures { PoolsCount }
{}
