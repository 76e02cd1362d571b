//! Laws of outcomes.
ghost use Rattle.rev_outcome.specs.Histories.{OneOutcomeOfHistories};
ghost use Rattle.rev_outcome.specs.Laws.{OneOutcome};
ghost use Rattle.rev_outcome.specs.Observed.{NothingToldOneOutcome};
ghost use Rattle.rev_outcome.specs.Premises.{LooksCount, OrderCounts, UnorderedMatters};

/// Where one legal schedule of a build ends with each command ended, and no two unordered edges conflict in it, each
/// legal schedule from the same sources has its outcome.
pub fn one_outcome()
    ensures { OneOutcome }
{}

/// The same of the histories of a build: where one ends with each command ended, and no two unordered edges conflict in
/// it, each one of the same build lines has its outcome.
pub fn one_outcome_of_histories()
    ensures { OneOutcomeOfHistories }
{}

/// Where what the commands of such a history were seen to do has neither a race nor a clash, each history of the same
/// build lines has its outcome.
pub fn nothing_told_one_outcome()
    ensures { NothingToldOneOutcome }
{}

/// A look at what an unordered command leaves is a conflict for a reason: without that the law is false.
pub fn looks_count()
    ensures { LooksCount }
{}

/// The order of build lines is asked of schedules for a reason: without that the law is false.
pub fn order_counts()
    ensures { OrderCounts }
{}

/// Of two edges, neither waits for the other exactly where their commands can be such that a build has two outcomes.
pub fn unordered_matters()
    ensures { UnorderedMatters }
{}
