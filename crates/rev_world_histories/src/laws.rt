//! Laws of histories.
ghost use Rattle.rev_world_histories.specs.Histories.{OneOutcomeOfHistories};
ghost use Rattle.rev_world_histories.specs.Pools.{OneOutcomeOfHistoriesInPools};

/// Where one history of a build ends with each command ended, and no two unordered edges conflict in it, each history of
/// the same build lines from the same sources has its outcome.
pub fn one_outcome_of_histories()
    ensures { OneOutcomeOfHistories }
{}

/// The same where edges meet at temporaries of a pool of depth 1 besides.
pub fn one_outcome_of_histories_in_pools()
    ensures { OneOutcomeOfHistoriesInPools }
{}
