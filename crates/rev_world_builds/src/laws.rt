//! Laws of outcomes.
ghost use Rattle.rev_world_builds.specs.Builds.{OneOutcome};
ghost use Rattle.rev_world_builds.specs.Unordered.{UnorderedMatters};

/// Where one legal schedule of a build ends with each command ended, and no two unordered edges conflict in it, each
/// legal schedule from the same sources has its outcome.
pub fn one_outcome()
    ensures { OneOutcome }
{}

/// Of two edges, neither waits for the other exactly where their commands can be such that a build has two outcomes.
pub fn unordered_matters()
    ensures { UnorderedMatters }
{}
