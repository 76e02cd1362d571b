//! What no conflict assures.
ghost use Rattle.rev_entry_conflicts.specs.Joins.{NoConflictNoneTold, NoConflictOneOutcome};

/// Where `conflicts` has no clash, race, folder or link, the premise of the law of one outcome holds of what the commands
/// were seen to do.
pub fn no_conflict_none_told()
    ensures { NoConflictNoneTold }
{}

/// Where `conflicts` has none of these, and the observation says all that the commands of one legal schedule did, each
/// legal schedule from the same sources has its outcome.
pub fn no_conflict_one_outcome()
    ensures { NoConflictOneOutcome }
{}
