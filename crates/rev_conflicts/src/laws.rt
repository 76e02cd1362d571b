//! Laws of conflicts.
ghost use Rattle.rev_conflicts.specs.Laws.{RacesAreConflicts, WhoWroteItLast};

/// Where no two unordered edges conflict at a place, who leaves it last before an edge starts is the same in every
/// history, and no other edge that leaves it runs while that edge does.
pub fn who_wrote_it_last()
    ensures { WhoWroteItLast }
{}

/// A race of a history is a conflict of the observation too, where the user looks at what it lists, and the maker
/// leaves what it makes.
pub fn races_are_conflicts()
    ensures { RacesAreConflicts }
{}
