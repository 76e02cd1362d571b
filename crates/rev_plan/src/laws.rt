//! Laws of plans.
ghost use Rattle.rev_plan.specs.Laws.{ChainsEndAtReasons, CycleIsNamed, MarksAreOfTheSets, OneChain, RefusalsAreFirst, SetsAreLeast};

/// The edges that a plan reaches, wants and passes through are the least sets with these members.
pub fn sets_are_least()
    ensures { SetsAreLeast }
{}

/// The mark that a plan gives an edge says in which of these sets it is.
pub fn marks_are_of_the_sets()
    ensures { MarksAreOfTheSets }
{}

/// A plan is refused for what a reader finds first, and is accepted exactly where a reader finds nothing. Then no edge
/// runs, each target stands on a build line, no reached edge lacks an input, and none reaches itself.
pub fn refusals_are_first()
    ensures { RefusalsAreFirst }
{}

/// The edge that a plan names for a cycle is the least reached edge that reaches itself through its inputs.
pub fn cycle_is_named()
    ensures { CycleIsNamed }
{}

/// An edge has exactly one chain, which is the one that `why` gives.
pub fn one_chain()
    ensures { OneChain }
{}

/// In the state that an accepted plan leaves, the chain of a wanted edge ends at an edge with reasons, and all its
/// edges are wanted.
pub fn chains_end_at_reasons()
    ensures { ChainsEndAtReasons }
{}
