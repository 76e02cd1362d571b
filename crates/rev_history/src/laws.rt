//! Laws of all histories.
ghost use Rattle.rev_causal.specs.Laws.{BothFormsAgree, ConeIsWithin, FreeExactlyWhereLast, NearestIsLeast, NearestIsNone, NeighboursExchange, SameEntries, SameRefusals, SameResult};
ghost use Rattle.rev_history.specs.Laws.{ConeIsLeast, GreatestIsGreatest, NearestIsNamed, OfAllBuilds, OvertakingIsNamed, RedoKeepsFootprints, RedoNextRestores, RedoRunsNow, StepBack, UndoExactlyWhenIndependent, UndoKeepsFootprints, UndoLeavesTheOthers};
ghost use Rattle.rev_history.specs.Order.{OrderIsExact};

/// Where an event is accepted and a step back follows, that event is undone, and state and kept numbers are those
/// before.
pub fn step_back()
    ensures { StepBack }
{}

/// An event can be undone exactly where it is kept and no event of a later kept number depends on it.
pub fn undo_exactly_when_independent()
    ensures { UndoExactlyWhenIndependent }
{}

/// The event that a refused undo names is the one of the least number that depends.
pub fn nearest_is_named()
    ensures { NearestIsNamed }
{}

/// So of every list of kept events: what is named is the least later number whose event depends on that one,
pub fn nearest_is_least()
    ensures { OfAllBuilds NearestIsLeast }
{}

/// and none is named exactly where no later event does.
pub fn nearest_is_none()
    ensures { OfAllBuilds NearestIsNone }
{}

/// What an undo leaves is a list of events that are accepted one after the other from the opening.
pub fn undo_leaves_the_others()
    ensures { UndoLeavesTheOthers }
{}

/// Redoing next what was undone is not refused, and restores state and history.
pub fn redo_next_restores()
    ensures { RedoNextRestores }
{}

/// A redo puts the event at its number's place, with the result that it has now.
pub fn redo_runs_now()
    ensures { RedoRunsNow }
{}

/// The event that a refused redo names is the one of the least number above its own that is in its way.
pub fn overtaking_is_named()
    ensures { OvertakingIsNamed }
{}

/// An undo changes the footprint of no other kept event.
pub fn undo_keeps_footprints()
    ensures { UndoKeepsFootprints }
{}

/// A redo changes the footprint of no other kept event.
pub fn redo_keeps_footprints()
    ensures { RedoKeepsFootprints }
{}

/// What a step back undoes has the greatest kept number.
pub fn greatest_is_greatest()
    ensures { GreatestIsGreatest }
{}

/// A cone is the least set that holds an event and each one that depends on a member, and what it leaves is a list of
/// events that are accepted one after the other.
pub fn cone_is_least()
    ensures { ConeIsLeast }
{}

/// Every set that holds an event and each one that depends on a member has the event's cone in it.
pub fn cone_is_within()
    ensures { OfAllBuilds ConeIsWithin }
{}

/// Two neighbours that do not conflict can change places: the result is the same, and so is each one's footprint.
pub fn neighbours_exchange()
    ensures { OfAllBuilds NeighboursExchange }
{}

/// Exchanges within legal lists, with footprints taken at their places, and exchanges of events that carry their
/// footprints lead equally far.
pub fn both_forms_agree()
    ensures { OfAllBuilds BothFormsAgree }
{}

/// Lists of events that exchanges of neighbours without a conflict lead to from one another have one result,
pub fn exchange()
    ensures { OfAllBuilds SameResult }
{}

/// the same refusal of every further event,
pub fn exchange_keeps_refusals()
    ensures { OfAllBuilds SameRefusals }
{}

/// and the same footprint for each event.
pub fn exchange_keeps_footprints()
    ensures { OfAllBuilds SameEntries }
{}

/// No event depends on a kept one exactly where some list that such exchanges lead to ends in it.
pub fn undo_is_causal()
    ensures { OfAllBuilds FreeExactlyWhereLast }
{}

/// Where the test of equal events holds of equal ones alone, the answer of the order check is exact.
pub fn order_is_exact()
    ensures { OrderIsExact }
{}
