//! Laws of all desks, each the contract of a function that does nothing.
ghost use Rattle.rev_desk.specs.Laws.{KeptEventsLead, NearestIsNamed, RedoNextRestores};
ghost use Rattle.rev_desk.specs.Laws.{RefusedChangesNothing, UndoExactlyWhenIndependent, UndoLeavesTheOthers};

/// Whatever lanes say from an opening on, the kept events are then accepted one after the other from there, so the
/// state is what they lead to.
pub fn kept_events_lead()
    ensures { KeptEventsLead }
{}

/// A command that is refused changes neither history nor breaks nor pause.
pub fn refused_changes_nothing()
    ensures { RefusedChangesNothing }
{}

/// An event can be undone exactly where it is kept and no event of a later kept number depends on it.
pub fn undo_exactly_when_independent()
    ensures { UndoExactlyWhenIndependent }
{}

/// An undo leaves the other events as they are.
pub fn undo_leaves_the_others()
    ensures { UndoLeavesTheOthers }
{}

/// The event that a refused undo names is the one of the least number that depends.
pub fn nearest_is_named()
    ensures { NearestIsNamed }
{}

/// Redoing what was undone is not refused as long as no command between was accepted, and restores history and state.
pub fn redo_next_restores()
    ensures { RedoNextRestores }
{}
