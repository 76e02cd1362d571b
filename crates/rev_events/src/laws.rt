//! Laws of every step of a build.
ghost use Rattle.rev_events.specs.Laws.{HeldIsRunning, PlansAreExplained, WritesOnce};
ghost use Rattle.rev_events.specs.Same.{EqualEventsAreOne};

/// An effect names each cell once, where no edge has an output twice.
pub fn writes_once()
    ensures { WritesOnce }
{}

/// At an opening the jobs and the slots that are held are exactly those of the edges whose commands run, and each
/// accepted event keeps that.
pub fn held_is_running()
    ensures { HeldIsRunning }
{}

/// In the state that an accepted plan leaves, the chain of an edge whose mark is Wanted ends at an edge with reasons,
/// and all its edges are Wanted.
pub fn plans_are_explained()
    ensures { PlansAreExplained }
{}

/// The test of whether two events are equal holds of equal events alone.
pub fn equal_events_are_one()
    ensures { EqualEventsAreOne }
{}
