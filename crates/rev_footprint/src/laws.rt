//! Laws of builds: what an event asks and does depends on the cells of its footprint alone, and so the laws of undo
//! hold.
ghost use Rattle.rev_footprint.specs.Laws.{EqualConflict, EventsAreLocal, MachineIsLocal, RefusalsAreLocal, RunsAreCausal, RunsHoldExactly};

/// Where a state agrees with the event's on what the event reads and writes, it accepts the event too, which then has
/// the same effect and the same footprint.
pub fn events_are_local()
    ensures { EventsAreLocal }
{}

/// So the laws of undo hold of the machine of builds.
pub fn machine_is_local()
    ensures { MachineIsLocal }
{}

/// Exchanges of neighbours without a conflict keep the result, and an event is free exactly where some list that such
/// exchanges lead to ends in it.
pub fn runs_are_causal()
    ensures { RunsAreCausal }
{}

/// A state that agrees on the cells of the footprint refuses an event for the same reason.
pub fn refusals_are_local()
    ensures { RefusalsAreLocal }
{}

/// Accepted events that are equal conflict.
pub fn equal_conflict()
    ensures { EqualConflict }
{}

/// Wherever legal events lead from an opening, the jobs and slots that are held are exactly those of the edges that
/// run.
pub fn runs_hold_exactly()
    ensures { RunsHoldExactly }
{}
