//! A law of runs.
ghost use Rattle.rev_runs.specs.Laws.{RunsEndNext};

/// The runs of a history are exactly its accepted starts, each with its end: the least later number under which its
/// edge's command ends, where no event between begins that command. A kept start ends by a kept event, and one that was
/// undone by one that was.
pub fn runs_end_next()
    ensures { RunsEndNext }
{}
