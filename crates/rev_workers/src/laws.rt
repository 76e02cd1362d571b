//! What holds of every desk.
ghost use Rattle.rev_workers.specs.Laws.{TouchesKeepWaits};

/// After a touch that meets no break, a command that is refused for an input has the reply that it had: so who waits
/// with such a command need not look.
pub fn touches_keep_waits()
    ensures { TouchesKeepWaits }
{}
