//! What is so of each path that comes from a dyndep file.
ghost use Rattle.rev_dyndep.specs.Origins.{PathsAreAdded};

/// An input is added to an edge where and only where the statement lists it, and the edge's own line has it neither as
/// an input nor as an order-only input. An output is added where and only where the statement lists it, and the edge's
/// own line does not.
pub fn paths_are_added()
    ensures { PathsAreAdded }
{}
