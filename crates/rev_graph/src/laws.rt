//! Laws of all graphs.
ghost use Rattle.rev_graph.specs.Laws.{OneProducer, DoublesAreReal, RankedIsAcyclic, FaultIsDecided};

/// Where no output has an earlier edge, no path is an output of two edges.
pub fn one_producer()
    ensures { OneProducer }
{}

/// The path that a fault of two producers names is an output of two edges.
pub fn doubles_are_real()
    ensures { DoublesAreReal }
{}

/// Where ranks fall along each step, no edge reaches itself.
pub fn ranked_is_acyclic()
    ensures { RankedIsAcyclic }
{}

/// A function of the edges gives a fault exactly where that one explains why they make no graph, and none exactly where
/// they have none.
pub fn fault_is_decided()
    ensures { FaultIsDecided }
{}
