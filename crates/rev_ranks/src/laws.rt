//! Laws of all graphs.
ghost use Rattle.rev_ranks.specs.Laws.{LeastIsOne, RankedIsAcyclic};
ghost use Rattle.rev_ranks.specs.Leads.{LeadsExactly, ReachableExactly};

/// Where the nodes have ranks no node reaches itself.
pub fn ranked_is_acyclic()
    ensures { RankedIsAcyclic }
{}

/// One node at most is the least that reaches itself. So `ranks` names that one or lacks memory, wherever there is one.
pub fn least_is_one()
    ensures { LeastIsOne }
{}

/// In every finite graph a node is said to lead to one that passes a test exactly where a way leads from it to one.
pub fn leads_exactly()
    ensures { LeadsExactly }
{}

/// In every finite graph a node is said to be reachable from roots exactly where it is one or a way leads from one to
/// it.
pub fn reachable_exactly()
    ensures { ReachableExactly }
{}
