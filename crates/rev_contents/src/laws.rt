//! Laws of runs of one command.
ghost use Rattle.rev_contents.specs.Laws.{AgreeingRefute, ExplainedTogether, FirstCauseRefutes, FirstCausesReach, PlacesDecide, ServedLeavesTheSame};

/// Some command does both of two runs exactly where the runs are the same, or a question was answered otherwise in them.
pub fn explained_together()
    ensures { ExplainedTogether }
{}

/// Two runs have another reply to some question exactly where some place answered both otherwise.
pub fn places_decide()
    ensures { PlacesDecide }
{}

/// No command does both of two runs exactly where they agree and are not the same.
pub fn agreeing_refute()
    ensures { AgreeingRefute }
{}

/// A first cause refutes that the command does the same where it sees the same.
pub fn first_cause_refutes()
    ensures { FirstCauseRefutes }
{}

/// A command that is served by an earlier run, and does the same where it sees the same, leaves what that run left.
pub fn served_leaves_the_same()
    ensures { ServedLeavesTheSame }
{}

/// Each edge that left another content than in the other recording is a first cause, or comes from one, or from a source
/// that differs.
pub fn first_causes_reach()
    ensures { FirstCausesReach }
{}
