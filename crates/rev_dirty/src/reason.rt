//! Reasons to run an edge's command.
ghost use Rattle.std.specs.Prelude.{◌≡◌};
ghost use Rattle.rev_dirty.specs.Reasons.{kind_of};

/// Why an edge is dirty. Positions count from 0. Those of outputs are as [`rev_graph::Graph::outputs`] has them,
/// explicit before implicit. Those of inputs are in one list: explicit, implicit and order-only inputs, and then,
/// where the edge keeps deps, what the deps record of its first output lists.
#[derive(Clone, Copy, Debug, PartialEq, Eq)]
pub enum Reason {
    /// The output at this position is missing.
    Missing(u64),
    /// The edge keeps deps, and its first output has no record of them.
    NoDeps,
    /// The record of the deps is older than the first output.
    DepsOld,
    /// The input at this position was changed by the edge that produces it, which is done.
    Rebuilt(u64),
    /// The input at this position, which the deps record lists, is missing, and no edge produces it.
    MissingDep(u64),
    /// The output at the first position is older than the input at the second, the first of the newest ones.
    Older(u64, u64),
    /// The output at this position has no record in the build log.
    NoRecord(u64),
    /// The output at this position was made by another command.
    Command(u64),
}

impl Reason {
    /// The number of the kind of reason, from 1 for a missing output to 8 for another command.
    pub fn kind(self) -> u16
        ensures { result ≡ kind_of self }
    {
        match self {
            Reason::Missing(_) => 1,
            Reason::NoDeps => 2,
            Reason::DepsOld => 3,
            Reason::Rebuilt(_) => 4,
            Reason::MissingDep(_) => 5,
            Reason::Older(_, _) => 6,
            Reason::NoRecord(_) => 7,
            Reason::Command(_) => 8,
        }
    }
}
