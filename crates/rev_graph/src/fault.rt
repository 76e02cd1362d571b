//! Why a manifest has no graph.
ghost use Rattle.std.specs.Prelude.{◌≡◌};
ghost use Rattle.std.specs.Option.{option_copied};
ghost use Rattle.rev_graph.specs.declared.fault.GraphFault.TheVariants.{Memory};
ghost use Rattle.rev_graph.specs.Fault.{code_of, path_of};

use rev_paths::Name;
use std::alloc::{AllocError, AllocFailed};

/// Why a manifest has no graph. The faults are asked for in the order [`GraphFault::TooManyEdges`],
/// [`GraphFault::MultipleProducers`], [`GraphFault::Cycle`].
#[derive(Debug, PartialEq, Eq)]
pub enum GraphFault {
    /// An allocation was refused, which says nothing about the manifest.
    Memory,
    /// There are more than [`Graph::MAX_EDGES`](crate::Graph::MAX_EDGES) edges.
    TooManyEdges,
    /// The first output, in reading order, that an earlier edge has
    /// (Ninja: "multiple rules generate").
    MultipleProducers(Name),
    /// The first output of the least edge that reaches itself through explicit, implicit or order-only inputs
    /// (Ninja: "dependency cycle").
    Cycle(Name),
}

impl Drop for GraphFault {
    fn drop(self) {
        match self {
            GraphFault::Memory => {}
            GraphFault::TooManyEdges => {}
            GraphFault::MultipleProducers(_part) => {}
            GraphFault::Cycle(_part) => {}
        }
    }
}

impl GraphFault {
    /// The number of the fault: 42 for too many edges, 40 for a second producer, 41 for a cycle,
    /// and none for `Memory`.
    pub fn code(&self) -> Option<u16>
        ensures { result ≡ code_of self.now }
    {
        match self {
            GraphFault::Memory => None,
            GraphFault::TooManyEdges => Some(42),
            GraphFault::MultipleProducers(_) => Some(40),
            GraphFault::Cycle(_) => Some(41),
        }
    }

    /// The path that the fault names, if it names one.
    pub fn path(&self) -> Option<&Name>
        ensures { option_copied result ≡ path_of self.now }
    {
        match self {
            GraphFault::Memory | GraphFault::TooManyEdges => None,
            GraphFault::MultipleProducers(path) | GraphFault::Cycle(path) => Some(path),
        }
    }
}

impl From<AllocError> for GraphFault {
    ghost from_gives = { λ _ fault. fault ≡ Memory };

    fn from(_e: AllocError) -> GraphFault {
        GraphFault::Memory
    }
}

impl<T: Drop> From<AllocFailed<T>> for GraphFault {
    ghost from_gives = { λ _ fault. fault ≡ Memory };

    fn from(_e: AllocFailed<T>) -> GraphFault {
        GraphFault::Memory
    }
}
