//! Why nodes have no ranks.
ghost use Rattle.std.specs.Prelude.{◌≡◌};
ghost use Rattle.rev_ranks.specs.declared.fault.RankFault.TheVariants.{Memory};

use std::alloc::{AllocError, AllocFailed};

/// Why nodes have no ranks.
#[derive(Clone, Copy, Debug, PartialEq, Eq)]
pub enum RankFault {
    /// An allocation failed.
    Memory,
    /// A node reaches itself. This is the least that does.
    Cycle(u32),
}

impl From<AllocError> for RankFault {
    ghost from_gives = { λ _ fault. fault ≡ Memory };

    fn from(_e: AllocError) -> RankFault {
        RankFault::Memory
    }
}

impl<T: Drop> From<AllocFailed<T>> for RankFault {
    ghost from_gives = { λ _ fault. fault ≡ Memory };

    fn from(_e: AllocFailed<T>) -> RankFault {
        RankFault::Memory
    }
}
