//! Why an opening, or a record of it, is refused.
ghost use Rattle.std.specs.Prelude.{◌≡◌};
ghost use Rattle.rev_cells.specs.declared.fault.OpeningFault.TheVariants.{Memory};
ghost use Rattle.rev_cells.specs.Fault.{code_of};

use std::alloc::{AllocError, AllocFailed};

/// Why an opening, or a record of it, is refused.
#[derive(Clone, Copy, Debug, PartialEq, Eq)]
pub enum OpeningFault {
    /// An allocation failed.
    Memory,
    /// The number of jobs is not from 1 to 1,024.
    BadJobs,
    /// A record of that kind was given for that path before.
    DoubleRecord,
}

impl OpeningFault {
    /// The number of the fault. `Memory` has none.
    pub fn code(self) -> Option<u16>
        ensures { result ≡ code_of self }
    {
        match self {
            OpeningFault::Memory => None,
            OpeningFault::BadJobs => Some(90),
            OpeningFault::DoubleRecord => Some(103),
        }
    }
}

impl From<AllocError> for OpeningFault {
    ghost from_gives = { λ _ fault. fault ≡ Memory };

    fn from(_e: AllocError) -> OpeningFault {
        OpeningFault::Memory
    }
}

impl<T: Drop> From<AllocFailed<T>> for OpeningFault {
    ghost from_gives = { λ _ fault. fault ≡ Memory };

    fn from(_e: AllocFailed<T>) -> OpeningFault {
        OpeningFault::Memory
    }
}
