//! Why a depfile is refused.
ghost use Rattle.std.specs.Prelude.{◌≡◌, None, Some};
ghost use Rattle.rev_depfile.specs.declared.fault.DepfileFault.TheVariants.{Memory};
ghost use Rattle.rev_depfile.specs.Fault.{code_of, offset_of};

use std::alloc::{AllocError, AllocFailed};

/// Why a depfile gives no prerequisites. Each fault of the text has the offset of a
/// byte in it, counted from 0.
#[derive(Clone, Copy, Debug, PartialEq, Eq)]
pub enum DepfileFault {
    /// An allocation failed, which says nothing about the text.
    Memory,
    /// A line has words and no separating colon; at its first word.
    NoColon(u64),
    /// A line has prerequisites, and none of its targets is an output; at its first
    /// word, or at the colon where no target stands.
    OtherTarget(u64),
    /// A prerequisite has more than 4,096 bytes; at its first byte.
    LongPath(u64),
}

impl DepfileFault {
    /// The number of the fault: 30 for a missing colon, 31 for another target, 32
    /// for a path that is too long, and none for `Memory`.
    pub fn code(self) -> Option<u16>
        ensures { result ≡ code_of self }
    {
        match self {
            DepfileFault::Memory => None,
            DepfileFault::NoColon(_) => Some(30),
            DepfileFault::OtherTarget(_) => Some(31),
            DepfileFault::LongPath(_) => Some(32),
        }
    }

    /// The offset of the fault in the text, in bytes from 0; none for `Memory`.
    pub fn offset(self) -> Option<u64>
        ensures { result ≡ offset_of self }
    {
        match self {
            DepfileFault::Memory => None,
            DepfileFault::NoColon(at)
            | DepfileFault::OtherTarget(at)
            | DepfileFault::LongPath(at) => Some(at),
        }
    }
}

impl From<AllocError> for DepfileFault {
    ghost from_gives = { λ _ fault. fault ≡ Memory };

    fn from(_e: AllocError) -> DepfileFault {
        DepfileFault::Memory
    }
}

impl<T: Drop> From<AllocFailed<T>> for DepfileFault {
    ghost from_gives = { λ _ fault. fault ≡ Memory };

    fn from(_e: AllocFailed<T>) -> DepfileFault {
        DepfileFault::Memory
    }
}
