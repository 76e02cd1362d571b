//! What is wrong with a text of patterns.
ghost use Rattle.std.specs.Prelude.{◌≡◌};
ghost use Rattle.rev_filters.specs.declared.faults.ReadFault.TheVariants as text;
ghost use Rattle.rev_filters.specs.Codes.{code_of};

use std::alloc::{AllocError, AllocFailed};

/// How many bytes a text of patterns may have, so that what patterns cost is this times the bytes of the paths at most.
pub const MAX_BYTES: usize = 16_384;

/// What is wrong with a text.
#[derive(Clone, Copy, Debug, PartialEq, Eq)]
pub enum FaultKind {
    /// The line is a pattern with nothing between two slashes, or after its last slash: it could hide nothing.
    Syntax,
    /// The text has more than [`MAX_BYTES`] bytes. It is at line 0.
    Long,
}

/// The first fault of a text.
#[derive(Clone, Copy, Debug, PartialEq, Eq)]
pub struct Fault {
    /// What is wrong.
    pub kind: FaultKind,
    /// The number of the line, from 1; 0 where it is about none.
    pub line: u64,
}

impl FaultKind {
    /// The number that is printed for the fault (docs/CODES.md).
    pub fn code(self) -> u16
        ensures { result ≡ code_of self }
    {
        match self {
            FaultKind::Syntax => 100,
            FaultKind::Long => 106,
        }
    }
}

/// Why a text is not read.
#[derive(Clone, Copy, Debug, PartialEq, Eq)]
pub enum ReadFault {
    /// An allocation failed.
    Memory,
    /// The text has a fault; this is the first.
    Numbered(Fault),
}

impl From<AllocError> for ReadFault {
    ghost from_gives = { λ _ fault. fault ≡ text.Memory };

    fn from(_e: AllocError) -> ReadFault {
        ReadFault::Memory
    }
}

impl<T: Drop> From<AllocFailed<T>> for ReadFault {
    ghost from_gives = { λ _ fault. fault ≡ text.Memory };

    fn from(_e: AllocFailed<T>) -> ReadFault {
        ReadFault::Memory
    }
}
