//! What is wrong with a text that is to be an observation. The faults of a line are those of version 1.
ghost use Rattle.std.specs.Prelude.{◌≡◌, ◌+◌, ◌^◌, ◌<◌};
ghost use Rattle.rev_observation.specs.declared.faults.LineFault.TheVariants as line;
ghost use Rattle.rev_observation.specs.Faults.{line_fault, read_fault};

pub use rev_observed::{Fault, FaultKind, ReadFault};
use std::alloc::{AllocError, AllocFailed};

/// Why a line is not read.
#[derive(Clone, Copy, PartialEq, Eq)]
pub(crate) enum LineFault {
    /// An allocation failed.
    Memory,
    /// The line has this fault.
    Kind(FaultKind),
}

/// The line may not stand there.
pub(crate) const BAD_LINE: LineFault = LineFault::Kind(FaultKind::Syntax);

/// A number that is not an entry's, or ranges that do not rise.
pub(crate) const BAD_RANGE: LineFault = LineFault::Kind(FaultKind::Range);

/// A second line for a path, or for an edge.
pub(crate) const DOUBLE: LineFault = LineFault::Kind(FaultKind::Double);

impl From<AllocError> for LineFault {
    ghost from_gives = { λ _ fault. fault ≡ line.Memory };

    fn from(_e: AllocError) -> LineFault {
        LineFault::Memory
    }
}

impl<T: Drop> From<AllocFailed<T>> for LineFault {
    ghost from_gives = { λ _ fault. fault ≡ line.Memory };

    fn from(_e: AllocFailed<T>) -> LineFault {
        LineFault::Memory
    }
}

impl From<rev_fields::LineFault> for LineFault {
    ghost from_gives = { λ field fault. fault ≡ line_fault field };

    fn from(fault: rev_fields::LineFault) -> LineFault {
        match fault {
            rev_fields::LineFault::Memory => LineFault::Memory,
            rev_fields::LineFault::Kind(rev_fields::FaultKind::Number) => {
                LineFault::Kind(FaultKind::Number)
            }
            rev_fields::LineFault::Kind(_) => LineFault::Kind(FaultKind::Syntax),
        }
    }
}

impl LineFault {
    /// The fault of the text in which the line stands at this place, counted from 0.
    pub(crate) fn at(self, place: usize) -> ReadFault
        requires { place + 1 < 2 ^ 64 }
        ensures { result ≡ read_fault place self }
    {
        match self {
            LineFault::Memory => ReadFault::Memory,
            LineFault::Kind(kind) => ReadFault::Numbered(Fault {
                kind,
                line: place as u64 + 1,
            }),
        }
    }
}
