//! What is wrong with a text that is to be an observation.
ghost use Rattle.std.specs.Prelude.{◌≡◌, ◌+◌, ◌^◌, ◌<◌};
ghost use Rattle.rev_observed.specs.declared.faults.LineFault.TheVariants as line;
ghost use Rattle.rev_observed.specs.declared.faults.ReadFault.TheVariants as text;
ghost use Rattle.rev_observed.specs.Faults.{code_of, line_fault, read_fault};

use std::alloc::{AllocError, AllocFailed};

/// What is wrong with a line. Where several of these are, the first of them counts.
#[derive(Clone, Copy, Debug, PartialEq, Eq)]
pub enum FaultKind {
    /// The first line does not name the format.
    Header,
    /// No form reads the line: a field does not write a text, a word is unknown, the count of fields is wrong, or a
    /// path is empty or longer than 4,096 bytes. Or the line may not stand at this place.
    Syntax,
    /// A field that has to be a number, or two with `-` between them, is none in form, or is out of its range.
    Number,
    /// A number that is not a path's, or ranges that do not rise.
    Range,
    /// A second line for one path, or for one edge.
    Double,
}

/// The first fault of a text.
#[derive(Clone, Copy, Debug, PartialEq, Eq)]
pub struct Fault {
    /// What is wrong.
    pub kind: FaultKind,
    /// The number of the line, from 1.
    pub line: u64,
}

impl FaultKind {
    /// The number that is printed for the fault (docs/CODES.md).
    pub fn code(self) -> u16
        ensures { result ≡ code_of self }
    {
        match self {
            FaultKind::Header => 104,
            FaultKind::Syntax => 100,
            FaultKind::Number => 101,
            FaultKind::Range => 105,
            FaultKind::Double => 103,
        }
    }
}

/// Why a text is not read.
#[derive(Clone, Copy, Debug, PartialEq, Eq)]
pub enum ReadFault {
    /// An allocation failed.
    Memory,
    /// The text has a fault; this is the first.
    Numbered(Fault),
}

/// Why a line is not read.
#[derive(Clone, Copy, PartialEq, Eq)]
pub(crate) enum LineFault {
    /// An allocation failed.
    Memory,
    /// The line has this fault.
    Kind(FaultKind),
}

/// The line may not stand there.
pub(crate) const BAD_LINE: LineFault = LineFault::Kind(FaultKind::Syntax);

impl From<AllocError> for ReadFault {
    ghost from_gives = { λ _ fault. fault ≡ text.Memory };

    fn from(_e: AllocError) -> ReadFault {
        ReadFault::Memory
    }
}

impl From<AllocError> for LineFault {
    ghost from_gives = { λ _ fault. fault ≡ line.Memory };

    fn from(_e: AllocError) -> LineFault {
        LineFault::Memory
    }
}

impl<T: Drop> From<AllocFailed<T>> for LineFault {
    ghost from_gives = { λ _ fault. fault ≡ line.Memory };

    fn from(_e: AllocFailed<T>) -> LineFault {
        LineFault::Memory
    }
}

impl From<rev_fields::LineFault> for LineFault {
    ghost from_gives = { λ field fault. fault ≡ line_fault field };

    fn from(fault: rev_fields::LineFault) -> LineFault {
        match fault {
            rev_fields::LineFault::Memory => LineFault::Memory,
            rev_fields::LineFault::Kind(rev_fields::FaultKind::Number) => {
                LineFault::Kind(FaultKind::Number)
            }
            rev_fields::LineFault::Kind(_) => LineFault::Kind(FaultKind::Syntax),
        }
    }
}

impl LineFault {
    /// The fault of the text in which the line stands at this place, counted from 0.
    pub(crate) fn at(self, place: usize) -> ReadFault
        requires { place + 1 < 2 ^ 64 }
        ensures { result ≡ read_fault place self }
    {
        match self {
            LineFault::Memory => ReadFault::Memory,
            LineFault::Kind(kind) => ReadFault::Numbered(Fault {
                kind,
                line: place as u64 + 1,
            }),
        }
    }
}
