//! What is wrong with a text of lines.
ghost use Rattle.std.specs.Prelude.{◌≡◌, ◌+◌, ◌^◌, ◌<◌};
ghost use Rattle.rev_fields.specs.declared.faults.LineFault.TheVariants as line;
ghost use Rattle.rev_fields.specs.declared.faults.ReadFault.TheVariants as text;
ghost use Rattle.rev_fields.specs.Faults.{code_of, path_fault, read_fault};

use rev_paths::PathFault;
use std::alloc::{AllocError, AllocFailed};

/// What is wrong with a line. Where several of the first four are, the first of them counts.
#[derive(Clone, Copy, Debug, PartialEq, Eq)]
pub enum FaultKind {
    /// No form reads the line: a field does not write a text, a word is unknown, the count of fields is wrong, or a
    /// path is empty or longer than 4,096 bytes. Or the line may not stand at this place.
    Syntax,
    /// A field that has to be a number is none in form, or is out of its range.
    Number,
    /// A lane out of turn.
    Lane,
    /// A second record of one kind for one path.
    DoubleRecord,
    /// The first line of a trace is that of no version.
    Header,
}

/// The first fault of a text.
#[derive(Clone, Copy, Debug, PartialEq, Eq)]
pub struct TextFault {
    /// What is wrong.
    pub kind: FaultKind,
    /// The number of the line, from 1. Empty lines count.
    pub line: u64,
}

impl FaultKind {
    /// The number that a report prints for the fault.
    pub fn code(self) -> u16
        ensures { result ≡ code_of self }
    {
        match self {
            FaultKind::Syntax => 100,
            FaultKind::Number => 101,
            FaultKind::Lane => 102,
            FaultKind::DoubleRecord => 103,
            FaultKind::Header => 104,
        }
    }
}

/// Why a text is not read.
#[derive(Clone, Copy, Debug, PartialEq, Eq)]
pub enum ReadFault {
    /// An allocation failed.
    Memory,
    /// The text has a fault; this is the first.
    Numbered(TextFault),
}

/// Why a line is not read.
#[derive(Clone, Copy, Debug, PartialEq, Eq)]
pub enum LineFault {
    /// An allocation failed.
    Memory,
    /// The line has this fault.
    Kind(FaultKind),
}

impl From<AllocError> for ReadFault {
    ghost from_gives = { λ _ fault. fault ≡ text.Memory };

    fn from(_e: AllocError) -> ReadFault {
        ReadFault::Memory
    }
}

impl<T: Drop> From<AllocFailed<T>> for ReadFault {
    ghost from_gives = { λ _ fault. fault ≡ text.Memory };

    fn from(_e: AllocFailed<T>) -> ReadFault {
        ReadFault::Memory
    }
}

impl From<AllocError> for LineFault {
    ghost from_gives = { λ _ fault. fault ≡ line.Memory };

    fn from(_e: AllocError) -> LineFault {
        LineFault::Memory
    }
}

impl<T: Drop> From<AllocFailed<T>> for LineFault {
    ghost from_gives = { λ _ fault. fault ≡ line.Memory };

    fn from(_e: AllocFailed<T>) -> LineFault {
        LineFault::Memory
    }
}

impl From<PathFault> for LineFault {
    ghost from_gives = { λ path fault. fault ≡ path_fault path };

    fn from(fault: PathFault) -> LineFault {
        match fault {
            PathFault::Memory => LineFault::Memory,
            PathFault::EmptyPath => LineFault::Kind(FaultKind::Syntax),
            PathFault::LongPath => LineFault::Kind(FaultKind::Syntax),
        }
    }
}

impl LineFault {
    /// The fault of the text in which the line stands at this place, counted from 0.
    pub fn at(self, place: usize) -> ReadFault
        requires { place + 1 < 2 ^ 64 }
        ensures { result ≡ read_fault place self }
    {
        match self {
            LineFault::Memory => ReadFault::Memory,
            LineFault::Kind(kind) => ReadFault::Numbered(TextFault {
                kind,
                line: place as u64 + 1,
            }),
        }
    }
}
