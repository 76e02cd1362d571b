//! Why a manifest's syntax is refused.
ghost use Rattle.std.specs.Prelude.{◌≡◌};
ghost use Rattle.rev_syntax.specs.declared.fault.ReadFault.TheVariants.{Memory};
ghost use Rattle.rev_syntax.specs.Fault.{code_of};

use std::alloc::{AllocError, AllocFailed};

/// What a fault of the syntax is. Each kind has a number of its own.
#[derive(Clone, Copy, Debug, PartialEq, Eq)]
pub enum SyntaxKind {
    /// 10: no line of the grammar goes on like this, or a NUL or CR stands in a line.
    Syntax,
    /// 11: a tab stands among the blanks at the beginning of a line.
    Tab,
    /// 12: a `$` with nothing after it that it can stand before.
    BadEscape,
}

impl SyntaxKind {
    /// The number of this kind of fault.
    pub fn code(self) -> u16
        ensures { result ≡ code_of self }
    {
        match self {
            SyntaxKind::Syntax => 10,
            SyntaxKind::Tab => 11,
            SyntaxKind::BadEscape => 12,
        }
    }
}

/// A fault and where it stands.
#[derive(Clone, Copy, Debug, PartialEq, Eq)]
pub struct SyntaxFault {
    /// What it is.
    pub kind: SyntaxKind,
    /// The line in its file, from 1; of lines that are joined the first.
    pub line: u64,
}

/// Why no statement is read.
#[derive(Clone, Copy, Debug, PartialEq, Eq)]
pub enum ReadFault {
    /// An allocation was refused.
    Memory,
    /// The lines do not say a statement. This is their first fault.
    Refused(SyntaxFault),
}

impl From<AllocError> for ReadFault {
    ghost from_gives = { λ _ fault. fault ≡ Memory };

    fn from(_e: AllocError) -> ReadFault {
        ReadFault::Memory
    }
}

impl<T: Drop> From<AllocFailed<T>> for ReadFault {
    ghost from_gives = { λ _ fault. fault ≡ Memory };

    fn from(_e: AllocFailed<T>) -> ReadFault {
        ReadFault::Memory
    }
}
