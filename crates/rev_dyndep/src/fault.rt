//! Why a dyndep file is not read.
ghost use Rattle.std.specs.Prelude.{◌≡◌};
ghost use Rattle.rev_dyndep.specs.declared.fault.ReadFault.TheVariants.{Memory};
ghost use Rattle.rev_dyndep.specs.Answers.{fault_at, of_syntax, syntax_kind};
ghost use Rattle.rev_dyndep.specs.Fault.{code_of};

use rev_syntax::{SyntaxFault, SyntaxKind};
use std::alloc::{AllocError, AllocFailed};

/// What the fault of a dyndep file is. Each kind has a number of its own.
#[derive(Clone, Copy, Debug, PartialEq, Eq)]
pub enum DyndepKind {
    /// 1: a path is empty.
    EmptyPath,
    /// 2: a path has more than 4,096 bytes.
    LongPath,
    /// 10: no line of the grammar goes on like this.
    Syntax,
    /// 11: a tab stands among the blanks at the beginning of a line.
    Tab,
    /// 12: a `$` with nothing after it that it can stand before.
    BadEscape,
    /// 120: the first statement is not `ninja_dyndep_version = 1`, or there is none.
    NoVersion,
    /// 121: a later statement is not `build OUTPUT | OUTPUTS: dyndep | INPUTS`.
    NotDyndep,
    /// 122: something else than `restat` is bound below a statement, or a second name.
    OtherBinding,
}

impl DyndepKind {
    /// The number of this kind of fault.
    pub fn code(self) -> u16
        ensures { result ≡ code_of self }
    {
        match self {
            DyndepKind::EmptyPath => 1,
            DyndepKind::LongPath => 2,
            DyndepKind::Syntax => 10,
            DyndepKind::Tab => 11,
            DyndepKind::BadEscape => 12,
            DyndepKind::NoVersion => 120,
            DyndepKind::NotDyndep => 121,
            DyndepKind::OtherBinding => 122,
        }
    }
}

/// A fault and where it stands.
#[derive(Clone, Copy, Debug, PartialEq, Eq)]
pub struct DyndepFault {
    /// What it is.
    pub kind: DyndepKind,
    /// The line in its file, from 1; of lines that are joined the first.
    pub line: u64,
}

/// Why nothing is read.
#[derive(Clone, Copy, Debug, PartialEq, Eq)]
pub enum ReadFault {
    /// An allocation was refused.
    Memory,
    /// The file is not a dyndep file. This is its first fault.
    Refused(DyndepFault),
}

/// The fault of that kind at a line.
pub(crate) fn refused(line: u64, kind: DyndepKind) -> ReadFault
    ensures { result ≡ ReadFault.Refused (fault_at line kind) }
{
    ReadFault::Refused(DyndepFault { kind, line })
}

impl From<SyntaxKind> for DyndepKind {
    ghost from_gives = { λ kind given. given ≡ syntax_kind kind };

    fn from(kind: SyntaxKind) -> DyndepKind {
        match kind {
            SyntaxKind::Syntax => DyndepKind::Syntax,
            SyntaxKind::Tab => DyndepKind::Tab,
            SyntaxKind::BadEscape => DyndepKind::BadEscape,
        }
    }
}

/// A fault of the syntax.
pub(crate) fn in_syntax(fault: SyntaxFault) -> ReadFault
    ensures { result ≡ ReadFault.Refused (of_syntax fault) }
{
    refused(fault.line, DyndepKind::from(fault.kind))
}

impl From<AllocError> for ReadFault {
    ghost from_gives = { λ _ fault. fault ≡ Memory };

    fn from(_e: AllocError) -> ReadFault {
        ReadFault::Memory
    }
}

impl<T: Drop> From<AllocFailed<T>> for ReadFault {
    ghost from_gives = { λ _ fault. fault ≡ Memory };

    fn from(_e: AllocFailed<T>) -> ReadFault {
        ReadFault::Memory
    }
}
