//! Why a manifest is not read.
ghost use Rattle.std.specs.Prelude.{◌≡◌};
ghost use Rattle.rev_manifest.specs.declared.fault.ReadFault.TheVariants.{Memory};
ghost use Rattle.rev_manifest.specs.Answers.{fault_at, syntax_kind};
ghost use Rattle.rev_manifest.specs.Fault.{code_of};

use rev_syntax::SyntaxKind;
use std::alloc::{AllocError, AllocFailed};

/// What a manifest's fault is. Each kind has a number of its own.
#[derive(Clone, Copy, Debug, PartialEq, Eq)]
pub enum FaultKind {
    /// 1: a path is empty.
    EmptyPath,
    /// 2: a path has more than 4,096 bytes.
    LongPath,
    /// 10: no line of the grammar goes on like this.
    Syntax,
    /// 11: a tab stands among the blanks at the beginning of a line.
    Tab,
    /// 12: a `$` with nothing after it that it can stand before.
    BadEscape,
    /// 13: a build line names a rule that no line above it declares.
    UnknownRule,
    /// 14: a rule is declared twice, or is named `phony`.
    DoubleRule,
    /// 15: a binding under a rule names something that a rule does not have, or one under a pool is not `depth`.
    UnknownVariable,
    /// 16: a rule has no command.
    NoCommand,
    /// 17: a variable that an edge needs has no value, since it needs itself.
    VariableCycle,
    /// 18: an edge is in a pool that is nowhere declared.
    UnknownPool,
    /// 19: a pool has no depth, or its depth is not a decimal number of at most 1,000,000.
    BadDepth,
    /// 20: no file was given, or a statement names none of those that were.
    NoFile,
    /// 21: files lie more than 16 deep in one another.
    IncludeDepth,
    /// 22: something is bound to the name `dyndep`.
    Unsupported,
    /// 23: the files, an expanded value, or all values together are too large.
    TooLarge,
    /// 24: a pool is declared twice, or is named `console`.
    DoublePool,
}

impl FaultKind {
    /// The number of this kind of fault.
    pub fn code(self) -> u16
        ensures { result ≡ code_of self }
    {
        match self {
            FaultKind::EmptyPath => 1,
            FaultKind::LongPath => 2,
            FaultKind::Syntax => 10,
            FaultKind::Tab => 11,
            FaultKind::BadEscape => 12,
            FaultKind::UnknownRule => 13,
            FaultKind::DoubleRule => 14,
            FaultKind::UnknownVariable => 15,
            FaultKind::NoCommand => 16,
            FaultKind::VariableCycle => 17,
            FaultKind::UnknownPool => 18,
            FaultKind::BadDepth => 19,
            FaultKind::NoFile => 20,
            FaultKind::IncludeDepth => 21,
            FaultKind::Unsupported => 22,
            FaultKind::TooLarge => 23,
            FaultKind::DoublePool => 24,
        }
    }
}

/// A fault and where it stands.
#[derive(Clone, Copy, Debug, PartialEq, Eq)]
pub struct ManifestFault {
    /// What it is.
    pub kind: FaultKind,
    /// The place of the file among those given, from 0. It is 0 for a fault about no line.
    pub file: u64,
    /// The line, from 1; of lines that are joined the first. It is 0 for a fault about no line.
    pub line: u64,
}

impl ManifestFault {
    /// The number of the fault.
    pub fn code(self) -> u16
        ensures { result ≡ code_of self.kind }
    {
        self.kind.code()
    }
}

/// Where a statement stands.
#[derive(Clone, Copy, Debug, PartialEq, Eq)]
pub(crate) struct Place {
    /// The place of its file among those given, from 0.
    pub(crate) file: u64,
    /// The number of its first line, from 1.
    pub(crate) line: u64,
}

impl Place {
    /// The fault of that kind at this place.
    pub(crate) fn fault(self, kind: FaultKind) -> ReadFault
        ensures { result ≡ ReadFault.Manifest (fault_at self kind) }
    {
        ReadFault::Manifest(ManifestFault {
            kind,
            file: self.file,
            line: self.line,
        })
    }
}

impl From<SyntaxKind> for FaultKind {
    ghost from_gives = { λ kind given. given ≡ syntax_kind kind };

    fn from(kind: SyntaxKind) -> FaultKind {
        match kind {
            SyntaxKind::Syntax => FaultKind::Syntax,
            SyntaxKind::Tab => FaultKind::Tab,
            SyntaxKind::BadEscape => FaultKind::BadEscape,
        }
    }
}

/// Why no manifest is read.
#[derive(Clone, Copy, Debug, PartialEq, Eq)]
pub enum ReadFault {
    /// An allocation was refused.
    Memory,
    /// The files do not say a manifest. This is their first fault.
    Manifest(ManifestFault),
}

impl From<AllocError> for ReadFault {
    ghost from_gives = { λ _ fault. fault ≡ Memory };

    fn from(_e: AllocError) -> ReadFault {
        ReadFault::Memory
    }
}

impl<T: Drop> From<AllocFailed<T>> for ReadFault {
    ghost from_gives = { λ _ fault. fault ≡ Memory };

    fn from(_e: AllocFailed<T>) -> ReadFault {
        ReadFault::Memory
    }
}
