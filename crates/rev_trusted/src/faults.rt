//! What is wrong with a file of trusted flags.
use std::alloc::{AllocError, AllocFailed};

/// What is wrong with a text.
#[derive(Clone, Copy, Debug, PartialEq, Eq)]
pub enum FaultKind {
    /// The line is not one that may stand there. The first line has to be `rebug-trust 1`.
    Syntax,
    /// All patterns together have more than [`rev_filters::MAX_BYTES`] bytes, as many as a file of filters may have.
    /// The fault is at line 0.
    Long,
}

/// The first fault of a text.
#[derive(Clone, Copy, Debug, PartialEq, Eq)]
pub struct Fault {
    /// What is wrong.
    pub kind: FaultKind,
    /// The number of the line, from 1. It is 0 where the fault is about the whole text.
    pub line: u64,
}

impl FaultKind {
    /// The number that is printed for the fault (docs/CODES.md).
    pub fn code(self) -> u16 {
        match self {
            FaultKind::Syntax => 100,
            FaultKind::Long => 106,
        }
    }
}

/// Why a text is not read.
#[derive(Clone, Copy, Debug, PartialEq, Eq)]
pub enum ReadFault {
    /// An allocation failed.
    Memory,
    /// The text has a fault; this is the first.
    Numbered(Fault),
}

impl From<AllocError> for ReadFault {
    fn from(_e: AllocError) -> ReadFault {
        ReadFault::Memory
    }
}

impl<T: Drop> From<AllocFailed<T>> for ReadFault {
    fn from(_e: AllocFailed<T>) -> ReadFault {
        ReadFault::Memory
    }
}
