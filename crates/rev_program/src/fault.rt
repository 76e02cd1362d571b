//! Faults that end a program.
use rev_script::RunFault;
use std::alloc::{AllocError, AllocFailed};
use std::fmt;
use std::io::ErrorKind;
use thiserror::Error;

/// The status of a run that met a fault in what it read.
pub const FAULT: u8 = 1;
/// The status of a run that could not read, write or get memory.
pub const FAILURE: u8 = 3;

/// Why a file is not read.
#[derive(Clone, Copy, Debug, Error)]
pub enum Unread {
    /// No file has the name.
    #[error("it is not there")]
    Missing,
    /// The name is the name of a folder.
    #[error("it is a folder")]
    Folder,
    /// The name is the name of a pipe, a socket or a device.
    #[error("it is not a regular file")]
    Special,
    /// The file is outside of the recording's folder, or a link leads out of the folder.
    #[error("it lies outside of the recording's folder")]
    Outside,
    /// The name, or the whole path, is not UTF-8 text, and the system is asked by UTF-8 names.
    #[error("its path is not UTF-8 text")]
    NoText,
    /// The system does not let this user read it.
    #[error("this user may not read it")]
    Forbidden,
    /// It has more bytes than a trace or a script may have.
    #[error("it has more than 1,073,741,824 bytes")]
    Long,
    /// It could not be opened, or a read of it failed.
    #[error("the system failed to read it")]
    Failed,
}

impl From<ErrorKind> for Unread {
    fn from(kind: ErrorKind) -> Unread {
        match kind {
            ErrorKind::NotFound => Unread::Missing,
            ErrorKind::IsADirectory => Unread::Folder,
            ErrorKind::PermissionDenied => Unread::Forbidden,
            ErrorKind::InvalidData => Unread::NoText,
            _ => Unread::Failed,
        }
    }
}

/// The first fault of what a recording keeps of dyndep files.
#[derive(Debug)]
pub struct DyndepFault {
    /// The name of the file in the recording.
    pub file: String,
    /// The number of the line, from 1; 0 where the fault is about no line.
    pub line: u64,
    /// The number of the fault, as docs/CODES.md lists it.
    pub code: u16,
    /// What the number means.
    pub words: &'static str,
}

// Written, since a derived drop is proved again at each exit of each caller.
impl Drop for DyndepFault {
    fn drop(self) {
        let DyndepFault {
            file: _file,
            line: _line,
            code: _code,
            words: _words,
        } = self;
    }
}

impl fmt::Display for DyndepFault {
    fn fmt<W: fmt::Write>(&self, f: &mut fmt::Formatter<W>) -> fmt::Result {
        let (file, line, words, code) = (&self.file, self.line, self.words, self.code);
        write!(f, "{file}:{line}: {words} ({code}, docs/CODES.md)")
    }
}

/// Why a program ends with status 3, or with status 1 ([`ProgramFault::status`]). Where a sentence has a reason, the
/// reason stands on a line of its own.
#[derive(Debug, Drop, Error)]
pub enum ProgramFault<'a> {
    /// The system refused memory.
    #[error("out of memory")]
    Memory,
    /// The answer was not written whole.
    #[error("cannot write")]
    Write,
    /// A line of standard input was not read.
    #[error("cannot read the questions")]
    Read,
    /// A file that the command line names could not be read.
    #[error("cannot read {0}\nrebug: {1}")]
    File(&'a str, Unread),
    /// The manifest of a recording could not be read.
    #[error("cannot read the manifest of {0}\nrebug: {1}")]
    Manifest(&'a str, Unread),
    /// A file that the manifest of a recording includes could not be read.
    #[error("cannot read {1}, which the manifest of {0} includes\nrebug: {2}")]
    Included(&'a str, String, Unread),
    /// The trace of a recording could not be read.
    #[error("cannot read the trace of {0}\nrebug: {1}")]
    Trace(&'a str, Unread),
    /// Another file of a recording could not be read.
    #[error("cannot read the file {1} of {0}\nrebug: {2}")]
    Beside(&'a str, &'static str, Unread),
    /// A file that a recording keeps of dyndep files, or of the user's own manifest, could not be read.
    #[error("cannot read the file {1} of {0}\nrebug: {2}")]
    Kept(&'a str, String, Unread),
    /// The manifest of a recording is not the user's own with what dyndep files say, or one of these files has a fault.
    #[error("cannot take the resolved manifest of {0}\nrebug: {1}")]
    Dyndep(&'a str, DyndepFault),
    /// A folder has a manifest and no trace.
    #[error("{0} is a build folder, and not a recording: record it first\nrebug: for example: rebug record {0} RECORDING")]
    BuildFolder(&'a str),
    /// A recording has no file `observed`, and the command line asks for what that file tells.
    #[error("{0} does not say what its commands read and wrote: record the build with --observe\nrebug: for example: rebug record BUILD {0} --observe")]
    NotObserved(&'a str),
    /// The file of a picture could not be written.
    #[error("cannot write {0}")]
    Out(&'a str),
}

impl ProgramFault<'_> {
    /// The status of the program: [`FAULT`] where a file was read that has a fault, and else [`FAILURE`].
    pub fn status(&self) -> u8 {
        match self {
            ProgramFault::Dyndep(_, _) => FAULT,
            _ => FAILURE,
        }
    }
}

impl From<AllocError> for ProgramFault<'_> {
    fn from(_e: AllocError) -> Self {
        ProgramFault::Memory
    }
}

impl<T: Drop> From<AllocFailed<T>> for ProgramFault<'_> {
    fn from(_e: AllocFailed<T>) -> Self {
        ProgramFault::Memory
    }
}

impl From<RunFault> for ProgramFault<'_> {
    fn from(fault: RunFault) -> Self {
        match fault {
            RunFault::Memory => ProgramFault::Memory,
            RunFault::Write => ProgramFault::Write,
        }
    }
}
