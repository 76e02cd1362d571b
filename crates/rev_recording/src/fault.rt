//! Why a recording is not replayed.
use rev_fields::{TextFault, push_number};
use rev_graph::GraphFault;
use rev_manifest::ManifestFault;
use rev_script::{RunFault, report_fault, report_graph_fault, report_manifest_fault};
use std::alloc::{AllocError, AllocFailed, Global};
use std::fmt;

/// The first fault of the file `observed` or `filters`, which stand beside a trace.
#[derive(Clone, Copy)]
pub struct ObservedFault {
    /// The name of the file.
    pub file: &'static str,
    /// The number of the line, from 1; 0 where the fault has no line.
    pub line: u64,
    /// The number of the fault, as docs/CODES.md lists it.
    pub code: u16,
}

impl ObservedFault {
    /// The number of the fault that a line names an output that is not the first of any edge.
    pub const NO_SUCH_EDGE: u16 = 60;

    // What the number means.
    fn words(self) -> &'static str {
        match self.code {
            Self::NO_SUCH_EDGE => "no edge has this as its first output",
            100 => "no line that may stand there",
            101 => "no number of that form or size",
            103 => "a second line for one path or one edge",
            104 => "no observation of this version",
            106 => "more than 16,384 bytes",
            _ => "a number that is no path's, or ranges that do not rise",
        }
    }
}

impl fmt::Display for ObservedFault {
    fn fmt<W: fmt::Write>(&self, f: &mut fmt::Formatter<W>) -> fmt::Result {
        let words = self.words();
        let (file, line, code) = (self.file, self.line, self.code);
        write!(f, "{file}:{line}: {words} ({code}, docs/CODES.md)")
    }
}

/// Why a recording is not replayed.
#[derive(Drop)]
pub enum RecordingFault {
    /// The system refused memory.
    Memory,
    /// The manifest has a fault.
    Manifest(ManifestFault),
    /// The manifest's edges make no graph.
    Graph(GraphFault),
    /// The trace has a fault.
    Trace(TextFault),
    /// The observation has a fault, or is of another manifest's commands, or a filter has a fault.
    Observed(ObservedFault),
}

impl From<AllocError> for RecordingFault {
    fn from(_e: AllocError) -> RecordingFault {
        RecordingFault::Memory
    }
}

impl<T: Drop> From<AllocFailed<T>> for RecordingFault {
    fn from(_e: AllocFailed<T>) -> RecordingFault {
        RecordingFault::Memory
    }
}

/// The last line of a report that ends at this fault; empty where memory was refused. `files` are those from which the
/// manifest was read.
///
/// # Errors
/// [`RunFault::Memory`] only where an allocation was refused.
pub fn fault_line(
    alloc: Global,
    files: &[(Vec<u8>, Vec<u8>)],
    fault: &RecordingFault,
) -> Result<Vec<u8>, RunFault> {
    let mut line = Vec::new(alloc);
    match fault {
        RecordingFault::Memory => return Err(RunFault::Memory),
        RecordingFault::Manifest(fault) => {
            report_manifest_fault(alloc, files, *fault, &mut line)?;
        }
        RecordingFault::Graph(fault) => {
            report_graph_fault(alloc, fault, &mut line)?;
        }
        RecordingFault::Trace(fault) => {
            report_fault(alloc, b"trace", *fault, &mut line)?;
        }
        RecordingFault::Observed(fault) => {
            line.extend_from_slice(b"fault ")?;
            line.extend_from_slice(fault.file.as_bytes())?;
            line.extend_from_slice(b" ")?;
            push_number(&mut line, fault.line)?;
            line.extend_from_slice(b" ")?;
            push_number(&mut line, u64::from(fault.code))?;
            line.extend_from_slice(b"\n")?;
        }
    }
    Ok(line)
}
