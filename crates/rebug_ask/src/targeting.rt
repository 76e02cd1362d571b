//! The generator's targets of a recording.
use rev_fields::{ReadFault, TextFault};
use rev_folder::{Place, read_beside};
use rev_program::ProgramFault;
use rev_recording::{ObservedFault, RecordingFault};
use rev_targets::{Targets, read};
use std::alloc::Global;
use std::rt::Files;

// The name of the file.
const NAME: &str = "targets";
// The most bytes of the file, as many as a trace may have.
const MOST_BYTES: usize = 1_073_741_824;

/// The bytes of the file `targets` of a recording, where the file is there.
///
/// # Errors
/// [`ProgramFault::Beside`] where the file is there and cannot be read, else [`ProgramFault::Memory`].
pub(crate) fn read_targets<'a, R: Files + AllocGlobal>(
    rt: &R,
    recording: &'a str,
    place: Place<'_>,
) -> Result<Option<Vec<u8>>, ProgramFault<'a>> {
    read_beside(rt, recording, place, NAME, MOST_BYTES)
}

// A fault of the file as one of the recording.
fn fault_of(fault: TextFault) -> RecordingFault {
    RecordingFault::Observed(ObservedFault {
        file: NAME,
        line: fault.line,
        code: fault.kind.code(),
    })
}

/// The targets of so many build statements, if there are bytes of the file.
///
/// # Errors
/// [`RecordingFault::Observed`] with the first fault of the file, else [`RecordingFault::Memory`].
pub(crate) fn targets_in(
    alloc: Global,
    statements: u32,
    bytes: Option<&[u8]>,
) -> Result<Option<Targets>, RecordingFault> {
    let Some(bytes) = bytes else {
        return Ok(None);
    };
    match read(alloc, statements, bytes) {
        Ok(targets) => Ok(Some(targets)),
        Err(ReadFault::Memory) => Err(RecordingFault::Memory),
        Err(ReadFault::Numbered(fault)) => Err(fault_of(fault)),
    }
}
