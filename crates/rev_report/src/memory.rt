//! The memory of a run.
ghost use Rattle.std.specs.Prelude.{◌≡◌, None};

use rev_desk::Desk;
use rev_trace::Trace;

/// What a run read and made: the trace, and the desk with its graph. A run hands it back in place of freeing it, since
/// dropping either value frees it piece by piece.
#[derive(Drop)]
pub struct RunMemory {
    /// The trace, where it was read without a fault.
    pub trace: Option<Trace>,
    /// The desk, where one was opened.
    pub desk: Option<Desk>,
}

impl RunMemory {
    /// The memory of a run that has not begun.
    pub fn new() -> RunMemory
        ensures trace { result.trace ≡ None }
        ensures desk { result.desk ≡ None }
    {
        RunMemory {
            trace: None,
            desk: None,
        }
    }
}
