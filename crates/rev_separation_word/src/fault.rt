//! Why builds are not counted.
use rev_fields::push_number;
use std::alloc::{AllocError, AllocFailed};

/// Why builds are not counted.
#[derive(Clone, Copy, Debug, PartialEq, Eq)]
pub enum SeparationFault {
    /// The line of this number, from 1, is no line of this form, or comes before the first one.
    Line(usize),
    /// The system refused memory.
    Memory,
}

impl From<AllocError> for SeparationFault {
    fn from(_error: AllocError) -> Self {
        SeparationFault::Memory
    }
}

impl<T: Drop> From<AllocFailed<T>> for SeparationFault {
    fn from(_error: AllocFailed<T>) -> Self {
        SeparationFault::Memory
    }
}

impl SeparationFault {
    /// Adds the sentence that says the fault.
    ///
    /// # Errors
    /// [`AllocError`] only where an allocation was refused.
    pub fn push_sentence(self, sentence: &mut Vec<u8>) -> Result<(), AllocError> {
        match self {
            SeparationFault::Line(line) => {
                sentence.extend_from_slice(b"line ")?;
                push_number(sentence, line as u64)?;
                sentence.extend_from_slice(b" is no line of builds that are counted")
            }
            SeparationFault::Memory => { sentence.extend_from_slice(b"the system refused memory") }
        }
    }
}
