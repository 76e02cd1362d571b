//! Why a question about orders is not answered.
use rev_fields::push_number;
use std::alloc::AllocError;

/// Why a question is not answered.
#[derive(Clone, Copy, Debug, PartialEq, Eq)]
pub enum WordFault {
    /// `--runs` names no number of orders from 2 to 1,000.
    Runs,
    /// So many commands ran in a build of so many edges, and their pairs are too many.
    TooMany(u64, u64),
    /// Edges wait for each other.
    Cycle,
    /// The system refused memory.
    Memory,
}

impl From<AllocError> for WordFault {
    fn from(_error: AllocError) -> Self {
        WordFault::Memory
    }
}

// What is said of `--runs`.
const RUNS: &[u8] = b"--runs takes a number of orders, from 2 and at most 1000";

// Adds that there are too many pairs.
fn push_too_many(sentence: &mut Vec<u8>, commands: u64, edges: u64) -> Result<(), AllocError> {
    push_number(sentence, commands)?;
    sentence.extend_from_slice(b" commands ran in a build of ")?;
    push_number(sentence, edges)?;
    sentence.extend_from_slice(b" edges, and their pairs are too many to be counted")
}

impl WordFault {
    /// Adds the sentence that says the fault.
    ///
    /// # Errors
    /// [`AllocError`] only where an allocation was refused.
    pub fn push_sentence(&self, sentence: &mut Vec<u8>) -> Result<(), AllocError> {
        match self {
            WordFault::Runs => sentence.extend_from_slice(RUNS),
            WordFault::TooMany(commands, edges) => push_too_many(sentence, *commands, *edges),
            WordFault::Cycle => {
                sentence.extend_from_slice(b"edges of the recording wait for each other")
            }
            WordFault::Memory => sentence.extend_from_slice(b"out of memory"),
        }
    }
}
