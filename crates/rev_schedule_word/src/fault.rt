//! Why a question about schedules is not answered.
use rev_fields::push_number;
use std::alloc::{AllocError, AllocFailed};

/// Why a question is not answered.
#[derive(Clone, Copy, Debug, PartialEq, Eq)]
pub enum WordFault<'a> {
    /// What `-j` was given is not numbers of jobs.
    Jobs,
    /// What `--faster` was given is not an output and a factor.
    Faster(&'a str),
    /// What `--pool` was given is not a name and a depth.
    Pool(&'a str),
    /// No command that ran makes the output that `--faster` names.
    NoCommand(&'a str),
    /// The manifest has no pool that `--pool` names.
    NoPool(&'a str),
    /// The line of this number in the file of `--without` does not have two fields.
    Line(u64),
    /// The edge that this line names has no order-only input of the maker that it names.
    NoOrder(u64),
    /// The system refused memory.
    Memory,
}

impl From<AllocError> for WordFault<'_> {
    fn from(_error: AllocError) -> Self {
        WordFault::Memory
    }
}

impl<T: Drop> From<AllocFailed<T>> for WordFault<'_> {
    fn from(_error: AllocFailed<T>) -> Self {
        WordFault::Memory
    }
}

// Adds what stands before a text, the text, and what stands behind it.
fn push_around(
    sentence: &mut Vec<u8>,
    before: &str,
    text: &str,
    after: &str,
) -> Result<(), AllocError> {
    sentence.extend_from_slice(before.as_bytes())?;
    sentence.extend_from_slice(text.as_bytes())?;
    sentence.extend_from_slice(after.as_bytes())
}

// Adds a line of the file of `--without`, and what is said of it.
fn push_of_line(sentence: &mut Vec<u8>, line: u64, after: &str) -> Result<(), AllocError> {
    sentence.extend_from_slice(b"line ")?;
    push_number(sentence, line)?;
    sentence.extend_from_slice(b" of the file of --without ")?;
    sentence.extend_from_slice(after.as_bytes())
}

impl WordFault<'_> {
    /// Adds the sentence that says the fault.
    ///
    /// # Errors
    /// [`AllocError`] only where an allocation was refused.
    pub fn push_sentence(&self, sentence: &mut Vec<u8>) -> Result<(), AllocError> {
        match self {
            WordFault::Jobs => push_around(sentence, JOBS, "", ""),
            WordFault::Faster(text) => push_around(sentence, FASTER, text, ""),
            WordFault::Pool(text) => push_around(sentence, POOL, text, ""),
            WordFault::NoCommand(text) => {
                push_around(
                    sentence,
                    "no command that ran makes the output of --faster ",
                    text,
                    "",
                )
            }
            WordFault::NoPool(text) => {
                push_around(
                    sentence,
                    "the manifest has no pool of the name of --pool ",
                    text,
                    "",
                )
            }
            WordFault::Line(line) => push_of_line(sentence, *line, "is not OUT INPUT, two names"),
            WordFault::NoOrder(line) => push_of_line(sentence, *line, NO_ORDER),
            WordFault::Memory => push_around(sentence, "out of memory", "", ""),
        }
    }
}

// What is said of wishes of another form.
const JOBS: &str =
    "-j takes numbers of jobs with commas between them, from 1 and at most 32, as 4,16";

const FASTER: &str = "--faster takes OUT=FACTOR, as main.o=1.5, and was given ";

const POOL: &str = "--pool takes NAME=DEPTH, as link=2, and was given ";
// What is said of a line that names no order.
const NO_ORDER: &str =
    "names no order: the edge of OUT has no order-only input that the edge of INPUT makes";
