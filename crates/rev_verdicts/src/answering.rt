//! Answers.
ghost use Rattle.std.specs.Prelude.{◌≡◌, ◌==◌, ◌&&◌, IfOk, if◌then◌else◌};

use crate::forms::baseline_text;
use crate::leaving::Choice;
use rev_formats::Item;
use rev_races_text::SOMETHING;
use std::alloc::{AllocError, Global};

/// What is written, and with which status the program ends.
#[derive(Drop)]
pub struct Written {
    /// What is written to the standard output.
    pub text: Vec<u8>,
    /// The exit status.
    pub status: u8,
    /// The baseline that is to be written, where the user wants one.
    pub baseline: Option<Vec<u8>>,
}

impl Written {
    /// A text without a baseline.
    pub fn new(text: Vec<u8>, status: u8) -> Written
        ensures text { result.text ≡ text }
        ensures status { result.status ≡ status }
    {
        Written {
            text,
            status,
            baseline: None,
        }
    }
}

/// An answer.
#[derive(Drop)]
pub enum Answer {
    /// What is written.
    Written(Written),
    /// That the question asks for nothing that there is, as a sentence.
    NotUnderstood(&'static str),
}

impl Answer {
    /// A text without a baseline.
    pub fn text(text: Vec<u8>, status: u8) -> Answer {
        Answer::Written(Written::new(text, status))
    }
}

/// What is written about items, with a baseline that knows them where the user wants one. Nothing is new then, so a
/// status that says that something is found becomes 0.
///
/// # Errors
/// [`AllocError`] only where an allocation was refused.
pub fn written_with(
    alloc: Global,
    choice: Choice<'_>,
    items: &[Item<'_>],
    text: Vec<u8>,
    status: u8,
) -> Result<Written, AllocError>
    ensures text { IfOk result (λ written. written.text ≡ text) }
    ensures status { IfOk result (λ written. written.status
        ≡ (if choice.entry.writes && status == 4 then 0 else status)) }
{
    if !choice.writes {
        return Ok(Written::new(text, status));
    }
    let baseline = baseline_text(alloc, items, choice.baseline)?;
    Ok(Written {
        text,
        status: if status == SOMETHING { 0 } else { status },
        baseline: Some(baseline),
    })
}
