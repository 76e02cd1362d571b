//! The comparison of two recordings.
use crate::facts::{facts_of, known_of};
use crate::json::comparison_json;
use crate::side::Side;
use crate::words::comparison_words;
use std::alloc::{AllocError, Global};

/// The form of an answer.
#[derive(Clone, Copy, PartialEq, Eq)]
pub enum Form {
    /// Words, a few entries of each section.
    Words,
    /// All words.
    AllWords,
    /// JSON objects, one a line.
    Json,
}

/// The comparison of two recordings.
#[derive(Drop)]
pub struct Compared {
    /// Its text.
    pub text: Vec<u8>,
    /// Whether nothing differs.
    pub is_alike: bool,
}

/// The comparison of two recordings, `one` as A and `other` as B: what the calls of `rev_compared` tell, in the form
/// that is asked for.
///
/// # Errors
/// [`AllocError`] only where an allocation was refused.
pub fn comparison<'a>(
    alloc: Global,
    one: Side<'a>,
    other: Side<'a>,
    form: Form,
) -> Result<Compared, AllocError> {
    let known = known_of(alloc, one, other)?;
    let (a, b) = (known.one(one), known.other(other));
    let facts = facts_of(alloc, a, b)?;
    let is_alike = facts.are_none();
    let text = match form {
        Form::Words => comparison_words(alloc, a, b, &facts, false)?.into_bytes(),
        Form::AllWords => comparison_words(alloc, a, b, &facts, true)?.into_bytes(),
        Form::Json => comparison_json(alloc, a, b, &facts)?,
    };
    Ok(Compared { text, is_alike })
}
