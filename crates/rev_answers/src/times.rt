//! When events happened, in words.
use crate::told::Context;
use rev_fields::push_number;
use rev_prompt::{Span, time_at};
use std::alloc::AllocError;

/// How many milliseconds a run took, where that is known.
pub(crate) fn took(told: Context<'_>, span: Span) -> Option<u32> {
    let from = time_at(told.session.times, span.began)?;
    let to = time_at(told.session.times, span.ended?)?;
    Some(to.saturating_sub(from))
}

/// Adds a time, as `58 ms`.
pub(crate) fn push_milliseconds(text: &mut Vec<u8>, time: u32) -> Result<(), AllocError> {
    push_number(text, u64::from(time))?;
    text.extend_from_slice(b" ms")
}

/// Adds when an event happened, as `, at 58 ms`, where that is known.
pub(crate) fn push_at(
    text: &mut Vec<u8>,
    told: Context<'_>,
    number: u32,
) -> Result<(), AllocError> {
    match time_at(told.session.times, number) {
        Some(time) => {
            text.extend_from_slice(b", at ")?;
            push_milliseconds(text, time)
        }
        None => Ok(()),
    }
}

/// Adds how long a run took, as `, 58 ms`, where that is known.
pub(crate) fn push_took(
    text: &mut Vec<u8>,
    told: Context<'_>,
    span: Span,
) -> Result<(), AllocError> {
    match took(told, span) {
        Some(time) => {
            text.extend_from_slice(b", ")?;
            push_milliseconds(text, time)
        }
        None => Ok(()),
    }
}
