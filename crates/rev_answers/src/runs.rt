//! When commands ran, in words.
use crate::events::push_numbered;
use crate::times::push_took;
use crate::told::{Context, history_of};
use crate::words::push_not_run;
use rev_history::History;
use rev_paths::Name;
use rev_prompt::Span;
use std::alloc::AllocError;

/// Adds when a command ran, as `3 start a.o (job 0) to 7 finish a.o`.
pub(crate) fn push_span(
    text: &mut Vec<u8>,
    history: &History,
    span: Span,
) -> Result<(), AllocError> {
    push_numbered(text, history, span.began)?;
    match span.ended {
        Some(ended) => {
            text.extend_from_slice(b" to ")?;
            push_numbered(text, history, ended)
        }
        None => text.extend_from_slice(b", which did not end"),
    }
}

/// Adds which commands ran while another did.
pub(crate) fn push_with(
    text: &mut Vec<u8>,
    told: Context<'_>,
    path: &Name,
    run: Option<Span>,
    others: &[Span],
) -> Result<(), AllocError> {
    let history = history_of(told);
    let Some(run) = run else {
        return push_not_run(text, told, path);
    };
    push_span(text, history, run)?;
    push_took(text, told, run)?;
    text.extend_from_slice(b"; at the same time ran\n")?;
    for other in others {
        text.extend_from_slice(b"  ")?;
        push_span(text, history, *other)?;
        push_took(text, told, *other)?;
        text.push(b'\n')?;
    }
    if others.is_empty() {
        text.extend_from_slice(b"  nothing else\n")?;
    }
    Ok(())
}
