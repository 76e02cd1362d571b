//! Why an edge runs, in words.
use crate::by_dyndep::{Side, file_by, push_by};
use crate::edges::push_edge;
use crate::events::push_numbered;
use crate::runs::push_span;
use crate::told::{Context, history_of};
use crate::words::push_not_run;
use rev_dirty::Reason;
use rev_paths::Name;
use rev_prompt::{Because, Span, Way};
use rev_shown::push_shown;
use std::alloc::AllocError;

// The words before the output, between it and the input, and behind both.
fn reason_parts(reason: Reason) -> (&'static [u8], &'static [u8], &'static [u8]) {
    match reason {
        Reason::Missing(_) => (b"", b" is missing", b""),
        Reason::NoDeps => (b"there is no list of what its command read", b"", b""),
        Reason::DepsOld => (
            b"the list of what its command read is older than its output",
            b"",
            b"",
        ),
        Reason::Rebuilt(_) => (b"", b"", b" was made anew"),
        Reason::MissingDep(_) => (b"", b"", b", which its command read, is missing"),
        Reason::Older(_, _) => (b"", b" is older than ", b""),
        Reason::NoRecord(_) => (b"the build log has no record of ", b"", b""),
        Reason::Command(_) => (b"", b" was made by another command", b""),
    }
}

/// Adds a path of an edge, where there is one, with the dyndep file by which the edge has it.
pub(crate) fn push_path(
    text: &mut Vec<u8>,
    told: Context<'_>,
    edge: u32,
    side: Side,
    path: Option<&Name>,
) -> Result<(), AllocError> {
    let Some(path) = path else {
        return Ok(());
    };
    push_shown(text, path.as_bytes())?;
    push_by(text, file_by(told, edge, side, path))
}

/// Adds a reason of an edge.
pub(crate) fn push_reason(
    text: &mut Vec<u8>,
    told: Context<'_>,
    edge: u32,
    because: &Because,
) -> Result<(), AllocError> {
    let (before, between, behind) = reason_parts(because.reason);
    text.extend_from_slice(before)?;
    push_path(text, told, edge, Side::Output, because.output.as_ref())?;
    text.extend_from_slice(between)?;
    push_path(text, told, edge, Side::Input, because.input.as_ref())?;
    text.extend_from_slice(behind)
}

// The output that a reason says to be missing.
fn missing_of(because: Option<&Because>) -> Option<u64> {
    match because {
        Some(because) => match because.reason {
            Reason::Missing(output) => Some(output),
            _ => None,
        },
        None => None,
    }
}

// The place of the first of these reasons from a place on that says no lower output than this one to be missing.
fn missing_from(reasons: &[Because], place: usize, output: u64) -> usize {
    let mut at = place;
    for _ in place..reasons.len() {
        match missing_of(reasons.get(at)) {
            Some(missing) if missing < output => at = at.saturating_add(1),
            _ => break,
        }
    }
    at
}

// Adds reasons of an edge, a line each. Those of missing outputs stand first, by the places of the outputs, and so do
// those of older ones: of an output that is missing it is not told that it is older than an input.
fn push_reasons(
    text: &mut Vec<u8>,
    told: Context<'_>,
    edge: u32,
    reasons: &[Because],
) -> Result<(), AllocError> {
    let mut at = 0;
    for because in reasons {
        if let Reason::Older(output, _) = because.reason {
            at = missing_from(reasons, at, output);
            if missing_of(reasons.get(at)) == Some(output) {
                continue;
            }
        }
        text.extend_from_slice(b"  ")?;
        push_reason(text, told, edge, because)?;
        text.push(b'\n')?;
    }
    Ok(())
}

// Adds the way from an edge to its reasons, and these.
fn push_way(text: &mut Vec<u8>, told: Context<'_>, way: &Way) -> Result<(), AllocError> {
    let graph = history_of(told).graph();
    for step in &way.steps {
        text.extend_from_slice(b"  ")?;
        push_edge(text, graph, step.edge)?;
        text.extend_from_slice(b" waits for ")?;
        push_path(text, told, step.edge, Side::Input, step.input.as_ref())?;
        text.extend_from_slice(b", which is to be made\n")?;
    }
    if way.reasons.is_empty() {
        return text.extend_from_slice(b"  nothing\n");
    }
    push_reasons(text, told, way.last, &way.reasons)
}

/// Adds why an edge runs, or ran.
pub(crate) fn push_why(
    text: &mut Vec<u8>,
    told: Context<'_>,
    path: &Name,
    run: Option<Span>,
    plan: Option<u32>,
    way: &Way,
) -> Result<(), AllocError> {
    let history = history_of(told);
    if let Some(run) = run {
        push_span(text, history, run)?;
        text.push(b'\n')?;
    } else {
        push_not_run(text, told, path)?;
    }
    if let Some(plan) = plan {
        text.extend_from_slice(b"at ")?;
        push_numbered(text, history, plan)?;
        text.extend_from_slice(b" it was to run, since\n")?;
    } else if way.reasons.is_empty() {
        return text.extend_from_slice(b"no plan wants it now: `marks` shows what it is\n");
    } else {
        text.extend_from_slice(b"it is to run, since\n")?;
    }
    push_way(text, told, way)
}
