//! The lines of a report.
ghost use Rattle.std.specs.Prelude.{◌≡◌, ◌++◌, IfOk, OnOk, Some};
ghost use Rattle.std.specs.Option.{option_copied};
ghost use Rattle.rev_script.specs.Lines.{close_line, fault_line, graph_fault_line, kept_line, path_text, refused_line};

use rev_events::Event;
use rev_fields::{push_field, push_number};
use rev_paths::Name;
use rev_trace::push_event;
use std::alloc::{AllocError, Global};

/// The line of a kept event.
pub fn kept_line(alloc: Global, number: u32, event: &Event) -> Result<Vec<u8>, AllocError>
    ensures { IfOk result (λ line. line.items ≡ kept_line number (Some event.now)) }
{
    let mut line = Vec::from_slice(alloc, b"kept ")?;
    push_number(&mut line, u64::from(number))?;
    line.extend_from_slice(b" ")?;
    push_event(&mut line, event)?;
    line.extend_from_slice(b"\n")?;
    Ok(line)
}

/// The line of a refused question.
pub fn refused_line(alloc: Global, code: u16) -> Result<Vec<u8>, AllocError>
    ensures { IfOk result (λ line. line.items ≡ refused_line code) }
{
    let mut line = Vec::from_slice(alloc, b"refused ")?;
    push_number(&mut line, u64::from(code))?;
    line.extend_from_slice(b"\n")?;
    Ok(line)
}

/// The line of a fault in a named text.
pub(crate) fn fault_line(
    alloc: Global,
    what: &[u8],
    line: u64,
    code: u16,
) -> Result<Vec<u8>, AllocError>
    ensures { IfOk result (λ text. text.items ≡ fault_line what.now line code) }
{
    let mut text = Vec::from_slice(alloc, b"fault ")?;
    text.extend_from_slice(what)?;
    text.extend_from_slice(b" ")?;
    push_number(&mut text, line)?;
    text.extend_from_slice(b" ")?;
    push_number(&mut text, u64::from(code))?;
    text.extend_from_slice(b"\n")?;
    Ok(text)
}

// Adds a path behind a space, if there is one.
fn push_path(line: &mut Vec<u8>, path: Option<&Name>) -> Result<(), AllocError>
    ensures { OnOk result (line.new.items ≡ line.old.items ++ path_text (option_copied path.entry)) }
{
    let Some(path) = path else {
        return Ok(());
    };
    line.extend_from_slice(b" ")?;
    push_field(line, path.as_bytes())
}

/// The line of a fault of a graph, with the path that the fault names, if any.
pub(crate) fn graph_fault_line(
    alloc: Global,
    code: u16,
    path: Option<&Name>,
) -> Result<Vec<u8>, AllocError>
    ensures { IfOk result (λ text. text.items ≡ graph_fault_line code (option_copied path.entry)) }
{
    let mut text = Vec::from_slice(alloc, b"fault graph ")?;
    push_number(&mut text, u64::from(code))?;
    push_path(&mut text, path)?;
    text.extend_from_slice(b"\n")?;
    Ok(text)
}

/// The line of a fault of lanes on threads.
pub fn close_line(alloc: Global, code: u16, lane: u32) -> Result<Vec<u8>, AllocError>
    ensures { IfOk result (λ text. text.items ≡ close_line code lane) }
{
    let mut text = Vec::from_slice(alloc, b"fault close ")?;
    push_number(&mut text, u64::from(code))?;
    text.extend_from_slice(b" ")?;
    push_number(&mut text, u64::from(lane))?;
    text.extend_from_slice(b"\n")?;
    Ok(text)
}
