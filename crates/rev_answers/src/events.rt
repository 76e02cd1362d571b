//! Events in words.
use crate::moments::push_moment;
use rev_commands::Command;
use rev_events::Event;
use rev_fields::push_number;
use rev_history::History;
use rev_paths::Name;
use rev_shown::{push_event_words, push_shown};
use rev_trace::push_command;
use std::alloc::{AllocError, Global};

/// Whether an event is kept.
pub(crate) fn is_kept(history: &History, number: u32) -> bool {
    history.footprint_of(number).is_some()
}

// Adds a touch, with the time that it gives a file.
fn push_touch(text: &mut Vec<u8>, path: &Name, stamp: u64) -> Result<(), AllocError> {
    text.extend_from_slice(b"touch ")?;
    push_shown(text, path.as_bytes())?;
    text.extend_from_slice(b" (")?;
    push_moment(text, stamp)?;
    text.extend_from_slice(b")")
}

/// Adds an event in words, as `start app (job 0)`.
pub(crate) fn push_words(text: &mut Vec<u8>, event: &Event) -> Result<(), AllocError> {
    match event {
        Event::Touch { path, stamp } => push_touch(text, path, *stamp),
        event => push_event_words(text, event),
    }
}

/// Adds the number of an event and its words, as `7 start app (job 0)`; what is not kept is said to be undone.
pub(crate) fn push_numbered(
    text: &mut Vec<u8>,
    history: &History,
    number: u32,
) -> Result<(), AllocError> {
    push_number(text, u64::from(number))?;
    let Some(event) = history.event(number) else {
        return text.extend_from_slice(b" is no accepted event");
    };
    text.push(b' ')?;
    push_words(text, event)?;
    if !is_kept(history, number) {
        text.extend_from_slice(b" (undone)")?;
    }
    Ok(())
}

/// Adds events, a line each behind two spaces.
pub(crate) fn push_events(
    text: &mut Vec<u8>,
    history: &History,
    numbers: &[u32],
) -> Result<(), AllocError> {
    for number in numbers {
        text.extend_from_slice(b"  ")?;
        push_numbered(text, history, *number)?;
        text.push(b'\n')?;
    }
    Ok(())
}

/// Adds events, a line each.
pub(crate) fn push_list(
    text: &mut Vec<u8>,
    history: &History,
    numbers: &[u32],
) -> Result<(), AllocError> {
    for number in numbers {
        push_numbered(text, history, *number)?;
        text.push(b'\n')?;
    }
    Ok(())
}

/// Adds how many events there are.
pub(crate) fn push_count(text: &mut Vec<u8>, count: u64) -> Result<(), AllocError> {
    push_number(text, count)?;
    text.extend_from_slice(if count == 1 { b" event" } else { b" events" })
}

/// Adds a command: an event in words, and any other as a trace writes it.
pub(crate) fn push_command_words(
    text: &mut Vec<u8>,
    alloc: Global,
    command: &Command,
) -> Result<(), AllocError> {
    if let Command::Event(event) = command {
        return push_words(text, event);
    }
    let mut line = Vec::new(alloc);
    push_command(&mut line, command)?;
    push_visible(text, &line)
}

/// Adds lines. Visible bytes of ASCII, spaces and lines' ends stand for themselves, every other byte as `\x` and two
/// digits.
pub(crate) fn push_visible(text: &mut Vec<u8>, lines: &[u8]) -> Result<(), AllocError> {
    for at in 0..lines.len() {
        let byte = lines[at];
        if byte == b'\n' || (32 <= byte && byte < 127) {
            text.push(byte)?;
        } else {
            push_shown(text, &lines[at..at + 1])?;
        }
    }
    Ok(())
}
