//! The recording replayed, in words.
use crate::events::{push_command_words, push_count, push_numbered};
use crate::refusals::{NEXT_LINE, push_full, push_refusal, subject_of};
use crate::told::{Context, history_of};
use rev_commands::Command;
use rev_desk::Reply;
use rev_fields::push_number;
use rev_prompt::{Step, Tally};
use std::alloc::{AllocError, Global};

const PAUSE: &[u8] = b"a break stands here: `continue` goes on\n";

// Adds a command that was carried out, and the event that it names or took back.
fn push_done(
    text: &mut Vec<u8>,
    alloc: Global,
    told: Context<'_>,
    command: &Command,
    number: Option<u32>,
) -> Result<(), AllocError> {
    push_command_words(text, alloc, command)?;
    let Some(number) = number else {
        return Ok(());
    };
    text.extend_from_slice(b": ")?;
    push_numbered(text, history_of(told), number)
}

// Adds a command of the recording and what came of it.
pub(crate) fn push_step(
    text: &mut Vec<u8>,
    alloc: Global,
    told: Context<'_>,
    step: Step,
) -> Result<(), AllocError> {
    let history = history_of(told);
    if let Some(Reply::Accepted(number, _)) = step.reply
        && history.event(number).is_some()
    {
        return push_numbered(text, history, number);
    }
    let Some(turn) = told.session.turns.get(step.at) else {
        return Ok(());
    };
    match step.reply {
        Some(Reply::Refused(refusal)) => {
            let subject = subject_of(told, turn.command);
            push_refusal(text, alloc, told, refusal, subject, NEXT_LINE)
        }
        Some(_) => push_done(text, alloc, told, turn.command, step.number),
        None => push_full(text),
    }
}

/// Adds what came of `run`, in a line.
pub(crate) fn push_tally(
    text: &mut Vec<u8>,
    alloc: Global,
    told: Context<'_>,
    tally: Tally,
    paused: bool,
) -> Result<(), AllocError> {
    text.extend_from_slice(b"run: ")?;
    push_count(text, tally.said)?;
    match tally.first {
        None => text.extend_from_slice(b", none refused")?,
        Some(first) => {
            text.extend_from_slice(b", ")?;
            push_number(text, tally.refused)?;
            text.extend_from_slice(b" refused; the first: ")?;
            push_step(text, alloc, told, first)?;
        }
    }
    text.push(b'\n')?;
    push_running(text, tally.running)?;
    if paused {
        text.extend_from_slice(PAUSE)?;
    }
    Ok(())
}

// Adds that commands run where the recording ends.
fn push_running(text: &mut Vec<u8>, running: u64) -> Result<(), AllocError> {
    if running == 0 {
        return Ok(());
    }
    text.extend_from_slice(b"the recording ends while ")?;
    push_number(text, running)?;
    text.extend_from_slice(if running == 1 {
        b" command runs: the answers are of the others\n"
    } else {
        b" commands run: the answers are of the others\n"
    })
}

/// Adds commands of the recording, a line each.
pub(crate) fn push_steps(
    text: &mut Vec<u8>,
    alloc: Global,
    told: Context<'_>,
    steps: &[Step],
    ended: bool,
    paused: bool,
) -> Result<(), AllocError> {
    for step in steps {
        push_step(text, alloc, told, *step)?;
        text.push(b'\n')?;
    }
    if ended {
        text.extend_from_slice(b"the recording ends here\n")?;
    }
    if paused {
        text.extend_from_slice(PAUSE)?;
    }
    Ok(())
}
