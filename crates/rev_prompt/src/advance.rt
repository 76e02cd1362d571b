//! The recording replayed, command by command.
use crate::answers::{Answer, Step, Tally};
use crate::commands::{event_of, say};
use crate::session::Session;
use rev_commands::Command;
use rev_desk::{Desk, Reply};
use rev_paths::Name;
use rev_runs::{is_of_edge, runs};
use std::alloc::{AllocError, Global};

// Says the command at a place; nothing where none is left.
fn take(session: &Session<'_>, desk: &mut Desk, at: usize) -> Result<Option<Step>, AllocError> {
    let Some(turn) = session.turns.get(at) else {
        return Ok(None);
    };
    let command = turn.command.copy()?;
    let number = event_of(desk, turn.command);
    let reply = say(desk, turn.lane, command)?;
    Ok(Some(Step { at, number, reply }))
}

// Whether a command was carried out.
fn is_done(step: Step) -> bool {
    matches!(
        step.reply,
        Some(Reply::Accepted(_, _)) | Some(Reply::Coned(_, _))
    )
}

// How many commands of edges run, where all commands of the recording were said.
fn running_count(
    alloc: Global,
    session: &Session<'_>,
    desk: &Desk,
    taken: usize,
) -> Result<u64, AllocError> {
    if taken < session.turns.len() {
        return Ok(0);
    }
    let mut count = 0u64;
    for run in &runs(alloc, desk.history())? {
        if run.kept && run.ended.is_none() {
            count = count.saturating_add(1);
        }
    }
    Ok(count)
}

/// `run`: says what is left of the recording, up to a break.
pub(crate) fn run(
    alloc: Global,
    session: &Session<'_>,
    desk: &mut Desk,
) -> Result<(Answer, usize), AllocError> {
    let mut tally = Tally {
        said: 0,
        refused: 0,
        first: None,
        running: 0,
    };
    let mut taken = session.taken;
    for at in session.taken..session.turns.len() {
        if desk.paused() {
            break;
        }
        let Some(step) = take(session, desk, at)? else {
            break;
        };
        taken = at + 1;
        tally.said = tally.said.saturating_add(1);
        if !is_done(step) {
            tally.refused = tally.refused.saturating_add(1);
            tally.first = tally.first.or(Some(step));
        }
    }
    tally.running = running_count(alloc, session, desk, taken)?;
    Ok((Answer::Run(tally, desk.paused()), taken))
}

/// `next N`: says so many commands of the recording.
pub(crate) fn advance(
    alloc: Global,
    session: &Session<'_>,
    desk: &mut Desk,
    count: u32,
) -> Result<(Answer, usize), AllocError> {
    let mut steps = Vec::new(alloc);
    let mut taken = session.taken;
    let mut ended = false;
    for _ in 0..count {
        if desk.paused() {
            break;
        }
        let Some(step) = take(session, desk, taken)? else {
            ended = true;
            break;
        };
        steps.push(step)?;
        taken = taken.saturating_add(1);
    }
    Ok((Answer::Steps(steps, ended, desk.paused()), taken))
}

// Whether a command is an event of an edge.
fn is_event_of(desk: &Desk, command: &Command, edge: u32) -> bool {
    match command {
        Command::Event(event) => is_of_edge(desk.history().graph(), event, edge),
        _ => false,
    }
}

/// `until OUT`: says what is left of the recording up to an event of this edge.
pub(crate) fn until(
    alloc: Global,
    session: &Session<'_>,
    desk: &mut Desk,
    out: &Name,
) -> Result<(Answer, usize), AllocError> {
    let Some(edge) = desk.history().graph().producer(out) else {
        return Ok((Answer::NoOutput(out.copy()?), session.taken));
    };
    let mut steps = Vec::new(alloc);
    let mut taken = session.taken;
    for at in session.taken..session.turns.len() {
        if desk.paused() {
            return Ok((Answer::Steps(steps, false, true), taken));
        }
        let Some(step) = take(session, desk, at)? else {
            break;
        };
        taken = at + 1;
        if is_event_of(desk, session.turns[at].command, edge) {
            steps.push(step)?;
            return Ok((Answer::Steps(steps, false, desk.paused()), taken));
        }
    }
    Ok((Answer::Steps(steps, true, desk.paused()), taken))
}
