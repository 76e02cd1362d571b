//! Commands that are typed.
ghost use Rattle.std.specs.Prelude.{◌≡◌, None, Some, IfErr, IfOk, OnOk};
ghost use Rattle.rev_history.specs.Timeline.{cone_numbers, cone_refusal};
ghost use Rattle.rev_prompt.specs.Cones.{IsWouldCone};

use crate::answers::Answer;
use crate::session::Session;
use rev_commands::{Command, Which};
use rev_desk::{Desk, Reply, Unsaid, Why};
use rev_events::Refusal;
use rev_history::History;
use rev_looked::{User, users};
use rev_paths::Name;
use rev_runs::is_of_edge;
use std::alloc::{AllocError, Global};

// What kept a command from an entry.
fn why_of(unsaid: Unsaid) -> Why
    ensures { result ≡ unsaid.why }
{
    unsaid.why
}

/// Says a command to the desk; none where the journal has no room.
pub(crate) fn say(
    desk: &mut Desk,
    lane: u32,
    command: Command,
) -> Result<Option<Reply>, AllocError> {
    if lane >= desk.lanes() {
        return Ok(None);
    }
    match desk.apply(lane, command) {
        Ok(reply) => Ok(Some(reply)),
        Err(unsaid) => match why_of(unsaid) {
            Why::JournalFull => Ok(None),
            Why::Memory => Err(AllocError),
        },
    }
}

/// The event that a command names, or that `back` takes back.
pub(crate) fn event_of(desk: &Desk, command: &Command) -> Option<u32> {
    match command {
        Command::Back => desk.history().kept().last().copied(),
        Command::Undo(which) | Command::Redo(which) | Command::Cone(which) => desk.named(*which),
        _ => None,
    }
}

/// Says a typed command to the desk. `number` is the event that it names, if it names one.
pub(crate) fn apply(
    session: &Session<'_>,
    desk: &mut Desk,
    command: Command,
    number: Option<u32>,
) -> Result<Answer, AllocError> {
    let reply = say(desk, session.lane, command)?;
    Ok(Answer::Said(reply, number))
}

// Who was seen to look at what an event left; nobody where nothing was observed.
fn users_of(
    alloc: Global,
    session: &Session<'_>,
    history: &History,
    number: u32,
) -> Result<Vec<User>, AllocError> {
    match session.observation {
        Some(observation) => users(alloc, history, observation, session.edges, number),
        None => Ok(Vec::new(alloc)),
    }
}

// The same of an event that can be taken back; nobody where an undo would be refused.
fn users_if_undone(
    alloc: Global,
    session: &Session<'_>,
    history: &History,
    number: u32,
) -> Result<Vec<User>, AllocError> {
    if history.undo_refused(number).is_some() {
        return Ok(Vec::new(alloc));
    }
    users_of(alloc, session, history, number)
}

/// `undo EVENT`: takes an event back, and tells who was seen to look at what it left.
pub(crate) fn undo(
    alloc: Global,
    session: &Session<'_>,
    desk: &mut Desk,
    number: u32,
) -> Result<Answer, AllocError> {
    let users = users_if_undone(alloc, session, desk.history(), number)?;
    let reply = say(desk, session.lane, Command::Undo(Which::Number(number)))?;
    match reply {
        Some(Reply::Accepted(entry, met)) if !users.is_empty() => Ok(Answer::Undone(
            Reply::Accepted(entry, met),
            number,
            users,
        )),
        reply => Ok(Answer::Said(reply, Some(number))),
    }
}

// The events that a cone of an event would take, or why it would be refused.
fn cone_of(history: &History, number: u32) -> Result<Result<Vec<u32>, Refusal>, AllocError>
    ensures members { IfOk result (λ answer. IfOk answer (λ members.
        members.items ≡ cone_numbers number history.now.timeline)) }
    ensures free { IfOk result (λ answer. OnOk answer (cone_refusal history.now.timeline number ≡ None)) }
    ensures refused { IfOk result (λ answer. IfErr answer (λ refusal.
        cone_refusal history.now.timeline number ≡ Some refusal)) }
{
    match history.cone_refused(number) {
        Some(refusal) => Ok(Err(refusal)),
        None => Ok(Ok(history.members(number)?)),
    }
}

/// `would cone EVENT`: what a cone would take, without doing it: exactly its members, or why it would be refused.
///
/// # Errors
/// [`AllocError`] only where an allocation was refused.
pub fn would_cone(history: &History, number: u32) -> Result<Answer, AllocError>
    ensures { IfOk result (λ answer. IsWouldCone history.now.timeline number answer) }
{
    match cone_of(history, number)? {
        Err(refusal) => Ok(Answer::Said(Some(Reply::Refused(refusal)), Some(number))),
        Ok(members) => Ok(Answer::WouldCone(number, members)),
    }
}

// Undoes an event with all that rests on it: what was undone, or the reply where that was refused.
fn take_cone(
    session: &Session<'_>,
    desk: &mut Desk,
    number: u32,
) -> Result<Result<Vec<u32>, Option<Reply>>, AllocError> {
    let members = cone_of(desk.history(), number)?;
    let reply = say(desk, session.lane, Command::Cone(Which::Number(number)))?;
    match (reply, members) {
        (Some(Reply::Coned(_, _)), Ok(members)) => Ok(Ok(members)),
        (reply, _) => Ok(Err(reply)),
    }
}

/// `cone EVENT`: undoes an event with all that rests on it.
pub(crate) fn cone(
    session: &Session<'_>,
    desk: &mut Desk,
    number: u32,
) -> Result<Answer, AllocError> {
    match take_cone(session, desk, number)? {
        Ok(members) => Ok(Answer::Cone(number, members)),
        Err(reply) => Ok(Answer::Said(reply, Some(number))),
    }
}

// The first kept event of an edge.
fn first_of(history: &History, edge: u32) -> Option<u32> {
    for number in history.kept() {
        if let Some(event) = history.event(*number) {
            if is_of_edge(history.graph(), event, edge) {
                return Some(*number);
            }
        }
    }
    None
}

/// `without OUT`: undoes the events of an edge with all that rests on them.
pub(crate) fn without(
    alloc: Global,
    session: &Session<'_>,
    desk: &mut Desk,
    out: &Name,
) -> Result<Answer, AllocError> {
    let Some(edge) = desk.history().graph().producer(out) else {
        return Ok(Answer::NoOutput(out.copy()?));
    };
    let mut taken: Vec<u32> = Vec::new(alloc);
    for _ in 0..desk.history().kept().len() {
        let Some(number) = first_of(desk.history(), edge) else {
            break;
        };
        match take_cone(session, desk, number)? {
            Ok(members) => taken.extend_from_slice(&members)?,
            Err(reply) => return Ok(Answer::Said(reply, Some(number))),
        }
    }
    taken.sort_unstable();
    let left = desk.history().kept().len();
    Ok(Answer::Without(out.copy()?, taken, left))
}
