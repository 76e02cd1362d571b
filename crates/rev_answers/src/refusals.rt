//! Refusals in words.
use crate::causes::push_through;
use crate::edges::push_edge;
use crate::events::{push_command_words, push_numbered};
use crate::meant::push_meant;
use crate::told::{Context, history_of};
use rev_cells::Cell;
use rev_commands::{Command, Which};
use rev_events::{Event, Refusal};
use rev_fields::push_number;
use rev_held::dependence;
use rev_paths::Name;
use rev_prompt::input_at;
use rev_sentences::meaning;
use rev_shown::{first_output, push_shown};
use std::alloc::{AllocError, Global};

/// What was refused.
#[derive(Clone, Copy)]
pub(crate) enum Subject<'a> {
    /// Something about the event of this number.
    Event(u32),
    /// Another command.
    Command(&'a Command),
    /// A question that names nothing.
    Nothing,
}

// What the command with this name of an event is about.
fn subject_named<'a>(told: Context<'_>, which: Which, command: &'a Command) -> Subject<'a> {
    match told.desk.named(which) {
        Some(number) => Subject::Event(number),
        None => Subject::Command(command),
    }
}

/// What a command is about.
pub(crate) fn subject_of<'a>(told: Context<'_>, command: &'a Command) -> Subject<'a> {
    match command {
        Command::Undo(which) | Command::Redo(which) | Command::Cone(which) => {
            subject_named(told, *which, command)
        }
        Command::Event(_)
        | Command::Back
        | Command::Break(_)
        | Command::Unbreak(_)
        | Command::Continue => Subject::Command(command),
    }
}

// The event that a subject is about.
fn event_of<'a>(told: Context<'a>, subject: Subject<'a>) -> Option<&'a Event> {
    match subject {
        Subject::Event(number) => history_of(told).event(number),
        Subject::Command(Command::Event(event)) => Some(event),
        _ => None,
    }
}

// The output that an event names.
fn out_of(event: &Event) -> Option<&Name> {
    match event {
        Event::Start { out, .. }
        | Event::Finish { out, .. }
        | Event::Fail { out, .. }
        | Event::Abort { out, .. }
        | Event::Clean { out }
        | Event::Pass { out } => Some(out),
        Event::Touch { path, .. } => Some(path),
        Event::Plan(_) | Event::Interrupt | Event::Resize { .. } => None,
    }
}

// Adds a path behind a colon.
fn push_path(text: &mut Vec<u8>, path: Option<&Name>) -> Result<(), AllocError> {
    match path {
        Some(path) => {
            text.extend_from_slice(b": ")?;
            push_shown(text, path.as_bytes())
        }
        None => Ok(()),
    }
}

// Adds a number behind a colon.
fn push_colon(text: &mut Vec<u8>, number: u64) -> Result<(), AllocError> {
    text.extend_from_slice(b": ")?;
    push_number(text, number)
}

// The edge that an event names.
fn edge_of(told: Context<'_>, event: Option<&Event>) -> Option<u32> {
    let out = out_of(event?)?;
    history_of(told).graph().producer(out)
}

// The input of an event's edge at a position.
fn input_of<'a>(told: Context<'a>, event: Option<&Event>, position: u64) -> Option<&'a Name> {
    let history = history_of(told);
    let edge = edge_of(told, event)?;
    input_at(history.graph(), history.cells(), edge, position)
}

// The target of a plan at a position.
fn target_of<'a>(event: Option<&'a Event>, position: u64) -> Option<&'a Name> {
    match event {
        Some(Event::Plan(targets)) => targets.as_slice().get(position as usize),
        _ => None,
    }
}

// Adds an edge behind a colon.
fn push_named_edge(text: &mut Vec<u8>, told: Context<'_>, edge: u32) -> Result<(), AllocError> {
    push_path(text, first_output(history_of(told).graph(), edge))
}

// Adds the later event that is in the way, and how it rests on the one that is asked about.
fn push_later(
    text: &mut Vec<u8>,
    told: Context<'_>,
    subject: Subject<'_>,
    later: u32,
) -> Result<(), AllocError> {
    let history = history_of(told);
    text.extend_from_slice(b": ")?;
    push_numbered(text, history, later)?;
    let Subject::Event(number) = subject else {
        return Ok(());
    };
    if history.footprint_of(number).is_none() {
        return Ok(());
    }
    push_through(text, history.graph(), dependence(history, number, later))
}

// The refusal that a redo was refused by, where it carries one number at most.
fn refusal_now(code: u16, first: Option<u64>) -> Option<Refusal> {
    let first = first?;
    let edge = match u32::try_from(first) {
        Ok(edge) => edge,
        Err(_) => return None,
    };
    match code {
        50 => Some(Refusal::StillRunning(edge)),
        51 => Some(Refusal::UnknownTarget(first)),
        53 => Some(Refusal::DepsCycle(edge)),
        68 => Some(Refusal::Blocked(first)),
        72 => Some(Refusal::JobBusy(edge)),
        74 => Some(Refusal::SlotBusy(edge)),
        75 => Some(Refusal::WrongOutputs(first)),
        _ => None,
    }
}

// Adds the edge and the path, or the event, that a refusal names; of a redo what the refusal names that it was refused
// by.
fn push_details(
    text: &mut Vec<u8>,
    alloc: Global,
    told: Context<'_>,
    refusal: Refusal,
    subject: Subject<'_>,
) -> Result<(), AllocError> {
    let Refusal::NotNow {
        refusal: code,
        first,
    } = refusal
    else {
        return push_named(text, alloc, told, refusal, subject);
    };
    push_meaning_of(text, code)?;
    match refusal_now(code, first) {
        Some(refusal) => push_named(text, alloc, told, refusal, subject),
        None => Ok(()),
    }
}

// The same of a refusal that is no redo's.
fn push_named(
    text: &mut Vec<u8>,
    alloc: Global,
    told: Context<'_>,
    refusal: Refusal,
    subject: Subject<'_>,
) -> Result<(), AllocError> {
    let event = event_of(told, subject);
    match refusal {
        Refusal::StillRunning(edge)
        | Refusal::DepsCycle(edge)
        | Refusal::JobBusy(edge)
        | Refusal::SlotBusy(edge) => push_named_edge(text, told, edge),
        Refusal::MissingInput(position, edge) => {
            let history = history_of(told);
            let input = input_at(history.graph(), history.cells(), edge, position);
            push_path(text, input)?;
            text.extend_from_slice(b", an input of ")?;
            push_edge(text, history.graph(), edge)
        }
        Refusal::DepthInUse(slot, edge) => {
            push_colon(text, u64::from(slot))?;
            text.extend_from_slice(b", which has ")?;
            push_edge(text, history_of(told).graph(), edge)
        }
        Refusal::UnknownTarget(position) => push_unknown(
            text,
            alloc,
            told,
            target_of(event, position),
        ),
        Refusal::NoSuchEdge => match event {
            Some(event) => push_unknown(text, alloc, told, out_of(event)),
            None => Ok(()),
        },
        Refusal::Blocked(position) => push_path(text, input_of(told, event, position)),
        Refusal::WrongOutputs(count) => push_colon(text, count),
        Refusal::Depfile(fault, at) => push_depfile(text, fault, at),
        Refusal::DependedOn(later) | Refusal::Overtaken(later) => {
            push_later(text, told, subject, later)
        }
        _ => Ok(()),
    }
}

/// What stands in the way of what is refused, as far as the refusal names it.
#[derive(Clone, Copy)]
pub(crate) struct Obstacle<'a> {
    /// An edge.
    pub(crate) edge: Option<u32>,
    /// A path.
    pub(crate) path: Option<&'a Name>,
    /// A later event.
    pub(crate) later: Option<u32>,
}

// An edge that stands in the way.
fn edge_obstacle<'a>(edge: u32) -> Obstacle<'a> {
    Obstacle {
        edge: Some(edge),
        path: None,
        later: None,
    }
}

/// The cell through which a later event that stands in the way rests on the one that is asked about, if one is named.
pub(crate) fn cell_between<'a>(
    told: Context<'a>,
    subject: Subject<'_>,
    later: Option<u32>,
) -> Option<&'a Cell> {
    match subject {
        Subject::Event(number) => dependence(history_of(told), number, later?),
        _ => None,
    }
}

// A path that stands in the way.
fn path_obstacle<'a>(path: Option<&'a Name>) -> Obstacle<'a> {
    Obstacle {
        edge: None,
        path,
        later: None,
    }
}

// What a refusal names that is not a redo's.
fn named_obstacle<'a>(
    told: Context<'a>,
    refusal: Refusal,
    event: Option<&'a Event>,
) -> Obstacle<'a> {
    let history = history_of(told);
    match refusal {
        Refusal::StillRunning(edge)
        | Refusal::DepsCycle(edge)
        | Refusal::JobBusy(edge)
        | Refusal::SlotBusy(edge)
        | Refusal::DepthInUse(_, edge) => edge_obstacle(edge),
        Refusal::MissingInput(position, edge) => Obstacle {
            edge: Some(edge),
            path: input_at(history.graph(), history.cells(), edge, position),
            later: None,
        },
        Refusal::UnknownTarget(position) => path_obstacle(target_of(event, position)),
        Refusal::NoSuchEdge => match event {
            Some(event) => path_obstacle(out_of(event)),
            None => path_obstacle(None),
        },
        Refusal::Blocked(position) => path_obstacle(input_of(told, event, position)),
        Refusal::DependedOn(later) | Refusal::Overtaken(later) => Obstacle {
            edge: None,
            path: None,
            later: Some(later),
        },
        _ => path_obstacle(None),
    }
}

/// What stands in the way where something is refused; of a redo what stands in the way of its event.
pub(crate) fn obstacle_of<'a>(
    told: Context<'a>,
    refusal: Refusal,
    subject: Subject<'a>,
) -> Obstacle<'a> {
    let event = event_of(told, subject);
    let Refusal::NotNow {
        refusal: code,
        first,
    } = refusal
    else {
        return named_obstacle(told, refusal, event);
    };
    match refusal_now(code, first) {
        Some(refusal) => named_obstacle(told, refusal, event),
        None => path_obstacle(None),
    }
}

// Adds a path that is no output, and what may have been meant.
fn push_unknown(
    text: &mut Vec<u8>,
    alloc: Global,
    told: Context<'_>,
    path: Option<&Name>,
) -> Result<(), AllocError> {
    push_path(text, path)?;
    match path {
        Some(path) => push_meant(text, alloc, told, path),
        None => Ok(()),
    }
}

// Adds the fault of a depfile.
fn push_depfile(text: &mut Vec<u8>, fault: u16, at: u64) -> Result<(), AllocError> {
    push_meaning_of(text, fault)?;
    text.extend_from_slice(b", at byte ")?;
    push_number(text, at)
}

// Adds what a number means, behind a colon.
fn push_meaning_of(text: &mut Vec<u8>, code: u16) -> Result<(), AllocError> {
    match meaning(u64::from(code)) {
        Some(words) => {
            text.extend_from_slice(b": ")?;
            text.extend_from_slice(words.as_bytes())
        }
        None => Ok(()),
    }
}

// What may be typed next, where that is the same for all.
fn next_of(refusal: Refusal) -> &'static str {
    match refusal {
        Refusal::StillRunning(_) => "`finish`, `fail` or `abort` it first",
        Refusal::MissingInput(_, _) => "`touch PATH N` says that it is there",
        Refusal::Phony => "`pass` it",
        Refusal::NotPhony | Refusal::Dirty(_) => "`start` it; `why OUT` tells its reasons",
        Refusal::Halted => "`plan` begins anew",
        Refusal::NotHalted => "`fail` it, or `interrupt` first",
        Refusal::NotWanted => "`marks` shows what it is",
        Refusal::NotRunning => "`start` it first",
        Refusal::Blocked(_) => "`who OUT` tells how far that one is",
        Refusal::NotDirty => "`clean` it",
        Refusal::JobBusy(_) | Refusal::SlotBusy(_) => "take another, or finish that command first",
        Refusal::NoSuchEvent => "`kept` lists events",
        Refusal::NothingKept => "`run` replays the recording",
        Refusal::Paused => "`continue` goes on",
        _ => "",
    }
}

// Adds a command with a number, between backquotes.
fn push_typed(text: &mut Vec<u8>, word: &[u8], number: u32) -> Result<(), AllocError> {
    text.extend_from_slice(b"`")?;
    text.extend_from_slice(word)?;
    push_number(text, u64::from(number))?;
    text.extend_from_slice(b"`")
}

// Adds what may be typed next, behind what stands between a refusal and that.
fn push_next(
    text: &mut Vec<u8>,
    refusal: Refusal,
    subject: Subject<'_>,
    between: &[u8],
) -> Result<(), AllocError> {
    match (refusal, subject) {
        (Refusal::DependedOn(later), Subject::Event(number)) => {
            text.extend_from_slice(between)?;
            push_typed(text, b"undo ", later)?;
            text.extend_from_slice(b" first, or ")?;
            push_typed(text, b"cone ", number)
        }
        (Refusal::Overtaken(later), _) => {
            text.extend_from_slice(between)?;
            push_typed(text, b"undo ", later)?;
            text.extend_from_slice(b" first")
        }
        (Refusal::NotKept, Subject::Event(number)) => {
            text.extend_from_slice(between)?;
            push_typed(text, b"redo ", number)?;
            text.extend_from_slice(b" puts it back")
        }
        (Refusal::AlreadyKept, Subject::Event(number)) => {
            text.extend_from_slice(between)?;
            push_typed(text, b"undo ", number)?;
            text.extend_from_slice(b" takes it back")
        }
        _ => push_general(text, next_of(refusal), between),
    }
}

// Adds what may be typed next, where there is something.
fn push_general(text: &mut Vec<u8>, next: &str, between: &[u8]) -> Result<(), AllocError> {
    if next.is_empty() {
        return Ok(());
    }
    text.extend_from_slice(between)?;
    text.extend_from_slice(next.as_bytes())
}

// Adds what was refused.
fn push_subject(
    text: &mut Vec<u8>,
    alloc: Global,
    told: Context<'_>,
    subject: Subject<'_>,
) -> Result<(), AllocError> {
    match subject {
        Subject::Event(number) => push_numbered(text, history_of(told), number)?,
        Subject::Command(command) => push_command_words(text, alloc, command)?,
        Subject::Nothing => return Ok(()),
    }
    text.extend_from_slice(b": ")
}

/// Adds that something was refused: what, why by the words of docs/CODES.md, the edge, path or event that is named, the
/// number of the refusal, and, behind what stands between, what may be typed next.
pub(crate) fn push_refusal(
    text: &mut Vec<u8>,
    alloc: Global,
    told: Context<'_>,
    refusal: Refusal,
    subject: Subject<'_>,
    between: &[u8],
) -> Result<(), AllocError> {
    text.extend_from_slice(b"refused: ")?;
    push_subject(text, alloc, told, subject)?;
    if let Some(words) = meaning(u64::from(refusal.code())) {
        text.extend_from_slice(words.as_bytes())?;
    }
    push_details(text, alloc, told, refusal, subject)?;
    text.extend_from_slice(b" (")?;
    push_number(text, u64::from(refusal.code()))?;
    text.extend_from_slice(b")")?;
    push_next(text, refusal, subject, between)
}

/// What stands in words between a refusal and what may be typed next.
pub(crate) const NEXT_LINE: &[u8] = b"\n  ";

/// The number of a journal that is full.
pub(crate) const FULL: u16 = 94;

/// Adds that the journal is full.
pub(crate) fn push_full(text: &mut Vec<u8>) -> Result<(), AllocError> {
    text.extend_from_slice(b"refused: the journal is full (94)")
}
