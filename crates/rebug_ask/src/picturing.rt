//! The picture of a recording.
ghost use Rattle.std.specs.Prelude.{◌≡◌, ◌+◌, ◌≤◌, length};

use crate::page::{HEAD, TAIL};
use crate::told::{command_count, leave, manifest_of, names_of, refuse, say, trace_of, write};
use rev_asking::Request;
use rev_bars::{Drawing, push_drawing};
use rev_conflicts::{Conflict, conflicts};
use rev_desk::Desk;
use rev_fields::number;
use rev_folder::{
    Observed, Recording, hidden_in, observed_in, place_of, read_filters, read_observed,
    read_recording, read_times, say_incomplete, times_in,
};
use rev_history::History;
use rev_manifest::Manifest;
use rev_paths::Name;
use rev_program::{ProgramFault, USAGE};
use rev_races::{Kind, Race, Story, races, stories};
use rev_races_text::Replayed;
use rev_recording::{RecordingFault, open, refused_count, replay};
use rev_runs::runs;
use rev_trace::Trace;
use std::alloc::{AllocError, Global};
use std::fs;
use std::rt::Files;

// How a picture is wanted.
#[derive(Clone, Copy)]
struct Wish {
    html: bool,
    event: Option<u32>,
}

/// The files of a recording that a picture or a timeline is made of.
pub struct DrawnFiles {
    /// The manifest's files and the trace.
    pub read: Recording,
    // The file `times`; empty where there is none.
    times: Vec<u8>,
    // The file `observed`, where there is one.
    observed: Option<Vec<u8>>,
    // The file `filters`, where there is one.
    filters: Option<Vec<u8>>,
}

// Written, since a derived drop is proved again at each exit of each caller.
impl Drop for DrawnFiles {
    fn drop(self) {
        let DrawnFiles {
            read: _read,
            times: _times,
            observed: _observed,
            filters: _filters,
        } = self;
    }
}

impl DrawnFiles {
    /// What is made of them, lent.
    pub fn lent(&self) -> Bytes<'_> {
        Bytes {
            read: &self.read,
            times: &self.times,
            observed: self.observed.as_deref(),
            filters: self.filters.as_deref(),
        }
    }
}

/// Reads the files of a recording that a picture or a timeline is made of.
///
/// # Errors
/// As [`read_recording`], and as [`read_times`] of the files beside the trace.
pub fn read_drawn<'a, R: Files + Eprint + AllocGlobal>(
    rt: &R,
    recording: &'a str,
) -> Result<DrawnFiles, ProgramFault<'a>> {
    let place = place_of(rt, recording);
    let read = read_recording(rt, recording, place)?;
    let times = read_times(rt, recording, place)?;
    let observed = read_observed(rt, recording, place)?;
    say_incomplete(rt, observed.as_deref())?;
    let filters = read_filters(rt, recording, place)?;
    Ok(DrawnFiles {
        read,
        times,
        observed,
        filters,
    })
}

/// What a picture or a timeline is made of, beside the desk of the recording.
#[derive(Clone, Copy)]
pub struct Bytes<'a> {
    /// The manifest's files and the trace.
    pub read: &'a Recording,
    /// The file `times`; empty where there is none.
    pub times: &'a [u8],
    /// The file `observed`, where there is one.
    pub observed: Option<&'a [u8]>,
    /// The file `filters`, where there is one.
    pub filters: Option<&'a [u8]>,
}

// What came of it.
enum Made {
    // The picture, and how much of the recording counts, a line for each reason why that is not all of it.
    Text(Vec<u8>, Vec<u8>),
    // The event is not kept.
    NoEvent(u32),
}

/// What was observed of a recording, and the conflicts of it.
pub struct Sight {
    /// What was observed.
    pub observed: Observed,
    /// The conflicts.
    pub conflicts: Vec<Conflict>,
}

// Written, since a derived drop is proved again at each exit of each caller.
impl Drop for Sight {
    fn drop(self) {
        let Sight {
            observed: _observed,
            conflicts: _conflicts,
        } = self;
    }
}

// Whether an event is kept, if one is wished for.
fn is_there(history: &History, event: Option<u32>) -> bool {
    match event {
        Some(event) => history.footprint_of(event).is_some(),
        None => true,
    }
}

// What was observed of a history, whose manifest was read from these files, and the conflicts of it.
fn sight_of(
    alloc: Global,
    history: &History,
    files: &[Name],
    bytes: &[u8],
    filters: Option<&[u8]>,
) -> Result<Sight, RecordingFault> {
    let graph = history.graph();
    let observed = observed_in(alloc, graph, bytes)?;
    let hidden = hidden_in(alloc, &observed.observation, filters)?;
    let conflicts = conflicts(
        alloc,
        graph,
        files,
        &observed.observation,
        &observed.edges,
        &hidden,
    )?;
    Ok(Sight {
        observed,
        conflicts,
    })
}

/// What was observed of a history, and the conflicts of it, where something was observed.
///
/// # Errors
/// [`RecordingFault::Observed`] where the bytes that were observed, or those of the filters, have a fault;
/// [`RecordingFault::Memory`] only where an allocation was refused.
pub fn maybe_sight_of(
    alloc: Global,
    history: &History,
    files: &[Name],
    bytes: Bytes<'_>,
) -> Result<Option<Sight>, RecordingFault> {
    match bytes.observed {
        Some(observed) => Ok(Some(sight_of(alloc, history, files, observed, bytes.filters)?)),
        None => Ok(None),
    }
}

/// The races and the cycles of a history whose manifest was read from these files, as they are drawn between two
/// commands. A path that its own command lists is of one.
///
/// # Errors
/// [`AllocError`] only where an allocation was refused.
pub fn races_of_two(
    alloc: Global,
    history: &History,
    files: &[Name],
) -> Result<Vec<Race>, AllocError> {
    let mut races = races(alloc, history, files)?;
    races.retain(|race| race.kind != Kind::Own);
    Ok(races)
}

// How many commands had not ended when the recording did.
fn running_count(alloc: Global, history: &History) -> Result<u64, AllocError> {
    let runs = runs(alloc, history)?;
    Ok(
        runs.iter()
            .filter(|run| run.kept && run.ended.is_none())
            .count() as u64,
    )
}

/// How much of a recording counts whose trace has so many commands, a line for each reason why that is not all of it.
///
/// # Errors
/// [`AllocError`] only where an allocation was refused.
pub fn replayed_text(alloc: Global, desk: &Desk, commands: u64) -> Result<Vec<u8>, AllocError> {
    let said = desk.journal().len() as u64;
    let replayed = Replayed {
        commands: said,
        left: commands.saturating_sub(said),
        refused: refused_count(desk),
        running: running_count(alloc, desk.history())?,
    };
    let text = format!(in alloc; "{replayed}")?;
    Ok(text.into_bytes())
}

// The text of a drawing.
fn text_of(alloc: Global, drawing: &Drawing<'_>, html: bool) -> Result<Vec<u8>, AllocError> {
    let mut text = Vec::new(alloc);
    if html {
        text.extend_from_slice(HEAD)?;
    }
    push_drawing(alloc, &mut text, drawing)?;
    if html {
        text.extend_from_slice(TAIL)?;
    }
    Ok(text)
}

// The picture of a history with its races and what was observed.
fn drawn_races(
    alloc: Global,
    desk: &Desk,
    times: &[Option<u32>],
    races: &[Race],
    stories: &[Story],
    sight: Option<&Sight>,
    replayed: &[u8],
    wish: Wish,
) -> Result<Vec<u8>, AllocError> {
    let conflicts: &[Conflict] = match sight {
        Some(sight) => &sight.conflicts,
        None => &[],
    };
    let drawing = Drawing {
        history: desk.history(),
        races,
        stories,
        observation: match sight {
            Some(sight) => Some(&sight.observed.observation),
            None => None,
        },
        conflicts,
        replayed,
        times,
        event: wish.event,
    };
    text_of(alloc, &drawing, wish.html)
}

// The picture of the desk of a recording that was replayed.
fn drawn_desk(
    alloc: Global,
    bytes: Bytes<'_>,
    desk: &Desk,
    files: &[Name],
    sight: Option<&Sight>,
    replayed: &[u8],
    wish: Wish,
) -> Result<Vec<u8>, AllocError> {
    let races = races_of_two(alloc, desk.history(), files)?;
    let stories = stories(alloc, desk.history(), &races)?;
    let times = times_in(alloc, desk, bytes.times)?;
    drawn_races(alloc, desk, &times, &races, &stories, sight, replayed, wish)
}

// The picture of the desk of a recording that was replayed, whose trace has so many commands.
fn drawn_replayed(
    alloc: Global,
    bytes: Bytes<'_>,
    desk: &Desk,
    commands: u64,
    wish: Wish,
) -> Result<Made, RecordingFault> {
    let files = names_of(alloc, &bytes.read.files)?;
    let sight = maybe_sight_of(alloc, desk.history(), &files, bytes)?;
    let replayed = replayed_text(alloc, desk, commands)?;
    let text = drawn_desk(alloc, bytes, desk, &files, sight.as_ref(), &replayed, wish)?;
    Ok(Made::Text(text, replayed))
}

// The picture of a trace, by the desk of its recording.
fn drawn_from(
    alloc: Global,
    bytes: Bytes<'_>,
    trace: &Trace,
    desk: &mut Desk,
    wish: Wish,
) -> Result<Made, RecordingFault>
    requires few { length trace.now.lanes.items ≤ Trace.MAX_LANES }
    requires lanes { desk.old.lanes ≡ length trace.now.lanes.items + 1 }
{
    replay(alloc, desk, trace)?;
    if !is_there(desk.history(), wish.event) {
        return Ok(Made::NoEvent(desk.history().last()));
    }
    drawn_replayed(alloc, bytes, desk, command_count(trace), wish)
}

// The picture of a trace that was read.
fn drawn_trace(
    alloc: Global,
    bytes: Bytes<'_>,
    manifest: &Manifest,
    trace: &Trace,
    wish: Wish,
) -> Result<Made, RecordingFault>
    requires { length trace.now.lanes.items ≤ Trace.MAX_LANES }
{
    let mut desk = open(alloc, manifest, trace)?;
    let drawn = drawn_from(alloc, bytes, trace, &mut desk, wish);
    leave(desk);
    drawn
}

// The picture of the bytes of a recording.
fn picture_of_bytes(alloc: Global, bytes: Bytes<'_>, wish: Wish) -> Result<Made, RecordingFault> {
    let manifest = manifest_of(alloc, &bytes.read.files)?;
    let trace = trace_of(alloc, &bytes.read.trace)?;
    drawn_trace(alloc, bytes, &manifest, &trace, wish)
}

// What is wished for, or a sentence where it is not understood.
fn wish_of(asked: &Request<'_>) -> Result<Wish, &'static str> {
    let event = match asked.event {
        None => None,
        Some(text) => match number(text.as_bytes()) {
            Ok(event) => Some(event),
            Err(_) => return Err("--event takes the number of an event"),
        },
    };
    if let Some(out) = asked.out {
        if asked.html && !out.ends_with(".html") {
            return Err("with --html the name of the file to write is to end in .html");
        }
        if !asked.html && !out.ends_with(".svg") {
            return Err(
                "the name of the file to write is to end in .svg (a page is made by --html)",
            );
        }
    }
    Ok(Wish {
        html: asked.html,
        event,
    })
}

/// Writes a picture or a timeline to its file, or to the standard output.
///
/// # Errors
/// [`ProgramFault::Out`] where the file is not written.
pub fn put<'a, R: Files + Print>(
    rt: &R,
    out: Option<&'a str>,
    text: &[u8],
) -> Result<(), ProgramFault<'a>> {
    match out {
        None => write(rt, text),
        Some(name) => match fs::write(rt, name, text) {
            Ok(()) => Ok(()),
            Err(_) => Err(ProgramFault::Out(name)),
        },
    }
}

// Says that an event is not kept, and which is the last.
fn say_no_event<R: Eprint>(rt: &R, last: u32) {
    let _ = eprintln!(rt;
        "rebug: no kept event has that number; the last one is {last}, and `./rebug ask` lists them by `kept`"
    );
}

/// Says lines, if there are any.
pub fn say_lines<R: Eprint + AllocGlobal>(rt: &R, lines: &[u8]) {
    for line in lines.split(|byte| *byte == b'\n') {
        if !line.is_empty() {
            rev_program::say(rt, line);
        }
    }
}

// Writes the picture of a recording as it is wished for, and gives the program's status.
fn picture_wished<'a, R: Files + Print + Eprint + AllocGlobal>(
    rt: &R,
    asked: &Request<'a>,
    wish: Wish,
) -> Result<u8, ProgramFault<'a>> {
    let files = read_drawn(rt, asked.recording)?;
    match picture_of_bytes(rt.alloc(), files.lent(), wish) {
        Ok(Made::Text(text, replayed)) => {
            put(rt, asked.out, &text)?;
            say_lines(rt, &replayed);
            Ok(0)
        }
        Ok(Made::NoEvent(last)) => {
            say_no_event(rt, last);
            Ok(USAGE)
        }
        Err(fault) => refuse(rt, &files.read, &fault),
    }
}

/// Writes the picture of a recording, and gives the program's status.
pub fn picture<'a, R: Files + Print + Eprint + AllocGlobal>(
    rt: &R,
    asked: &Request<'a>,
) -> Result<u8, ProgramFault<'a>> {
    match wish_of(asked) {
        Ok(wish) => picture_wished(rt, asked, wish),
        Err(sentence) => {
            say(rt, sentence);
            Ok(USAGE)
        }
    }
}
