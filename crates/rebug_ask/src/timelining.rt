//! The timeline of a recording.
ghost use Rattle.std.specs.Prelude.{◌≡◌, ◌+◌, ◌≤◌, length};

use crate::picturing::{
    Bytes, Sight, maybe_sight_of, put, races_of_two, read_drawn, replayed_text, say_lines,
};
use crate::told::{command_count, leave, manifest_of, names_of, refuse, say, trace_of};
use rev_asking::Request;
use rev_cells::Cells;
use rev_conflicts::Conflict;
use rev_desk::Desk;
use rev_events::Event;
use rev_folder::{Recording, times_in};
use rev_history::History;
use rev_manifest::Manifest;
use rev_program::{ProgramFault, USAGE};
use rev_prompt::state_by;
use rev_queries::{Chain, critical, timed_runs};
use rev_races::Race;
use rev_races_text::Sources;
use rev_recording::{RecordingFault, open, replay};
use rev_timeline::{Planned, Timeline, timeline_text};
use rev_trace::Trace;
use std::alloc::{AllocError, Global};
use std::rt::Files;

// The most links of the critical chain that a timeline shows: each takes time linear in the manifest.
const MOST_LINKS: u32 = 100;

// What came of it.
enum Made {
    // The timeline, and how much of the recording counts, a line for each reason why that is not all of it.
    Text(Vec<u8>, Vec<u8>),
    // The recording has no times.
    NoTimes,
}

/// The number of the last kept plan, or 0.
pub fn last_plan(history: &History) -> u32 {
    let last = history.last();
    for passed in 0..last {
        let number = last - passed;
        if let Some(Event::Plan(_)) = history.event(number) {
            if history.footprint_of(number).is_some() {
                return number;
            }
        }
    }
    0
}

// The chain of commands that the end of the last build waited for.
fn chain_of(
    alloc: Global,
    history: &History,
    times: &[Option<u32>],
    plan: u32,
) -> Result<Chain, AllocError> {
    let timed = timed_runs(alloc, history, times)?;
    critical(alloc, history.graph(), &timed, plan, MOST_LINKS)
}

// The state after the last plan, where there is one.
fn state_of(
    alloc: Global,
    history: &History,
    trace: &Trace,
    plan: u32,
) -> Result<Option<Cells>, AllocError> {
    if plan == 0 {
        return Ok(None);
    }
    Ok(Some(state_by(alloc, history, &trace.opening, plan)?))
}

// What a timeline is made from, all of it lent alike.
fn timeline_of<'a>(
    name: &'a [u8],
    history: &'a History,
    manifest: &'a Manifest,
    read: &'a Recording,
    times: &'a [Option<u32>],
    races: &'a [Race],
    sight: Option<&'a Sight>,
    chain: &'a Chain,
    plan: u32,
    state: Option<&'a Cells>,
) -> Timeline<'a> {
    let sources = Sources {
        builds: manifest.builds(),
        files: &read.files,
        runs: &[],
        origins: None,
    };
    let conflicts: &'a [Conflict] = match sight {
        Some(sight) => &sight.conflicts,
        None => &[],
    };
    let observation = match sight {
        Some(sight) => Some(&sight.observed.observation),
        None => None,
    };
    let planned = match state {
        Some(cells) => Some(Planned {
            number: plan,
            cells,
        }),
        None => None,
    };
    Timeline {
        name,
        history,
        sources,
        times,
        races,
        observation,
        conflicts,
        critical: &chain.links,
        planned,
    }
}

// The timeline of the desk of a recording that was replayed.
fn drawn<'a>(
    alloc: Global,
    name: &'a [u8],
    bytes: Bytes<'a>,
    manifest: &'a Manifest,
    trace: &Trace,
    desk: &'a Desk,
    times: &'a [Option<u32>],
    sight: Option<&'a Sight>,
) -> Result<Vec<u8>, AllocError> {
    let history = desk.history();
    let files = names_of(alloc, &bytes.read.files)?;
    let races = races_of_two(alloc, history, &files)?;
    let plan = last_plan(history);
    let chain = chain_of(alloc, history, times, plan)?;
    let state = state_of(alloc, history, trace, plan)?;
    let timeline = timeline_of(
        name,
        history,
        manifest,
        bytes.read,
        times,
        &races,
        sight,
        &chain,
        plan,
        state.as_ref(),
    );
    timeline_text(alloc, &timeline)
}

// The timeline of a trace, by the desk of its recording.
fn drawn_from(
    alloc: Global,
    name: &[u8],
    bytes: Bytes<'_>,
    manifest: &Manifest,
    trace: &Trace,
    desk: &mut Desk,
) -> Result<Made, RecordingFault>
    requires few { length trace.now.lanes.items ≤ Trace.MAX_LANES }
    requires lanes { desk.old.lanes ≡ length trace.now.lanes.items + 1 }
{
    replay(alloc, desk, trace)?;
    let times = times_in(alloc, desk, bytes.times)?;
    if times.is_empty() {
        return Ok(Made::NoTimes);
    }
    let files = names_of(alloc, &bytes.read.files)?;
    let sight = maybe_sight_of(alloc, desk.history(), &files, bytes)?;
    let text = drawn(
        alloc,
        name,
        bytes,
        manifest,
        trace,
        desk,
        &times,
        sight.as_ref(),
    )?;
    Ok(Made::Text(text, replayed_text(alloc, desk, command_count(trace))?))
}

// The timeline of a trace that was read.
fn drawn_trace(
    alloc: Global,
    name: &[u8],
    bytes: Bytes<'_>,
    manifest: &Manifest,
    trace: &Trace,
) -> Result<Made, RecordingFault>
    requires { length trace.now.lanes.items ≤ Trace.MAX_LANES }
{
    let mut desk = open(alloc, manifest, trace)?;
    let drawn = drawn_from(alloc, name, bytes, manifest, trace, &mut desk);
    leave(desk);
    drawn
}

// The timeline of the bytes of a recording.
fn timeline_of_bytes(alloc: Global, name: &[u8], bytes: Bytes<'_>) -> Result<Made, RecordingFault> {
    let manifest = manifest_of(alloc, &bytes.read.files)?;
    let trace = trace_of(alloc, &bytes.read.trace)?;
    drawn_trace(alloc, name, bytes, &manifest, &trace)
}

// Writes the timeline of a recording, and gives the program's status.
fn timelined_in<'a, R: Files + Print + Eprint + AllocGlobal>(
    rt: &R,
    asked: &Request<'a>,
) -> Result<u8, ProgramFault<'a>> {
    let files = read_drawn(rt, asked.recording)?;
    match timeline_of_bytes(rt.alloc(), asked.recording.as_bytes(), files.lent()) {
        Ok(Made::Text(text, replayed)) => {
            put(rt, asked.out, &text)?;
            say_lines(rt, &replayed);
            Ok(0)
        }
        Ok(Made::NoTimes) => {
            say(
                rt,
                "the recording has no times, which a timeline is made of; `./rebug picture` draws it in the order of its events",
            );
            Ok(USAGE)
        }
        Err(fault) => refuse(rt, &files.read, &fault),
    }
}

/// Writes the timeline of a recording to its file or to the standard output, and gives the program's status.
///
/// # Errors
/// As [`read_recording`] where the recording is not read; [`ProgramFault::Out`] where the file is not written.
pub fn timelined<'a, R: Files + Print + Eprint + AllocGlobal>(
    rt: &R,
    asked: &Request<'a>,
) -> Result<u8, ProgramFault<'a>> {
    if let Some(out) = asked.out {
        if !out.ends_with(".json") {
            say(rt, "the name of the file to write is to end in .json");
            return Ok(USAGE);
        }
    }
    timelined_in(rt, asked)
}
