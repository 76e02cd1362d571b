//! Orders in which the commands of a recording can run.
ghost use Rattle.std.specs.Prelude.{◌≡◌, ◌+◌, ◌≤◌, length};

use crate::timelining::last_plan;
use crate::told::{leave, manifest_of, refuse, say, say_notes, trace_of, write};
use rev_asking::Request;
use rev_desk::Desk;
use rev_folder::{Recording, place_of, read_recording};
use rev_history::History;
use rev_manifest::Manifest;
use rev_orders_word::{Asked, Wanted, WordFault, answer_of, wanted_of};
use rev_program::{ProgramFault, USAGE};
use rev_recording::{RecordingFault, open, replay};
use rev_runs::runs;
use rev_trace::Trace;
use std::alloc::{AllocError, Global};
use std::rt::Files;

// What came of it.
#[derive(Drop)]
enum Made {
    // The answer.
    Answer(Vec<u8>),
    // Why there is none.
    NotAnswered(WordFault),
}

// The edges of the commands that began behind a plan, as they began.
fn began_behind(alloc: Global, history: &History, plan: u32) -> Result<Vec<u32>, AllocError> {
    let runs = runs(alloc, history)?;
    let mut edges = Vec::new(alloc);
    for run in &runs {
        if run.kept && plan < run.began {
            edges.push(run.edge)?;
        }
    }
    Ok(edges)
}

// What is answered by a history.
fn answered(alloc: Global, history: &History, wanted: Wanted) -> Result<Made, AllocError> {
    let began = began_behind(alloc, history, last_plan(history))?;
    match answer_of(alloc, history.graph(), &began, wanted) {
        Ok(text) => Ok(Made::Answer(text)),
        Err(WordFault::Memory) => Err(AllocError),
        Err(fault) => Ok(Made::NotAnswered(fault)),
    }
}

// What is answered about a trace, by the desk of its recording.
fn answered_from(
    alloc: Global,
    trace: &Trace,
    desk: &mut Desk,
    wanted: Wanted,
) -> Result<Made, RecordingFault>
    requires few { length trace.now.lanes.items ≤ Trace.MAX_LANES }
    requires lanes { desk.old.lanes ≡ length trace.now.lanes.items + 1 }
{
    replay(alloc, desk, trace)?;
    Ok(answered(alloc, desk.history(), wanted)?)
}

// What is answered about a trace that was read.
fn answered_trace(
    alloc: Global,
    manifest: &Manifest,
    trace: &Trace,
    wanted: Wanted,
) -> Result<Made, RecordingFault>
    requires { length trace.now.lanes.items ≤ Trace.MAX_LANES }
{
    let mut desk = open(alloc, manifest, trace)?;
    let made = answered_from(alloc, trace, &mut desk, wanted);
    leave(desk);
    made
}

// What is answered about the bytes of a recording.
fn answered_bytes(alloc: Global, read: &Recording, wanted: Wanted) -> Result<Made, RecordingFault> {
    let manifest = manifest_of(alloc, &read.files)?;
    let trace = trace_of(alloc, &read.trace)?;
    answered_trace(alloc, &manifest, &trace, wanted)
}

// Says why a question is not answered, and gives the status of that.
fn say_fault<'a, R: Eprint + AllocGlobal>(
    rt: &R,
    fault: WordFault,
) -> Result<u8, ProgramFault<'a>> {
    if fault == WordFault::Memory {
        return Err(ProgramFault::Memory);
    }
    let mut sentence = Vec::new(rt.alloc());
    fault.push_sentence(&mut sentence)?;
    rev_program::say(rt, &sentence);
    Ok(USAGE)
}

// Writes what came of it, and gives the program's status.
fn write_made<'a, R: Print + Eprint + AllocGlobal>(
    rt: &R,
    made: &Made,
) -> Result<u8, ProgramFault<'a>> {
    match made {
        Made::Answer(text) => {
            write(rt, text)?;
            Ok(0)
        }
        Made::NotAnswered(fault) => say_fault(rt, *fault),
    }
}

// Reads a recording, writes the answer, and gives the program's status.
fn list_in<'a, R: Files + Print + Eprint + AllocGlobal>(
    rt: &R,
    recording: &'a str,
    wanted: Wanted,
) -> Result<u8, ProgramFault<'a>> {
    let read = read_recording(rt, recording, place_of(rt, recording))?;
    say_notes(rt, &read)?;
    match answered_bytes(rt.alloc(), &read, wanted) {
        Ok(made) => write_made(rt, &made),
        Err(fault) => refuse(rt, &read, &fault),
    }
}

/// Writes orders of the commands of a recording to the standard output, and gives the program's status.
///
/// # Errors
/// As [`read_recording`] where the recording is not read; [`ProgramFault::Memory`] where memory was refused.
pub fn shuffle<'a, R: Files + Print + Eprint + AllocGlobal>(
    rt: &R,
    request: &Request<'a>,
) -> Result<u8, ProgramFault<'a>> {
    if !request.list {
        say(
            rt,
            "shuffle --list lists orders of a recording; without --list record/rebug-shuffle runs a build",
        );
        return Ok(USAGE);
    }
    let asked = Asked {
        runs: request.runs,
        json: request.json,
    };
    match wanted_of(asked) {
        Ok(wanted) => list_in(rt, request.recording, wanted),
        Err(fault) => say_fault(rt, fault),
    }
}
