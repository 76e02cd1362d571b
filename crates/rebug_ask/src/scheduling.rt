//! How long the build of a recording takes by other schedules.
ghost use Rattle.std.specs.Prelude.{◌≡◌, ◌+◌, ◌≤◌, length};

use crate::timelining::last_plan;
use crate::told::{leave, manifest_of, read_choice, refuse, say, trace_of, write};
use rev_asking::{Request, read_values};
use rev_desk::Desk;
use rev_events::Event;
use rev_folder::{Recording, place_of, read_beside, read_recording, read_times, times_in};
use rev_history::History;
use rev_manifest::Manifest;
use rev_paths::Name;
use rev_program::{ProgramFault, USAGE};
use rev_queries::timed_runs;
use rev_recording::{RecordingFault, open, replay};
use rev_runs::runs;
use rev_schedule_word::{Answered, Asked, Source, Wanted, WordFault, answer_of, wanted_of};
use rev_scheduling::Ran;
use rev_trace::Trace;
use std::alloc::{AllocError, Global};
use std::rt::Files;

// The status where nothing is foretold.
const NOT_FORETOLD: u8 = 4;
// The most bytes of the file `ninja`.
const NINJA_BYTES: usize = 67_108_864;

// What came of it.
#[derive(Drop)]
enum Made<'a> {
    // The answer.
    Answer(Answered),
    // The recording has no times.
    NoTimes,
    // The build does not have what is asked for.
    NotUnderstood(WordFault<'a>),
}

// The files of a recording, and what is asked of it, all of it lent.
#[derive(Clone, Copy)]
struct Inquiry<'a, 'b> {
    read: &'b Recording,
    times: &'b [u8],
    ninja: &'b [u8],
    asked: Asked<'a>,
    wanted: &'b Wanted<'a>,
}

// The kept runs behind a plan whose starts and ends have times.
fn ran_behind(
    alloc: Global,
    history: &History,
    times: &[Option<u32>],
    plan: u32,
) -> Result<Vec<Ran>, AllocError> {
    let timed = timed_runs(alloc, history, times)?;
    let mut ran = Vec::new(alloc);
    for run in &timed {
        if plan < run.began {
            ran.push(Ran {
                edge: run.edge,
                from: run.from,
                to: run.to,
            })?;
        }
    }
    Ok(ran)
}

// How many kept runs behind a plan have ended.
fn count_behind(alloc: Global, history: &History, plan: u32) -> Result<u64, AllocError> {
    let runs = runs(alloc, history)?;
    let mut count: u64 = 0;
    for run in &runs {
        if run.kept && plan < run.began && run.ended.is_some() {
            count = count.saturating_add(1);
        }
    }
    Ok(count)
}

// The targets of a plan; none of another event.
fn targets_of(history: &History, plan: u32) -> &[Name] {
    match history.event(plan) {
        Some(Event::Plan(targets)) => targets.as_slice(),
        _ => &[],
    }
}

// What is answered by a history and the times of its events.
fn answered<'a, 'b>(
    alloc: Global,
    inquiry: Inquiry<'a, 'b>,
    manifest: &'b Manifest,
    history: &'b History,
    times: &[Option<u32>],
) -> Result<Made<'a>, AllocError> {
    let plan = last_plan(history);
    let ran = ran_behind(alloc, history, times, plan)?;
    if ran.is_empty() {
        return Ok(Made::NoTimes);
    }
    let source = Source {
        manifest,
        graph: history.graph(),
        files: &inquiry.read.files,
        runs: &ran,
        untimed: count_behind(alloc, history, plan)?.saturating_sub(ran.len() as u64),
        targets: targets_of(history, plan),
        ninja: inquiry.ninja,
    };
    match answer_of(alloc, source, inquiry.asked, inquiry.wanted) {
        Ok(answered) => Ok(Made::Answer(answered)),
        Err(WordFault::Memory) => Err(AllocError),
        Err(fault) => Ok(Made::NotUnderstood(fault)),
    }
}

// What is answered about a trace, by the desk of its recording.
fn answered_from<'a>(
    alloc: Global,
    inquiry: Inquiry<'a, '_>,
    manifest: &Manifest,
    trace: &Trace,
    desk: &mut Desk,
) -> Result<Made<'a>, RecordingFault>
    requires few { length trace.now.lanes.items ≤ Trace.MAX_LANES }
    requires lanes { desk.old.lanes ≡ length trace.now.lanes.items + 1 }
{
    replay(alloc, desk, trace)?;
    let times = times_in(alloc, desk, inquiry.times)?;
    Ok(answered(alloc, inquiry, manifest, desk.history(), &times)?)
}

// What is answered about a trace that was read.
fn answered_trace<'a>(
    alloc: Global,
    inquiry: Inquiry<'a, '_>,
    manifest: &Manifest,
    trace: &Trace,
) -> Result<Made<'a>, RecordingFault>
    requires { length trace.now.lanes.items ≤ Trace.MAX_LANES }
{
    let mut desk = open(alloc, manifest, trace)?;
    let made = answered_from(alloc, inquiry, manifest, trace, &mut desk);
    leave(desk);
    made
}

// What is answered about the bytes of a recording.
fn answered_bytes<'a>(alloc: Global, inquiry: Inquiry<'a, '_>) -> Result<Made<'a>, RecordingFault> {
    let manifest = manifest_of(alloc, &inquiry.read.files)?;
    let trace = trace_of(alloc, &inquiry.read.trace)?;
    answered_trace(alloc, inquiry, &manifest, &trace)
}

// What is asked of the files of a recording, where each thing that it refers to lives as long.
fn inquiry_of<'a, 'b>(
    read: &'b Recording,
    times: &'b [u8],
    ninja: &'b [u8],
    asked: Asked<'a>,
    wanted: &'b Wanted<'a>,
) -> Inquiry<'a, 'b> {
    Inquiry {
        read,
        times,
        ninja,
        asked,
        wanted,
    }
}

// What is answered about the files of a recording.
fn answered_about<'a>(
    alloc: Global,
    read: &Recording,
    times: &[u8],
    ninja: &[u8],
    asked: Asked<'a>,
    wanted: &Wanted<'a>,
) -> Result<Made<'a>, RecordingFault> {
    answered_bytes(alloc, inquiry_of(read, times, ninja, asked, wanted))
}

// Says why a question is not answered, and gives the status of that.
fn say_fault<'a, R: Eprint + AllocGlobal>(
    rt: &R,
    fault: &WordFault<'_>,
) -> Result<u8, ProgramFault<'a>> {
    if *fault == WordFault::Memory {
        return Err(ProgramFault::Memory);
    }
    let mut sentence = Vec::new(rt.alloc());
    fault.push_sentence(&mut sentence)?;
    rev_program::say(rt, &sentence);
    Ok(USAGE)
}

// Writes what came of it, and gives the program's status.
fn write_made<'a, R: Print + Eprint + AllocGlobal>(
    rt: &R,
    made: &Made<'_>,
) -> Result<u8, ProgramFault<'a>> {
    match made {
        Made::Answer(answered) => {
            write(rt, &answered.text)?;
            Ok(if answered.foretold { 0 } else { NOT_FORETOLD })
        }
        Made::NoTimes => {
            say(
                rt,
                "the recording has no times of commands, which a schedule is made of",
            );
            Ok(USAGE)
        }
        Made::NotUnderstood(fault) => say_fault(rt, fault),
    }
}

// Reads a recording, writes the answer, and gives the program's status.
fn schedule_in<'a, 'b, R: Files + Print + Eprint + AllocGlobal>(
    rt: &R,
    recording: &'a str,
    asked: Asked<'b>,
    wanted: &'b Wanted<'b>,
) -> Result<u8, ProgramFault<'a>> {
    let place = place_of(rt, recording);
    let read = read_recording(rt, recording, place)?;
    let times = read_times(rt, recording, place)?;
    let ninja = read_beside(rt, recording, place, "ninja", NINJA_BYTES)?;
    let ninja = ninja.as_deref().unwrap_or(b"");
    match answered_about(rt.alloc(), &read, &times, ninja, asked, wanted) {
        Ok(made) => write_made(rt, &made),
        Err(fault) => refuse(rt, &read, &fault),
    }
}

// The same of what is asked and what is wanted, whose lifetimes differ.
fn schedule_wanted<'a, R: Files + Print + Eprint + AllocGlobal>(
    rt: &R,
    recording: &'a str,
    asked: Asked<'_>,
    wanted: &Wanted<'_>,
) -> Result<u8, ProgramFault<'a>> {
    schedule_in(rt, recording, asked, wanted)
}

// Reads what is asked, and answers it.
fn schedule_by<'a, R: Files + Print + Eprint + AllocGlobal>(
    rt: &R,
    recording: &'a str,
    asked: Asked<'_>,
) -> Result<u8, ProgramFault<'a>> {
    match wanted_of(rt.alloc(), asked) {
        Ok(wanted) => schedule_wanted(rt, recording, asked, &wanted),
        Err(fault) => say_fault(rt, &fault),
    }
}

// The values of an option of the command line that may be given several times.
fn values_of<'a>(
    alloc: Global,
    words: &'a [String],
    name: &str,
) -> Result<Vec<&'a str>, ProgramFault<'a>> {
    match read_values(alloc, words, name) {
        Ok(values) => Ok(values),
        Err(_) => Err(ProgramFault::Memory),
    }
}

/// Writes how long the build of a recording takes by other schedules to the standard output, and gives the program's
/// status. `words` are those of the command line.
///
/// # Errors
/// As [`read_recording`] where the recording is not read; [`ProgramFault::File`] where the file of orders is not;
/// [`ProgramFault::Memory`] where memory was refused.
pub fn schedule<'a, R: Files + Print + Eprint + AllocGlobal>(
    rt: &R,
    request: &Request<'a>,
    words: &'a [String],
) -> Result<u8, ProgramFault<'a>> {
    let faster = values_of(rt.alloc(), words, "faster")?;
    let pools = values_of(rt.alloc(), words, "pool")?;
    let without = read_choice(rt, request.without)?;
    let asked = Asked {
        jobs: request.jobs,
        faster: &faster,
        pools: &pools,
        without: without.as_deref().unwrap_or(b""),
        json: request.json,
    };
    schedule_by(rt, request.recording, asked)
}
