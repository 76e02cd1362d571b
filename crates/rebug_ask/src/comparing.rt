//! Two recordings side by side.
use crate::told::{leave, manifest_of, refuse, say, trace_of, write};
use rev_answers::screen_of;
use rev_asking::Request;
use rev_compared_text::{Form, Side, comparison};
use rev_desk::Desk;
use rev_folder::{Recording, place_of, read_recording};
use rev_graph::GraphFault;
use rev_manifest::Manifest;
use rev_program::ProgramFault;
use rev_races_text::SOMETHING;
use rev_recording::{RecordingFault, open, replay};
use std::alloc::{AllocError, Global};
use std::rt::Files;

// The desk of a recording that was replayed.
fn replayed(alloc: Global, manifest: &Manifest, read: &Recording) -> Result<Desk, RecordingFault> {
    let trace = trace_of(alloc, &read.trace)?;
    let mut desk = open(alloc, manifest, &trace)?;
    replay(alloc, &mut desk, &trace)?;
    Ok(desk)
}

// A recording that was replayed, with its manifest.
fn replayed_in(alloc: Global, read: &Recording) -> Result<(Manifest, Desk), RecordingFault> {
    let manifest = manifest_of(alloc, &read.files)?;
    let desk = replayed(alloc, &manifest, read)?;
    Ok((manifest, desk))
}

// What is compared of a recording.
fn side_of<'a>(
    name: &'a str,
    read: &'a Recording,
    manifest: &'a Manifest,
    desk: &'a Desk,
) -> Side<'a> {
    Side {
        name: name.as_bytes(),
        files: &read.files,
        manifest,
        history: desk.history(),
    }
}

// The form that is asked for.
fn form_of(asked: &Request<'_>) -> Form {
    if asked.json {
        Form::Json
    } else if asked.all {
        Form::AllWords
    } else {
        Form::Words
    }
}

// What of an answer is written: a screen of the words, unless all are asked for.
fn written(alloc: Global, text: Vec<u8>, form: Form) -> Result<Vec<u8>, AllocError> {
    if form == Form::Words {
        return screen_of(alloc, &text, false);
    }
    Ok(text)
}

// Says a sentence about a recording that is not replayed, and why it is not, and gives the status of that.
fn refuse_one<'a, R: Eprint + AllocGlobal>(
    rt: &R,
    sentence: &str,
    read: &Recording,
    fault: &RecordingFault,
) -> Result<u8, ProgramFault<'a>> {
    match fault {
        RecordingFault::Memory => Err(ProgramFault::Memory),
        RecordingFault::Graph(GraphFault::Memory) => Err(ProgramFault::Memory),
        _ => {
            say(rt, sentence);
            refuse(rt, read, fault)
        }
    }
}

// Writes what differs between two recordings that were replayed, and gives the program's status.
fn write_compared<'a, R: Print + AllocGlobal>(
    rt: &R,
    form: Form,
    one: Side<'_>,
    two: Side<'_>,
) -> Result<u8, ProgramFault<'a>> {
    let compared = comparison(rt.alloc(), one, two, form)?;
    let status = if compared.is_alike { 0 } else { SOMETHING };
    write(rt, &written(rt.alloc(), compared.text, form)?)?;
    Ok(status)
}

// Replays the second recording, and writes what differs between the first one and it.
fn compare_with<'a, R: Files + Print + Eprint + AllocGlobal>(
    rt: &R,
    form: Form,
    one: Side<'_>,
    name: &str,
    read: &Recording,
) -> Result<u8, ProgramFault<'a>> {
    let (manifest, desk) = match replayed_in(rt.alloc(), read) {
        Ok(replayed) => replayed,
        Err(fault) => {
            return refuse_one(rt, "the second recording has a fault", read, &fault);
        }
    };
    let status = write_compared(rt, form, one, side_of(name, read, &manifest, &desk));
    leave(desk);
    status
}

/// Writes what differs between two recordings, and gives the program's status: 0 where nothing does, and
/// [`SOMETHING`] where something does. Of a recording with a fault it says the fault, and gives its status.
///
/// # Errors
/// As [`read_recording`] where a recording is not read; [`ProgramFault::Memory`] where memory was refused.
pub fn compare<'a, R: Files + Print + Eprint + AllocGlobal>(
    rt: &R,
    asked: &Request<'a>,
) -> Result<u8, ProgramFault<'a>> {
    let (recording, other) = (asked.recording, asked.other.unwrap_or(""));
    let read = read_recording(rt, recording, place_of(rt, recording))?;
    let other_read = read_recording(rt, other, place_of(rt, other))?;
    let (manifest, desk) = match replayed_in(rt.alloc(), &read) {
        Ok(replayed) => replayed,
        Err(fault) => {
            return refuse_one(rt, "the first recording has a fault", &read, &fault);
        }
    };
    let one = side_of(recording, &read, &manifest, &desk);
    let status = compare_with(rt, form_of(asked), one, other, &other_read);
    leave(desk);
    status
}
