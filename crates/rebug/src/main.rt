//! A reversible debugger for Ninja builds: it replays a recorded build, and undoes and redoes its events.
#![tactic(auto)]

use rev_options::{Options, options};
use rev_parallel::run_parallel_in;
use rev_program::{ProgramFault, ReadFault, Unread, explain, fail, read_named, say, words};
use rev_report::{RunMemory, Status, run_serial_in, write_migrated};
use rev_sentences::{Inputs, sentence};
use std::alloc::Global;
use std::borrow::CowSlice;
use std::io::{BufWriter, Write};
use std::process::ExitCode;
use std::rt::Files;
use std::sync::Wait;
use std::thread::Threads;
use std::{io, mem};

// The most bytes that the manifest and the files that it names may have together. With more the manifest is refused.
const MANIFEST_BYTES: usize = 268_435_456;
// The most bytes of a trace, and of a script.
const LINES_BYTES: usize = 1_073_741_824;

// The bytes of a file, where there are no more than `most`, and else more than `most`, from its start.
fn read_file<'a, R: Files + AllocGlobal>(
    rt: &R,
    name: &'a str,
    most: usize,
) -> Result<Vec<u8>, ProgramFault<'a>> {
    match read_named(rt, name, most) {
        Ok(bytes) => Ok(bytes),
        Err(ReadFault::Memory) => Err(ProgramFault::Memory),
        Err(ReadFault::Unread(why)) => Err(ProgramFault::File(name, why)),
    }
}

// All bytes of a trace or of a script.
fn read_lines<'a, R: Files + AllocGlobal>(
    rt: &R,
    name: &'a str,
) -> Result<Vec<u8>, ProgramFault<'a>> {
    let bytes = read_file(rt, name, LINES_BYTES)?;
    if bytes.len() > LINES_BYTES {
        return Err(ProgramFault::File(name, Unread::Long));
    }
    Ok(bytes)
}

// The manifest and the files that it may name, each with its name. What goes past the limit of a manifest's bytes is
// read so far that the limit is passed, since that is what the manifest is then refused for.
fn read_manifest<'a, R: Files + AllocGlobal>(
    rt: &R,
    options: &Options<'a>,
) -> Result<Vec<(Vec<u8>, Vec<u8>)>, ProgramFault<'a>> {
    let alloc = rt.alloc();
    let bytes = read_file(rt, options.manifest, MANIFEST_BYTES)?;
    let mut left = MANIFEST_BYTES.saturating_sub(bytes.len());
    let mut files = Vec::new(alloc);
    files.push((Vec::from_slice(alloc, options.manifest.as_bytes())?, bytes))?;
    for name in &options.files {
        let bytes = read_file(rt, *name, left)?;
        left = left.saturating_sub(bytes.len());
        files.push((Vec::from_slice(alloc, name.as_bytes())?, bytes))?;
    }
    Ok(files)
}

// The sentence beside a report's fault line. Such a line is short and the last, so it is still in the buffer. The
// sentence is a courtesy: where memory for it is refused there is none, and the report and the status stay.
fn sentence_beside(
    alloc: Global,
    buffered: &[u8],
    inputs: Inputs<'_>,
    status: Status,
) -> Option<Vec<u8>> {
    match status {
        Status::Fault => sentence(alloc, buffered, inputs).unwrap_or(None),
        Status::Success => None,
    }
}

// Writes what is left of a report, and says a sentence beside its fault line.
fn end<'a, R: Eprint + AllocGlobal, W: Write + Drop>(
    rt: &R,
    writer: &mut BufWriter<W>,
    inputs: Inputs<'_>,
    status: Status,
) -> Result<Status, ProgramFault<'a>> {
    let said = sentence_beside(rt.alloc(), writer.buffer(), inputs, status);
    match writer.flush() {
        Ok(()) => {}
        Err(_) => return Err(ProgramFault::Write),
    }
    if let Some(said) = said {
        say(rt, &said);
    }
    Ok(status)
}

// Writes the trace in version 2 to the standard output, or the line of its fault. No other file is read.
fn migrate<'a, R: Files + Print + Eprint + AllocGlobal>(
    rt: &R,
    options: &Options<'a>,
) -> Result<Status, ProgramFault<'a>> {
    let alloc = rt.alloc();
    let trace = read_lines(rt, options.trace)?;
    let Ok(mut writer) = BufWriter::new(alloc, io::writer(rt)) else {
        return Err(ProgramFault::Memory);
    };
    let status = write_migrated(alloc, &trace, &mut writer)?;
    let (files, script) = (Vec::new(alloc), Vec::new(alloc));
    let inputs = Inputs {
        files: &files,
        trace: (options.trace.as_bytes(), &trace),
        script: (options.script.as_bytes(), &script),
    };
    end(rt, &mut writer, inputs, status)
}

// Leaves what a run has in memory to the system, which takes all of it back when the program ends.
fn leave(memory: RunMemory) {
    mem::forget(memory);
}

// Reads the files and writes the report to the standard output.
fn report<'a, R: Files + Print + Eprint + AllocGlobal + Threads + Wait + Sync>(
    rt: &R,
    options: &Options<'a>,
) -> Result<Status, ProgramFault<'a>> {
    let alloc = rt.alloc();
    let files = read_manifest(rt, options)?;
    let mut trace = CowSlice::Owned(read_lines(rt, options.trace)?);
    let script = read_lines(rt, options.script)?;
    let Ok(mut writer) = BufWriter::new(alloc, io::writer(rt)) else {
        return Err(ProgramFault::Memory);
    };
    let mut memory = RunMemory::new();
    let ran = if options.workers {
        run_parallel_in(
            rt,
            alloc,
            &files,
            &mut trace,
            &script,
            &mut writer,
            &mut memory,
        )
    } else {
        run_serial_in(alloc, &files, &mut trace, &script, &mut writer, &mut memory)
    };
    leave(memory);
    let status = ran?;
    let inputs = Inputs {
        files: &files,
        trace: (options.trace.as_bytes(), trace.as_slice()),
        script: (options.script.as_bytes(), &script),
    };
    end(rt, &mut writer, inputs, status)
}

fn main(rt: HostRuntime) -> ExitCode {
    let words = match words(&rt) {
        Ok(words) => words,
        Err(status) => return status,
    };
    let options = match options(rt.alloc(), &words) {
        Ok(options) => options,
        Err(error) => return explain(&rt, &error),
    };
    let ended = if options.migrate {
        migrate(&rt, &options)
    } else {
        report(&rt, &options)
    };
    match ended {
        Ok(Status::Success) => ExitCode::SUCCESS,
        Ok(Status::Fault) => ExitCode::FAILURE,
        Err(fault) => fail(&rt, fault),
    }
}
