// What a run leaves in the memory that it was given and of the trace's text where its writer fails on the way, and a run
// of no file.

use crate::devices::{Files, SCRIPT, TRACE, files_of};
use rev_parallel::run_parallel_in;
use rev_report::{RunFault, RunMemory, Status, run_serial, run_serial_in};
use std::alloc::Global;
use std::borrow::CowSlice;
use std::io;
use std::io::Write;
use std::sync::Wait;
use std::test::Fail;
use std::thread::Threads;

// A writer that takes so many writes, and then no byte.
#[derive(Drop)]
struct Short {
    left: u32,
}

impl Write for Short {
    fn write(&mut self, buf: &[u8]) -> io::Result<usize> {
        if self.left == 0 {
            return Ok(0);
        }
        self.left -= 1;
        Ok(buf.len())
    }

    fn flush(&mut self) -> io::Result<()> {
        Ok(())
    }
}

// How many entries the desk has that a run left.
fn entries(memory: &RunMemory) -> Option<usize> {
    match &memory.desk {
        Some(desk) => Some(desk.journal().len()),
        None => None,
    }
}

// Whether a run in turn to such a writer fails, leaves the trace and a desk of so many entries, and has let the trace's
// text go.
fn leaves(alloc: Global, files: &Files, writes: u32, count: usize) -> bool {
    let mut memory = RunMemory::new();
    let mut writer = Short { left: writes };
    let mut text = CowSlice::Borrowed(TRACE);
    let result = run_serial_in(alloc, files, &mut text, SCRIPT, &mut writer, &mut memory);
    result == Err(RunFault::Write)
        && entries(&memory) == Some(count)
        && memory.trace.is_some()
        && text.as_slice().is_empty()
}

// Whether a run on threads does, leaves such a desk, and has let the text go.
fn leaves_on_threads<R: Threads + Wait + Sync>(
    rt: &R,
    alloc: Global,
    files: &Files,
    writes: u32,
    count: usize,
) -> bool {
    let mut memory = RunMemory::new();
    let mut writer = Short { left: writes };
    let mut text = CowSlice::Borrowed(TRACE);
    let result = run_parallel_in(
        rt,
        alloc,
        files,
        &mut text,
        SCRIPT,
        &mut writer,
        &mut memory,
    );
    result == Err(RunFault::Write) && entries(&memory) == Some(count) && text.as_slice().is_empty()
}

// The fourth answer cannot be written, so four commands were said. On threads all three commands of the lane are said
// before the first answer is written.
#[test]
fn desk_comes_back_of_a_run_that_ends_early(rt: HostRuntime) -> Result<(), Fail> {
    let alloc = rt.alloc();
    let files = files_of(alloc)?;
    assert!(rt; leaves(alloc, &files, 3, 4) && leaves_on_threads(&rt, alloc, &files, 0, 3));
    Ok(())
}

const NO_HEADER: &[u8] = b"touch a.c 11\n";

// The sentence about a trace's fault reads the line.
#[test]
fn text_with_a_fault_stays(rt: HostRuntime) -> Result<(), Fail> {
    let alloc = rt.alloc();
    let files = files_of(alloc)?;
    let mut text = CowSlice::Borrowed(NO_HEADER);
    let mut report = Vec::new(alloc);
    let result = run_parallel_in(
        &rt,
        alloc,
        &files,
        &mut text,
        SCRIPT,
        &mut report,
        &mut RunMemory::new(),
    );
    assert!(rt; result == Ok(Status::Fault) && text.as_slice() == NO_HEADER);
    Ok(())
}

const NO_FILE: &[u8] = b"fault manifest - 0 20\n";

// What is reported of no file.
fn report_of_nothing(alloc: Global) -> Result<Vec<u8>, RunFault> {
    let mut report = Vec::new(alloc);
    let _status = run_serial(alloc, &[], b"", b"", &mut report)?;
    Ok(report)
}

#[test]
fn no_file(rt: HostRuntime) -> Result<(), Fail> {
    assert!(rt; report_of_nothing(rt.alloc())?.as_slice() == NO_FILE);
    Ok(())
}
