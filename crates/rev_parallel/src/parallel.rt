//! The report of a run with the lanes on threads of their own.
ghost use Rattle.std.specs.Prelude.{◌≡◌, ◌+◌, ◌≤◌, IfOk, length};
ghost use Rattle.rev_workers.specs.Closing.{left_by};

use rev_desk::{Desk, Entry};
use rev_fields::ReadFault;
use rev_graph::Graph;
use rev_manifest::{Manifest, read_by_threads};
use rev_report::{RunMemory, answer_line, open_desk, run_words};
use rev_script::{
    RunFault, Status, Word, close_line, read_script, report_fault, report_graph_fault,
    report_manifest_fault, send,
};
use rev_trace::Trace;
use rev_workers::{CloseFault, Gate, Shared, run_workers};
use std::alloc::{AllocError, Global};
use std::borrow::CowSlice;
use std::io::Write;
use std::marker::Brand;
use std::sync::Wait;
use std::sync::ledger::{Blank, Ledger};
use std::thread::Threads;

// A gate that lets every call through.
#[derive(Drop)]
struct Open;

impl Gate for Open {
    fn before(&self, _lane: u32, _place: u32) {}

    fn after(&self, _lane: u32, _place: u32) {}
}

// The words before the first `run`, and those after it where there is one.
fn split_at_run(words: &[Word]) -> (&[Word], Option<&[Word]>) {
    match words.iter().position(|word| matches!(word, Word::Run(_))) {
        Some(place) => (&words[..place], Some(&words[place + 1..])),
        None => (words, None),
    }
}

// Writes the lines of the entries past the first ones.
fn write_entries<W: Write>(
    alloc: Global,
    journal: &[Entry],
    before: usize,
    writer: &mut W,
) -> Result<(), RunFault> {
    for (place, entry) in journal.iter().enumerate().skip(before) {
        let line = answer_line(alloc, place as u64 + 1, entry.lane, Some(entry.reply))?;
        send(writer, &line)?;
    }
    Ok(())
}

// Lets each lane of a desk say the commands of the trace's lane of its number, under a ledger.
fn run_under<L: Ledger + Send + Sync, R: Threads + Wait + Sync>(
    rt: &R,
    alloc: Global,
    blank: Blank,
    desk: Desk,
    trace: Trace,
) -> Result<Result<Desk, CloseFault>, AllocError>
    requires name { blank.name ≡ L.name }
    requires parts { blank.parts ≡ L.parts }
    requires lanes { blank.parts ≡ desk.lanes }
    requires few { length trace.lanes.items ≤ desk.lanes }
    ensures { IfOk result (λ closed. (left_by closed).lanes ≡ desk.lanes) }
{
    let (shared, lanes) = Shared::<L>::new(alloc, desk, blank)?;
    Ok(run_workers(rt, alloc, shared, lanes, trace, &Open))
}

// Lets each lane of a desk say the commands of the trace's lane of its number, each from a thread of its own.
fn run_lanes<R: Threads + Wait + Sync>(
    rt: &R,
    alloc: Global,
    desk: Desk,
    trace: Trace,
) -> Result<Result<Desk, CloseFault>, AllocError>
    requires { length trace.lanes.items ≤ desk.lanes }
    ensures { IfOk result (λ closed. (left_by closed).lanes ≡ desk.lanes) }
{
    let blank = Blank::new(u64::from(desk.lanes()));
    run_under::<Brand, R>(rt, alloc, blank, desk, trace)
}

// Writes what lanes came to that do not fit their journal: the entries past the first ones, and the fault's line.
fn report_close_fault<W: Write>(
    alloc: Global,
    fault: &CloseFault,
    before: usize,
    writer: &mut W,
) -> Result<Status, RunFault> {
    write_entries(alloc, fault.desk.journal(), before, writer)?;
    let line = close_line(alloc, fault.code.number(), fault.lane)?;
    send(writer, &line)?;
    Ok(Status::Fault)
}

// Does the words after a `run`, where the lanes have nothing left to say.
fn finish<W: Write>(
    alloc: Global,
    desk: &mut Desk,
    before: usize,
    words: &[Word],
    writer: &mut W,
) -> Result<Status, RunFault> {
    write_entries(alloc, desk.journal(), before, writer)?;
    let lane = desk.lanes() - 1;
    run_words(alloc, desk, lane, &[], words, writer)?;
    Ok(Status::Success)
}

// Does `run` and the words after it.
fn run_and_finish<R: Threads + Wait + Sync, W: Write>(
    rt: &R,
    alloc: Global,
    desk: Desk,
    trace: Trace,
    words: &[Word],
    writer: &mut W,
    memory: &mut RunMemory,
) -> Result<Status, RunFault>
    requires { length trace.lanes.items ≤ desk.lanes }
{
    let before = desk.journal().len();
    match run_lanes(rt, alloc, desk, trace)? {
        Ok(mut desk) => {
            let finished = finish(alloc, &mut desk, before, words, writer);
            memory.desk = Some(desk);
            finished
        }
        Err(fault) => {
            let reported = report_close_fault(alloc, &fault, before, writer);
            memory.desk = Some(fault.into_desk());
            reported
        }
    }
}

// Runs words over an opening and the lanes of a trace, which go on threads of their own at the first `run`.
fn run_on_threads<R: Threads + Wait + Sync, W: Write>(
    rt: &R,
    alloc: Global,
    graph: Graph,
    trace: Trace,
    words: &[Word],
    writer: &mut W,
    memory: &mut RunMemory,
) -> Result<Status, RunFault>
    requires { length trace.lanes.items ≤ Trace.MAX_LANES }
{
    let (before, after) = split_at_run(words);
    let lane = trace.lanes.len() as u32;
    let mut desk = open_desk(alloc, graph, &trace.opening, &trace.lanes)?;
    let ran = run_words(alloc, &mut desk, lane, &[], before, writer);
    if let (Ok(()), Some(words)) = (ran, after) {
        return run_and_finish(rt, alloc, desk, trace, words, writer, memory);
    }
    memory.trace = Some(trace);
    memory.desk = Some(desk);
    ran?;
    Ok(Status::Success)
}

// Reports on a script, for a trace that has been read.
fn report_script<R: Threads + Wait + Sync, W: Write>(
    rt: &R,
    alloc: Global,
    graph: Graph,
    trace: Trace,
    script: &[u8],
    writer: &mut W,
    memory: &mut RunMemory,
) -> Result<Status, RunFault>
    requires { length trace.lanes.items ≤ Trace.MAX_LANES }
{
    match read_script(alloc, script) {
        Ok(words) => run_on_threads(rt, alloc, graph, trace, &words, writer, memory),
        Err(ReadFault::Numbered(fault)) => report_fault(alloc, b"script", fault, writer),
        Err(ReadFault::Memory) => Err(RunFault::Memory),
    }
}

// Reports on a trace and a script, where nothing before them has a fault. The text of the trace is let go once it is
// read.
fn report_trace<R: Threads + Wait + Sync, W: Write>(
    rt: &R,
    alloc: Global,
    graph: Graph,
    trace: &mut CowSlice<'_, u8>,
    script: &[u8],
    writer: &mut W,
    memory: &mut RunMemory,
) -> Result<Status, RunFault> {
    match rev_trace::read(alloc, trace.as_slice()) {
        Ok(read) => {
            *trace = CowSlice::Borrowed(&[]);
            report_script(rt, alloc, graph, read, script, writer, memory)
        }
        Err(ReadFault::Numbered(fault)) => report_fault(alloc, b"trace", fault, writer),
        Err(ReadFault::Memory) => Err(RunFault::Memory),
    }
}

// Reports on a trace and a script, for a manifest that has been read.
fn report_edges<R: Threads + Wait + Sync, W: Write>(
    rt: &R,
    alloc: Global,
    manifest: &Manifest,
    trace: &mut CowSlice<'_, u8>,
    script: &[u8],
    writer: &mut W,
    memory: &mut RunMemory,
) -> Result<Status, RunFault> {
    match Graph::build(alloc, manifest) {
        Ok(graph) => report_trace(rt, alloc, graph, trace, script, writer, memory),
        Err(fault) => report_graph_fault(alloc, &fault, writer),
    }
}

/// Like `run_parallel`, but leaves the desk in `memory`, and the trace where no thread took it, even if the run ends
/// early. So the caller chooses when they are freed. It lets the text of the trace go once that is read: then nothing is
/// left in `trace`. A text with a fault stays there.
pub fn run_parallel_in<R: Threads + Wait + Sync, W: Write>(
    rt: &R,
    alloc: Global,
    files: &[(Vec<u8>, Vec<u8>)],
    trace: &mut CowSlice<'_, u8>,
    script: &[u8],
    writer: &mut W,
    memory: &mut RunMemory,
) -> Result<Status, RunFault> {
    match read_by_threads(rt, alloc, files) {
        Ok(manifest) => report_edges(rt, alloc, &manifest, trace, script, writer, memory),
        Err(rev_manifest::ReadFault::Manifest(fault)) => {
            report_manifest_fault(alloc, files, fault, writer)
        }
        Err(rev_manifest::ReadFault::Memory) => Err(RunFault::Memory),
    }
}

/// Like `run_serial`, but on threads. As many threads as there are processors read the manifest. At the first `run`,
/// each lane of the trace sends all its commands from a thread of its own, whatever number follows `run`; then the
/// entries are written in the journal's order. A later `run` finds no commands left and writes nothing.
///
/// Where the lanes do not fit the journal, or a lane could not send all its commands, the report ends with the line
/// `fault close CODE LANE`. What the run read and made is freed at its end.
///
/// # Errors
/// [`RunFault::Write`] where the writer fails in any way or takes no byte, and [`RunFault::Memory`] where the system
/// refused memory.
pub fn run_parallel<R: Threads + Wait + Sync, W: Write>(
    rt: &R,
    alloc: Global,
    files: &[(Vec<u8>, Vec<u8>)],
    trace: &[u8],
    script: &[u8],
    writer: &mut W,
) -> Result<Status, RunFault> {
    run_parallel_in(
        rt,
        alloc,
        files,
        &mut CowSlice::Borrowed(trace),
        script,
        writer,
        &mut RunMemory::new(),
    )
}
