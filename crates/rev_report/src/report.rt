//! The report of a run: the text that is written for files, a trace and a script.
ghost use Rattle.std.specs.Prelude.{◌≡◌, ◌≢◌, ◌<◌, ◌≤◌, ◌+◌, [], ℕ, IfOk, IsSome, OnOk, Option, Some, drop, length};
ghost use Rattle.std.specs.Cow.{cow_slice_items};
ghost use Rattle.rev_commands.specs.declared.command.Command.{Command};
ghost use Rattle.rev_report.specs.Report.{after_word, edges_report, kept_text, left_after, named_text, report, script_report, script_text, session_text, trace_report, why_edge, word_text};
ghost use Rattle.rev_script.specs.Output.{Writes};
ghost use Rattle.rev_script.specs.declared.script.Word.TheVariants as word_is;
ghost use Rattle.rev_script.specs.declared.status.Status.TheVariants as status_is;
ghost use Rattle.rev_script.specs.SeenTurns.{seen_turns};
ghost use Rattle.rev_script.specs.Turns.{AreOf, turns};
ghost use Rattle.rev_desk.specs.Machine.{named, opened_desk};
ghost use Rattle.rev_history.specs.Timeline.{state_at};
ghost use Rattle.rev_order_text.specs.Orders.{order_text as order_text_of};
ghost use Rattle.rev_fields.specs.declared.faults.TextFault.{TextFault};
ghost use Rattle.rev_trace.specs.Traces.{lanes_of, trace_fault};
ghost use Rattle.rev_graph.specs.Graph.{producer_of};
ghost use Rattle.rev_listing.specs.Logs as logs;
ghost use Rattle.rev_listing.specs.Marks as marks;
ghost use Rattle.rev_listing.specs.Stamps as stamps;
ghost use Rattle.rev_manifest.specs.Seen.{seen_files};

use crate::dependents::named_text;
use crate::memory::RunMemory;
use crate::runs::{run_command, run_taken};
use rev_cells::Opening;
use rev_commands::Command;
use rev_desk::{Desk, DeskFault, Which};
use rev_events::Refusal;
use rev_fields::ReadFault;
use rev_graph::Graph;
use rev_history::History;
use rev_listing::{logs_text, marks_text, stamps_text, why_text};
use rev_manifest::{Manifest, read};
use rev_order_text::order_text;
use rev_paths::Name;
use rev_script::{
    RunFault, Status, Turn, Word, kept_line, read_script, refused_line, report_fault,
    report_graph_fault, report_manifest_fault, send, turns_of,
};
use rev_trace::Trace;
use std::alloc::Global;
use std::borrow::CowSlice;
use std::io::Write;

// Writes the lines of the kept events.
fn write_kept<W: Write>(alloc: Global, history: &History, writer: &mut W) -> Result<(), RunFault>
    ensures { Writes result (W.contents writer.old) (W.contents writer.new)
        (kept_text history.now.timeline) }
{
    for number in history.kept() {
        let Some(event) = history.event(*number) else {
            continue;
        };
        let line = kept_line(alloc, *number, event)?;
        send(writer, &line)?;
    }
    Ok(())
}

// Writes the marks, what is held, and whether the build was interrupted.
fn write_marks<W: Write>(alloc: Global, history: &History, writer: &mut W) -> Result<(), RunFault>
    ensures { Writes result (W.contents writer.old) (W.contents writer.new)
        (marks.marks_text history.now.timeline.manifest.builds (state_at history.now.timeline)) }
{
    let text = marks_text(alloc, history.graph(), history.cells())?;
    send(writer, &text)
}

// Writes the lines of the files that are not missing.
fn write_stamps<W: Write>(alloc: Global, history: &History, writer: &mut W) -> Result<(), RunFault>
    ensures { Writes result (W.contents writer.old) (W.contents writer.new)
        (stamps.stamps_text (state_at history.now.timeline)) }
{
    let text = stamps_text(alloc, history.cells())?;
    send(writer, &text)
}

// Writes the records of the logs.
fn write_logs<W: Write>(alloc: Global, history: &History, writer: &mut W) -> Result<(), RunFault>
    ensures { Writes result (W.contents writer.old) (W.contents writer.new)
        (logs.logs_text (state_at history.now.timeline)) }
{
    let text = logs_text(alloc, history.cells())?;
    send(writer, &text)
}

// Writes the way from the edge of an output to one with reasons.
fn write_why<W: Write>(
    alloc: Global,
    history: &History,
    out: &Name,
    writer: &mut W,
) -> Result<(), RunFault>
    ensures { Writes result (W.contents writer.old) (W.contents writer.new)
        (why_edge history.now.timeline.manifest.builds (state_at history.now.timeline)
        (producer_of history.now.timeline.manifest.builds out.now)) }
{
    match history.graph().producer(out) {
        None => {
            let line = refused_line(alloc, Refusal::NoSuchEdge.code())?;
            send(writer, &line)
        }
        Some(edge) => {
            let text = why_text(alloc, history.graph(), history.cells(), edge)?;
            send(writer, &text)
        }
    }
}

// Writes the kept events that depend on a kept one.
fn write_dependents<W: Write>(
    alloc: Global,
    desk: &Desk,
    which: Which,
    writer: &mut W,
) -> Result<(), RunFault>
    ensures { Writes result (W.contents writer.old) (W.contents writer.new)
        (named_text (named desk.now.journal which) desk.now.history) }
{
    let text = named_text(alloc, desk, which)?;
    send(writer, &text)
}

// Writes whether accepted events, run again in an order, are equivalent to the kept ones.
fn write_order<W: Write>(
    alloc: Global,
    history: &History,
    numbers: &[u32],
    writer: &mut W,
) -> Result<(), RunFault>
    ensures { Writes result (W.contents writer.old) (W.contents writer.new)
        (order_text_of history.now.timeline numbers.now) }
{
    let text = order_text(alloc, history, numbers)?;
    send(writer, &text)
}

// Writes what a word asks for that is neither a command nor `run`. Which lane says it, and which turns are left, does
// not count.
fn write_asked<W: Write>(
    alloc: Global,
    desk: &Desk,
    word: &Word,
    writer: &mut W,
) -> Result<(), RunFault>
    requires no_command { (command : Command) → word.now ≢ word_is.Command command }
    requires no_run { (most : Option ℕ) → word.now ≢ word_is.Run most }
    ensures { Writes result (W.contents writer.old) (W.contents writer.new) (word_text 0 desk.now [] word.now) }
{
    match word {
        Word::Kept => write_kept(alloc, desk.history(), writer),
        Word::Marks => write_marks(alloc, desk.history(), writer),
        Word::Stamps => write_stamps(alloc, desk.history(), writer),
        Word::Logs => write_logs(alloc, desk.history(), writer),
        Word::Why(out) => write_why(alloc, desk.history(), out, writer),
        Word::Dependents(which) => write_dependents(alloc, desk, *which, writer),
        Word::Order(numbers) => write_order(alloc, desk.history(), numbers.as_slice(), writer),
        Word::Command(_) | Word::Run(_) => unreachable!(),
    }
}

// Does a word of the script, where so many turns were taken before, and says how many are taken then.
fn run_word<W: Write>(
    alloc: Global,
    desk: &mut Desk,
    lane: u32,
    turns: &[Turn<'_>],
    before: usize,
    word: &Word,
    writer: &mut W,
) -> Result<usize, RunFault>
    requires lane { lane < desk.old.lanes }
    requires lanes { AreOf desk.old.lanes (seen_turns turns.now) }
    requires within { before ≤ length turns.now }
    ensures text { Writes result (W.contents writer.old) (W.contents writer.new)
        (word_text lane desk.old (drop before (seen_turns turns.now)) word.now) }
    ensures after { OnOk result (desk.new
        ≡ after_word lane desk.old (drop before (seen_turns turns.now)) word.now) }
    ensures lanes { OnOk result (desk.new.lanes ≡ desk.old.lanes) }
    ensures within { IfOk result (λ count. count ≤ length turns.now) }
    ensures left { IfOk result (λ count. drop count (seen_turns turns.now)
        ≡ left_after desk.old (drop before (seen_turns turns.now)) word.now) }
{
    match word {
        Word::Command(command) => {
            let command = command.copy()?;
            let _ = run_command(alloc, desk, lane, command, writer)?;
            Ok(before)
        }
        Word::Run(most) => run_taken(alloc, desk, turns, before, *most, writer),
        _ => {
            write_asked(alloc, desk, word, writer)?;
            Ok(before)
        }
    }
}

/// Carries out the words of a script in turn. `run` takes its commands from the turns that are left. The script's own
/// commands are sent on `lane`.
pub fn run_words<W: Write>(
    alloc: Global,
    desk: &mut Desk,
    lane: u32,
    turns: &[Turn<'_>],
    words: &[Word],
    writer: &mut W,
) -> Result<(), RunFault>
    requires lane { lane < desk.old.lanes }
    requires lanes { AreOf desk.old.lanes (seen_turns turns.now) }
    ensures text { Writes result (W.contents writer.old) (W.contents writer.new)
        (script_text lane desk.old (seen_turns turns.now) words.now) }
    ensures lanes { OnOk result (desk.new.lanes ≡ desk.old.lanes) }
{
    let mut taken = 0;
    for word in words {
        taken = run_word(alloc, desk, lane, turns, taken, word, writer)?;
    }
    Ok(())
}

/// A desk with an empty journal and one lane more than the trace has.
pub fn open_desk(
    alloc: Global,
    graph: Graph,
    opening: &Opening,
    lanes: &[Vec<Command>],
) -> Result<Desk, RunFault>
    requires { length lanes.now ≤ Trace.MAX_LANES }
    ensures { IfOk result (λ desk. desk
        ≡ opened_desk graph.manifest opening.now.jobs opening.now.state (length lanes.now + 1)) }
{
    let count = lanes.len() as u32 + 1;
    match Desk::new(alloc, graph, opening, count) {
        Ok(desk) => Ok(desk),
        Err(DeskFault::Memory) => Err(RunFault::Memory),
        Err(DeskFault::BadLanes) => unreachable!(),
    }
}

// Runs words over a desk to which nothing was said yet, and which has one lane more than these.
fn run_opened<W: Write>(
    alloc: Global,
    desk: &mut Desk,
    lanes: &[Vec<Command>],
    words: &[Word],
    writer: &mut W,
) -> Result<(), RunFault>
    requires few { length lanes.now ≤ Trace.MAX_LANES }
    requires lanes { desk.old.lanes ≡ length lanes.now + 1 }
    ensures { Writes result (W.contents writer.old) (W.contents writer.new)
        (script_text (length lanes.now) desk.old (turns (lanes_of lanes.now)) words.now) }
{
    let lane = lanes.len() as u32;
    let turns = turns_of(alloc, lanes)?;
    run_words(alloc, desk, lane, &turns, words, writer)
}

// Runs a script over an opening and the lanes of a trace. The script has a lane of its own, the one after these.
fn run_script<W: Write>(
    alloc: Global,
    graph: Graph,
    opening: &Opening,
    lanes: &[Vec<Command>],
    words: &[Word],
    writer: &mut W,
    memory: &mut RunMemory,
) -> Result<(), RunFault>
    requires { length lanes.now ≤ Trace.MAX_LANES }
    ensures text { Writes result (W.contents writer.old) (W.contents writer.new)
        (session_text graph.manifest opening.now (lanes_of lanes.now) words.now) }
    ensures desk { OnOk result (IsSome memory.new.desk) }
{
    let mut desk = open_desk(alloc, graph, opening, lanes)?;
    let ran = run_opened(alloc, &mut desk, lanes, words, writer);
    memory.desk = Some(desk);
    ran
}

// Reports on a script, for a trace that has been read.
fn report_script<W: Write>(
    alloc: Global,
    graph: Graph,
    trace: &Trace,
    script: &[u8],
    writer: &mut W,
    memory: &mut RunMemory,
) -> Result<Status, RunFault>
    requires { length trace.now.lanes.items ≤ Trace.MAX_LANES }
    ensures text { Writes result (W.contents writer.old) (W.contents writer.new)
        (script_report graph.manifest trace.now.opening (lanes_of trace.now.lanes.items)
        script.now).text }
    ensures status { IfOk result (λ status. status
        ≡ (script_report graph.manifest trace.now.opening (lanes_of trace.now.lanes.items)
        script.now).status) }
    ensures desk { IfOk result (λ status. status ≡ status_is.Success → IsSome memory.new.desk) }
{
    match read_script(alloc, script) {
        Ok(words) => {
            run_script(
                alloc,
                graph,
                &trace.opening,
                &trace.lanes,
                &words,
                writer,
                memory,
            )?;
            Ok(Status::Success)
        }
        Err(ReadFault::Numbered(fault)) => report_fault(alloc, b"script", fault, writer),
        Err(ReadFault::Memory) => Err(RunFault::Memory),
    }
}

// Reports on a trace and a script, where nothing before them has a fault. The text of the trace is let go once it is
// read.
fn report_trace<W: Write>(
    alloc: Global,
    graph: Graph,
    trace: &mut CowSlice<'_, u8>,
    script: &[u8],
    writer: &mut W,
    memory: &mut RunMemory,
) -> Result<Status, RunFault>
    ensures text { Writes result (W.contents writer.old) (W.contents writer.new)
        (trace_report graph.manifest (cow_slice_items trace.old) script.now).text }
    ensures status { IfOk result (λ status. status
        ≡ (trace_report graph.manifest (cow_slice_items trace.old) script.now).status) }
    ensures desk { IfOk result (λ status. status ≡ status_is.Success → IsSome memory.new.desk) }
    ensures trace { IfOk result (λ status. status ≡ status_is.Success → IsSome memory.new.trace) }
    ensures let_go { IfOk result (λ status. status ≡ status_is.Success → cow_slice_items trace.new ≡ []) }
    ensures kept { (f : TextFault) → trace_fault (cow_slice_items trace.old) ≡ Some f → trace.new ≡ trace.old }
{
    match rev_trace::read(alloc, trace.as_slice()) {
        Ok(read) => {
            *trace = CowSlice::Borrowed(&[]);
            let reported = report_script(alloc, graph, &read, script, writer, memory);
            memory.trace = Some(read);
            reported
        }
        Err(ReadFault::Numbered(fault)) => report_fault(alloc, b"trace", fault, writer),
        Err(ReadFault::Memory) => Err(RunFault::Memory),
    }
}

// Reports on a trace and a script, for a manifest that has been read.
fn report_edges<W: Write>(
    alloc: Global,
    manifest: &Manifest,
    trace: &mut CowSlice<'_, u8>,
    script: &[u8],
    writer: &mut W,
    memory: &mut RunMemory,
) -> Result<Status, RunFault>
    ensures text { Writes result (W.contents writer.old) (W.contents writer.new)
        (edges_report manifest.now (cow_slice_items trace.old) script.now).text }
    ensures status { IfOk result (λ status. status
        ≡ (edges_report manifest.now (cow_slice_items trace.old) script.now).status) }
    ensures desk { IfOk result (λ status. status ≡ status_is.Success → IsSome memory.new.desk) }
    ensures trace { IfOk result (λ status. status ≡ status_is.Success → IsSome memory.new.trace) }
    ensures let_go { IfOk result (λ status. status ≡ status_is.Success → cow_slice_items trace.new ≡ []) }
    ensures kept { (f : TextFault) → trace_fault (cow_slice_items trace.old) ≡ Some f → trace.new ≡ trace.old }
{
    match Graph::build(alloc, manifest) {
        Ok(graph) => report_trace(alloc, graph, trace, script, writer, memory),
        Err(fault) => report_graph_fault(alloc, &fault, writer),
    }
}

/// Like `run_serial`, but leaves the trace and the desk in `memory`, even if it ends early. It lets the text of the
/// trace go once that is read: then nothing is left in `trace`. A text with a fault stays there.
pub fn run_serial_in<W: Write>(
    alloc: Global,
    files: &[(Vec<u8>, Vec<u8>)],
    trace: &mut CowSlice<'_, u8>,
    script: &[u8],
    writer: &mut W,
    memory: &mut RunMemory,
) -> Result<Status, RunFault>
    ensures text { Writes result (W.contents writer.old) (W.contents writer.new)
        (report (seen_files files.now) (cow_slice_items trace.old) script.now).text }
    ensures status { IfOk result (λ status. status
        ≡ (report (seen_files files.now) (cow_slice_items trace.old) script.now).status) }
    // After a run to its end with no fault both stand there.
    ensures desk { IfOk result (λ status. status ≡ status_is.Success → IsSome memory.new.desk) }
    ensures trace { IfOk result (λ status. status ≡ status_is.Success → IsSome memory.new.trace) }
    ensures let_go { IfOk result (λ status. status ≡ status_is.Success → cow_slice_items trace.new ≡ []) }
    ensures kept { (f : TextFault) → trace_fault (cow_slice_items trace.old) ≡ Some f → trace.new ≡ trace.old }
{
    let manifest = match read(alloc, files) {
        Ok(manifest) => manifest,
        Err(rev_manifest::ReadFault::Manifest(fault)) => {
            return report_manifest_fault(alloc, files, fault, writer);
        }
        Err(rev_manifest::ReadFault::Memory) => return Err(RunFault::Memory),
    };
    report_edges(alloc, &manifest, trace, script, writer, memory)
}

/// Reads a manifest, builds its graph, reads a trace and a script, carries out the script, and writes the report. The
/// report ends at the first fault of the four. `files` are pairs of a name and a content; the first is the manifest
/// itself. What it read and made is freed at its end.
///
/// # Errors
/// [`RunFault::Write`] where the writer fails in any way or takes no byte, and [`RunFault::Memory`] where the system
/// refused memory. After either, the writer has a prefix of the report.
pub fn run_serial<W: Write>(
    alloc: Global,
    files: &[(Vec<u8>, Vec<u8>)],
    trace: &[u8],
    script: &[u8],
    writer: &mut W,
) -> Result<Status, RunFault>
    ensures text { Writes result (W.contents writer.old) (W.contents writer.new)
        (report (seen_files files.now) trace.now script.now).text }
    ensures status { IfOk result (λ status. status ≡ (report (seen_files files.now) trace.now script.now).status) }
{
    run_serial_in(
        alloc,
        files,
        &mut CowSlice::Borrowed(trace),
        script,
        writer,
        &mut RunMemory::new(),
    )
}
