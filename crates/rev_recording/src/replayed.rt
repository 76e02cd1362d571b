//! The replay of a recording.
ghost use Rattle.std.specs.Prelude.{◌≡◌, ◌+◌, ◌++◌, ◌<◌, ◌≤◌, IfOk, OnOk, length};
ghost use Rattle.rev_recording.specs.Replayed.{counts_words, events_words, others_end as others_end_of, others_words, refused_words};
ghost use Rattle.rev_desk.specs.Machine.{opened_desk};
ghost use Rattle.rev_report.specs.Answers.{after_answer};
ghost use Rattle.rev_report.specs.Runs.{after_turns};
ghost use Rattle.rev_script.specs.SeenTurns.{seen_turns};
ghost use Rattle.rev_script.specs.Turns.{AreOf, turns};
ghost use Rattle.rev_trace.specs.Traces.{lanes_of};

use crate::fault::RecordingFault;
use rev_commands::Command;
use rev_desk::{Desk, Entry, Reply, Unsaid, Why};
use rev_fields::push_number;
use rev_graph::Graph;
use rev_manifest::Manifest;
use rev_report::open_desk;
use rev_script::{Turn, turns_of};
use rev_trace::Trace;
use std::alloc::{AllocError, Global};

// The desk of a graph.
fn desk_of(alloc: Global, graph: Graph, trace: &Trace) -> Result<Desk, RecordingFault>
    requires { length trace.now.lanes.items ≤ Trace.MAX_LANES }
    ensures { IfOk result (λ desk. desk ≡ opened_desk graph.manifest trace.now.opening.jobs trace.now.opening.state
        (length trace.now.lanes.items + 1)) }
{
    match open_desk(alloc, graph, &trace.opening, &trace.lanes) {
        Ok(desk) => Ok(desk),
        Err(_) => Err(RecordingFault::Memory),
    }
}

/// A desk with an empty journal for this recording. It has one lane more than the trace, for questions.
///
/// # Errors
/// [`RecordingFault::Graph`] where the manifest's edges make no graph; otherwise `Memory` where memory was refused.
pub fn open(alloc: Global, manifest: &Manifest, trace: &Trace) -> Result<Desk, RecordingFault>
    requires { length trace.now.lanes.items ≤ Trace.MAX_LANES }
    ensures { IfOk result (λ desk. desk ≡ opened_desk manifest.now trace.now.opening.jobs trace.now.opening.state
        (length trace.now.lanes.items + 1)) }
{
    match Graph::build(alloc, manifest) {
        Ok(graph) => desk_of(alloc, graph, trace),
        Err(fault) => Err(RecordingFault::Graph(fault)),
    }
}

// What kept a command from an entry.
fn why_of(unsaid: Unsaid) -> Why
    ensures { result ≡ unsaid.why }
{
    unsaid.why
}

// Says a command of a lane. Where the journal has no room for its entry, it is left out.
fn say(desk: &mut Desk, lane: u32, command: Command) -> Result<(), RecordingFault>
    requires { lane < desk.old.lanes }
    ensures after { OnOk result (desk.new ≡ after_answer desk.old lane command) }
    ensures lanes { OnOk result (desk.new.lanes ≡ desk.old.lanes) }
{
    match desk.apply(lane, command) {
        Ok(_) => Ok(()),
        Err(unsaid) => match why_of(unsaid) {
            Why::JournalFull => Ok(()),
            Why::Memory => Err(RecordingFault::Memory),
        },
    }
}

// Says commands of lanes in turn.
fn say_turns(desk: &mut Desk, turns: &[Turn<'_>]) -> Result<(), RecordingFault>
    requires { AreOf desk.old.lanes (seen_turns turns.now) }
    ensures after { OnOk result (desk.new ≡ after_turns desk.old (seen_turns turns.now)) }
    ensures lanes { OnOk result (desk.new.lanes ≡ desk.old.lanes) }
{
    for turn in turns {
        let command = turn.command.copy()?;
        say(desk, turn.lane, command)?;
    }
    Ok(())
}

/// Sends all commands of a trace to its desk, in the order in which `run` takes them. Breaks do not stop it. Where the
/// journal is full, the remaining commands are left out.
///
/// # Errors
/// [`RecordingFault::Memory`] alone, where memory was refused.
pub fn replay(alloc: Global, desk: &mut Desk, trace: &Trace) -> Result<(), RecordingFault>
    requires few { length trace.now.lanes.items ≤ Trace.MAX_LANES }
    requires lanes { desk.old.lanes ≡ length trace.now.lanes.items + 1 }
    ensures { OnOk result (desk.new ≡ after_turns desk.old (turns (lanes_of trace.now.lanes.items))) }
{
    let turns = turns_of(alloc, &trace.lanes)?;
    say_turns(desk, &turns)
}

// Adds how many events there were.
fn push_events(text: &mut Vec<u8>, events: u64) -> Result<(), AllocError>
    ensures { OnOk result (text.new.items ≡ text.old.items ++ events_words events) }
{
    push_number(text, events)?;
    text.extend_from_slice(if events == 1 { b" event" } else { b" events" })
}

// What stands behind the number of other commands.
fn others_end(others: u64) -> &'static [u8]
    ensures { result.now ≡ others_end_of others }
{
    if others == 1 {
        b" other command"
    } else {
        b" other commands"
    }
}

// Adds how many other commands there were; nothing where there was none.
fn push_others(text: &mut Vec<u8>, others: u64) -> Result<(), AllocError>
    ensures { OnOk result (text.new.items ≡ text.old.items ++ others_words others) }
{
    if others == 0 {
        return Ok(());
    }
    text.extend_from_slice(b" and ")?;
    push_number(text, others)?;
    text.extend_from_slice(others_end(others))
}

// Adds how many of these were refused.
fn push_refused(text: &mut Vec<u8>, refused: u64) -> Result<(), AllocError>
    ensures { OnOk result (text.new.items ≡ text.old.items ++ refused_words refused) }
{
    if refused == 0 {
        return text.extend_from_slice(b", none refused\n");
    }
    text.extend_from_slice(b", ")?;
    push_number(text, refused)?;
    text.extend_from_slice(b" refused\n")
}

// Adds how many events and other commands there were, and how many of them were refused.
fn push_counts(text: &mut Vec<u8>, events: u64, others: u64, refused: u64) -> Result<(), AllocError>
    ensures { OnOk result (text.new.items ≡ text.old.items ++ counts_words events others refused) }
{
    push_events(text, events)?;
    push_others(text, others)?;
    push_refused(text, refused)
}

// Whether the command of an entry is an event.
fn is_event(entry: &Entry) -> bool {
    matches!(entry.command, Command::Event(_))
}

// Whether an entry was refused.
fn is_refused(entry: &Entry) -> bool {
    matches!(entry.reply, Reply::Refused(_))
}

/// The number of refused commands in a desk's journal.
pub fn refused_count(desk: &Desk) -> u64 {
    desk.journal()
        .iter()
        .filter(|entry| is_refused(entry))
        .count() as u64
}

/// The line that describes a replay: how many events the desk's journal has, how many other commands where it has some,
/// and how many of all these were refused. A command of the build has two events, its start and its end.
///
/// # Errors
/// [`AllocError`] only where an allocation was refused.
pub fn replay_text(alloc: Global, desk: &Desk) -> Result<Vec<u8>, AllocError> {
    let mut text = Vec::new(alloc);
    let entries = desk.journal();
    let events = entries.iter().filter(|entry| is_event(entry)).count() as u64;
    let others = (entries.len() as u64).saturating_sub(events);
    push_counts(&mut text, events, others, refused_count(desk))?;
    Ok(text)
}
