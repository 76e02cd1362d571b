//! Small builds, and lanes that say a trace to a desk of one.
ghost use Rattle.std.specs.Prelude.{◌≡◌, ◌<◌, ◌≤◌, length};

use crate::gates::Gates;
use rev_desk::{Desk, Reply};
use rev_events::Refusal;
use rev_graph::Graph;
use rev_manifest::Manifest;
use rev_trace::Trace;
use rev_workers::{CloseFault, Shared, run_workers};
use std::alloc::{AllocError, Global};
use std::marker::Brand;
use std::sync::Wait;
use std::sync::ledger::{Blank, Ledger};
use std::thread::Threads;

/// Two objects and a program.
pub(crate) const MANIFEST: &str =
    "rule cc\n  command = cc -c $in -o $out\nrule ld\n  command = ld $in -o $out\n\
build a.o: cc a.c\nbuild b.o: cc b.c\nbuild app: ld a.o b.o\n";

fn manifest_of(alloc: Global, content: &str) -> Result<Manifest, AllocError> {
    let name = Vec::from_slice(alloc, b"build.ninja")?;
    let files = vec![in alloc; (name, Vec::from_slice(alloc, content.as_bytes())?)]?;
    match rev_manifest::read(alloc, &files) {
        Ok(manifest) => Ok(manifest),
        Err(_) => Err(AllocError),
    }
}

fn graph_of(alloc: Global, content: &str) -> Result<Graph, AllocError> {
    let manifest = manifest_of(alloc, content)?;
    match Graph::build(alloc, &manifest) {
        Ok(graph) => Ok(graph),
        Err(_) => Err(AllocError),
    }
}

pub(crate) fn trace_of(alloc: Global, text: &str) -> Result<Trace, AllocError> {
    match rev_trace::read(alloc, text.as_bytes()) {
        Ok(trace) => Ok(trace),
        Err(_) => Err(AllocError),
    }
}

// A new desk over a manifest, of a trace's lanes.
pub(crate) fn desk_of(alloc: Global, content: &str, trace: &Trace) -> Result<Desk, AllocError> {
    let Ok(lanes) = u32::try_from(trace.lanes.len()) else {
        return Err(AllocError);
    };
    match Desk::new(alloc, graph_of(alloc, content)?, &trace.opening, lanes) {
        Ok(desk) => Ok(desk),
        Err(_) => Err(AllocError),
    }
}

// What lanes on a desk came to.
#[derive(Drop)]
pub(crate) enum Outcome {
    Memory,
    TooManyLanes,
    Closed(Desk),
    Fault(CloseFault),
}

fn run_at<L: Ledger + Send + Sync, R: Threads + Wait + Sync>(
    rt: &R,
    alloc: Global,
    blank: Blank,
    desk: Desk,
    trace: Trace,
    gate: &Gates,
) -> Outcome
    requires name { blank.name ≡ L.name }
    requires parts { blank.parts ≡ L.parts }
    requires lanes { blank.parts ≡ desk.lanes }
    requires few { length trace.lanes.items ≤ desk.lanes }
{
    let Ok((shared, lanes)) = Shared::<L>::new(alloc, desk, blank) else {
        return Outcome::Memory;
    };
    match run_workers(rt, alloc, shared, lanes, trace, gate) {
        Ok(desk) => Outcome::Closed(desk),
        Err(fault) => Outcome::Fault(fault),
    }
}

// Lanes say a trace to a desk.
pub(crate) fn run_desk<R: Threads + Wait + Sync>(
    rt: &R,
    alloc: Global,
    desk: Desk,
    trace: Trace,
    gate: &Gates,
) -> Outcome {
    if trace.lanes.len() > desk.lanes() as usize {
        return Outcome::TooManyLanes;
    }
    let blank = Blank::new(u64::from(desk.lanes()));
    run_at::<Brand, R>(rt, alloc, blank, desk, trace, gate)
}

// Lanes say a trace to a new desk over a manifest.
pub(crate) fn run<R: Threads + Wait + Sync>(
    rt: &R,
    alloc: Global,
    content: &str,
    text: &str,
    gate: &Gates,
) -> Result<Outcome, AllocError> {
    let trace = trace_of(alloc, text)?;
    let desk = desk_of(alloc, content, &trace)?;
    Ok(run_desk(rt, alloc, desk, trace, gate))
}

// The number of a reply's refusal, 0 where it is none.
pub(crate) fn code_of(reply: Reply) -> u16 {
    match reply {
        Reply::Refused(refusal) => refusal.code(),
        _ => 0,
    }
}

fn push_refusal(alloc: Global, text: &mut String, refusal: Refusal) -> Result<(), AllocError> {
    text.push_str(&format!(in alloc; " refused {}", refusal.code())?)?;
    for number in refusal.numbers() {
        if let Some(number) = number {
            text.push_str(&format!(in alloc; " {number}")?)?;
        }
    }
    Ok(())
}

// A reply as reports have it, but for the number of its entry.
fn push_reply(alloc: Global, text: &mut String, reply: Reply) -> Result<(), AllocError> {
    match reply {
        Reply::Accepted(_, None) => text.push_str(" ok"),
        Reply::Accepted(_, Some(met)) => text.push_str(&format!(in alloc; " ok break {met}")?),
        Reply::Coned(_, count) => text.push_str(&format!(in alloc; " cone {count}")?),
        Reply::Refused(refusal) => push_refusal(alloc, text, refusal),
    }
}

// Lanes and replies of a desk's journal, as reports have them.
pub(crate) fn journal_text(alloc: Global, desk: &Desk) -> Result<String, AllocError> {
    let mut text = String::new(alloc);
    for entry in desk.journal() {
        text.push_str(&format!(in alloc; "{}", entry.lane)?)?;
        push_reply(alloc, &mut text, entry.reply)?;
        text.push_str("; ")?;
    }
    Ok(text)
}

// The desk that comes back where lanes say a trace to a new one over a manifest.
pub(crate) fn closed<R: Threads + Wait + Sync>(
    rt: &R,
    alloc: Global,
    content: &str,
    text: &str,
    gate: &Gates,
) -> Result<Desk, AllocError> {
    match run(rt, alloc, content, text, gate)? {
        Outcome::Closed(desk) => Ok(desk),
        Outcome::Fault(_fault) => Err(AllocError),
        Outcome::Memory | Outcome::TooManyLanes => Err(AllocError),
    }
}

// Whether lanes that say a trace to a new desk over a manifest are told this.
pub(crate) fn is_told<R: Threads + Wait + Sync>(
    rt: &R,
    alloc: Global,
    content: &str,
    text: &str,
    gate: &Gates,
    wanted: &str,
) -> Result<bool, AllocError> {
    let desk = closed(rt, alloc, content, text, gate)?;
    Ok(journal_text(alloc, &desk)?.as_str() == wanted)
}
