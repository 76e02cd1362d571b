//! The comparison as JSON objects, one a line.
use crate::changes::{flags_that_differ, inputs_alone, outputs_alone};
use crate::facts::{Changed, Differing, Facts, Inverted, alone_in, counts};
use crate::flakes::{Days, Flake, Maker, Pasts, failed_in_one, failed_in_other, makers_of};
use crate::reads::{PathList, beside, listed, there_alone};
use crate::side::{Day, ending_word, event_name};
use rev_races_text::{Edge, Shown, Text, push_object};
use serde::Serialize;
use std::alloc::{AllocError, Global};

// Of how many commands that failed on one day alone the makers are told.
const FLAKES: usize = 20;

// One of the recordings.
#[derive(Clone, Copy, Serialize)]
struct RecordingObject<'a> {
    side: &'static str,
    recording: Text<'a>,
    edges: u32,
    ran: u64,
    failed: u64,
}

// A command that failed on one day and passed on the other, with a maker that had finished before it on the good day
// alone. `side` is the good day. The edges have their events there, and under `other` those of the bad day. `earlier`
// says that the maker did not run on the good day, since it had been made before.
#[derive(Clone, Copy, Serialize)]
struct FinishedObject<'a> {
    side: &'static str,
    user: Edge<'a>,
    maker: Edge<'a>,
    listed: bool,
    earlier: bool,
    other_user: Edge<'a>,
    other_maker: Option<Edge<'a>>,
    other_status: Option<&'static str>,
}

// An event.
#[derive(Clone, Copy, Serialize)]
struct EventObject<'a> {
    event: &'static str,
    output: Shown<'a>,
    number: u32,
}

// An event in both recordings.
#[derive(Clone, Copy, Serialize)]
struct EventsObject<'a> {
    a: EventObject<'a>,
    b: EventObject<'a>,
}

// Two events that depend on each other in the recording on whose side they are told, and stand there in this order.
#[derive(Clone, Copy, Serialize)]
struct InvertedObject<'a> {
    side: &'static str,
    first: EventsObject<'a>,
    second: EventsObject<'a>,
}

// An edge whose runs differ.
#[derive(Drop, Serialize)]
struct RunObject<'a> {
    a: Edge<'a>,
    b: Edge<'a>,
    status: bool,
    presence: bool,
    reads: bool,
    a_status: &'static str,
    b_status: &'static str,
    a_outputs: Vec<Shown<'a>>,
    b_outputs: Vec<Shown<'a>>,
    a_reads: Vec<String>,
    b_reads: Vec<String>,
}

// An edge whose statements differ.
#[derive(Drop, Serialize)]
struct StatementObject<'a> {
    a: Edge<'a>,
    b: Edge<'a>,
    outputs: bool,
    inputs: bool,
    command: bool,
    flags: Vec<Shown<'a>>,
    a_outputs: Vec<Shown<'a>>,
    b_outputs: Vec<Shown<'a>>,
    a_inputs: Vec<Shown<'a>>,
    b_inputs: Vec<Shown<'a>>,
    a_command: Text<'a>,
    b_command: Text<'a>,
}

// An edge of one manifest alone, or one that ran in one recording alone.
#[derive(Clone, Copy, Serialize)]
struct AloneObject<'a> {
    side: &'static str,
    edge: Edge<'a>,
    status: Option<&'static str>,
}

// The two recordings.
#[derive(Clone, Copy)]
struct Both<'a> {
    a: Day<'a>,
    b: Day<'a>,
}

fn push_recording<'a>(alloc: Global, text: &mut Vec<u8>, day: Day<'a>) -> Result<(), AllocError> {
    let (ran, failed) = counts(day.lasts);
    let object = RecordingObject {
        side: day.key,
        recording: Text(day.side.name),
        edges: day.side.edges(),
        ran,
        failed,
    };
    push_object(alloc, text, "recording", &object)
}

fn push_finished<'a>(
    alloc: Global,
    text: &mut Vec<u8>,
    days: Days<'a>,
    flake: &Flake,
    maker: &Maker,
) -> Result<(), AllocError> {
    let (other_maker, other_status) = match maker.twin {
        Some(twin) => (Some(days.bad.edge(twin)), days.bad.status(twin)),
        None => (None, None),
    };
    let object = FinishedObject {
        side: days.good.key,
        user: days.good.edge(flake.good_edge),
        maker: days.good.edge(maker.edge),
        listed: maker.is_listed,
        earlier: maker.is_earlier,
        other_user: days.bad.edge(flake.bad_edge),
        other_maker,
        other_status,
    };
    push_object(alloc, text, "finished", &object)
}

fn push_flakes<'a>(
    alloc: Global,
    text: &mut Vec<u8>,
    days: Days<'a>,
    flakes: &[Flake],
) -> Result<(), AllocError> {
    if flakes.is_empty() {
        return Ok(());
    }
    let pasts = Pasts::new(alloc, days)?;
    for flake in flakes.iter().take(FLAKES) {
        let makers = makers_of(alloc, days, &pasts, flake)?;
        for maker in &makers {
            push_finished(alloc, text, days, flake, maker)?;
        }
    }
    Ok(())
}

fn event_object<'a>(day: Day<'a>, number: u32) -> EventObject<'a> {
    let (event, output) = event_name(day.side, number);
    EventObject {
        event,
        output,
        number,
    }
}

fn events_object<'a>(both: Both<'a>, number: u32, other: u32) -> EventsObject<'a> {
    EventsObject {
        a: event_object(both.a, number),
        b: event_object(both.b, other),
    }
}

// Adds the pair that depends in A.
fn push_inverted<'a>(
    alloc: Global,
    text: &mut Vec<u8>,
    both: Both<'a>,
    inverted: Option<Inverted>,
) -> Result<(), AllocError> {
    let Some(inverted) = inverted else {
        return Ok(());
    };
    let object = InvertedObject {
        side: both.a.key,
        first: events_object(both, inverted.first, inverted.other_first),
        second: events_object(both, inverted.second, inverted.other_second),
    };
    push_object(alloc, text, "inverted", &object)
}

// Adds the pair that depends in B.
fn push_other_inverted<'a>(
    alloc: Global,
    text: &mut Vec<u8>,
    both: Both<'a>,
    inverted: Option<Inverted>,
) -> Result<(), AllocError> {
    let Some(inverted) = inverted else {
        return Ok(());
    };
    let object = InvertedObject {
        side: both.b.key,
        first: events_object(both, inverted.other_first, inverted.first),
        second: events_object(both, inverted.other_second, inverted.second),
    };
    push_object(alloc, text, "inverted", &object)
}

// The paths that one of two lists has alone. They are texts, since a list that was read of a depfile is gone before the
// object that has them is written.
fn reads_alone(
    alloc: Global,
    here: &PathList<'_>,
    there: &PathList<'_>,
) -> Result<Vec<String>, AllocError> {
    let paths = beside(alloc, here.as_slice(), there.as_slice())?;
    let mut texts = Vec::new(alloc);
    for path in &paths {
        texts.push(format!(in alloc; "{path}")?)?;
    }
    Ok(texts)
}

fn push_difference<'a>(
    alloc: Global,
    text: &mut Vec<u8>,
    both: Both<'a>,
    d: &Differing,
) -> Result<(), AllocError> {
    let (one, other) = (both.a.side, both.b.side);
    let here = listed(alloc, one, d.edge, &d.last)?;
    let there = listed(alloc, other, d.twin, &d.other)?;
    let a_outputs = there_alone(alloc, one, d.edge, &d.last, other, &d.other)?;
    let b_outputs = there_alone(alloc, other, d.twin, &d.other, one, &d.last)?;
    let a_reads = reads_alone(alloc, &here, &there)?;
    let b_reads = reads_alone(alloc, &there, &here)?;
    let object = RunObject {
        a: both.a.edge(d.edge),
        b: both.b.edge(d.twin),
        status: d.differences.status,
        presence: d.differences.presence,
        reads: d.differences.reads,
        a_status: ending_word(d.last.ending),
        b_status: ending_word(d.other.ending),
        a_outputs,
        b_outputs,
        a_reads,
        b_reads,
    };
    push_object(alloc, text, "run", &object)
}

fn push_change<'a>(
    alloc: Global,
    text: &mut Vec<u8>,
    both: Both<'a>,
    changed: &Changed,
) -> Result<(), AllocError> {
    let (one, other) = (both.a.side, both.b.side);
    let (Some(build), Some(twin)) = (one.build(changed.edge), other.build(changed.twin)) else {
        return Ok(());
    };
    let flags = flags_that_differ(alloc, one, build, other, twin)?;
    let a_outputs = outputs_alone(alloc, build, twin)?;
    let b_outputs = outputs_alone(alloc, twin, build)?;
    let a_inputs = inputs_alone(alloc, build, twin)?;
    let b_inputs = inputs_alone(alloc, twin, build)?;
    let object = StatementObject {
        a: both.a.edge(changed.edge),
        b: both.b.edge(changed.twin),
        outputs: changed.changes.outputs,
        inputs: changed.changes.inputs,
        command: changed.changes.command,
        flags,
        a_outputs,
        b_outputs,
        a_inputs,
        b_inputs,
        a_command: Text(build.command()),
        b_command: Text(twin.command()),
    };
    push_object(alloc, text, "statement", &object)
}

fn push_edges<'a>(
    alloc: Global,
    text: &mut Vec<u8>,
    kind: &'static str,
    day: Day<'a>,
    edges: &[u32],
) -> Result<(), AllocError> {
    for edge in edges {
        let object = AloneObject {
            side: day.key,
            edge: day.edge(*edge),
            status: day.status(*edge),
        };
        push_object(alloc, text, kind, &object)?;
    }
    Ok(())
}

// Adds the edges that stand or ran in one recording alone.
fn push_alone<'a>(
    alloc: Global,
    text: &mut Vec<u8>,
    both: Both<'a>,
    facts: &Facts,
) -> Result<(), AllocError> {
    let only = alone_in(alloc, both.a.twins)?;
    push_edges(alloc, text, "edge", both.a, &only)?;
    let other_only = alone_in(alloc, both.b.twins)?;
    push_edges(alloc, text, "edge", both.b, &other_only)?;
    push_edges(alloc, text, "ran", both.a, &facts.ran)?;
    push_edges(alloc, text, "ran", both.b, &facts.other_ran)
}

// Adds the commands that failed in one recording and passed in the other.
fn push_both_flakes<'a>(
    alloc: Global,
    text: &mut Vec<u8>,
    both: Both<'a>,
    differing: &[Differing],
) -> Result<(), AllocError> {
    let (a, b) = (both.a, both.b);
    let flakes = failed_in_one(alloc, differing)?;
    push_flakes(alloc, text, Days { bad: a, good: b }, &flakes)?;
    let flakes = failed_in_other(alloc, differing)?;
    push_flakes(alloc, text, Days { bad: b, good: a }, &flakes)
}

/// The comparison of two recordings as JSON objects, one a line.
pub(crate) fn comparison_json<'a>(
    alloc: Global,
    a: Day<'a>,
    b: Day<'a>,
    facts: &Facts,
) -> Result<Vec<u8>, AllocError> {
    let both = Both { a, b };
    let mut text = Vec::new(alloc);
    push_recording(alloc, &mut text, a)?;
    push_recording(alloc, &mut text, b)?;
    push_both_flakes(alloc, &mut text, both, &facts.differing)?;
    push_inverted(alloc, &mut text, both, facts.inverted)?;
    push_other_inverted(alloc, &mut text, both, facts.other_inverted)?;
    for difference in &facts.differing {
        push_difference(alloc, &mut text, both, difference)?;
    }
    for changed in &facts.changed {
        push_change(alloc, &mut text, both, changed)?;
    }
    push_alone(alloc, &mut text, both, facts)?;
    Ok(text)
}
