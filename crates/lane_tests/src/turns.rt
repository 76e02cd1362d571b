//! Lanes that go on in turn from one thread.
ghost use Rattle.std.specs.Prelude.{◌≡◌};

use crate::builds::{MANIFEST, desk_of, trace_of};
use rev_desk::{Command, Desk};
use rev_trace::Trace;
use rev_workers::{Lane, Shared, close};
use std::alloc::{AllocError, Global};
use std::marker::Brand;
use std::sync::Wait;
use std::sync::ledger::{Blank, Ledger};

// The commands of a trace's first lane.
fn commands_of(alloc: Global, trace: Trace) -> Vec<Command> {
    let mut lanes = trace.into_lanes().into_iter();
    match lanes.next() {
        Some(commands) => commands,
        None => Vec::new(alloc),
    }
}

// Two lanes, of which the first has what both say in turn.
const IN_TURN: &str = "rebug-trace 1\njobs 2\nstamp a.c 10\nstamp b.c 20\n\
lane 0\nplan app\nbreak finish a.o\nstart a.o 0\nstart b.o 1\nundo 9\nundo 4\nlane 1\n";

// A lane sends a command: what it has seen then.
fn seen_after<L: Ledger, R: Wait>(
    rt: &R,
    shared: &Shared<L>,
    lane: &mut Lane<L>,
    command: Command,
) -> Result<u64, AllocError> {
    if lane.number() >= shared.lanes() {
        return Err(AllocError);
    }
    match lane.send(shared, rt, command) {
        Ok(_) => Ok(lane.seen()),
        Err(_) => Err(AllocError),
    }
}

// Lanes send commands in turn: what each has seen after its answer.
fn seen_in_turn<L: Ledger, R: Wait>(
    rt: &R,
    alloc: Global,
    shared: &Shared<L>,
    lanes: &mut [Lane<L>],
    commands: Vec<Command>,
) -> Result<Vec<u64>, AllocError> {
    let mut seen = Vec::new(alloc);
    let mut turn = 0;
    for command in commands {
        if turn >= lanes.len() {
            turn = 0;
        }
        let Some(lane) = lanes.get_mut(turn) else {
            return Err(AllocError);
        };
        seen.push(seen_after(rt, shared, lane, command)?)?;
        turn = turn.wrapping_add(1);
    }
    Ok(seen)
}

// The number and the lane of the fault with which lanes are closed, zeros where there is none.
fn close_code<L: Ledger>(shared: Shared<L>, lanes: Vec<Lane<L>>) -> (u16, u32) {
    match close(shared, lanes) {
        Ok(_) => (0, 0),
        Err(fault) => (fault.code.number(), fault.lane),
    }
}

// What lanes that send in turn have seen, and how they are closed.
fn turns<L: Ledger, R: Wait>(
    rt: &R,
    alloc: Global,
    blank: Blank,
    desk: Desk,
    commands: Vec<Command>,
    left_out: bool,
) -> (Result<Vec<u64>, AllocError>, (u16, u32))
    requires name { blank.name ≡ L.name }
    requires parts { blank.parts ≡ L.parts }
    requires lanes { blank.parts ≡ desk.lanes }
{
    let Ok((shared, lanes)) = Shared::<L>::new(alloc, desk, blank) else {
        return (Err(AllocError), (0, 0));
    };
    let mut lanes = lanes;
    let seen = seen_in_turn(rt, alloc, &shared, &mut lanes, commands);
    if left_out {
        let _lane = lanes.pop();
    }
    (seen, close_code(shared, lanes))
}

fn turns_of<R: Wait>(
    rt: &R,
    alloc: Global,
    desk: Desk,
    commands: Vec<Command>,
    left_out: bool,
) -> (Result<Vec<u64>, AllocError>, (u16, u32)) {
    let blank = Blank::new(u64::from(desk.lanes()));
    turns::<Brand, R>(rt, alloc, blank, desk, commands, left_out)
}

// What the two lanes have seen, and how they are closed.
fn taken_in_turn<R: Wait>(
    rt: &R,
    alloc: Global,
    left_out: bool,
) -> Result<(Vec<u64>, (u16, u32)), AllocError> {
    let trace = trace_of(alloc, IN_TURN)?;
    let desk = desk_of(alloc, MANIFEST, &trace)?;
    let (seen, closed) = turns_of(rt, alloc, desk, commands_of(alloc, trace), left_out);
    Ok((seen?, closed))
}

#[test]
fn what_a_lane_has_seen_rises(rt: HostRuntime) -> Result<(), AllocError> {
    let (seen, closed) = taken_in_turn(&rt, rt.alloc(), false)?;
    assert!(rt; seen.as_slice() == [1, 2, 3, 4, 5, 6].as_slice());
    assert!(rt; closed == (0, 0));
    Ok(())
}

#[test]
fn a_lane_that_is_left_out_is_missing(rt: HostRuntime) -> Result<(), AllocError> {
    let (_seen, closed) = taken_in_turn(&rt, rt.alloc(), true)?;
    assert!(rt; closed == (110, 1));
    Ok(())
}
