//! Lanes that do not fit the journal when their desk is closed.
ghost use Rattle.std.specs.Prelude.{◌≡◌};

use crate::builds::{MANIFEST, desk_of, trace_of};
use rev_desk::{Command, Desk};
use rev_workers::{Lane, Shared, close};
use std::alloc::Global;
use std::marker::Brand;
use std::sync::Wait;
use std::sync::ledger::{Blank, Ledger};
use std::test::Fail;

const TWO_LANES: &str = "rebug-trace 1\nlane 0\nlane 1\n";

// A lane says that it steps back, and is told that nothing is kept.
fn say<L: Ledger, R: Wait>(rt: &R, shared: &Shared<L>, lane: &mut Lane<L>) {
    if lane.number() < shared.lanes() {
        let _reply = lane.send(shared, rt, Command::Back);
    }
}

// The number and the lane of the fault with which lanes are closed, zeros where there is none.
fn close_code<L: Ledger>(shared: Shared<L>, lanes: Vec<Lane<L>>) -> (u16, u32) {
    match close(shared, lanes) {
        Ok(_) => (0, 0),
        Err(fault) => (fault.code.number(), fault.lane),
    }
}

// How two lanes are closed that said something in turn, each twice, where a lane is left out.
fn close_without<L: Ledger, R: Wait>(
    rt: &R,
    alloc: Global,
    blank: Blank,
    desk: Desk,
    left_out: Option<usize>,
) -> (u16, u32)
    requires name { blank.name ≡ L.name }
    requires parts { blank.parts ≡ L.parts }
    requires lanes { blank.parts ≡ desk.lanes }
{
    let Ok((shared, lanes)) = Shared::<L>::new(alloc, desk, blank) else {
        return (0, 1);
    };
    let mut lanes = lanes;
    for lane in &mut lanes {
        say(rt, &shared, lane);
    }
    for lane in &mut lanes {
        say(rt, &shared, lane);
    }
    if let Some(place) = left_out {
        if place < lanes.len() {
            let _lane = lanes.remove(place);
        }
    }
    close_code(shared, lanes)
}

fn closed_without<R: Wait>(
    rt: &R,
    alloc: Global,
    desk: Desk,
    left_out: Option<usize>,
) -> (u16, u32) {
    let blank = Blank::new(u64::from(desk.lanes()));
    close_without::<Brand, R>(rt, alloc, blank, desk, left_out)
}

// How two lanes of a new desk are closed.
fn close_new<R: Wait>(rt: &R, alloc: Global, left_out: Option<usize>) -> Result<(u16, u32), Fail> {
    let trace = trace_of(alloc, TWO_LANES)?;
    let desk = desk_of(alloc, MANIFEST, &trace)?;
    Ok(closed_without(rt, alloc, desk, left_out))
}

// The lane that is left out, and the number and the lane of the fault.
type Closing = (Option<usize>, (u16, u32));

const CLOSINGS: &[Closing] = &[(None, (0, 0)), (Some(0), (110, 0)), (Some(1), (110, 1))];

#[test]
fn lanes_that_are_left_out_are_named(rt: HostRuntime) -> Result<(), Fail> {
    for (left_out, wanted) in CLOSINGS {
        let told = close_new(&rt, rt.alloc(), *left_out)?;
        assert!(rt; told == *wanted, "{left_out:?}");
    }
    Ok(())
}
