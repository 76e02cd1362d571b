//! Lanes that undo what others did, that a break stops, and that meet a journal which is full.
use crate::builds::{MANIFEST, Outcome, closed, desk_of, journal_text, run_desk, trace_of};
use crate::gates::{BEHIND_1, Gates, Hold, NONE};
use rev_cells::{Cell, Value};
use rev_desk::{Command, Desk};
use rev_paths::Name;
use rev_trace::Trace;
use std::alloc::{AllocError, Global};
use std::sync::Wait;
use std::thread::Threads;

const UNDO_OF_THE_OTHERS: &str = "rebug-trace 1\njobs 2\nstamp a.c 10\nstamp b.c 20\n\
lane 0\ntouch a.c 11\nundo 1:1\nlane 1\ntouch b.c 21\nundo 0:1\n";

// The stamp of a path, 0 where it has none.
fn stamp_of(alloc: Global, desk: &Desk, path: &[u8]) -> Result<u64, AllocError> {
    let Ok(path) = Name::new(alloc, path) else {
        return Err(AllocError);
    };
    let cell = Cell::Stamp(path);
    match desk.history().cells().get(&cell) {
        Some(Value::Stamp(stamp)) => Ok(*stamp),
        _ => Ok(0),
    }
}

// How often each lane was told that all is well, how many entries and kept events there are, and two stamps.
fn counts_text(alloc: Global, desk: &Desk) -> Result<String, AllocError> {
    let told = journal_text(alloc, desk)?;
    format!(in alloc;
        "{} {} {} {}; {} {}",
        told.as_str().matches("0 ok; ").count(),
        told.as_str().matches("1 ok; ").count(),
        desk.journal().len(),
        desk.history().kept().len(),
        stamp_of(alloc, desk, b"a.c")?,
        stamp_of(alloc, desk, b"b.c")?
    )
}

#[test]
fn each_undoes_what_the_other_did(rt: HostRuntime) -> Result<(), AllocError> {
    let alloc = rt.alloc();
    // Each lane goes on once the other one's first call is answered.
    let gate = Gates::new(((0, 2), (1, 1), 1_000_000), ((1, 2), (0, 1), 1_000_000), 0);
    let desk = closed(&rt, alloc, MANIFEST, UNDO_OF_THE_OTHERS, &gate)?;
    let told = counts_text(alloc, &desk)?;
    assert!(rt; told.as_str() == "2 2 4 0; 10 20", "{told}");
    Ok(())
}

const PAUSED: &str = "rebug-trace 1\njobs 2\nstamp a.c 10\nstamp b.c 20\n\
lane 0\nbreak touch a.c\ntouch a.c 11\ncontinue\nlane 1\ntouch b.c 21\n";

// A desk's journal, and the events that it keeps.
fn kept_text(alloc: Global, desk: &Desk) -> Result<String, AllocError> {
    let mut text = journal_text(alloc, desk)?;
    text.push_str(&format!(in alloc; "{:?}", desk.history().kept())?)?;
    Ok(text)
}

#[test]
fn a_break_stops_the_other_lane(rt: HostRuntime) -> Result<(), AllocError> {
    let alloc = rt.alloc();
    // Lane 1 is let in once lane 0 has met the break, and lane 0 goes on once lane 1 is answered.
    let gate = Gates::new(((1, 1), (0, 2), 1_000_000), ((0, 3), (1, 1), 1_000_000), 0);
    let desk = closed(&rt, alloc, MANIFEST, PAUSED, &gate)?;
    let told = kept_text(alloc, &desk)?;
    assert!(rt;
        told.as_str() == "0 ok; 0 ok break 1; 1 refused 92; 0 ok; [2]",
        "{told}"
    );
    Ok(())
}

const LAST_ENTRIES: &str = "rebug-trace 1\nlane 0\ncontinue\nlane 1\ncontinue\n";

// Lane 0 says so many times that the desk is to go on: whether each was answered.
fn fill(desk: &mut Desk, entries: usize) -> bool {
    for _ in 0..entries {
        if desk.lanes() == 0 || desk.apply(0, Command::Continue).is_err() {
            return false;
        }
    }
    true
}

// A fault with its lane, and how many entries the journal has.
fn fault_of(outcome: Outcome) -> (u16, u32, usize) {
    match outcome {
        Outcome::Closed(desk) => (0, 0, desk.journal().len()),
        Outcome::Fault(fault) => (fault.code.number(), fault.lane, fault.desk.journal().len()),
        Outcome::Memory | Outcome::TooManyLanes => (0, 0, 0),
    }
}

// A desk over a trace's opening whose journal takes so many more entries, and the trace.
fn filled(alloc: Global, text: &str, left: usize) -> Result<(Desk, Trace), AllocError> {
    let trace = trace_of(alloc, text)?;
    let mut desk = desk_of(alloc, MANIFEST, &trace)?;
    if !fill(&mut desk, Desk::MAX_ENTRIES.saturating_sub(left)) {
        return Err(AllocError);
    }
    Ok((desk, trace))
}

// What lanes are stopped for that meet a journal which takes so many more entries, where a call is held.
fn stopped<R: Threads + Wait + Sync>(
    rt: &R,
    alloc: Global,
    text: &str,
    left: usize,
    hold: Hold,
) -> Result<(u16, u32, usize), AllocError> {
    let (desk, trace) = filled(alloc, text, left)?;
    let gate = Gates::new(hold, NONE, 0);
    Ok(fault_of(run_desk(rt, alloc, desk, trace, &gate)))
}

// What lanes have to say, how many entries the journal takes, which call is held, and the least of the lanes that cannot
// say something, behind its fault and before the journal's entries.
type Stopped = (&'static str, usize, Hold, (u16, u32, usize));

const STOPPED: &[Stopped] = &[
    (LAST_ENTRIES, 1, BEHIND_1, (112, 1, 1_048_576)),
    (
        "rebug-trace 1\nlane 0\nlane 1\ncontinue\nlane 2\ncontinue\n",
        0,
        NONE,
        (112, 1, 1_048_576),
    ),
    (
        "rebug-trace 1\nlane 0\nlane 1\nlane 2\nback\n",
        0,
        NONE,
        (112, 2, 1_048_576),
    ),
];

#[test]
fn the_least_lane_that_a_full_journal_stops_is_named(rt: HostRuntime) -> Result<(), AllocError> {
    for (text, left, hold, wanted) in STOPPED {
        assert!(rt;
            stopped(&rt, rt.alloc(), text, *left, *hold)? == *wanted,
            "{text}"
        );
    }
    Ok(())
}
