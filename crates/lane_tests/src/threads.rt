//! Lanes in threads of their own, which wait for one another, or for nobody.
use crate::builds::{MANIFEST, closed, is_told, journal_text};
use crate::gates::{BEHIND_1, Gates, Hold, NONE};
use std::alloc::{AllocError, Global};
use std::sync::Wait;
use std::thread::Threads;

const UNDONE_BY_ANOTHER: &str = "rebug-trace 1\njobs 2\nstamp a.c 10\nstamp b.c 20\n\
lane 0\nplan app\nstart a.o 0\nfinish a.o 100\nlane 1\nundo 0:3\n";

const LINKED_BY_ANOTHER: &str = "rebug-trace 1\njobs 2\nstamp a.c 10\nstamp b.c 20\n\
lane 0\nplan app\nstart a.o 0\nfinish a.o 100\nstart b.o 0\nfinish b.o 110\nlane 1\nstart app 0\n";

const ONE_JOB: &str = "rebug-trace 1\njobs 1\nstamp a.c 10\nstamp b.c 20\n\
lane 0\nplan app\nstart a.o 0\nlane 1\nstart b.o 0\n";

const THREE_LANES: &str = "rebug-trace 1\njobs 1\nstamp a.c 10\nstamp b.c 20\n\
lane 0\nplan app\nstart a.o 0\nstart b.o 0\nlane 1\nstart b.o 0\nlane 2\nstart b.o 0\nstart a.o 0\n";

// Both jobs are had by all; the two edges want one.
const BY_JOB: &str = "rebug-trace 1\njobs 2\nstamp a.c 10\nstamp b.c 20\n\
lane 0\nplan app\nstart a.o 0\nfinish a.o 100\nlane 1\nstart b.o 0\n";

const POOLS: &str =
    "pool one\n  depth = 1\npool any\n  depth = 0\nrule r\n  command = r $out\n  pool = one\n\
build x: r\nbuild y: r\nbuild z: r\n  pool = any\nbuild t: r\n  pool = console\n";

const BY_SLOT: &str = "rebug-trace 1\njobs 2\n\
lane 0\nplan x y\nstart x 0 0\nfinish x 5\nlane 1\nstart y 1 0\n";

const HEADER: &str = "rule gen\n  command = gen $out\nrule cc\n  command = cc $in $out\n\
build g.h: gen\nbuild grp: phony || g.h\nbuild x.o: cc x.c || grp\n";

const BY_INPUT: &str = "rebug-trace 1\njobs 2\nstamp x.c 5\n\
lane 0\nplan x.o\nstart g.h 0\nfinish g.h 7\npass grp\nlane 1\nstart x.o 1\n";

// A file is touched while the other lane waits for a job.
const BY_JOB_TOUCHED: &str = "rebug-trace 1\njobs 2\nstamp a.c 10\nstamp b.c 20\n\
lane 0\nplan app\nstart a.o 0\ntouch b.c 21\nfinish a.o 100\nlane 1\nstart b.o 0\n";

// The same while it waits for an input, which wakes nobody.
const BY_INPUT_TOUCHED: &str = "rebug-trace 1\njobs 2\nstamp x.c 5\n\
lane 0\nplan x.o\nstart g.h 0\ntouch x.c 6\nfinish g.h 7\npass grp\nlane 1\nstart x.o 1\n";

// And nothing else comes.
const STALLED_TOUCHED: &str = "rebug-trace 1\njobs 2\nstamp a.c 10\nstamp b.c 20\n\
lane 0\nplan app\ntouch b.c 21\nlane 1\nstart app 0\n";

const STALLED: &str = "rebug-trace 1\njobs 2\nstamp a.c 10\nstamp b.c 20\n\
lane 0\nplan app\nlane 1\nstart app 0\n";

// A manifest, a trace, which calls are held, how many turns a lane lingers, and what lanes are told.
type Row = (&'static str, &'static str, Hold, Hold, u64, &'static str);

// The first call of lane 1 comes behind this one of lane 0.
const BEHIND_2: Hold = ((1, 1), (0, 2), 1_000_000);

const BEHIND_3: Hold = ((1, 1), (0, 3), 1_000_000);

// This call of lane 0 comes behind the first one of lane 1, or after so many turns.
const SECOND: Hold = ((0, 2), (1, 1), 100_000);

const THIRD: Hold = ((0, 3), (1, 1), 100_000);

const ROWS: &[Row] = &[
    // A lane waits for its gate.
    (
        MANIFEST,
        UNDONE_BY_ANOTHER,
        BEHIND_3,
        NONE,
        0,
        "0 ok; 0 ok; 0 ok; 1 ok; ",
    ),
    // The other lane waits for its gate.
    (
        MANIFEST,
        UNDONE_BY_ANOTHER,
        ((0, 1), (1, 1), 1_000_000),
        NONE,
        0,
        "1 refused 80; 0 ok; 0 ok; 0 ok; ",
    ),
    // A blocked command is served. Lane 1 is let in once something is planned. Lane 0 goes on where lane 1 has been told
    // something, or after so many turns.
    (
        MANIFEST,
        LINKED_BY_ANOTHER,
        BEHIND_1,
        SECOND,
        0,
        "0 ok; 0 ok; 0 ok; 0 ok; 0 ok; 1 ok; ",
    ),
    // A stall ends.
    (
        MANIFEST,
        ONE_JOB,
        BEHIND_2,
        NONE,
        0,
        "0 ok; 0 ok; 1 refused 72 0; ",
    ),
    // The end of a lane wakes those that wait. Lane 0 ends some time after lane 1 was let in, which waits for it by then.
    (
        MANIFEST,
        ONE_JOB,
        BEHIND_2,
        NONE,
        100_000,
        "0 ok; 0 ok; 1 refused 72 0; ",
    ),
    // A blocked start is served: lane 1 is let in once lane 0 has said so much.
    (
        MANIFEST,
        BY_JOB,
        BEHIND_2,
        THIRD,
        0,
        "0 ok; 0 ok; 0 ok; 1 ok; ",
    ),
    (
        POOLS,
        BY_SLOT,
        BEHIND_2,
        THIRD,
        0,
        "0 ok; 0 ok; 0 ok; 1 ok; ",
    ),
    (
        HEADER,
        BY_INPUT,
        BEHIND_2,
        THIRD,
        0,
        "0 ok; 0 ok; 0 ok; 0 ok; 1 ok; ",
    ),
    (
        MANIFEST,
        BY_JOB_TOUCHED,
        BEHIND_2,
        THIRD,
        0,
        "0 ok; 0 ok; 0 ok; 0 ok; 1 ok; ",
    ),
    (
        HEADER,
        BY_INPUT_TOUCHED,
        BEHIND_2,
        THIRD,
        0,
        "0 ok; 0 ok; 0 ok; 0 ok; 0 ok; 1 ok; ",
    ),
    (
        MANIFEST,
        STALLED_TOUCHED,
        BEHIND_1,
        SECOND,
        0,
        "0 ok; 0 ok; 1 refused 68 0; ",
    ),
    // A stall is refused.
    (
        MANIFEST,
        STALLED,
        BEHIND_1,
        NONE,
        0,
        "0 ok; 1 refused 68 0; ",
    ),
];

// Whether lanes are told what a row says.
fn are_told<R: Threads + Wait + Sync>(
    rt: &R,
    alloc: Global,
    row: &Row,
) -> Result<bool, AllocError> {
    let (content, text, first, second, lingers, wanted) = *row;
    let gate = Gates::new(first, second, lingers);
    is_told(rt, alloc, content, text, &gate, wanted)
}

#[test]
fn what_lanes_are_told(rt: HostRuntime) -> Result<(), AllocError> {
    for row in ROWS {
        assert!(rt; are_told(&rt, rt.alloc(), row)?, "{} {}", row.1, row.5);
    }
    Ok(())
}

// The entries of one lane, in their order.
fn told_to(alloc: Global, told: &str, lane: &str) -> Result<String, AllocError> {
    let mut text = String::new(alloc);
    for entry in told.split("; ") {
        if entry.starts_with(lane) {
            text.push_str(entry)?;
            text.push_str("; ")?;
        }
    }
    Ok(text)
}

// What lanes are told where the one job is taken before lanes 1 and 2 are let in, so all three wait for it, and nobody
// gives it back.
fn told_of_the_stall<R: Threads + Wait + Sync>(
    rt: &R,
    alloc: Global,
) -> Result<String, AllocError> {
    let gate = Gates::new(BEHIND_2, ((2, 1), (0, 2), 1_000_000), 0);
    let desk = closed(rt, alloc, MANIFEST, THREE_LANES, &gate)?;
    journal_text(alloc, &desk)
}

// Lanes, and what each is told. Which of them is answered first is left to the threads.
const OF_THE_STALL: &[(&str, &str)] = &[
    ("0 ", "0 ok; 0 ok; 0 refused 72 0; "),
    ("1 ", "1 refused 72 0; "),
    ("2 ", "2 refused 72 0; 2 refused 66; "),
];

#[test]
fn all_wait_and_the_stall_ends(rt: HostRuntime) -> Result<(), AllocError> {
    let told = told_of_the_stall(&rt, rt.alloc())?;
    for (lane, wanted) in OF_THE_STALL {
        assert!(rt;
            told_to(rt.alloc(), &told, lane)?.as_str() == *wanted,
            "{told}"
        );
    }
    Ok(())
}
