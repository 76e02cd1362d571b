// The small history over registers, told line by line: undo out of order, refusals, redo, and a cone.
use rev_causal::registers::history::{History, HistoryFault, Kept};
use rev_causal::registers::{Cell, Cells, Event, conflict, effect, footprint_of};
use std::alloc::{AllocError, Global};
use std::test::Fail;

// What stands before and behind the first space.
fn cut(text: &str) -> (&[u8], &[u8]) {
    cut_bytes(text.as_bytes())
}

fn cut_bytes(text: &[u8]) -> (&[u8], &[u8]) {
    match text.iter().position(|it| *it == b' ') {
        Some(at) => (&text[..at], &text[at + 1..]),
        None => (text, &[]),
    }
}

// The number that a digit says.
fn digit(text: &[u8]) -> u32 {
    match text.first() {
        Some(digit) => u32::from(digit.wrapping_sub(b'0')),
        None => 0,
    }
}

fn event_of(said: &[u8]) -> Event {
    let (word, rest) = cut_bytes(said);
    let (first, second) = cut_bytes(rest);
    match word {
        b"set" => Event::Set {
            register: digit(first),
            value: digit(second),
        },
        b"load" => Event::Load {
            register: digit(first),
            pointer: digit(second),
        },
        b"shift" => Event::Shift {
            count: digit(first),
        },
        _ => Event::Close,
    }
}

fn push_done(
    alloc: Global,
    text: &mut String,
    done: Result<(), HistoryFault>,
) -> Result<(), AllocError> {
    match done {
        Ok(()) => text.push_str("ok; "),
        Err(fault) => text.push_str(&format!(in alloc; "{fault:?}; ")?),
    }
}

// Takes an event back, which is kept beside, for a redo.
fn undo(
    alloc: Global,
    history: &mut History,
    undone: &mut Vec<Kept>,
    number: u32,
) -> Result<Result<(), HistoryFault>, Fail> {
    match history.undo(alloc, number) {
        Ok(kept) => {
            undone.push(kept)?;
            Ok(Ok(()))
        }
        Err(fault) => Ok(Err(fault)),
    }
}

// Puts an event again that stands beside.
fn redo(
    alloc: Global,
    history: &mut History,
    undone: &[Kept],
    number: u32,
) -> Result<(), HistoryFault> {
    match undone.iter().find(|kept| kept.number == number) {
        Some(kept) => history.redo(alloc, kept),
        None => Err(HistoryFault::NotKept),
    }
}

fn push_cone(alloc: Global, text: &mut String, history: &History, number: u32) -> Result<(), Fail> {
    let numbers = history.cone(alloc, number)?;
    text.push_str(&format!(in alloc; "{numbers:?}; ")?)?;
    Ok(())
}

fn push_value(
    alloc: Global,
    text: &mut String,
    history: &History,
    register: u32,
) -> Result<(), AllocError> {
    let value = history.cells().get(Cell::Register(register));
    text.push_str(&format!(in alloc; "{value:?}; ")?)
}

// A line `WORD NUMBER`, behind which an accepted event stands.
fn tell(
    alloc: Global,
    history: &mut History,
    undone: &mut Vec<Kept>,
    text: &mut String,
    line: &str,
) -> Result<(), Fail> {
    let (word, said) = cut(line);
    let (first, event) = cut_bytes(said);
    let number = digit(first);
    match word {
        b"accept" => push_done(alloc, text, history.accept(alloc, number, event_of(event)))?,
        b"undo" => {
            let done = undo(alloc, history, undone, number)?;
            push_done(alloc, text, done)?;
        }
        b"redo" => push_done(alloc, text, redo(alloc, history, undone, number))?,
        b"cone" => push_cone(alloc, text, history, number)?,
        _ => push_value(alloc, text, history, number)?,
    }
    Ok(())
}

fn tell_all(alloc: Global, history: &mut History, lines: &str) -> Result<String, Fail> {
    let mut text = String::new(alloc);
    let mut undone = Vec::new(alloc);
    for line in lines.split("; ") {
        tell(alloc, history, &mut undone, &mut text, line)?;
    }
    Ok(text)
}

// What a new history tells of lines that stand apart by `; `.
fn told(alloc: Global, lines: &str) -> Result<String, Fail> {
    let mut history = History::new(alloc, &Cells::new(alloc))?;
    tell_all(alloc, &mut history, lines)
}

const HISTORIES: &[(&str, &str)] = &[
    // Undo out of order.
    (
        "accept 1 set 0 5; accept 2 set 3 9; undo 1; get 0; get 3",
        "ok; ok; ok; None; Some(9); ",
    ),
    // Dependent events are named.
    (
        "accept 1 set 0 5; accept 2 load 1 2; get 1; undo 1; undo 3",
        "ok; ok; Some(5); Needed(2); NotKept; ",
    ),
    // A redone event replaces what it finds.
    (
        "accept 1 set 0 5; accept 2 set 0 6; undo 2; undo 1; redo 2; undo 2; get 0",
        "ok; ok; ok; ok; ok; ok; None; ",
    ),
    // What stands in the way is named.
    (
        "accept 2 close; accept 1 load 1 2; accept 1 shift 2; accept 2 shift 2",
        "ok; Refused(Closed); InTheWay(2); IsKept; ",
    ),
    // A cone goes through others.
    (
        "accept 1 set 0 5; accept 2 set 3 9; accept 3 load 1 2; cone 1",
        "ok; ok; ok; [1, 3]; ",
    ),
];

#[test]
fn histories_over_registers(rt: HostRuntime) -> Result<(), Fail> {
    for (lines, wanted) in HISTORIES {
        let told = told(rt.alloc(), lines)?;
        assert!(rt; told.as_str() == *wanted, "{lines} {told}");
    }
    Ok(())
}

const SHIFT: Event = Event::Shift { count: 2 };

// What a shift writes where the first two registers hold 4 and 7, and whether it reads the lock.
fn shifted(alloc: Global) -> Result<(String, bool), Fail> {
    let writes = [(Cell::Register(0), Some(4)), (Cell::Register(1), Some(7))];
    let cells = Cells::new(alloc).written(alloc, &writes)?;
    let shifted = effect(alloc, &cells, SHIFT)?;
    let text = format!(in alloc; "{shifted:?}")?;
    let footprint = footprint_of(alloc, &cells, SHIFT)?;
    Ok((text, footprint.accesses(Cell::Lock)))
}

// Whether a set of a register conflicts with a load by register 2, which holds 8, and the other way round.
fn conflicts(alloc: Global, register: u32) -> Result<(bool, bool), Fail> {
    let cells = Cells::new(alloc).written(alloc, &[(Cell::Register(2), Some(8))])?;
    let event = Event::Load {
        register: 1,
        pointer: 2,
    };
    let load = footprint_of(alloc, &cells, event)?;
    let set = footprint_of(alloc, &cells, Event::Set { register, value: 1 })?;
    Ok((conflict(&set, &load), conflict(&load, &set)))
}

#[test]
fn what_events_write_and_read(rt: HostRuntime) -> Result<(), Fail> {
    // A shift moves each register.
    let (text, reads_lock) = shifted(rt.alloc())?;
    assert!(rt; text.as_str() == "[(Register(0), Some(7)), (Register(1), None)]");
    assert!(rt; reads_lock);
    // A load's footprint follows the pointer.
    assert!(rt; conflicts(rt.alloc(), 8)? == (true, true));
    assert!(rt; conflicts(rt.alloc(), 0)? == (false, false));
    Ok(())
}
