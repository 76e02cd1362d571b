// Histories of small builds, told line by line.
use rev_commands::{Command, Which};
use rev_graph::Graph;
use rev_history::History;
use rev_manifest::{Manifest, read};
use rev_trace::{Trace, read_line};
use std::alloc::{AllocError, Global};

// Two objects and a program.
pub(crate) const OBJECTS: &str =
    "rule cc\n  command = cc -c $in -o $out\nrule ld\n  command = ld $in -o $out\n\
build a.o: cc a.c\nbuild b.o: cc b.c\nbuild app: ld a.o b.o\n";

// Two commands of a pool of one slot, which has the number 1.
pub(crate) const LINKS: &str =
    "pool link\n  depth = 1\nrule ld\n  command = ld $out\n  pool = link\n\
build a: ld\nbuild b: ld\n";

// What a history of two jobs opens with: nothing, and sources of two objects.
pub(crate) const NOTHING: &str = "rebug-trace 1\njobs 2\n";

pub(crate) const SOURCES: &str = "rebug-trace 1\njobs 2\nstamp a.c 10\nstamp b.c 20\n";

fn manifest_of(alloc: Global, text: &str) -> Result<Manifest, AllocError> {
    let name = Vec::from_slice(alloc, b"build.ninja")?;
    let files = vec![in alloc; (name, Vec::from_slice(alloc, text.as_bytes())?)]?;
    match read(alloc, &files) {
        Ok(manifest) => Ok(manifest),
        Err(_) => Err(AllocError),
    }
}

pub(crate) fn graph_of(alloc: Global, text: &str) -> Result<Graph, AllocError> {
    let manifest = manifest_of(alloc, text)?;
    match Graph::build(alloc, &manifest) {
        Ok(graph) => Ok(graph),
        Err(_) => Err(AllocError),
    }
}

pub(crate) fn trace_of(alloc: Global, records: &str) -> Result<Trace, AllocError> {
    match rev_trace::read(alloc, records.as_bytes()) {
        Ok(trace) => Ok(trace),
        Err(_) => Err(AllocError),
    }
}

// A history that opens as a trace does.
pub(crate) fn opened(alloc: Global, manifest: &str, records: &str) -> Result<History, AllocError> {
    let trace = trace_of(alloc, records)?;
    History::new(alloc, graph_of(alloc, manifest)?, &trace.opening)
}

pub(crate) fn command_of(alloc: Global, line: &str) -> Result<Command, AllocError> {
    match read_line(alloc, line.as_bytes()) {
        Ok(command) => Ok(command),
        Err(_) => Err(AllocError),
    }
}

// Whether a command is accepted. An event gets this number.
fn accepts(history: &mut History, place: u32, command: &Command) -> bool {
    match command {
        Command::Event(event) if place > history.last() => history.accept(place, event).is_ok(),
        Command::Undo(Which::Number(number)) => history.undo(*number).is_ok(),
        Command::Redo(Which::Number(number)) => history.redo(*number).is_ok(),
        Command::Cone(Which::Number(number)) => history.cone(*number).is_ok(),
        Command::Back => history.back().is_ok(),
        _ => false,
    }
}

// Whether what a line says is accepted. An event gets the line's place as its number.
pub(crate) fn says(
    alloc: Global,
    history: &mut History,
    place: u32,
    line: &str,
) -> Result<bool, AllocError> {
    let command = command_of(alloc, line)?;
    Ok(accepts(history, place, &command))
}
