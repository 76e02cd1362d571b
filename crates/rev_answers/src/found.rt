//! Edges, files and times in words.
use crate::by_dyndep::{Side, file_of, push_by};
use crate::facts::push_edge_found;
use crate::meant::{is_among, near_paths, push_near, push_near_paths, push_unknown_paths};
use crate::observed::{LISTED, deed_words};
use crate::reasons::{push_path, push_reason};
use crate::statements::{build_of, is_phony, listed, push_placed};
use crate::times::push_milliseconds;
use crate::told::{Context, history_of};
use crate::waiting::{Crowd, Held, held_of, link_behind};
use rev_fields::push_number;
use rev_graph::Graph;
use rev_paths::Name;
use rev_prompt::{Chain, Deed, Found, Kind, Place, Reading, Rebuilt, Timed};
use rev_shown::push_shown;
use std::alloc::{AllocError, Global};

/// The answer where a recording has no times.
pub(crate) const NO_TIMES: &[u8] =
    b"no run has times: the file `times` of the recording has them, and `run` replays the recording\n";

/// What each edge was seen to do, by the number of the edge.
///
/// # Errors
/// [`AllocError`] only where an allocation was refused.
pub(crate) fn kinds_of(
    alloc: Global,
    graph: &Graph,
    deeds: &[Deed],
) -> Result<Vec<Option<Kind>>, AllocError> {
    let mut kinds = vec![in alloc; None; graph.edges() as usize]?;
    for deed in deeds {
        if let Some(slot) = kinds.get_mut(deed.edge as usize) {
            *slot = Some(deed.kind);
        }
    }
    Ok(kinds)
}

// How a place on a build line is called.
fn place_words(place: Place) -> &'static [u8] {
    match place {
        Place::Explicit => b"an input",
        Place::Implicit => b"an implicit input",
        Place::OrderOnly => b"an order-only input",
        Place::Validation => b"a validation",
    }
}

// Adds where the build line of an edge has a path, and the dyndep file by which the edge has it.
fn push_place(
    text: &mut Vec<u8>,
    alloc: Global,
    told: Context<'_>,
    path: &Name,
    reading: &Reading,
) -> Result<(), AllocError> {
    let Some(place) = reading.place else {
        return Ok(());
    };
    text.extend_from_slice(place_words(place))?;
    if place == Place::Implicit {
        push_by(text, file_of(alloc, told, reading.edge, Side::Input, path)?)?;
    }
    Ok(())
}

// Adds what an edge has to do with a path.
fn push_reading(
    text: &mut Vec<u8>,
    alloc: Global,
    told: Context<'_>,
    path: &Name,
    reading: &Reading,
    kind: Option<Kind>,
) -> Result<(), AllocError> {
    push_placed(text, told, reading.edge)?;
    text.extend_from_slice(b": ")?;
    push_place(text, alloc, told, path, reading)?;
    if reading.listed {
        if reading.place.is_some() {
            text.extend_from_slice(b", ")?;
        }
        text.extend_from_slice(b"in its list")?;
    }
    if let Some(kind) = kind {
        text.extend_from_slice(b", its command")?;
        text.extend_from_slice(deed_words(kind))?;
    }
    text.push(b'\n')?;
    Ok(())
}

// The deeds of commands whose edges neither have the path on their lines nor list it.
fn unnamed<'a>(
    alloc: Global,
    graph: &Graph,
    readings: &[Reading],
    deeds: &'a [Deed],
) -> Result<Vec<&'a Deed>, AllocError> {
    let mut marks = vec![in alloc; false; graph.edges() as usize]?;
    for reading in readings {
        if let Some(slot) = marks.get_mut(reading.edge as usize) {
            *slot = true;
        }
    }
    let mut left = Vec::new(alloc);
    for deed in deeds {
        if !marks.get(deed.edge as usize).copied().unwrap_or(false) {
            left.push(deed)?;
        }
    }
    Ok(left)
}

// Adds a command that was seen to look at a path which neither its line nor its list has.
fn push_unnamed(text: &mut Vec<u8>, told: Context<'_>, deed: &Deed) -> Result<(), AllocError> {
    push_placed(text, told, deed.edge)?;
    text.extend_from_slice(b": its command")?;
    text.extend_from_slice(deed_words(deed.kind))?;
    text.extend_from_slice(b", which neither its line nor its list names\n")
}

// Adds that nothing reads a path.
fn push_unread(
    text: &mut Vec<u8>,
    alloc: Global,
    told: Context<'_>,
    path: &Name,
) -> Result<(), AllocError> {
    text.extend_from_slice(b"nothing reads ")?;
    push_shown(text, path.as_bytes())?;
    push_near_paths(text, alloc, told, path)?;
    text.push(b'\n')?;
    Ok(())
}

// Adds which edges have a path as what they read, and which commands were seen to look at it.
fn push_reads(
    text: &mut Vec<u8>,
    alloc: Global,
    told: Context<'_>,
    path: &Name,
    readings: &[Reading],
    deeds: Option<&Vec<Deed>>,
) -> Result<(), AllocError> {
    let seen: &[Deed] = match deeds {
        Some(deeds) => deeds,
        None => &[],
    };
    let graph = history_of(told).graph();
    let kinds = kinds_of(alloc, graph, seen)?;
    let others = unnamed(alloc, graph, readings, seen)?;
    for reading in readings {
        let kind = kinds.get(reading.edge as usize).copied().unwrap_or(None);
        push_reading(text, alloc, told, path, reading, kind)?;
    }
    for deed in &others {
        push_unnamed(text, told, deed)?;
    }
    if readings.is_empty() && others.is_empty() {
        push_unread(text, alloc, told, path)?;
    }
    if deeds.is_none() {
        text.extend_from_slice(LISTED)?;
    }
    Ok(())
}

// Adds that no build statement makes a path, and what else is known of it: that commands change it, that it is a source,
// or what may have been meant.
fn push_no_maker(
    text: &mut Vec<u8>,
    alloc: Global,
    told: Context<'_>,
    path: &Name,
    is_changed: bool,
) -> Result<(), AllocError> {
    text.extend_from_slice(b"no build statement makes ")?;
    push_shown(text, path.as_bytes())?;
    if is_changed {
        return text.extend_from_slice(b"\n");
    }
    let near = near_paths(alloc, told, path)?;
    if is_among(&near, path) {
        text.extend_from_slice(b": it is a source")?;
    } else {
        push_near(text, &near)?;
    }
    text.extend_from_slice(b"\n")
}

// Adds the edge that has a path as an output.
fn push_producer(
    text: &mut Vec<u8>,
    alloc: Global,
    told: Context<'_>,
    path: &Name,
    producer: Option<u32>,
    is_changed: bool,
) -> Result<(), AllocError> {
    match producer {
        Some(edge) => {
            push_placed(text, told, edge)?;
            text.extend_from_slice(b" has it as an output")?;
            push_by(text, file_of(alloc, told, edge, Side::Output, path)?)?;
            text.extend_from_slice(b"\n")
        }
        None => push_no_maker(text, alloc, told, path, is_changed),
    }
}

// Adds which edge has a path as an output, and which other commands were seen to change it.
fn push_makes(
    text: &mut Vec<u8>,
    alloc: Global,
    told: Context<'_>,
    path: &Name,
    producer: Option<u32>,
    deeds: Option<&Vec<Deed>>,
) -> Result<(), AllocError> {
    let is_changed = deeds.is_some_and(|deeds| !deeds.is_empty());
    push_producer(text, alloc, told, path, producer, is_changed)?;
    let Some(deeds) = deeds else {
        return Ok(());
    };
    for deed in deeds {
        push_placed(text, told, deed.edge)?;
        text.extend_from_slice(b": its command")?;
        text.extend_from_slice(deed_words(deed.kind))?;
        text.push(b'\n')?;
    }
    Ok(())
}

// Adds edges, a line each.
fn push_edges(text: &mut Vec<u8>, told: Context<'_>, edges: &[u32]) -> Result<(), AllocError> {
    for edge in edges {
        push_placed(text, told, *edge)?;
        text.extend_from_slice(if is_phony(told, *edge) {
            b", phony\n"
        } else {
            b"\n"
        })?;
    }
    if edges.is_empty() {
        text.extend_from_slice(b"no output matches\n")?;
    }
    Ok(())
}

// The first of some names that an edge with a mark makes.
fn first_marked<'a>(graph: &Graph, marks: &[bool], names: &'a [Name]) -> Option<&'a Name> {
    for name in names {
        if let Some(producer) = graph.producer(name) {
            if marks.get(producer as usize).copied().unwrap_or(false) {
                return Some(name);
            }
        }
    }
    None
}

/// The first input of an edge that an edge with a mark makes: of its build line, and then of its list.
pub(crate) fn marked_input<'a>(told: Context<'a>, marks: &[bool], edge: u32) -> Option<&'a Name> {
    let graph = history_of(told).graph();
    let build = build_of(told, edge)?;
    if let Some(name) = first_marked(graph, marks, build.explicit()) {
        return Some(name);
    }
    if let Some(name) = first_marked(graph, marks, build.implicit()) {
        return Some(name);
    }
    first_marked(graph, marks, listed(told, edge))
}

// Adds that an edge is to run since an input of it is to be made.
fn push_behind(
    text: &mut Vec<u8>,
    told: Context<'_>,
    edge: u32,
    input: Option<&Name>,
) -> Result<(), AllocError> {
    match input {
        Some(_) => {
            push_path(text, told, edge, Side::Input, input)?;
            text.extend_from_slice(b" is to be made")
        }
        None => text.extend_from_slice(b"an input is to be made"),
    }
}

// Adds why an edge would be to do.
fn push_rebuilt(
    text: &mut Vec<u8>,
    told: Context<'_>,
    marks: &[bool],
    rebuilt: &Rebuilt,
) -> Result<(), AllocError> {
    text.extend_from_slice(b"  ")?;
    push_placed(text, told, rebuilt.edge)?;
    text.extend_from_slice(b": ")?;
    match &rebuilt.because {
        Some(because) => push_reason(text, told, rebuilt.edge, because)?,
        None => {
            let input = marked_input(told, marks, rebuilt.edge);
            push_behind(text, told, rebuilt.edge, input)?;
        }
    }
    text.push(b'\n')?;
    Ok(())
}

/// A mark for each edge that would be to do.
///
/// # Errors
/// [`AllocError`] only where an allocation was refused.
pub(crate) fn rebuilt_marks(
    alloc: Global,
    graph: &Graph,
    rebuilds: &[Rebuilt],
) -> Result<Vec<bool>, AllocError> {
    let mut marks = vec![in alloc; false; graph.edges() as usize]?;
    for rebuilt in rebuilds {
        if let Some(slot) = marks.get_mut(rebuilt.edge as usize) {
            *slot = true;
        }
    }
    Ok(marks)
}

// Those with commands of the edges that would be to do.
fn with_commands<'a>(
    alloc: Global,
    told: Context<'_>,
    rebuilds: &'a [Rebuilt],
) -> Result<Vec<&'a Rebuilt>, AllocError> {
    let mut commands = Vec::new(alloc);
    for rebuilt in rebuilds {
        if !is_phony(told, rebuilt.edge) {
            commands.push(rebuilt)?;
        }
    }
    Ok(commands)
}

// Adds what would be to do if files were touched.
fn push_rebuilds(
    text: &mut Vec<u8>,
    alloc: Global,
    told: Context<'_>,
    rebuilds: &[Rebuilt],
) -> Result<(), AllocError> {
    let marks = rebuilt_marks(alloc, history_of(told).graph(), rebuilds)?;
    let commands = with_commands(alloc, told, rebuilds)?;
    if commands.is_empty() {
        text.extend_from_slice(b"nothing would be to do\n")?;
        return push_unknown_paths(text, alloc, told);
    }
    push_number(text, commands.len() as u64)?;
    text.extend_from_slice(if commands.len() == 1 {
        b" command would be to do, since\n"
    } else {
        b" commands would be to do, since\n"
    })?;
    for rebuilt in &commands {
        push_rebuilt(text, told, &marks, rebuilt)?;
    }
    push_unknown_paths(text, alloc, told)
}

// Adds a run with its times, as `58 ms, from 316 to 374: main.o (build.ninja:19)`.
fn push_timed(text: &mut Vec<u8>, told: Context<'_>, timed: &Timed) -> Result<(), AllocError> {
    text.extend_from_slice(b"  ")?;
    push_milliseconds(text, timed.took())?;
    text.extend_from_slice(b", from ")?;
    push_number(text, u64::from(timed.from))?;
    text.extend_from_slice(b" to ")?;
    push_number(text, u64::from(timed.to))?;
    text.extend_from_slice(b": ")?;
    push_placed(text, told, timed.edge)
}

// Adds the runs that took most time.
fn push_slowest(text: &mut Vec<u8>, told: Context<'_>, runs: &[Timed]) -> Result<(), AllocError> {
    for timed in runs {
        push_timed(text, told, timed)?;
        text.push(b'\n')?;
    }
    Ok(())
}

// Adds what held a run, behind how long it began after the end of the one for which it waited.
fn push_held(text: &mut Vec<u8>, held: Option<Held>) -> Result<(), AllocError> {
    match held {
        Some(Held::ByJobs(count)) => {
            text.extend_from_slice(b": it waited for a job, since ")?;
            push_number(text, count)?;
            text.extend_from_slice(if count == 1 {
                b" command ran"
            } else {
                b" commands ran"
            })
        }
        Some(Held::ByPool) => text.extend_from_slice(b": it waited for a slot of its pool"),
        None => Ok(()),
    }
}

// Adds how long a run began after the end of the one for which it waited, which the next line tells.
fn push_gap(text: &mut Vec<u8>, timed: &Timed, next: Option<&Timed>) -> Result<(), AllocError> {
    let Some(next) = next else {
        return text.extend_from_slice(b", which waited for no command");
    };
    let gap = timed.from.saturating_sub(next.to);
    if gap == 0 {
        return Ok(());
    }
    text.extend_from_slice(b", ")?;
    push_milliseconds(text, gap)?;
    text.extend_from_slice(b" after the end of the next line")
}

// Adds the chain of commands that the end of a build waited for, from the last one.
fn push_critical(
    text: &mut Vec<u8>,
    alloc: Global,
    told: Context<'_>,
    chain: &Chain,
) -> Result<(), AllocError> {
    if chain.links.is_empty() {
        return text.extend_from_slice(b"no command that has times ran since the last plan\n");
    }
    text.extend_from_slice(b"the end of the build waited for\n")?;
    let crowd = Crowd::new(alloc, told)?;
    for (place, timed) in chain.links.iter().enumerate() {
        push_timed(text, told, timed)?;
        let next = link_behind(chain, place);
        push_gap(text, timed, next)?;
        push_held(text, held_of(told, &crowd, timed, next))?;
        text.push(b'\n')?;
    }
    if chain.next.is_some() {
        text.extend_from_slice(b"and for more: a chain of 1000 is told at most\n")?;
    }
    Ok(())
}

/// Adds what a question about edges, files and times is answered.
pub(crate) fn push_found(
    text: &mut Vec<u8>,
    alloc: Global,
    told: Context<'_>,
    found: &Found,
    all: bool,
) -> Result<(), AllocError> {
    match found {
        Found::Edge(edge) => push_edge_found(text, alloc, told, edge, all),
        Found::Edges(edges) => push_edges(text, told, edges),
        Found::Reads(path, readings, deeds) => {
            push_reads(text, alloc, told, path, readings, deeds.as_ref())
        }
        Found::Makes(path, producer, deeds) => {
            push_makes(text, alloc, told, path, *producer, deeds.as_ref())
        }
        Found::Rebuilds(rebuilds) => push_rebuilds(text, alloc, told, rebuilds),
        Found::Slowest(runs) => push_slowest(text, told, runs),
        Found::Critical(chain) => push_critical(text, alloc, told, chain),
        Found::NoTimes => text.extend_from_slice(NO_TIMES),
    }
}
