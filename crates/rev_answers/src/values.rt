//! JSON of events, names and runs.
use crate::by_dyndep::{Side, file_by, put_by};
use crate::causes::{End, ends_of, push_through};
use crate::edges::push_edge;
use crate::events::{is_kept, push_words};
use crate::meant::{is_among, near_paths};
use crate::object::Object;
use crate::told::{Context, history_of};
use rev_cells::Cell;
use rev_events::Event;
use rev_graph::Graph;
use rev_history::History;
use rev_listing::reason_word;
use rev_paths::Name;
use rev_prompt::{Because, Link, Span, time_at};
use rev_shown::push_shown;
use serde_json::Value;
use std::alloc::{AllocError, Global};

/// The history that has the events, and when these happened.
#[derive(Clone, Copy)]
pub(crate) struct View<'a> {
    history: &'a History,
    times: &'a [Option<u32>],
}

impl<'a> View<'a> {
    /// That of a desk and a session.
    pub(crate) fn of(told: Context<'a>) -> View<'a> {
        View {
            history: history_of(told),
            times: told.session.times,
        }
    }

    /// The graph.
    pub(crate) fn graph(self) -> &'a Graph {
        self.history.graph()
    }

    /// The event that was accepted under a number.
    pub(crate) fn event(self, number: u32) -> Option<&'a Event> {
        self.history.event(number)
    }
}

/// A text of visible bytes.
pub(crate) fn text_value(alloc: Global, text: &[u8]) -> Result<Value, AllocError> {
    Ok(Value::from(String::from_utf8_lossy(alloc, text)?))
}

// A name as people read it.
fn name_value(alloc: Global, name: Option<&Name>) -> Result<Value, AllocError> {
    let Some(name) = name else {
        return Ok(Value::Null);
    };
    let mut text = Vec::new(alloc);
    push_shown(&mut text, name.as_bytes())?;
    text_value(alloc, &text)
}

// The first output of an edge.
fn edge_value(alloc: Global, graph: &Graph, edge: u32) -> Result<Value, AllocError> {
    let mut text = Vec::new(alloc);
    push_edge(&mut text, graph, edge)?;
    text_value(alloc, &text)
}

// The kind of an event, the output or path that it names, and the job that it takes.
fn parts_of(event: &Event) -> (&'static str, Option<&Name>, Option<u32>) {
    match event {
        Event::Plan(_) => ("plan", None, None),
        Event::Start { out, job, .. } => ("start", Some(out), Some(*job)),
        Event::Finish { out, .. } => ("finish", Some(out), None),
        Event::Fail { out, .. } => ("fail", Some(out), None),
        Event::Abort { out, .. } => ("abort", Some(out), None),
        Event::Clean { out } => ("clean", Some(out), None),
        Event::Pass { out } => ("pass", Some(out), None),
        Event::Touch { path, .. } => ("touch", Some(path), None),
        Event::Interrupt => ("interrupt", None, None),
        Event::Resize { .. } => ("resize", None, None),
    }
}

// Adds what an event is: its words, its kind, what it names, and its job.
fn put_parts(object: &mut Object, alloc: Global, event: &Event) -> Result<(), AllocError> {
    let mut text = Vec::new(alloc);
    push_words(&mut text, event)?;
    let words = text_value(alloc, &text)?;
    object.put(alloc, "words", words)?;
    let (kind, path, job) = parts_of(event);
    object.put_text(alloc, "kind", kind)?;
    put_name(object, alloc, "path", path)?;
    object.put(alloc, "job", Value::from(job))?;
    put_rest(object, alloc, event)
}

// The names of a plan's targets.
fn targets_value(alloc: Global, targets: &[Name]) -> Result<Value, AllocError> {
    let mut values = Vec::new(alloc);
    for target in targets {
        values.push(name_value(alloc, Some(target))?)?;
    }
    Ok(Value::from(values))
}

// Adds what events of one kind alone have: a plan its targets, a start its slot, a touch its stamp, a resize its pool.
fn put_rest(object: &mut Object, alloc: Global, event: &Event) -> Result<(), AllocError> {
    match event {
        Event::Plan(targets) => {
            let targets = targets_value(alloc, targets.as_slice())?;
            object.put(alloc, "targets", targets)
        }
        Event::Start {
            slot: Some(slot),
            ..
        } => object.put_number(alloc, "slot", u64::from(*slot)),
        Event::Touch { stamp, .. } => object.put_number(alloc, "stamp", *stamp),
        Event::Resize { pool, depth } => {
            object.put_number(alloc, "pool", u64::from(*pool))?;
            object.put_number(alloc, "depth", u64::from(*depth))
        }
        Event::Start { slot: None, .. }
        | Event::Finish { .. }
        | Event::Fail { .. }
        | Event::Abort { .. }
        | Event::Clean { .. }
        | Event::Pass { .. }
        | Event::Interrupt => Ok(()),
    }
}

// An event: its number, what it is, whether it is kept, and when it happened.
fn event_value(alloc: Global, view: View<'_>, number: u32) -> Result<Value, AllocError> {
    let mut object = Object::new(alloc);
    object.put_number(alloc, "number", u64::from(number))?;
    if let Some(event) = view.event(number) {
        put_parts(&mut object, alloc, event)?;
    }
    object.put_flag(alloc, "kept", is_kept(view.history, number))?;
    object.put(alloc, "time", Value::from(time_at(view.times, number)))?;
    Ok(object.value())
}

// An event, where one was accepted under the number.
fn event_or_null(alloc: Global, view: View<'_>, number: Option<u32>) -> Result<Value, AllocError> {
    match number {
        Some(number) if view.event(number).is_some() => event_value(alloc, view, number),
        _ => Ok(Value::Null),
    }
}

/// Adds an event, or none.
pub(crate) fn put_event(
    object: &mut Object,
    alloc: Global,
    name: &str,
    view: View<'_>,
    number: Option<u32>,
) -> Result<(), AllocError> {
    let event = event_or_null(alloc, view, number)?;
    object.put(alloc, name, event)
}

/// Adds a name, or none.
pub(crate) fn put_name(
    object: &mut Object,
    alloc: Global,
    name: &str,
    path: Option<&Name>,
) -> Result<(), AllocError> {
    let path = name_value(alloc, path)?;
    object.put(alloc, name, path)
}

/// Adds the first output of an edge.
pub(crate) fn put_edge(
    object: &mut Object,
    alloc: Global,
    name: &str,
    graph: &Graph,
    edge: u32,
) -> Result<(), AllocError> {
    let output = edge_value(alloc, graph, edge)?;
    object.put(alloc, name, output)
}

/// Adds events, in their order.
pub(crate) fn put_events(
    object: &mut Object,
    alloc: Global,
    view: View<'_>,
    numbers: &[u32],
) -> Result<(), AllocError> {
    let events = events_value(alloc, view, numbers)?;
    object.put(alloc, "events", events)
}

// Events, in their order.
fn events_value(alloc: Global, view: View<'_>, numbers: &[u32]) -> Result<Value, AllocError> {
    let mut values = Vec::new(alloc);
    for number in numbers {
        values.push(event_value(alloc, view, *number)?)?;
    }
    Ok(Value::from(values))
}

// The cell by which one event rests on another.
fn cell_value(alloc: Global, graph: &Graph, cell: Option<&Cell>) -> Result<Value, AllocError> {
    if cell.is_none() {
        return Ok(Value::Null);
    }
    let mut text = Vec::new(alloc);
    push_through(&mut text, graph, cell)?;
    match text.strip_prefix(b" through ") {
        Some(name) => text_value(alloc, name),
        None => Ok(Value::Null),
    }
}

// The kind of a cell, and the path or the edge that it is of.
fn cell_parts(cell: &Cell) -> (&'static str, Option<&Name>, Option<u32>) {
    match cell {
        Cell::Stamp(path) => ("stamp", Some(path), None),
        Cell::Mark(edge) => ("mark", None, Some(*edge)),
        Cell::Job(_) => ("job", None, None),
        Cell::Slot(_, _) => ("slot", None, None),
        Cell::Depth(_) => ("depth", None, None),
        Cell::Built(path) => ("built", Some(path), None),
        Cell::Deps(path) => ("deps", Some(path), None),
        Cell::Halted => ("halted", None, None),
    }
}

// Adds the kind of a cell, and the path, or the first output of the edge, that it is of.
fn put_cell(
    object: &mut Object,
    alloc: Global,
    graph: &Graph,
    cell: Option<&Cell>,
) -> Result<(), AllocError> {
    let Some(cell) = cell else {
        object.put(alloc, "cell", Value::Null)?;
        return object.put(alloc, "of", Value::Null);
    };
    let (kind, path, edge) = cell_parts(cell);
    object.put_text(alloc, "cell", kind)?;
    match edge {
        Some(edge) => put_edge(object, alloc, "of", graph, edge),
        None => put_name(object, alloc, "of", path),
    }
}

/// Adds the cell by which one event rests on another: in words, its kind, and the path or the edge that it is of. Each is
/// null where no cell is named.
///
/// # Errors
/// [`AllocError`] only where an allocation was refused.
pub(crate) fn put_through(
    object: &mut Object,
    alloc: Global,
    graph: &Graph,
    cell: Option<&Cell>,
) -> Result<(), AllocError> {
    let through = cell_value(alloc, graph, cell)?;
    object.put(alloc, "through", through)?;
    put_cell(object, alloc, graph, cell)
}

// One end of a link, with the number of the other end.
fn link_value(alloc: Global, view: View<'_>, link: &Link, end: End) -> Result<Value, AllocError> {
    let (number, other) = ends_of(link, end);
    let mut object = Object::new(alloc);
    put_event(&mut object, alloc, "event", view, Some(number))?;
    object.put_number(alloc, "other", u64::from(other))?;
    put_through(&mut object, alloc, view.graph(), link.cell.as_ref())?;
    Ok(object.value())
}

/// One end of links.
pub(crate) fn links_value(
    alloc: Global,
    view: View<'_>,
    links: &[Link],
    end: End,
) -> Result<Value, AllocError> {
    let mut values = Vec::new(alloc);
    for link in links {
        values.push(link_value(alloc, view, link, end)?)?;
    }
    Ok(Value::from(values))
}

// When a command ran.
fn span_value(alloc: Global, view: View<'_>, span: Span) -> Result<Value, AllocError> {
    let mut object = Object::new(alloc);
    put_event(&mut object, alloc, "began", view, Some(span.began))?;
    put_event(&mut object, alloc, "ended", view, span.ended)?;
    Ok(object.value())
}

/// When a command ran, where it did.
pub(crate) fn run_value(
    alloc: Global,
    view: View<'_>,
    run: Option<Span>,
) -> Result<Value, AllocError> {
    match run {
        Some(span) => span_value(alloc, view, span),
        None => Ok(Value::Null),
    }
}

/// When commands ran.
pub(crate) fn runs_value(
    alloc: Global,
    view: View<'_>,
    runs: &[Span],
) -> Result<Value, AllocError> {
    let mut values = Vec::new(alloc);
    for span in runs {
        values.push(span_value(alloc, view, *span)?)?;
    }
    Ok(Value::from(values))
}

/// Lines, a text each.
pub(crate) fn lines_value(alloc: Global, lines: &[u8]) -> Result<Value, AllocError> {
    let mut values = Vec::new(alloc);
    for line in lines.split(|byte| *byte == b'\n') {
        if !line.is_empty() {
            values.push(text_value(alloc, line)?)?;
        }
    }
    Ok(Value::from(values))
}

/// Names as people read them.
pub(crate) fn names_value(alloc: Global, names: &[&Name]) -> Result<Value, AllocError> {
    let mut values = Vec::new(alloc);
    for name in names {
        values.push(name_value(alloc, Some(*name))?)?;
    }
    Ok(Value::from(values))
}

/// Adds what may have been meant by a path of which nothing was found. It is null where something was, and where an edge
/// names, lists or makes the path or a command was seen to look at it.
///
/// # Errors
/// [`AllocError`] only where an allocation was refused.
pub(crate) fn put_meant(
    object: &mut Object,
    alloc: Global,
    told: Context<'_>,
    path: &Name,
    is_found: bool,
) -> Result<(), AllocError> {
    if is_found {
        return object.put(alloc, "meant", Value::Null);
    }
    let near = near_paths(alloc, told, path)?;
    if is_among(&near, path) {
        return object.put(alloc, "meant", Value::Null);
    }
    let near = names_value(alloc, &near)?;
    object.put(alloc, "meant", near)
}

/// Adds a path of an edge, or none, and in a member of another name the dyndep file by which the edge has it.
pub(crate) fn put_path(
    object: &mut Object,
    alloc: Global,
    told: Context<'_>,
    edge: u32,
    side: Side,
    names: (&str, &str),
    path: Option<&Name>,
) -> Result<(), AllocError> {
    let (name, by) = names;
    put_name(object, alloc, name, path)?;
    let file = match path {
        Some(path) => file_by(told, edge, side, path),
        None => None,
    };
    put_by(object, alloc, by, file)
}

/// A reason of an edge, with what it names.
pub(crate) fn because_value(
    alloc: Global,
    told: Context<'_>,
    edge: u32,
    because: &Because,
) -> Result<Value, AllocError> {
    let mut object = Object::new(alloc);
    object.put_text(alloc, "reason", reason_word(because.reason))?;
    let (output, input) = (because.output.as_ref(), because.input.as_ref());
    let names = ("output", "output_dyndep");
    put_path(&mut object, alloc, told, edge, Side::Output, names, output)?;
    let names = ("input", "input_dyndep");
    put_path(&mut object, alloc, told, edge, Side::Input, names, input)?;
    Ok(object.value())
}
