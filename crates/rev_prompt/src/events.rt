//! Events by name.
ghost use Rattle.std.specs.Prelude.{◌≡◌, option_and_then, IfOk};
ghost use Rattle.std.specs.Option.{option_copied};
ghost use Rattle.rev_graph.specs.Graph.{producer_of};
ghost use Rattle.rev_prompt.specs.Answers.{IsWho};
ghost use Rattle.rev_prompt.specs.Named.{AreNamed, IsLastOrNone, IsNamed, IsNoneAt, accepted_number, is_at as is_at_path, is_meant, is_meant_at, is_of_kind as is_of_kind_named, is_of_producer as is_of_edge_if, is_touch_of as is_touch_at, kind_word as word_of, last_at as last_at_path};

use crate::answers::Answer;
use crate::question::EventName;
use rev_desk::Desk;
use rev_events::Event;
use rev_graph::Graph;
use rev_history::History;
use rev_paths::Name;
use rev_runs::{events_of, is_of_edge};
use std::alloc::{AllocError, Global};

// The word of an event's kind.
fn kind_word(event: &Event) -> &'static [u8]
    ensures { result.now ≡ word_of event.now }
{
    match event {
        Event::Plan(_) => b"plan",
        Event::Start { .. } => b"start",
        Event::Finish { .. } => b"finish",
        Event::Fail { .. } => b"fail",
        Event::Abort { .. } => b"abort",
        Event::Clean { .. } => b"clean",
        Event::Pass { .. } => b"pass",
        Event::Touch { .. } => b"touch",
        Event::Interrupt => b"interrupt",
        Event::Resize { .. } => b"resize",
    }
}

// Whether an event is of the kind that a name has, if it has one.
fn is_of_kind(event: &Event, name: &EventName) -> bool
    ensures { result ≡ is_of_kind_named name.now event.now }
{
    match name {
        EventName::Kind(kind, _) => kind.as_slice() == kind_word(event),
        EventName::Which(_) => true,
        EventName::Last(_) => true,
    }
}

// Whether an event is a touch of a path.
fn is_touch_of(event: &Event, path: &Name) -> bool
    ensures { result ≡ is_touch_at path.now event.now }
{
    match event {
        Event::Touch { path: touched, .. } => touched == path,
        _ => false,
    }
}

// Whether an event is one of an edge, where there is an edge.
fn is_of_producer(graph: &Graph, event: &Event, producer: Option<u32>) -> bool
    ensures { result ≡ is_of_edge_if graph.now.manifest.builds producer event.now }
{
    match producer {
        Some(edge) => is_of_edge(graph, event, edge),
        None => false,
    }
}

// Whether an event is at a path: a touch of it, or an event of its producer, the edge that makes it.
fn is_at(graph: &Graph, event: &Event, path: &Name, producer: Option<u32>) -> bool
    requires { producer ≡ producer_of graph.now.manifest.builds path.now }
    ensures { result ≡ is_at_path graph.now.manifest.builds path.now event.now }
{
    is_touch_of(event, path) || is_of_producer(graph, event, producer)
}

// Whether there is an event, and it is of a name's kind and at a path.
fn is_there(
    graph: &Graph,
    event: Option<&Event>,
    name: &EventName,
    path: &Name,
    producer: Option<u32>,
) -> bool
    requires { producer ≡ producer_of graph.now.manifest.builds path.now }
    ensures { result ≡ is_meant graph.now.manifest.builds name.now path.now (option_copied event.entry) }
{
    match event {
        Some(event) => is_of_kind(event, name) && is_at(graph, event, path, producer),
        None => false,
    }
}

// Whether the event of a number is of a name's kind and at a path.
fn passes(
    history: &History,
    name: &EventName,
    path: &Name,
    producer: Option<u32>,
    number: u32,
) -> bool
    requires { producer ≡ producer_of history.now.timeline.manifest.builds path.now }
    ensures { result ≡ is_meant_at history.now.timeline name.now path.now number }
{
    let event = history.event(number);
    is_there(history.graph(), event, name, path, producer)
}

// The last kept event at a path, of the kind that the name has, if it has one. The kept events are gone through from the
// last one on.
fn last_at(history: &History, name: &EventName, path: &Name) -> Option<u32>
    ensures { result ≡ last_at_path history.now.timeline name.now path.now }
{
    let producer = history.graph().producer(path);
    let mut rest = history.kept();
    while let Some((number, before)) = rest.split_last() {
        if passes(history, name, path, producer, *number) {
            return Some(*number);
        }
        rest = before;
    }
    None
}

// What is answered where no kept event is at a path.
fn none_at(history: &History, path: &Name) -> Result<Answer, AllocError>
    ensures { IfOk result (λ answer. IsNoneAt history.now.timeline path.now answer) }
{
    match history.graph().producer(path) {
        Some(_edge) => Ok(Answer::NoneKept(path.copy()?)),
        None => Ok(Answer::NoOutput(path.copy()?)),
    }
}

// The last kept event at a path, of the kind that the name has, or what is answered where there is none.
fn last_or_none(
    history: &History,
    name: &EventName,
    path: &Name,
) -> Result<Result<u32, Answer>, AllocError>
    ensures { IfOk result (λ found. IsLastOrNone history.now.timeline name.now path.now found) }
{
    match last_at(history, name, path) {
        Some(number) => Ok(Ok(number)),
        None => Ok(Err(none_at(history, path)?)),
    }
}

// A number, where an event was accepted under it.
fn if_accepted(history: &History, number: Option<u32>) -> Option<u32>
    ensures { result ≡ option_and_then (accepted_number history.now.timeline) number }
{
    match number {
        Some(number) if history.event(number).is_some() => Some(number),
        _ => None,
    }
}

/// The event that a name means, or what is answered where it means none. A number means the event that was accepted
/// under it and a label that of its entry, undone since or not. A path means the last kept event there: a touch of it, or
/// an event of the edge that makes it.
///
/// # Errors
/// [`AllocError`] only where an allocation was refused.
pub(crate) fn named_event(desk: &Desk, name: &EventName) -> Result<Result<u32, Answer>, AllocError>
    ensures { IfOk result (λ found. IsNamed desk.now name.now found) }
{
    let history = desk.history();
    match name {
        EventName::Which(which) => match if_accepted(history, desk.named(*which)) {
            Some(number) => Ok(Ok(number)),
            None => Ok(Err(Answer::NoEvent)),
        },
        EventName::Kind(_, path) => last_or_none(history, name, path),
        EventName::Last(path) => last_or_none(history, name, path),
    }
}

/// The events that names mean, in their order, or what is answered where the first such means none.
///
/// # Errors
/// [`AllocError`] only where an allocation was refused.
pub(crate) fn named_events(
    alloc: Global,
    desk: &Desk,
    names: &[EventName],
) -> Result<Result<Vec<u32>, Answer>, AllocError>
    ensures { IfOk result (λ found. AreNamed desk.now names.now found) }
{
    let mut numbers = Vec::new(alloc);
    for name in names {
        match named_event(desk, name)? {
            Ok(number) => numbers.push(number)?,
            Err(answer) => return Ok(Err(answer)),
        }
    }
    Ok(Ok(numbers))
}

/// `who OUT`: the events of an edge, also those that were undone.
pub(crate) fn who(alloc: Global, history: &History, out: &Name) -> Result<Answer, AllocError>
    ensures { IfOk result (λ answer. IsWho history.now.timeline out.now answer) }
{
    let Some(edge) = history.graph().producer(out) else {
        return Ok(Answer::NoOutput(out.copy()?));
    };
    let numbers = events_of(alloc, history, edge)?;
    Ok(Answer::Who(out.copy()?, numbers))
}
