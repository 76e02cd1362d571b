//! Answers as JSON, an object a line. docs/JSON.md describes them.
use crate::by_dyndep::Side;
use crate::causes::End;
use crate::events::{push_command_words, push_visible};
use crate::found_json::found_object;
use crate::help::push_help;
use crate::meant::{is_pattern, meant};
use crate::object::Object;
use crate::order::order_object;
use crate::refusals::{
    FULL, Obstacle, Subject, cell_between, obstacle_of, push_full, push_refusal, subject_of,
};
use crate::seen::{looks_value, readers, users_value, writers};
use crate::told::Context;
use crate::values::{
    View, because_value, lines_value, links_value, names_value, put_edge, put_event, put_events,
    put_name, put_path, put_through, run_value, runs_value, text_value,
};
use crate::words::subject_asked;
use rev_desk::Reply;
use rev_events::Refusal;
use rev_paths::Name;
use rev_prompt::{Answer, Because, Link, Needs, Reach, Span, Step, Tally, User, Wait, Way};
use serde_json::Value;
use std::alloc::{AllocError, Global};

// The line of a value.
fn text_of(alloc: Global, value: Value) -> Result<String, AllocError> {
    value.to_string(alloc)
}

// An object and a line's end.
fn line_of(alloc: Global, object: Object) -> Result<Vec<u8>, AllocError> {
    let line = text_of(alloc, object.value())?;
    let mut text = Vec::from_slice(alloc, line.as_bytes())?;
    text.push(b'\n')?;
    Ok(text)
}

/// The first object: how many commands, edges and lanes a recording has.
///
/// # Errors
/// [`AllocError`] only where an allocation was refused.
pub fn opening_json(
    alloc: Global,
    commands: usize,
    edges: u32,
    lanes: u32,
) -> Result<Vec<u8>, AllocError> {
    let mut object = Object::of_kind(alloc, "recording")?;
    object.put_number(alloc, "commands", commands as u64)?;
    object.put_number(alloc, "edges", u64::from(edges))?;
    object.put_number(alloc, "lanes", u64::from(lanes))?;
    line_of(alloc, object)
}

/// The object of a line that asks nothing, for these reasons, and the word that may have been meant.
///
/// # Errors
/// [`AllocError`] only where an allocation was refused.
pub fn fault_json(alloc: Global, words: &[u8], meant: Option<&str>) -> Result<Vec<u8>, AllocError> {
    let mut object = Object::of_kind(alloc, "no question")?;
    let words = text_value(alloc, words.trim_ascii())?;
    object.put(alloc, "words", words)?;
    match meant {
        Some(meant) => object.put_text(alloc, "meant", meant)?,
        None => object.put(alloc, "meant", Value::Null)?,
    }
    line_of(alloc, object)
}

// Lines.
fn lines(alloc: Global, text: &[u8]) -> Result<Object, AllocError> {
    let mut visible = Vec::new(alloc);
    push_visible(&mut visible, text)?;
    let mut object = Object::of_kind(alloc, "lines")?;
    let lines = lines_value(alloc, &visible)?;
    object.put(alloc, "lines", lines)?;
    Ok(object)
}

// What `help` tells.
fn help(alloc: Global, told: Context<'_>) -> Result<Object, AllocError> {
    let mut text = Vec::new(alloc);
    push_help(&mut text, told.question)?;
    lines(alloc, &text)
}

// A path that is no output.
fn no_output(alloc: Global, told: Context<'_>, path: &Name) -> Result<Object, AllocError> {
    let mut object = Object::of_kind(alloc, "no output")?;
    put_name(&mut object, alloc, "path", Some(path))?;
    let near = meant(alloc, told, path)?;
    let near = names_value(alloc, &near)?;
    object.put(alloc, "meant", near)?;
    object.put_flag(alloc, "pattern", is_pattern(told, path))?;
    Ok(object)
}

// An event that is not there.
fn no_event(alloc: Global, path: Option<&Name>) -> Result<Object, AllocError> {
    let mut object = Object::of_kind(alloc, "no event")?;
    put_name(&mut object, alloc, "path", path)?;
    Ok(object)
}

// One event.
fn one_event(alloc: Global, view: View<'_>, number: u32) -> Result<Object, AllocError> {
    let mut object = Object::of_kind(alloc, "event")?;
    put_event(&mut object, alloc, "event", view, Some(number))?;
    Ok(object)
}

// Events.
fn events(
    alloc: Global,
    view: View<'_>,
    path: Option<&Name>,
    numbers: &[u32],
) -> Result<Object, AllocError> {
    let mut object = Object::of_kind(alloc, "events")?;
    put_name(&mut object, alloc, "path", path)?;
    put_events(&mut object, alloc, view, numbers)?;
    Ok(object)
}

// What an event rests on.
fn needs(alloc: Global, told: Context<'_>, needs: &Needs) -> Result<Object, AllocError> {
    let view = View::of(told);
    let mut object = Object::of_kind(alloc, "needs")?;
    put_event(&mut object, alloc, "event", view, Some(needs.number))?;
    object.put_flag(alloc, "all", needs.reach == Reach::All)?;
    let links = links_value(alloc, view, &needs.links, End::Earlier)?;
    object.put(alloc, "events", links)?;
    let looks = looks_value(alloc, told, needs.looks.as_ref())?;
    object.put(alloc, "observed", looks)?;
    Ok(object)
}

// What rests on an event.
fn dependents(
    alloc: Global,
    view: View<'_>,
    number: u32,
    links: &[Link],
) -> Result<Object, AllocError> {
    let mut object = Object::of_kind(alloc, "dependents")?;
    put_event(&mut object, alloc, "event", view, Some(number))?;
    let links = links_value(alloc, view, links, End::Later)?;
    object.put(alloc, "events", links)?;
    Ok(object)
}

// What a cone takes, or took.
fn cone(
    alloc: Global,
    view: View<'_>,
    number: u32,
    members: &[u32],
    done: bool,
) -> Result<Object, AllocError> {
    let mut object = Object::of_kind(alloc, "cone")?;
    put_event(&mut object, alloc, "event", view, Some(number))?;
    object.put_flag(alloc, "done", done)?;
    put_events(&mut object, alloc, view, members)?;
    Ok(object)
}

// What was taken back with the events of an edge.
fn without(
    alloc: Global,
    view: View<'_>,
    path: &Name,
    members: &[u32],
    left: usize,
) -> Result<Object, AllocError> {
    let mut object = Object::of_kind(alloc, "without")?;
    put_name(&mut object, alloc, "path", Some(path))?;
    put_events(&mut object, alloc, view, members)?;
    object.put_number(alloc, "left", left as u64)?;
    Ok(object)
}

// Which commands ran while another did.
fn with(
    alloc: Global,
    view: View<'_>,
    path: &Name,
    run: Option<Span>,
    others: &[Span],
) -> Result<Object, AllocError> {
    let mut object = Object::of_kind(alloc, "with")?;
    put_name(&mut object, alloc, "path", Some(path))?;
    let run = run_value(alloc, view, run)?;
    object.put(alloc, "run", run)?;
    let others = runs_value(alloc, view, others)?;
    object.put(alloc, "others", others)?;
    Ok(object)
}

// A step of a way.
fn wait_value(alloc: Global, told: Context<'_>, wait: &Wait) -> Result<Value, AllocError> {
    let mut object = Object::new(alloc);
    put_edge(
        &mut object,
        alloc,
        "output",
        View::of(told).graph(),
        wait.edge,
    )?;
    let (names, input) = (("input", "dyndep"), wait.input.as_ref());
    put_path(
        &mut object,
        alloc,
        told,
        wait.edge,
        Side::Input,
        names,
        input,
    )?;
    Ok(object.value())
}

// The steps of a way.
fn waits_value(alloc: Global, told: Context<'_>, steps: &[Wait]) -> Result<Value, AllocError> {
    let mut values = Vec::new(alloc);
    for wait in steps {
        values.push(wait_value(alloc, told, wait)?)?;
    }
    Ok(Value::from(values))
}

// Reasons of an edge.
fn reasons_value(
    alloc: Global,
    told: Context<'_>,
    edge: u32,
    reasons: &[Because],
) -> Result<Value, AllocError> {
    let mut values = Vec::new(alloc);
    for because in reasons {
        values.push(because_value(alloc, told, edge, because)?)?;
    }
    Ok(Value::from(values))
}

// Why an edge runs.
fn why(
    alloc: Global,
    told: Context<'_>,
    path: &Name,
    run: Option<Span>,
    plan: Option<u32>,
    way: &Way,
) -> Result<Object, AllocError> {
    let view = View::of(told);
    let mut object = Object::of_kind(alloc, "why")?;
    put_name(&mut object, alloc, "path", Some(path))?;
    let run = run_value(alloc, view, run)?;
    object.put(alloc, "run", run)?;
    put_event(&mut object, alloc, "plan", view, plan)?;
    let steps = waits_value(alloc, told, &way.steps)?;
    object.put(alloc, "steps", steps)?;
    put_edge(&mut object, alloc, "last", view.graph(), way.last)?;
    let reasons = reasons_value(alloc, told, way.last, &way.reasons)?;
    object.put(alloc, "reasons", reasons)?;
    Ok(object)
}

// Adds what stands in the way: an edge, a path, a later event, and the cell through which that one does.
fn put_obstacle(
    object: &mut Object,
    alloc: Global,
    told: Context<'_>,
    obstacle: Obstacle<'_>,
    subject: Subject<'_>,
) -> Result<(), AllocError> {
    match obstacle.edge {
        Some(edge) => put_edge(object, alloc, "output", View::of(told).graph(), edge)?,
        None => object.put(alloc, "output", Value::Null)?,
    }
    put_name(object, alloc, "path", obstacle.path)?;
    put_event(object, alloc, "later", View::of(told), obstacle.later)?;
    let cell = cell_between(told, subject, obstacle.later);
    put_through(object, alloc, View::of(told).graph(), cell)
}

// A refusal.
fn refused(
    alloc: Global,
    told: Context<'_>,
    refusal: Refusal,
    subject: Subject<'_>,
) -> Result<Object, AllocError> {
    let number = match subject {
        Subject::Event(number) => Some(number),
        _ => None,
    };
    let mut object = Object::of_kind(alloc, "refused")?;
    object.put_number(alloc, "code", u64::from(refusal.code()))?;
    put_event(&mut object, alloc, "event", View::of(told), number)?;
    let obstacle = obstacle_of(told, refusal, subject);
    put_obstacle(&mut object, alloc, told, obstacle, subject)?;
    let mut text = Vec::new(alloc);
    push_refusal(&mut text, alloc, told, refusal, subject, b"; ")?;
    let words = text_value(alloc, &text)?;
    object.put(alloc, "words", words)?;
    Ok(object)
}

// A journal that is full.
fn full(alloc: Global) -> Result<Object, AllocError> {
    let mut object = Object::of_kind(alloc, "refused")?;
    object.put_number(alloc, "code", u64::from(FULL))?;
    object.put(alloc, "event", Value::Null)?;
    object.put(alloc, "output", Value::Null)?;
    object.put(alloc, "path", Value::Null)?;
    object.put(alloc, "later", Value::Null)?;
    object.put(alloc, "through", Value::Null)?;
    object.put(alloc, "cell", Value::Null)?;
    object.put(alloc, "of", Value::Null)?;
    let mut text = Vec::new(alloc);
    push_full(&mut text)?;
    let words = text_value(alloc, &text)?;
    object.put(alloc, "words", words)?;
    Ok(object)
}

// A command that was carried out.
fn carried_out(
    alloc: Global,
    view: View<'_>,
    entry: u32,
    number: Option<u32>,
    paused: bool,
) -> Result<Object, AllocError> {
    let number = if view.event(entry).is_some() {
        Some(entry)
    } else {
        number
    };
    let mut object = Object::of_kind(alloc, "done")?;
    object.put_number(alloc, "entry", u64::from(entry))?;
    put_event(&mut object, alloc, "event", view, number)?;
    object.put_flag(alloc, "paused", paused)?;
    Ok(object)
}

// What the desk replied to a command.
fn replied(
    alloc: Global,
    told: Context<'_>,
    reply: Option<Reply>,
    number: Option<u32>,
    subject: Subject<'_>,
) -> Result<Object, AllocError> {
    match reply {
        None => full(alloc),
        Some(Reply::Refused(refusal)) => refused(alloc, told, refusal, subject),
        Some(Reply::Coned(entry, _)) => { carried_out(alloc, View::of(told), entry, number, false) }
        Some(Reply::Accepted(entry, met)) => {
            carried_out(alloc, View::of(told), entry, number, met.is_some())
        }
    }
}

// A command of the recording, and what came of it.
fn step_value(alloc: Global, told: Context<'_>, step: Step) -> Result<Value, AllocError> {
    let Some(turn) = told.session.turns.get(step.at) else {
        return Ok(Value::Null);
    };
    let subject = subject_of(told, turn.command);
    let mut text = Vec::new(alloc);
    push_command_words(&mut text, alloc, turn.command)?;
    let mut object = Object::new(alloc);
    let command = text_value(alloc, &text)?;
    object.put(alloc, "command", command)?;
    let answer = replied(alloc, told, step.reply, step.number, subject)?;
    object.put(alloc, "answer", answer.value())?;
    Ok(object.value())
}

// A command of the recording, where there is one.
fn step_or_null(alloc: Global, told: Context<'_>, step: Option<Step>) -> Result<Value, AllocError> {
    match step {
        Some(step) => step_value(alloc, told, step),
        None => Ok(Value::Null),
    }
}

// An undo that was carried out, and who was seen to look at what was undone.
fn undone(
    alloc: Global,
    told: Context<'_>,
    reply: Reply,
    number: u32,
    users: &[User],
) -> Result<Object, AllocError> {
    let subject = Subject::Event(number);
    let mut object = replied(alloc, told, Some(reply), Some(number), subject)?;
    let warnings = users_value(alloc, told, users)?;
    object.put(alloc, "warnings", warnings)?;
    Ok(object)
}

// What came of `run`.
fn tally_object(
    alloc: Global,
    told: Context<'_>,
    tally: Tally,
    paused: bool,
) -> Result<Object, AllocError> {
    let mut object = Object::of_kind(alloc, "run")?;
    object.put_number(alloc, "said", tally.said)?;
    object.put_number(alloc, "refused", tally.refused)?;
    let first = step_or_null(alloc, told, tally.first)?;
    object.put(alloc, "first", first)?;
    object.put_number(alloc, "running", tally.running)?;
    object.put_flag(alloc, "paused", paused)?;
    Ok(object)
}

// Commands of the recording.
fn steps_object(
    alloc: Global,
    told: Context<'_>,
    steps: &[Step],
    ended: bool,
    paused: bool,
) -> Result<Object, AllocError> {
    let mut object = Object::of_kind(alloc, "steps")?;
    let mut values = Vec::new(alloc);
    for step in steps {
        values.push(step_value(alloc, told, *step)?)?;
    }
    object.put(alloc, "steps", Value::from(values))?;
    object.put_flag(alloc, "ended", ended)?;
    object.put_flag(alloc, "paused", paused)?;
    Ok(object)
}

// An answer as an object.
fn answer_object(alloc: Global, told: Context<'_>, answer: &Answer) -> Result<Object, AllocError> {
    let view = View::of(told);
    match answer {
        Answer::Nothing => Object::of_kind(alloc, "nothing"),
        Answer::Help => help(alloc, told),
        Answer::Lines(text) => lines(alloc, text),
        Answer::NoOutput(path) => no_output(alloc, told, path),
        Answer::NoneKept(path) => no_event(alloc, Some(path)),
        Answer::NoEvent => no_event(alloc, None),
        Answer::Event(number) => one_event(alloc, view, *number),
        Answer::Kept(numbers) => events(alloc, view, None, numbers),
        Answer::Who(path, numbers) => events(alloc, view, Some(path), numbers),
        Answer::Needs(of) => needs(alloc, told, of),
        Answer::Readers(path, of) => readers(alloc, told, path, of),
        Answer::Writers(path, of) => writers(alloc, told, path, of),
        Answer::Dependents(number, links) => dependents(alloc, view, *number, links),
        Answer::WouldCone(number, members) => cone(alloc, view, *number, members, false),
        Answer::Cone(number, members) => cone(alloc, view, *number, members, true),
        Answer::Without(path, members, left) => without(alloc, view, path, members, *left),
        Answer::With(path, run, others) => with(alloc, view, path, *run, others),
        Answer::Why(path, run, plan, way) => why(alloc, told, path, *run, *plan, way),
        Answer::Order(ordered) => order_object(alloc, view, *ordered),
        Answer::Said(reply, number) => {
            replied(alloc, told, *reply, *number, subject_asked(told, *number))
        }
        Answer::Undone(reply, number, users) => undone(alloc, told, *reply, *number, users),
        Answer::Run(tally, paused) => tally_object(alloc, told, *tally, *paused),
        Answer::Steps(steps, ended, paused) => steps_object(alloc, told, steps, *ended, *paused),
        Answer::Found(found) => found_object(alloc, told, found),
    }
}

/// An answer as JSON: one object in a line. Names stand as people read them, so that each is text whatever its bytes
/// are.
///
/// # Errors
/// [`AllocError`] only where an allocation was refused.
pub fn answer_json(
    alloc: Global,
    told: Context<'_>,
    answer: &Answer,
) -> Result<Vec<u8>, AllocError> {
    let object = answer_object(alloc, told, answer)?;
    line_of(alloc, object)
}
