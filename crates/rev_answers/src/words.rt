//! Answers in words.
ghost use Rattle.std.specs.Prelude.{◌≡◌, ◌++◌, IfOk, OnOk};
ghost use Rattle.rev_answers.specs.Opening.{counted, opening_line};

use crate::causes::{push_dependents, push_needs};
use crate::events::{push_count, push_events, push_list, push_numbered, push_visible};
use crate::folders::{sorted_outputs, touches_folder};
use crate::found::push_found;
use crate::help::push_help;
use crate::meant::push_no_output;
use crate::observed::{push_readers, push_users, push_writers};
use crate::order::push_order;
use crate::reasons::push_why;
use crate::refusals::{NEXT_LINE, Subject, push_full, push_refusal, subject_of};
use crate::replay::{push_steps, push_tally};
use crate::request::{Request, request_of};
use crate::runs::push_with;
use crate::times::push_at;
use crate::told::{Context, history_of};
use rev_desk::Reply;
use rev_fields::push_number;
use rev_history::History;
use rev_paths::Name;
use rev_prompt::{Answer, Question, User};
use rev_shown::push_shown;
use std::alloc::{AllocError, Global};

// Adds a number of things by their noun.
fn push_counted(text: &mut Vec<u8>, number: u64, noun: &[u8]) -> Result<(), AllocError>
    ensures { OnOk result (text.new.items ≡ text.old.items ++ counted number noun.now) }
{
    push_number(text, number)?;
    text.extend_from_slice(noun)?;
    if number != 1 {
        text.extend_from_slice(b"s")?;
    }
    Ok(())
}

/// The first line: how many commands, edges and lanes a recording has.
///
/// # Errors
/// [`AllocError`] only where an allocation was refused.
pub fn opening_words(
    alloc: Global,
    commands: usize,
    edges: u32,
    lanes: u32,
) -> Result<Vec<u8>, AllocError>
    ensures { IfOk result (λ text. text.items ≡ opening_line commands edges lanes) }
{
    let mut text = Vec::new(alloc);
    push_counted(&mut text, commands as u64, b" command")?;
    text.extend_from_slice(b", ")?;
    push_counted(&mut text, u64::from(edges), b" edge")?;
    text.extend_from_slice(b", lanes: ")?;
    push_number(&mut text, u64::from(lanes))?;
    text.extend_from_slice(b"; `help` lists the words\n")?;
    Ok(text)
}

// The answer where no event was accepted under a number.
const NO_EVENT: &[u8] =
    b"no event was accepted under this number; `kept` lists those that are kept\n";

// Adds lines, or that there are none.
fn push_lines(text: &mut Vec<u8>, lines: &[u8]) -> Result<(), AllocError> {
    if lines.is_empty() {
        return text.extend_from_slice(b"nothing\n");
    }
    push_visible(text, lines)
}

// Adds that a path is no output.
fn push_no_output_line(
    text: &mut Vec<u8>,
    alloc: Global,
    told: Context<'_>,
    path: &Name,
) -> Result<(), AllocError> {
    push_no_output(text, alloc, told, path)?;
    text.extend_from_slice(b"\n")
}

// Adds that no such event at a path is kept.
fn push_none_kept(text: &mut Vec<u8>, path: &Name) -> Result<(), AllocError> {
    text.extend_from_slice(b"no such event of ")?;
    push_shown(text, path.as_bytes())?;
    text.extend_from_slice(b" is kept; `who ")?;
    push_shown(text, path.as_bytes())?;
    text.extend_from_slice(b"` lists what there is\n")
}

// The events that touch no folder in which outputs lie.
fn but_folders(alloc: Global, told: Context<'_>, numbers: &[u32]) -> Result<Vec<u32>, AllocError> {
    let outputs = sorted_outputs(alloc, told.session.builds)?;
    let mut others = Vec::new(alloc);
    for number in numbers {
        if !touches_folder(alloc, history_of(told), &outputs, *number)? {
            others.push(*number)?;
        }
    }
    Ok(others)
}

// Adds how many touches of folders are left out.
fn push_folders(text: &mut Vec<u8>, count: usize) -> Result<(), AllocError> {
    if count == 0 {
        return Ok(());
    }
    push_number(text, count as u64)?;
    text.extend_from_slice(if count == 1 {
        b" touch of a folder is left out: `history all` tells it\n"
    } else {
        b" touches of folders are left out: `history all` tells them\n"
    })
}

// Adds the kept events: all, or those that touch no folder.
fn push_kept(
    text: &mut Vec<u8>,
    alloc: Global,
    told: Context<'_>,
    numbers: &[u32],
) -> Result<(), AllocError> {
    let history = history_of(told);
    if numbers.is_empty() && told.session.taken < told.session.turns.len() {
        return text.extend_from_slice(b"nothing is kept: `run` replays the recording\n");
    }
    if numbers.is_empty() {
        return text.extend_from_slice(b"nothing is kept\n");
    }
    if let Question::Kept(true) = told.question {
        return push_list(text, history, numbers);
    }
    let others = but_folders(alloc, told, numbers)?;
    push_list(text, history, &others)?;
    push_folders(text, numbers.len().saturating_sub(others.len()))
}

/// Adds that an edge did not run: a phony one has no command.
pub(crate) fn push_not_run(
    text: &mut Vec<u8>,
    told: Context<'_>,
    path: &Name,
) -> Result<(), AllocError> {
    push_shown(text, path.as_bytes())?;
    let graph = history_of(told).graph();
    match graph.producer(path) {
        Some(edge) if edge < graph.edges() && graph.is_phony(edge) => {
            text.extend_from_slice(b" is a phony name: it stands for no command\n")
        }
        _ => text.extend_from_slice(b" did not run so far\n"),
    }
}

// Adds an event, and when it happened, in a line.
fn push_one(text: &mut Vec<u8>, told: Context<'_>, number: u32) -> Result<(), AllocError> {
    push_numbered(text, history_of(told), number)?;
    push_at(text, told, number)?;
    text.push(b'\n')?;
    Ok(())
}

// Adds the events of an edge.
fn push_who(
    text: &mut Vec<u8>,
    told: Context<'_>,
    path: &Name,
    numbers: &[u32],
) -> Result<(), AllocError> {
    if numbers.is_empty() {
        return push_not_run(text, told, path);
    }
    for number in numbers {
        push_one(text, told, *number)?;
    }
    Ok(())
}

// Adds how many events a cone has, and lists them.
fn push_cone(
    text: &mut Vec<u8>,
    history: &History,
    members: &[u32],
    tells: &[u8],
) -> Result<(), AllocError> {
    push_count(text, members.len() as u64)?;
    text.extend_from_slice(tells)?;
    push_events(text, history, members)
}

// Adds what was taken back with the events of an edge.
fn push_without(
    text: &mut Vec<u8>,
    history: &History,
    path: &Name,
    members: &[u32],
    left: usize,
) -> Result<(), AllocError> {
    if members.is_empty() {
        push_shown(text, path.as_bytes())?;
        return text.extend_from_slice(b" has no kept event\n");
    }
    push_cone(text, history, members, b" undone\n")?;
    push_count(text, left as u64)?;
    text.extend_from_slice(if left == 1 {
        b" is left; `kept` lists it\n"
    } else {
        b" are left; `kept` lists them\n"
    })
}

/// What was refused, of a question and the event that it names.
pub(crate) fn subject_asked<'a>(told: Context<'a>, number: Option<u32>) -> Subject<'a> {
    if let Some(number) = number {
        return Subject::Event(number);
    }
    match request_of(told.question) {
        Request::Command(command) => subject_of(told, command),
        Request::Help(_)
        | Request::Rebuilds(_)
        | Request::Change
        | Request::Output
        | Request::Order
        | Request::Rest => Subject::Nothing,
    }
}

// Adds an entry that was accepted: the event that it names, or is.
fn push_accepted(
    text: &mut Vec<u8>,
    history: &History,
    entry: u32,
    number: Option<u32>,
) -> Result<(), AllocError> {
    if let Some(number) = number {
        return push_numbered(text, history, number);
    }
    if history.event(entry).is_some() {
        return push_numbered(text, history, entry);
    }
    push_number(text, u64::from(entry))?;
    text.extend_from_slice(b" ok")
}

// Adds what the desk replied to a typed command.
fn push_said(
    text: &mut Vec<u8>,
    alloc: Global,
    told: Context<'_>,
    reply: Option<Reply>,
    number: Option<u32>,
) -> Result<(), AllocError> {
    match reply {
        None => push_full(text)?,
        Some(Reply::Refused(refusal)) => {
            let subject = subject_asked(told, number);
            push_refusal(text, alloc, told, refusal, subject, NEXT_LINE)?;
        }
        Some(Reply::Coned(_, count)) => {
            push_count(text, count)?;
            text.extend_from_slice(b" undone")?;
        }
        Some(Reply::Accepted(entry, met)) => {
            push_accepted(text, history_of(told), entry, number)?;
            if met.is_some() {
                text.extend_from_slice(b"; a break stands here: `continue` goes on")?;
            }
        }
    }
    text.push(b'\n')?;
    Ok(())
}

// Adds what the desk replied to an undo that was carried out, and who was seen to look at what was undone.
fn push_undone(
    text: &mut Vec<u8>,
    alloc: Global,
    told: Context<'_>,
    reply: Reply,
    number: u32,
    users: &[User],
) -> Result<(), AllocError> {
    push_said(text, alloc, told, Some(reply), Some(number))?;
    push_users(text, told, number, users)
}

// Whether all of an answer is to be told, and not a screen of it.
fn is_all(question: &Question) -> bool {
    matches!(question, Question::Query(_, true))
}

// Adds an answer.
fn push_answer(
    text: &mut Vec<u8>,
    alloc: Global,
    told: Context<'_>,
    answer: &Answer,
) -> Result<(), AllocError> {
    let history = history_of(told);
    match answer {
        Answer::Nothing => Ok(()),
        Answer::Help => push_help(text, told.question),
        Answer::Lines(lines) => push_lines(text, lines),
        Answer::NoOutput(path) => push_no_output_line(text, alloc, told, path),
        Answer::NoneKept(path) => push_none_kept(text, path),
        Answer::NoEvent => text.extend_from_slice(NO_EVENT),
        Answer::Event(number) => push_one(text, told, *number),
        Answer::Kept(numbers) => push_kept(text, alloc, told, numbers),
        Answer::Who(path, numbers) => push_who(text, told, path, numbers),
        Answer::Needs(needs) => push_needs(text, told, needs),
        Answer::Readers(path, readers) => push_readers(text, alloc, told, path, readers),
        Answer::Writers(path, writers) => push_writers(text, alloc, told, path, writers),
        Answer::Dependents(number, links) => push_dependents(text, history, *number, links),
        Answer::WouldCone(_, members) => push_cone(text, history, members, b" would be undone\n"),
        Answer::Cone(_, members) => push_cone(text, history, members, b" undone\n"),
        Answer::Without(path, members, left) => push_without(text, history, path, members, *left),
        Answer::With(path, run, others) => push_with(text, told, path, *run, others),
        Answer::Why(path, run, plan, way) => push_why(text, told, path, *run, *plan, way),
        Answer::Order(ordered) => push_order(text, history, *ordered),
        Answer::Said(reply, number) => push_said(text, alloc, told, *reply, *number),
        Answer::Undone(reply, number, users) => {
            push_undone(text, alloc, told, *reply, *number, users)
        }
        Answer::Run(tally, paused) => push_tally(text, alloc, told, *tally, *paused),
        Answer::Steps(steps, ended, paused) => {
            push_steps(text, alloc, told, steps, *ended, *paused)
        }
        Answer::Found(found) => push_found(text, alloc, told, found, is_all(told.question)),
    }
}

/// An answer in words, each line with its end.
///
/// # Errors
/// [`AllocError`] only where an allocation was refused.
pub fn answer_words(
    alloc: Global,
    told: Context<'_>,
    answer: &Answer,
) -> Result<Vec<u8>, AllocError> {
    let mut text = Vec::new(alloc);
    push_answer(&mut text, alloc, told, answer)?;
    Ok(text)
}
