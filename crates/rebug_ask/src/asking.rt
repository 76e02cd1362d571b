//! Questions about a recording, a line of standard input each.
ghost use Rattle.std.specs.Prelude.{◌≤◌, length};

use crate::replies::{Answered, Style, told, told_with, written_for};
use crate::several::written_for_each;
use crate::targeting::{read_targets, targets_in};
use crate::told::{EndedDesk, leave, manifest_of, races_in, refuse, say_notes, trace_of, write};
use indexmap::IndexMap;
use rev_answers::{
    meant_word, not_asked_words, objects_json, opening_json, opening_words, screen_of,
};
use rev_desk::Desk;
use rev_findings::names_in;
use rev_folder::{
    KnownTimes, LabelTime, Observed, Place, Recording, label_times, observed_in, place_of,
    read_names, read_observed, read_recording, read_times, say_incomplete,
};
use rev_manifest::Manifest;
use rev_observed::Observation;
use rev_paths::Name;
use rev_program::ProgramFault;
use rev_prompt::{LineFault, Question, Session, outputs_meant, question_of, texts_of};
use rev_recording::{RecordingFault, open};
use rev_script::turns_of;
use rev_targets::Targets;
use rev_trace::Trace;
use rev_verdicts::Form;
use std::alloc::{AllocError, Global};
use std::io::ErrorKind;
use std::rt::Files;

// Stands before each line that is typed at a terminal.
const PROMPT: &[u8] = b"rebug> ";
// What is told of a line whose quote is not closed.
const OPEN_QUOTE: &[u8] = b"a quote is not closed\n";
// What is told of a line that is no text.
const NO_TEXT: &[u8] = b"this line is no UTF-8 text: write a byte of a name as \\xff\n";
// What is told where the races are asked and a file of the recording is not there any more.
const UNREAD: &[u8] = b"the recording is not as it was: a file of it cannot be read\n";

// What is told where the races are asked and a file beside the trace has a fault.
const FAULTY: &[u8] = b"a file beside the trace has a fault: `rebug races` names it\n";

// How questions end early.
enum Ended {
    Write,
    Read,
    Recording(RecordingFault),
}

impl From<AllocError> for Ended {
    fn from(_e: AllocError) -> Ended {
        Ended::Recording(RecordingFault::Memory)
    }
}

// The texts before `--all`, where that stands behind others, and whether it does.
fn before_all(texts: &[Vec<u8>]) -> (&[Vec<u8>], bool) {
    match texts {
        [rest @ .., last] if !rest.is_empty() && last.as_slice() == b"--all".as_slice() => {
            (rest, true)
        }
        _ => (texts, false),
    }
}

// What is written for the words of a line: for each output where one stands for several.
fn reply_to_words(
    alloc: Global,
    session: &Session<'_>,
    desk: &mut Desk,
    texts: &[Vec<u8>],
    style: Style<'_>,
) -> Result<Answered, AllocError> {
    let (texts, all) = before_all(texts);
    let style = Style { all, ..style };
    match outputs_meant(alloc, desk, texts)? {
        Some(several) => written_for_each(alloc, session, desk, texts, &several, style),
        None => written_for_words(alloc, session, desk, texts, style),
    }
}

// Whether a line asks nothing since it is empty.
fn is_nothing(question: &Question) -> bool {
    matches!(question, Question::Nothing)
}

// What is written for the words of one question.
fn written_for_words(
    alloc: Global,
    session: &Session<'_>,
    desk: &mut Desk,
    texts: &[Vec<u8>],
    style: Style<'_>,
) -> Result<Answered, AllocError> {
    match question_of(alloc, texts) {
        Ok(question) => {
            let repeated = Question::Next(1);
            let asked = if style.repeats && is_nothing(&question) {
                &repeated
            } else {
                &question
            };
            written_for(alloc, session, desk, asked, style)
        }
        Err(rev_fields::LineFault::Memory) => Err(AllocError),
        Err(_) => {
            let words = not_asked_words(alloc, texts)?;
            told_with(alloc, session, &words, meant_word(texts), style, false)
        }
    }
}

// Whether all is asked, where a question asks for the races; none where it does not.
fn races_in_question(question: &Question) -> Option<bool> {
    if let Question::Races(all) = question {
        return Some(*all);
    }
    None
}

// Whether all is asked, where texts ask for the races; none where they do not.
fn races_asked(alloc: Global, texts: &[Vec<u8>]) -> Result<Option<bool>, AllocError> {
    match question_of(alloc, texts) {
        Ok(question) => Ok(races_in_question(&question)),
        Err(rev_fields::LineFault::Memory) => Err(AllocError),
        _ => Ok(None),
    }
}

// The races of a recording as an answer has them.
fn races_text(alloc: Global, text: &[u8], all: bool, json: bool) -> Result<Vec<u8>, AllocError> {
    if json {
        return objects_json(alloc, b"races", b"findings", text);
    }
    if all {
        return Vec::from_slice(alloc, text);
    }
    screen_of(alloc, text, true)
}

// The desk of a session, where it stands as the recording leaves it: each of its commands was said, and nothing else. A
// command that is typed makes an entry of the journal, whatever comes of it.
fn ended_desk<'a, 'b>(
    session: &Session<'_>,
    scene: Scene<'_, 'a, '_>,
    desk: &'b Desk,
) -> Option<EndedDesk<'a, 'b>> {
    let commands = session.turns.len();
    if session.taken != commands || desk.journal().len() != commands {
        return None;
    }
    Some(EndedDesk {
        manifest: scene.manifest,
        desk,
        commands: commands as u64,
    })
}

// What is written where the races of the recording are asked. They are those of the session's desk, where nothing was
// typed, and else those of a replay.
fn written_for_races<R: Files + AllocGlobal>(
    rt: &R,
    session: &Session<'_>,
    scene: Scene<'_, '_, '_>,
    desk: &Desk,
    all: bool,
    style: Style<'_>,
) -> Result<Answered, Ended> {
    let form = if style.json {
        Form::Json
    } else if all {
        Form::AllWords
    } else {
        Form::Words
    };
    let beside = scene.beside;
    let ended = ended_desk(session, scene, desk);
    match races_in(rt, beside.recording, beside.place, beside.read, ended, form) {
        Ok(Some(text)) => Ok(Answered {
            text: races_text(rt.alloc(), &text, all, style.json)?,
            taken: session.taken,
            repeats: false,
            is_answer: true,
            ends: false,
        }),
        Ok(None) => Ok(told(rt.alloc(), session, UNREAD, style, false)?),
        Err(RecordingFault::Memory) => Err(Ended::Recording(RecordingFault::Memory)),
        Err(_) => Ok(told(rt.alloc(), session, FAULTY, style, false)?),
    }
}

// What is written for the words of a line, the races of the recording among them.
fn written_for_texts<R: Files + AllocGlobal>(
    rt: &R,
    session: &Session<'_>,
    desk: &mut Desk,
    scene: Scene<'_, '_, '_>,
    texts: &[Vec<u8>],
    style: Style<'_>,
) -> Result<Answered, Ended> {
    let (asked, all) = before_all(texts);
    match races_asked(rt.alloc(), asked)? {
        Some(of_all) => written_for_races(rt, session, scene, desk, all || of_all, style),
        None => Ok(reply_to_words(rt.alloc(), session, desk, texts, style)?),
    }
}

// What is written for a line.
fn reply_to<R: Files + AllocGlobal>(
    rt: &R,
    session: &Session<'_>,
    desk: &mut Desk,
    scene: Scene<'_, '_, '_>,
    line: &[u8],
    style: Style<'_>,
) -> Result<Answered, Ended> {
    match texts_of(rt.alloc(), line) {
        Ok(texts) => written_for_texts(rt, session, desk, scene, &texts, style),
        Err(LineFault::Memory) => Err(Ended::from(AllocError)),
        Err(LineFault::OpenQuote) => Ok(told(
            rt.alloc(),
            session,
            OPEN_QUOTE,
            style,
            style.repeats,
        )?),
    }
}

// Writes bytes to the standard output.
fn put<R: Print>(rt: &R, bytes: &[u8]) -> Result<(), Ended> {
    match write(rt, bytes) {
        Ok(()) => Ok(()),
        Err(ProgramFault::Memory) => Err(Ended::Recording(RecordingFault::Memory)),
        Err(_) => Err(Ended::Write),
    }
}

// What a read of a line gave.
#[derive(Clone, Copy)]
enum Typed {
    Line,
    End,
    NoText,
    Memory,
    Failed,
}

// Reads a line of the standard input.
fn read_typed<R: Input>(rt: &R, line: &mut String) -> Typed {
    match rt.read_line(line) {
        Ok(0) => Typed::End,
        Ok(_) => Typed::Line,
        Err(error) if error.kind() == ErrorKind::InvalidData => Typed::NoText,
        Err(error) if error.kind() == ErrorKind::OutOfMemory => Typed::Memory,
        Err(_) => Typed::Failed,
    }
}

// What is so behind a line: whether an empty line now asks for the next command, and whether the line had an answer.
#[derive(Clone, Copy)]
struct Since {
    repeats: bool,
    is_answer: bool,
}

// Answers a line that is no text.
fn answer_no_text<R: Print + AllocGlobal>(
    rt: &R,
    session: &Session<'_>,
    style: Style<'_>,
) -> Result<Option<Since>, Ended> {
    let no_text = told(rt.alloc(), session, NO_TEXT, style, false)?;
    put(rt, &no_text.text)?;
    Ok(Some(Since {
        repeats: false,
        is_answer: false,
    }))
}

// Answers a line; none where it asked for the end.
fn answer_line<R: Files + Print + AllocGlobal>(
    rt: &R,
    session: &mut Session<'_>,
    desk: &mut Desk,
    scene: Scene<'_, '_, '_>,
    line: &[u8],
    style: Style<'_>,
) -> Result<Option<Since>, Ended> {
    let reply = reply_to(rt, session, desk, scene, line, style)?;
    session.taken = reply.taken;
    put(rt, &reply.text)?;
    if reply.ends {
        return Ok(None);
    }
    Ok(Some(Since {
        repeats: reply.repeats,
        is_answer: reply.is_answer,
    }))
}

// What comes of a line of the standard input.
#[derive(Clone, Copy)]
enum Turn {
    // It was answered.
    Answered(Since),
    // It asked for the end.
    Quit,
    // There was none.
    End,
}

// The turn of a line that was answered, or asked for the end.
fn turn_of(since: Option<Since>) -> Turn {
    match since {
        Some(since) => Turn::Answered(since),
        None => Turn::Quit,
    }
}

// Takes a line of the standard input and answers it.
fn take_turn<R: Files + Input + Print + AllocGlobal>(
    rt: &R,
    session: &mut Session<'_>,
    desk: &mut Desk,
    scene: Scene<'_, '_, '_>,
    style: Style<'_>,
) -> Result<Turn, Ended> {
    let mut line = String::new(rt.alloc());
    match read_typed(rt, &mut line) {
        Typed::Line => {
            let since = answer_line(rt, session, desk, scene, line.trim().as_bytes(), style)?;
            Ok(turn_of(since))
        }
        Typed::End => Ok(Turn::End),
        Typed::NoText => Ok(turn_of(answer_no_text(rt, session, style)?)),
        Typed::Memory => Err(Ended::from(AllocError)),
        Typed::Failed => Err(Ended::Read),
    }
}

/// How a recording is asked.
#[derive(Clone, Copy)]
pub struct Manner {
    /// Whether a prompt stands before each line.
    pub prompts: bool,
    /// Whether a JSON object a line is written in place of words.
    pub json: bool,
}

// The status where the last line of the input had no answer, or was no question.
const NO_ANSWER: u8 = 1;

// Answers lines of the standard input up to its end, and gives the program's status.
fn converse<R: Files + Input + Print + AllocGlobal>(
    rt: &R,
    session: &mut Session<'_>,
    desk: &mut Desk,
    manner: Manner,
    scene: Scene<'_, '_, '_>,
) -> Result<u8, Ended> {
    let mut since = Since {
        repeats: false,
        is_answer: true,
    };
    let mut known = KnownTimes::new(rt.alloc(), desk, scene.beside.times)?;
    for _ in 0..u64::MAX {
        if manner.prompts {
            put(rt, PROMPT)?;
        }
        let style = Style {
            json: manner.json,
            times: known.times(),
            repeats: since.repeats && !manner.json,
            all: false,
            origins: &scene.beside.read.origins,
            targets: scene.targets,
        };
        match take_turn(rt, session, desk, scene, style)? {
            Turn::Answered(next) => since = next,
            Turn::Quit => return Ok(0),
            Turn::End => break,
        }
        known.renew(rt.alloc(), desk, scene.beside.times)?;
    }
    Ok(if since.is_answer { 0 } else { NO_ANSWER })
}

// Tells what the recording has.
fn put_opening<R: Print + AllocGlobal>(
    rt: &R,
    commands: usize,
    edges: u32,
    lanes: u32,
    json: bool,
) -> Result<(), Ended> {
    let text = if json {
        opening_json(rt.alloc(), commands, edges, lanes)?
    } else {
        opening_words(rt.alloc(), commands, edges, lanes)?
    };
    put(rt, &text)
}

// What was observed, if it was, and the edge of each command.
fn parts_of(observed: Option<&Observed>) -> (Option<&Observation>, &[u32]) {
    match observed {
        Some(observed) => (Some(&observed.observation), observed.edges.as_slice()),
        None => (None, &[]),
    }
}

// A recording, and what was read of it: the files of the manifest and the trace, the bytes of what was observed, if it
// was, the times of labels, other names of files, and the bytes of the generator's targets, if these are there.
#[derive(Clone, Copy)]
struct Beside<'a> {
    recording: &'a str,
    place: Place<'a>,
    read: &'a Recording,
    observed: Option<&'a [u8]>,
    times: &'a [LabelTime],
    names: &'a IndexMap<Name, Name>,
    targets: Option<&'a [u8]>,
}

// The same, with the manifest of the files, and the targets of its build statements.
#[derive(Clone, Copy)]
struct Scene<'a, 'b, 'c> {
    beside: Beside<'a>,
    manifest: &'b Manifest,
    targets: Option<&'c Targets>,
}

// Tells what the recording has, and answers lines about it.
fn asked<R: Files + Input + Print + AllocGlobal>(
    rt: &R,
    trace: &Trace,
    scene: Scene<'_, '_, '_>,
    observed: Option<&Observed>,
    desk: &mut Desk,
    manner: Manner,
) -> Result<u8, Ended>
    requires { length trace.now.lanes.items ≤ Trace.MAX_LANES }
{
    let alloc = rt.alloc();
    let turns = turns_of(alloc, &trace.lanes)?;
    let lanes = trace.lanes.len() as u32;
    let (observation, edges) = parts_of(observed);
    let mut session = Session {
        turns: &turns,
        taken: 0,
        lane: lanes,
        builds: scene.manifest.builds(),
        opening: &trace.opening,
        observation,
        edges,
        times: &[],
        files: &scene.beside.read.files,
        pools: scene.manifest.pools(),
        names: scene.beside.names,
    };
    let edges = desk.history().graph().edges();
    put_opening(rt, turns.len(), edges, lanes, manner.json)?;
    converse(rt, &mut session, desk, manner, scene)
}

// What the bytes of a file say of the commands of a desk's graph, if there is one.
fn seen_in(
    alloc: Global,
    desk: &Desk,
    bytes: Option<&[u8]>,
) -> Result<Option<Observed>, RecordingFault> {
    match bytes {
        Some(bytes) => Ok(Some(observed_in(alloc, desk.history().graph(), bytes)?)),
        None => Ok(None),
    }
}

// Answers lines about a trace and a desk of it.
fn asked_at<R: Files + Input + Print + AllocGlobal>(
    rt: &R,
    manifest: &Manifest,
    trace: &Trace,
    beside: Beside<'_>,
    desk: &mut Desk,
    manner: Manner,
) -> Result<u8, Ended>
    requires { length trace.now.lanes.items ≤ Trace.MAX_LANES }
{
    let alloc = rt.alloc();
    let observed = match seen_in(alloc, desk, beside.observed) {
        Ok(observed) => observed,
        Err(fault) => return Err(Ended::Recording(fault)),
    };
    let edges = desk.history().graph().edges();
    let targets = match targets_in(alloc, edges, beside.targets) {
        Ok(targets) => targets,
        Err(fault) => return Err(Ended::Recording(fault)),
    };
    let scene = Scene {
        beside,
        manifest,
        targets: targets.as_ref(),
    };
    asked(rt, trace, scene, observed.as_ref(), desk, manner)
}

// Answers lines about a trace that was read.
fn asked_of<R: Files + Input + Print + AllocGlobal>(
    rt: &R,
    manifest: &Manifest,
    trace: &Trace,
    beside: Beside<'_>,
    manner: Manner,
) -> Result<u8, Ended>
    requires { length trace.now.lanes.items ≤ Trace.MAX_LANES }
{
    let mut desk = match open(rt.alloc(), manifest, trace) {
        Ok(desk) => desk,
        Err(fault) => return Err(Ended::Recording(fault)),
    };
    let ended = asked_at(rt, manifest, trace, beside, &mut desk, manner);
    leave(desk);
    ended
}

// Answers lines about the bytes of a recording.
fn asked_about<R: Files + Input + Print + AllocGlobal>(
    rt: &R,
    beside: Beside<'_>,
    manner: Manner,
) -> Result<u8, Ended> {
    let manifest = match manifest_of(rt.alloc(), &beside.read.files) {
        Ok(manifest) => manifest,
        Err(fault) => return Err(Ended::Recording(fault)),
    };
    match trace_of(rt.alloc(), &beside.read.trace) {
        Ok(trace) => asked_of(rt, &manifest, &trace, beside, manner),
        Err(fault) => Err(Ended::Recording(fault)),
    }
}

/// Answers the lines of the standard input about a recording, up to `quit` or its end, and gives the program's status:
/// 1 where the last line of the input had no answer.
pub fn ask<'a, R: Files + Input + Print + Eprint + AllocGlobal>(
    rt: &R,
    recording: &'a str,
    manner: Manner,
) -> Result<u8, ProgramFault<'a>> {
    let place = place_of(rt, recording);
    let read = read_recording(rt, recording, place)?;
    say_notes(rt, &read)?;
    let observed = read_observed(rt, recording, place)?;
    say_incomplete(rt, observed.as_deref())?;
    let times = read_times(rt, recording, place)?;
    let labels = label_times(rt.alloc(), &times)?;
    let names = names_in(rt.alloc(), &read_names(rt, recording, place)?)?;
    let targets = read_targets(rt, recording, place)?;
    let beside = Beside {
        recording,
        place,
        read: &read,
        observed: observed.as_deref(),
        times: &labels,
        names: &names,
        targets: targets.as_deref(),
    };
    match asked_about(rt, beside, manner) {
        Ok(status) => Ok(status),
        Err(Ended::Write) => Err(ProgramFault::Write),
        Err(Ended::Read) => Err(ProgramFault::Read),
        Err(Ended::Recording(fault)) => refuse(rt, &read, &fault),
    }
}
