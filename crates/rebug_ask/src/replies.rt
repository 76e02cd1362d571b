//! How the answer to one question is written: in words or as an object, all of it or a screen.
use rev_answers::{Context, answer_json, answer_words, fault_json, screen_of};
use rev_desk::Desk;
use rev_dyndep::Origins;
use rev_prompt::{Answer, Question, Session, answer_to, has_answer, only_asks};
use rev_targets::Targets;
use std::alloc::{AllocError, Global};

/// What is written for a line, how many commands of the recording were said by then, whether an empty line now asks for
/// the next one, whether the line had an answer, and whether this is the end.
#[derive(Drop)]
pub(crate) struct Answered {
    pub(crate) text: Vec<u8>,
    pub(crate) taken: usize,
    pub(crate) repeats: bool,
    pub(crate) is_answer: bool,
    pub(crate) ends: bool,
}

/// How a line is answered: as JSON or in words, by which times of events, whether an empty line asks for the next
/// command of the recording, and whether all is told and not a screen. `origins` has the paths that come from dyndep
/// files, and `targets` the generator's targets.
#[derive(Clone, Copy)]
pub(crate) struct Style<'a> {
    pub(crate) json: bool,
    pub(crate) times: &'a [Option<u32>],
    pub(crate) repeats: bool,
    pub(crate) all: bool,
    pub(crate) origins: &'a Origins,
    pub(crate) targets: Option<&'a Targets>,
}

/// What is written for a line that has no answer, behind which an empty line asks for the next command or not.
pub(crate) fn told_with(
    alloc: Global,
    session: &Session<'_>,
    text: &[u8],
    meant: Option<&str>,
    style: Style<'_>,
    repeats: bool,
) -> Result<Answered, AllocError> {
    let text = if style.json {
        fault_json(alloc, text, meant)?
    } else {
        Vec::from_slice(alloc, text)?
    };
    Ok(Answered {
        text,
        taken: session.taken,
        repeats,
        is_answer: false,
        ends: false,
    })
}

/// The same, where no word may have been meant.
pub(crate) fn told(
    alloc: Global,
    session: &Session<'_>,
    text: &[u8],
    style: Style<'_>,
    repeats: bool,
) -> Result<Answered, AllocError> {
    told_with(alloc, session, text, None, style, repeats)
}

// What an answer is in words, or as an object.
fn answer_text(
    alloc: Global,
    told: Context<'_>,
    answer: &Answer,
    json: bool,
) -> Result<Vec<u8>, AllocError> {
    if json {
        answer_json(alloc, told, answer)
    } else {
        answer_words(alloc, told, answer)
    }
}

// Whether all of an answer is told: where the question asks for all, and where it is `help` or `next` with a number.
fn wants_all(question: &Question) -> bool {
    match question {
        Question::Query(_, all) | Question::Kept(all) | Question::Races(all) => *all,
        Question::Help | Question::Next(_) => true,
        Question::Run
        | Question::Until(_)
        | Question::Needs(_, _)
        | Question::Dependents(_)
        | Question::WouldCone(_)
        | Question::Who(_)
        | Question::Readers(_)
        | Question::Writers(_)
        | Question::What(_)
        | Question::Why(_)
        | Question::With(_)
        | Question::Order(_)
        | Question::Without(_)
        | Question::Undo(_)
        | Question::Redo(_)
        | Question::Cone(_)
        | Question::Marks(_)
        | Question::Stamps(_)
        | Question::Logs(_)
        | Question::Command(_)
        | Question::HelpOf(_)
        | Question::Quit
        | Question::Nothing => false,
    }
}

// An answer as it is written: all of it, or a screen.
fn cut(
    alloc: Global,
    text: Vec<u8>,
    question: &Question,
    style: Style<'_>,
) -> Result<Vec<u8>, AllocError> {
    if style.json || style.all || wants_all(question) {
        return Ok(text);
    }
    screen_of(alloc, &text, only_asks(question))
}

/// What is written for the answer to a question.
pub(crate) fn written_for_answer(
    alloc: Global,
    session: &Session<'_>,
    desk: &Desk,
    question: &Question,
    answer: &Answer,
    style: Style<'_>,
) -> Result<Vec<u8>, AllocError> {
    let times = Vec::from_slice(alloc, style.times)?;
    let session = Session {
        times: &times,
        ..*session
    };
    let told = Context {
        session: &session,
        desk,
        question,
        origins: style.origins,
        targets: style.targets,
    };
    let text = answer_text(alloc, told, answer, style.json)?;
    cut(alloc, text, question, style)
}

/// What is written for a question.
pub(crate) fn written_for(
    alloc: Global,
    session: &Session<'_>,
    desk: &mut Desk,
    question: &Question,
    style: Style<'_>,
) -> Result<Answered, AllocError> {
    let times = Vec::from_slice(alloc, style.times)?;
    let session = Session {
        times: &times,
        ..*session
    };
    let reply = answer_to(alloc, &session, desk, question)?;
    Ok(Answered {
        text: written_for_answer(alloc, &session, desk, question, &reply.answer, style)?,
        taken: reply.taken,
        repeats: matches!(question, Question::Next(_)),
        is_answer: has_answer(&reply.answer),
        ends: reply.ends,
    })
}
