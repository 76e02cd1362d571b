//! One question about each of several outputs: those of a pattern, or those that a phony name stands for.
use crate::replies::{Answered, Style, written_for_answer};
use rev_answers::{Many, each_json, each_words, screen_of};
use rev_desk::Desk;
use rev_prompt::{Answer, Question, Session, Several, asked_each, question_of};
use std::alloc::{AllocError, Global};

// How many outputs are told of a pattern, or of a phony name.
const MOST_OUTPUTS: usize = 20;

// The texts of a line with an output in place of the text at a place.
fn line_about(
    alloc: Global,
    texts: &[Vec<u8>],
    place: usize,
    output: &[u8],
) -> Result<Vec<Vec<u8>>, AllocError> {
    let mut line = Vec::new(alloc);
    for (index, text) in texts.iter().enumerate() {
        let text: &[u8] = if index == place { output } else { text };
        line.push(Vec::from_slice(alloc, text)?)?;
    }
    Ok(line)
}

// The questions of a line about each of the first so many of some outputs.
fn questions_about(
    alloc: Global,
    texts: &[Vec<u8>],
    several: &Several,
    most: usize,
) -> Result<Vec<Question>, AllocError> {
    let mut questions = Vec::new(alloc);
    for output in several.outputs.iter().take(most) {
        let line = line_about(alloc, texts, several.place, output)?;
        match question_of(alloc, &line) {
            Ok(question) => questions.push(question)?,
            Err(rev_fields::LineFault::Memory) => return Err(AllocError),
            // The longest names have no room for the `./` before them, by which a name like a number is typed.
            Err(_) => {}
        }
    }
    Ok(questions)
}

// What is written for the answers to questions that only ask.
fn written_for_answers(
    alloc: Global,
    session: &Session<'_>,
    desk: &Desk,
    questions: &[Question],
    answers: &[Answer],
    style: Style<'_>,
) -> Result<Vec<Vec<u8>>, AllocError> {
    let mut written = Vec::new(alloc);
    for (question, answer) in questions.iter().zip(answers.iter()) {
        written.push(written_for_answer(alloc, session, desk, question, answer, style)?)?;
    }
    Ok(written)
}

// The answers to one question about each of the first outputs of some.
fn answers_for_each(
    alloc: Global,
    session: &Session<'_>,
    desk: &Desk,
    texts: &[Vec<u8>],
    several: &Several,
    style: Style<'_>,
) -> Result<Vec<Vec<u8>>, AllocError> {
    let most = if style.all {
        several.outputs.len()
    } else {
        MOST_OUTPUTS
    };
    let times = Vec::from_slice(alloc, style.times)?;
    let session = Session {
        times: &times,
        ..*session
    };
    let questions = questions_about(alloc, texts, several, most)?;
    let answers = asked_each(alloc, &session, desk, &questions)?;
    written_for_answers(alloc, &session, desk, &questions, &answers, style)
}

// The answers about some outputs in words, up to a screen, or as an object.
fn each_text(
    alloc: Global,
    many: Many<'_>,
    answers: &[Vec<u8>],
    style: Style<'_>,
) -> Result<Vec<u8>, AllocError> {
    if style.json {
        return each_json(alloc, many, answers);
    }
    let text = each_words(alloc, many, answers)?;
    if style.all {
        return Ok(text);
    }
    screen_of(alloc, &text, true)
}

/// What is written for the same question about each of some outputs.
pub(crate) fn written_for_each(
    alloc: Global,
    session: &Session<'_>,
    desk: &mut Desk,
    texts: &[Vec<u8>],
    several: &Several,
    style: Style<'_>,
) -> Result<Answered, AllocError> {
    let answers = answers_for_each(alloc, session, desk, texts, several, style)?;
    let many = Many {
        name: match texts.get(several.place) {
            Some(name) => name,
            None => &[],
        },
        is_phony: several.is_phony,
        count: several.outputs.len(),
    };
    Ok(Answered {
        text: each_text(alloc, many, &answers, style)?,
        taken: session.taken,
        repeats: false,
        is_answer: !several.outputs.is_empty(),
        ends: false,
    })
}
