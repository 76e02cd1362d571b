//! Answers questions about a recorded Ninja build.
#![tactic(auto)]

mod asking;
mod comparing;
mod mending;
mod page;
mod picturing;
mod replies;
mod scheduling;
mod separating;
mod several;
mod shuffling;
mod targeting;
mod timelining;
mod told;

use asking::{Manner, ask};
use comparing::compare;
use picturing::picture;
use rev_asking::{Request, Word, read_words};
use rev_fields::wide_number;
use rev_program::{ProgramFault, USAGE, explain, fail, words};
use rev_verdicts::Form;
use scheduling::schedule;
use separating::separate;
use shuffling::shuffle;
use std::io::IsTerminal;
use std::process::ExitCode;
use std::rt::Files;
use timelining::timelined;
use told::{How, OfRaces, Question, say, tell};

// The form of the answer of `races` or `certify`, or a sentence that says why that is not asked well.
fn form_of(asked: &Request<'_>) -> Result<Form, &'static str> {
    let Some(name) = asked.format else {
        return Ok(if asked.json {
            Form::Json
        } else if asked.all {
            Form::AllWords
        } else {
            Form::Words
        });
    };
    match Form::named(name) {
        None => Err("--format takes words, json, github, sarif or junit"),
        Some(form) if asked.json && form != Form::Json => {
            Err("--json is --format json: one form is written")
        }
        Some(Form::Words) if asked.all => Ok(Form::AllWords),
        Some(form) => Ok(form),
    }
}

// What is asked of races, or a sentence that says why that is not asked well.
fn asked_of_races(asked: &Request<'_>) -> Result<OfRaces, &'static str> {
    let form = form_of(asked)?;
    let is_other = asked.mend || asked.witness.is_some() || asked.provoke.is_some();
    if is_other && !matches!(form, Form::Words | Form::AllWords) {
        return Err("--json tells the races; a patch or a witness is written without it");
    }
    if is_other && asked.write_baseline.is_some() {
        return Err(
            "--write-baseline is written with the races; a patch or a witness is written without it",
        );
    }
    if let Some(number) = asked.witness {
        return match wide_number(number.as_bytes()) {
            Ok(number) => Ok(OfRaces::Witness(number)),
            Err(_) => Err("--witness takes the number of a race, from 1"),
        };
    }
    if let Some(number) = asked.provoke {
        return match wide_number(number.as_bytes()) {
            Ok(number) => Ok(OfRaces::Provoke(number)),
            Err(_) => Err("--provoke takes the number of a race, from 1"),
        };
    }
    if asked.mend {
        return Ok(OfRaces::Mend);
    }
    Ok(OfRaces::All(form))
}

// What is asked of a certificate, or a sentence that says why that is not asked well.
fn asked_of_certificate(asked: &Request<'_>) -> Result<How, &'static str> {
    match form_of(asked) {
        Ok(form) => Ok(How::Certify {
            form,
            is_strict: asked.strict,
        }),
        Err(sentence) => Err(sentence),
    }
}

// Writes what is asked of a recording in one go, or a sentence that says why that is not asked well, and gives the
// status.
fn tell_how<'a, R: Files + Print + Eprint + AllocGlobal>(
    rt: &R,
    asked: &Request<'a>,
    how: Result<How, &'static str>,
) -> Result<u8, ProgramFault<'a>> {
    match how {
        Ok(how) => tell(
            rt,
            Question {
                recording: asked.recording,
                how,
                filters: asked.filters,
                baseline: asked.baseline,
                write_baseline: asked.write_baseline,
                trust: asked.trust,
            },
        ),
        Err(sentence) => {
            say(rt, sentence);
            Ok(USAGE)
        }
    }
}

// Answers what is asked by some words, and gives the status.
fn answer<'a, R: Files + Input + Print + Eprint + AllocGlobal>(
    rt: &R,
    asked: Request<'a>,
    words: &'a [String],
    is_terminal: bool,
) -> Result<u8, ProgramFault<'a>> {
    match asked.word {
        Word::Races => tell_how(rt, &asked, asked_of_races(&asked).map(|of| How::Races(of))),
        Word::Certify => tell_how(rt, &asked, asked_of_certificate(&asked)),
        Word::Replay => tell_how(rt, &asked, Ok(How::Replay)),
        Word::Ask => {
            let manner = Manner {
                prompts: is_terminal && !asked.json,
                json: asked.json,
            };
            ask(rt, asked.recording, manner)
        }
        Word::Picture => picture(rt, &asked),
        Word::Timeline => timelined(rt, &asked),
        Word::Compare => compare(rt, &asked),
        Word::Schedule => schedule(rt, &asked, words),
        Word::Shuffle => shuffle(rt, &asked),
        Word::Separate => separate(rt),
    }
}

fn main(rt: HostRuntime) -> ExitCode {
    let words = match words(&rt) {
        Ok(words) => words,
        Err(status) => return status,
    };
    let asked = match read_words(rt.alloc(), &words) {
        Ok(asked) => asked,
        Err(error) => return explain(&rt, &error),
    };
    let is_terminal = rt.reader().is_terminal();
    match answer(&rt, asked, &words, is_terminal) {
        Ok(status) => ExitCode::from(status),
        Err(fault) => fail(&rt, fault),
    }
}
