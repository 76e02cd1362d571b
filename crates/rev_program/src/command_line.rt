//! The words of a command line, and what a program writes to standard error.
use crate::fault::{FAILURE, ProgramFault};
use crate::visible::push_visible;
use clap::error::ErrorKind;
use std::alloc::Global;
use std::io;
use std::process::ExitCode;
use std::rt::Env;

/// The status of a wrong command line.
pub const USAGE: u8 = 2;

// The words of the command line. The first is `rebug`, which people type for both programs.
fn given_words<R: Env + Alloc<A = Global>>(rt: &R) -> io::Result<Vec<String>> {
    let mut words: Vec<String> = std::env::args(rt)?.collect(rt.alloc())?;
    if let Some(program) = words.first_mut() {
        program.clear();
        program.push_str("rebug")?;
    }
    Ok(words)
}

/// The words of the command line, with `rebug` as the first, since users type that name for both programs.
///
/// # Errors
/// The status with which the program ends, after it wrote why: [`USAGE`] where a word is not UTF-8 text, [`FAILURE`]
/// where memory was refused.
pub fn words<R: Env + Eprint + AllocGlobal>(rt: &R) -> Result<Vec<String>, ExitCode> {
    match given_words(rt) {
        Ok(words) => Ok(words),
        Err(error) if error.kind() == io::ErrorKind::InvalidData => {
            say(
                rt,
                b"a word of the command line is not UTF-8 text; rename that file, or give another name for it",
            );
            Err(ExitCode::from(USAGE))
        }
        Err(_) => Err(fail(rt, ProgramFault::Memory)),
    }
}

/// Writes the program's name and a text to standard error, without the bytes that a terminal could obey.
pub fn say<R: Eprint + AllocGlobal>(rt: &R, text: &[u8]) {
    let mut visible = Vec::new(rt.alloc());
    if push_visible(&mut visible, text).is_err() {
        let _ = eprintln!(rt; "rebug: out of memory");
    } else if let Ok(text) = str::from_utf8(&visible) {
        let _ = eprintln!(rt; "rebug: {text}");
    }
}

/// Writes why a program ends, and returns its status.
pub fn fail<R: Eprint + AllocGlobal>(rt: &R, fault: ProgramFault<'_>) -> ExitCode {
    let status = fault.status();
    match format!(in rt.alloc(); "{fault}") {
        Ok(text) => say(rt, text.as_bytes()),
        Err(_) => say(rt, b"out of memory"),
    }
    ExitCode::from(status)
}

// The text about a command line, as a terminal may have it.
fn text_of<R: AllocGlobal>(rt: &R, error: &clap::Error) -> Option<Vec<u8>> {
    let text = format!(in rt.alloc(); "{error}").ok()?;
    let mut visible = Vec::new(rt.alloc());
    push_visible(&mut visible, text.as_bytes()).ok()?;
    Some(visible)
}

/// Writes what is wrong with a command line to standard error, or the wanted help or version to standard output.
/// Returns the status.
pub fn explain<R: Print + Eprint + AllocGlobal>(rt: &R, error: &clap::Error) -> ExitCode {
    if error.kind() == ErrorKind::OutOfMemory {
        return fail(rt, ProgramFault::Memory);
    }
    let Some(visible) = text_of(rt, error) else {
        return fail(rt, ProgramFault::Memory);
    };
    let text = str::from_utf8(&visible).unwrap_or("");
    if matches!(
        error.kind(),
        ErrorKind::DisplayHelp | ErrorKind::DisplayVersion
    ) {
        return match rt.print(text) {
            Ok(()) => ExitCode::SUCCESS,
            Err(_) => fail(rt, ProgramFault::Write),
        };
    }
    let _ = rt.eprint(text);
    ExitCode::from(USAGE)
}
