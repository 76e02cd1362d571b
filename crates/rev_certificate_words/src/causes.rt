//! What caused a flag.
use rev_observation::{Flag, FlagKind};
use rev_races_text::Shown;
use std::alloc::{AllocError, Global};

// Adds the program of a flag.
fn push_program(text: &mut String, flag: &Flag) -> Result<(), AllocError> {
    let program = flag.program.as_bytes();
    if program.is_empty() {
        return text.push_str("a program");
    }
    write!(text, "{}", Shown(program))
}

// Adds a text of a flag behind some words, where the flag has it.
fn push_behind(text: &mut String, before: &'static str, part: &[u8]) -> Result<(), AllocError> {
    if part.is_empty() {
        return Ok(());
    }
    write!(text, "{before}{}", Shown(part))
}

// Adds what the program of a flag did, with the call and the text of the flag behind it.
fn push_deed(text: &mut String, flag: &Flag, deed: &'static str) -> Result<(), AllocError> {
    push_program(text, flag)?;
    text.push_str(deed)?;
    push_behind(text, ": ", flag.call.as_bytes())?;
    push_behind(text, " ", flag.text.as_bytes())
}

// What the program of a flag of a kind did.
fn deed_of(kind: FlagKind) -> &'static str {
    match kind {
        FlagKind::Cut => " was still running when the observation ended",
        FlagKind::Late => " changed a file after the end of its command",
        FlagKind::Socket => " spoke to another process",
        FlagKind::Ipc => " used what processes share beside files",
        FlagKind::Proc => " read what /proc shows of another process",
        FlagKind::Namespace => " changed its root, its mounts or its namespaces",
        FlagKind::Uring => " used io_uring",
        FlagKind::Attributes => " asked for attributes of a file, or set them",
        FlagKind::Notified => " has another process answer its calls",
        FlagKind::Deep => " used a path of more than 4,096 bytes",
        FlagKind::Unresolved => " used a path that could not be found out",
        FlagKind::Unknown => " made a call that the observer does not know",
        FlagKind::Twin => " may be another edge's, which has the same command",
    }
}

// Whether a flag stands for further causes, which the observation does not have.
fn is_of_more(flag: &Flag) -> bool {
    flag.kind != FlagKind::Twin
        && flag.kind != FlagKind::Cut
        && flag.call.as_bytes().is_empty()
        && flag.program.as_bytes().is_empty()
        && flag.text.as_bytes().is_empty()
}

/// Why a command was not observed whole, as `curl spoke to another process: connect 10.0.0.1:80`.
///
/// # Errors
/// [`AllocError`] only where an allocation was refused.
pub fn flag_words(alloc: Global, flag: &Flag) -> Result<String, AllocError> {
    let mut text = String::new(alloc);
    push_deed(&mut text, flag, deed_of(flag.kind))?;
    if is_of_more(flag) {
        text.push_str(", and there are more such causes")?;
    }
    Ok(text)
}
