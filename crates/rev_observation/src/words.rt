//! An observation as version 1 says it.
ghost use Rattle.std.specs.Prelude.{◌≡◌, IsTrue, IfOk};
ghost use Rattle.rev_observed.specs.Observations.{outputs_of as outputs_of_words};
ghost use Rattle.rev_observation.specs.Blocks.{outputs_of};

use crate::blocks::{Command, Line};
use crate::deed::Deed;
use crate::faults::{Fault, FaultKind, ReadFault};
use crate::flag::{Flag, FlagKind};
use crate::look::{Change, Look};
use crate::observation::Observation;
use crate::spans::{Span, add_ranges, united, without};
use rev_fields::{next_field, next_number, push_number};
use std::alloc::{AllocError, Global};

// The deeds that each kind of version 1 is.
const READS: &[Deed] = &[Deed::Look(Look::Read)];

const STATS: &[Deed] = &[
    Deed::Look(Look::Status),
    Deed::Look(Look::Mode),
    Deed::Look(Look::There),
    Deed::Look(Look::Folder),
];

const MISSES: &[Deed] = &[Deed::Look(Look::Missing)];

const LISTS: &[Deed] = &[Deed::Look(Look::Listed)];

const WRITES: &[Deed] = &[
    Deed::Change(Change::Left),
    Deed::Change(Change::Edited),
    Deed::Change(Change::Linked),
];

const EDITS: &[Deed] = &[Deed::Change(Change::Edited)];

const DELETES: &[Deed] = &[Deed::Change(Change::Taken), Deed::Change(Change::Removed)];

const TEMPS: &[Deed] = &[Deed::Change(Change::Temps)];

const FOLDERS: &[Deed] = &[Deed::Change(Change::Made)];

// The entries with which a command did one of these deeds.
fn entries_of(alloc: Global, lines: &[Line], deeds: &[Deed]) -> Result<Vec<Span>, AllocError> {
    let mut spans = Vec::new(alloc);
    for line in lines {
        if deeds.contains(&line.deed) {
            add_ranges(&mut spans, line.entries.ranges())?;
        }
    }
    united(alloc, spans)
}

// A space, and a number or two with `-` between them.
fn next_span(text: &mut Vec<u8>, span: Span) -> Result<(), AllocError> {
    next_number(text, span.first)?;
    if span.first != span.last {
        text.push(b'-')?;
        push_number(text, span.last)?;
    }
    Ok(())
}

// `KIND NUMBER...`, where there is a number.
fn push_kind(text: &mut Vec<u8>, kind: &[u8], spans: &[Span]) -> Result<(), AllocError> {
    if spans.is_empty() {
        return Ok(());
    }
    text.extend_from_slice(kind)?;
    for span in spans {
        next_span(text, *span)?;
    }
    text.push(b'\n')?;
    Ok(())
}

// The line of a kind that is some deeds.
fn push_deeds(
    alloc: Global,
    text: &mut Vec<u8>,
    kind: &[u8],
    lines: &[Line],
    deeds: &[Deed],
) -> Result<(), AllocError> {
    let spans = entries_of(alloc, lines, deeds)?;
    push_kind(text, kind, &spans)
}

// Whether a flag is one of version 1. A call that only asks how much room a file system has is none.
fn counts(flag: &Flag) -> bool {
    flag.kind != FlagKind::Unknown || flag.call.as_bytes() != b"statfs".as_slice()
}

// The word that version 1 has for a flag.
fn word_of(kind: FlagKind) -> &'static [u8] {
    match kind {
        FlagKind::Cut => b"cut",
        FlagKind::Socket => b"server",
        FlagKind::Namespace => b"namespace",
        FlagKind::Uring => b"uring",
        FlagKind::Twin => b"twin",
        _ => b"unresolved",
    }
}

// Whether one of the flags has this word in version 1.
fn has_word(flags: &[Flag], word: &[u8]) -> bool {
    for flag in flags {
        if counts(flag) && word_of(flag.kind) == word {
            return true;
        }
    }
    false
}

// A word, where a flag has it.
fn push_flag(text: &mut Vec<u8>, flags: &[Flag], word: &[u8]) -> Result<(), AllocError> {
    if has_word(flags, word) {
        next_field(text, word)?;
    }
    Ok(())
}

// `edge OUT [FLAG...]`. Of an incomplete observation each command is `cut`, since lines of it may be missing.
fn push_edge(text: &mut Vec<u8>, command: &Command, is_complete: bool) -> Result<(), AllocError> {
    let flags = command.flags();
    text.extend_from_slice(b"edge")?;
    next_field(text, command.output().as_bytes())?;
    if !is_complete || has_word(flags, b"cut") {
        next_field(text, b"cut")?;
    }
    push_flag(text, flags, b"server")?;
    push_flag(text, flags, b"namespace")?;
    push_flag(text, flags, b"uring")?;
    push_flag(text, flags, b"unresolved")?;
    push_flag(text, flags, b"twin")?;
    text.push(b'\n')?;
    Ok(())
}

// `reads` and `stats`. An entry whose content or whose names the command read is not in `stats`.
fn push_looks(alloc: Global, text: &mut Vec<u8>, lines: &[Line]) -> Result<(), AllocError> {
    let reads = entries_of(alloc, lines, READS)?;
    let lists = entries_of(alloc, lines, LISTS)?;
    let asked = entries_of(alloc, lines, STATS)?;
    let unread = without(alloc, &asked, &reads)?;
    let stats = without(alloc, &unread, &lists)?;
    push_kind(text, b"reads", &reads)?;
    push_kind(text, b"stats", &stats)
}

// The lines of a command.
fn push_command(
    alloc: Global,
    text: &mut Vec<u8>,
    command: &Command,
    is_complete: bool,
) -> Result<(), AllocError> {
    let lines = command.lines();
    push_edge(text, command, is_complete)?;
    push_looks(alloc, text, lines)?;
    push_deeds(alloc, text, b"misses", lines, MISSES)?;
    push_deeds(alloc, text, b"lists", lines, LISTS)?;
    push_deeds(alloc, text, b"writes", lines, WRITES)?;
    push_deeds(alloc, text, b"edits", lines, EDITS)?;
    push_deeds(alloc, text, b"deletes", lines, DELETES)?;
    push_deeds(alloc, text, b"temps", lines, TEMPS)?;
    push_deeds(alloc, text, b"folders", lines, FOLDERS)?;
    if let Some(count) = command.outside() {
        text.extend_from_slice(b"outside")?;
        next_number(text, count)?;
        text.push(b'\n')?;
    }
    Ok(())
}

// The text of version 1.
fn text_of(alloc: Global, observation: &Observation) -> Result<Vec<u8>, AllocError> {
    let mut text = Vec::from_slice(alloc, b"rebug-observed 1\nby")?;
    next_field(&mut text, observation.by().name.as_bytes())?;
    text.push(b'\n')?;
    let paths = observation.entries().paths();
    for place in 0..paths.len() {
        text.extend_from_slice(b"path")?;
        next_field(&mut text, paths.path(place).as_bytes())?;
        text.push(b'\n')?;
    }
    let is_complete = observation.is_complete();
    for command in observation.commands() {
        push_command(alloc, &mut text, command, is_complete)?;
    }
    Ok(text)
}

// What `as_version_1` would answer if the text that it wrote had other commands.
const OTHER_COMMANDS: ReadFault = ReadFault::Numbered(Fault {
    kind: FaultKind::Syntax,
    line: 0,
});

// Whether commands in the words of version 1 have the outputs of these, in their order.
fn have_outputs(words: &[rev_observed::Command], commands: &[Command]) -> bool
    ensures { IsTrue result → outputs_of_words words.now ≡ outputs_of commands.now }
{
    if words.len() != commands.len() {
        return false;
    }
    for (place, command) in commands.iter().enumerate() {
        if words[place].output() != command.output() {
            return false;
        }
    }
    true
}

/// The observation as version 1 says it (docs/FORMATS.md, "As words of version 1"): its paths under their numbers, and
/// its commands in their order. Where the observation is not complete, no command of it was observed whole. It takes
/// time linear in the observation, up to sorting the ranges of a command.
///
/// # Errors
/// [`ReadFault::Memory`] only where an allocation was refused. The call reads the text that it writes. It gives
/// [`ReadFault::Numbered`] where that text has a fault or other commands, and no test met that.
pub fn as_version_1(
    alloc: Global,
    observation: &Observation,
) -> Result<rev_observed::Observation, ReadFault>
    ensures { IfOk result (λ words. outputs_of_words words.commands ≡ outputs_of observation.now.commands) }
{
    let text = text_of(alloc, observation)?;
    let words = rev_observed::read(alloc, &text)?;
    if !have_outputs(words.commands(), observation.commands()) {
        return Err(OTHER_COMMANDS);
    }
    Ok(words)
}
