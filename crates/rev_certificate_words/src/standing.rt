//! What stands in the way, in words.
use crate::causes::flag_words;
use crate::kinds::conflict_kind;
use crate::named::{Actor, Named};
use rev_certificate::Obstacle;
use rev_entry_conflicts::{Conflict, Kind};
use rev_races_text::{LineIf, NameIf, Written, WrittenIf};
use std::alloc::{AllocError, Global};

// What stands between the two commands of a conflict.
fn between_of(kind: Kind) -> &'static str {
    match kind {
        Kind::Clash => " and ",
        Kind::Race => " leaves it or takes it away, and ",
        Kind::Folder => " makes this folder or takes it away, and ",
        Kind::Link => " leaves a link or something else there, and ",
        Kind::Cycle => " makes it, and waits for ",
        Kind::Unstable => " changes it or takes it away, and waits for ",
    }
}

// What stands behind the second command of a conflict.
fn behind_of(kind: Kind) -> &'static str {
    match kind {
        Kind::Clash => " both leave it, and neither waits for the other",
        Kind::Race => " looks at it and does not wait for that",
        Kind::Folder => " asks whether it is there and does not wait for that",
        Kind::Link => " goes through it or looks at it, and does not wait for that",
        Kind::Cycle => ", which looks at it: no order mends that",
        Kind::Unstable => ", which looked at it before: the next build shows it another file",
    }
}

// Whether an order of the two commands mends a conflict.
fn is_mended_by_order(kind: Kind) -> bool {
    match kind {
        Kind::Race | Kind::Folder | Kind::Link => true,
        Kind::Clash | Kind::Cycle | Kind::Unstable => false,
    }
}

// Adds the line by which the user of a conflict waits for the maker, where one mends it.
fn push_mend(text: &mut String, named: &Named<'_>, conflict: &Conflict) -> Result<(), AllocError> {
    if !is_mended_by_order(conflict.kind) {
        return Ok(());
    }
    let (maker, user) = (named.actor(conflict.made_by), named.actor(conflict.used_by));
    let (Actor::Command(maker), Actor::Command(user)) = (maker, user) else {
        return Ok(());
    };
    let Some(output) = maker.output else {
        return Ok(());
    };
    let (file, line) = (NameIf(user.file), LineIf(user.line));
    let (waiting, order) = (WrittenIf(user.output), Written(output.0));
    write!(
        text,
        "    mend: {file}{line}: build {waiting}: ... || {order}\n"
    )
}

// Adds how many more entries a conflict is about.
fn push_others(text: &mut String, others: u32) -> Result<(), AllocError> {
    match others {
        0 => Ok(()),
        1 => text.push_str(" (and at 1 more place)"),
        _ => write!(text, " (and at {others} more places)"),
    }
}

// Adds a conflict.
fn push_conflict(
    text: &mut String,
    named: &Named<'_>,
    conflict: &Conflict,
) -> Result<(), AllocError> {
    let kind = conflict_kind(conflict.kind);
    let path = named.path(conflict.entry);
    let (maker, user) = (named.actor(conflict.made_by), named.actor(conflict.used_by));
    let (between, behind) = (between_of(conflict.kind), behind_of(conflict.kind));
    write!(text, "{kind} {path}: {maker}{between}{user}{behind}")?;
    push_others(text, conflict.others)?;
    text.push_str("\n")?;
    push_mend(text, named, conflict)
}

// Adds that the command of an edge did not end well.
fn push_not_ended(text: &mut String, named: &Named<'_>, edge: u32) -> Result<(), AllocError> {
    let user = named.sources.edge(edge);
    if named.has_begun(edge) {
        return write!(text, "{user} did not end well\n");
    }
    if named.is_up_to_date(edge) {
        return write!(text, "{user} was up to date: record from nothing\n");
    }
    write!(text, "{user} did not run: the build ended before\n")
}

// Adds why a command was not observed whole.
fn push_flag(
    alloc: Global,
    text: &mut String,
    named: &Named<'_>,
    command: u32,
    flag: u32,
) -> Result<(), AllocError> {
    let user = named.actor(command);
    write!(text, "{user} was not observed whole: ")?;
    if let Some(flag) = named.flag(command, flag) {
        let why = flag_words(alloc, flag)?;
        text.push_str(&why)?;
    }
    text.push_str("\n")
}

/// What stands in the way, as lines. The first begins with the word for how two commands conflict, or with the command.
///
/// # Errors
/// [`AllocError`] only where an allocation was refused.
pub fn obstacle_words(
    alloc: Global,
    named: &Named<'_>,
    obstacle: &Obstacle,
) -> Result<String, AllocError> {
    let mut text = String::new(alloc);
    match obstacle {
        Obstacle::Incomplete => text.push_str(
            "the last line of `observed` is not the one that is due: the file was cut or changed\n",
        )?,
        Obstacle::NotEnded { edge } => push_not_ended(&mut text, named, *edge)?,
        Obstacle::Early { edge } => {
            let user = named.sources.edge(*edge);
            write!(
                text,
                "{user} made what the manifest is read from: record the build again\n"
            )?;
        }
        Obstacle::Unseen { edge } => {
            let user = named.sources.edge(*edge);
            write!(text, "{user} was not observed\n")?;
        }
        Obstacle::Flagged { command, flag } => {
            push_flag(alloc, &mut text, named, *command, *flag)?;
        }
        Obstacle::Conflict(conflict) => push_conflict(&mut text, named, conflict)?,
    }
    Ok(text)
}
