//! What is assumed, in words.
use crate::named::Named;
use rev_certificate::Assumption;
use rev_entry_conflicts::ensurers;
use rev_observed::PathRange;
use rev_races_text::{Counted, Shown};
use std::alloc::{AllocError, Global};

// How many commands, targets or entries a line names.
const FEW: usize = 3;

// Adds how many more there are than a line names.
fn push_more(text: &mut String, count: usize) -> Result<(), AllocError> {
    let more = count.saturating_sub(FEW);
    if more == 0 {
        return Ok(());
    }
    write!(text, " and {more} more")
}

// Adds the targets.
fn push_targets(text: &mut String, named: &Named<'_>) -> Result<(), AllocError> {
    if named.targets.is_empty() {
        return text.push_str("the targets are the default ones, as here");
    }
    text.push_str("the targets are those of this recording:")?;
    for (place, target) in named.targets.iter().enumerate() {
        if place < FEW {
            write!(text, " {}", Shown(target.as_bytes()))?;
        }
    }
    push_more(text, named.targets.len())
}

// Adds the commands that make a folder.
fn push_makers(text: &mut String, named: &Named<'_>, makers: &[u32]) -> Result<(), AllocError> {
    for (place, maker) in makers.iter().enumerate() {
        if place < FEW {
            let between = if place == 0 { "" } else { ", " };
            let maker = named.actor(*maker);
            write!(text, "{between}{maker}")?;
        }
    }
    push_more(text, makers.len())
}

// Adds that several commands make one folder.
fn push_ensured(
    alloc: Global,
    text: &mut String,
    named: &Named<'_>,
    entry: u32,
) -> Result<(), AllocError> {
    let commands = named.scene.commands.as_slice();
    if commands.len() > u32::MAX as usize {
        return Err(AllocError);
    }
    let makers = ensurers(alloc, commands, entry)?;
    let path = named.path(entry);
    write!(text, "none of these goes by who made the folder {path}: ")?;
    push_makers(text, named, &makers)
}

// Adds what is hidden.
fn push_hidden(text: &mut String, named: &Named<'_>, number: u32) -> Result<(), AllocError> {
    let Some(hidden) = named.observation.hidden().get(number as usize) else {
        return Ok(());
    };
    let path = Shown(hidden.path.as_bytes());
    let commands = Counted {
        count: hidden.commands,
        one: "command",
        many: "commands",
    };
    write!(
        text,
        "what {path} showed {commands} does not depend on an order"
    )
}

// Adds the first entries of ranges.
fn push_ranges(
    text: &mut String,
    named: &Named<'_>,
    ranges: &[PathRange],
) -> Result<(), AllocError> {
    let mut count = 0usize;
    for range in ranges {
        let first = named.path(range.first);
        if count < FEW {
            write!(text, " {first}")?;
        }
        if range.first < range.last && count.saturating_add(1) < FEW {
            let last = named.path(range.last);
            write!(text, " {last}")?;
        }
        let more = range.last.saturating_sub(range.first) as usize;
        count = usize::saturating_add(count, more).saturating_add(1);
    }
    push_more(text, count)
}

// Adds that entries were names of one file.
fn push_names(text: &mut String, named: &Named<'_>, number: u32) -> Result<(), AllocError> {
    text.push_str("no command goes by how many names one file has:")?;
    match named.observation.same().get(number as usize) {
        Some(same) => push_ranges(text, named, same.ranges()),
        None => Ok(()),
    }
}

// Adds what is assumed of one command and an entry.
fn push_of_user(
    text: &mut String,
    named: &Named<'_>,
    user: u32,
    before: &'static str,
    entry: u32,
    behind: &'static str,
) -> Result<(), AllocError> {
    let (user, path) = (named.actor(user), named.path(entry));
    write!(text, "{user} {before} {path}{behind}")
}

/// What is assumed, as a sentence without its end.
///
/// # Errors
/// [`AllocError`] where an allocation was refused, or where there are more commands than a number of 32 bits counts.
pub fn assumption_words(
    alloc: Global,
    named: &Named<'_>,
    assumption: &Assumption,
) -> Result<String, AllocError> {
    let mut text = String::new(alloc);
    let line = &mut text;
    match assumption {
        Assumption::Targets => push_targets(line, named)?,
        Assumption::SeesTheSame => {
            line.push_str(
                "the sources stay the same, and a command that sees the same does the same",
            )?;
        }
        Assumption::Ensured { entry } => push_ensured(alloc, line, named, *entry)?,
        Assumption::Stamps { entry, user } => {
            let behind = ", which others change";
            push_of_user(
                line,
                named,
                *user,
                "does not go by the stamp of",
                *entry,
                behind,
            )?;
        }
        Assumption::Order { folder, user } => {
            let behind = ", which others change";
            push_of_user(
                line,
                named,
                *user,
                "does not go by the order of the names in",
                *folder,
                behind,
            )?;
        }
        Assumption::Cached { folder, user } => {
            let behind = " what it would make itself";
            push_of_user(line, named, *user, "takes from the cache", *folder, behind)?;
        }
        Assumption::HiddenEntry { entry } => {
            let path = named.path(*entry);
            write!(
                line,
                "what commands find at {path} does not matter, which a filter hides"
            )?;
        }
        Assumption::HiddenPlace { number } => push_hidden(line, named, *number)?,
        Assumption::Names { number } => push_names(line, named, *number)?,
    }
    Ok(text)
}
