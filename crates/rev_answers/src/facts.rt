//! An edge in words.
use crate::by_dyndep::{Side, added_to, parted, push_by};
use crate::description::description_of;
use crate::edges::push_edge;
use crate::events::push_visible;
use crate::runs::push_span;
use crate::statements::{build_of, listed, push_placed, rule_of};
use crate::times::push_took;
use crate::told::{Context, history_of, path_of};
use rev_dyndep::Added;
use rev_fields::push_number;
use rev_manifest::Build;
use rev_observed::{Observation, PathRange};
use rev_paths::Name;
use rev_prompt::{EdgeFound, Kind};
use rev_shown::push_shown;
use std::alloc::{AllocError, Global};

// How many names of a list are told, unless all are.
const FEW: usize = 8;

// How many bytes of a command are told, unless all are.
const SHORT: usize = 1_000;

// Marks those of some names that are paths of an observation.
fn mark(marks: &mut [bool], observation: &Observation, names: &[Name]) {
    for name in names {
        if let Some(path) = observation.paths().find(name) {
            if let Some(slot) = marks.get_mut(path as usize) {
                *slot = true;
            }
        }
    }
}

// The marks of the paths of an observation that an edge's build line or its list has.
fn named_marks(
    alloc: Global,
    told: Context<'_>,
    observation: &Observation,
    build: &Build,
    edge: u32,
) -> Result<Vec<bool>, AllocError> {
    let mut marks = vec![in alloc; false; observation.paths().len() as usize]?;
    mark(&mut marks, observation, build.explicit());
    mark(&mut marks, observation, build.implicit());
    mark(&mut marks, observation, build.order_only());
    mark(&mut marks, observation, build.explicit_outs());
    mark(&mut marks, observation, build.implicit_outs());
    mark(&mut marks, observation, listed(told, edge));
    Ok(marks)
}

// Adds the paths of a range that have no mark.
fn add_unmarked(
    names: &mut Vec<Name>,
    told: Context<'_>,
    range: PathRange,
    marks: &[bool],
) -> Result<(), AllocError> {
    let first = u64::from(range.first);
    let end = (u64::from(range.last) + 1).min(marks.len() as u64);
    for path in first..end {
        let is_marked = marks.get(path as usize).copied().unwrap_or(true);
        if is_marked {
            continue;
        }
        if let Some(name) = path_of(told, path) {
            names.push(name.copy()?)?;
        }
    }
    Ok(())
}

// The paths of ranges that have no mark.
fn unmarked(
    alloc: Global,
    told: Context<'_>,
    ranges: &[PathRange],
    marks: &[bool],
) -> Result<Vec<Name>, AllocError> {
    let mut names = Vec::new(alloc);
    for range in ranges {
        add_unmarked(&mut names, told, *range, marks)?;
    }
    Ok(names)
}

/// The paths that an edge's command was seen to read, and that neither its build line nor its list has; none where the
/// command was not observed.
///
/// # Errors
/// [`AllocError`] only where an allocation was refused.
pub(crate) fn also_read(
    alloc: Global,
    told: Context<'_>,
    build: &Build,
    edge: u32,
) -> Result<Option<Vec<Name>>, AllocError> {
    let Some(observation) = told.session.observation else {
        return Ok(None);
    };
    let Some(number) = told.session.edges.iter().position(|one| *one == edge) else {
        return Ok(None);
    };
    let Some(command) = observation.commands().get(number) else {
        return Ok(None);
    };
    let marks = named_marks(alloc, told, observation, build, edge)?;
    let names = unmarked(alloc, told, command.paths(Kind::Reads), &marks)?;
    Ok(Some(names))
}

// Adds how many are left out.
fn push_more(text: &mut Vec<u8>, count: usize, most: usize) -> Result<(), AllocError> {
    if count > most {
        text.extend_from_slice(b" and ")?;
        push_number(text, (count - most) as u64)?;
        text.extend_from_slice(b" more")?;
    }
    Ok(())
}

// Adds a line of names behind a word; nothing where there are none.
fn push_names(
    text: &mut Vec<u8>,
    word: &[u8],
    names: &[Name],
    all: bool,
) -> Result<(), AllocError> {
    if names.is_empty() {
        return Ok(());
    }
    let most = if all { names.len() } else { FEW };
    text.extend_from_slice(b"  ")?;
    text.extend_from_slice(word)?;
    for name in names.iter().take(most) {
        text.push(b' ')?;
        push_shown(text, name.as_bytes())?;
    }
    push_more(text, names.len(), most)?;
    text.push(b'\n')?;
    Ok(())
}

// Adds a line of bytes behind a word; nothing where there are none.
fn push_bytes(
    text: &mut Vec<u8>,
    word: &[u8],
    bytes: &[u8],
    most: usize,
) -> Result<(), AllocError> {
    if bytes.is_empty() {
        return Ok(());
    }
    text.extend_from_slice(b"  ")?;
    text.extend_from_slice(word)?;
    text.push(b' ')?;
    push_visible(text, bytes.get(..most).unwrap_or(bytes))?;
    if bytes.len() > most {
        text.extend_from_slice(b" ..")?;
    }
    text.push(b'\n')?;
    Ok(())
}

// Adds paths of a kind that an edge has by its own line, and in a line behind it those that a dyndep file adds.
fn push_parted(
    text: &mut Vec<u8>,
    alloc: Global,
    word: &[u8],
    names: &[Name],
    added: &Added,
    side: Side,
    all: bool,
) -> Result<(), AllocError> {
    let mut words = Vec::from_slice(alloc, word)?;
    words.push(b':')?;
    push_names(
        text,
        &words,
        &parted(alloc, added, side, names, false)?,
        all,
    )?;
    let mut words = Vec::from_slice(alloc, word)?;
    push_by(&mut words, Some(added.file()))?;
    words.push(b':')?;
    push_names(text, &words, &parted(alloc, added, side, names, true)?, all)
}

// Adds implicit inputs or outputs of an edge.
fn push_implicit(
    text: &mut Vec<u8>,
    alloc: Global,
    names: &[Name],
    added: Option<&Added>,
    side: Side,
    all: bool,
) -> Result<(), AllocError> {
    let word: &[u8] = match side {
        Side::Input => b"implicit",
        Side::Output => b"implicit outputs",
    };
    match added {
        Some(added) => push_parted(text, alloc, word, names, added, side, all),
        None if side == Side::Input => push_names(text, b"implicit:", names, all),
        None => push_names(text, b"implicit outputs:", names, all),
    }
}

// Adds the paths of a build line, a line a kind.
fn push_paths(
    text: &mut Vec<u8>,
    alloc: Global,
    build: &Build,
    added: Option<&Added>,
    all: bool,
) -> Result<(), AllocError> {
    push_names(text, b"inputs:", build.explicit(), all)?;
    push_implicit(text, alloc, build.implicit(), added, Side::Input, all)?;
    push_names(text, b"order-only:", build.order_only(), all)?;
    push_names(text, b"validations:", build.validations(), all)?;
    push_names(text, b"outputs:", build.explicit_outs(), all)?;
    push_implicit(text, alloc, build.implicit_outs(), added, Side::Output, all)
}

/// The flags of an edge that are set, as words.
pub(crate) fn flags_of(build: &Build) -> [(bool, &'static str); 3] {
    [
        (build.keeps_deps(), "deps"),
        (build.restat(), "restat"),
        (build.generator(), "generator"),
    ]
}

// Adds the flags of an edge that are set.
fn push_flags(text: &mut Vec<u8>, build: &Build) -> Result<(), AllocError> {
    let mut before: &[u8] = b"  flags: ";
    let flags = flags_of(build);
    for (is_set, word) in &flags {
        if *is_set {
            text.extend_from_slice(before)?;
            text.extend_from_slice(word.as_bytes())?;
            before = b" ";
        }
    }
    if before.len() == 1 {
        text.push(b'\n')?;
    }
    Ok(())
}

// Adds the pool of an edge, if it has one.
fn push_pool(text: &mut Vec<u8>, told: Context<'_>, build: &Build) -> Result<(), AllocError> {
    let Some(pool) = build.pool() else {
        return Ok(());
    };
    let Some((name, depth)) = told.session.pools.get(pool as usize) else {
        return Ok(());
    };
    text.extend_from_slice(b"  pool: ")?;
    push_shown(text, name)?;
    text.extend_from_slice(b", depth ")?;
    push_number(text, u64::from(*depth))?;
    text.push(b'\n')?;
    Ok(())
}

// Adds who waits for an edge.
fn push_users(
    text: &mut Vec<u8>,
    told: Context<'_>,
    users: &[u32],
    all: bool,
) -> Result<(), AllocError> {
    if users.is_empty() {
        return text.extend_from_slice(b"  nothing waits for it\n");
    }
    let most = if all { users.len() } else { FEW };
    text.extend_from_slice(b"  for it wait:")?;
    for user in users.iter().take(most) {
        text.push(b' ')?;
        push_edge(text, history_of(told).graph(), *user)?;
    }
    push_more(text, users.len(), most)?;
    text.push(b'\n')?;
    Ok(())
}

// Adds the last run of an edge's command.
fn push_run(text: &mut Vec<u8>, told: Context<'_>, found: &EdgeFound) -> Result<(), AllocError> {
    let Some(run) = found.run else {
        return text.extend_from_slice(b"  it did not run so far\n");
    };
    text.extend_from_slice(b"  it ran: ")?;
    push_span(text, history_of(told), run)?;
    push_took(text, told, run)?;
    text.push(b'\n')?;
    Ok(())
}

// Adds the first line: the edge, its place, and its rule.
fn push_head(
    text: &mut Vec<u8>,
    told: Context<'_>,
    build: &Build,
    edge: u32,
) -> Result<(), AllocError> {
    push_placed(text, told, edge)?;
    if let Some(rule) = rule_of(told, build) {
        text.extend_from_slice(b", rule ")?;
        push_shown(text, rule)?;
    }
    text.push(b'\n')?;
    Ok(())
}

// Adds what is read of an edge's list, and what its command was seen to read besides.
fn push_read(
    text: &mut Vec<u8>,
    alloc: Global,
    told: Context<'_>,
    build: &Build,
    edge: u32,
    all: bool,
) -> Result<(), AllocError> {
    push_names(text, b"its list:", listed(told, edge), all)?;
    match also_read(alloc, told, build, edge)? {
        Some(names) => push_names(text, b"seen to read besides:", &names, all),
        None => Ok(()),
    }
}

/// Adds what the manifest says of an edge, and what its command took.
pub(crate) fn push_edge_found(
    text: &mut Vec<u8>,
    alloc: Global,
    told: Context<'_>,
    found: &EdgeFound,
    all: bool,
) -> Result<(), AllocError> {
    let Some(build) = build_of(told, found.edge) else {
        return Ok(());
    };
    push_head(text, told, build, found.edge)?;
    let short = if all { build.command().len() } else { SHORT };
    push_bytes(text, b"command:", build.command(), short)?;
    let description = description_of(alloc, told, build)?;
    push_bytes(text, b"description:", &description, SHORT)?;
    push_paths(text, alloc, build, added_to(told, found.edge), all)?;
    push_read(text, alloc, told, build, found.edge, all)?;
    push_bytes(text, b"depfile:", build.depfile(), SHORT)?;
    push_bytes(text, b"response file:", build.rspfile(), SHORT)?;
    push_flags(text, build)?;
    push_pool(text, told, build)?;
    push_users(text, told, &found.users, all)?;
    if build.phony() {
        return Ok(());
    }
    push_run(text, told, found)
}
