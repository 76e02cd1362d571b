//! What commands were seen to do, in words.
use crate::by_dyndep::{Side, file_of, push_by};
use crate::edges::push_edge;
use crate::events::{is_kept, push_numbered};
use crate::meant::push_near_paths;
use crate::runs::push_span;
use crate::told::{Context, history_of, path_of};
use rev_fields::push_number;
use rev_history::History;
use rev_paths::Name;
use rev_prompt::{Deed, Kind, Naming, Need, Readers, Site, User, Writers};
use rev_runs::edge_of_event;
use rev_shown::push_shown;
use std::alloc::{AllocError, Global};

// Stands below what rests on what commands were seen to do.
const OBSERVED: &[u8] = b"by what was observed\n";
/// Stands below what rests on build lines and on lists of what commands read.
pub(crate) const LISTED: &[u8] = b"by build lines and lists: nothing was observed\n";
// Stands below what rests on build lines.
const DECLARED: &[u8] = b"by build lines: nothing was observed\n";

// Stands before a path that no edge names as what it reads.
const UNNAMED: &[u8] = b"no build line has as an input, and no list names, ";

// How many looks at what was undone are told.
const MOST_USERS: usize = 3;

/// The answer where nothing was observed.
pub(crate) const NOT_OBSERVED: &[u8] =
    b"nothing was observed: `./rebug record --observe` notes what commands look at\n";

// How a look is called.
fn look_word(look: Kind) -> &'static [u8] {
    match look {
        Kind::Reads => b"read",
        Kind::Misses => b"miss",
        Kind::Stats
        | Kind::Lists
        | Kind::Writes
        | Kind::Edits
        | Kind::Deletes
        | Kind::Temps
        | Kind::Folders => b"check",
    }
}

/// Adds what an event rests on by what its command was seen to look at, a line each.
pub(crate) fn push_looks(
    text: &mut Vec<u8>,
    told: Context<'_>,
    looks: &[Need],
) -> Result<(), AllocError> {
    for need in looks {
        text.extend_from_slice(b"  ")?;
        push_numbered(text, history_of(told), need.number)?;
        text.extend_from_slice(b" through the observed ")?;
        text.extend_from_slice(look_word(need.look))?;
        text.extend_from_slice(b" of ")?;
        if let Some(path) = path_of(told, need.path) {
            push_shown(text, path.as_bytes())?;
        }
        text.extend_from_slice(b", which its build line does not name\n")?;
    }
    Ok(())
}

/// Adds what an event rests on by what was observed alone.
pub(crate) fn push_observed_needs(
    text: &mut Vec<u8>,
    told: Context<'_>,
    number: u32,
    looks: Option<&Vec<Need>>,
) -> Result<(), AllocError> {
    let Some(looks) = looks else {
        return text.extend_from_slice(NOT_OBSERVED);
    };
    push_numbered(text, history_of(told), number)?;
    if !is_kept(history_of(told), number) {
        return text.extend_from_slice(b" rests on nothing: it is not kept\n");
    }
    text.extend_from_slice(b" rests, by what was observed, on\n")?;
    push_looks(text, told, looks)?;
    if looks.is_empty() {
        text.extend_from_slice(b"  nothing\n")?;
    }
    Ok(())
}

/// What a command does with a path.
pub(crate) fn deed_words(kind: Kind) -> &'static [u8] {
    match kind {
        Kind::Reads => b" reads it",
        Kind::Misses => b" asked for it, and it was not there",
        Kind::Stats => b" asked whether it is there",
        Kind::Lists => b" lists it",
        Kind::Writes => b" writes it",
        Kind::Edits => b" changes it in place",
        Kind::Deletes => b" takes it away",
        Kind::Temps => b" makes it and takes it away again",
        Kind::Folders => b" makes this folder",
    }
}

// Adds what a command does, and its last run.
fn push_deed(text: &mut Vec<u8>, history: &History, deed: &Deed) -> Result<(), AllocError> {
    push_edge(text, history.graph(), deed.edge)?;
    text.extend_from_slice(deed_words(deed.kind))?;
    if let Some(run) = deed.run {
        text.extend_from_slice(b": ")?;
        push_span(text, history, run)?;
    }
    text.push(b'\n')?;
    Ok(())
}

// Adds in these words that nothing is known of a path, and which one may have been meant.
fn push_none(
    text: &mut Vec<u8>,
    alloc: Global,
    told: Context<'_>,
    path: &Name,
    words: &[u8],
) -> Result<(), AllocError> {
    text.extend_from_slice(words)?;
    push_shown(text, path.as_bytes())?;
    push_near_paths(text, alloc, told, path)?;
    text.extend_from_slice(b"\n")
}

// Adds what commands do with a path, a line each; or that none does so, in these words.
fn push_deeds(
    text: &mut Vec<u8>,
    alloc: Global,
    told: Context<'_>,
    path: &Name,
    deeds: &[Deed],
    none: &[u8],
) -> Result<(), AllocError> {
    for deed in deeds {
        push_deed(text, history_of(told), deed)?;
    }
    if deeds.is_empty() {
        push_none(text, alloc, told, path, none)?;
    }
    text.extend_from_slice(OBSERVED)
}

// Adds an edge that names a path as what it reads.
fn push_naming(
    text: &mut Vec<u8>,
    alloc: Global,
    told: Context<'_>,
    path: &Name,
    naming: &Naming,
) -> Result<(), AllocError> {
    push_edge(text, history_of(told).graph(), naming.edge)?;
    match naming.site {
        Site::Line => {
            text.extend_from_slice(b" has it as an input")?;
            push_by(text, file_of(alloc, told, naming.edge, Side::Input, path)?)?;
        }
        Site::Listed => text.extend_from_slice(b" lists it")?,
    }
    text.extend_from_slice(b"\n")
}

// Adds the edges that name a path as what they read, a line each.
fn push_namings(
    text: &mut Vec<u8>,
    alloc: Global,
    told: Context<'_>,
    path: &Name,
    namings: &[Naming],
) -> Result<(), AllocError> {
    for naming in namings {
        push_naming(text, alloc, told, path, naming)?;
    }
    if namings.is_empty() {
        push_none(text, alloc, told, path, UNNAMED)?;
    }
    text.extend_from_slice(LISTED)
}

// Adds the edge that has a path as an output.
fn push_declared(
    text: &mut Vec<u8>,
    alloc: Global,
    told: Context<'_>,
    path: &Name,
    edge: Option<u32>,
) -> Result<(), AllocError> {
    match edge {
        Some(edge) => {
            push_edge(text, history_of(told).graph(), edge)?;
            text.extend_from_slice(b" has it as an output")?;
            push_by(text, file_of(alloc, told, edge, Side::Output, path)?)?;
            text.extend_from_slice(b"\n")?;
        }
        None => push_none(text, alloc, told, path, b"no build line has as an output ")?,
    }
    text.extend_from_slice(DECLARED)
}

// How a command looked at a path that was left.
fn looked_words(look: Kind) -> &'static [u8] {
    match look {
        Kind::Reads => b" read ",
        Kind::Misses => b" asked in vain for ",
        Kind::Stats
        | Kind::Lists
        | Kind::Writes
        | Kind::Edits
        | Kind::Deletes
        | Kind::Temps
        | Kind::Folders => b" asked for ",
    }
}

// Adds who looks at what an event left, as `undo 11: main.o (12) read version.h of it, which its line does not name`.
fn push_user(
    text: &mut Vec<u8>,
    told: Context<'_>,
    number: u32,
    user: &User,
) -> Result<(), AllocError> {
    let history = history_of(told);
    text.extend_from_slice(b"undo ")?;
    push_number(text, u64::from(number))?;
    text.extend_from_slice(b": ")?;
    if let Some(event) = history.event(user.number)
        && let Some(edge) = edge_of_event(history.graph(), event)
    {
        push_edge(text, history.graph(), edge)?;
    }
    text.extend_from_slice(b" (")?;
    push_number(text, u64::from(user.number))?;
    text.push(b')')?;
    text.extend_from_slice(looked_words(user.look))?;
    if let Some(path) = path_of(told, user.path) {
        push_shown(text, path.as_bytes())?;
    }
    text.extend_from_slice(b" of it, which its line does not name\n")
}

/// Adds who was seen to look at what an event left, the first ones a line each, and how many more there are.
pub(crate) fn push_users(
    text: &mut Vec<u8>,
    told: Context<'_>,
    number: u32,
    users: &[User],
) -> Result<(), AllocError> {
    for user in users.iter().take(MOST_USERS) {
        push_user(text, told, number, user)?;
    }
    if users.len() > MOST_USERS {
        let more = users.len().saturating_sub(MOST_USERS);
        text.extend_from_slice(b"undo ")?;
        push_number(text, u64::from(number))?;
        text.extend_from_slice(b": ")?;
        push_number(text, more as u64)?;
        text.extend_from_slice(if more == 1 {
            b" more look at what it left, not named by its line\n"
        } else {
            b" more looks at what it left, not named by their lines\n"
        })?;
    }
    Ok(())
}

/// Adds which commands read a path.
pub(crate) fn push_readers(
    text: &mut Vec<u8>,
    alloc: Global,
    told: Context<'_>,
    path: &Name,
    readers: &Readers,
) -> Result<(), AllocError> {
    match readers {
        Readers::Observed(deeds) => {
            push_deeds(
                text,
                alloc,
                told,
                path,
                deeds,
                b"no observed command reads ",
            )
        }
        Readers::Named(namings) => push_namings(text, alloc, told, path, namings),
    }
}

/// Adds which commands write a path.
pub(crate) fn push_writers(
    text: &mut Vec<u8>,
    alloc: Global,
    told: Context<'_>,
    path: &Name,
    writers: &Writers,
) -> Result<(), AllocError> {
    match writers {
        Writers::Observed(deeds) => {
            push_deeds(
                text,
                alloc,
                told,
                path,
                deeds,
                b"no observed command writes ",
            )
        }
        Writers::Declared(edge) => push_declared(text, alloc, told, path, *edge),
    }
}
