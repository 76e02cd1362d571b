//! What stands in the way and what is assumed, as members of JSON objects.
use crate::kinds::{assumption_kind, obstacle_kind};
use crate::named::Named;
use rev_certificate::{Assumption, Obstacle};
use rev_entry_conflicts::{Conflict, ensurers};
use rev_races_text::{Edge, Shown};
use rev_trusted::word_of;
use serde::Serialize;
use std::alloc::{AllocError, Global};

/// What stands in the way. A member is null where it is not about such a thing.
#[derive(Clone, Copy, Serialize)]
pub struct WayObject<'a> {
    /// The word for its kind.
    pub why: &'static str,
    /// The command that it is about, or the one that looks.
    pub user: Option<Edge<'a>>,
    /// The command that leaves what the user looks at. It is null where Ninja does.
    pub maker: Option<Edge<'a>>,
    /// The entry.
    pub path: Option<Shown<'a>>,
    /// At how many more entries the two commands conflict.
    pub more: u64,
    /// The word of the flag.
    pub flag: Option<&'static str>,
    /// The system call that the flag names.
    pub call: Option<Shown<'a>>,
    /// The program that the flag names.
    pub program: Option<Shown<'a>>,
    /// The path, address or number that the flag names.
    pub text: Option<Shown<'a>>,
}

/// What is assumed. A member is null where it is not about such a thing.
#[derive(Clone, Copy, Serialize)]
pub struct AssumedObject<'a> {
    /// The word for its kind.
    pub what: &'static str,
    /// The command that it is about.
    pub user: Option<Edge<'a>>,
    /// The entry, or the device.
    pub path: Option<Shown<'a>>,
    /// How many commands it is about, where it is not about one.
    pub commands: Option<u64>,
}

impl WayObject<'_> {
    /// What is about nothing but its kind.
    pub fn of(why: &'static str) -> WayObject<'static> {
        WayObject {
            why,
            user: None,
            maker: None,
            path: None,
            more: 0,
            flag: None,
            call: None,
            program: None,
            text: None,
        }
    }
}

// A command by its number; none for Ninja.
fn edge_of<'a>(named: &Named<'a>, command: u32) -> Option<Edge<'a>> {
    match named.edge_of(command) {
        Some(edge) => Some(named.sources.edge(edge)),
        None => None,
    }
}

// A conflict.
fn conflict_object<'a>(named: &Named<'a>, why: &'static str, conflict: &Conflict) -> WayObject<'a> {
    WayObject {
        user: edge_of(named, conflict.used_by),
        maker: edge_of(named, conflict.made_by),
        path: Some(named.path(conflict.entry)),
        more: u64::from(conflict.others),
        ..WayObject::of(why)
    }
}

// A flag of a command.
fn flag_object<'a>(named: &Named<'a>, why: &'static str, command: u32, flag: u32) -> WayObject<'a> {
    let user = edge_of(named, command);
    match named.flag(command, flag) {
        Some(flag) => WayObject {
            user,
            flag: Some(word_of(flag.kind)),
            call: Some(Shown(flag.call.as_bytes())),
            program: Some(Shown(flag.program.as_bytes())),
            text: Some(Shown(flag.text.as_bytes())),
            ..WayObject::of(why)
        },
        None => WayObject {
            user,
            ..WayObject::of(why)
        },
    }
}

/// What stands in the way.
pub fn obstacle_object<'a>(named: &Named<'a>, obstacle: &Obstacle) -> WayObject<'a> {
    let why = obstacle_kind(named, obstacle);
    match obstacle {
        Obstacle::Incomplete => WayObject::of(why),
        Obstacle::NotEnded { edge } | Obstacle::Early { edge } | Obstacle::Unseen { edge } => {
            WayObject {
                user: Some(named.sources.edge(*edge)),
                ..WayObject::of(why)
            }
        }
        Obstacle::Flagged { command, flag } => flag_object(named, why, *command, *flag),
        Obstacle::Conflict(conflict) => conflict_object(named, why, conflict),
    }
}

// How many commands make a folder.
fn maker_count(alloc: Global, named: &Named<'_>, entry: u32) -> Result<u64, AllocError> {
    let commands = named.scene.commands.as_slice();
    if commands.len() > u32::MAX as usize {
        return Err(AllocError);
    }
    let makers = ensurers(alloc, commands, entry)?;
    Ok(makers.len() as u64)
}

// What is assumed of a command and an entry.
fn of_user<'a>(
    named: &Named<'a>,
    what: &'static str,
    user: Option<u32>,
    entry: u32,
) -> AssumedObject<'a> {
    let user = match user {
        Some(user) => edge_of(named, user),
        None => None,
    };
    AssumedObject {
        what,
        user,
        path: Some(named.path(entry)),
        commands: None,
    }
}

// What is assumed of what the observation hides.
fn of_hidden<'a>(named: &Named<'a>, what: &'static str, number: u32) -> AssumedObject<'a> {
    let (path, commands) = match named.observation.hidden().get(number as usize) {
        Some(hidden) => (Some(Shown(hidden.path.as_bytes())), Some(hidden.commands)),
        None => (None, None),
    };
    AssumedObject {
        what,
        user: None,
        path,
        commands,
    }
}

// What is assumed of entries that were names of one file.
fn of_names<'a>(named: &Named<'a>, what: &'static str, number: u32) -> AssumedObject<'a> {
    let path = match named.observation.same().get(number as usize) {
        Some(same) => match same.ranges().first() {
            Some(range) => Some(named.path(range.first)),
            None => None,
        },
        None => None,
    };
    AssumedObject {
        what,
        user: None,
        path,
        commands: None,
    }
}

/// What is assumed.
///
/// # Errors
/// [`AllocError`] where an allocation was refused, or where there are more commands than a number of 32 bits counts.
pub fn assumption_object<'a>(
    alloc: Global,
    named: &Named<'a>,
    assumption: &Assumption,
) -> Result<AssumedObject<'a>, AllocError> {
    let what = assumption_kind(assumption);
    Ok(match assumption {
        Assumption::Targets | Assumption::SeesTheSame => AssumedObject {
            what,
            user: None,
            path: None,
            commands: None,
        },
        Assumption::Ensured { entry } => AssumedObject {
            commands: Some(maker_count(alloc, named, *entry)?),
            ..of_user(named, what, None, *entry)
        },
        Assumption::Stamps { entry, user } => of_user(named, what, Some(*user), *entry),
        Assumption::Order { folder, user } | Assumption::Cached { folder, user } => {
            of_user(named, what, Some(*user), *folder)
        }
        Assumption::HiddenEntry { entry } => of_user(named, what, None, *entry),
        Assumption::HiddenPlace { number } => of_hidden(named, what, *number),
        Assumption::Names { number } => of_names(named, what, *number),
    })
}
