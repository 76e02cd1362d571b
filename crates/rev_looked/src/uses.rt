//! Who looks at a path, and who leaves it, by what was observed.
ghost use Rattle.std.specs.Prelude.{◌≡◌, ◌++◌, IfOk, OnOk};
ghost use Rattle.std.specs.Option.{option_map, option_to_list};
ghost use Rattle.rev_looked.specs.Uses.{deed_of as deed_by, readers_of, use_of as use_by, uses_by as uses_by_of, writers_of};

use crate::commands::{change_of, look_of};
use rev_observed::{Command, Kind, Observation};
use rev_paths::Name;
use std::alloc::{AllocError, Global};

/// What a command does with a path.
#[derive(Clone, Copy, Debug, PartialEq, Eq)]
pub struct Use {
    /// The command's edge.
    pub edge: u32,
    /// What it does.
    pub kind: Kind,
}

// What is asked of commands.
#[derive(Clone, Copy)]
pub(crate) enum Deed {
    // How they look at a path.
    Looks,
    // What they do to it.
    Changes,
}

// What a command does with a path, of what is asked.
fn deed_of(deed: Deed, command: &Command, path: u64) -> Option<Kind>
    ensures { result ≡ deed_by deed command.now path }
{
    match deed {
        Deed::Looks => look_of(command, path),
        Deed::Changes => change_of(command, path),
    }
}

// Adds what a command of an edge does, where it does something.
fn add(uses: &mut Vec<Use>, edge: u32, kind: Option<Kind>) -> Result<(), AllocError>
    ensures { OnOk result (uses.new.items ≡ uses.old.items ++ option_to_list (option_map (use_by edge) kind)) }
{
    if let Some(kind) = kind {
        uses.push(Use { edge, kind })?;
    }
    Ok(())
}

// What each command does with a path, of what is asked.
fn uses_by(
    alloc: Global,
    deed: Deed,
    edges: &[u32],
    commands: &[Command],
    path: u64,
) -> Result<Vec<Use>, AllocError>
    ensures { IfOk result (λ uses. uses.items ≡ uses_by_of deed edges.now commands.now path) }
{
    let mut uses = Vec::new(alloc);
    for place in 0..edges.len().min(commands.len()) {
        let kind = deed_of(deed, &commands[place], path);
        add(&mut uses, edges[place], kind)?;
    }
    Ok(uses)
}

/// Each command of an observation that looks at a path, by its edge, and how it does: [`Kind::Reads`], [`Kind::Misses`] or
/// [`Kind::Stats`]. In the order of the commands.
///
/// `edges` has for each command of the observation its edge, as [`rev_observed::edges`] gives them. The ranges of each
/// command are looked at once.
///
/// # Errors
/// [`AllocError`] only where an allocation was refused.
pub fn readers(
    alloc: Global,
    observation: &Observation,
    edges: &[u32],
    path: &Name,
) -> Result<Vec<Use>, AllocError>
    ensures { IfOk result (λ uses. uses.items
        ≡ readers_of observation.now.paths edges.now observation.now.commands path.now) }
{
    match observation.paths().find(path) {
        Some(path) => uses_by(alloc, Deed::Looks, edges, observation.commands(), path),
        None => Ok(Vec::new(alloc)),
    }
}

/// Each command of an observation that changes a path, by its edge, and what it does: [`Kind::Edits`], [`Kind::Writes`],
/// [`Kind::Deletes`] or [`Kind::Temps`]. In the order of the commands.
///
/// `edges` has for each command of the observation its edge, as [`rev_observed::edges`] gives them. The ranges of each
/// command are looked at once.
///
/// # Errors
/// [`AllocError`] only where an allocation was refused.
pub fn writers(
    alloc: Global,
    observation: &Observation,
    edges: &[u32],
    path: &Name,
) -> Result<Vec<Use>, AllocError>
    ensures { IfOk result (λ uses. uses.items
        ≡ writers_of observation.now.paths edges.now observation.now.commands path.now) }
{
    match observation.paths().find(path) {
        Some(path) => uses_by(alloc, Deed::Changes, edges, observation.commands(), path),
        None => Ok(Vec::new(alloc)),
    }
}
