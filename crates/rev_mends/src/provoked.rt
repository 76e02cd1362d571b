//! A patch that has a race happen in each build: the maker of the path comes behind its user.
use crate::own::{Own, with_own};
use crate::statements::{patch_name, push_patches};
use rev_graph::Graph;
use rev_manifest::Manifest;
use rev_patch::Change;
use rev_patched::{Provoked, provoke};
use rev_races_text::Sources;
use rev_waits::{steps, waited_for};
use std::alloc::{AllocError, Global};

/// Why no patch has a race happen.
#[derive(Clone, Copy)]
pub enum Unprovoked {
    /// No race of two commands has the number.
    NoRace,
    /// The maker waits for the user.
    Cycle,
    /// The user waits for the maker.
    Ordered,
    /// No output of the user can be written on a build line.
    Unwritable,
    /// The maker's statement makes other commands too, or the line says something else there.
    Unsound,
    /// The maker's statement stands in a file that `patch` does not find.
    Elsewhere,
}

impl Unprovoked {
    /// The sentence that says so.
    pub fn sentence(self) -> &'static str {
        match self {
            Unprovoked::NoRace => {
                "no race has that number; `races` tells the number of each, an own output has no other command, and \
                where a race was mended its user waits"
            }
            Unprovoked::Cycle => {
                "that is a cycle: its maker waits for its user, so the user comes first in every build already"
            }
            Unprovoked::Ordered => { "the user waits for the maker, so no build has it come first" }
            Unprovoked::Unwritable => {
                "no output of the user can be written on a build line (each has a `|` or a line's end), so no order \
                can name it"
            }
            Unprovoked::Unsound => {
                "the maker's build statement makes other commands too, so that no line there puts this one alone \
                behind the user"
            }
            Unprovoked::Elsewhere => {
                "the maker's build statement stands in a file that the recorder copied from outside of the build \
                folder, where patch does not find it"
            }
        }
    }
}

// Whether a maker waits for a user.
fn is_cycle(alloc: Global, graph: &Graph, user: u32, maker: u32) -> Result<bool, AllocError> {
    if maker >= graph.edges() {
        return Ok(false);
    }
    let steps = steps(alloc, graph)?;
    let waited = waited_for(alloc, graph, &steps, maker)?;
    Ok(waited.get(user as usize).copied().unwrap_or(false))
}

// Whether `patch` finds the file of an edge's statement.
fn is_found(alloc: Global, sources: &Sources<'_>, edge: u32) -> Result<bool, AllocError> {
    let Some(build) = sources.builds.get(edge as usize) else {
        return Ok(false);
    };
    match sources.files.get(build.file() as usize) {
        Some((name, _)) => Ok(patch_name(alloc, name)?.is_some()),
        None => Ok(false),
    }
}

// The changed lines of files with which a maker comes behind a user, or why there are none.
fn changes_in(
    alloc: Global,
    files: &[(Vec<u8>, Vec<u8>)],
    manifest: &Manifest,
    user: u32,
    maker: u32,
) -> Result<Result<Vec<Vec<Change>>, Unprovoked>, AllocError> {
    match provoke(alloc, files, manifest, user, maker)? {
        Provoked::Patch(changes) => Ok(Ok(changes)),
        Provoked::Ordered => Ok(Err(Unprovoked::Ordered)),
        Provoked::Unwritable => Ok(Err(Unprovoked::Unwritable)),
        Provoked::Unsound => Ok(Err(Unprovoked::Unsound)),
    }
}

// The same of the user's own files, where the recorded ones have such lines.
fn own_changes(
    alloc: Global,
    manifest: &Manifest,
    sources: &Sources<'_>,
    own: Option<Own<'_>>,
    user: u32,
    maker: u32,
) -> Result<Result<Vec<Vec<Change>>, Unprovoked>, AllocError> {
    let recorded = changes_in(alloc, sources.files, manifest, user, maker)?;
    let Some(own) = own else {
        return Ok(recorded);
    };
    if recorded.is_err() {
        return Ok(recorded);
    }
    changes_in(alloc, own.plain, own.manifest, user, maker)
}

/// The patch of the manifest's files with which the maker of a race comes behind its user in each build, or why there
/// is none. `race` has the user and the maker of the race that was asked for, if there is one of two commands. Where
/// dyndep files say something of the manifest, the patch is one of the user's own files (`own`).
///
/// # Errors
/// [`AllocError`] only where an allocation was refused.
pub fn provoke_text(
    alloc: Global,
    manifest: &Manifest,
    graph: &Graph,
    sources: &Sources<'_>,
    own: Option<Own<'_>>,
    race: Option<(u32, u32)>,
) -> Result<Result<Vec<u8>, Unprovoked>, AllocError> {
    let Some((user, maker)) = race else {
        return Ok(Err(Unprovoked::NoRace));
    };
    if is_cycle(alloc, graph, user, maker)? {
        return Ok(Err(Unprovoked::Cycle));
    }
    if !is_found(alloc, sources, maker)? {
        return Ok(Err(Unprovoked::Elsewhere));
    }
    match own_changes(alloc, manifest, sources, own, user, maker)? {
        Ok(changes) => {
            let mut text = Vec::new(alloc);
            push_patches(alloc, &mut text, with_own(sources.files, own), &changes)?;
            Ok(Ok(text))
        }
        Err(why) => Ok(Err(why)),
    }
}
