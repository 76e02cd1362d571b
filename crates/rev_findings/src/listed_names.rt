//! By which other name the list of a user has the file of a finding.
ghost use Rattle.std.specs.Prelude.{◌<◌, length};

use indexmap::IndexMap;
use rev_conflicts_text::{Finding, Kind, build_folder};
use rev_history::History;
use rev_paths::Name;
use rev_races::listed;
use std::alloc::{AllocError, Global};

/// A user and a name as one key.
pub(crate) fn key_of(alloc: Global, user: u32, name: &[u8]) -> Result<Vec<u8>, AllocError> {
    let mut key = Vec::from_slice(alloc, name)?;
    key.extend_from_slice(&user.to_le_bytes())?;
    Ok(key)
}

// Whether a finding is about what its user looks at, and what its maker is to leave before.
fn is_of_order(finding: &Finding<'_>) -> bool {
    matches!(finding.kind, Kind::Race | Kind::Cycle)
}

// Of so many edges those that are users of findings.
fn users_of(alloc: Global, edges: u32, findings: &[Finding<'_>]) -> Result<Vec<bool>, AllocError> {
    let mut users = vec![in alloc; false; edges as usize]?;
    for finding in findings {
        if is_of_order(finding) {
            if let Some(mark) = users.get_mut(finding.user as usize) {
                *mark = true;
            }
        }
    }
    Ok(users)
}

// Adds the paths that an edge lists in a folder.
fn add_names<'a>(
    alloc: Global,
    history: &'a History,
    folder: &[u8],
    user: u32,
    names: &mut IndexMap<Vec<u8>, &'a Name>,
) -> Result<(), AllocError>
    requires { user < length history.now.timeline.manifest.builds }
{
    let Some(paths) = listed(history, user) else {
        return Ok(());
    };
    for path in paths {
        if let Some(name) = path.as_bytes().strip_prefix(folder) {
            names.insert(key_of(alloc, user, name)?, path)?;
        }
    }
    Ok(())
}

/// The paths that the users of findings list in a folder, each by the user and its name there.
pub(crate) fn names_in<'a>(
    alloc: Global,
    history: &'a History,
    folder: &[u8],
    findings: &[Finding<'_>],
) -> Result<IndexMap<Vec<u8>, &'a Name>, AllocError> {
    let users = users_of(alloc, history.graph().edges(), findings)?;
    let mut names = IndexMap::new(alloc);
    for user in 0..history.graph().edges() {
        if users.get(user as usize).copied().unwrap_or(false) {
            add_names(alloc, history, folder, user, &mut names)?;
        }
    }
    Ok(names)
}

/// Notes in findings by which other name the list of the user has the file: its path in the folder of the build, where
/// the outputs of the manifest tell that folder. It takes time linear in the lists of these users.
///
/// # Errors
/// [`AllocError`] only where an allocation was refused.
pub fn note_listed<'a>(
    alloc: Global,
    history: &'a History,
    findings: &mut Vec<Finding<'a>>,
) -> Result<(), AllocError> {
    let folder = build_folder(history.graph());
    if folder.is_empty() {
        return Ok(());
    }
    let names = names_in(alloc, history, folder, findings)?;
    for finding in findings.iter_mut() {
        if is_of_order(finding) {
            let key = key_of(alloc, finding.user, finding.path.as_bytes())?;
            finding.listed = names.get(key.as_slice()).copied();
        }
    }
    Ok(())
}
