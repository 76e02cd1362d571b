//! The dyndep files by which edges have paths that their own lines do not have.
use crate::object::Object;
use crate::told::Context;
use crate::values::put_name;
use rev_dyndep::Added;
use rev_paths::Name;
use rev_places::names_of_file;
use rev_shown::push_shown;
use std::alloc::{AllocError, Global};

/// Where an edge has a path.
#[derive(Clone, Copy, PartialEq, Eq)]
pub(crate) enum Side {
    /// Among its inputs.
    Input,
    /// Among its outputs.
    Output,
}

/// What a dyndep file adds to an edge, where one does.
pub(crate) fn added_to<'a>(told: Context<'a>, edge: u32) -> Option<&'a Added> {
    told.origins.of(edge)
}

// Whether a path is one that a dyndep file adds.
fn adds(added: &Added, side: Side, path: &Name) -> bool {
    match side {
        Side::Input => added.has_input(path),
        Side::Output => added.has_output(path),
    }
}

/// The dyndep file that adds a path to an edge, where one does.
pub(crate) fn file_by<'a>(
    told: Context<'a>,
    edge: u32,
    side: Side,
    path: &Name,
) -> Option<&'a Name> {
    match side {
        Side::Input => told.origins.input_file(edge, path),
        Side::Output => told.origins.output_file(edge, path),
    }
}

/// The dyndep file that adds a file to an edge by one of its names, where one does.
///
/// # Errors
/// [`AllocError`] only where an allocation was refused.
pub(crate) fn file_of<'a>(
    alloc: Global,
    told: Context<'a>,
    edge: u32,
    side: Side,
    path: &Name,
) -> Result<Option<&'a Name>, AllocError> {
    if added_to(told, edge).is_none() {
        return Ok(None);
    }
    for name in &names_of_file(alloc, told.session.names, path)? {
        if let Some(file) = file_by(told, edge, side, name) {
            return Ok(Some(file));
        }
    }
    Ok(None)
}

/// Those of some paths that a dyndep file adds to their edge, or (`is_added` is false) those that it does not add.
///
/// # Errors
/// [`AllocError`] only where an allocation was refused.
pub(crate) fn parted(
    alloc: Global,
    added: &Added,
    side: Side,
    names: &[Name],
    is_added: bool,
) -> Result<Vec<Name>, AllocError> {
    let mut left = Vec::new(alloc);
    for name in names {
        if adds(added, side, name) == is_added {
            left.push(name.copy()?)?;
        }
    }
    Ok(left)
}

/// Adds the dyndep file by which an edge has a path, as ` (by both.dd)`; nothing where there is none.
///
/// # Errors
/// [`AllocError`] only where an allocation was refused.
pub(crate) fn push_by(text: &mut Vec<u8>, file: Option<&Name>) -> Result<(), AllocError> {
    let Some(file) = file else {
        return Ok(());
    };
    text.extend_from_slice(b" (by ")?;
    push_shown(text, file.as_bytes())?;
    text.push(b')')?;
    Ok(())
}

/// Adds the dyndep file by which an edge has a path, in a member of this name; no member where there is none.
///
/// # Errors
/// [`AllocError`] only where an allocation was refused.
pub(crate) fn put_by(
    object: &mut Object,
    alloc: Global,
    name: &str,
    file: Option<&Name>,
) -> Result<(), AllocError> {
    if file.is_none() {
        return Ok(());
    }
    put_name(object, alloc, name, file)
}
