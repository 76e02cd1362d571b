//! The target of a command, where the recording names it.
use crate::object::Object;
use crate::statements::file_name;
use crate::told::Context;
use crate::values::text_value;
use rev_fields::push_number;
use rev_manifest::Build;
use rev_shown::push_shown;
use rev_targets::{Basis, Place, Target};
use serde_json::Value;
use std::alloc::{AllocError, Global};

// The target of an edge.
fn target_of<'a>(told: Context<'a>, edge: u32) -> Option<&'a Target> {
    told.targets?.target(edge)
}

// The file and the line at which the target of an edge is declared.
fn declared_at<'a>(told: Context<'a>, target: &Target) -> Option<(&'a [u8], Place)> {
    let place = target.place?;
    let file = told.targets?.file(place)?;
    Some((file, place))
}

// Adds a line of a file, as `lib/CMakeLists.txt:1`.
fn push_line(text: &mut Vec<u8>, file: Option<&[u8]>, line: u64) -> Result<(), AllocError> {
    if let Some(file) = file {
        push_shown(text, file)?;
    }
    text.push(b':')?;
    push_number(text, line)
}

/// Adds where an edge comes from: its target and the line that declares it, as `core, lib/CMakeLists.txt:1`. Where the
/// recording has no such line, that of the build statement stands there, as `build.ninja:19`.
///
/// # Errors
/// [`AllocError`] only where an allocation was refused.
pub(crate) fn push_source(
    text: &mut Vec<u8>,
    told: Context<'_>,
    edge: u32,
    build: &Build,
) -> Result<(), AllocError> {
    let statement = file_name(told, build);
    let Some(target) = target_of(told, edge) else {
        return push_line(text, statement, build.line());
    };
    push_shown(text, &target.name)?;
    text.extend_from_slice(b", ")?;
    match declared_at(told, target) {
        Some((file, place)) => push_line(text, Some(file), u64::from(place.line)),
        None => push_line(text, statement, build.line()),
    }
}

// The word of a basis.
fn basis_word(basis: Basis) -> &'static str {
    match basis {
        Basis::Exact => "exact",
        Basis::Guess => "guess",
    }
}

// Bytes as people read them.
fn shown_text(alloc: Global, bytes: &[u8]) -> Result<Value, AllocError> {
    let mut text = Vec::new(alloc);
    push_shown(&mut text, bytes)?;
    text_value(alloc, &text)
}

// The line at which a target is declared.
fn place_value(alloc: Global, file: &[u8], place: Place) -> Result<Value, AllocError> {
    let mut object = Object::new(alloc);
    object.put_text(alloc, "basis", basis_word(place.basis))?;
    object.put(alloc, "file", shown_text(alloc, file)?)?;
    object.put_number(alloc, "line", u64::from(place.line))?;
    Ok(object.value())
}

/// Adds the target of an edge; nothing where the recording names none.
///
/// # Errors
/// [`AllocError`] only where an allocation was refused.
pub(crate) fn put_target(
    object: &mut Object,
    alloc: Global,
    told: Context<'_>,
    edge: u32,
) -> Result<(), AllocError> {
    let Some(target) = target_of(told, edge) else {
        return Ok(());
    };
    let place = match declared_at(told, target) {
        Some((file, place)) => place_value(alloc, file, place)?,
        None => Value::Null,
    };
    let mut member = Object::new(alloc);
    member.put_text(alloc, "basis", basis_word(target.basis))?;
    member.put(alloc, "declared", place)?;
    member.put(alloc, "kind", shown_text(alloc, &target.kind)?)?;
    member.put(alloc, "name", shown_text(alloc, &target.name)?)?;
    object.put(alloc, "target", member.value())
}
