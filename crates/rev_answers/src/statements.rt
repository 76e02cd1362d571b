//! Where the build statement of an edge stands, which rule it names, and what its command listed.
use crate::edges::push_edge;
use crate::target::push_source;
use crate::told::{Context, history_of};
use rev_dirty::listed_inputs;
use rev_manifest::Build;
use rev_paths::Name;
use rev_queries::rule_in;
use std::alloc::AllocError;

/// The build of an edge.
pub(crate) fn build_of<'a>(told: Context<'a>, edge: u32) -> Option<&'a Build> {
    told.session.builds.get(edge as usize)
}

/// Whether an edge is phony.
pub(crate) fn is_phony(told: Context<'_>, edge: u32) -> bool {
    match build_of(told, edge) {
        Some(build) => build.phony(),
        None => false,
    }
}

/// The list of what an edge's command read, as the deps log has it.
pub(crate) fn listed<'a>(told: Context<'a>, edge: u32) -> &'a [Name] {
    let history = history_of(told);
    if edge < history.graph().edges() {
        listed_inputs(history.graph(), history.cells(), edge)
    } else {
        &[]
    }
}

/// The name of the file of a build statement.
pub(crate) fn file_name<'a>(told: Context<'a>, build: &Build) -> Option<&'a [u8]> {
    match told.session.files.get(build.file() as usize) {
        Some((name, _)) => Some(name.as_slice()),
        None => None,
    }
}

/// Adds an edge and where it comes from, as `main.o (build.ninja:19)`, or `main.o (core, lib/CMakeLists.txt:1)`
/// ([`push_source`]).
pub(crate) fn push_placed(
    text: &mut Vec<u8>,
    told: Context<'_>,
    edge: u32,
) -> Result<(), AllocError> {
    push_edge(text, history_of(told).graph(), edge)?;
    let Some(build) = build_of(told, edge) else {
        return Ok(());
    };
    text.extend_from_slice(b" (")?;
    push_source(text, told, edge, build)?;
    text.push(b')')?;
    Ok(())
}

/// The bytes from a line of a file on, which counts from 1.
pub(crate) fn from_line(bytes: &[u8], line: u64) -> &[u8] {
    let mut left = line;
    for (place, byte) in bytes.iter().enumerate() {
        if left <= 1 {
            return bytes.get(place..).unwrap_or(&[]);
        }
        if *byte == b'\n' {
            left -= 1;
        }
    }
    &[]
}

/// The name of the rule of an edge, as its build statement has it.
pub(crate) fn rule_of<'a>(told: Context<'a>, build: &Build) -> Option<&'a [u8]> {
    let (_, bytes) = told.session.files.get(build.file() as usize)?;
    Some(rule_in(from_line(bytes, build.line())))
}
