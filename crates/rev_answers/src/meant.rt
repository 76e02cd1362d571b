//! What was meant by a path that is not there: no edge makes it, or none names it.
use crate::request::{Request, request_of};
use crate::statements::listed;
use crate::told::{Context, history_of, path_of};
use rev_manifest::Build;
use rev_observed::Observation;
use rev_paths::Name;
use rev_prompt::Question;
use rev_shown::push_shown;
use std::alloc::{AllocError, Global};

// How many paths are told.
const MOST: usize = 3;

// The last part of a path.
fn last_part(path: &[u8]) -> &[u8] {
    match path.iter().rposition(|byte| *byte == b'/') {
        Some(slash) => path.get(slash.saturating_add(1)..).unwrap_or(path),
        None => path,
    }
}

// Whether a path is another one behind some folders.
fn stands_behind(path: &[u8], other: &[u8]) -> bool {
    match path.strip_suffix(other) {
        Some(before) => before.ends_with(b"/"),
        None => false,
    }
}

// Whether a last part of a path begins with another one, which is not empty.
fn begins(part: &[u8], other: &[u8]) -> bool {
    !other.is_empty() && part.starts_with(other)
}

// How near an output is to a path: 0 where one of them is the other behind a build folder, 1 where their last parts are
// the same, 2 where its last part begins with that of the path; else none.
fn nearness(output: &[u8], path: &[u8]) -> Option<u8> {
    if stands_behind(output, path) || stands_behind(path, output) {
        return Some(0);
    }
    let (one, other) = (last_part(output), last_part(path));
    if one == other {
        Some(1)
    } else if begins(one, other) {
        Some(2)
    } else {
        None
    }
}

// Adds those of some outputs that are so near to a path.
fn add_near<'a>(
    near: &mut Vec<&'a Name>,
    names: &'a [Name],
    path: &[u8],
    wanted: u8,
) -> Result<(), AllocError> {
    for name in names {
        if near.len() < MOST && nearness(name.as_bytes(), path) == Some(wanted) {
            near.push(name)?;
        }
    }
    Ok(())
}

// Adds the outputs of edges that are so near to a path.
fn add_outputs<'a>(
    near: &mut Vec<&'a Name>,
    builds: &'a [Build],
    path: &[u8],
    wanted: u8,
) -> Result<(), AllocError> {
    for build in builds {
        add_near(near, build.explicit_outs(), path, wanted)?;
        add_near(near, build.implicit_outs(), path, wanted)?;
    }
    Ok(())
}

/// The outputs that may have been meant by a path, up to three: those that are the path with a build folder before it,
/// or without one, then those with the same last part, and then those whose last part begins with it.
pub(crate) fn meant<'a>(
    alloc: Global,
    told: Context<'a>,
    path: &Name,
) -> Result<Vec<&'a Name>, AllocError> {
    let mut near = Vec::new(alloc);
    add_outputs(&mut near, told.session.builds, path.as_bytes(), 0)?;
    add_outputs(&mut near, told.session.builds, path.as_bytes(), 1)?;
    add_outputs(&mut near, told.session.builds, path.as_bytes(), 2)?;
    Ok(near)
}

// What is told of a pattern where a question takes none.
fn takes_no_pattern(question: &Question) -> &'static [u8] {
    match request_of(question) {
        Request::Change => b": a change of the history is of one event, and takes no pattern",
        Request::Output => b": this is of one output, and takes no pattern",
        Request::Order => b": an order names one event after the other, and takes no pattern",
        Request::Help(_) | Request::Command(_) | Request::Rebuilds(_) | Request::Rest => b"",
    }
}

/// Whether a path that is no output is a pattern, where a question takes none.
pub(crate) fn is_pattern(told: Context<'_>, path: &Name) -> bool {
    path.as_bytes().contains(&b'*') && !takes_no_pattern(told.question).is_empty()
}

// Adds that a question takes no pattern, and what names the outputs that match.
fn push_pattern(text: &mut Vec<u8>, told: Context<'_>, path: &Name) -> Result<(), AllocError> {
    text.extend_from_slice(takes_no_pattern(told.question))?;
    text.extend_from_slice(b"; `who ")?;
    push_shown(text, path.as_bytes())?;
    text.extend_from_slice(b"` lists the events of all that match")
}

/// Adds that no build statement has a path as an output, and what may have been meant. Of a pattern it adds that the
/// question takes none.
pub(crate) fn push_no_output(
    text: &mut Vec<u8>,
    alloc: Global,
    told: Context<'_>,
    path: &Name,
) -> Result<(), AllocError> {
    push_shown(text, path.as_bytes())?;
    if history_of(told).graph().known(path) {
        text.extend_from_slice(b" is made by no build statement, which it stands in as an input")?;
    } else {
        text.extend_from_slice(b" is no output of a build statement")?;
    }
    if is_pattern(told, path) {
        return push_pattern(text, told, path);
    }
    push_meant(text, alloc, told, path)
}

// Whether a path is nearer to one that was typed than another one is, or as near and shorter. The path itself is the
// nearest.
fn is_nearer(path: &[u8], other: &[u8], typed: &[u8]) -> bool {
    if path == typed || other == typed {
        return path == typed;
    }
    let (one, two) = (nearness(path, typed), nearness(other, typed));
    if one == two {
        return path.len() < other.len();
    }
    one == Some(0)
}

// Takes a path with the last part of one that was typed in among the nearest ones.
fn take_in<'a>(near: &mut Vec<&'a Name>, name: &'a Name, typed: &[u8]) -> Result<(), AllocError> {
    let path = name.as_bytes();
    if near.iter().any(|other| other.as_bytes() == path) {
        return Ok(());
    }
    match near
        .iter()
        .position(|other| is_nearer(path, other.as_bytes(), typed))
    {
        Some(place) => near.insert(place, name)?,
        None => near.push(name)?,
    }
    near.truncate(MOST);
    Ok(())
}

// The paths that are near to one that was typed, whose last part is `last`. `has_same` says whether theirs are that
// one: else theirs begin with it.
#[derive(Drop)]
struct Near<'a, 'b> {
    paths: Vec<&'a Name>,
    has_same: bool,
    typed: &'b [u8],
    last: &'b [u8],
}

impl<'a, 'b> Near<'a, 'b> {
    // None so far.
    fn new(alloc: Global, typed: &'b [u8]) -> Near<'a, 'b> {
        Near {
            paths: Vec::new(alloc),
            has_same: false,
            typed,
            last: last_part(typed),
        }
    }

    // The paths, the nearest first.
    fn into_paths(self) -> Vec<&'a Name> {
        let Near {
            paths,
            has_same: _has_same,
            typed: _typed,
            last: _last,
        } = self;
        paths
    }
}

// Takes a path in where its last part is that of the one that was typed, or begins with it and no path has that one.
fn take_name<'a>(near: &mut Near<'a, '_>, name: &'a Name) -> Result<(), AllocError> {
    let part = last_part(name.as_bytes());
    if !part.starts_with(near.last) {
        return Ok(());
    }
    if part.len() == near.last.len() {
        if !near.has_same {
            near.paths.clear();
            near.has_same = true;
        }
        return take_in(&mut near.paths, name, near.typed);
    }
    if !near.has_same && !near.last.is_empty() {
        return take_in(&mut near.paths, name, near.typed);
    }
    Ok(())
}

// Takes in those of some paths that are near to the one that was typed.
fn take_all<'a>(near: &mut Near<'a, '_>, names: &'a [Name]) -> Result<(), AllocError> {
    for name in names {
        take_name(near, name)?;
    }
    Ok(())
}

// Takes in those of the paths of an edge's build line.
fn take_line<'a>(near: &mut Near<'a, '_>, build: &'a Build) -> Result<(), AllocError> {
    take_all(near, build.explicit())?;
    take_all(near, build.implicit())?;
    take_all(near, build.order_only())?;
    take_all(near, build.validations())?;
    take_all(near, build.explicit_outs())?;
    take_all(near, build.implicit_outs())
}

// Takes in those of the paths that edges have on their build lines, or list.
fn take_edges<'a>(
    near: &mut Near<'a, '_>,
    told: Context<'a>,
    builds: &'a [Build],
) -> Result<(), AllocError> {
    for (edge, build) in builds.iter().enumerate() {
        take_line(near, build)?;
        if let Ok(edge) = u32::try_from(edge) {
            take_all(near, listed(told, edge))?;
        }
    }
    Ok(())
}

// Takes in those of the paths that commands were seen to look at or to change.
fn take_observed<'a>(
    near: &mut Near<'a, '_>,
    told: Context<'a>,
    observation: &Observation,
) -> Result<(), AllocError> {
    for path in 0..observation.paths().len() {
        if let Some(name) = path_of(told, path) {
            take_name(near, name)?;
        }
    }
    Ok(())
}

// Takes in those of the paths of edges, and of those that commands were seen to look at or to change.
fn take_paths<'a>(near: &mut Near<'a, '_>, told: Context<'a>) -> Result<(), AllocError> {
    take_edges(near, told, told.session.builds)?;
    if let Some(observation) = told.session.observation {
        take_observed(near, told, observation)?;
    }
    Ok(())
}

/// The paths that may have been meant by one, up to three. They are among those that edges name, list or make, and
/// those that commands were seen to look at. They have the same last part. Where no path has it, theirs begins with it.
/// The path itself comes first, then those that are it behind some folders, or without some. Of paths that are as near
/// the shortest comes first. Each place of a path is looked at once.
///
/// # Errors
/// [`AllocError`] only where an allocation was refused.
pub(crate) fn near_paths<'a>(
    alloc: Global,
    told: Context<'a>,
    path: &Name,
) -> Result<Vec<&'a Name>, AllocError> {
    let mut near = Near::new(alloc, path.as_bytes());
    take_paths(&mut near, told)?;
    Ok(near.into_paths())
}

/// Whether a path itself is the first of those that are near to it.
pub(crate) fn is_among(near: &[&Name], path: &Name) -> bool {
    match near.first() {
        Some(first) => first.as_bytes() == path.as_bytes(),
        None => false,
    }
}

/// Adds paths that may have been meant.
pub(crate) fn push_near(text: &mut Vec<u8>, near: &[&Name]) -> Result<(), AllocError> {
    let mut before: &[u8] = b"; did you mean ";
    for name in near {
        text.extend_from_slice(before)?;
        push_shown(text, name.as_bytes())?;
        before = b", ";
    }
    if near.is_empty() {
        return Ok(());
    }
    text.extend_from_slice(b"?")
}

/// Adds the outputs that may have been meant by a path.
pub(crate) fn push_meant(
    text: &mut Vec<u8>,
    alloc: Global,
    told: Context<'_>,
    path: &Name,
) -> Result<(), AllocError> {
    push_near(text, &meant(alloc, told, path)?)
}

/// Adds the paths that may have been meant by one; nothing where an edge names, lists or makes that one, or a command
/// was seen to look at it.
pub(crate) fn push_near_paths(
    text: &mut Vec<u8>,
    alloc: Global,
    told: Context<'_>,
    path: &Name,
) -> Result<(), AllocError> {
    let near = near_paths(alloc, told, path)?;
    if is_among(&near, path) {
        return Ok(());
    }
    push_near(text, &near)
}

// The paths that are asked about by `rebuilds`.
fn touched<'a>(told: Context<'a>) -> &'a [Name] {
    match request_of(told.question) {
        Request::Rebuilds(paths) => paths,
        Request::Help(_)
        | Request::Command(_)
        | Request::Change
        | Request::Output
        | Request::Order
        | Request::Rest => &[],
    }
}

/// Those of the first three paths that are asked about by `rebuilds` which no edge names, lists or makes and no command
/// was seen to look at, each with what may have been meant.
///
/// # Errors
/// [`AllocError`] only where an allocation was refused.
pub(crate) fn unknown_paths<'a>(
    alloc: Global,
    told: Context<'a>,
) -> Result<Vec<(&'a Name, Vec<&'a Name>)>, AllocError> {
    let mut unknown = Vec::new(alloc);
    for path in touched(told).iter().take(MOST) {
        if !history_of(told).graph().known(path) {
            let near = near_paths(alloc, told, path)?;
            if !is_among(&near, path) {
                unknown.push((path, near))?;
            }
        }
    }
    Ok(unknown)
}

/// Adds the paths that [`unknown_paths`] gives, a line each.
pub(crate) fn push_unknown_paths(
    text: &mut Vec<u8>,
    alloc: Global,
    told: Context<'_>,
) -> Result<(), AllocError> {
    let unknown = unknown_paths(alloc, told)?;
    for (path, near) in &unknown {
        text.extend_from_slice(b"no edge names, lists or makes ")?;
        push_shown(text, path.as_bytes())?;
        push_near(text, near)?;
        text.push(b'\n')?;
    }
    Ok(())
}
