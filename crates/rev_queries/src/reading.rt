//! Which edges have a path as what they read.
ghost use Rattle.std.specs.Prelude.{◌≡◌, ◌<◌, ◌++◌, length, IfOk, OnOk};
ghost use Rattle.std.specs.Option.{option_to_list};
ghost use Rattle.rev_graph.specs.Graph.{build_at, has_path};
ghost use Rattle.rev_history.specs.Timeline.{state_at};
ghost use Rattle.rev_queries.specs.Readings.{has_any, is_listed as is_listed_in, place_in as place_by, reading_at as reading_by, reading_of as reading_with, readings_of};

use rev_dirty::listed_inputs;
use rev_graph::Graph;
use rev_history::History;
use rev_paths::Name;
use std::alloc::{AllocError, Global};

/// Where a file stands on the build line of an edge that has a name of it behind its rule.
#[derive(Clone, Copy, Debug, PartialEq, Eq)]
pub enum Place {
    /// Before `|` and `||`: as an explicit input.
    Explicit,
    /// Behind `|`: as an implicit input.
    Implicit,
    /// Behind `||`: as an order-only input, which never makes a command run.
    OrderOnly,
    /// Behind `|@`: as a validation.
    Validation,
}

/// An edge that has a file.
#[derive(Clone, Copy, Debug, PartialEq, Eq)]
pub struct Reading {
    /// The edge.
    pub edge: u32,
    /// Where its build line has the file, of several places the first; none where it has it nowhere.
    pub place: Option<Place>,
    /// Whether the list of what its command read has it.
    pub listed: bool,
}

// Whether a path is one of these.
fn is_among(paths: &[Name], path: &Name) -> bool
    ensures { result ≡ has_path paths.now path.now }
{
    paths.iter().any(|one| path == one)
}

// Whether one of some names of a file is one of these paths.
fn is_any_among(paths: &[Name], names: &[Name]) -> bool
    ensures { result ≡ has_any paths.now names.now }
{
    names.iter().any(|name| is_among(paths, name))
}

// Where the build line of an edge has a file.
fn place_in(graph: &Graph, edge: u32, names: &[Name]) -> Option<Place>
    requires { edge < length graph.now.manifest.builds }
    ensures { result ≡ place_by (build_at graph.now.manifest.builds edge) names.now }
{
    let inputs = graph.inputs(edge);
    if is_any_among(inputs.explicit, names) {
        Some(Place::Explicit)
    } else if is_any_among(inputs.implicit, names) {
        Some(Place::Implicit)
    } else if is_any_among(inputs.order_only, names) {
        Some(Place::OrderOnly)
    } else if is_any_among(graph.validations(edge), names) {
        Some(Place::Validation)
    } else {
        None
    }
}

// Whether the list of what an edge's command read has a file.
fn is_listed(history: &History, edge: u32, names: &[Name]) -> bool
    requires { edge < length history.now.timeline.manifest.builds }
    ensures { result ≡ is_listed_in (state_at history.now.timeline)
        (build_at history.now.timeline.manifest.builds edge) names.now }
{
    is_any_among(listed_inputs(history.graph(), history.cells(), edge), names)
}

// What an edge has to do with a file, where it has something to do with it.
fn reading_of(edge: u32, place: Option<Place>, listed: bool) -> Option<Reading>
    ensures { result ≡ reading_with edge place listed }
{
    if place.is_some() || listed {
        Some(Reading {
            edge,
            place,
            listed,
        })
    } else {
        None
    }
}

// The same of an edge by its number.
fn reading_at(history: &History, edge: u32, names: &[Name]) -> Option<Reading>
    requires { edge < length history.now.timeline.manifest.builds }
    ensures { result ≡ reading_by history.now.timeline.manifest.builds (state_at history.now.timeline) names.now edge }
{
    let place = place_in(history.graph(), edge, names);
    let listed = is_listed(history, edge, names);
    reading_of(edge, place, listed)
}

// Adds what an edge has to do with a file, if anything.
fn add(readings: &mut Vec<Reading>, reading: Option<Reading>) -> Result<(), AllocError>
    ensures { OnOk result (readings.new.items ≡ readings.old.items ++ option_to_list reading) }
{
    if let Some(reading) = reading {
        readings.push(reading)?;
    }
    Ok(())
}

/// Each edge that has a file among the inputs of its build line, or in the list of what its command read, in the order
/// of the edges. `names` has the names of the file: an edge has it where it has one of them. The list is that of the deps
/// log in the present state. Each input of an edge is looked at once for each name.
///
/// # Errors
/// [`AllocError`] only where an allocation was refused.
pub fn readings(
    alloc: Global,
    history: &History,
    names: &[Name],
) -> Result<Vec<Reading>, AllocError>
    ensures { IfOk result (λ readings. readings.items ≡ readings_of history.now.timeline.manifest.builds
        (state_at history.now.timeline) names.now) }
{
    let mut readings = Vec::new(alloc);
    for edge in 0..history.graph().edges() {
        let reading = reading_at(history, edge, names);
        add(&mut readings, reading)?;
    }
    Ok(readings)
}
