//! Where paths were last left other than they were.
ghost use Rattle.std.specs.Prelude.{◌≡◌, ◌<◌, ◌&&◌, ℕ, None, length, nat_lt, slice_index_or, IfOk};
ghost use Rattle.rev_looked.specs.Commands.{leaves, number_from};
ghost use Rattle.rev_looked.specs.Ranges.{noted};
ghost use Rattle.rev_looked.specs.Needs.{is_left, last_left as last_left_of, next_left as next_left_of, scene};

use crate::commands::command_at;
use crate::ends::ended_at;
use crate::ranges::note_ranges;
use rev_history::History;
use rev_observed::{Command, Kind, Observation};
use std::alloc::{AllocError, Global};

// Notes a number of each path that a command left other than it was, and of which nothing was noted.
fn note_command(notes: &mut [Option<u32>], command: &Command, number: u32)
    ensures { (path : ℕ) → path < length notes.old → slice_index_or notes.new path None
        ≡ noted (leaves command.now path) number (slice_index_or notes.old path None) }
{
    note_ranges(notes, command.paths(Kind::Writes), number);
    note_ranges(notes, command.paths(Kind::Deletes), number);
}

// Notes the number of an event, where it ended a command, of each path that this left other than it was, and of which
// nothing was noted.
fn note_left(
    history: &History,
    observation: &Observation,
    edges: &[u32],
    numbers: &[Option<usize>],
    number: u32,
    notes: &mut [Option<u32>],
)
    requires count { length numbers.now ≡ length history.now.timeline.manifest.builds }
    requires each { (edge : ℕ) → edge < length history.now.timeline.manifest.builds
        → slice_index_or numbers.now edge None ≡ number_from 0 edges.now edge }
    ensures { (path : ℕ) → path < length notes.old → slice_index_or notes.new path None
        ≡ noted (is_left (scene history.now.timeline observation.now.paths observation.now.commands edges.now) path
        number) number (slice_index_or notes.old path None) }
{
    let _edges = edges.len();
    let Some(edge) = ended_at(history, number) else {
        return;
    };
    let Some(command) = command_at(observation.commands(), numbers, edge) else {
        return;
    };
    note_command(notes, command, number);
}

// The same of an event before another one.
fn note_before(
    history: &History,
    observation: &Observation,
    edges: &[u32],
    numbers: &[Option<usize>],
    before: u32,
    number: u32,
    notes: &mut [Option<u32>],
)
    requires count { length numbers.now ≡ length history.now.timeline.manifest.builds }
    requires each { (edge : ℕ) → edge < length history.now.timeline.manifest.builds
        → slice_index_or numbers.now edge None ≡ number_from 0 edges.now edge }
    ensures { (path : ℕ) → path < length notes.old → slice_index_or notes.new path None
        ≡ noted (nat_lt number before && is_left (scene history.now.timeline observation.now.paths
        observation.now.commands edges.now) path number) number (slice_index_or notes.old path None) }
{
    let _edges = edges.len();
    if number >= before {
        return;
    }
    note_left(history, observation, edges, numbers, number, notes);
}

// Notes of each path the last kept event before a number at which a command ended that left it other than it was, where
// nothing was noted of it.
fn note_kept(
    history: &History,
    observation: &Observation,
    edges: &[u32],
    numbers: &[Option<usize>],
    before: u32,
    notes: &mut [Option<u32>],
)
    requires count { length numbers.now ≡ length history.now.timeline.manifest.builds }
    requires each { (edge : ℕ) → edge < length history.now.timeline.manifest.builds
        → slice_index_or numbers.now edge None ≡ number_from 0 edges.now edge }
    ensures { (path : ℕ) → path < length notes.old → slice_index_or notes.old path None ≡ None
        → slice_index_or notes.new path None ≡ last_left_of (scene history.now.timeline observation.now.paths
        observation.now.commands edges.now) before path }
{
    let _edges = edges.len();
    let kept = history.kept();
    for passed in 0..kept.len() {
        let number = kept[kept.len() - 1 - passed];
        note_before(history, observation, edges, numbers, before, number, notes);
    }
}

/// For each path the last kept event before a number at which a command ended that left the path other than it was.
///
/// # Errors
/// [`AllocError`] only where an allocation was refused.
pub(crate) fn last_left(
    alloc: Global,
    history: &History,
    observation: &Observation,
    edges: &[u32],
    numbers: &[Option<usize>],
    before: u32,
) -> Result<Vec<Option<u32>>, AllocError>
    requires count { length numbers.now ≡ length history.now.timeline.manifest.builds }
    requires each { (edge : ℕ) → edge < length history.now.timeline.manifest.builds
        → slice_index_or numbers.now edge None ≡ number_from 0 edges.now edge }
    ensures count { IfOk result (λ notes. length notes.items ≡ length observation.now.paths) }
    ensures each { IfOk result (λ notes. (path : ℕ) → path < length observation.now.paths
        → slice_index_or notes.items path None ≡ last_left_of (scene history.now.timeline observation.now.paths
        observation.now.commands edges.now) before path) }
{
    let mut notes = vec![in alloc; None; observation.paths().len() as usize]?;
    note_kept(history, observation, edges, numbers, before, &mut notes);
    Ok(notes)
}

/// A note of each path that was left other than it was at the event of a number.
///
/// # Errors
/// [`AllocError`] only where an allocation was refused.
pub(crate) fn left_notes(
    alloc: Global,
    history: &History,
    observation: &Observation,
    edges: &[u32],
    numbers: &[Option<usize>],
    number: u32,
) -> Result<Vec<Option<u32>>, AllocError>
    requires count { length numbers.now ≡ length history.now.timeline.manifest.builds }
    requires each { (edge : ℕ) → edge < length history.now.timeline.manifest.builds
        → slice_index_or numbers.now edge None ≡ number_from 0 edges.now edge }
    ensures count { IfOk result (λ notes. length notes.items ≡ length observation.now.paths) }
    ensures each { IfOk result (λ notes. (path : ℕ) → path < length observation.now.paths
        → slice_index_or notes.items path None ≡ noted (is_left (scene history.now.timeline observation.now.paths
        observation.now.commands edges.now) path number) number None) }
{
    let mut notes = vec![in alloc; None; observation.paths().len() as usize]?;
    note_left(history, observation, edges, numbers, number, &mut notes);
    Ok(notes)
}

// Notes the number of an event behind another one, where it ended a command, of each path that this left other than it
// was, and of which nothing was noted.
fn note_after(
    history: &History,
    observation: &Observation,
    edges: &[u32],
    numbers: &[Option<usize>],
    after: u32,
    number: u32,
    notes: &mut [Option<u32>],
)
    requires count { length numbers.now ≡ length history.now.timeline.manifest.builds }
    requires each { (edge : ℕ) → edge < length history.now.timeline.manifest.builds
        → slice_index_or numbers.now edge None ≡ number_from 0 edges.now edge }
    ensures { (path : ℕ) → path < length notes.old → slice_index_or notes.new path None
        ≡ noted (nat_lt after number && is_left (scene history.now.timeline observation.now.paths
        observation.now.commands edges.now) path number) number (slice_index_or notes.old path None) }
{
    let _edges = edges.len();
    if number <= after {
        return;
    }
    note_left(history, observation, edges, numbers, number, notes);
}

// Notes of each path the first kept event after a number at which a command ended that left it other than it was, where
// nothing was noted of it.
fn note_kept_after(
    history: &History,
    observation: &Observation,
    edges: &[u32],
    numbers: &[Option<usize>],
    after: u32,
    notes: &mut [Option<u32>],
)
    requires count { length numbers.now ≡ length history.now.timeline.manifest.builds }
    requires each { (edge : ℕ) → edge < length history.now.timeline.manifest.builds
        → slice_index_or numbers.now edge None ≡ number_from 0 edges.now edge }
    ensures { (path : ℕ) → path < length notes.old → slice_index_or notes.old path None ≡ None
        → slice_index_or notes.new path None ≡ next_left_of (scene history.now.timeline observation.now.paths
        observation.now.commands edges.now) after path }
{
    let _edges = edges.len();
    let kept = history.kept();
    for place in 0..kept.len() {
        let number = kept[place];
        note_after(history, observation, edges, numbers, after, number, notes);
    }
}

/// For each path the first kept event after a number at which a command ended that left the path other than it was.
///
/// # Errors
/// [`AllocError`] only where an allocation was refused.
pub(crate) fn next_left(
    alloc: Global,
    history: &History,
    observation: &Observation,
    edges: &[u32],
    numbers: &[Option<usize>],
    after: u32,
) -> Result<Vec<Option<u32>>, AllocError>
    requires count { length numbers.now ≡ length history.now.timeline.manifest.builds }
    requires each { (edge : ℕ) → edge < length history.now.timeline.manifest.builds
        → slice_index_or numbers.now edge None ≡ number_from 0 edges.now edge }
    ensures count { IfOk result (λ notes. length notes.items ≡ length observation.now.paths) }
    ensures each { IfOk result (λ notes. (path : ℕ) → path < length observation.now.paths
        → slice_index_or notes.items path None ≡ next_left_of (scene history.now.timeline observation.now.paths
        observation.now.commands edges.now) after path) }
{
    let mut notes = vec![in alloc; None; observation.paths().len() as usize]?;
    note_kept_after(history, observation, edges, numbers, after, &mut notes);
    Ok(notes)
}
