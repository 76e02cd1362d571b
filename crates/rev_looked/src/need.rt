//! What events rest on, by what their commands were seen to look at.
ghost use Rattle.std.specs.Prelude.{◌≡◌, ◌<◌, ◌++◌, ◌==◌, ℕ, Option, None, false, length, slice_index_or, IfOk, OnOk};
ghost use Rattle.std.specs.Option.{option_to_list};
ghost use Rattle.std.specs.List.{filter_map, range_with_len};
ghost use Rattle.rev_looked.specs.Commands.{look_of};
ghost use Rattle.rev_looked.specs.Commands.{number_from};
ghost use Rattle.rev_looked.specs.Needs.{holds, need_by as need_by_of, need_in as need_in_of, needs_by as needs_by_of, needs_of, scene};

use crate::commands::{command_at, numbers_of};
use crate::declared::declared;
use crate::ends::{ended_at, run_at};
use crate::left::last_left;
use crate::ranges::note_ranges;
use rev_history::History;
use rev_observed::{Command, Kind, Observation};
use rev_runs::is_kept;
use std::alloc::{AllocError, Global};

/// An earlier event on which one rests, by what its command was seen to look at.
#[derive(Clone, Copy, Debug, PartialEq, Eq)]
pub struct Need {
    /// The number of the earlier event, at which a command ended.
    pub number: u32,
    /// The number of the path that this command left and the later one looks at, in the observation.
    pub path: u64,
    /// How the later one looks at it: [`Kind::Reads`], [`Kind::Misses`] or [`Kind::Stats`].
    pub look: Kind,
}

// How a command looks at each of so many paths.
fn looks_of(alloc: Global, command: &Command, count: u64) -> Result<Vec<Option<Kind>>, AllocError>
    ensures count { IfOk result (λ looks. length looks.items ≡ count) }
    ensures each { IfOk result (λ looks. (path : ℕ) → path < count
        → slice_index_or looks.items path None ≡ look_of command.now path) }
{
    let mut looks = vec![in alloc; None; count as usize]?;
    note_ranges(&mut looks, command.paths(Kind::Reads), Kind::Reads);
    note_ranges(&mut looks, command.paths(Kind::Misses), Kind::Misses);
    note_ranges(&mut looks, command.paths(Kind::Stats), Kind::Stats);
    Ok(looks)
}

/// Whether there is an edge, and it is this one.
pub(crate) fn is_edge(edge: u32, found: Option<u32>) -> bool
    ensures { result ≡ holds (λ e. e == edge) found }
{
    match found {
        Some(found) => found == edge,
        None => false,
    }
}

// What a command of an edge needs by a path that was last left at the event of a number.
fn need_by(history: &History, edge: u32, path: u64, look: Kind, number: u32) -> Option<Need>
    ensures { result ≡ need_by_of history.now.timeline edge path look number }
{
    if is_edge(edge, ended_at(history, number)) {
        return None;
    }
    Some(Need { number, path, look })
}

// The same, where it looks at the path, the path was left, and the build line does not declare it.
fn need_in(
    history: &History,
    edge: u32,
    path: u64,
    declared: bool,
    look: Option<Kind>,
    number: Option<u32>,
) -> Option<Need>
    ensures { result ≡ need_in_of history.now.timeline edge path declared look number }
{
    if declared {
        return None;
    }
    let look = look?;
    let number = number?;
    need_by(history, edge, path, look, number)
}

// Adds what there may be.
fn add(needs: &mut Vec<Need>, need: Option<Need>) -> Result<(), AllocError>
    ensures { OnOk result (needs.new.items ≡ needs.old.items ++ option_to_list need) }
{
    if let Some(need) = need {
        needs.push(need)?;
    }
    Ok(())
}

// What a command of an edge needs by all paths, by how it looks at each, where each was last left, and which ones its
// build line declares.
fn needs_in(
    alloc: Global,
    history: &History,
    edge: u32,
    declared: &[bool],
    looks: &[Option<Kind>],
    numbers: &[Option<u32>],
) -> Result<Vec<Need>, AllocError>
    requires looks { length looks.now ≡ length declared.now }
    requires numbers { length numbers.now ≡ length declared.now }
    ensures { IfOk result (λ needs. (need_at : ℕ → Option Need)
        → ((path : ℕ) → path < length declared.now → need_at path ≡ need_in_of history.now.timeline edge path
        (slice_index_or declared.now path false) (slice_index_or looks.now path None)
        (slice_index_or numbers.now path None))
        → needs.items ≡ filter_map need_at (range_with_len 0 (length declared.now))) }
{
    let mut needs = Vec::new(alloc);
    for path in 0..declared.len() {
        let need = need_in(
            history,
            edge,
            path as u64,
            declared[path],
            looks[path],
            numbers[path],
        );
        add(&mut needs, need)?;
    }
    Ok(needs)
}

// What a command of an edge needs before an event.
fn needs_by(
    alloc: Global,
    history: &History,
    observation: &Observation,
    edges: &[u32],
    numbers: &[Option<usize>],
    edge: u32,
    command: &Command,
    before: u32,
) -> Result<Vec<Need>, AllocError>
    requires edge { edge < length history.now.timeline.manifest.builds }
    requires count { length numbers.now ≡ length history.now.timeline.manifest.builds }
    requires each { (edge : ℕ) → edge < length history.now.timeline.manifest.builds
        → slice_index_or numbers.now edge None ≡ number_from 0 edges.now edge }
    ensures { IfOk result (λ needs. needs.items ≡ needs_by_of (scene history.now.timeline observation.now.paths
        observation.now.commands edges.now) before edge command.now) }
{
    let paths = observation.paths();
    let declared = declared(alloc, history.graph(), paths, edge)?;
    let looks = looks_of(alloc, command, paths.len())?;
    let left = last_left(alloc, history, observation, edges, numbers, before)?;
    let needs = needs_in(alloc, history, edge, &declared, &looks, &left)?;
    Ok(needs)
}

/// What a kept event that begins or ends a command rests on by what that command was seen to look at: for each path that
/// it looks at and that its build line does not declare, the last kept event before it at which a command of another edge
/// ended that left the path other than it was, in the order of the numbers of the paths. Nothing of an event that is not
/// kept, and of one whose command was not observed.
///
/// `edges` has for each command of the observation its edge, as [`rev_observed::edges`] gives them. Each path of the
/// observation, each kept event and what its command left are looked at once.
///
/// # Errors
/// [`AllocError`] only where an allocation was refused.
pub fn needs(
    alloc: Global,
    history: &History,
    observation: &Observation,
    edges: &[u32],
    number: u32,
) -> Result<Vec<Need>, AllocError>
    ensures { IfOk result (λ needs. needs.items ≡ needs_of (scene history.now.timeline observation.now.paths
        observation.now.commands edges.now) number) }
{
    let numbers = numbers_of(alloc, edges, history.graph().edges())?;
    if !is_kept(history, number) {
        return Ok(Vec::new(alloc));
    }
    let Some(edge) = run_at(history, number) else {
        return Ok(Vec::new(alloc));
    };
    let Some(command) = command_at(observation.commands(), &numbers, edge) else {
        return Ok(Vec::new(alloc));
    };
    needs_by(
        alloc,
        history,
        observation,
        edges,
        &numbers,
        edge,
        command,
        number,
    )
}
