//! Which changes give hints, and to which users.
ghost use Rattle.std.specs.Prelude.{◌≡◌, ◌++◌, ◌+◌, ◌<◌, ◌&&◌, ℕ, List, [], false, true, bytes_eq, is_some, length, map, not, slice_get, slice_index_or, if◌then◌else◌, IfOk, OnOk};
ghost use Rattle.std.specs.List.{list_any};
ghost use Rattle.std.specs.Option.{option_copied};
ghost use Rattle.indexmap.specs.IndexSet.{contains};
ghost use Rattle.rev_causal.specs.Chosen.{without};
ghost use Rattle.rev_graph.specs.Graph.{successor_lists};
ghost use Rattle.rev_history.specs.Timeline.{kept_events};
ghost use Rattle.rev_ranks.specs.Graph.{graph_of};
ghost use Rattle.rev_waits.specs.Waits.{AreWaitedFor};
ghost use Rattle.rev_races.specs.Searches.{IsKept};
ghost use Rattle.rev_hints.specs.Changes.{change_in, change_value};
ghost use Rattle.rev_hints.specs.Hints.{AreHints, AreHintsBefore, AreHintsBy, hint_at, hint_by, hint_value, listed, recorded_paths};

use crate::changes::{Changed, changes_in};
use indexmap::{IndexMap, IndexSet};
use rev_cells::Cells;
use rev_dirty::listed_inputs;
use rev_graph::Graph;
use rev_history::History;
use rev_paths::Name;
use rev_races::{Search, no_search, search_for};
use rev_waits::steps;
use std::alloc::{AllocError, Global};

/// An edge lists a file that nobody makes and that changed while other commands ran, and it waits for none of them.
pub struct ChangeHint {
    /// The edge that lists the file.
    pub user: u32,
    /// The first place of its path in what the edge lists, from 0.
    pub place: usize,
    /// The number of the event that changed the file.
    pub number: u32,
    /// The other edges whose commands ran then, in the order in which they began. There is one at least.
    pub ran: Vec<u32>,
}

// Written, since a derived drop is proved again at each exit of each caller.
impl Drop for ChangeHint {
    fn drop(self) {
        let ChangeHint {
            user: _user,
            place: _place,
            number: _number,
            ran: _ran,
        } = self;
    }
}

// The edges but one.
fn others(alloc: Global, edges: &[u32], user: u32) -> Result<Vec<u32>, AllocError>
    ensures { IfOk result (λ others. others.items ≡ without user edges.now) }
{
    edges
        .iter()
        .copied()
        .filter(|edge| *edge != user)
        .collect(alloc)
}

/// Whether an edge has a mark.
pub(crate) fn is_marked(marks: &[bool], edge: u32) -> bool
    ensures { result ≡ slice_index_or marks.now edge false }
{
    if edge as usize >= marks.len() {
        return false;
    }
    marks[edge as usize]
}

// Whether one of the edges has a mark.
fn is_one_marked(marks: &[bool], edges: &[u32]) -> bool
    ensures { result ≡ list_any (λ edge. slice_index_or marks.now edge false) edges.now }
{
    edges.iter().any(|edge| is_marked(marks, *edge))
}

// Adds the hint that a change gives at a place of a user's list, where it gives one. The user waits for the edges that
// have a mark.
fn add_hint(
    alloc: Global,
    waited: &[bool],
    user: u32,
    place: usize,
    change: &Changed,
    hints: &mut Vec<ChangeHint>,
) -> Result<(), AllocError>
    ensures { OnOk result (map hint_value hints.new.items
        ≡ map hint_value hints.old.items ++ hint_by waited.now user place (change_value change.now)) }
{
    let ran = others(alloc, &change.ran, user)?;
    if ran.is_empty() || is_one_marked(waited, &ran) {
        return Ok(());
    }
    let number = change.number;
    hints.push(ChangeHint {
        user,
        place,
        number,
        ran,
    })?;
    Ok(())
}

/// Whether a path is new among those seen, of which it is one then.
pub(crate) fn is_new(seen: &mut IndexSet<Name>, path: &Name) -> Result<bool, AllocError>
    ensures new { IfOk result (λ new. new ≡ not (contains bytes_eq seen.old path.now)) }
    ensures seen { OnOk result ((other : List ℕ) → contains bytes_eq seen.new other
        ≡ (if bytes_eq path.now other then true else contains bytes_eq seen.old other)) }
{
    let new = seen.insert(path.copy()?)?;
    Ok(new)
}

// Adds the hint that a path gives at a place of a user's list, unless it was seen at an earlier one. The user waits for
// the edges that have a mark.
fn add_at(
    alloc: Global,
    changes: &IndexMap<Name, Changed>,
    waited: &[bool],
    user: u32,
    place: usize,
    path: &Name,
    seen: &mut IndexSet<Name>,
    hints: &mut Vec<ChangeHint>,
) -> Result<(), AllocError>
    ensures hints { OnOk result (map hint_value hints.new.items ≡ map hint_value hints.old.items
        ++ hint_at waited.now user place (contains bytes_eq seen.old path.now)
        (change_in changes.now.entries path.now)) }
    ensures seen { OnOk result ((other : List ℕ) → contains bytes_eq seen.new other
        ≡ (if is_some (change_in changes.now.entries path.now) && bytes_eq path.now other
        then true else contains bytes_eq seen.old other)) }
{
    let Some(change) = changes.get(path) else {
        return Ok(());
    };
    if !is_new(seen, path)? {
        return Ok(());
    }
    add_hint(alloc, waited, user, place, change, hints)
}

// Adds the hints of a user, which waits for the edges that have a mark.
fn add_hints(
    alloc: Global,
    graph: &Graph,
    cells: &Cells,
    changes: &IndexMap<Name, Changed>,
    waited: &[bool],
    user: u32,
    hints: &mut Vec<ChangeHint>,
) -> Result<(), AllocError>
    requires user { user < length graph.now.manifest.builds }
    requires waited { AreWaitedFor graph.now.manifest.builds user waited.now }
    requires before { AreHintsBefore graph.now.manifest.builds
        (recorded_paths graph.now.manifest.builds cells.now.state) (change_in changes.now.entries) user 0
        (map hint_value hints.old.items) }
    ensures { OnOk result (AreHintsBefore graph.now.manifest.builds
        (recorded_paths graph.now.manifest.builds cells.now.state) (change_in changes.now.entries)
        (user + 1) 0 (map hint_value hints.new.items)) }
{
    let mut seen = IndexSet::new(alloc);
    let paths = listed_inputs(graph, cells, user);
    for (place, path) in paths.iter().enumerate() {
        add_at(alloc, changes, waited, user, place, path, &mut seen, hints)?;
    }
    Ok(())
}

// Whether one of the paths changed.
fn has_changed(changes: &IndexMap<Name, Changed>, paths: &[Name]) -> bool
    ensures { result ≡ list_any (λ path. is_some (change_in changes.now.entries path)) paths.now }
{
    paths.iter().any(|path| changes.contains_key(path))
}

// Adds the hints of a user. `search` has what the last search found.
fn add_hints_of(
    alloc: Global,
    graph: &Graph,
    cells: &Cells,
    changes: &IndexMap<Name, Changed>,
    steps: &[Vec<u32>],
    user: u32,
    search: &mut Search,
    hints: &mut Vec<ChangeHint>,
) -> Result<(), AllocError>
    requires user { user < length graph.now.manifest.builds }
    requires steps { graph_of steps.now ≡ successor_lists graph.now.manifest.builds }
    requires kept { IsKept graph.now.manifest.builds search.old.edge search.old.waited.items }
    requires before { AreHintsBefore graph.now.manifest.builds
        (recorded_paths graph.now.manifest.builds cells.now.state) (change_in changes.now.entries) user 0
        (map hint_value hints.old.items) }
    ensures kept { OnOk result (IsKept graph.now.manifest.builds search.new.edge search.new.waited.items) }
    ensures hints { OnOk result (AreHintsBefore graph.now.manifest.builds
        (recorded_paths graph.now.manifest.builds cells.now.state) (change_in changes.now.entries)
        (user + 1) 0 (map hint_value hints.new.items)) }
{
    if !has_changed(changes, listed_inputs(graph, cells, user)) {
        return Ok(());
    }
    search_for(alloc, graph, steps, user, search)?;
    add_hints(alloc, graph, cells, changes, &search.waited, user, hints)?;
    Ok(())
}

// The hints that changes give in a state.
fn hints_by(
    alloc: Global,
    graph: &Graph,
    cells: &Cells,
    changes: &IndexMap<Name, Changed>,
) -> Result<Vec<ChangeHint>, AllocError>
    ensures { IfOk result (λ hints. AreHintsBy graph.now.manifest.builds
        (recorded_paths graph.now.manifest.builds cells.now.state) (change_in changes.now.entries)
        (map hint_value hints.items)) }
{
    let mut hints = Vec::new(alloc);
    if changes.is_empty() {
        return Ok(hints);
    }
    let steps = steps(alloc, graph)?;
    let mut search = no_search(alloc);
    for user in 0..graph.edges() {
        add_hints_of(
            alloc,
            graph,
            cells,
            changes,
            &steps,
            user,
            &mut search,
            &mut hints,
        )?;
    }
    Ok(hints)
}

/// The hints that changed files give in a history, each once, in the order of the users' numbers, and of the places in
/// what a user lists. A hint is an edge and a file that it lists, which nobody makes by any of its names. The file
/// changed while commands ran, and at its last such change the edge waits for none of the other commands that ran.
/// `names` has the other names of outputs, each with its output.
///
/// The kept events are gone through once, and each listed path is looked up once, or twice where its list has a path
/// that changed; up to hashing, that takes time linear in both. An edge with such a path is searched for what it waits
/// for, unless it steps to the same edges as the last one that was.
///
/// # Errors
/// [`AllocError`] only where an allocation was refused.
pub fn change_hints(
    alloc: Global,
    history: &History,
    names: &IndexMap<Name, Name>,
) -> Result<Vec<ChangeHint>, AllocError>
    ensures { IfOk result (λ hints. AreHints history.now.timeline.manifest names.now.entries
        history.now.timeline.opening (kept_events history.now.timeline) (map hint_value hints.items)) }
{
    let _edges = history.graph().edges();
    let changes = changes_in(alloc, history, names)?;
    let hints = hints_by(alloc, history.graph(), history.cells(), &changes)?;
    Ok(hints)
}

/// What an edge lists; nothing where it has no list.
pub(crate) fn paths_of(history: &History, edge: u32) -> &[Name]
    requires { edge < length history.now.timeline.manifest.builds }
    ensures { result.now ≡ listed history.now.timeline.manifest history.now.timeline.opening
        (kept_events history.now.timeline) edge }
{
    match rev_races::listed(history, edge) {
        Some(paths) => paths,
        None => &[],
    }
}

/// The path at a place of what an edge lists, from 0, as hints name it.
pub fn listed_path(history: &History, edge: u32, place: usize) -> Option<&Name>
    ensures { option_copied result ≡ slice_get (listed history.now.timeline.manifest
        history.now.timeline.opening (kept_events history.now.timeline) edge) place }
{
    if edge >= history.graph().edges() {
        return None;
    }
    paths_of(history, edge).get(place)
}
