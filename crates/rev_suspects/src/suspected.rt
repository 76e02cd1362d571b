//! The suspects of failed runs.
ghost use Rattle.std.specs.Prelude.{◌≡◌, ◌==◌, ◌<◌, ◌++◌, [], ℕ, length, nat_eq, slice_set, true, All, IfOk, OnOk, if◌then◌else◌};
ghost use Rattle.indexmap.specs.IndexSet.{contains};
ghost use Rattle.std.specs.List.{flat_map, list_any};
ghost use Rattle.rev_cells.specs.State.{mark_of};
ghost use Rattle.rev_graph.specs.Graph.{successor_lists};
ghost use Rattle.rev_history.specs.Timeline.{is_among, state_at};
ghost use Rattle.rev_ranks.specs.Graph.{graph_of};
ghost use Rattle.rev_ranks.specs.Sets.{IsReversed};
ghost use Rattle.rev_waits.specs.Waits.{waits};
ghost use Rattle.rev_races.specs.Races.{names};
ghost use Rattle.rev_suspects.specs.Past.{IsPast};
ghost use Rattle.rev_suspects.specs.Suspects.{AreFound, AreMarkedBy, failure_in, first_suspects, list_in, lists_of, is_at as is_mark_at, is_suspect as is_suspect_of, suspects_at, suspects_in, suspects_of};

use crate::failed::{Failure, first_failures};
use crate::marks::{Ways, both_ways, waited_marks, waiting_marks};
use crate::past::follow;
use indexmap::IndexSet;
use rev_cells::{Cell, Cells, Mark, Value};
use rev_graph::Graph;
use rev_history::History;
use rev_paths::Name;
use std::alloc::{AllocError, Global};

/// How far a suspect was when the failed command began.
#[derive(Clone, Copy, PartialEq, Eq)]
pub enum Progress {
    /// Its command ran.
    Running,
    /// Its command was still to run.
    ToRun,
    /// Its command had failed.
    Failed,
}

/// A command that was not through when a failed command began. Neither of the two waits for the other.
#[derive(Clone, Copy)]
pub struct Suspect {
    /// The number of the other command's `fail` event, as in [`Failure`].
    pub failed: u32,
    /// The number of the suspect's edge.
    pub maker: u32,
    /// How far the suspect was.
    pub progress: Progress,
}

// Whether the command of an edge is so far.
fn is_at(cells: &Cells, progress: Progress, edge: u32) -> bool
    ensures { result ≡ is_mark_at progress (mark_of cells.now.state edge) }
{
    match cells.get(&Cell::Mark(edge)) {
        Some(Value::Mark(Mark::Running { .. })) => match progress {
            Progress::Running => true,
            Progress::Failed | Progress::ToRun => false,
        },
        Some(Value::Mark(Mark::Failed)) => match progress {
            Progress::Failed => true,
            Progress::Running | Progress::ToRun => false,
        },
        Some(Value::Mark(Mark::Wanted)) => match progress {
            Progress::ToRun => true,
            Progress::Running | Progress::Failed => false,
        },
        _ => false,
    }
}

// Whether an edge makes one of some files.
fn makes_one_of(graph: &Graph, files: &[Name], edge: u32) -> bool
    ensures { result ≡ list_any (names graph.now.manifest edge) files.now }
{
    files.iter().any(|file| makes(graph, file, edge))
}

// Whether an edge makes a file.
fn makes(graph: &Graph, file: &Name, edge: u32) -> bool
    ensures { result ≡ names graph.now.manifest edge file.now }
{
    match graph.producer(file) {
        Some(producer) => producer == edge,
        None => false,
    }
}

// Whether an edge is a suspect of a failed one, which waits for those that are marked in `waited`, and for which those
// wait that are marked in `waiting`.
fn is_suspect(
    graph: &Graph,
    files: &[Name],
    cells: &Cells,
    waited: &[bool],
    waiting: &[bool],
    failed: u32,
    progress: Progress,
    edge: u32,
) -> bool
    requires edge { edge < length graph.now.manifest.builds }
    requires waited { AreMarkedBy graph.now.manifest.builds (λ other. waits graph.now.manifest.builds failed other)
        waited.now }
    requires waiting { AreMarkedBy graph.now.manifest.builds (λ other. waits graph.now.manifest.builds other failed)
        waiting.now }
    ensures { result ≡ is_suspect_of graph.now.manifest files.now cells.now.state failed progress edge }
{
    if graph.is_phony(edge) || edge == failed {
        return false;
    }
    if waited[edge as usize] || waiting[edge as usize] {
        return false;
    }
    is_at(cells, progress, edge) && !makes_one_of(graph, files, edge)
}

// Adds the suspects of a run that failed that are so far.
fn add_suspects(
    graph: &Graph,
    files: &[Name],
    cells: &Cells,
    waited: &[bool],
    waiting: &[bool],
    failure: &Failure,
    progress: Progress,
    found: &mut Vec<Suspect>,
) -> Result<(), AllocError>
    requires waited { AreMarkedBy graph.now.manifest.builds
        (λ other. waits graph.now.manifest.builds failure.now.edge other) waited.now }
    requires waiting { AreMarkedBy graph.now.manifest.builds
        (λ other. waits graph.now.manifest.builds other failure.now.edge) waiting.now }
    ensures { OnOk result (found.new.items ≡ found.old.items
        ++ suspects_at graph.now.manifest files.now cells.now.state failure.now progress) }
{
    let failed = failure.edge;
    let number = failure.number;
    for edge in 0..graph.edges() {
        if is_suspect(graph, files, cells, waited, waiting, failed, progress, edge) {
            found.push(Suspect {
                failed: number,
                maker: edge,
                progress,
            })?;
        }
    }
    Ok(())
}

// The suspects of a run that failed and began in a state.
fn suspects_then(
    alloc: Global,
    graph: &Graph,
    files: &[Name],
    ways: &Ways,
    cells: &Cells,
    failure: &Failure,
) -> Result<Vec<Suspect>, AllocError>
    requires edge { failure.now.edge < length graph.now.manifest.builds }
    requires steps { graph_of ways.now.steps.items ≡ successor_lists graph.now.manifest.builds }
    requires back { IsReversed (successor_lists graph.now.manifest.builds) (graph_of ways.now.back.items) }
    requires inside { All (λ v. All (λ s. s < length graph.now.manifest.builds) v.items) ways.now.back.items }
    requires each { length ways.now.back.items ≡ length graph.now.manifest.builds }
    ensures { IfOk result (λ found. found.items
        ≡ suspects_in graph.now.manifest files.now cells.now.state failure.now) }
{
    let waited = waited_marks(alloc, graph, &ways.steps, failure.edge)?;
    let waiting = waiting_marks(alloc, graph, &ways.back, failure.edge)?;
    let mut found = Vec::new(alloc);
    add_suspects(
        graph,
        files,
        cells,
        &waited,
        &waiting,
        failure,
        Progress::Running,
        &mut found,
    )?;
    add_suspects(
        graph,
        files,
        cells,
        &waited,
        &waiting,
        failure,
        Progress::ToRun,
        &mut found,
    )?;
    add_suspects(
        graph,
        files,
        cells,
        &waited,
        &waiting,
        failure,
        Progress::Failed,
        &mut found,
    )?;
    Ok(found)
}

// The numbers that began the runs that failed.
fn begin_numbers(alloc: Global, failures: &[Failure]) -> Result<IndexSet<u32>, AllocError>
    ensures { IfOk result (λ numbers. (n : ℕ)
        → contains nat_eq numbers n ≡ list_any (λ f. nat_eq n f.began) failures.now) }
{
    let mut numbers = IndexSet::new(alloc);
    for failure in failures {
        numbers.insert(failure.began)?;
    }
    Ok(numbers)
}

// The run at a place.
fn run_at(failures: &[Failure], place: usize) -> Failure
    requires { place < length failures.now }
    ensures { result ≡ failure_in failures.now place }
{
    failures[place]
}

// Puts a list at a place.
fn put_list(lists: &mut Vec<Vec<Suspect>>, place: usize, list: Vec<Suspect>)
    requires { place < length lists.old.items }
    ensures { lists.new.items ≡ slice_set lists.old.items place list }
{
    lists[place] = list;
}

// Puts the suspects of each run that a number began at the place of the run. The other history has come to that number,
// and `begins` has the numbers that began runs that failed.
fn put_begun(
    alloc: Global,
    history: &History,
    files: &[Name],
    ways: &Ways,
    past: &History,
    number: u32,
    failures: &[Failure],
    begins: &IndexSet<u32>,
    lists: &mut Vec<Vec<Suspect>>,
) -> Result<(), AllocError>
    requires begins { (n : ℕ) → contains nat_eq begins.now n ≡ list_any (λ f. nat_eq n f.began) failures.now }
    requires within { All (λ f. f.edge < length history.now.timeline.manifest.builds) failures.now }
    requires steps { graph_of ways.now.steps.items ≡ successor_lists history.now.timeline.manifest.builds }
    requires back { IsReversed (successor_lists history.now.timeline.manifest.builds) (graph_of ways.now.back.items) }
    requires inside { All (λ v. All (λ s. s < length history.now.timeline.manifest.builds) v.items)
        ways.now.back.items }
    requires counted { length ways.now.back.items ≡ length history.now.timeline.manifest.builds }
    requires each { length lists.old.items ≡ length failures.now }
    ensures each { OnOk result (length lists.new.items ≡ length failures.now) }
    ensures lists { OnOk result ((place : ℕ) → place < length failures.now → list_in lists.new.items place
        ≡ (if (failure_in failures.now place).began == number
        then suspects_in history.now.timeline.manifest files.now (state_at past.now.timeline)
        (failure_in failures.now place)
        else list_in lists.old.items place)) }
{
    if !begins.contains(&number) {
        return Ok(());
    }
    let graph = history.graph();
    for place in 0..failures.len() {
        let failure = run_at(failures, place);
        if failure.began == number {
            let found = suspects_then(alloc, graph, files, ways, past.cells(), &failure)?;
            put_list(lists, place, found);
        }
    }
    Ok(())
}

// An empty list for each of so many.
fn empty_lists(alloc: Global, count: usize) -> Result<Vec<Vec<Suspect>>, AllocError>
    ensures each { IfOk result (λ lists. length lists.items ≡ count) }
    ensures empty { IfOk result (λ lists. (place : ℕ) → list_in lists.items place ≡ []) }
{
    let mut lists = Vec::new(alloc);
    while lists.len() < count {
        lists.push(Vec::new(alloc))?;
    }
    Ok(lists)
}

// All lists, one behind the other.
fn joined(alloc: Global, lists: &[Vec<Suspect>]) -> Result<Vec<Suspect>, AllocError>
    ensures { IfOk result (λ all. all.items ≡ flat_map (λ list. list) (lists_of lists.now)) }
{
    let mut all = Vec::new(alloc);
    for list in lists {
        all.extend_from_slice(list)?;
    }
    Ok(all)
}

// Goes over the kept events by another history, and puts the suspects of each run at its place when it comes to the
// number that began the run. `begins` has the numbers that began runs that failed.
fn go_over(
    alloc: Global,
    history: &History,
    files: &[Name],
    ways: &Ways,
    failures: &[Failure],
    begins: &IndexSet<u32>,
    past: &mut History,
    lists: &mut Vec<Vec<Suspect>>,
) -> Result<(), AllocError>
    requires begins { (n : ℕ) → contains nat_eq begins.now n ≡ list_any (λ f. nat_eq n f.began) failures.now }
    requires within { All (λ f. f.edge < length history.now.timeline.manifest.builds) failures.now }
    requires steps { graph_of ways.now.steps.items ≡ successor_lists history.now.timeline.manifest.builds }
    requires back { IsReversed (successor_lists history.now.timeline.manifest.builds) (graph_of ways.now.back.items) }
    requires inside { All (λ v. All (λ s. s < length history.now.timeline.manifest.builds) v.items)
        ways.now.back.items }
    requires counted { length ways.now.back.items ≡ length history.now.timeline.manifest.builds }
    requires past { IsPast history.now.timeline [] past.old.timeline }
    requires lists { AreFound history.now.timeline files.now failures.now [] lists.old.items }
    ensures { OnOk result (AreFound history.now.timeline files.now failures.now history.now.timeline.kept
        lists.new.items) }
{
    for number in history.kept() {
        put_begun(
            alloc, history, files, ways, past, *number, failures, begins, lists,
        )?;
        follow(history, *number, past)?;
    }
    Ok(())
}

// Puts the suspects of each run at its place, where all lists are empty yet.
fn put_each(
    alloc: Global,
    history: &History,
    files: &[Name],
    failures: &[Failure],
    lists: &mut Vec<Vec<Suspect>>,
) -> Result<(), AllocError>
    requires within { All (λ f. f.edge < length history.now.timeline.manifest.builds) failures.now }
    requires each { length lists.old.items ≡ length failures.now }
    requires empty { (place : ℕ) → list_in lists.old.items place ≡ [] }
    ensures { OnOk result (AreFound history.now.timeline files.now failures.now history.now.timeline.kept
        lists.new.items) }
{
    let ways = both_ways(alloc, history.graph())?;
    let begins = begin_numbers(alloc, failures)?;
    let mut past = history.reopened()?;
    go_over(
        alloc, history, files, &ways, failures, &begins, &mut past, lists,
    )
}

// The suspects of some runs that failed, which kept numbers began.
fn found_suspects(
    alloc: Global,
    history: &History,
    files: &[Name],
    failures: &[Failure],
) -> Result<Vec<Suspect>, AllocError>
    requires within { All (λ f. f.edge < length history.now.timeline.manifest.builds) failures.now }
    requires kept { (place : ℕ) → place < length failures.now
        → is_among history.now.timeline.kept (failure_in failures.now place).began ≡ true }
    ensures { IfOk result (λ suspects. suspects.items
        ≡ flat_map (suspects_of history.now.timeline files.now) failures.now) }
{
    let mut lists = empty_lists(alloc, failures.len())?;
    put_each(alloc, history, files, failures, &mut lists)?;
    joined(alloc, &lists)
}

/// The suspects of the first failed runs, at most `most` runs, by kept events. The runs stand in the order in which
/// they failed. For each run, the edges whose commands ran when it began come first. The edges that were still to run
/// follow, and the edges whose commands had failed by then come last. Each of these three stands in rising order.
///
/// An edge is a suspect where it has a command and neither of the two waits for the other. What makes one of `files`,
/// from which the manifest was read, runs before all else and is not a suspect.
///
/// Where a run failed, a second history repeats the kept events once. Each of the first runs takes a search of the
/// graph in each direction and a look at each edge. Each of their starts takes a look at all of these runs.
///
/// # Errors
/// [`AllocError`] only where an allocation was refused.
pub fn suspects(
    alloc: Global,
    history: &History,
    files: &[Name],
    most: usize,
) -> Result<Vec<Suspect>, AllocError>
    ensures { IfOk result (λ suspects. suspects.items ≡ first_suspects history.now.timeline files.now most) }
{
    let failures = first_failures(alloc, history, most)?;
    if failures.is_empty() {
        let none = Vec::new(alloc);
        return Ok(none);
    }
    found_suspects(alloc, history, files, &failures)
}
