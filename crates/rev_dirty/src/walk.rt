//! The walk over the phony edges through which inputs are seen.
ghost use Rattle.std.specs.Prelude.{◌≡◌, ◌<◌, ◌++◌, ◌∷◌, [], ℕ, List, map, length, true, is_some, IfOk, OnOk};
ghost use Rattle.std.specs.List.{All, Contains, filter_map};
ghost use Rattle.rev_graph.specs.Graph.{IsGraph};
ghost use Rattle.rev_dirty.specs.declared.input.Input.{Input};
ghost use Rattle.rev_dirty.specs.declared.walk.Task.TheVariants.{Enter};
ghost use Rattle.rev_dirty.specs.Visible.{greatest};
ghost use Rattle.rev_dirty.specs.Walk.{known as known_by, shown as shown_of, shown_behind, needed, IsPhonyEdge, IsKnowledge, IsAdded, IsWalk, GoesOn, work_left};

use crate::input::{Input, counted_on_line};
use indexmap::IndexMap;
use rev_cells::Cells;
use rev_graph::Graph;
use std::alloc::{AllocError, Global};

/// A step of the walk that is still to be done.
#[derive(Clone, Copy)]
pub(crate) enum Task {
    /// Look at the inputs of a phony edge, unless it is known.
    Enter(u32),
    /// Make a phony edge known, once all that its inputs are seen through is.
    Leave(u32),
}

/// What is known of phony edges: the greatest visible stamp of the inputs of each.
pub(crate) type Known = IndexMap<u32, u64>;

/// What shows of an input, by what is known of phony edges.
pub(crate) fn shown(known: &Known, input: &Input) -> u64
    ensures { result ≡ shown_of known.now.entries input.now }
{
    match input.through {
        None => input.stamp,
        Some(edge) => match known.get(&edge) {
            Some(stamp) => *stamp,
            None => 0,
        },
    }
}

/// The greatest stamp that shows of inputs, 0 where there is none.
pub(crate) fn greatest_shown(known: &Known, inputs: &[Input]) -> u64
    ensures { result ≡ greatest (map (shown_of known.now.entries) inputs.now) }
{
    let mut newest = 0;
    for input in inputs {
        let stamp = shown(known, input);
        if stamp > newest {
            newest = stamp;
        }
    }
    newest
}

// The phony edges through which inputs are seen.
fn edges_through(alloc: Global, inputs: &[Input]) -> Result<Vec<u32>, AllocError>
    ensures { IfOk result (λ edges. edges.items
        ≡ filter_map (λ (input : Input). input.through) inputs.now) }
{
    inputs
        .iter()
        .filter_map(|input| input.through)
        .collect(alloc)
}

// Adds that edges are entered.
fn push_entered(tasks: &mut Vec<Task>, edges: &[u32]) -> Result<(), AllocError>
    ensures { OnOk result (tasks.new.items ≡ tasks.old.items ++ map Enter edges.now) }
{
    for edge in edges {
        tasks.push(Task::Enter(*edge))?;
    }
    Ok(())
}

// Looks at the inputs of a phony edge, unless it is known.
fn enter(
    alloc: Global,
    graph: &Graph,
    cells: &Cells,
    known: &Known,
    tasks: &mut Vec<Task>,
    edge: u32,
) -> Result<(), AllocError>
    requires graph { IsGraph graph.now }
    requires walk { IsWalk graph.now.manifest.builds cells.now.state known.now.entries
        (tasks.old.items ++ Enter edge ∷ []) }
    ensures walk { OnOk result (IsWalk graph.now.manifest.builds cells.now.state known.now.entries
        tasks.new.items) }
    ensures goes_on { OnOk result (GoesOn known.now.entries (tasks.old.items ++ Enter edge ∷ []) known.now.entries
        tasks.new.items) }
    ensures less { OnOk result (work_left graph.now.manifest.builds cells.now.state graph.now.ranks
        tasks.new.items < work_left graph.now.manifest.builds cells.now.state graph.now.ranks
        (tasks.old.items ++ Enter edge ∷ [])) }
{
    if known.contains_key(&edge) {
        return Ok(());
    }
    let inputs = counted_on_line(alloc, graph, cells, edge)?;
    let others = edges_through(alloc, &inputs)?;
    tasks.push(Task::Leave(edge))?;
    push_entered(tasks, &others)?;
    Ok(())
}

// Makes a phony edge known.
fn leave(
    alloc: Global,
    graph: &Graph,
    cells: &Cells,
    known: &mut Known,
    edge: u32,
) -> Result<(), AllocError>
    requires graph { IsGraph graph.now }
    requires edge { IsPhonyEdge graph.now.manifest.builds edge }
    requires knowledge { IsKnowledge graph.now.manifest.builds cells.now.state known.old.entries }
    requires needed { (other : ℕ) → Contains (needed graph.now.manifest.builds cells.now.state edge) other
        → is_some (known_by known.old.entries other) ≡ true }
    ensures added { OnOk result (IsAdded known.old.entries known.new.entries edge
        (shown_behind graph.now.manifest.builds cells.now.state edge)) }
    ensures knowledge { IsKnowledge graph.now.manifest.builds cells.now.state known.new.entries }
{
    let inputs = counted_on_line(alloc, graph, cells, edge)?;
    let stamp = greatest_shown(known, &inputs);
    known.insert(edge, stamp)?;
    Ok(())
}

// Does a step of the walk.
fn step(
    alloc: Global,
    graph: &Graph,
    cells: &Cells,
    known: &mut Known,
    tasks: &mut Vec<Task>,
    task: Task,
) -> Result<(), AllocError>
    requires graph { IsGraph graph.now }
    requires walk { IsWalk graph.now.manifest.builds cells.now.state known.old.entries
        (tasks.old.items ++ task ∷ []) }
    ensures walk { OnOk result (IsWalk graph.now.manifest.builds cells.now.state known.new.entries
        tasks.new.items) }
    ensures goes_on { OnOk result (GoesOn known.old.entries (tasks.old.items ++ task ∷ []) known.new.entries
        tasks.new.items) }
    ensures less { OnOk result (work_left graph.now.manifest.builds cells.now.state graph.now.ranks
        tasks.new.items < work_left graph.now.manifest.builds cells.now.state graph.now.ranks
        (tasks.old.items ++ task ∷ [])) }
    ensures knowledge { IsKnowledge graph.now.manifest.builds cells.now.state known.new.entries }
{
    match task {
        Task::Enter(edge) => {
            enter(alloc, graph, cells, known, tasks, edge)?;
            Ok(())
        }
        Task::Leave(edge) => {
            leave(alloc, graph, cells, known, edge)?;
            Ok(())
        }
    }
}

/// Makes the phony edges known through which inputs are seen, at any depth. Each that was not known is entered once
/// and left once. What was known stays so, also where memory is short.
pub(crate) fn know(
    alloc: Global,
    graph: &Graph,
    cells: &Cells,
    known: &mut Known,
    inputs: &[Input],
) -> Result<(), AllocError>
    requires graph { IsGraph graph.now }
    requires phony { All (IsPhonyEdge graph.now.manifest.builds)
        (filter_map (λ (input : Input). input.through) inputs.now) }
    requires knowledge { IsKnowledge graph.now.manifest.builds cells.now.state known.old.entries }
    ensures knowledge { IsKnowledge graph.now.manifest.builds cells.now.state known.new.entries }
    ensures all { OnOk result ((edge : ℕ)
        → Contains (filter_map (λ (input : Input). input.through) inputs.now) edge
        → is_some (known_by known.new.entries edge) ≡ true) }
{
    let edges = edges_through(alloc, inputs)?;
    let mut tasks = Vec::new(alloc);
    push_entered(&mut tasks, &edges)?;
    while let Some(task) = tasks.pop() {
        step(alloc, graph, cells, known, &mut tasks, task)?;
    }
    Ok(())
}
