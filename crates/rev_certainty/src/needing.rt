//! Which commands the targets of a recording need.
ghost use Rattle.std.specs.Prelude.{◌≡◌, ◌<◌, length, IfOk};
ghost use Rattle.std.specs.Option.{option_copied};
ghost use Rattle.rev_graph.specs.Graph.{build_at};
ghost use Rattle.rev_dirty.specs.Inputs.{producers_in};
ghost use Rattle.rev_plan.specs.Plan.{targets_or};
ghost use Rattle.rev_ranks.specs.Graph.{graph_of};
ghost use Rattle.rev_certainty.specs.Needed.{AreNeeded, event_makers, makers_if as makers_if_some, need_lists, needs_of, target_edges as target_edges_of};

use rev_cells::{Cell, Mark, Value};
use rev_events::Event;
use rev_graph::{Graph, edges_among};
use rev_history::History;
use rev_paths::Name;
use rev_ranks::reachable_from;
use std::alloc::{AllocError, Global};

// The edges that make some paths.
fn makers_of(alloc: Global, graph: &Graph, paths: &[Name]) -> Result<Vec<u32>, AllocError>
    ensures { IfOk result (λ edges. edges.items ≡ producers_in graph.now.manifest.builds paths.now) }
{
    paths
        .iter()
        .filter_map(|path| graph.producer(path))
        .collect(alloc)
}

// The edges that make the inputs and the validations of an edge.
fn needed_by(alloc: Global, graph: &Graph, edge: u32) -> Result<Vec<u32>, AllocError>
    requires { edge < length graph.now.manifest.builds }
    ensures { IfOk result (λ needed. needed.items
        ≡ needs_of graph.now.manifest.builds (build_at graph.now.manifest.builds edge)) }
{
    let mut needed = edges_among(alloc, graph.producers(edge))?;
    let validated = makers_of(alloc, graph, graph.validations(edge))?;
    needed.extend_from_slice(&validated)?;
    Ok(needed)
}

// For each edge those that make its inputs and its validations.
fn needed_steps(alloc: Global, graph: &Graph) -> Result<Vec<Vec<u32>>, AllocError>
    ensures { IfOk result (λ steps. graph_of steps.items ≡ need_lists graph.now.manifest.builds) }
{
    let mut steps = Vec::new(alloc);
    for edge in 0..graph.edges() {
        steps.push(needed_by(alloc, graph, edge)?)?;
    }
    Ok(steps)
}

// The targets of a plan: those that it names, or the defaults.
fn targets_or_defaults<'a>(graph: &'a Graph, targets: &'a [Name]) -> &'a [Name]
    ensures { result.now ≡ targets_or graph.now.manifest.defaults targets.now }
{
    if targets.is_empty() {
        graph.defaults()
    } else {
        targets
    }
}

// The edges that make the targets of an event.
fn makers_of_event(alloc: Global, graph: &Graph, event: &Event) -> Result<Vec<u32>, AllocError>
    ensures { IfOk result (λ edges. edges.items ≡ event_makers graph.now.manifest event.now) }
{
    match event {
        Event::Plan(targets) => {
            let paths = targets_or_defaults(graph, targets.as_slice());
            let makers = makers_of(alloc, graph, paths)?;
            Ok(makers)
        }
        _ => Ok(Vec::new(alloc)),
    }
}

// The edges that make the targets of an event, where there is one.
fn makers_if(alloc: Global, graph: &Graph, event: Option<&Event>) -> Result<Vec<u32>, AllocError>
    ensures { IfOk result (λ edges. edges.items ≡ makers_if_some graph.now.manifest (option_copied event.entry)) }
{
    match event {
        Some(event) => makers_of_event(alloc, graph, event),
        None => Ok(Vec::new(alloc)),
    }
}

// The edges that make the targets of the plans of a history. A plan that names none is of the defaults.
fn target_edges(alloc: Global, history: &History) -> Result<Vec<u32>, AllocError>
    ensures { IfOk result (λ edges. edges.items ≡ target_edges_of history.now.timeline) }
{
    let graph = history.graph();
    let mut edges = Vec::new(alloc);
    for number in history.kept() {
        let makers = makers_if(alloc, graph, history.event(*number))?;
        edges.extend_from_slice(&makers)?;
    }
    Ok(edges)
}

/// A mark for each edge that the targets of the plans of a history need, by the build lines.
///
/// # Errors
/// [`AllocError`] only where an allocation was refused.
pub fn needed_edges(alloc: Global, history: &History) -> Result<Vec<bool>, AllocError>
    ensures { IfOk result (λ marks. AreNeeded history.now.timeline marks.items) }
{
    let steps = needed_steps(alloc, history.graph())?;
    let targets = target_edges(alloc, history)?;
    let marks = reachable_from(alloc, &steps, &targets)?;
    Ok(marks)
}

// Whether Ninja has nothing to do for an edge, as the history leaves it.
fn is_idle(history: &History, edge: u32) -> bool {
    match history.cells().get(&Cell::Mark(edge)) {
        None => true,
        Some(Value::Mark(Mark::Idle | Mark::Clean)) => true,
        _ => false,
    }
}

/// A mark for each edge for which Ninja found nothing to do, as the history leaves it.
///
/// # Errors
/// [`AllocError`] only where an allocation was refused.
pub fn idle_edges(alloc: Global, history: &History) -> Result<Vec<bool>, AllocError> {
    let mut marks = Vec::new(alloc);
    for edge in 0..history.graph().edges() {
        marks.push(is_idle(history, edge))?;
    }
    Ok(marks)
}

/// The targets of the last plan of a history. There are none where the plan is of the default ones.
pub fn last_targets(history: &History) -> &[Name] {
    let mut last: &[Name] = &[];
    for number in history.kept() {
        if let Some(Event::Plan(targets)) = history.event(*number) {
            last = targets.as_slice();
        }
    }
    last
}
