//! Why an edge runs, or ran.
ghost use Rattle.std.specs.Prelude.{◌≡◌, ◌++◌, ◌<◌, length, map, option_and_then, slice_get, IfOk, IfSome, OnOk};
ghost use Rattle.std.specs.Option.{option_copied};
ghost use Rattle.rev_prompt.specs.Answers.{IsWhy};
ghost use Rattle.rev_prompt.specs.Past.{IsOpeningOf, IsPlanned, state_then};
ghost use Rattle.rev_prompt.specs.Reasons.{IsWay, because as because_of, input_in as input_of, input_path, output_in as output_of, output_path, wait_of as wait_of_step};
ghost use Rattle.rev_runs.specs.Runs.{runs_of};

use crate::answers::{Answer, Because, Wait, Way};
use crate::past::{Planned, plan_of, state_after};
use crate::spans::last_of;
use rev_cells::{Cells, Opening};
use rev_dirty::{Reason, listed_inputs};
use rev_graph::Graph;
use rev_history::History;
use rev_paths::Name;
use rev_plan::why as chain_of;
use rev_runs::{Run, runs};
use std::alloc::{AllocError, Global};

// What stands at a position of two slices, one behind the other.
fn of_two<'a>(first: &'a [Name], second: &'a [Name], position: u64) -> Option<&'a Name>
    ensures { option_copied result ≡ slice_get (first.entry.now ++ second.entry.now) position }
{
    let position = position as usize;
    if position < first.len() {
        return first.get(position);
    }
    second.get(position - first.len())
}

// The output of an edge at a position.
fn output_at(graph: &Graph, edge: u32, position: u64) -> Option<&Name>
    ensures { option_copied result ≡ output_path graph.now.manifest.builds edge position }
{
    if edge >= graph.edges() {
        return None;
    }
    let outputs = graph.outputs(edge);
    of_two(outputs.explicit, outputs.implicit, position)
}

/// The input of an edge at a position: of the explicit, implicit and order-only ones, and then of those that its deps
/// record lists in a state.
pub fn input_at<'a>(
    graph: &'a Graph,
    cells: &'a Cells,
    edge: u32,
    position: u64,
) -> Option<&'a Name>
    ensures { option_copied result ≡ input_path graph.entry.now.manifest.builds cells.entry.now.state edge position }
{
    if edge >= graph.edges() {
        return None;
    }
    let inputs = graph.inputs(edge);
    let listed = listed_inputs(graph, cells, edge);
    let on_line = inputs.explicit.len() as u64 + inputs.implicit.len() as u64;
    if position < on_line {
        return of_two(inputs.explicit, inputs.implicit, position);
    }
    of_two(inputs.order_only, listed, position - on_line)
}

// The position of the output that a reason names.
fn output_in(reason: Reason) -> Option<u64>
    ensures { result ≡ output_of reason }
{
    match reason {
        Reason::Missing(output) => Some(output),
        Reason::NoRecord(output) => Some(output),
        Reason::Command(output) => Some(output),
        Reason::Older(output, _) => Some(output),
        Reason::NoDeps => None,
        Reason::DepsOld => None,
        Reason::Rebuilt(_) => None,
        Reason::MissingDep(_) => None,
    }
}

// The position of the input that a reason names.
fn input_in(reason: Reason) -> Option<u64>
    ensures { result ≡ input_of reason }
{
    match reason {
        Reason::Rebuilt(input) => Some(input),
        Reason::MissingDep(input) => Some(input),
        Reason::Older(_, input) => Some(input),
        Reason::Missing(_) => None,
        Reason::NoRecord(_) => None,
        Reason::Command(_) => None,
        Reason::NoDeps => None,
        Reason::DepsOld => None,
    }
}

// An equal name, where there is one.
fn copied(name: Option<&Name>) -> Result<Option<Name>, AllocError>
    ensures { IfOk result (λ copy. copy ≡ option_copied name.entry) }
{
    match name {
        Some(name) => Ok(Some(name.copy()?)),
        None => Ok(None),
    }
}

// The output of an edge that a reason names.
fn output_named(graph: &Graph, edge: u32, reason: Reason) -> Option<&Name>
    ensures { option_copied result ≡ option_and_then (output_path graph.now.manifest.builds edge) (output_of reason) }
{
    match output_in(reason) {
        Some(position) => output_at(graph, edge, position),
        None => None,
    }
}

// The input of an edge that a reason names.
fn input_named<'a>(
    graph: &'a Graph,
    cells: &'a Cells,
    edge: u32,
    reason: Reason,
) -> Option<&'a Name>
    ensures { option_copied result
        ≡ option_and_then (input_path graph.entry.now.manifest.builds cells.entry.now.state edge) (input_of reason) }
{
    match input_in(reason) {
        Some(position) => input_at(graph, cells, edge, position),
        None => None,
    }
}

/// A reason of an edge, with what it names.
pub(crate) fn because(
    graph: &Graph,
    cells: &Cells,
    edge: u32,
    reason: Reason,
) -> Result<Because, AllocError>
    ensures { IfOk result (λ told. told ≡ because_of graph.now.manifest.builds cells.now.state edge reason) }
{
    let output = copied(output_named(graph, edge, reason))?;
    let input = copied(input_named(graph, cells, edge, reason))?;
    Ok(Because {
        reason,
        output,
        input,
    })
}

// A step of a chain, with the input by which it goes on.
fn wait_of(graph: &Graph, cells: &Cells, step: (u32, u64)) -> Result<Wait, AllocError>
    ensures { IfOk result (λ wait. wait ≡ wait_of_step graph.now.manifest.builds cells.now.state step) }
{
    let (edge, position) = step;
    let input = copied(input_at(graph, cells, edge, position))?;
    Ok(Wait { edge, input })
}

// The steps of a chain.
fn waits(
    alloc: Global,
    graph: &Graph,
    cells: &Cells,
    steps: &[(u32, u64)],
) -> Result<Vec<Wait>, AllocError>
    ensures { IfOk result (λ waits. waits.items
        ≡ map (wait_of_step graph.now.manifest.builds cells.now.state) steps.now) }
{
    let mut waits = Vec::new(alloc);
    for step in steps {
        waits.push(wait_of(graph, cells, *step)?)?;
    }
    Ok(waits)
}

// The reasons of an edge.
fn reasons_told(
    alloc: Global,
    graph: &Graph,
    cells: &Cells,
    edge: u32,
    reasons: &[Reason],
) -> Result<Vec<Because>, AllocError>
    ensures { IfOk result (λ told. told.items
        ≡ map (because_of graph.now.manifest.builds cells.now.state edge) reasons.now) }
{
    let mut told = Vec::new(alloc);
    for reason in reasons {
        told.push(because(graph, cells, edge, *reason)?)?;
    }
    Ok(told)
}

// The way from an edge to its reasons, in a state.
fn way_of(alloc: Global, graph: &Graph, cells: &Cells, edge: u32) -> Result<Way, AllocError>
    requires { edge < length graph.now.manifest.builds }
    ensures { IfOk result (λ way. IsWay graph.now.manifest.builds cells.now.state edge way) }
{
    let chain = chain_of(alloc, graph, cells, edge)?;
    let steps = waits(alloc, graph, cells, &chain.steps)?;
    let reasons = reasons_told(alloc, graph, cells, chain.last, &chain.reasons)?;
    Ok(Way {
        steps,
        last: chain.last,
        reasons,
    })
}

// The way from an edge to its reasons in the state after a plan, or in the present one. The state after a plan is kept for
// the next way.
fn way_then(
    alloc: Global,
    history: &History,
    opening: &Opening,
    edge: u32,
    plan: Option<u32>,
    kept: &mut Option<Planned>,
) -> Result<Way, AllocError>
    requires edge { edge < length history.now.timeline.manifest.builds }
    requires kept { IsOpeningOf history.now.timeline opening.now → IfSome kept.old (IsPlanned history.now.timeline) }
    ensures way { IsOpeningOf history.now.timeline opening.now → IfOk result (λ way.
        IsWay history.now.timeline.manifest.builds (state_then history.now.timeline plan) edge way) }
    ensures kept { OnOk result (IsOpeningOf history.now.timeline opening.now
        → IfSome kept.new (IsPlanned history.now.timeline)) }
{
    let Some(plan) = plan else {
        return way_of(alloc, history.graph(), history.cells(), edge);
    };
    let then = state_after(alloc, history, opening, plan, kept.take())?;
    let way = way_of(alloc, history.graph(), &then.cells, edge)?;
    *kept = Some(then);
    Ok(way)
}

/// As [`why`], by the runs of the history, for one output after the other: the state after a plan is kept for the next
/// one.
pub(crate) fn why_by(
    alloc: Global,
    history: &History,
    opening: &Opening,
    out: &Name,
    runs: &[Run],
    kept: &mut Option<Planned>,
) -> Result<Answer, AllocError>
    requires runs { runs.now ≡ runs_of history.now.timeline }
    requires kept { IsOpeningOf history.now.timeline opening.now → IfSome kept.old (IsPlanned history.now.timeline) }
    ensures answer { IsOpeningOf history.now.timeline opening.now
        → IfOk result (λ answer. IsWhy history.now.timeline out.now answer) }
    ensures kept { OnOk result (IsOpeningOf history.now.timeline opening.now
        → IfSome kept.new (IsPlanned history.now.timeline)) }
{
    let Some(edge) = history.graph().producer(out) else {
        return Ok(Answer::NoOutput(out.copy()?));
    };
    let run = last_of(runs, edge);
    let plan = plan_of(history, edge, run);
    let way = way_then(alloc, history, opening, edge, plan, kept)?;
    Ok(Answer::Why(out.copy()?, run, plan, way))
}

/// `why OUT`: why an edge is to run, where the present plan wants it, or else why it ran last, by its reasons at the
/// plan. The opening is that of the history.
pub(crate) fn why(
    alloc: Global,
    history: &History,
    opening: &Opening,
    out: &Name,
) -> Result<Answer, AllocError>
    ensures { IsOpeningOf history.now.timeline opening.now
        → IfOk result (λ answer. IsWhy history.now.timeline out.now answer) }
{
    let runs = runs(alloc, history)?;
    let mut kept = None;
    why_by(alloc, history, opening, out, &runs, &mut kept)
}
