//! The marks of a plan.
ghost use Rattle.std.specs.Prelude.{◌≡◌, ◌<◌, ◌≤◌, ◌^◌, ℕ, List, [], None, not, ◌&&◌, find, map, length, IfOk, IfErr, OnOk, if◌then◌else◌};
ghost use Rattle.std.specs.List.{All, list_any, position, range_with_len};
ghost use Rattle.rev_graph.specs.Graph.{build_at, is_known};
ghost use Rattle.rev_dirty.specs.Inputs.{producers_in, paths_in, deps_record};
ghost use Rattle.rev_dirty.specs.Reasons.{reasons_of};
ghost use Rattle.rev_cells.specs.State.{State};
ghost use Rattle.rev_cells.specs.declared.mark.Mark.TheVariants as mark;
ghost use Rattle.rev_ranks.specs.Graph.{graph_of, Reaches};
ghost use Rattle.rev_plan.specs.Fault.{Explains, NamesCycle};
ghost use Rattle.rev_plan.specs.Plan.{edge_numbers, edges_by, input_paths, is_dirty, is_own_reason, is_running as is_running_in, mark_for, marks_of, needs_refusal, plan_refusal, targets_or};
ghost use Rattle.rev_plan.specs.Steps.{AreDirty, AreListed, AreReached, IsSubgraph, mark_by};

use crate::fault::PlanFault;
use crate::lacking::missing_input_among;
use crate::steps::{Along, listed_among, producers_of, steps_among};
use rev_cells::{Cell, Cells, Mark, Value};
use rev_dirty::{DependencyScan, Reason};
use rev_graph::Graph;
use rev_paths::Name;
use rev_ranks::{RankFault, leading_to, ranks, reachable_from};
use std::alloc::{AllocError, Global};

// Whether the command of an edge runs.
fn is_running(cells: &Cells, edge: u32) -> bool
    ensures { result ≡ is_running_in cells.now.state edge }
{
    match cells.get(&Cell::Mark(edge)) {
        Some(Value::Mark(Mark::Running { .. })) => true,
        _ => false,
    }
}

// The least edge whose command runs.
fn first_running(graph: &Graph, cells: &Cells) -> Option<u32>
    ensures { result ≡ find (is_running_in cells.now.state) (edge_numbers graph.now.manifest.builds) }
{
    for edge in 0..graph.edges() {
        if is_running(cells, edge) {
            return Some(edge);
        }
    }
    None
}

// The targets, or the graph's defaults where none is named.
fn targets_or_defaults<'a>(graph: &'a Graph, targets: &'a [Name]) -> &'a [Name]
    ensures { result.now ≡ targets_or graph.now.manifest.defaults targets.now }
{
    if targets.is_empty() {
        graph.defaults()
    } else {
        targets
    }
}

// The position of the first target that stands on no build line.
fn first_unknown(graph: &Graph, targets: &[Name]) -> Option<usize>
    ensures { result ≡ position (λ path. not (is_known graph.now.manifest.builds path)) targets.now }
{
    targets.iter().position(|target| !graph.known(target))
}

// Whether an edge has a reason that its producers did not give it.
fn has_own_reason(reasons: &[Reason]) -> bool
    ensures { result ≡ list_any is_own_reason reasons.now }
{
    reasons.iter().any(|reason| reason.kind() != 4)
}

// The reasons of an edge, where `listed` produce what its deps record lists.
fn reasons_by(
    scan: &mut DependencyScan,
    edge: u32,
    listed: &[u32],
) -> Result<Vec<Reason>, AllocError>
    requires edge { edge < length scan.old.graph.manifest.builds }
    requires listed { listed.now ≡ producers_in scan.old.graph.manifest.builds
        (paths_in (deps_record scan.old.state (build_at scan.old.graph.manifest.builds edge))) }
    ensures reasons { IfOk result (λ reasons. reasons.items
        ≡ reasons_of scan.old.graph.manifest.builds scan.old.state edge) }
    ensures same { scan.new ≡ scan.old }
{
    if listed.is_empty() {
        return scan.reasons_over_sources(edge);
    }
    scan.reasons(edge)
}

// Whether an edge that has a mark has a reason of its own, where `listed` produce what its deps record lists.
fn is_dirty_where(
    scan: &mut DependencyScan,
    edge: u32,
    listed: &[u32],
    is_marked: bool,
) -> Result<bool, AllocError>
    requires edge { edge < length scan.old.graph.manifest.builds }
    requires listed { listed.now ≡ producers_in scan.old.graph.manifest.builds
        (paths_in (deps_record scan.old.state (build_at scan.old.graph.manifest.builds edge))) }
    ensures dirty { IfOk result (λ dirty. dirty
        ≡ (is_marked && is_dirty scan.old.graph.manifest.builds scan.old.state edge)) }
    ensures same { scan.new ≡ scan.old }
{
    if !is_marked {
        return Ok(false);
    }
    if scan.lacks_first_output(edge) {
        return Ok(true);
    }
    let reasons = reasons_by(scan, edge, listed)?;
    Ok(has_own_reason(&reasons))
}

// Adds for each edge whether it has a mark and a reason of its own, where `listed` produce what deps records list.
fn push_dirty(
    scan: &mut DependencyScan<'_>,
    listed: &[Vec<u32>],
    marks: &[bool],
    dirty: &mut Vec<bool>,
) -> Result<(), AllocError>
    requires listed { AreListed scan.old.graph.manifest.builds scan.old.state (graph_of listed.now) }
    requires each_listed { length listed.now ≡ length scan.old.graph.manifest.builds }
    requires each { length marks.now ≡ length scan.old.graph.manifest.builds }
    requires few { length scan.old.graph.manifest.builds ≤ Graph.MAX_EDGES }
    requires none { dirty.old.items ≡ [] }
    ensures { OnOk result (AreDirty scan.old.graph.manifest.builds scan.old.state marks.now dirty.new.items) }
{
    for edge in 0..marks.len() {
        dirty.push(is_dirty_where(scan, edge as u32, &listed[edge], marks[edge])?)?;
    }
    Ok(())
}

// The edges that have a mark and a reason of their own, where `listed` produce what deps records list. Each is asked
// for its reasons once.
fn dirty_among(
    alloc: Global,
    graph: &Graph,
    cells: &Cells,
    listed: &[Vec<u32>],
    marks: &[bool],
) -> Result<Vec<bool>, AllocError>
    requires listed { AreListed graph.now.manifest.builds cells.now.state (graph_of listed.now) }
    requires each_listed { length listed.now ≡ length graph.now.manifest.builds }
    requires each { length marks.now ≡ length graph.now.manifest.builds }
    requires few { length graph.now.manifest.builds ≤ Graph.MAX_EDGES }
    ensures { IfOk result (λ dirty.
        AreDirty graph.now.manifest.builds cells.now.state marks.now dirty.items) }
{
    let mut dirty = Vec::with_capacity(alloc, marks.len())?;
    let mut scan = DependencyScan::new(alloc, graph, cells);
    push_dirty(&mut scan, listed, marks, &mut dirty)?;
    Ok(dirty)
}

// The mark of an edge that is wanted, or waits for one that is, or neither.
fn mark_of(is_wanted: bool, is_waiting: bool) -> Mark
    ensures { result ≡ (if is_wanted then mark.Wanted else if is_waiting then mark.Through else mark.Idle) }
{
    match (is_wanted, is_waiting) {
        (true, _) => Mark::Wanted,
        (false, true) => Mark::Through,
        (false, false) => Mark::Idle,
    }
}

// The marks of edges of which some are wanted, and some wait for these.
fn marks_by(alloc: Global, wanted: &[bool], waiting: &[bool]) -> Result<Vec<Mark>, AllocError>
    requires { length waiting.now ≡ length wanted.now }
    ensures { IfOk result (λ marks. marks.items
        ≡ map (mark_by wanted.now waiting.now) (range_with_len 0 (length wanted.now))) }
{
    let mut marks = Vec::with_capacity(alloc, wanted.len())?;
    for edge in 0..wanted.len() {
        marks.push(mark_of(wanted[edge], waiting[edge]))?;
    }
    Ok(marks)
}

// The edges that are one of the roots or that these need, where `listed` produce what deps records list.
fn reached_from(
    alloc: Global,
    graph: &Graph,
    listed: &[Vec<u32>],
    roots: &[u32],
) -> Result<Vec<bool>, AllocError>
    requires nodes { All (λ edge. edge < length graph.now.manifest.builds) roots.now }
    requires listed { length listed.now ≡ length graph.now.manifest.builds }
    requires known { (state : State) × AreListed graph.now.manifest.builds state (graph_of listed.now) }
    requires few { length graph.now.manifest.builds ≤ Graph.MAX_EDGES }
    ensures { IfOk result (λ reached. (state : State)
        → AreListed graph.now.manifest.builds state (graph_of listed.now)
        → AreReached graph.now.manifest.builds state roots.now reached.items) }
{
    let all = vec![in alloc; true; graph.edges() as usize]?;
    let needs = steps_among(alloc, graph, listed, &all, Along::Needs)?;
    let reached = reachable_from(alloc, &needs, roots)?;
    Ok(reached)
}

// Names the least edge that reaches itself, if one does.
fn refuse_cycle(alloc: Global, steps: &[Vec<u32>]) -> Result<(), PlanFault>
    requires inside { All (λ v. All (λ s. s < length steps.now) v.items) steps.now }
    requires small { length steps.now < 2 ^ 32 }
    ensures acyclic { OnOk result ((edge : ℕ) → Reaches (graph_of steps.now) edge edge → ⊥) }
    ensures cycle { IfErr result (λ fault. NamesCycle fault (graph_of steps.now)) }
{
    match ranks(alloc, steps) {
        Ok(_) => Ok(()),
        Err(RankFault::Memory) => Err(PlanFault::Memory),
        Err(RankFault::Cycle(edge)) => Err(PlanFault::DepsCycle(edge)),
    }
}

// The marks of edges, by which are reached, and by the steps from these to what produces their inputs.
fn marks_among(
    alloc: Global,
    graph: &Graph,
    cells: &Cells,
    listed: &[Vec<u32>],
    reached: &[bool],
    inputs: &[Vec<u32>],
) -> Result<Vec<Mark>, AllocError>
    requires listed { AreListed graph.now.manifest.builds cells.now.state (graph_of listed.now) }
    requires each_listed { length listed.now ≡ length graph.now.manifest.builds }
    requires each_reached { length reached.now ≡ length graph.now.manifest.builds }
    requires inside { All (λ v. All (λ s. s < length graph.now.manifest.builds) v.items) inputs.now }
    requires each { length inputs.now ≡ length graph.now.manifest.builds }
    requires few { length graph.now.manifest.builds ≤ Graph.MAX_EDGES }
    // The marks are those of each plan that reaches these edges.
    ensures { IfOk result (λ marks. (roots : List ℕ)
        → AreReached graph.now.manifest.builds cells.now.state roots reached.now
        → IsSubgraph (edges_by (input_paths cells.now.state) graph.now.manifest.builds)
        reached.now (graph_of inputs.now)
        → marks.items ≡ map (mark_for graph.now.manifest.builds cells.now.state roots)
        (edge_numbers graph.now.manifest.builds)) }
{
    let dirty = dirty_among(alloc, graph, cells, listed, reached)?;
    let counted = steps_among(alloc, graph, listed, reached, Along::Counted)?;
    let wanted = leading_to(alloc, &counted, &dirty)?;
    let waiting = leading_to(alloc, inputs, &wanted)?;
    let marks = marks_by(alloc, &wanted, &waiting)?;
    Ok(marks)
}

// The marks of a plan for the edges that produce its targets.
fn plan_for(
    alloc: Global,
    graph: &Graph,
    cells: &Cells,
    roots: &[u32],
) -> Result<Vec<Mark>, PlanFault>
    requires nodes { All (λ edge. edge < length graph.now.manifest.builds) roots.now }
    requires few { length graph.now.manifest.builds ≤ Graph.MAX_EDGES }
    ensures marks { IfOk result (λ marks. marks.items
        ≡ map (mark_for graph.now.manifest.builds cells.now.state roots.now)
        (edge_numbers graph.now.manifest.builds)) }
    ensures accepted { OnOk result (needs_refusal graph.now.manifest.builds cells.now.state roots.now ≡ None) }
    ensures refused { IfErr result (λ fault.
        Explains fault (needs_refusal graph.now.manifest.builds cells.now.state roots.now)) }
{
    let lists = listed_among(alloc, graph, cells)?;
    let listed = lists.as_slice();
    let reached = reached_from(alloc, graph, listed, roots)?;
    if let Some((position, edge)) = missing_input_among(graph, cells, &reached) {
        return Err(PlanFault::MissingInput(position, edge));
    }
    let inputs = steps_among(alloc, graph, listed, &reached, Along::Inputs)?;
    refuse_cycle(alloc, &inputs)?;
    let marks = marks_among(alloc, graph, cells, listed, &reached, &inputs)?;
    Ok(marks)
}

/// A mark for each edge: `Wanted` where its command is to be run, `Through` where it only waits for such an edge, and
/// `Idle`. Where no target is named the graph's defaults are the targets.
///
/// The edges that produce the targets are reached, and those that produce an input or a validation of a reached edge
/// (Ninja manual, validations). A reached edge is wanted where it is dirty, and where an input that is not order-only
/// is produced by a wanted edge. An edge that only has to wait for such an edge is a way through.
///
/// It takes time linear in edges, inputs and deps records, up to hashing: each reached edge is asked for its reasons
/// once.
///
/// # Errors
/// The first of: [`PlanFault::StillRunning`], [`PlanFault::UnknownTarget`], [`PlanFault::MissingInput`],
/// [`PlanFault::DepsCycle`]. [`PlanFault::Memory`] only where an allocation was refused.
pub fn plan(
    alloc: Global,
    graph: &Graph,
    cells: &Cells,
    targets: &[Name],
) -> Result<Vec<Mark>, PlanFault>
    ensures marks { IfOk result (λ marks. marks.items ≡ marks_of graph.now.manifest cells.now.state targets.now) }
    ensures accepted { OnOk result (plan_refusal graph.now.manifest cells.now.state targets.now ≡ None) }
    ensures refused { IfErr result (λ fault.
        Explains fault (plan_refusal graph.now.manifest cells.now.state targets.now)) }
{
    let targets = targets_or_defaults(graph, targets);
    if let Some(edge) = first_running(graph, cells) {
        return Err(PlanFault::StillRunning(edge));
    }
    if let Some(position) = first_unknown(graph, targets) {
        return Err(PlanFault::UnknownTarget(position as u64));
    }
    let _edges = graph.edges();
    let roots = producers_of(alloc, graph, targets)?;
    plan_for(alloc, graph, cells, &roots)
}
