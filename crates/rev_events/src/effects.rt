//! What events do.
ghost use Rattle.std.specs.Prelude.{◌≡◌, ◌<◌, ◌^◌, ◌++◌, ◌∷◌, [], None, false, length, map, IfOk};
ghost use Rattle.std.specs.List.{list_any, range_with_len};
ghost use Rattle.rev_cells.specs.declared.cell.Cell.TheVariants as cell;
ghost use Rattle.rev_cells.specs.declared.mark.Mark.TheVariants as mark;
ghost use Rattle.rev_cells.specs.declared.value.Value.TheVariants as value;
ghost use Rattle.rev_cells.specs.State.{mark_of};
ghost use Rattle.rev_dirty.specs.Inputs.{inputs};
ghost use Rattle.rev_dirty.specs.Reasons.{is_missing, is_rebuilt};
ghost use Rattle.rev_graph.specs.Graph.{build_at, outputs_of};
ghost use Rattle.rev_plan.specs.Plan.{marks_of, plan_refusal};
ghost use Rattle.rev_events.specs.declared.event.Event.TheVariants.{Plan};
ghost use Rattle.rev_events.specs.declared.event.Listing.{Listing as ListingValue};
ghost use Rattle.rev_events.specs.Edge.{Adds, AllFit, listed as listed_by, pass_changes, stored, where_true, write};
ghost use Rattle.rev_events.specs.Kinds.{clean_effect as clean_effect_in, end_effect as end_effect_in, finish_effect as finish_effect_in, pass_effect as pass_effect_in, start_effect as start_effect_in};
ghost use Rattle.rev_events.specs.Machine.{effect as effect_in, refusal, write_marks};
ghost use Rattle.rev_events.specs.Refusal.{HasNoFault};

use crate::edge::{all_outputs, has_rebuilt, lacks_inputs, named, stamp_seen};
use crate::event::{Event, Listing};
use crate::fault::Fault;
use crate::listings::listed;
use crate::words::is_wanted;
use crate::writes::{
    Writes, all_positions, changed_flags, missing_flags, one_write, positions, push_built,
    push_deps, push_freed, push_marks, push_slot, push_stamps, push_write,
};
use rev_cells::{Cell, Cells, Mark, Names, Positions, Value};
use rev_graph::Graph;
use rev_paths::Name;
use rev_plan::{PlanFault, plan};
use std::alloc::{AllocError, Global};

// What a start writes: the edge runs in its job and its slot.
fn start_effect(
    alloc: Global,
    graph: &Graph,
    cells: &Cells,
    edge: u32,
    job: u32,
    slot: Option<u32>,
) -> Result<Writes, AllocError>
    requires { edge < length graph.now.manifest.builds }
    ensures { IfOk result (λ writes.
        Adds [] writes.items (start_effect_in graph.now.manifest edge job slot cells.now.state)) }
{
    let seen = stamp_seen(alloc, graph, cells, edge)?;
    let mut writes = Vec::with_capacity(alloc, 2)?;
    let running = Mark::Running { job, slot, seen };
    push_write(&mut writes, Cell::Mark(edge), Value::Mark(running))?;
    push_write(&mut writes, Cell::Job(job), Value::Job(Some(edge)))?;
    push_slot(&mut writes, graph.pool(edge), slot, Some(edge))?;
    Ok(writes)
}

// The positions of the missing outputs of an edge.
fn missing_positions(
    alloc: Global,
    graph: &Graph,
    cells: &Cells,
    edge: u32,
) -> Result<Vec<u64>, AllocError>
    requires { edge < length graph.now.manifest.builds }
    ensures { IfOk result (λ missing. missing.items
        ≡ where_true (map (is_missing cells.now.state)
        (outputs_of (build_at graph.now.manifest.builds edge)))) }
{
    let outputs = all_outputs(alloc, graph, edge)?;
    let flags = missing_flags(alloc, cells, &outputs)?;
    let missing = positions(alloc, &flags)?;
    Ok(missing)
}

// The positions of all outputs of an edge.
fn output_positions(alloc: Global, graph: &Graph, edge: u32) -> Result<Vec<u64>, AllocError>
    requires { edge < length graph.now.manifest.builds }
    ensures { IfOk result (λ all. all.items
        ≡ range_with_len 0 (length (outputs_of (build_at graph.now.manifest.builds edge)))) }
{
    let outputs = all_outputs(alloc, graph, edge)?;
    let all = all_positions(alloc, outputs.as_slice().len())?;
    Ok(all)
}

// The positions of the outputs that a pass changes: of a phony edge that is wanted and has no input, those that are
// missing; of one with inputs all of them where an input that counts was changed; else none.
fn passed_on(alloc: Global, graph: &Graph, cells: &Cells, edge: u32) -> Result<Vec<u64>, AllocError>
    requires { edge < length graph.now.manifest.builds }
    ensures { IfOk result (λ changed.
        let build = build_at graph.now.manifest.builds edge in let all = inputs cells.now.state
        build in changed.items
        ≡ pass_changes (mark_of cells.now.state edge) all
        (list_any (is_rebuilt graph.now.manifest.builds cells.now.state) all)
        (map (is_missing cells.now.state) (outputs_of build))) }
{
    let wanted = is_wanted(cells, edge);
    if !wanted {
        return Ok(Vec::new(alloc));
    }
    let alone = lacks_inputs(alloc, graph, cells, edge)?;
    if alone {
        let missing = missing_positions(alloc, graph, cells, edge)?;
        return Ok(missing);
    }
    let rebuilt = has_rebuilt(alloc, graph, cells, edge)?;
    if rebuilt {
        let all = output_positions(alloc, graph, edge)?;
        return Ok(all);
    }
    Ok(Vec::new(alloc))
}

// What a pass writes: the edge is done.
#[tactic(auto, unfolding(crate::specs::Kinds::pass_effect))]
fn pass_effect(alloc: Global, graph: &Graph, cells: &Cells, edge: u32) -> Result<Writes, AllocError>
    requires { edge < length graph.now.manifest.builds }
    ensures { IfOk result (λ writes.
        Adds [] writes.items (pass_effect_in graph.now.manifest edge cells.now.state)) }
{
    let changed = passed_on(alloc, graph, cells, edge)?;
    let mut writes = Vec::new(alloc);
    let done = Mark::Done(Positions::new(changed)?);
    push_write(&mut writes, Cell::Mark(edge), Value::Mark(done))?;
    Ok(writes)
}

/// What a finish writes whose command read these paths: the edge is done, and its outputs have their stamps and
/// records.
pub(crate) fn finish_effect(
    alloc: Global,
    graph: &Graph,
    cells: &Cells,
    edge: u32,
    stamps: &[u64],
    paths: Names,
) -> Result<Writes, AllocError>
    requires { edge < length graph.now.manifest.builds }
    ensures { IfOk result (λ writes. (listing : ListingValue) → paths ≡ listed_by listing
        → Adds [] writes.items
        (finish_effect_in graph.now.manifest edge stamps.now listing cells.now.state)) }
{
    let all = all_outputs(alloc, graph, edge)?;
    let outputs = all.as_slice();
    let changes = changed_flags(alloc, graph, cells, edge, outputs, stamps)?;
    let flags = changes.as_slice();
    let changed = positions(alloc, flags)?;
    let done = Positions::new(changed)?;
    let mut writes = Vec::new(alloc);
    push_write(&mut writes, Cell::Mark(edge), Value::Mark(Mark::Done(done)))?;
    push_freed(&mut writes, graph, cells, edge)?;
    push_stamps(&mut writes, outputs, stamps)?;
    push_built(&mut writes, graph, cells, edge, outputs, flags, stamps)?;
    push_deps(&mut writes, graph, edge, outputs, stamps, paths)?;
    Ok(writes)
}

// The paths that the command of an edge read whose finish is accepted.
fn accepted_listing(
    alloc: Global,
    graph: &Graph,
    edge: u32,
    listing: &Listing,
) -> Result<Names, AllocError>
    requires edge { edge < length graph.now.manifest.builds }
    requires listing { HasNoFault (outputs_of (build_at graph.now.manifest.builds edge)) listing.now }
    ensures { IfOk result (λ paths. paths ≡ listed_by listing.now) }
{
    match listed(alloc, graph, edge, listing) {
        Ok(paths) => Ok(paths),
        Err(Fault::Memory) => Err(AllocError),
        Err(Fault::Refused(_)) => unreachable!(),
    }
}

// What ends a command without its success: the edge gets this mark, and its outputs have their stamps.
fn end_effect(
    alloc: Global,
    graph: &Graph,
    cells: &Cells,
    edge: u32,
    stamps: &[u64],
    ended: Mark,
) -> Result<Writes, AllocError>
    requires { edge < length graph.now.manifest.builds }
    ensures { IfOk result (λ writes.
        Adds [] writes.items
        (end_effect_in graph.now.manifest edge stamps.now ended cells.now.state)) }
{
    let paths = all_outputs(alloc, graph, edge)?;
    let outputs = paths.as_slice();
    let mut writes = Vec::new(alloc);
    push_write(&mut writes, Cell::Mark(edge), Value::Mark(ended))?;
    push_freed(&mut writes, graph, cells, edge)?;
    push_stamps(&mut writes, outputs, stamps)?;
    Ok(writes)
}

// The marks of a plan that is not refused.
fn planned(
    alloc: Global,
    graph: &Graph,
    cells: &Cells,
    targets: &[Name],
) -> Result<Vec<Mark>, AllocError>
    requires { plan_refusal graph.now.manifest cells.now.state targets.now ≡ None }
    ensures { IfOk result (λ marks. marks.items ≡ marks_of graph.now.manifest cells.now.state targets.now) }
{
    match plan(alloc, graph, cells, targets) {
        Ok(marks) => Ok(marks),
        Err(PlanFault::Memory) => Err(AllocError),
        Err(_) => unreachable!(),
    }
}

// The mark of each edge, and that the build goes on.
pub(crate) fn marks_written(alloc: Global, marks: &[Mark]) -> Result<Writes, AllocError>
    requires { length marks.now < 2 ^ 32 }
    ensures { IfOk result (λ writes. Adds [] writes.items
        (write_marks (range_with_len 0 (length marks.now)) marks.now ++ write cell.Halted (value.Halted false) ∷ [])) }
{
    let mut writes = Vec::new(alloc);
    push_marks(&mut writes, marks)?;
    push_write(&mut writes, Cell::Halted, Value::Halted(false))?;
    Ok(writes)
}

// What a plan writes.
fn plan_effect(
    alloc: Global,
    graph: &Graph,
    cells: &Cells,
    targets: &[Name],
) -> Result<Writes, AllocError>
    requires { plan_refusal graph.now.manifest cells.now.state targets.now ≡ None }
    ensures { IfOk result (λ writes.
        Adds [] writes.items (effect_in graph.now.manifest cells.now.state (Plan targets.now))) }
{
    // What it promises of every graph is that there are few edges.
    let _edges = graph.edges();
    let marks = planned(alloc, graph, cells, targets)?;
    let writes = marks_written(alloc, &marks)?;
    Ok(writes)
}

// What an event writes that the state accepts.
#[tactic(auto, unfolding(crate::specs::Machine::effect, crate::specs::Kinds::clean_effect))]
fn writes(alloc: Global, graph: &Graph, cells: &Cells, event: &Event) -> Result<Writes, AllocError>
    requires { refusal graph.now.manifest cells.now.jobs cells.now.state event.now ≡ None }
    ensures { IfOk result (λ writes.
        Adds [] writes.items (effect_in graph.now.manifest cells.now.state event.now)) }
{
    match event {
        Event::Plan(targets) => plan_effect(alloc, graph, cells, targets.as_slice()),
        Event::Start { out, job, slot } => match named(graph, out) {
            Some(edge) => start_effect(alloc, graph, cells, edge, *job, *slot),
            None => Ok(Vec::new(alloc)),
        },
        Event::Finish {
            out,
            stamps,
            listing,
        } => match named(graph, out) {
            Some(edge) => {
                let paths = accepted_listing(alloc, graph, edge, listing)?;
                finish_effect(alloc, graph, cells, edge, stamps.as_slice(), paths)
            }
            None => Ok(Vec::new(alloc)),
        },
        Event::Fail { out, stamps } => match named(graph, out) {
            Some(edge) => end_effect(alloc, graph, cells, edge, stamps.as_slice(), Mark::Failed),
            None => Ok(Vec::new(alloc)),
        },
        Event::Abort { out, stamps } => match named(graph, out) {
            Some(edge) => end_effect(alloc, graph, cells, edge, stamps.as_slice(), Mark::Stopped),
            None => Ok(Vec::new(alloc)),
        },
        Event::Clean { out } => match named(graph, out) {
            Some(edge) => one_write(alloc, Cell::Mark(edge), Value::Mark(Mark::Clean)),
            None => Ok(Vec::new(alloc)),
        },
        Event::Pass { out } => match named(graph, out) {
            Some(edge) => pass_effect(alloc, graph, cells, edge),
            None => Ok(Vec::new(alloc)),
        },
        Event::Touch { path, stamp } => one_write(
            alloc,
            Cell::Stamp(path.copy()?),
            Value::Stamp(*stamp),
        ),
        Event::Interrupt => one_write(alloc, Cell::Halted, Value::Halted(true)),
        Event::Resize { pool, depth } => one_write(
            alloc,
            Cell::Depth(*pool),
            Value::Depth(Some(*depth)),
        ),
    }
}

/// The cells that an accepted event writes, each once, with what they then hold, also where that is what they hold
/// already.
///
/// # Errors
/// [`AllocError`] only where an allocation was refused.
pub fn effect(
    alloc: Global,
    graph: &Graph,
    cells: &Cells,
    event: &Event,
) -> Result<Vec<(Cell, Value)>, AllocError>
    requires { refusal graph.now.manifest cells.now.jobs cells.now.state event.now ≡ None }
    // Each value is of the kind that its cell holds, so that it is known also where the cell goes back to its default.
    ensures writes { IfOk result (λ writes. stored writes.items
        ≡ effect_in graph.now.manifest cells.now.state event.now) }
    ensures fit { IfOk result (λ writes. AllFit writes.items) }
{
    writes(alloc, graph, cells, event)
}
