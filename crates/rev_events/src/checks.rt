//! When events are refused.
ghost use Rattle.std.specs.Prelude.{◌≡◌, ◌<◌, ◌==◌, length, IsTrue, Some, None, IfOk, OnOk, IsErrOf};
ghost use Rattle.rev_cells.specs.State.{is_halted as is_halted_in};
ghost use Rattle.rev_dirty.specs.Reasons.{reasons_of};
ghost use Rattle.rev_graph.specs.Graph.{build_at, outputs_of, pool_of};
ghost use Rattle.rev_events.specs.declared.refusal.Refusal.{Refusal};
ghost use Rattle.rev_events.specs.Edge.{listed as listed_by, slot_holder as slot_holder_in};
ghost use Rattle.rev_events.specs.Kinds.{abort_refusal as abort_refusal_in, clean_refusal as clean_refusal_in, fail_refusal as fail_refusal_in, finish_refusal as finish_refusal_in, pass_refusal as pass_refusal_in, start_refusal as start_refusal_in};
ghost use Rattle.rev_events.specs.Machine.{refusal as refusal_in};
ghost use Rattle.rev_events.specs.Refusal.{already_halted, of_plan as of_plan_in, pool_slot as pool_slot_in, unexpected_listing as unexpected_listing_in, wrong_outputs as wrong_outputs_in};
ghost use Rattle.rev_events.specs.Pools.{present_pool as present_pool_in};
ghost use Rattle.rev_plan.specs.Plan.{plan_refusal as plan_refusal_in};
ghost use Rattle.std.specs.Option.{option_map};

use crate::edge::{all_outputs, blocking_input, named};
use crate::event::{Event, Listing};
use crate::fault::{Fault, of_plan};
use crate::listings::listed;
use crate::pools::{present_pool, resize_refusal};
use crate::refusal::Refusal;
use crate::words::{is_halted, is_through, is_wanted, job_holder, running, slot_holder};
use rev_cells::{Cells, Names};
use rev_dirty::{DependencyScan, reasons};
use rev_graph::Graph;
use rev_paths::Name;
use rev_plan::plan;
use std::alloc::{AllocError, Global};

// Whether a slot is named wrongly: where the edge has no pool with slots, or none is named where it has one, or one is
// that is not below the pool's present depth.
fn pool_slot(graph: &Graph, cells: &Cells, edge: u32, slot: Option<u32>) -> Option<Refusal>
    requires { edge < length graph.now.manifest.builds }
    ensures { result ≡ pool_slot_in (present_pool_in graph.now.manifest cells.now.state edge) slot }
{
    match (present_pool(graph, cells, edge), slot) {
        (None, None) => None,
        (Some((_, depth)), Some(slot)) => {
            if slot < depth {
                None
            } else {
                Some(Refusal::PoolSlot)
            }
        }
        _ => Some(Refusal::PoolSlot),
    }
}

// The edge that has the slot.
fn holder_of(graph: &Graph, cells: &Cells, edge: u32, slot: Option<u32>) -> Option<u32>
    requires { edge < length graph.now.manifest.builds }
    ensures { result ≡ slot_holder_in cells.now.state (pool_of graph.now.manifest edge) slot }
{
    match (graph.pool(edge), slot) {
        (Some((pool, _)), Some(slot)) => slot_holder(cells, pool, slot),
        _ => None,
    }
}

// Whether an edge has no reason to run. Where its first output is missing its inputs are not looked at.
fn is_clean(alloc: Global, graph: &Graph, cells: &Cells, edge: u32) -> Result<bool, AllocError>
    requires { edge < length graph.now.manifest.builds }
    ensures { IfOk result (λ clean. clean
        ≡ (length (reasons_of graph.now.manifest.builds cells.now.state edge) == 0)) }
{
    let mut scan = DependencyScan::new(alloc, graph, cells);
    if scan.lacks_first_output(edge) {
        return Ok(false);
    }
    let reasons = scan.reasons(edge)?;
    Ok(reasons.is_empty())
}

// Why a start is refused.
#[tactic(auto, unfolding(crate::specs::Kinds::start_refusal))]
fn start_refusal(
    alloc: Global,
    graph: &Graph,
    cells: &Cells,
    edge: u32,
    job: u32,
    slot: Option<u32>,
) -> Result<Option<Refusal>, AllocError>
    requires { edge < length graph.now.manifest.builds }
    ensures { IfOk result (λ refusal. refusal
        ≡ start_refusal_in graph.now.manifest cells.now.jobs edge job slot cells.now.state) }
{
    if graph.is_phony(edge) {
        return Ok(Some(Refusal::Phony));
    }
    if is_halted(cells) {
        return Ok(Some(Refusal::Halted));
    }
    if !is_wanted(cells, edge) {
        return Ok(Some(Refusal::NotWanted));
    }
    if let Some(at) = blocking_input(alloc, graph, cells, edge)? {
        return Ok(Some(Refusal::Blocked(at)));
    }
    if is_clean(alloc, graph, cells, edge)? {
        return Ok(Some(Refusal::NotDirty));
    }
    if job >= cells.jobs() {
        return Ok(Some(Refusal::NoSuchJob));
    }
    if let Some(other) = job_holder(cells, job) {
        return Ok(Some(Refusal::JobBusy(other)));
    }
    if let Some(refusal) = pool_slot(graph, cells, edge, slot) {
        return Ok(Some(refusal));
    }
    match holder_of(graph, cells, edge, slot) {
        Some(other) => Ok(Some(Refusal::SlotBusy(other))),
        None => Ok(None),
    }
}

// Why a clean is refused.
#[tactic(auto, unfolding(crate::specs::Kinds::clean_refusal))]
fn clean_refusal(
    alloc: Global,
    graph: &Graph,
    cells: &Cells,
    edge: u32,
) -> Result<Option<Refusal>, AllocError>
    requires { edge < length graph.now.manifest.builds }
    ensures { IfOk result (λ refusal. refusal ≡ clean_refusal_in graph.now.manifest edge cells.now.state) }
{
    if graph.is_phony(edge) {
        return Ok(Some(Refusal::Phony));
    }
    if !is_wanted(cells, edge) {
        return Ok(Some(Refusal::NotWanted));
    }
    if let Some(at) = blocking_input(alloc, graph, cells, edge)? {
        return Ok(Some(Refusal::Blocked(at)));
    }
    match reasons(alloc, graph, cells, edge)?.first() {
        Some(reason) => Ok(Some(Refusal::Dirty(reason.kind()))),
        None => Ok(None),
    }
}

// Why a pass is refused.
#[tactic(auto, unfolding(crate::specs::Kinds::pass_refusal))]
fn pass_refusal(
    alloc: Global,
    graph: &Graph,
    cells: &Cells,
    edge: u32,
) -> Result<Option<Refusal>, AllocError>
    requires { edge < length graph.now.manifest.builds }
    ensures { IfOk result (λ refusal. refusal ≡ pass_refusal_in graph.now.manifest edge cells.now.state) }
{
    if is_wanted(cells, edge) {
        if !graph.is_phony(edge) {
            return Ok(Some(Refusal::NotPhony));
        }
    } else if !is_through(cells, edge) {
        return Ok(Some(Refusal::NotWanted));
    }
    match blocking_input(alloc, graph, cells, edge)? {
        Some(at) => Ok(Some(Refusal::Blocked(at))),
        None => Ok(None),
    }
}

// Whether there is one stamp for each output.
fn are_one_each(graph: &Graph, edge: u32, stamps: &[u64]) -> bool
    requires { edge < length graph.now.manifest.builds }
    ensures { result ≡ (length stamps.now
        == length (outputs_of (build_at graph.now.manifest.builds edge))) }
{
    let outputs = graph.outputs(edge);
    match stamps.len().checked_sub(outputs.explicit.len()) {
        Some(others) => others == outputs.implicit.len(),
        None => false,
    }
}

// Whether there is not one stamp for each output.
fn wrong_outputs(
    alloc: Global,
    graph: &Graph,
    edge: u32,
    stamps: &[u64],
) -> Result<Option<Refusal>, AllocError>
    requires { edge < length graph.now.manifest.builds }
    ensures { IfOk result (λ refusal. refusal
        ≡ wrong_outputs_in (build_at graph.now.manifest.builds edge) stamps.now) }
{
    if are_one_each(graph, edge, stamps) {
        return Ok(None);
    }
    let count = all_outputs(alloc, graph, edge)?.len();
    Ok(Some(Refusal::WrongOutputs(count as u64)))
}

// Whether files are listed that the edge keeps no list of.
fn unexpected_listing(graph: &Graph, edge: u32, listing: &Listing) -> Option<Refusal>
    requires { edge < length graph.now.manifest.builds }
    ensures { result ≡ unexpected_listing_in (build_at graph.now.manifest.builds edge) listing.now }
{
    match listing {
        Listing::Nothing => None,
        Listing::Depfile(_) | Listing::Paths(_) => {
            if graph.keeps_deps(edge) {
                None
            } else {
                Some(Refusal::UnexpectedDepfile)
            }
        }
    }
}

/// The paths that the command of an edge read whose finish is not refused, as `listed` gives them.
///
/// # Errors
/// [`Fault::Refused`] with why the finish is refused, [`Fault::Memory`].
#[tactic(auto, unfolding(crate::specs::Kinds::finish_refusal))]
pub(crate) fn finish_listing(
    alloc: Global,
    graph: &Graph,
    cells: &Cells,
    edge: u32,
    stamps: &[u64],
    listing: &Listing,
) -> Result<Names, Fault>
    requires { edge < length graph.now.manifest.builds }
    ensures paths { IfOk result (λ paths. paths ≡ listed_by listing.now) }
    ensures accepted { OnOk result
        (finish_refusal_in graph.now.manifest edge stamps.now listing.now cells.now.state ≡ None) }
    ensures refused { (r : Refusal) → IsErrOf result (Fault.Refused r)
        → finish_refusal_in graph.now.manifest edge stamps.now listing.now cells.now.state ≡ Some r }
{
    if graph.is_phony(edge) {
        return Err(Fault::Refused(Refusal::Phony));
    }
    if running(cells, edge).is_none() {
        return Err(Fault::Refused(Refusal::NotRunning));
    }
    if let Some(refusal) = wrong_outputs(alloc, graph, edge, stamps)? {
        return Err(Fault::Refused(refusal));
    }
    if let Some(refusal) = unexpected_listing(graph, edge, listing) {
        return Err(Fault::Refused(refusal));
    }
    listed(alloc, graph, edge, listing)
}

// Why a finish is refused.
fn finish_refusal(
    alloc: Global,
    graph: &Graph,
    cells: &Cells,
    edge: u32,
    stamps: &[u64],
    listing: &Listing,
) -> Result<Option<Refusal>, AllocError>
    requires { edge < length graph.now.manifest.builds }
    ensures { IfOk result (λ refusal. refusal
        ≡ finish_refusal_in graph.now.manifest edge stamps.now listing.now cells.now.state) }
{
    match finish_listing(alloc, graph, cells, edge, stamps, listing) {
        Ok(_) => Ok(None),
        Err(Fault::Memory) => Err(AllocError),
        Err(Fault::Refused(refusal)) => Ok(Some(refusal)),
    }
}

// Why a fail is refused.
#[tactic(auto, unfolding(crate::specs::Kinds::fail_refusal))]
fn fail_refusal(
    alloc: Global,
    graph: &Graph,
    cells: &Cells,
    edge: u32,
    stamps: &[u64],
) -> Result<Option<Refusal>, AllocError>
    requires { edge < length graph.now.manifest.builds }
    ensures { IfOk result (λ refusal. refusal
        ≡ fail_refusal_in graph.now.manifest edge stamps.now cells.now.state) }
{
    if graph.is_phony(edge) {
        return Ok(Some(Refusal::Phony));
    }
    if running(cells, edge).is_none() {
        return Ok(Some(Refusal::NotRunning));
    }
    wrong_outputs(alloc, graph, edge, stamps)
}

// Why an abort is refused.
#[tactic(auto, unfolding(crate::specs::Kinds::abort_refusal))]
fn abort_refusal(
    alloc: Global,
    graph: &Graph,
    cells: &Cells,
    edge: u32,
    stamps: &[u64],
) -> Result<Option<Refusal>, AllocError>
    requires { edge < length graph.now.manifest.builds }
    ensures { IfOk result (λ refusal. refusal
        ≡ abort_refusal_in graph.now.manifest edge stamps.now cells.now.state) }
{
    if graph.is_phony(edge) {
        return Ok(Some(Refusal::Phony));
    }
    if !is_halted(cells) {
        return Ok(Some(Refusal::NotHalted));
    }
    if running(cells, edge).is_none() {
        return Ok(Some(Refusal::NotRunning));
    }
    wrong_outputs(alloc, graph, edge, stamps)
}

// Why an interrupt is refused.
fn interrupt_refusal(cells: &Cells) -> Option<Refusal>
    ensures { result ≡ already_halted (is_halted_in cells.now.state) }
{
    if is_halted(cells) {
        return Some(Refusal::AlreadyHalted);
    }
    None
}

// Why a plan is refused.
fn plan_refusal(
    alloc: Global,
    graph: &Graph,
    cells: &Cells,
    targets: &[Name],
) -> Result<Option<Refusal>, AllocError>
    ensures { IfOk result (λ refusal. refusal
        ≡ option_map of_plan_in (plan_refusal_in graph.now.manifest cells.now.state targets.now)) }
{
    match plan(alloc, graph, cells, targets) {
        Ok(_) => Ok(None),
        Err(fault) => match of_plan(fault) {
            Fault::Memory => Err(AllocError),
            Fault::Refused(refusal) => Ok(Some(refusal)),
        },
    }
}

// Why an event is refused.
#[tactic(auto, unfolding(crate::specs::Machine::refusal))]
fn refusal(
    alloc: Global,
    graph: &Graph,
    cells: &Cells,
    event: &Event,
) -> Result<Option<Refusal>, AllocError>
    ensures { IfOk result (λ refusal. refusal
        ≡ refusal_in graph.now.manifest cells.now.jobs cells.now.state event.now) }
{
    match event {
        Event::Plan(targets) => plan_refusal(alloc, graph, cells, targets.as_slice()),
        Event::Start { out, job, slot } => match named(graph, out) {
            Some(edge) => start_refusal(alloc, graph, cells, edge, *job, *slot),
            None => Ok(Some(Refusal::NoSuchEdge)),
        },
        Event::Finish {
            out,
            stamps,
            listing,
        } => match named(graph, out) {
            Some(edge) => finish_refusal(alloc, graph, cells, edge, stamps.as_slice(), listing),
            None => Ok(Some(Refusal::NoSuchEdge)),
        },
        Event::Fail { out, stamps } => match named(graph, out) {
            Some(edge) => fail_refusal(alloc, graph, cells, edge, stamps.as_slice()),
            None => Ok(Some(Refusal::NoSuchEdge)),
        },
        Event::Abort { out, stamps } => match named(graph, out) {
            Some(edge) => abort_refusal(alloc, graph, cells, edge, stamps.as_slice()),
            None => Ok(Some(Refusal::NoSuchEdge)),
        },
        Event::Clean { out } => match named(graph, out) {
            Some(edge) => clean_refusal(alloc, graph, cells, edge),
            None => Ok(Some(Refusal::NoSuchEdge)),
        },
        Event::Pass { out } => match named(graph, out) {
            Some(edge) => pass_refusal(alloc, graph, cells, edge),
            None => Ok(Some(Refusal::NoSuchEdge)),
        },
        Event::Touch { .. } => Ok(None),
        Event::Interrupt => Ok(interrupt_refusal(cells)),
        Event::Resize { pool, depth } => Ok(resize_refusal(graph, cells, *pool, *depth)),
    }
}

/// Whether the state accepts an event: else the first refusal that it meets, in the order that the rules of its kind
/// say.
///
/// It takes time linear in what the event looks at: the edge's inputs, outputs and deps record, and what the phony
/// edges behind its inputs have; of a plan all edges.
///
/// # Errors
/// [`Fault::Refused`] with the refusal, [`Fault::Memory`] only where an allocation was refused.
pub fn check(alloc: Global, graph: &Graph, cells: &Cells, event: &Event) -> Result<(), Fault>
    ensures refused { (r : Refusal) → IsErrOf result (Fault.Refused r)
        → refusal_in graph.now.manifest cells.now.jobs cells.now.state event.now ≡ Some r }
    ensures accepted { OnOk result (refusal_in graph.now.manifest cells.now.jobs cells.now.state event.now ≡ None) }
{
    match refusal(alloc, graph, cells, event)? {
        Some(refusal) => Err(Fault::Refused(refusal)),
        None => Ok(()),
    }
}
