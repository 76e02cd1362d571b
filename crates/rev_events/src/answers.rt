//! Events that are asked and answered at once.
ghost use Rattle.std.specs.Prelude.{◌≡◌, [], None, IfOk, IsErrOf, OnOk, Some, option_map};
ghost use Rattle.rev_plan.specs.Plan.{plan_refusal as plan_refusal_in};
ghost use Rattle.rev_events.specs.Refusal.{of_plan as of_plan_in};
ghost use Rattle.rev_events.specs.declared.event.Event.TheVariants.{Finish, Plan};
ghost use Rattle.rev_events.specs.declared.fault.Fault.{Fault};
ghost use Rattle.rev_events.specs.declared.refusal.Refusal.{Refusal};
ghost use Rattle.rev_events.specs.Edge.{Adds, AllFit, stored};
ghost use Rattle.rev_events.specs.Machine.{effect as effect_in, refusal as refusal_in};

use crate::checks::{check, finish_listing};
use crate::edge::named;
use crate::effects::{effect, finish_effect, marks_written};
use crate::event::{Event, Listing};
use crate::fault::{Fault, of_plan};
use crate::refusal::Refusal;
use crate::writes::Writes;
use rev_cells::{Cell, Cells, Value};
use rev_graph::Graph;
use rev_paths::Name;
use rev_plan::plan;
use std::alloc::Global;

// What a plan writes, or why it is refused.
fn plan_answer(
    alloc: Global,
    graph: &Graph,
    cells: &Cells,
    targets: &[Name],
) -> Result<Writes, Fault>
    ensures refused { (r : Refusal) → IsErrOf result (Fault.Refused r)
        → option_map of_plan_in (plan_refusal_in graph.now.manifest cells.now.state targets.now) ≡ Some r }
    ensures accepted { OnOk result (plan_refusal_in graph.now.manifest cells.now.state targets.now ≡ None) }
    ensures writes { IfOk result (λ writes.
        Adds [] writes.items (effect_in graph.now.manifest cells.now.state (Plan targets.now))) }
{
    // What it promises of every graph is that there are few edges.
    let _edges = graph.edges();
    match plan(alloc, graph, cells, targets) {
        Ok(marks) => {
            let writes = marks_written(alloc, &marks)?;
            Ok(writes)
        }
        Err(fault) => Err(of_plan(fault)),
    }
}

// What a finish writes, or why it is refused.
#[tactic(auto, unfolding(crate::specs::Machine::refusal, crate::specs::Machine::effect))]
fn finish_answer(
    alloc: Global,
    graph: &Graph,
    cells: &Cells,
    out: &Name,
    stamps: &[u64],
    listing: &Listing,
) -> Result<Writes, Fault>
    ensures refused { (r : Refusal) → IsErrOf result (Fault.Refused r)
        → refusal_in graph.now.manifest cells.now.jobs cells.now.state
        (Finish out.now stamps.now listing.now) ≡ Some r }
    ensures accepted { OnOk result (refusal_in graph.now.manifest cells.now.jobs cells.now.state
        (Finish out.now stamps.now listing.now) ≡ None) }
    ensures writes { IfOk result (λ writes. Adds [] writes.items
        (effect_in graph.now.manifest cells.now.state (Finish out.now stamps.now listing.now))) }
{
    let Some(edge) = named(graph, out) else {
        return Err(Fault::Refused(Refusal::NoSuchEdge));
    };
    let paths = finish_listing(alloc, graph, cells, edge, stamps, listing)?;
    let writes = finish_effect(alloc, graph, cells, edge, stamps, paths)?;
    Ok(writes)
}

/// What an event writes where the state accepts it, as [`effect`] gives it, and else why it is refused, as [`check`]
/// says. One call makes a plan once and reads a depfile once.
///
/// # Errors
/// [`Fault::Refused`] with the refusal, [`Fault::Memory`] only where an allocation was refused.
#[tactic(auto, unfolding(crate::specs::Machine::refusal))]
pub fn effect_if_accepted(
    alloc: Global,
    graph: &Graph,
    cells: &Cells,
    event: &Event,
) -> Result<Vec<(Cell, Value)>, Fault>
    ensures refused { (r : Refusal) → IsErrOf result (Fault.Refused r)
        → refusal_in graph.now.manifest cells.now.jobs cells.now.state event.now ≡ Some r }
    ensures accepted { OnOk result (refusal_in graph.now.manifest cells.now.jobs cells.now.state event.now ≡ None) }
    ensures writes { IfOk result (λ writes. stored writes.items
        ≡ effect_in graph.now.manifest cells.now.state event.now) }
    ensures fit { IfOk result (λ writes. AllFit writes.items) }
{
    match event {
        Event::Plan(targets) => plan_answer(alloc, graph, cells, targets.as_slice()),
        Event::Finish {
            out,
            stamps,
            listing,
        } => finish_answer(alloc, graph, cells, out, stamps.as_slice(), listing),
        _ => {
            check(alloc, graph, cells, event)?;
            let writes = effect(alloc, graph, cells, event)?;
            Ok(writes)
        }
    }
}
