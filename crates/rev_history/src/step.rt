//! Whether an event can happen now, and what it does.
ghost use Rattle.std.specs.Prelude.{◌≡◌, None, Some, IfOk, IsErrOf, OnOk};
ghost use Rattle.std.specs.List.{AllByRecursion, IsDistinct};
ghost use Rattle.std.specs.Ordering.{eq_by_cmp};
ghost use Rattle.rev_cells.specs.declared.cell.Cell.{Cell};
ghost use Rattle.rev_cells.specs.declared.value.Value.{Value};
ghost use Rattle.rev_cells.specs.Effects.{cells_of, stored_values};
ghost use Rattle.rev_cells.specs.Keys.{cell_cmp};
ghost use Rattle.rev_cells.specs.Values.{Fits};
ghost use Rattle.rev_events.specs.declared.fault.Fault.{Fault};
ghost use Rattle.rev_events.specs.declared.refusal.Refusal.{Refusal};
ghost use Rattle.rev_events.specs.Machine.{effect as effect_in, refusal as refusal_in};

use rev_cells::{Cell, Cells, Value};
use rev_events::{Event, Fault, Refusal, check, effect_if_accepted as answer_now};
use rev_footprint::Footprint;
use rev_graph::Graph;
use std::alloc::{AllocError, Global};

/// Whether the event of a number can be put back now: why it cannot, or the footprint that it has now and what it
/// writes now.
#[derive(Drop)]
pub(crate) enum Checked {
    Refused(Refusal),
    Free(Footprint, Vec<(Cell, Value)>),
}

/// Why the present state refuses an event, where it does.
pub(crate) fn refusal(
    alloc: Global,
    graph: &Graph,
    cells: &Cells,
    event: &Event,
) -> Result<Option<Refusal>, AllocError>
    ensures { IfOk result (λ refused. refused
        ≡ refusal_in graph.now.manifest cells.now.jobs cells.now.state event.now) }
{
    match check(alloc, graph, cells, event) {
        Ok(()) => Ok(None),
        Err(Fault::Refused(refusal)) => Ok(Some(refusal)),
        Err(Fault::Memory) => Err(AllocError),
    }
}

/// What an event writes where the present state accepts it: each cell once, with its new value. Else why the state
/// refuses the event.
pub(crate) fn effect_if_accepted(
    alloc: Global,
    graph: &Graph,
    cells: &Cells,
    event: &Event,
) -> Result<Vec<(Cell, Value)>, Fault>
    ensures refused { (r : Refusal) → IsErrOf result (Fault.Refused r)
        → refusal_in graph.now.manifest cells.now.jobs cells.now.state event.now ≡ Some r }
    ensures accepted { OnOk result (refusal_in graph.now.manifest cells.now.jobs cells.now.state event.now ≡ None) }
    ensures writes { IfOk result (λ writes. stored_values writes.items
        ≡ effect_in graph.now.manifest cells.now.state event.now) }
    ensures fits { IfOk result (λ writes. AllByRecursion (λ (w : Cell × Value). Fits w.0 w.1) writes.items) }
    ensures once { IfOk result (λ writes. IsDistinct (eq_by_cmp cell_cmp) (cells_of writes.items)) }
{
    let _edges = graph.edges();
    let writes = answer_now(alloc, graph, cells, event)?;
    Ok(writes)
}
