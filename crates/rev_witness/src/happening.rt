//! Events that a witness lets happen, one after another.
ghost use Rattle.std.specs.Prelude.{◌≡◌, ◌↔◌, ◌+◌, ◌<◌, ◌^◌, ◌||◌, ℕ, None, false, length, true, IfOk, OnOk, IsTrue};
ghost use Rattle.rev_cells.specs.State.{State, mark_of};
ghost use Rattle.rev_cells.specs.declared.mark.Mark.TheVariants as mark;
ghost use Rattle.rev_events.specs.Refusal.{is_through_mark, is_wanted_mark};
ghost use Rattle.rev_graph.specs.Graph.{build_at};
ghost use Rattle.rev_history.specs.Timeline.{accept_refusal, last_of, state_at};
ghost use Rattle.rev_manifest.specs.Manifest.{ManifestValue};
ghost use Rattle.rev_witness.specs.Progress.{GoesOn, IsFree, IsUnderWay, is_due};
ghost use Rattle.rev_witness.specs.Witness.{BeganWith, HasHappened};

use crate::edges::{finish_of, first_output, start_of};
use rev_cells::{Cell, Cells, Mark, Value};
use rev_events::{Event, Fault};
use rev_graph::Graph;
use rev_history::History;
use std::alloc::{AllocError, Global};

/// Whether an edge's command is still to run.
pub(crate) fn is_wanted(cells: &Cells, edge: u32) -> bool
    ensures { result ≡ is_wanted_mark (mark_of cells.now.state edge) }
{
    match cells.get(&Cell::Mark(edge)) {
        Some(Value::Mark(Mark::Wanted)) => true,
        _ => false,
    }
}

// Whether an edge waits for others alone.
fn is_through(cells: &Cells, edge: u32) -> bool
    ensures { result ≡ is_through_mark (mark_of cells.now.state edge) }
{
    match cells.get(&Cell::Mark(edge)) {
        Some(Value::Mark(Mark::Through)) => true,
        _ => false,
    }
}

/// Lets an event happen, unless it is refused. Returns whether it happened.
#[tactic(auto, using(crate::proofs::WitnessLemmas::began_on, crate::proofs::WitnessLemmas::has_happened))]
pub(crate) fn happens(history: &mut History, event: &Event) -> Result<bool, AllocError>
    ensures began { (manifest : ManifestValue) (opening : State) → BeganWith manifest opening history.old.timeline
        → OnOk result (BeganWith manifest opening history.new.timeline) }
    ensures happened { IfOk result (λ happened. IsTrue happened
        → HasHappened event.now history.old.timeline history.new.timeline) }
    // It happens where it is accepted, and there is a number left.
    ensures accepted { accept_refusal history.old.timeline event.now ≡ None
        → last_of history.old.timeline.accepted + 1 < 2 ^ 32 → IfOk result IsTrue }
{
    let last = history.last();
    if last == u32::MAX {
        return Ok(false);
    }
    let _kept = history.kept();
    match history.accept(last + 1, event) {
        Ok(()) => Ok(true),
        Err(Fault::Refused(_)) => Ok(false),
        Err(Fault::Memory) => Err(AllocError),
    }
}

// Has an edge's command run.
fn runs(alloc: Global, history: &mut History, graph: &Graph, edge: u32) -> Result<bool, AllocError>
    requires { edge < length graph.now.manifest.builds }
    ensures began { (manifest : ManifestValue) (opening : State) → BeganWith manifest opening history.old.timeline
        → OnOk result (BeganWith manifest opening history.new.timeline) }
    ensures goes { (opening : State) → IsUnderWay graph.now.manifest opening history.old.timeline
        → IsFree graph.now.manifest.builds (state_at history.old.timeline) edge
        → (build_at graph.now.manifest.builds edge).phony ≡ false
        → is_due (mark_of (state_at history.old.timeline) edge) ≡ true → IfOk result (λ went. IsTrue went
        × GoesOn graph.now.manifest opening (λ other. other ≡ edge) history.old.timeline history.new.timeline) }
{
    let _edges = graph.edges();
    let start = start_of(graph, edge)?;
    if !happens(history, &start)? {
        return Ok(false);
    }
    let finish = finish_of(alloc, graph, edge)?;
    happens(history, &finish)
}

// Has a phony edge pass.
fn passes(history: &mut History, graph: &Graph, edge: u32) -> Result<bool, AllocError>
    requires { edge < length graph.now.manifest.builds }
    ensures began { (manifest : ManifestValue) (opening : State) → BeganWith manifest opening history.old.timeline
        → OnOk result (BeganWith manifest opening history.new.timeline) }
    ensures goes { (opening : State) → IsUnderWay graph.now.manifest opening history.old.timeline
        → IsFree graph.now.manifest.builds (state_at history.old.timeline) edge
        → (build_at graph.now.manifest.builds edge).phony ≡ true
        → is_due (mark_of (state_at history.old.timeline) edge) ≡ true → IfOk result (λ went. IsTrue went
        × GoesOn graph.now.manifest opening (λ other. other ≡ edge) history.old.timeline history.new.timeline) }
{
    let _edges = graph.edges();
    let out = first_output(graph, edge);
    happens(history, &Event::Pass { out: out.copy()? })
}

/// Lets an edge end that is to be built: its command runs, and a phony edge passes. Returns whether that was accepted.
pub(crate) fn ends(
    alloc: Global,
    history: &mut History,
    graph: &Graph,
    edge: u32,
) -> Result<bool, AllocError>
    requires { edge < length graph.now.manifest.builds }
    ensures began { (manifest : ManifestValue) (opening : State) → BeganWith manifest opening history.old.timeline
        → OnOk result (BeganWith manifest opening history.new.timeline) }
    // Where none of its inputs is still to be made, it does end, and nothing else changes.
    ensures goes { (opening : State) → IsUnderWay graph.now.manifest opening history.old.timeline
        → IsFree graph.now.manifest.builds (state_at history.old.timeline) edge → IfOk result (λ went. IsTrue went
        × GoesOn graph.now.manifest opening (λ other. other ≡ edge) history.old.timeline history.new.timeline) }
{
    let _edges = graph.edges();
    let is_due = is_wanted(history.cells(), edge) || is_through(history.cells(), edge);
    if !is_due {
        return Ok(true);
    }
    if graph.is_phony(edge) {
        return passes(history, graph, edge);
    }
    runs(alloc, history, graph, edge)
}
