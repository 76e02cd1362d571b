//! The witness of two edges.
ghost use Rattle.std.specs.Prelude.{◌≡◌, ◌<◌, ◌↔◌, List, ℕ, length, Contains, IfOk, IfSome, IsSome, OnOk, IsTrue};
ghost use Rattle.std.specs.List.{All};
ghost use Rattle.std.specs.Option.{IsSomeAnd};
ghost use Rattle.rev_cells.specs.State.{State};
ghost use Rattle.rev_history.specs.Timeline.{Numbered, state_at};
ghost use Rattle.rev_manifest.specs.Manifest.{ManifestValue};
ghost use Rattle.rev_races.specs.Laws.{HasSourcesAlone};
ghost use Rattle.rev_races.specs.Races.{IsRace};
ghost use Rattle.rev_waits.specs.Waits.{Waits};
ghost use Rattle.rev_witness.specs.Progress.{GoesOn, IsFree, IsPlanned, IsUnderWay};
ghost use Rattle.rev_witness.specs.Sources.{AreThere};
ghost use Rattle.rev_witness.specs.Witness.{AreSources, BeganWith, IsCommand, IsWitness, opening_with};

use crate::edges::{by_rank, plan_of, start_of};
use crate::happening::{ends, happens, is_wanted};
use crate::opening::sources_of;
use rev_cells::Opening;
use rev_graph::Graph;
use rev_history::History;
use rev_paths::Name;
use std::alloc::{AllocError, Global};

/// A build from nothing in which an edge starts while another is still to run.
pub struct Witness {
    /// The files that are there at first, each with the stamp 1.
    pub sources: Vec<Name>,
    /// The events of the build. The last event starts the edge.
    pub history: History,
}

impl Drop for Witness {
    fn drop(self) {
        let Witness {
            sources: _sources,
            history: _history,
        } = self;
    }
}

// Has edges end in their order. Where none of their inputs is still to be made, they do end, and nothing else changes.
fn all_end(
    alloc: Global,
    history: &mut History,
    graph: &Graph,
    edges: &[u32],
) -> Result<bool, AllocError>
    requires { All (λ edge. edge < length graph.now.manifest.builds) edges.now }
    ensures began { (manifest : ManifestValue) (opening : State) → BeganWith manifest opening history.old.timeline
        → OnOk result (BeganWith manifest opening history.new.timeline) }
    ensures goes { (opening : State) → IsUnderWay graph.now.manifest opening history.old.timeline
        → All (IsFree graph.now.manifest.builds (state_at history.old.timeline)) edges.now
        → IfOk result (λ went. IsTrue went
        × GoesOn graph.now.manifest opening (Contains edges.now) history.old.timeline history.new.timeline) }
{
    for edge in edges {
        if !ends(alloc, history, graph, *edge)? {
            return Ok(false);
        }
    }
    Ok(true)
}

// Has all edges end that an edge waits for. They do, and nothing else changes.
fn waited_end(
    alloc: Global,
    history: &mut History,
    graph: &Graph,
    edge: u32,
) -> Result<bool, AllocError>
    requires { edge < length graph.now.manifest.builds }
    ensures began { (manifest : ManifestValue) (opening : State) → BeganWith manifest opening history.old.timeline
        → OnOk result (BeganWith manifest opening history.new.timeline) }
    ensures goes { (opening : State) → IsUnderWay graph.now.manifest opening history.old.timeline
        → IfOk result (λ went. IsTrue went × GoesOn graph.now.manifest opening
        (Waits graph.now.manifest.builds edge) history.old.timeline history.new.timeline) }
{
    let _edges = graph.edges();
    let ranks = by_rank(alloc, graph, edge)?;
    for edges in &ranks {
        if !all_end(alloc, history, graph, edges)? {
            return Ok(false);
        }
    }
    Ok(true)
}

// A history of a graph on one job, in which both edges were planned.
fn planned(
    alloc: Global,
    graph: &Graph,
    opening: &Opening,
    user: u32,
    maker: u32,
) -> Result<Option<History>, AllocError>
    requires user { user < length graph.now.manifest.builds }
    requires maker { maker < length graph.now.manifest.builds }
    requires jobs { opening.now.jobs ≡ 1 }
    ensures began { IfOk result (λ history. IfSome history (λ history.
        BeganWith graph.now.manifest opening.now.state history.timeline)) }
    // Where only sources are there, and all of them are, the plan is accepted, and both are to run.
    ensures planned { HasSourcesAlone graph.now.manifest.builds opening.now.state
        → AreThere graph.now.manifest.builds opening.now.state
        → IsCommand graph.now.manifest user → IsCommand graph.now.manifest maker
        → IfOk result (λ history. IsSomeAnd history (λ history.
        IsPlanned graph.now.manifest opening.now.state user maker history.timeline)) }
{
    let _edges = graph.edges();
    let plan = plan_of(alloc, graph, maker, user)?;
    let again = graph.again(alloc)?;
    let mut history = History::new(alloc, again, opening)?;
    if !happens(&mut history, &plan)? {
        return Ok(None);
    }
    Ok(Some(history))
}

// Has all end that an edge waits for, and then starts it, where another is still to run. Says whether it did.
fn starts_before(
    alloc: Global,
    history: &mut History,
    graph: &Graph,
    user: u32,
    maker: u32,
) -> Result<bool, AllocError>
    requires user { user < length graph.now.manifest.builds }
    requires maker { maker < length graph.now.manifest.builds }
    ensures witness { (sources : List (List ℕ)) → AreSources graph.now.manifest.builds sources
        → BeganWith graph.now.manifest (opening_with sources).state history.old.timeline
        → IfOk result (λ did. IsTrue did
        → IsWitness graph.now.manifest user maker sources history.new.timeline) }
    // Where both were planned it does, exactly where it does not wait for the other.
    ensures exact { (opening : State) → IsPlanned graph.now.manifest opening user maker history.old.timeline
        → IsCommand graph.now.manifest user
        → IfOk result (λ did. IsTrue did ↔ (Waits graph.now.manifest.builds user maker → ⊥)) }
{
    let _edges = graph.edges();
    if !waited_end(alloc, history, graph, user)? {
        return Ok(false);
    }
    if !is_wanted(history.cells(), maker) {
        return Ok(false);
    }
    let start = start_of(graph, user)?;
    if !happens(history, &start)? {
        return Ok(false);
    }
    let _kept = history.kept();
    Ok(true)
}

// What `find_witness` gives of two edges.
#[tactic(auto, using(crate::proofs::WitnessLemmas::opening_jobs))]
fn found_between(
    alloc: Global,
    graph: &Graph,
    user: u32,
    maker: u32,
) -> Result<Option<Witness>, AllocError>
    ensures witness { IfOk result (λ found. IfSome found (λ found.
        IsWitness graph.now.manifest user maker found.sources.items found.history.timeline)) }
    ensures found { IsCommand graph.now.manifest user → IsCommand graph.now.manifest maker
        → IfOk result (λ found. IsSome found ↔ (Waits graph.now.manifest.builds user maker → ⊥)) }
{
    let edges = graph.edges();
    if user >= edges || maker >= edges {
        return Ok(None);
    }
    let sources = sources_of(alloc, graph)?;
    let Some(mut history) = planned(alloc, graph, &sources.opening, user, maker)? else {
        return Ok(None);
    };
    if !starts_before(alloc, &mut history, graph, user, maker)? {
        return Ok(None);
    }
    Ok(Some(Witness {
        sources: sources.paths,
        history,
    }))
}

/// A build from nothing on one job, in which `user` starts while `maker` is still to run. Both are planned, then
/// everything that `user` waits for ends, by rank, and then `user` starts. Each event is accepted.
///
/// Where both edges have commands, there is such a build exactly where `user` does not wait for `maker`. So each race
/// has a witness. Time and memory are linear in edges and inputs, besides what the events take.
///
/// # Errors
/// [`AllocError`] only where an allocation was refused.
pub fn find_witness(
    alloc: Global,
    graph: &Graph,
    user: u32,
    maker: u32,
) -> Result<Option<Witness>, AllocError>
    ensures witness { IfOk result (λ found. IfSome found (λ found.
        IsWitness graph.now.manifest user maker found.sources.items found.history.timeline)) }
    // Of two edges with commands there is one exactly where the one does not wait for the other.
    ensures found { IsCommand graph.now.manifest user → IsCommand graph.now.manifest maker
        → IfOk result (λ found. IsSome found ↔ (Waits graph.now.manifest.builds user maker → ⊥)) }
    // Each race of a history of this manifest has one.
    ensures race { (files : List (List ℕ)) (opening : State) (events : Numbered) (path : List ℕ)
        → IsRace graph.now.manifest files opening events user maker path → IfOk result (λ found. IsSome found) }
{
    let _edges = graph.edges();
    found_between(alloc, graph, user, maker)
}
