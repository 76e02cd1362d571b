//! Which commands read and write a path.
ghost use Rattle.std.specs.Prelude.{◌≡◌, ◌<◌, ◌++◌, ◌∷◌, [], ℕ, None, Some, if◌then◌else◌, length, map, slice_index_or, IfOk, OnOk};
ghost use Rattle.std.specs.Option.{option_copied};
ghost use Rattle.rev_looked.specs.Uses.{readers_of, writers_of};
ghost use Rattle.rev_prompt.specs.Spans.{is_kept_of as is_kept, last_in, last_run as last_run_of, span_of as span_of_run};
ghost use Rattle.rev_prompt.specs.Users.{IsReaders, IsWriters, deed_of as deed_by, run_of as run_by};

use crate::answers::{Answer, Deed, Readers, Span, Writers};
use crate::spans::{is_kept_of, span_of};
use rev_history::History;
use rev_looked::Use;
use rev_observed::Observation;
use rev_paths::Name;
use rev_runs::{Run, runs};
use std::alloc::{AllocError, Global};

// Notes a run, where it is kept, as the last one of its edge.
fn put_run(spans: &mut [Option<Span>], run: &Run)
    ensures { (edge : ℕ) → edge < length spans.old → slice_index_or spans.new edge None
        ≡ (if is_kept edge run.now then Some (span_of_run run.now) else slice_index_or spans.old edge None) }
{
    let edge = run.edge;
    if edge as usize >= spans.len() {
        return;
    }
    if !is_kept_of(run, edge) {
        return;
    }
    spans[edge as usize] = Some(span_of(run));
}

// Notes of runs the last kept one of each edge, where none is noted yet.
fn put_runs(spans: &mut [Option<Span>], runs: &[Run])
    ensures { (edge : ℕ) → edge < length spans.old → slice_index_or spans.old edge None ≡ None
        → slice_index_or spans.new edge None ≡ last_in edge runs.now }
{
    for run in runs {
        put_run(spans, run);
    }
}

// The last kept run of each edge.
fn last_runs(alloc: Global, history: &History) -> Result<Vec<Option<Span>>, AllocError>
    ensures count { IfOk result (λ spans. length spans.items ≡ length history.now.timeline.manifest.builds) }
    ensures each { IfOk result (λ spans. (edge : ℕ) → edge < length history.now.timeline.manifest.builds
        → slice_index_or spans.items edge None ≡ last_run_of history.now.timeline edge) }
{
    let mut spans = vec![in alloc; None; history.graph().edges() as usize]?;
    let runs = runs(alloc, history)?;
    put_runs(&mut spans, &runs);
    Ok(spans)
}

// The last run of an edge, by those of all edges; none of what is no edge.
fn run_of(history: &History, spans: &[Option<Span>], edge: u32) -> Option<Span>
    requires count { length spans.now ≡ length history.now.timeline.manifest.builds }
    requires each { (edge : ℕ) → edge < length history.now.timeline.manifest.builds
        → slice_index_or spans.now edge None ≡ last_run_of history.now.timeline edge }
    ensures { result ≡ run_by history.now.timeline edge }
{
    if edge >= history.graph().edges() {
        return None;
    }
    spans[edge as usize]
}

// What an edge's command does, with its last run.
fn deed_of(history: &History, spans: &[Option<Span>], used: Use) -> Deed
    requires count { length spans.now ≡ length history.now.timeline.manifest.builds }
    requires each { (edge : ℕ) → edge < length history.now.timeline.manifest.builds
        → slice_index_or spans.now edge None ≡ last_run_of history.now.timeline edge }
    ensures { result ≡ deed_by history.now.timeline used }
{
    Deed {
        edge: used.edge,
        kind: used.kind,
        run: run_of(history, spans, used.edge),
    }
}

// What commands do, each with the last run of its edge.
fn deeds_of(alloc: Global, history: &History, uses: &[Use]) -> Result<Vec<Deed>, AllocError>
    ensures { IfOk result (λ deeds. deeds.items ≡ map (deed_by history.now.timeline) uses.now) }
{
    let spans = last_runs(alloc, history)?;
    let mut deeds = Vec::new(alloc);
    for used in uses {
        deeds.push(deed_of(history, &spans, *used))?;
    }
    Ok(deeds)
}

/// Those that were seen to read a path.
pub(crate) fn observed_readers(
    alloc: Global,
    history: &History,
    observation: &Observation,
    edges: &[u32],
    path: &Name,
) -> Result<Vec<Deed>, AllocError>
    ensures { IfOk result (λ deeds. deeds.items ≡ map (deed_by history.now.timeline)
        (readers_of observation.now.paths edges.now observation.now.commands path.now)) }
{
    let uses = rev_looked::readers(alloc, observation, edges, path)?;
    deeds_of(alloc, history, &uses)
}

/// Those that were seen to write a path.
pub(crate) fn observed_writers(
    alloc: Global,
    history: &History,
    observation: &Observation,
    edges: &[u32],
    path: &Name,
) -> Result<Vec<Deed>, AllocError>
    ensures { IfOk result (λ deeds. deeds.items ≡ map (deed_by history.now.timeline)
        (writers_of observation.now.paths edges.now observation.now.commands path.now)) }
{
    let uses = rev_looked::writers(alloc, observation, edges, path)?;
    deeds_of(alloc, history, &uses)
}

/// `who reads PATH`: which commands read a path, by what was observed, or else by build lines and lists.
pub(crate) fn readers(
    alloc: Global,
    history: &History,
    observation: Option<&Observation>,
    edges: &[u32],
    path: &Name,
) -> Result<Answer, AllocError>
    ensures { IfOk result (λ answer. IsReaders history.now.timeline (option_copied observation.entry) edges.now path.now
        answer) }
{
    let readers = match observation {
        Some(observation) => {
            Readers::Observed(observed_readers(alloc, history, observation, edges, path)?)
        }
        None => Readers::Named(rev_looked::namings(alloc, history, path)?),
    };
    Ok(Answer::Readers(path.copy()?, readers))
}

/// `who writes PATH`: which commands write a path, by what was observed, or else by build lines.
pub(crate) fn writers(
    alloc: Global,
    history: &History,
    observation: Option<&Observation>,
    edges: &[u32],
    path: &Name,
) -> Result<Answer, AllocError>
    ensures { IfOk result (λ answer. IsWriters history.now.timeline (option_copied observation.entry) edges.now path.now
        answer) }
{
    let writers = match observation {
        Some(observation) => {
            Writers::Observed(observed_writers(alloc, history, observation, edges, path)?)
        }
        None => Writers::Declared(history.graph().producer(path)),
    };
    Ok(Answer::Writers(path.copy()?, writers))
}
