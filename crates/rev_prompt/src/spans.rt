//! Which commands ran when.
ghost use Rattle.std.specs.Prelude.{◌≡◌, ◌∷◌, ◌++◌, [], if◌then◌else◌, IfOk, OnOk, Some};
ghost use Rattle.rev_prompt.specs.Answers.{IsWith};
ghost use Rattle.rev_prompt.specs.Spans.{is_before_end, is_beside as is_beside_of, is_kept_of as is_kept, last_in, others_in, overlaps as overlaps_of, span_of as span_of_run};
ghost use Rattle.rev_runs.specs.Runs.{runs_of};

use crate::answers::{Answer, Span};
use rev_history::History;
use rev_paths::Name;
use rev_runs::{Run, runs};
use std::alloc::{AllocError, Global};

/// When a run was.
pub(crate) fn span_of(run: &Run) -> Span
    ensures { result ≡ span_of_run run.now }
{
    Span {
        began: run.began,
        ended: run.ended,
    }
}

/// Whether a run is kept and one of an edge.
pub(crate) fn is_kept_of(run: &Run, edge: u32) -> bool
    ensures { result ≡ is_kept edge run.now }
{
    run.kept && run.edge == edge
}

// The later one of a run, where it is kept and one of an edge, and of the last such before it.
fn later(run: &Run, edge: u32, last: Option<Span>) -> Option<Span>
    ensures { result ≡ (if is_kept edge run.now then Some (span_of_run run.now) else last) }
{
    if is_kept_of(run, edge) {
        return Some(span_of(run));
    }
    last
}

/// The last of some runs that is kept and one of an edge.
pub(crate) fn last_of(runs: &[Run], edge: u32) -> Option<Span>
    ensures { result ≡ last_in edge runs.now }
{
    let mut last = None;
    for run in runs {
        last = later(run, edge, last);
    }
    last
}

// Whether a run that began at a number began before another ended, which may still run.
fn begins_before(began: u32, ended: Option<u32>) -> bool
    ensures { result ≡ is_before_end began ended }
{
    match ended {
        Some(ended) => began < ended,
        None => true,
    }
}

// Whether each of two began before the other ended.
fn overlaps(one: Span, other: Span) -> bool
    ensures { result ≡ overlaps_of one other }
{
    begins_before(one.began, other.ended) && begins_before(other.began, one.ended)
}

// Whether a run is kept, is another one, and overlaps this one.
fn is_beside(run: &Run, span: Span) -> bool
    ensures { result ≡ is_beside_of span run.now }
{
    run.kept && run.began != span.began && overlaps(span_of(run), span)
}

// Adds a run that passes.
fn add_where(spans: &mut Vec<Span>, span: Span, passes: bool) -> Result<(), AllocError>
    ensures { OnOk result (spans.new.items ≡ spans.old.items ++ (if passes then span ∷ [] else [])) }
{
    if passes {
        spans.push(span)?;
    }
    Ok(())
}

// The kept ones of some runs that overlap this one.
fn others(alloc: Global, runs: &[Run], span: Span) -> Result<Vec<Span>, AllocError>
    ensures { IfOk result (λ spans. spans.items ≡ others_in span runs.now) }
{
    let mut spans = Vec::new(alloc);
    for run in runs {
        add_where(&mut spans, span_of(run), is_beside(run, span))?;
    }
    Ok(spans)
}

/// As [`with`], by the runs of the history.
pub(crate) fn with_by(
    alloc: Global,
    history: &History,
    out: &Name,
    runs: &[Run],
) -> Result<Answer, AllocError>
    requires { runs.now ≡ runs_of history.now.timeline }
    ensures { IfOk result (λ answer. IsWith history.now.timeline out.now answer) }
{
    let Some(edge) = history.graph().producer(out) else {
        return Ok(Answer::NoOutput(out.copy()?));
    };
    let Some(run) = last_of(runs, edge) else {
        return Ok(Answer::With(out.copy()?, None, Vec::new(alloc)));
    };
    let others = others(alloc, runs, run)?;
    Ok(Answer::With(out.copy()?, Some(run), others))
}

/// `with OUT`: the last run of an edge's command, and the runs that overlapped it.
pub(crate) fn with(alloc: Global, history: &History, out: &Name) -> Result<Answer, AllocError>
    ensures { IfOk result (λ answer. IsWith history.now.timeline out.now answer) }
{
    let runs = runs(alloc, history)?;
    with_by(alloc, history, out, &runs)
}
