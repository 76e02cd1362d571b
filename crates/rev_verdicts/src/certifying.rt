//! Whether no order of a recorded build's commands gives any of them other inputs.
ghost use Rattle.std.specs.Prelude.{◌≡◌, ◌<◌, IfNone, IfOk, IfSome, IsTrue, Some, None, false, is_some, length, nat_lt};
ghost use Rattle.std.specs.List.{AllByRecursion, list_all};
ghost use Rattle.std.specs.Option.{option_copied};
ghost use Rattle.rev_certainty.specs.Certain.{is_certain};
ghost use Rattle.rev_verdicts.specs.Asked.{IsJudged, IsJudgedAt, IsSeen, SaysExactly, beside, beside_by, has_baseline as has_baseline_in, placed, places_of};

use crate::answering::{Written, written_with};
use crate::forms::Form;
use crate::judging::unnamed;
use crate::leaving::{Choice, Leaving, Left};
use crate::outdated::Outdated;
use crate::stating::Verdict;
use rev_certainty::{
    Beside, Judged, Known, certificate_of, idle_edges, judge, known_of, last_targets, unhidden,
};
use rev_certificate::{Certificate, Obstacle};
use rev_certificate_words::Named;
use rev_conflicts_text::{Finding, Stale};
use rev_desk::Desk;
use rev_filters::Filters;
use rev_findings::{Basis, Sight, hidden_places, report_of, seen_findings, whole_marks};
use rev_history::History;
use rev_observation::Observation;
use rev_races_text::{LeftOut, RaceFinding, Report, Sources};
use rev_recording::{ObservedFault, RecordingFault};
use rev_trusted::{Fault, ReadFault, Trust};
use std::alloc::{AllocError, Global};

/// How a certificate is asked for.
#[derive(Clone, Copy)]
pub struct Wish<'a> {
    /// The form of the answer.
    pub form: Form,
    /// Whether each assumption but two stands in the way.
    pub is_strict: bool,
    /// What the user trusts.
    pub trust: &'a Trust,
    /// The filters by which entries and races are left out.
    pub filters: &'a [Filters],
    /// What else is left out.
    pub choice: Choice<'a>,
}

/// What `races` finds in a recording.
#[derive(Drop)]
pub struct Found<'a> {
    /// What an observation shows by which an order can give a command of this build other inputs.
    pub findings: Vec<Finding<'a>>,
    /// How many findings make a next build alone other than a build from nothing.
    pub stale: Stale,
    /// How many commands were observed whole.
    pub whole: u64,
    /// The races by lists and by errors, the clashes of depfiles and response files, and how much of the recording
    /// counts.
    pub report: Report<'a>,
}

/// A certificate, and what is written of it.
#[derive(Drop)]
pub struct CertificateAnswer {
    /// The certificate. It is none where the recording has no observation of version 2.
    pub certificate: Option<Certificate>,
    /// What is written.
    pub written: Written,
}

// How many marks there are.
fn count_of(marks: &[bool]) -> u64 {
    marks.iter().filter(|mark| **mark).count() as u64
}

// Whether each number is below a bound.
fn all_below(numbers: &[u32], bound: u32) -> bool
    ensures exact { result ≡ list_all (λ n. nat_lt n bound) numbers.now }
    ensures below { IsTrue result → AllByRecursion (λ n. n < bound) numbers.now }
{
    numbers.iter().all(|number| *number < bound)
}

/// What the text of a file of trusted flags trusts; nothing where the user names no file.
///
/// # Errors
/// [`RecordingFault::Observed`] with the first fault of the text; [`RecordingFault::Memory`] only where an allocation
/// was refused.
pub fn trust_in(alloc: Global, text: Option<&[u8]>) -> Result<Trust, RecordingFault> {
    let Some(text) = text else {
        return Ok(Trust::nothing(alloc));
    };
    match Trust::read(alloc, text) {
        Ok(trust) => Ok(trust),
        Err(ReadFault::Memory) => Err(RecordingFault::Memory),
        Err(ReadFault::Numbered(Fault { kind, line })) => {
            Err(RecordingFault::Observed(ObservedFault {
                file: "--trust",
                line,
                code: kind.code(),
            }))
        }
    }
}

// How many findings make a next build alone other than a build from nothing.
fn stale_of(findings: &[Finding<'_>]) -> Stale {
    let of_next = findings.iter().filter(|one| one.is_of_next_build()).count() as u64;
    let unlisted = findings.iter().filter(|one| one.is_to_be_listed()).count() as u64;
    Stale {
        undeclared: of_next.saturating_sub(unlisted),
        unlisted,
    }
}

// Of some findings those by which an order can give a command of this build other inputs.
fn of_this_build<'a>(
    alloc: Global,
    findings: &[Finding<'a>],
) -> Result<Vec<Finding<'a>>, AllocError> {
    let mut left = Vec::new(alloc);
    for finding in findings {
        if !finding.is_of_next_build() {
            left.push(*finding)?;
        }
    }
    Ok(left)
}

/// What `races` finds in a recording that was replayed.
///
/// # Errors
/// [`AllocError`] only where an allocation was refused.
pub fn found_in<'a>(
    alloc: Global,
    desk: &'a Desk,
    basis: &Basis<'a>,
) -> Result<Found<'a>, AllocError> {
    let report = report_of(alloc, desk, basis)?;
    let (builds, sight) = (basis.sources.builds, basis.sight);
    let findings = seen_findings(alloc, desk.history(), builds, sight, &report.races)?;
    Ok(Found {
        findings: of_this_build(alloc, &findings)?,
        stale: stale_of(&findings),
        whole: count_of(whole_marks(sight)),
        report,
    })
}

// What is known of a recording beside its certificate, where these races are left of those by lists and errors.
fn beside_of(found: &Found<'_>, races: &[RaceFinding<'_>]) -> Beside
    ensures { result ≡ beside_by found.now races.now }
{
    Beside {
        replayed: found.report.replayed,
        commands: found.report.ran,
        findings: found.findings.len(),
        races: races.len(),
        side_files: found.report.clashes.len(),
    }
}

// Whether a baseline is read or written.
fn has_baseline(choice: Choice<'_>) -> bool
    ensures { result ≡ has_baseline_in choice.entry }
{
    choice.writes || choice.baseline.is_some()
}

// What is written of a certificate, and the status.
fn verdict_written(
    alloc: Global,
    wish: Wish<'_>,
    verdict: &Verdict<'_>,
) -> Result<Written, AllocError>
    ensures { IfOk result (λ written. SaysExactly (is_some verdict.now.certainty) wish.entry.form
        (has_baseline_in wish.entry.choice) written) }
{
    let items = if wish.form.is_of_items() || wish.choice.writes {
        verdict.items(alloc)?
    } else {
        Vec::new(alloc)
    };
    let text = verdict.text(alloc, wish.form, &items)?;
    let by_baseline = has_baseline(wish.choice);
    let code = verdict.status(by_baseline);
    let written = written_with(alloc, wish.choice, &items, text, code)?;
    Ok(written)
}

// What a certificate says, where each thing that it refers to lives as long.
fn verdict_of<'a>(
    wish: Wish<'a>,
    named: Named<'a>,
    certificate: &'a Certificate,
    found: &'a Found<'a>,
    judged: &'a Judged,
    obstacles: &'a [Obstacle],
    left: &'a Left<'a>,
    left_out: LeftOut,
) -> Verdict<'a>
    ensures { result.certainty ≡ judged.now.certainty }
{
    Verdict {
        certainty: judged.certainty,
        named,
        obstacles,
        assumptions: &certificate.assumptions,
        trusted: &judged.trusted,
        lines: wish.trust.lines(),
        findings: &left.findings,
        races: &left.races,
        clashes: &left.clashes,
        replayed: found.report.replayed,
        commands: found.report.ran,
        whole: found.whole,
        left_out,
        stale: found.stale,
        is_strict: wish.is_strict,
        is_all: matches!(wish.form, Form::AllWords),
    }
}

// What is written of a certificate that was judged, by what is left.
fn left_written(
    alloc: Global,
    wish: Wish<'_>,
    named: Named<'_>,
    certificate: &Certificate,
    found: &Found<'_>,
    judged: &Judged,
    obstacles: &[Obstacle],
    left: &Left<'_>,
    left_out: LeftOut,
) -> Result<Written, AllocError>
    ensures { IfOk result (λ written. SaysExactly (is_some judged.now.certainty) wish.entry.form
        (has_baseline_in wish.entry.choice) written) }
{
    let verdict = verdict_of(
        wish,
        named,
        certificate,
        found,
        judged,
        obstacles,
        left,
        left_out,
    );
    let written = verdict_written(alloc, wish, &verdict)?;
    Ok(written)
}

// What is written of a certificate that was judged, by what leaves findings out. A conflict that a finding or one of
// these races names is printed once.
fn judged_written(
    alloc: Global,
    wish: Wish<'_>,
    named: Named<'_>,
    certificate: &Certificate,
    found: &Found<'_>,
    races: &[RaceFinding<'_>],
    judged: &Judged,
    hidden: u64,
) -> Result<Written, RecordingFault>
    ensures { IfOk result (λ written. SaysExactly (is_some judged.now.certainty) wish.entry.form
        (has_baseline_in wish.entry.choice) written) }
{
    let obstacles = unnamed(alloc, &named, &judged.obstacles, &found.findings, races)?;
    let mut leaving = Leaving::new(alloc, wish.choice)?;
    let left = leaving.left_of(
        alloc,
        &named.sources,
        &found.findings,
        &found.report.races,
        &found.report.clashes,
    )?;
    let obstacles = leaving.obstacles(alloc, &named, obstacles)?;
    let left_out = leaving.left_out(hidden);
    let written = left_written(
        alloc,
        wish,
        named,
        certificate,
        found,
        judged,
        &obstacles,
        &left,
        left_out,
    )?;
    Ok(written)
}

// By what a certificate is named, where each thing that it refers to lives as long.
fn named_of<'a>(
    history: &'a History,
    sources: Sources<'a>,
    places: &'a Observation,
    certificate: &'a Certificate,
    known: &'a Known,
    idle: &'a [bool],
) -> Named<'a> {
    Named {
        sources,
        observation: places,
        scene: &certificate.scene,
        targets: last_targets(history),
        began: &known.began,
        up_to_date: idle,
    }
}

// What is written of a certificate, and of what is known of each edge.
fn known_written(
    alloc: Global,
    history: &History,
    basis: &Basis<'_>,
    found: &Found<'_>,
    wish: Wish<'_>,
    places: &Observation,
    certificate: &Certificate,
    known: &Known,
) -> Result<Written, RecordingFault>
    ensures { IfOk result (λ written. SaysExactly
        (is_certain (beside found.now wish.entry.filters.now) wish.entry.is_strict places.now
        wish.entry.trust.now.lines.items certificate.now)
        wish.entry.form (has_baseline_in wish.entry.choice) written) }
{
    let races = unhidden(alloc, wish.filters, &found.report.races)?;
    let beside = beside_of(found, &races);
    let judged = judge(
        alloc,
        places,
        wish.trust,
        certificate,
        &beside,
        wish.is_strict,
    )?;
    let idle = idle_edges(alloc, history)?;
    let named = named_of(history, basis.sources, places, certificate, known, &idle);
    let hidden = hidden_places(basis.sight);
    let written = judged_written(
        alloc,
        wish,
        named,
        certificate,
        found,
        &races,
        &judged,
        hidden,
    )?;
    Ok(written)
}

// A certificate by an observation of version 2, and what is written of it.
fn certified_at(
    alloc: Global,
    history: &History,
    basis: &Basis<'_>,
    found: &Found<'_>,
    wish: Wish<'_>,
    places: &Observation,
    edges: &[u32],
) -> Result<CertificateAnswer, RecordingFault>
    requires { AllByRecursion (λ edge. edge < length history.now.timeline.manifest.builds) edges.now }
    ensures { IfOk result (λ certified. IsJudgedAt history.now.timeline basis.now found.now wish.entry places.now
        edges.now certified) }
{
    let known = known_of(alloc, history, basis.files, places, wish.filters)?;
    let certificate = certificate_of(alloc, history, basis.sources.builds, places, edges, &known)?;
    let written = known_written(
        alloc,
        history,
        basis,
        found,
        wish,
        places,
        &certificate,
        &known,
    )?;
    Ok(CertificateAnswer {
        certificate: Some(certificate),
        written,
    })
}

// What is said of a recording of version 1, where each thing that it refers to lives as long.
fn outdated_of<'a>(
    wish: Wish<'_>,
    sources: Sources<'a>,
    found: &Found<'_>,
    left: &'a Left<'a>,
    left_out: LeftOut,
) -> Outdated<'a> {
    Outdated {
        sources,
        findings: &left.findings,
        races: &left.races,
        clashes: &left.clashes,
        replayed: found.report.replayed,
        commands: found.report.ran,
        whole: found.whole,
        left_out,
        stale: found.stale,
        is_strict: wish.is_strict,
    }
}

// What is written of a recording of version 1, by what is left of its findings.
fn old_written(
    alloc: Global,
    wish: Wish<'_>,
    sources: Sources<'_>,
    found: &Found<'_>,
    left: &Left<'_>,
    left_out: LeftOut,
) -> Result<Written, AllocError>
    ensures { IfOk result (λ written. SaysExactly false wish.entry.form (has_baseline_in wish.entry.choice) written) }
{
    let outdated = outdated_of(wish, sources, found, left, left_out);
    let written = outdated.written(alloc, wish)?;
    Ok(written)
}

// What is written where the recording has no observation of version 2.
fn outdated_written(
    alloc: Global,
    basis: &Basis<'_>,
    found: &Found<'_>,
    wish: Wish<'_>,
) -> Result<Written, RecordingFault>
    ensures { IfOk result (λ written. SaysExactly false wish.entry.form (has_baseline_in wish.entry.choice) written) }
{
    let mut leaving = Leaving::new(alloc, wish.choice)?;
    let left = leaving.left_of(
        alloc,
        &basis.sources,
        &found.findings,
        &found.report.races,
        &found.report.clashes,
    )?;
    let left_out = leaving.left_out(hidden_places(basis.sight));
    let written = old_written(alloc, wish, basis.sources, found, &left, left_out)?;
    Ok(written)
}

// What the commands of a recording were seen to do, place by place, and their edges.
#[derive(Clone, Copy)]
pub(crate) struct Seen<'a> {
    pub(crate) places: &'a Observation,
    pub(crate) edges: &'a [u32],
}

// What is seen by an observation of version 2 whose commands are of edges, of which there are so many.
fn seen_by<'a>(sight: &'a Sight, count: u32) -> Option<Seen<'a>>
    ensures none { IfNone result (placed count sight.now ≡ None) }
    ensures some { IfSome result (λ seen. IsSeen count (Some sight.now) seen) }
{
    let edges = sight.observed.edges.as_slice();
    if !all_below(edges, count) {
        return None;
    }
    match &sight.observed.places {
        Some(places) => Some(Seen { places, edges }),
        None => None,
    }
}

// The same of a recording that may have no observation.
fn seen_in<'a>(sight: Option<&'a Sight>, count: u32) -> Option<Seen<'a>>
    ensures none { IfNone result (places_of count (option_copied sight.entry) ≡ None) }
    ensures some { IfSome result (λ seen. IsSeen count (option_copied sight.entry) seen) }
{
    match sight {
        Some(sight) => seen_by(sight, count),
        None => None,
    }
}

/// Whether no order of the commands of a recording gives any of them other inputs, as it is written. `found` has what
/// [`found_in`] finds in the recording. Without an observation of version 2 it is not certain.
///
/// What is written says `certain` exactly where nothing stands in the way. The certificate has no obstacle but flags that
/// the user trusts. `found` has no finding and no clash, no error names a race of it, and filters hide each race of it.
/// The recording counts whole, and a command ran. With `is_strict` no flag is trusted, and the certificate has no
/// assumption but two. A baseline changes nothing of that.
///
/// # Errors
/// [`RecordingFault::Observed`] with the first fault of the texts of a wish; [`RecordingFault::Memory`] where an
/// allocation was refused, or where there are more entries, commands or flags than a number of 32 bits counts.
pub fn certified(
    alloc: Global,
    history: &History,
    basis: &Basis<'_>,
    found: &Found<'_>,
    wish: Wish<'_>,
) -> Result<CertificateAnswer, RecordingFault>
    ensures { IfOk result (λ certified. IsJudged history.now.timeline basis.now found.now wish.entry certified) }
{
    match seen_in(basis.sight, history.graph().edges()) {
        Some(seen) => {
            let answer = certified_at(alloc, history, basis, found, wish, seen.places, seen.edges)?;
            Ok(answer)
        }
        None => {
            let written = outdated_written(alloc, basis, found, wish)?;
            Ok(CertificateAnswer {
                certificate: None,
                written,
            })
        }
    }
}
