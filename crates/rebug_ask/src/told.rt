//! Answers about a recording.
ghost use Rattle.std.specs.Prelude.{◌≡◌, ◌+◌, ◌≤◌, length, IfOk};

use crate::mending::{mend_answer, provoke_answer};
use rev_conflicts_text::{Finding, pair_of};
use rev_desk::Desk;
use rev_findings::{
    Basis, Origin, Sight, add_hints, count_findings, hidden_places, last_runs, names_in,
    output_names, report_of, seen_findings, sight_in, witness_of,
};
use rev_folder::{
    FilterTexts, Place, Recording, filters_in, observed_sentence, place_of, read_beside,
    read_filters, read_names, read_observed, read_recording, say_incomplete,
};
use rev_history::History;
use rev_manifest::Manifest;
use rev_paths::{Name, PathFault};
use rev_program::{ProgramFault, ReadFault, USAGE, read_named};
use rev_races_text::{Report, Sources};
use rev_recording::{RecordingFault, fault_line, open, replay, replay_text};
use rev_script::send;
use rev_sentences::{Inputs, sentence};
use rev_trace::Trace;
use rev_verdicts::{
    Answer, Choice, Form, Leaving, Wish, Written, certified, found_in, trust_in, written_report,
};
use std::alloc::{AllocError, Global};
use std::rt::Files;
use std::{fs, io, mem};

// The status of a recording that has a fault.
const FAULT: u8 = 1;
// The most bytes of a file by which findings are left out.
const CHOICE_BYTES: usize = 67_108_864;

// The most bytes of the file of what failed commands printed.
const PRINTED_BYTES: usize = 268_435_456;

/// What is asked of the races of a recording.
#[derive(Clone, Copy, PartialEq, Eq)]
pub enum OfRaces {
    /// The races, in a form.
    All(Form),
    /// A patch that mends the races.
    Mend,
    /// A witness of the race of this number, from 1.
    Witness(u64),
    /// A patch that has the race of this number, from 1, happen in each build.
    Provoke(u64),
}

/// What is asked.
#[derive(Clone, Copy, PartialEq, Eq)]
pub enum How {
    /// The races.
    Races(OfRaces),
    /// How many commands there were, and the first that was refused.
    Replay,
    /// Whether no order gives the commands other inputs, in a form.
    Certify {
        /// The form.
        form: Form,
        /// Whether each assumption but two stands in the way.
        is_strict: bool,
    },
}

/// A question about a recording, with the files by which findings are left out.
#[derive(Clone, Copy)]
pub struct Question<'a> {
    /// The recorder's folder, or its manifest.
    pub recording: &'a str,
    /// What is asked.
    pub how: How,
    /// The file of further filters, if it was named.
    pub filters: Option<&'a str>,
    /// The baseline, if it was named.
    pub baseline: Option<&'a str>,
    /// The file for a baseline that knows all that is found, if it was named.
    pub write_baseline: Option<&'a str>,
    /// The file of trusted flags, if it was named.
    pub trust: Option<&'a str>,
}

// What is asked of the bytes of a recording, the file of other names, that of what failed commands printed, and that of
// what commands were seen to do, where there is one.
#[derive(Clone, Copy)]
struct Inquiry<'a> {
    read: &'a Recording,
    names: &'a [u8],
    printed: &'a [u8],
    observed: Option<&'a [u8]>,
    choice: Choice<'a>,
    trust: Option<&'a [u8]>,
    how: How,
}

// What is asked of what is found in a recording.
#[derive(Clone, Copy)]
enum Asked {
    // The races.
    Races(OfRaces),
    // A certificate, in a form, and whether a strict one.
    Certificate(Form, bool),
}

/// The names of the files that the manifest was read from.
pub fn names_of(alloc: Global, files: &[(Vec<u8>, Vec<u8>)]) -> Result<Vec<Name>, AllocError> {
    let mut names = Vec::new(alloc);
    for (name, _) in files {
        match Name::new(alloc, name) {
            Ok(name) => names.push(name)?,
            Err(PathFault::Memory) => return Err(AllocError),
            Err(_) => {}
        }
    }
    Ok(names)
}

// The certificate of a recording, as it is written.
fn certificate_answer<'a>(
    alloc: Global,
    inquiry: Inquiry<'_>,
    form: Form,
    is_strict: bool,
    desk: &'a Desk,
    basis: &Basis<'a>,
) -> Result<Answer, RecordingFault> {
    let trust = trust_in(alloc, inquiry.trust)?;
    let filters = filters_in(alloc, inquiry.choice.filters)?;
    let found = found_in(alloc, desk, basis)?;
    let wish = Wish {
        form,
        is_strict,
        trust: &trust,
        filters: &filters,
        choice: inquiry.choice,
    };
    let answer = certified(alloc, desk.history(), basis, &found, wish)?;
    Ok(Answer::Written(answer.written))
}

// The answer about what is found in a recording that was replayed.
fn answer_by_basis<'a>(
    alloc: Global,
    inquiry: Inquiry<'_>,
    asked: Asked,
    manifest: &Manifest,
    desk: &'a Desk,
    basis: &Basis<'a>,
) -> Result<Answer, RecordingFault> {
    match asked {
        Asked::Races(asked) => found_answer(alloc, inquiry, asked, manifest, desk, basis),
        Asked::Certificate(form, is_strict) => {
            certificate_answer(alloc, inquiry, form, is_strict, desk, basis)
        }
    }
}

// The answer about a recording that was replayed, whose trace has so many commands.
fn answer_of(
    alloc: Global,
    inquiry: Inquiry<'_>,
    asked: Asked,
    manifest: &Manifest,
    desk: &Desk,
    sight: Option<&Sight>,
    commands: u64,
) -> Result<Answer, RecordingFault> {
    let files = names_of(alloc, &inquiry.read.files)?;
    let runs = last_runs(alloc, desk.history())?;
    let entries = rev_printed::read(alloc, desk.history().graph(), inquiry.printed)?;
    let names = names_in(alloc, inquiry.names)?;
    let names = output_names(alloc, desk.history().graph(), &names)?;
    let basis = Basis {
        sources: Sources {
            builds: manifest.builds(),
            files: &inquiry.read.files,
            runs: &runs,
            origins: Some(&inquiry.read.origins),
        },
        files: &files,
        entries: &entries,
        names: &names,
        sight,
        commands,
    };
    answer_by_basis(alloc, inquiry, asked, manifest, desk, &basis)
}

// The findings that filters and a baseline do not leave out. What they leave out of a report is taken out of it.
fn leave_out<'a>(
    alloc: Global,
    choice: Choice<'_>,
    sources: &Sources<'a>,
    findings: Vec<Finding<'a>>,
    report: &mut Report<'a>,
) -> Result<Vec<Finding<'a>>, RecordingFault> {
    let mut leaving = Leaving::new(alloc, choice)?;
    let told = leaving.findings(alloc, sources, findings)?;
    let races = mem::replace(&mut report.races, Vec::new(alloc));
    report.races = leaving.races(alloc, sources, races)?;
    report.clashes = leaving.clashes(alloc, sources, &report.clashes)?;
    report.left_out = leaving.left_out(report.left_out.hidden);
    Ok(told)
}

// The answer that tells what was found.
fn found_answer<'a>(
    alloc: Global,
    inquiry: Inquiry<'_>,
    asked: OfRaces,
    manifest: &Manifest,
    desk: &'a Desk,
    basis: &Basis<'a>,
) -> Result<Answer, RecordingFault> {
    let mut report = report_of(alloc, desk, basis)?;
    let findings = findings_left(alloc, inquiry.choice, desk, basis, &mut report)?;
    Ok(answer_with(
        alloc,
        inquiry,
        asked,
        manifest,
        desk,
        basis,
        &findings,
        &mut report,
    )?)
}

// The findings by an observation that are left, which the report counts.
fn findings_left<'a>(
    alloc: Global,
    choice: Choice<'_>,
    desk: &'a Desk,
    basis: &Basis<'a>,
    report: &mut Report<'a>,
) -> Result<Vec<Finding<'a>>, RecordingFault> {
    let sources = &basis.sources;
    let (builds, sight) = (sources.builds, basis.sight);
    let findings = seen_findings(alloc, desk.history(), builds, sight, &report.races)?;
    report.left_out.hidden = hidden_places(sight);
    let findings = leave_out(alloc, choice, sources, findings, report)?;
    count_findings(sight, &findings, report);
    Ok(findings)
}

// The answer that is asked for, by the findings and the report.
fn answer_with<'a>(
    alloc: Global,
    inquiry: Inquiry<'_>,
    asked: OfRaces,
    manifest: &Manifest,
    desk: &'a Desk,
    basis: &Basis<'a>,
    findings: &[Finding<'a>],
    report: &mut Report<'a>,
) -> Result<Answer, AllocError> {
    let (sources, own) = (&basis.sources, inquiry.read.own.as_slice());
    match asked {
        OfRaces::Witness(number) | OfRaces::Provoke(number)
            if is_of_no_order(findings, report, number) => {
            Ok(Answer::NotUnderstood(OF_NO_ORDER))
        }
        OfRaces::Witness(number) => {
            witness_answer(alloc, desk, pair_with(findings, report, number))
        }
        OfRaces::Provoke(number) => {
            let pair = pair_with(findings, report, number);
            provoke_answer(alloc, manifest, desk, sources, own, pair)
        }
        OfRaces::Mend => mend_answer(alloc, manifest, desk, sources, own, findings, report),
        OfRaces::All(form) => {
            add_hints(alloc, desk, basis, report)?;
            let choice = inquiry.choice;
            let written = written_report(alloc, choice, form, sources, findings, report)?;
            Ok(Answer::Written(written))
        }
    }
}

// What is said where a schedule or a patch is asked for of a finding that no order of commands changes.
const OF_NO_ORDER: &str =
    "no order of the commands changes that finding, so it has no witness and no patch provokes it";

// Whether what has a number is there under every order of the commands.
fn is_of_no_order(findings: &[Finding<'_>], report: &Report<'_>, number: u64) -> bool {
    0 < number && number <= report.before && pair_of(findings, number).is_none()
}

// The user and the maker of what has a number, whose order a schedule can change.
fn pair_with(findings: &[Finding<'_>], report: &Report<'_>, number: u64) -> Option<(u32, u32)> {
    if number <= report.before {
        return pair_of(findings, number);
    }
    report.pair(number)
}

// The answer that has a witness of a user that starts before a maker.
fn witness_answer(
    alloc: Global,
    desk: &Desk,
    pair: Option<(u32, u32)>,
) -> Result<Answer, AllocError> {
    let witness = match pair {
        Some((user, maker)) => witness_of(alloc, desk.history().graph(), user, maker)?,
        None => None,
    };
    match witness {
        Some(text) => Ok(Answer::text(text, 0)),
        None => Ok(Answer::NotUnderstood(
            "no race has that number; `races` tells the number of each, and own outputs have no witness",
        )),
    }
}

/// How many commands the lanes of a trace have.
pub fn command_count(trace: &Trace) -> u64 {
    let mut count = 0;
    for lane in &trace.lanes {
        count = u64::saturating_add(count, lane.len() as u64);
    }
    count
}

// What the commands of a history were seen to do, where the recording has that.
fn sight_of(
    alloc: Global,
    inquiry: Inquiry<'_>,
    manifest: &Manifest,
    history: &History,
) -> Result<Option<Sight>, RecordingFault> {
    match inquiry.observed {
        Some(bytes) => {
            let files = names_of(alloc, &inquiry.read.files)?;
            let names = names_in(alloc, inquiry.names)?;
            let origin = Origin {
                files: &files,
                builds: manifest.builds(),
                names: &names,
            };
            Ok(Some(sight_in(alloc, history, origin, bytes, inquiry.choice.filters)?))
        }
        None => Ok(None),
    }
}

/// The desk of a recording after its last command, with the manifest and the count of its commands.
#[derive(Clone, Copy)]
pub struct EndedDesk<'a, 'b> {
    /// The manifest.
    pub manifest: &'a Manifest,
    /// The desk.
    pub desk: &'b Desk,
    /// How many commands the recording has.
    pub commands: u64,
}

// The answer about what is found in a recording that was replayed.
fn answer_after(
    alloc: Global,
    inquiry: Inquiry<'_>,
    asked: Asked,
    ended: EndedDesk<'_, '_>,
) -> Result<Answer, RecordingFault> {
    let EndedDesk {
        manifest,
        desk,
        commands,
    } = ended;
    let sight = sight_of(alloc, inquiry, manifest, desk.history())?;
    answer_of(
        alloc,
        inquiry,
        asked,
        manifest,
        desk,
        sight.as_ref(),
        commands,
    )
}

// The answer about a trace, by the desk of its recording.
fn answer_from(
    alloc: Global,
    inquiry: Inquiry<'_>,
    manifest: &Manifest,
    trace: &Trace,
    desk: &mut Desk,
) -> Result<Answer, RecordingFault>
    requires few { length trace.now.lanes.items ≤ Trace.MAX_LANES }
    requires lanes { desk.old.lanes ≡ length trace.now.lanes.items + 1 }
{
    replay(alloc, desk, trace)?;
    let commands = command_count(trace);
    match inquiry.how {
        How::Replay => Ok(Answer::text(replay_text(alloc, desk)?, 0)),
        How::Certify { form, is_strict } => {
            let ended = EndedDesk {
                manifest,
                desk,
                commands,
            };
            answer_after(alloc, inquiry, Asked::Certificate(form, is_strict), ended)
        }
        How::Races(asked) => {
            let ended = EndedDesk {
                manifest,
                desk,
                commands,
            };
            answer_after(alloc, inquiry, Asked::Races(asked), ended)
        }
    }
}

// The answer about a trace that was read.
fn replayed(
    alloc: Global,
    inquiry: Inquiry<'_>,
    manifest: &Manifest,
    trace: &Trace,
) -> Result<Answer, RecordingFault>
    requires { length trace.now.lanes.items ≤ Trace.MAX_LANES }
{
    let mut desk = open(alloc, manifest, trace)?;
    let answer = answer_from(alloc, inquiry, manifest, trace, &mut desk);
    leave(desk);
    answer
}

/// Leaves a desk to the system, which takes all memory back when the program ends.
pub fn leave(desk: Desk) {
    mem::forget(desk);
}

/// The manifest of files.
pub fn manifest_of(
    alloc: Global,
    files: &[(Vec<u8>, Vec<u8>)],
) -> Result<Manifest, RecordingFault> {
    match rev_manifest::read(alloc, files) {
        Ok(manifest) => Ok(manifest),
        Err(rev_manifest::ReadFault::Manifest(fault)) => Err(RecordingFault::Manifest(fault)),
        Err(rev_manifest::ReadFault::Memory) => Err(RecordingFault::Memory),
    }
}

/// The trace of bytes.
pub fn trace_of(alloc: Global, bytes: &[u8]) -> Result<Trace, RecordingFault>
    ensures { IfOk result (λ trace. length trace.lanes.items ≤ Trace.MAX_LANES) }
{
    match rev_trace::read(alloc, bytes) {
        Ok(trace) => Ok(trace),
        Err(rev_fields::ReadFault::Numbered(fault)) => Err(RecordingFault::Trace(fault)),
        Err(rev_fields::ReadFault::Memory) => Err(RecordingFault::Memory),
    }
}

// The answer about the bytes of a recording.
fn answer_about(alloc: Global, inquiry: Inquiry<'_>) -> Result<Answer, RecordingFault> {
    let manifest = manifest_of(alloc, &inquiry.read.files)?;
    let trace = trace_of(alloc, &inquiry.read.trace)?;
    replayed(alloc, inquiry, &manifest, &trace)
}

/// Says a sentence on the standard error. One function prints, since what a print stands for is proved at each.
pub fn say<R: Eprint>(rt: &R, sentence: &str) {
    let _ = eprintln!(rt; "rebug: {sentence}");
}

// The sentence that says why a recording is not replayed; none where there is nothing to say.
fn reason_of(
    alloc: Global,
    read: &Recording,
    fault: &RecordingFault,
) -> Result<Option<Vec<u8>>, AllocError> {
    if let RecordingFault::Observed(fault) = fault {
        return Ok(Some(observed_sentence(alloc, *fault)?));
    }
    let Ok(line) = fault_line(alloc, &read.files, fault) else {
        return Err(AllocError);
    };
    let inputs = Inputs {
        files: &read.files,
        trace: (b"trace", &read.trace),
        script: (b"script", b""),
    };
    sentence(alloc, &line, inputs)
}

/// Says why a recording is not replayed.
pub fn refuse<'a, R: Eprint + AllocGlobal>(
    rt: &R,
    read: &Recording,
    fault: &RecordingFault,
) -> Result<u8, ProgramFault<'a>> {
    if let Some(said) = reason_of(rt.alloc(), read, fault)? {
        rev_program::say(rt, &said);
    }
    Ok(FAULT)
}

// Says what the recorder said of dyndep files.
fn say_note<R: Eprint + AllocGlobal>(rt: &R, note: &[u8]) -> Result<(), AllocError> {
    let mut text = Vec::from_slice(rt.alloc(), b"note: ")?;
    text.extend_from_slice(note)?;
    rev_program::say(rt, &text);
    Ok(())
}

/// Says what the recorder of a recording said of dyndep files: what the recorded manifest has otherwise than Ninja had it.
///
/// # Errors
/// [`AllocError`] only where an allocation was refused.
pub fn say_notes<R: Eprint + AllocGlobal>(rt: &R, read: &Recording) -> Result<(), AllocError> {
    for note in &read.notes {
        say_note(rt, note)?;
    }
    Ok(())
}

/// Writes bytes to the standard output.
pub fn write<'a, R: Print>(rt: &R, bytes: &[u8]) -> Result<(), ProgramFault<'a>> {
    Ok(send(&mut io::writer(rt), bytes)?)
}

// Writes a text and the baseline beside it, and gives the program's status.
fn put<'a, R: Files + Print>(
    rt: &R,
    question: Question<'a>,
    written: &Written,
) -> Result<u8, ProgramFault<'a>> {
    write(rt, &written.text)?;
    if let (Some(name), Some(text)) = (question.write_baseline, &written.baseline) {
        if fs::write(rt, name, text).is_err() {
            return Err(ProgramFault::Out(name));
        }
    }
    Ok(written.status)
}

/// The bytes of a file that the command line names, if it does.
pub fn read_choice<'a, R: Files + AllocGlobal>(
    rt: &R,
    name: Option<&'a str>,
) -> Result<Option<Vec<u8>>, ProgramFault<'a>> {
    let Some(name) = name else {
        return Ok(None);
    };
    match read_named(rt, name, CHOICE_BYTES) {
        Ok(bytes) => Ok(Some(bytes)),
        Err(ReadFault::Memory) => Err(ProgramFault::Memory),
        Err(ReadFault::Unread(why)) => Err(ProgramFault::File(name, why)),
    }
}

// The file of what failed commands printed; empty where there is none.
fn read_printed<'a, R: Files + AllocGlobal>(
    rt: &R,
    recording: &'a str,
    place: Place<'_>,
) -> Result<Vec<u8>, ProgramFault<'a>> {
    match read_beside(rt, recording, place, "output", PRINTED_BYTES)? {
        Some(bytes) => Ok(bytes),
        None => Ok(Vec::new(rt.alloc())),
    }
}

// What is read of a recording beside its manifest and its trace.
struct Sidecars {
    names: Vec<u8>,
    printed: Vec<u8>,
    observed: Option<Vec<u8>>,
    filters: Option<Vec<u8>>,
}

// Written, since a derived drop is proved again at each exit of each caller.
impl Drop for Sidecars {
    fn drop(self) {
        let Sidecars {
            names: _names,
            printed: _printed,
            observed: _observed,
            filters: _filters,
        } = self;
    }
}

// Reads what stands beside the manifest and the trace of a recording.
fn read_sidecars<'a, R: Files + AllocGlobal>(
    rt: &R,
    recording: &'a str,
    place: Place<'_>,
) -> Result<Sidecars, ProgramFault<'a>> {
    Ok(Sidecars {
        names: read_names(rt, recording, place)?,
        printed: read_printed(rt, recording, place)?,
        observed: read_observed(rt, recording, place)?,
        filters: read_filters(rt, recording, place)?,
    })
}

// What is asked of a recording with the texts by which a question leaves findings out.
fn inquiry_of<'a>(
    read: &'a Recording,
    beside: &'a Sidecars,
    how: How,
    filters: Option<&'a [u8]>,
    baseline: Option<&'a [u8]>,
    trust: Option<&'a [u8]>,
    writes: bool,
) -> Inquiry<'a> {
    let filters = FilterTexts {
        beside: beside.filters.as_deref(),
        named: filters,
    };
    Inquiry {
        read,
        names: &beside.names,
        printed: &beside.printed,
        observed: beside.observed.as_deref(),
        choice: Choice {
            filters,
            baseline,
            writes,
        },
        trust,
        how,
    }
}

// What is asked of a recording by `races`, without a baseline.
fn races_inquiry<'a>(read: &'a Recording, beside: &'a Sidecars, form: Form) -> Inquiry<'a> {
    let how = How::Races(OfRaces::All(form));
    inquiry_of(read, beside, how, None, None, None, false)
}

// The answer about a recording: by a desk that was replayed, where there is one.
fn answer_by(
    alloc: Global,
    inquiry: Inquiry<'_>,
    form: Form,
    ended: Option<EndedDesk<'_, '_>>,
) -> Result<Answer, RecordingFault> {
    match ended {
        Some(ended) => answer_after(alloc, inquiry, Asked::Races(OfRaces::All(form)), ended),
        None => answer_about(alloc, inquiry),
    }
}

/// What `races` tells of a recording whose manifest and trace were read, in a form: by a desk that was replayed, where
/// there is one, and else by a replay. `None` where a file beside them cannot be read.
///
/// # Errors
/// The fault of the recording, where it has one; [`RecordingFault::Memory`] only where memory was refused.
pub fn races_in<R: Files + AllocGlobal>(
    rt: &R,
    recording: &str,
    place: Place<'_>,
    read: &Recording,
    ended: Option<EndedDesk<'_, '_>>,
    form: Form,
) -> Result<Option<Vec<u8>>, RecordingFault> {
    let beside = match read_sidecars(rt, recording, place) {
        Ok(beside) => beside,
        Err(ProgramFault::Memory) => return Err(RecordingFault::Memory),
        Err(_) => return Ok(None),
    };
    match answer_by(rt.alloc(), races_inquiry(read, &beside, form), form, ended)? {
        Answer::Written(written) => Ok(Some(Vec::from_slice(rt.alloc(), &written.text)?)),
        Answer::NotUnderstood(sentence) => Ok(Some(Vec::from_slice(
            rt.alloc(),
            sentence.as_bytes(),
        )?)),
    }
}

// Writes what is asked of what was read, and gives the program's status.
fn tell_of<'a, R: Files + Print + Eprint + AllocGlobal>(
    rt: &R,
    question: Question<'a>,
    read: &Recording,
    beside: &Sidecars,
) -> Result<u8, ProgramFault<'a>> {
    let filters = read_choice(rt, question.filters)?;
    let baseline = read_choice(rt, question.baseline)?;
    let trust = read_choice(rt, question.trust)?;
    let writes = question.write_baseline.is_some();
    let (filters, baseline) = (filters.as_deref(), baseline.as_deref());
    let trust = trust.as_deref();
    let inquiry = inquiry_of(read, beside, question.how, filters, baseline, trust, writes);
    put_answer(rt, question, inquiry)
}

// Writes the answer to what is asked, and gives the program's status.
fn put_answer<'a, R: Files + Print + Eprint + AllocGlobal>(
    rt: &R,
    question: Question<'a>,
    inquiry: Inquiry<'_>,
) -> Result<u8, ProgramFault<'a>> {
    match answer_about(rt.alloc(), inquiry) {
        Ok(Answer::Written(written)) => put(rt, question, &written),
        Ok(Answer::NotUnderstood(sentence)) => {
            say(rt, sentence);
            Ok(USAGE)
        }
        Err(fault) => refuse(rt, inquiry.read, &fault),
    }
}

/// Writes what is asked of a recording to the standard output, and gives the program's status.
pub fn tell<'a, R: Files + Print + Eprint + AllocGlobal>(
    rt: &R,
    question: Question<'a>,
) -> Result<u8, ProgramFault<'a>> {
    let recording = question.recording;
    let place = place_of(rt, recording);
    let read = read_recording(rt, recording, place)?;
    say_notes(rt, &read)?;
    let beside = read_sidecars(rt, recording, place)?;
    say_incomplete(rt, beside.observed.as_deref())?;
    if beside.observed.is_none() && matches!(question.how, How::Certify { .. }) {
        return Err(ProgramFault::NotObserved(recording));
    }
    tell_of(rt, question, &read, &beside)
}
