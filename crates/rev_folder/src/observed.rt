//! What the commands of a recording were seen to do: the file `observed` beside its trace.
ghost use Rattle.std.specs.Prelude.{◌≡◌, ◌<◌, Some, length, map, IfOk, IfSome};
ghost use Rattle.std.specs.List.{AllByRecursion};
ghost use Rattle.std.specs.Option.{option_copied};
ghost use Rattle.rev_observation.specs.Blocks.{outputs_of as outputs_of_places};
ghost use Rattle.rev_observation.specs.Says.{LinesSay, statements_of};
ghost use Rattle.rev_observed.specs.Joins.{edge_of};
ghost use Rattle.rev_observed.specs.Observations.{outputs_of};

use crate::files::{Place, read_beside};
use rev_filters::Filters;
use rev_graph::Graph;
use rev_observation::{Observation as Places, as_version_1, incomplete_line, is_version_2};
use rev_observed::{JoinFault, Observation, ReadFault, edges};
use rev_program::{ProgramFault, say};
use rev_recording::{ObservedFault, RecordingFault};
use std::alloc::{AllocError, Global};
use std::rt::Files;

// The most bytes of the file.
const OBSERVED_BYTES: usize = 1_073_741_824;

/// What the commands of a recording were seen to do, and the edge of each of them.
pub struct Observed {
    /// What they did with files, in the words of version 1, which most answers go by.
    pub observation: Observation,
    /// What they saw and changed place by place, where the file is of version 2. It has the same commands in the same
    /// order. Its [`Places::is_complete`] says whether the file has its last line.
    pub places: Option<Places>,
    /// For each command its edge, as [`rev_observed::edges`] gives them.
    pub edges: Vec<u32>,
}

// Written, since a derived drop is proved again at each exit of each caller.
impl Drop for Observed {
    fn drop(self) {
        let Observed {
            observation: _observation,
            places: _places,
            edges: _edges,
        } = self;
    }
}

// What is said of a file whose last line is another one than is due; nothing of any other file.
fn incomplete_sentence(alloc: Global, bytes: &[u8]) -> Result<Option<Vec<u8>>, AllocError> {
    if !is_version_2(bytes) {
        return Ok(None);
    }
    let Some(line) = incomplete_line(alloc, bytes)? else {
        return Ok(None);
    };
    let text = format!(in alloc;
        "observed:{line}: not the last line that is due: lines are missing or changed (107, docs/CODES.md)"
    )?;
    Ok(Some(text.into_bytes()))
}

/// Says on the standard error that a file is incomplete, where it is of version 2 and is. Its bytes are given, where
/// there is such a file.
///
/// # Errors
/// [`ProgramFault::Memory`] only where an allocation was refused.
pub fn say_incomplete<'a, R: Eprint + AllocGlobal>(
    rt: &R,
    bytes: Option<&[u8]>,
) -> Result<(), ProgramFault<'a>> {
    let Some(bytes) = bytes else {
        return Ok(());
    };
    if let Some(sentence) = incomplete_sentence(rt.alloc(), bytes)? {
        say(rt, &sentence);
    }
    Ok(())
}

/// The bytes of the file; none where the build was recorded without `--observe`.
///
/// # Errors
/// As [`read_beside`].
pub fn read_observed<'a, R: Files + AllocGlobal>(
    rt: &R,
    recording: &'a str,
    place: Place<'_>,
) -> Result<Option<Vec<u8>>, ProgramFault<'a>> {
    read_beside(rt, recording, place, "observed", OBSERVED_BYTES)
}

/// The bytes of the file that says which paths answers leave out, or nothing where there is not such a file.
///
/// # Errors
/// As [`read_beside`].
pub fn read_filters<'a, R: Files + AllocGlobal>(
    rt: &R,
    recording: &'a str,
    place: Place<'_>,
) -> Result<Option<Vec<u8>>, ProgramFault<'a>> {
    read_beside(rt, recording, place, "filters", OBSERVED_BYTES)
}

/// The texts that say which paths answers leave out: that of the file beside the trace, and that of the file which the
/// user names, where there are such files.
#[derive(Clone, Copy)]
pub struct FilterTexts<'a> {
    /// The file beside the trace.
    pub beside: Option<&'a [u8]>,
    /// The file that the user names.
    pub named: Option<&'a [u8]>,
}

// The filters that the bytes of a file say, which faults name so.
fn filters_of(
    alloc: Global,
    file: &'static str,
    bytes: Option<&[u8]>,
) -> Result<Filters, RecordingFault> {
    match rev_filters::read(alloc, bytes.unwrap_or(b"")) {
        Ok(filters) => Ok(filters),
        Err(rev_filters::ReadFault::Memory) => Err(RecordingFault::Memory),
        Err(rev_filters::ReadFault::Numbered(fault)) => {
            Err(RecordingFault::Observed(ObservedFault {
                file,
                line: fault.line,
                code: fault.kind.code(),
            }))
        }
    }
}

/// The filters that texts say.
///
/// # Errors
/// [`RecordingFault::Observed`] with the first fault of the filters; [`RecordingFault::Memory`] only where an allocation
/// was refused.
pub fn filters_in(alloc: Global, texts: FilterTexts<'_>) -> Result<Vec<Filters>, RecordingFault> {
    let mut filters = Vec::new(alloc);
    filters.push(filters_of(alloc, "filters", texts.beside)?)?;
    filters.push(filters_of(alloc, "--filters", texts.named)?)?;
    Ok(filters)
}

/// A mark for each path of an observation: whether the filters of these texts hide it.
///
/// # Errors
/// As [`filters_in`].
pub fn hidden_by(
    alloc: Global,
    observation: &Observation,
    texts: FilterTexts<'_>,
) -> Result<Vec<bool>, RecordingFault>
    ensures { IfOk result (λ hidden. length hidden.items ≡ length observation.now.paths) }
{
    let filters = filters_in(alloc, texts)?;
    let hidden = rev_filters::hidden(alloc, &filters, observation.paths())?;
    Ok(hidden)
}

/// The same of the file beside the trace alone.
///
/// # Errors
/// As [`hidden_by`].
pub fn hidden_in(
    alloc: Global,
    observation: &Observation,
    filters: Option<&[u8]>,
) -> Result<Vec<bool>, RecordingFault>
    ensures { IfOk result (λ hidden. length hidden.items ≡ length observation.now.paths) }
{
    let texts = FilterTexts {
        beside: filters,
        named: None,
    };
    hidden_by(alloc, observation, texts)
}

// The line of a command in the bytes, which are of one version or the other.
fn line_of(alloc: Global, bytes: &[u8], place: usize) -> Result<Option<u64>, AllocError> {
    if is_version_2(bytes) {
        return rev_observation::command_line(alloc, bytes, place);
    }
    rev_observed::command_line(alloc, bytes, place)
}

// The fault of a command whose output is no edge's first, with the line that names it.
fn lost_edge(alloc: Global, bytes: &[u8], place: usize) -> RecordingFault {
    match line_of(alloc, bytes, place) {
        Ok(line) => RecordingFault::Observed(ObservedFault {
            file: "observed",
            line: line.unwrap_or(0),
            code: ObservedFault::NO_SUCH_EDGE,
        }),
        Err(AllocError) => RecordingFault::Memory,
    }
}

// The fault of a recording whose observation has a fault.
fn unread(fault: ReadFault) -> RecordingFault {
    match fault {
        ReadFault::Memory => RecordingFault::Memory,
        ReadFault::Numbered(fault) => RecordingFault::Observed(ObservedFault {
            file: "observed",
            line: fault.line,
            code: fault.kind.code(),
        }),
    }
}

// What the bytes of the file say place by place, where they are of version 2.
fn places_of(alloc: Global, bytes: &[u8]) -> Result<Option<Places>, RecordingFault>
    ensures { IfOk result (λ places. IfSome places (λ o. LinesSay (statements_of bytes.now) o)) }
{
    if !is_version_2(bytes) {
        return Ok(None);
    }
    match rev_observation::read(alloc, bytes) {
        Ok(places) => Ok(Some(places)),
        Err(fault) => Err(unread(fault)),
    }
}

// What the bytes of the file say in the words of version 1.
fn observation_of(
    alloc: Global,
    bytes: &[u8],
    places: Option<&Places>,
) -> Result<Observation, RecordingFault>
    ensures { IfOk result (λ observation. IfSome (option_copied places.entry) (λ o.
        outputs_of observation.commands ≡ outputs_of_places o.commands)) }
{
    let read = match places {
        Some(places) => as_version_1(alloc, places),
        None => rev_observed::read(alloc, bytes),
    };
    match read {
        Ok(observation) => Ok(observation),
        Err(fault) => Err(unread(fault)),
    }
}

// The edges of the commands of an observation, which the bytes say.
fn edges_in(
    alloc: Global,
    graph: &Graph,
    observation: &Observation,
    bytes: &[u8],
) -> Result<Vec<u32>, RecordingFault>
    ensures edges { IfOk result (λ edges. map Some edges.items
        ≡ map (edge_of graph.now.manifest.builds) (outputs_of observation.now.commands)) }
    ensures within { IfOk result (λ edges. AllByRecursion (λ edge. edge < length graph.now.manifest.builds) edges.items) }
{
    match edges(alloc, graph, observation) {
        Ok(edges) => Ok(edges),
        Err(JoinFault::Memory) => Err(RecordingFault::Memory),
        Err(JoinFault::NoSuchEdge(place)) => Err(lost_edge(alloc, bytes, place)),
    }
}

/// What the bytes of the file, of version 1 or 2, say of the commands of a graph. It takes time linear in the bytes, up
/// to hashing and to sorting the ranges of each command.
///
/// # Errors
/// [`RecordingFault::Observed`] with the first line that does not read, or the first that names no edge's first output;
/// [`RecordingFault::Memory`] only where an allocation was refused.
pub fn observed_in(alloc: Global, graph: &Graph, bytes: &[u8]) -> Result<Observed, RecordingFault>
    ensures edges { IfOk result (λ observed. map Some observed.edges.items
        ≡ map (edge_of graph.now.manifest.builds) (outputs_of observed.observation.commands)) }
    ensures within { IfOk result (λ observed.
        AllByRecursion (λ edge. edge < length graph.now.manifest.builds) observed.edges.items) }
    ensures places { IfOk result (λ observed.
        IfSome observed.places (λ o. LinesSay (statements_of bytes.now) o)) }
    ensures same { IfOk result (λ observed. IfSome observed.places (λ o.
        outputs_of observed.observation.commands ≡ outputs_of_places o.commands)) }
{
    let places = places_of(alloc, bytes)?;
    let observation = observation_of(alloc, bytes, places.as_ref())?;
    let edges = edges_in(alloc, graph, &observation, bytes)?;
    Ok(Observed {
        observation,
        places,
        edges,
    })
}

/// The sentence about a fault of the file, as `observed:7: no number of that form or size (101, docs/CODES.md)`.
///
/// # Errors
/// [`AllocError`] only where an allocation was refused.
pub fn observed_sentence(alloc: Global, fault: ObservedFault) -> Result<Vec<u8>, AllocError> {
    let text = format!(in alloc; "{fault}")?;
    Ok(text.into_bytes())
}
