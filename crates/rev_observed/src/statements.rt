//! What each line of an observation adds to those before it.
ghost use Rattle.std.specs.Prelude.{◌≡◌, ◌<◌, length, IfOk};
ghost use Rattle.rev_fields.specs.Parts.{lent_of};
ghost use Rattle.rev_observed.specs.Faults.{Answers};
ghost use Rattle.rev_observed.specs.Lines.{added_by, by_line, count_said, edge_added, line_added, outside_added, path_added, set_of, set_said, texts_added, uses_added};
ghost use Rattle.rev_observed.specs.Within.{RangesAreWithin, are_within};

use crate::faults::{BAD_LINE, FaultKind, LineFault};
use crate::kind::Kind;
use crate::observation::Observation;
use crate::path_set::{PathRange, PathSet};
use crate::ranges::ranges;
use crate::word::{Word, flags};
use rev_fields::{lent_fields, path, wide_number};
use std::alloc::Global;
use std::borrow::CowSlice;

// Numbers that are not paths', or ranges that do not rise.
const BAD_RANGE: LineFault = LineFault::Kind(FaultKind::Range);

// `path PATH`
fn add_path(
    alloc: Global,
    observation: &mut Observation,
    texts: &[CowSlice<'_, u8>],
) -> Result<(), LineFault>
    ensures { Answers result (λ _. observation.new) (path_added observation.old (lent_of texts.now)) }
{
    match texts {
        [text] => {
            if !observation.commands().is_empty() {
                return Err(BAD_LINE);
            }
            let path = path(alloc, text)?;
            observation.put_path(&path)
        }
        _ => Err(BAD_LINE),
    }
}

// `edge OUT [FLAG...]`
fn add_edge(
    alloc: Global,
    observation: &mut Observation,
    texts: &[CowSlice<'_, u8>],
) -> Result<(), LineFault>
    ensures { Answers result (λ _. observation.new) (edge_added observation.old (lent_of texts.now)) }
{
    match texts {
        [text, words @ ..] => {
            let output = path(alloc, text)?;
            match flags(words) {
                Some(flags) => observation.put_command(alloc, output, flags),
                None => Err(BAD_LINE),
            }
        }
        _ => Err(BAD_LINE),
    }
}

// The set that ranges are, one at least, where there are so many paths.
fn set(count: u64, ranges: Vec<PathRange>) -> Result<PathSet, LineFault>
    ensures set { Answers result (λ set. set) (set_of count ranges.items) }
    ensures some { IfOk result (λ set. 0 < length set) }
    ensures within { IfOk result (λ set. RangesAreWithin count set) }
{
    if ranges.is_empty() {
        return Err(BAD_LINE);
    }
    if !are_within(count, &ranges) {
        return Err(BAD_RANGE);
    }
    match PathSet::new(ranges) {
        Some(set) => Ok(set),
        None => Err(BAD_RANGE),
    }
}

// Whether all numbers of ranges are below this.
fn are_within(count: u64, ranges: &[PathRange]) -> bool
    ensures { result ≡ are_within count ranges.now }
{
    ranges.iter().all(|range| u64::from(range.last) < count)
}

// The set that texts say, where there are so many paths.
fn set_said(alloc: Global, count: u64, texts: &[CowSlice<'_, u8>]) -> Result<PathSet, LineFault>
    ensures set { Answers result (λ set. set) (set_said count (lent_of texts.now)) }
    ensures some { IfOk result (λ set. 0 < length set) }
    ensures within { IfOk result (λ set. RangesAreWithin count set) }
{
    let ranges = ranges(alloc, texts)?;
    set(count, ranges)
}

// `KIND NUMBER...`
fn add_uses(
    alloc: Global,
    observation: &mut Observation,
    kind: Kind,
    texts: &[CowSlice<'_, u8>],
) -> Result<(), LineFault>
    ensures { Answers result (λ _. observation.new) (uses_added observation.old kind (lent_of texts.now)) }
{
    let Some(last) = observation.last() else {
        return Err(BAD_LINE);
    };
    if !last.may_take(kind) {
        return Err(BAD_LINE);
    }
    let set = set_said(alloc, observation.paths().len(), texts)?;
    observation.put_uses(kind, set)?;
    Ok(())
}

// A number alone.
fn count_said(texts: &[CowSlice<'_, u8>]) -> Result<u64, LineFault>
    ensures { Answers result (λ count. count) (count_said (lent_of texts.now)) }
{
    match texts {
        [text] => Ok(wide_number(text)?),
        _ => Err(BAD_LINE),
    }
}

// `outside N`
fn add_outside(observation: &mut Observation, texts: &[CowSlice<'_, u8>]) -> Result<(), LineFault>
    ensures { Answers result (λ _. observation.new) (outside_added observation.old (lent_of texts.now)) }
{
    let Some(last) = observation.last() else {
        return Err(BAD_LINE);
    };
    if last.outside().is_some() {
        return Err(BAD_LINE);
    }
    let count = count_said(texts)?;
    observation.put_outside(count);
    Ok(())
}

// What a line adds whose fields have these texts.
fn add_texts(
    alloc: Global,
    observation: &mut Observation,
    texts: &[CowSlice<'_, u8>],
) -> Result<(), LineFault>
    ensures { Answers result (λ _. observation.new) (texts_added observation.old (lent_of texts.now)) }
{
    let Some((word, texts)) = texts.split_first() else {
        return Err(BAD_LINE);
    };
    match Word::of_text(word) {
        None => Err(BAD_LINE),
        Some(Word::Path) => add_path(alloc, observation, texts),
        Some(Word::Edge) => add_edge(alloc, observation, texts),
        Some(Word::Kind(kind)) => add_uses(alloc, observation, kind, texts),
        Some(Word::Outside) => add_outside(observation, texts),
    }
}

/// Adds what a line says to what the lines before it say.
pub(crate) fn add_line(
    alloc: Global,
    observation: &mut Observation,
    line: &[u8],
) -> Result<(), LineFault>
    ensures { Answers result (λ _. observation.new) (line_added observation.old line.now) }
{
    let texts = lent_fields(alloc, line)?;
    add_texts(alloc, observation, &texts)
}

/// The name in a line `by NAME`.
pub(crate) fn observer(alloc: Global, line: &[u8]) -> Result<Vec<u8>, LineFault>
    ensures { Answers result (λ name. name.items) (by_line line.now) }
{
    let texts = lent_fields(alloc, line)?;
    match texts.as_slice() {
        [word, name] => {
            if word.as_slice() != b"by".as_slice() {
                return Err(BAD_LINE);
            }
            Ok(Vec::from_slice(alloc, name)?)
        }
        _ => Err(BAD_LINE),
    }
}
