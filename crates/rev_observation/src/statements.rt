//! What each line of an observation adds to those before it.
ghost use Rattle.std.specs.Prelude.{◌≡◌, ◌<◌, [], true, length, IfOk};
ghost use Rattle.rev_fields.specs.Parts.{lent_of};
ghost use Rattle.rev_observed.specs.Lines.{count_said, set_of, set_said};
ghost use Rattle.rev_observed.specs.Within.{RangesAreWithin, are_within};
ghost use Rattle.rev_observation.specs.Faults.{Answers};
ghost use Rattle.rev_observation.specs.Lines.{added_by, also_said, by_line, by_said, counts_said, deed_added, deed_said, edge_said, end_said, entry_said, flag_behind, flag_said, hidden_said, is_single, line_added, may_do, may_stand, ninja_said, opening_said, outside_behind, path_said, same_said, several_of, texts_added};
ghost use Rattle.rev_observation.specs.Blocks.{last_of};

use crate::blocks::{Line, may_follow};
use crate::deed::Deed;
use crate::faults::{BAD_LINE, BAD_RANGE, LineFault};
use crate::flag::Flag;
use crate::head::{Hidden, Observer};
use crate::observation::Observation;
use crate::ranges::ranges;
use crate::text::Text;
use crate::word::{Word, flag_of, word_of};
use rev_fields::{lent_fields, number, path, wide_number};
use rev_observed::{PathRange, PathSet};
use std::alloc::Global;
use std::borrow::CowSlice;

// The number of an entry, of which there are so many.
fn entry_said(count: u64, text: &[u8]) -> Result<u32, LineFault>
    ensures said { Answers result (λ n. n) (entry_said count text.now) }
    ensures below { IfOk result (λ n. n < count) }
{
    let entry = number(text)?;
    if u64::from(entry) < count {
        return Ok(entry);
    }
    Err(BAD_RANGE)
}

// `path PATH [FOLDER]`
fn add_path(
    alloc: Global,
    observation: &mut Observation,
    texts: &[CowSlice<'_, u8>],
) -> Result<(), LineFault>
    ensures { Answers result (λ _. observation.new) (path_said observation.old (lent_of texts.now)) }
{
    match texts {
        [text] => {
            let path = path(alloc, text)?;
            observation.put_path(&path, None)
        }
        [text, folder] => {
            let path = path(alloc, text)?;
            let folder = entry_said(observation.entries().len(), folder)?;
            observation.put_path(&path, Some(folder))
        }
        _ => Err(BAD_LINE),
    }
}

// `also PATH N`
fn add_name(
    alloc: Global,
    observation: &mut Observation,
    texts: &[CowSlice<'_, u8>],
) -> Result<(), LineFault>
    ensures { Answers result (λ _. observation.new) (also_said observation.old (lent_of texts.now)) }
{
    match texts {
        [text, entry] => {
            let path = path(alloc, text)?;
            let entry = entry_said(observation.entries().len(), entry)?;
            observation.put_name(&path, entry)
        }
        _ => Err(BAD_LINE),
    }
}

// Whether all numbers of ranges are below this.
fn are_within(count: u64, ranges: &[PathRange]) -> bool
    ensures { result ≡ are_within count ranges.now }
{
    ranges.iter().all(|range| u64::from(range.last) < count)
}

// The set that ranges are, one at least, where there are so many entries.
fn set(count: u64, ranges: Vec<PathRange>) -> Result<PathSet, LineFault>
    ensures set { Answers result (λ set. set) (set_of count ranges.items) }
    ensures within { IfOk result (λ set. RangesAreWithin count set) }
{
    if ranges.is_empty() {
        return Err(BAD_LINE);
    }
    if !are_within(count, &ranges) {
        return Err(BAD_RANGE);
    }
    match PathSet::new(ranges) {
        Some(set) => Ok(set),
        None => Err(BAD_RANGE),
    }
}

// The set that texts say, where there are so many entries.
fn set_said(alloc: Global, count: u64, texts: &[CowSlice<'_, u8>]) -> Result<PathSet, LineFault>
    ensures set { Answers result (λ set. set) (set_said count (lent_of texts.now)) }
    ensures within { IfOk result (λ set. RangesAreWithin count set) }
{
    let ranges = ranges(alloc, texts)?;
    set(count, ranges)
}

// Whether ranges are of one number alone.
fn is_single(ranges: &[PathRange]) -> bool
    ensures { result ≡ is_single ranges.now }
{
    match ranges {
        [range] => range.first == range.last,
        _ => false,
    }
}

// The set that ranges are, of two entries at least, where there are so many.
fn several(count: u64, ranges: Vec<PathRange>) -> Result<PathSet, LineFault>
    ensures { Answers result (λ set. set) (several_of count ranges.items) }
{
    if is_single(&ranges) {
        return Err(BAD_LINE);
    }
    set(count, ranges)
}

// `same N...`
fn add_same(
    alloc: Global,
    observation: &mut Observation,
    texts: &[CowSlice<'_, u8>],
) -> Result<(), LineFault>
    ensures { Answers result (λ _. observation.new) (same_said observation.old (lent_of texts.now)) }
{
    let ranges = ranges(alloc, texts)?;
    let set = several(observation.entries().len(), ranges)?;
    observation.put_same(set)?;
    Ok(())
}

// `opening N...`
fn add_opening(
    alloc: Global,
    observation: &mut Observation,
    texts: &[CowSlice<'_, u8>],
) -> Result<(), LineFault>
    ensures { Answers result (λ _. observation.new) (opening_said observation.old (lent_of texts.now)) }
{
    let set = set_said(alloc, observation.entries().len(), texts)?;
    observation.put_opening(set);
    Ok(())
}

// `hidden PATH N`
fn add_hidden(
    alloc: Global,
    observation: &mut Observation,
    texts: &[CowSlice<'_, u8>],
) -> Result<(), LineFault>
    ensures { Answers result (λ _. observation.new) (hidden_said observation.old (lent_of texts.now)) }
{
    match texts {
        [text, count] => {
            let path = path(alloc, text)?;
            let commands = wide_number(count)?;
            observation.put_hidden(Hidden { path, commands })?;
            Ok(())
        }
        _ => Err(BAD_LINE),
    }
}

// `ninja`
fn add_ninja(observation: &mut Observation, texts: &[CowSlice<'_, u8>]) -> Result<(), LineFault>
    ensures { Answers result (λ _. observation.new) (ninja_said observation.old (lent_of texts.now)) }
{
    match texts {
        [] => {
            observation.put_ninja();
            Ok(())
        }
        _ => Err(BAD_LINE),
    }
}

// `edge OUT`
fn add_edge(
    alloc: Global,
    observation: &mut Observation,
    texts: &[CowSlice<'_, u8>],
) -> Result<(), LineFault>
    ensures { Answers result (λ _. observation.new) (edge_said observation.old (lent_of texts.now)) }
{
    match texts {
        [text] => {
            let output = path(alloc, text)?;
            observation.put_command(alloc, output)
        }
        _ => Err(BAD_LINE),
    }
}

// The flag in `FLAG CALL PROGRAM TEXT`.
fn flag_said(alloc: Global, texts: &[CowSlice<'_, u8>]) -> Result<Flag, LineFault>
    ensures { Answers result (λ flag. flag) (flag_said (lent_of texts.now)) }
{
    match texts {
        [word, call, program, text] => {
            let Some(kind) = flag_of(word) else {
                return Err(BAD_LINE);
            };
            Ok(Flag {
                kind,
                call: Text::new(alloc, call)?,
                program: Text::new(alloc, program)?,
                text: Text::new(alloc, text)?,
            })
        }
        _ => Err(BAD_LINE),
    }
}

// `flag FLAG CALL PROGRAM TEXT`
fn add_flag(
    alloc: Global,
    observation: &mut Observation,
    texts: &[CowSlice<'_, u8>],
) -> Result<(), LineFault>
    ensures { Answers result (λ _. observation.new)
        (flag_behind observation.old (lent_of texts.now) (last_of observation.old.commands)) }
{
    let Some(last) = observation.last() else {
        return Err(BAD_LINE);
    };
    if !last.may_flag() {
        return Err(BAD_LINE);
    }
    let flag = flag_said(alloc, texts)?;
    observation.put_flag(flag)?;
    Ok(())
}

// A number alone.
fn count_said(texts: &[CowSlice<'_, u8>]) -> Result<u64, LineFault>
    ensures { Answers result (λ count. count) (count_said (lent_of texts.now)) }
{
    match texts {
        [text] => Ok(wide_number(text)?),
        _ => Err(BAD_LINE),
    }
}

// `outside N`
fn add_outside(observation: &mut Observation, texts: &[CowSlice<'_, u8>]) -> Result<(), LineFault>
    ensures { Answers result (λ _. observation.new)
        (outside_behind observation.old (lent_of texts.now) (last_of observation.old.commands)) }
{
    let Some(last) = observation.last() else {
        return Err(BAD_LINE);
    };
    if last.outside().is_some() {
        return Err(BAD_LINE);
    }
    let count = count_said(texts)?;
    observation.put_outside(count);
    Ok(())
}

// Whether a line of this deed may stand behind those before it.
fn may_do(observation: &Observation, deed: Deed) -> bool
    ensures { result ≡ may_do observation.now deed }
{
    match observation.last() {
        Some(last) => last.may_take(deed),
        None => {
            observation.has_ninja() && deed.is_change() && may_follow(observation.ninja(), deed)
        }
    }
}

// `DEED [TEXT] N...`, with these numbers
fn add_entries(
    alloc: Global,
    observation: &mut Observation,
    deed: Deed,
    text: &[u8],
    texts: &[CowSlice<'_, u8>],
) -> Result<(), LineFault>
    ensures { Answers result (λ _. observation.new)
        (deed_added observation.old deed text.now (lent_of texts.now)) }
{
    let entries = set_said(alloc, observation.entries().len(), texts)?;
    let text = Text::new(alloc, text)?;
    let line = Line {
        deed,
        text,
        entries,
    };
    if observation.last().is_some() {
        observation.put_line(line)?;
    } else {
        observation.put_ninja_line(line)?;
    }
    Ok(())
}

// `DEED [TEXT] N...`
fn add_deed(
    alloc: Global,
    observation: &mut Observation,
    deed: Deed,
    texts: &[CowSlice<'_, u8>],
) -> Result<(), LineFault>
    ensures { Answers result (λ _. observation.new) (deed_said observation.old deed (lent_of texts.now)) }
{
    if !deed.has_text() {
        return add_entries(alloc, observation, deed, b"", texts);
    }
    match texts {
        [text, texts @ ..] => add_entries(alloc, observation, deed, text, texts),
        _ => Err(BAD_LINE),
    }
}

// The numbers in `PATHS EDGES LINES SUM`, of which this gives LINES.
fn counts_said(texts: &[CowSlice<'_, u8>]) -> Result<u64, LineFault>
    ensures { Answers result (λ lines. lines) (counts_said (lent_of texts.now)) }
{
    match texts {
        [paths, edges, lines, _sum] => {
            let _paths = wide_number(paths)?;
            let _edges = wide_number(edges)?;
            Ok(wide_number(lines)?)
        }
        _ => Err(BAD_LINE),
    }
}

// `end PATHS EDGES LINES SUM`
fn add_end(observation: &mut Observation, texts: &[CowSlice<'_, u8>]) -> Result<(), LineFault>
    ensures { Answers result (λ _. observation.new) (end_said observation.old (lent_of texts.now)) }
{
    let _lines = counts_said(texts)?;
    observation.end();
    Ok(())
}

// Whether a line that begins with this word may stand behind those before it.
fn may_stand(observation: &Observation, word: Word) -> bool
    ensures { result ≡ may_stand observation.now word }
{
    match word {
        Word::Path => observation.may_enter(),
        Word::Also => observation.may_name(),
        Word::Same | Word::Opening => observation.may_open(),
        Word::Hidden | Word::Ninja => !observation.begins(),
        Word::Deed(deed) => may_do(observation, deed),
        Word::Edge | Word::Flag | Word::Outside | Word::End => true,
    }
}

// What a line adds that begins with this word, and may stand there.
fn add_by(
    alloc: Global,
    observation: &mut Observation,
    word: Word,
    texts: &[CowSlice<'_, u8>],
) -> Result<(), LineFault>
    requires { may_stand observation.old word ≡ true }
    ensures { Answers result (λ _. observation.new) (added_by observation.old word (lent_of texts.now)) }
{
    match word {
        Word::Path => add_path(alloc, observation, texts),
        Word::Also => add_name(alloc, observation, texts),
        Word::Same => add_same(alloc, observation, texts),
        Word::Opening => add_opening(alloc, observation, texts),
        Word::Hidden => add_hidden(alloc, observation, texts),
        Word::Ninja => add_ninja(observation, texts),
        Word::Edge => add_edge(alloc, observation, texts),
        Word::Flag => add_flag(alloc, observation, texts),
        Word::Deed(deed) => add_deed(alloc, observation, deed, texts),
        Word::Outside => add_outside(observation, texts),
        Word::End => add_end(observation, texts),
    }
}

// What a line adds whose fields have these texts.
fn add_texts(
    alloc: Global,
    observation: &mut Observation,
    texts: &[CowSlice<'_, u8>],
) -> Result<(), LineFault>
    ensures { Answers result (λ _. observation.new) (texts_added observation.old (lent_of texts.now)) }
{
    let Some((word, texts)) = texts.split_first() else {
        return Err(BAD_LINE);
    };
    let Some(word) = word_of(word) else {
        return Err(BAD_LINE);
    };
    if !may_stand(observation, word) {
        return Err(BAD_LINE);
    }
    add_by(alloc, observation, word, texts)
}

/// Adds what a line says to what the lines before it say.
pub(crate) fn add_line(
    alloc: Global,
    observation: &mut Observation,
    line: &[u8],
) -> Result<(), LineFault>
    ensures { Answers result (λ _. observation.new) (line_added observation.old line.now) }
{
    if observation.is_ended() {
        return Err(BAD_LINE);
    }
    let texts = lent_fields(alloc, line)?;
    add_texts(alloc, observation, &texts)
}

// What observed, in `by NAME RELEASE MACHINE`.
fn observer_said(alloc: Global, texts: &[CowSlice<'_, u8>]) -> Result<Observer, LineFault>
    ensures { Answers result (λ by. by) (by_said (lent_of texts.now)) }
{
    match texts {
        [word, name, release, machine] => {
            if word.as_slice() != b"by".as_slice() {
                return Err(BAD_LINE);
            }
            Ok(Observer {
                name: Text::new(alloc, name)?,
                release: Text::new(alloc, release)?,
                machine: Text::new(alloc, machine)?,
            })
        }
        _ => Err(BAD_LINE),
    }
}

/// What observed, in a line `by NAME RELEASE MACHINE`.
pub(crate) fn observer(alloc: Global, line: &[u8]) -> Result<Observer, LineFault>
    ensures { Answers result (λ by. by) (by_line line.now) }
{
    let texts = lent_fields(alloc, line)?;
    observer_said(alloc, &texts)
}
