//! Opening lines, from the texts of their fields.
ghost use Rattle.std.specs.Prelude.{◌≡◌, ◌∷◌};
ghost use Rattle.rev_fields.specs.Faults.{Answers};
ghost use Rattle.rev_fields.specs.Parts.{lent_of};
ghost use Rattle.rev_trace.specs.Records.{built_of, deps_of, gives_jobs, jobs_of, record_of, stamp_of, target_of};

use crate::events::BAD_LINE;
use crate::mentions::Mentions;
use crate::record::Record;
use rev_cells::{Names, Text};
use rev_fields::{LineFault, number, path, wide_number};
use std::alloc::Global;
use std::borrow::CowSlice;

// `jobs N`
fn jobs(texts: &[CowSlice<'_, u8>]) -> Result<Record, LineFault>
    ensures { Answers result (λ r. r) (jobs_of (lent_of texts.now)) }
{
    match texts {
        [text] => Ok(Record::Jobs(number(text)?)),
        _ => Err(BAD_LINE),
    }
}

// `stamp PATH N`
fn stamp(alloc: Global, texts: &[CowSlice<'_, u8>]) -> Result<Record, LineFault>
    ensures { Answers result (λ r. r) (stamp_of (lent_of texts.now)) }
{
    match texts {
        [text, stamp] => {
            let path = path(alloc, text)?;
            let stamp = wide_number(stamp)?;
            Ok(Record::Stamp(path, stamp))
        }
        _ => Err(BAD_LINE),
    }
}

// `built PATH N COMMAND`, by its parts
fn logged(
    alloc: Global,
    text: &[u8],
    stamp: &[u8],
    rest: &[CowSlice<'_, u8>],
) -> Result<Record, LineFault>
    ensures { Answers result (λ r. r) (built_of (text.now ∷ stamp.now ∷ lent_of rest.now)) }
{
    match rest {
        [] => Err(BAD_LINE),
        [command] => {
            let path = path(alloc, text)?;
            let stamp = wide_number(stamp)?;
            let command = Text::new(Vec::from_slice(alloc, command)?)?;
            Ok(Record::Built(path, stamp, command))
        }
        _ => Err(BAD_LINE),
    }
}

// `built PATH N COMMAND`
fn built(alloc: Global, texts: &[CowSlice<'_, u8>]) -> Result<Record, LineFault>
    ensures { Answers result (λ r. r) (built_of (lent_of texts.now)) }
{
    let Some((text, after_path)) = texts.split_first() else {
        return Err(BAD_LINE);
    };
    let Some((stamp, rest)) = after_path.split_first() else {
        return Err(BAD_LINE);
    };
    logged(alloc, text, stamp, rest)
}

// `deps PATH N PATH...`, by its parts
fn listed(
    alloc: Global,
    mentions: &mut Mentions,
    text: &[u8],
    stamp: &[u8],
    rest: &[CowSlice<'_, u8>],
) -> Result<Record, LineFault>
    ensures { Answers result (λ r. r) (deps_of (text.now ∷ stamp.now ∷ lent_of rest.now)) }
{
    let path = path(alloc, text)?;
    let paths = Names::new(mentions.paths(alloc, rest)?)?;
    let stamp = wide_number(stamp)?;
    Ok(Record::Deps(path, stamp, paths))
}

// `deps PATH N PATH...`
fn deps(
    alloc: Global,
    mentions: &mut Mentions,
    texts: &[CowSlice<'_, u8>],
) -> Result<Record, LineFault>
    ensures { Answers result (λ r. r) (deps_of (lent_of texts.now)) }
{
    let Some((text, after_path)) = texts.split_first() else {
        return Err(BAD_LINE);
    };
    let Some((stamp, rest)) = after_path.split_first() else {
        return Err(BAD_LINE);
    };
    listed(alloc, mentions, text, stamp, rest)
}

// `target PATH`
fn target(alloc: Global, texts: &[CowSlice<'_, u8>]) -> Result<Record, LineFault>
    ensures { Answers result (λ r. r) (target_of (lent_of texts.now)) }
{
    match texts {
        [text] => Ok(Record::Target(path(alloc, text)?)),
        _ => Err(BAD_LINE),
    }
}

/// The opening line that has these texts in its fields.
pub(crate) fn record(
    alloc: Global,
    mentions: &mut Mentions,
    texts: &[CowSlice<'_, u8>],
) -> Result<Record, LineFault>
    ensures { Answers result (λ r. r) (record_of (lent_of texts.now)) }
{
    let Some((word, rest)) = texts.split_first() else {
        return Err(BAD_LINE);
    };
    if word.as_slice() == b"jobs".as_slice() {
        return jobs(rest);
    }
    if word.as_slice() == b"stamp".as_slice() {
        return stamp(alloc, rest);
    }
    if word.as_slice() == b"built".as_slice() {
        return built(alloc, rest);
    }
    if word.as_slice() == b"deps".as_slice() {
        return deps(alloc, mentions, rest);
    }
    if word.as_slice() == b"target".as_slice() {
        return target(alloc, rest);
    }
    Err(BAD_LINE)
}

/// Whether the texts are those of a line that gives the number of jobs.
pub(crate) fn gives_jobs(texts: &[CowSlice<'_, u8>]) -> bool
    ensures { result ≡ gives_jobs (lent_of texts.now) }
{
    match texts.split_first() {
        None => false,
        Some((word, _)) => word.as_slice() == b"jobs".as_slice(),
    }
}
