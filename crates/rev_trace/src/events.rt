//! What words take: the parts of commands, from the texts of their fields.
ghost use Rattle.std.specs.Prelude.{◌∷◌};
ghost use Rattle.rev_events.specs.declared.event.Event.TheVariants as event;
ghost use Rattle.rev_fields.specs.Faults.{Answers};
ghost use Rattle.rev_fields.specs.Parts.{lent_of};
ghost use Rattle.rev_trace.specs.Commands.{alone_of, break_number_of, depfile_of, ended_of, ending_of, finish_of, list_of, listing_of, name_of, nothing_of, plan_of, resize_of, settled_of, start_of, touch_of};

use crate::labels::which_of;
use crate::mentions::Mentions;
use rev_cells::{Names, Text};
use rev_commands::{Command, Which};
use rev_events::{Event, Listing, Stamps};
use rev_fields::{FaultKind, LineFault, number, path, paths, wide_number, wide_numbers};
use rev_paths::Name;
use std::alloc::Global;
use std::borrow::CowSlice;

pub(crate) const BAD_LINE: LineFault = LineFault::Kind(FaultKind::Syntax);

/// `plan PATH...`; without a path these targets are meant.
pub(crate) fn plan(
    alloc: Global,
    targets: &Names,
    texts: &[CowSlice<'_, u8>],
) -> Result<Command, LineFault>
    ensures { Answers result (λ c. c) (plan_of targets.now (lent_of texts.now)) }
{
    if texts.is_empty() {
        return Ok(Command::Event(Event::Plan(targets.copy()?)));
    }
    let paths = paths(alloc, texts)?;
    Ok(Command::Event(Event::Plan(Names::new(paths)?)))
}

// `start OUT JOB [SLOT]`, by its parts
fn started(
    alloc: Global,
    out: &[u8],
    job: &[u8],
    rest: &[CowSlice<'_, u8>],
) -> Result<Command, LineFault>
    ensures { Answers result (λ c. c) (start_of (out.now ∷ job.now ∷ lent_of rest.now)) }
{
    match rest {
        [] => {
            let out = path(alloc, out)?;
            let job = number(job)?;
            let slot = None;
            Ok(Command::Event(Event::Start { out, job, slot }))
        }
        [slot] => {
            let out = path(alloc, out)?;
            let job = number(job)?;
            let slot = Some(number(slot)?);
            Ok(Command::Event(Event::Start { out, job, slot }))
        }
        _ => Err(BAD_LINE),
    }
}

/// `start OUT JOB [SLOT]`
pub(crate) fn start(alloc: Global, texts: &[CowSlice<'_, u8>]) -> Result<Command, LineFault>
    ensures { Answers result (λ c. c) (start_of (lent_of texts.now)) }
{
    let Some((out, after_out)) = texts.split_first() else {
        return Err(BAD_LINE);
    };
    let Some((job, rest)) = after_out.split_first() else {
        return Err(BAD_LINE);
    };
    started(alloc, out, job, rest)
}

// `depfile TEXT`
fn depfile(alloc: Global, texts: &[CowSlice<'_, u8>]) -> Result<Listing, LineFault>
    ensures { Answers result (λ l. l) (depfile_of (lent_of texts.now)) }
{
    match texts {
        [text] => Ok(Listing::Depfile(Text::new(Vec::from_slice(alloc, text)?)?)),
        _ => Err(BAD_LINE),
    }
}

// `list PATH...`
fn list(
    alloc: Global,
    mentions: &mut Mentions,
    texts: &[CowSlice<'_, u8>],
) -> Result<Listing, LineFault>
    ensures { Answers result (λ l. l) (list_of (lent_of texts.now)) }
{
    Ok(Listing::Paths(mentions.listed(alloc, texts)?))
}

// Nothing, `depfile TEXT` or `list PATH...`
fn listing(
    alloc: Global,
    mentions: &mut Mentions,
    texts: &[CowSlice<'_, u8>],
) -> Result<Listing, LineFault>
    ensures { Answers result (λ l. l) (listing_of (lent_of texts.now)) }
{
    let Some((word, rest)) = texts.split_first() else {
        return Ok(Listing::Nothing);
    };
    if word.as_slice() == b"depfile".as_slice() {
        return depfile(alloc, rest);
    }
    if word.as_slice() == b"list".as_slice() {
        return list(alloc, mentions, rest);
    }
    Err(BAD_LINE)
}

// `finish OUT N,N...` and a listing, by its parts
fn finished(
    alloc: Global,
    mentions: &mut Mentions,
    out: &[u8],
    stamps: &[u8],
    rest: &[CowSlice<'_, u8>],
) -> Result<Command, LineFault>
    ensures { Answers result (λ c. c) (finish_of (out.now ∷ stamps.now ∷ lent_of rest.now)) }
{
    let out = path(alloc, out)?;
    let listing = listing(alloc, mentions, rest)?;
    let stamps = Stamps::new(wide_numbers(alloc, stamps)?)?;
    Ok(Command::Event(Event::Finish {
        out,
        stamps,
        listing,
    }))
}

/// `finish OUT N,N...` and a listing
pub(crate) fn finish(
    alloc: Global,
    mentions: &mut Mentions,
    texts: &[CowSlice<'_, u8>],
) -> Result<Command, LineFault>
    ensures { Answers result (λ c. c) (finish_of (lent_of texts.now)) }
{
    let Some((out, after_out)) = texts.split_first() else {
        return Err(BAD_LINE);
    };
    let Some((stamps, rest)) = after_out.split_first() else {
        return Err(BAD_LINE);
    };
    finished(alloc, mentions, out, stamps, rest)
}

// An output and stamps: `OUT N,N...`
fn ended(alloc: Global, texts: &[CowSlice<'_, u8>]) -> Result<(Name, Stamps), LineFault>
    ensures { Answers result (λ e. e) (ending_of (lent_of texts.now)) }
{
    match texts {
        [out, stamps] => {
            let out = path(alloc, out)?;
            let stamps = wide_numbers(alloc, stamps)?;
            Ok((out, Stamps::new(stamps)?))
        }
        _ => Err(BAD_LINE),
    }
}

/// `fail OUT N,N...`
pub(crate) fn fail(alloc: Global, texts: &[CowSlice<'_, u8>]) -> Result<Command, LineFault>
    ensures { Answers result (λ c. c) (ended_of event.Fail (lent_of texts.now)) }
{
    let (out, stamps) = ended(alloc, texts)?;
    Ok(Command::Event(Event::Fail { out, stamps }))
}

/// `abort OUT N,N...`
pub(crate) fn abort(alloc: Global, texts: &[CowSlice<'_, u8>]) -> Result<Command, LineFault>
    ensures { Answers result (λ c. c) (ended_of event.Abort (lent_of texts.now)) }
{
    let (out, stamps) = ended(alloc, texts)?;
    Ok(Command::Event(Event::Abort { out, stamps }))
}

/// A path alone.
pub(crate) fn alone(alloc: Global, texts: &[CowSlice<'_, u8>]) -> Result<Name, LineFault>
    ensures { Answers result (λ name. name) (alone_of (lent_of texts.now)) }
{
    match texts {
        [text] => path(alloc, text),
        _ => Err(BAD_LINE),
    }
}

/// `clean OUT`
pub(crate) fn clean(alloc: Global, texts: &[CowSlice<'_, u8>]) -> Result<Command, LineFault>
    ensures { Answers result (λ c. c) (settled_of event.Clean (lent_of texts.now)) }
{
    let out = alone(alloc, texts)?;
    Ok(Command::Event(Event::Clean { out }))
}

/// `pass OUT`
pub(crate) fn pass(alloc: Global, texts: &[CowSlice<'_, u8>]) -> Result<Command, LineFault>
    ensures { Answers result (λ c. c) (settled_of event.Pass (lent_of texts.now)) }
{
    let out = alone(alloc, texts)?;
    Ok(Command::Event(Event::Pass { out }))
}

/// `touch PATH N`
pub(crate) fn touch(alloc: Global, texts: &[CowSlice<'_, u8>]) -> Result<Command, LineFault>
    ensures { Answers result (λ c. c) (touch_of (lent_of texts.now)) }
{
    match texts {
        [text, stamp] => {
            let path = path(alloc, text)?;
            let stamp = wide_number(stamp)?;
            Ok(Command::Event(Event::Touch { path, stamp }))
        }
        _ => Err(BAD_LINE),
    }
}

/// `resize POOL DEPTH`
pub(crate) fn resize(texts: &[CowSlice<'_, u8>]) -> Result<Command, LineFault>
    ensures { Answers result (λ c. c) (resize_of (lent_of texts.now)) }
{
    match texts {
        [pool, depth] => {
            let pool = number(pool)?;
            let depth = number(depth)?;
            Ok(Command::Event(Event::Resize { pool, depth }))
        }
        _ => Err(BAD_LINE),
    }
}

/// Nothing more.
pub(crate) fn nothing(texts: &[CowSlice<'_, u8>]) -> Result<(), LineFault>
    ensures { Answers result (λ u. u) (nothing_of (lent_of texts.now)) }
{
    if texts.is_empty() {
        return Ok(());
    }
    Err(BAD_LINE)
}

/// The name of an event.
pub(crate) fn event_name(alloc: Global, texts: &[CowSlice<'_, u8>]) -> Result<Which, LineFault>
    ensures { Answers result (λ w. w) (name_of (lent_of texts.now)) }
{
    match texts {
        [text] => which_of(alloc, text),
        _ => Err(BAD_LINE),
    }
}

/// The number of a break.
pub(crate) fn break_number(texts: &[CowSlice<'_, u8>]) -> Result<u32, LineFault>
    ensures { Answers result (λ n. n) (break_number_of (lent_of texts.now)) }
{
    match texts {
        [text] => number(text),
        _ => Err(BAD_LINE),
    }
}
