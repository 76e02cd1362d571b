//! Commands of lines.
ghost use Rattle.std.specs.Prelude.{◌≡◌, [], IfOk};
ghost use Rattle.rev_fields.specs.Faults.{Answers};
ghost use Rattle.rev_fields.specs.Parts.{lent_of, vectors_of};
ghost use Rattle.rev_trace.specs.Commands.{bare_of, command_line, command_of, taken_by};

use crate::events::{
    BAD_LINE, abort, break_number, clean, event_name, fail, finish, nothing, pass, plan, resize,
    start, touch,
};
use crate::mentions::Mentions;
use crate::points::point;
use crate::verb::Verb;
use rev_cells::Names;
use rev_commands::Command;
use rev_events::Event;
use rev_fields::{LineFault, lent_fields};
use std::alloc::{AllocError, Global};
use std::borrow::CowSlice;

// A word that stands alone.
fn bare(command: Command, texts: &[CowSlice<'_, u8>]) -> Result<Command, LineFault>
    ensures { Answers result (λ c. c) (bare_of command (lent_of texts.now)) }
{
    nothing(texts)?;
    Ok(command)
}

// What a word takes.
fn taken_by(
    alloc: Global,
    mentions: &mut Mentions,
    targets: &Names,
    verb: Verb,
    texts: &[CowSlice<'_, u8>],
) -> Result<Command, LineFault>
    ensures { Answers result (λ c. c) (taken_by targets.now verb (lent_of texts.now)) }
{
    match verb {
        Verb::Plan => plan(alloc, targets, texts),
        Verb::Start => start(alloc, texts),
        Verb::Finish => finish(alloc, mentions, texts),
        Verb::Fail => fail(alloc, texts),
        Verb::Abort => abort(alloc, texts),
        Verb::Clean => clean(alloc, texts),
        Verb::Pass => pass(alloc, texts),
        Verb::Touch => touch(alloc, texts),
        Verb::Interrupt => bare(Command::Event(Event::Interrupt), texts),
        Verb::Resize => resize(texts),
        Verb::Undo => Ok(Command::Undo(event_name(alloc, texts)?)),
        Verb::Redo => Ok(Command::Redo(event_name(alloc, texts)?)),
        Verb::Cone => Ok(Command::Cone(event_name(alloc, texts)?)),
        Verb::Back => bare(Command::Back, texts),
        Verb::Break => Ok(Command::Break(point(alloc, texts)?)),
        Verb::Unbreak => Ok(Command::Unbreak(break_number(texts)?)),
        Verb::Continue => bare(Command::Continue, texts),
    }
}

/// The command that the texts of a line's fields are, where `plan` without a path means these targets. A path that it
/// lists and lists before it mentioned shares the bytes of that mention.
pub(crate) fn command_among(
    alloc: Global,
    mentions: &mut Mentions,
    targets: &Names,
    texts: &[CowSlice<'_, u8>],
) -> Result<Command, LineFault>
    ensures { Answers result (λ c. c) (command_of targets.now (lent_of texts.now)) }
{
    let Some((word, rest)) = texts.split_first() else {
        return Err(BAD_LINE);
    };
    match Verb::of_word(word) {
        None => Err(BAD_LINE),
        Some(verb) => taken_by(alloc, mentions, targets, verb, rest),
    }
}

// The same texts, lent.
fn lent(alloc: Global, texts: &[Vec<u8>]) -> Result<Vec<CowSlice<'_, u8>>, AllocError>
    ensures { IfOk result (λ lent. lent_of lent.items ≡ vectors_of texts.now) }
{
    let mut lent = Vec::with_capacity(alloc, texts.len())?;
    for text in texts {
        lent.push(CowSlice::Borrowed(text.as_slice()))?;
    }
    Ok(lent)
}

/// The command that the texts of a line's fields are, where `plan` without a path means these targets.
pub fn command_of_texts(
    alloc: Global,
    targets: &Names,
    texts: &[Vec<u8>],
) -> Result<Command, LineFault>
    ensures { Answers result (λ c. c) (command_of targets.now (vectors_of texts.now)) }
{
    let mut mentions = Mentions::new(alloc);
    let lent = lent(alloc, texts)?;
    command_among(alloc, &mut mentions, targets, &lent)
}

/// The command that a line is, which stands without its end. `plan` without a path has no targets.
pub fn read_line(alloc: Global, line: &[u8]) -> Result<Command, LineFault>
    ensures { Answers result (λ c. c) (command_line [] line.now) }
{
    let none = Names::new(Vec::new(alloc))?;
    let texts = lent_fields(alloc, line)?;
    let mut mentions = Mentions::new(alloc);
    command_among(alloc, &mut mentions, &none, &texts)
}
