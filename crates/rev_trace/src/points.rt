//! What breaks wait for, as fields of lines.
ghost use Rattle.std.specs.Prelude.{◌≡◌, ◌++◌, OnOk};
ghost use Rattle.std.specs.List.{flat_map};
ghost use Rattle.rev_fields.specs.Faults.{Answers};
ghost use Rattle.rev_fields.specs.Fields.{field_text, spaced};
ghost use Rattle.rev_fields.specs.Parts.{lent_of};
ghost use Rattle.rev_paths.specs.Canonical.{IsCanonical};
ghost use Rattle.rev_trace.specs.Commands.{point_by, point_of, word_of};
ghost use Rattle.rev_trace.specs.Texts.{IsPoint, point_fields};

use crate::events::{BAD_LINE, alone, nothing};
use crate::verb::Verb;
use rev_commands::Point;
use rev_fields::{LineFault, next_field};
use rev_paths::Name;
use std::alloc::{AllocError, Global};
use std::borrow::CowSlice;

// What a break waits for, by the word of its events.
fn point_by(alloc: Global, verb: Verb, texts: &[CowSlice<'_, u8>]) -> Result<Point, LineFault>
    ensures { Answers result (λ p. p) (point_by verb (lent_of texts.now)) }
{
    match verb {
        Verb::Plan => {
            nothing(texts)?;
            Ok(Point::Plan)
        }
        Verb::Start => Ok(Point::Start(alone(alloc, texts)?)),
        Verb::Finish => Ok(Point::Finish(alone(alloc, texts)?)),
        Verb::Fail => Ok(Point::Fail(alone(alloc, texts)?)),
        Verb::Abort => Ok(Point::Abort(alone(alloc, texts)?)),
        Verb::Clean => Ok(Point::Clean(alone(alloc, texts)?)),
        Verb::Pass => Ok(Point::Pass(alone(alloc, texts)?)),
        Verb::Touch => Ok(Point::Touch(alone(alloc, texts)?)),
        Verb::Interrupt => {
            nothing(texts)?;
            Ok(Point::Interrupt)
        }
        Verb::Resize
        | Verb::Undo
        | Verb::Redo
        | Verb::Cone
        | Verb::Back
        | Verb::Break
        | Verb::Unbreak
        | Verb::Continue => Err(BAD_LINE),
    }
}

/// `KIND OUT`, `touch PATH`, `plan` or `interrupt`.
pub(crate) fn point(alloc: Global, texts: &[CowSlice<'_, u8>]) -> Result<Point, LineFault>
    ensures { Answers result (λ p. p) (point_of (lent_of texts.now)) }
{
    let Some((word, rest)) = texts.split_first() else {
        return Err(BAD_LINE);
    };
    match Verb::of_word(word) {
        None => Err(BAD_LINE),
        Some(verb) => point_by(alloc, verb, rest),
    }
}

// Adds a space and the word of events.
fn next_word(line: &mut Vec<u8>, verb: Verb) -> Result<(), AllocError>
    ensures { OnOk result (line.new.items ≡ line.old.items ++ spaced (word_of verb)) }
{
    line.push(b' ')?;
    line.extend_from_slice(verb.word())
}

// Adds the word of events, and the output or path of these.
fn next_named(line: &mut Vec<u8>, verb: Verb, name: &Name) -> Result<(), AllocError>
    ensures text { OnOk result (line.new.items
        ≡ line.old.items ++ spaced (word_of verb) ++ spaced (field_text name.now)) }
    ensures canonical { IsCanonical name.now }
{
    let bytes = name.as_bytes();
    next_word(line, verb)?;
    next_field(line, bytes)
}

/// Adds the fields that say what a break waits for, each with a space before it.
pub(crate) fn next_point(line: &mut Vec<u8>, point: &Point) -> Result<(), AllocError>
    ensures text { OnOk result (line.new.items ≡ line.old.items ++ flat_map spaced (point_fields point.now)) }
    ensures sound { OnOk result (IsPoint point.now) }
{
    match point {
        Point::Start(out) => next_named(line, Verb::Start, out),
        Point::Finish(out) => next_named(line, Verb::Finish, out),
        Point::Fail(out) => next_named(line, Verb::Fail, out),
        Point::Abort(out) => next_named(line, Verb::Abort, out),
        Point::Clean(out) => next_named(line, Verb::Clean, out),
        Point::Pass(out) => next_named(line, Verb::Pass, out),
        Point::Touch(path) => next_named(line, Verb::Touch, path),
        Point::Plan => next_word(line, Verb::Plan),
        Point::Interrupt => next_word(line, Verb::Interrupt),
    }
}
