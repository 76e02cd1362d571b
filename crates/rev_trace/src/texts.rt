//! The lines that say commands.
ghost use Rattle.std.specs.Prelude.{◌≡◌, ◌++◌, ◌∷◌, [], IfOk, OnOk, All, Ok, decimal};
ghost use Rattle.rev_commands.specs.declared.command.Command.TheVariants as command;
ghost use Rattle.rev_events.specs.declared.event.Event.TheVariants as event;
ghost use Rattle.rev_fields.specs.Fields.{field_text, spaced};
ghost use Rattle.rev_fields.specs.Fields.{line_of};
ghost use Rattle.rev_fields.specs.Numbers.{numbers_text};
ghost use Rattle.rev_paths.specs.Canonical.{IsCanonical};
ghost use Rattle.std.specs.List.{flat_map};
ghost use Rattle.rev_trace.specs.Commands.{command_line, word_of};
ghost use Rattle.rev_trace.specs.Texts.{HasStamps, IsCommand, IsEvent, IsListing, IsLong, IsPoint, IsShort, IsWhich, command_text, event_text, listing_fields, which_text};

use crate::labels::push_which;
use crate::points::next_point;
use crate::verb::Verb;
use rev_commands::{Command, Point, Which};
use rev_events::{Event, Listing};
use rev_fields::{next_field, next_number, next_numbers, next_paths};
use rev_paths::Name;
use std::alloc::{AllocError, Global};

// Adds the word of a command.
fn push_word(line: &mut Vec<u8>, verb: Verb) -> Result<(), AllocError>
    ensures { OnOk result (line.new.items ≡ line.old.items ++ word_of verb) }
{
    line.extend_from_slice(verb.word())
}

// Adds the word of a command and the output or path that it names.
fn push_named(line: &mut Vec<u8>, verb: Verb, name: &Name) -> Result<(), AllocError>
    ensures text { OnOk result (line.new.items
        ≡ line.old.items ++ word_of verb ++ spaced (field_text name.now)) }
    ensures canonical { IsCanonical name.now }
{
    let bytes = name.as_bytes();
    push_word(line, verb)?;
    next_field(line, bytes)
}

// Adds `plan PATH...`.
#[tactic(auto, using(crate::proofs::TextLemmas::fields_of_paths))]
fn push_plan(line: &mut Vec<u8>, targets: &[Name]) -> Result<(), AllocError>
    ensures text { OnOk result (line.new.items ≡ line.old.items ++ event_text (event.Plan targets.now)) }
    ensures sound { OnOk result (IsEvent (event.Plan targets.now)) }
{
    push_word(line, Verb::Plan)?;
    next_paths(line, targets)
}

// Adds `start OUT JOB [SLOT]`.
fn push_start(line: &mut Vec<u8>, out: &Name, job: u32, slot: Option<u32>) -> Result<(), AllocError>
    ensures text { OnOk result (line.new.items ≡ line.old.items ++ event_text (event.Start out.now job slot)) }
    ensures sound { IsEvent (event.Start out.now job slot) }
{
    push_named(line, Verb::Start, out)?;
    next_number(line, u64::from(job))?;
    let Some(slot) = slot else {
        return Ok(());
    };
    next_number(line, u64::from(slot))
}

// Adds an output and stamps: `WORD OUT N,N...`.
fn push_ended(line: &mut Vec<u8>, verb: Verb, out: &Name, stamps: &[u64]) -> Result<(), AllocError>
    ensures text { OnOk result (line.new.items
        ≡ line.old.items ++ line_of
        (word_of verb ∷ field_text out.now ∷ numbers_text stamps.now ∷ [])) }
    ensures canonical { IsCanonical out.now }
    ensures long { All IsLong stamps.now }
{
    push_named(line, verb, out)?;
    next_numbers(line, stamps)
}

// Adds nothing, or ` depfile TEXT` or ` list PATH...`.
#[tactic(auto, using(crate::proofs::TextLemmas::fields_of_paths))]
fn push_listing(line: &mut Vec<u8>, listing: &Listing) -> Result<(), AllocError>
    ensures text { OnOk result (line.new.items
        ≡ line.old.items ++ flat_map spaced (listing_fields listing.now)) }
    ensures sound { OnOk result (IsListing listing.now) }
{
    match listing {
        Listing::Nothing => Ok(()),
        Listing::Depfile(text) => {
            line.extend_from_slice(b" depfile")?;
            next_field(line, text.as_slice())
        }
        Listing::Paths(paths) => {
            line.extend_from_slice(b" list")?;
            next_paths(line, paths.as_slice())
        }
    }
}

// Adds `finish OUT N,N...` and a listing.
fn push_finish(
    line: &mut Vec<u8>,
    out: &Name,
    stamps: &[u64],
    listing: &Listing,
) -> Result<(), AllocError>
    ensures text { OnOk result (line.new.items
        ≡ line.old.items ++ event_text (event.Finish out.now stamps.now listing.now)) }
    ensures sound { OnOk result (IsEvent (event.Finish out.now stamps.now listing.now)) }
{
    push_ended(line, Verb::Finish, out, stamps)?;
    push_listing(line, listing)
}

// Adds `touch PATH N`.
fn push_touch(line: &mut Vec<u8>, path: &Name, stamp: u64) -> Result<(), AllocError>
    ensures text { OnOk result (line.new.items ≡ line.old.items ++ event_text (event.Touch path.now stamp)) }
    ensures sound { IsEvent (event.Touch path.now stamp) }
{
    push_named(line, Verb::Touch, path)?;
    next_number(line, stamp)
}

// Adds `resize POOL DEPTH`.
fn push_resize(line: &mut Vec<u8>, pool: u32, depth: u32) -> Result<(), AllocError>
    ensures text { OnOk result (line.new.items ≡ line.old.items ++ event_text (event.Resize pool depth)) }
    ensures sound { IsEvent (event.Resize pool depth) }
{
    push_word(line, Verb::Resize)?;
    next_number(line, u64::from(pool))?;
    next_number(line, u64::from(depth))
}

// Adds a word and the name of an event.
fn push_of_event(line: &mut Vec<u8>, verb: Verb, which: Which) -> Result<(), AllocError>
    ensures text { OnOk result (line.new.items
        ≡ line.old.items ++ line_of (word_of verb ∷ which_text which ∷ [])) }
    ensures sound { OnOk result (IsWhich which) }
{
    push_word(line, verb)?;
    line.push(b' ')?;
    push_which(line, which)
}

// Adds `break POINT`.
fn push_break(line: &mut Vec<u8>, point: &Point) -> Result<(), AllocError>
    ensures text { OnOk result (line.new.items ≡ line.old.items ++ command_text (command.Break point.now)) }
    ensures sound { OnOk result (IsPoint point.now) }
{
    push_word(line, Verb::Break)?;
    next_point(line, point)
}

// Adds `unbreak N`.
fn push_unbreak(line: &mut Vec<u8>, number: u32) -> Result<(), AllocError>
    ensures text { OnOk result (line.new.items ≡ line.old.items ++ command_text (command.Unbreak number)) }
    ensures short { IsShort number }
{
    push_word(line, Verb::Unbreak)?;
    next_number(line, u64::from(number))
}

/// Adds the line that says an event.
pub fn push_event(line: &mut Vec<u8>, event: &Event) -> Result<(), AllocError>
    ensures text { OnOk result (line.new.items ≡ line.old.items ++ event_text event.now) }
    ensures sound { OnOk result (IsEvent event.now) }
{
    match event {
        Event::Plan(targets) => push_plan(line, targets.as_slice()),
        Event::Start { out, job, slot } => push_start(line, out, *job, *slot),
        Event::Finish {
            out,
            stamps,
            listing,
        } => push_finish(line, out, stamps.as_slice(), listing),
        Event::Fail { out, stamps } => push_ended(line, Verb::Fail, out, stamps.as_slice()),
        Event::Abort { out, stamps } => push_ended(line, Verb::Abort, out, stamps.as_slice()),
        Event::Clean { out } => push_named(line, Verb::Clean, out),
        Event::Pass { out } => push_named(line, Verb::Pass, out),
        Event::Touch { path, stamp } => push_touch(line, path, *stamp),
        Event::Interrupt => push_word(line, Verb::Interrupt),
        Event::Resize { pool, depth } => push_resize(line, *pool, *depth),
    }
}

/// Adds the line that says a command.
pub fn push_command(line: &mut Vec<u8>, command: &Command) -> Result<(), AllocError>
    ensures text { OnOk result (line.new.items ≡ line.old.items ++ command_text command.now) }
    ensures sound { OnOk result (IsCommand command.now) }
{
    match command {
        Command::Event(event) => push_event(line, event),
        Command::Undo(which) => push_of_event(line, Verb::Undo, *which),
        Command::Redo(which) => push_of_event(line, Verb::Redo, *which),
        Command::Cone(which) => push_of_event(line, Verb::Cone, *which),
        Command::Back => push_word(line, Verb::Back),
        Command::Break(point) => push_break(line, point),
        Command::Unbreak(number) => push_unbreak(line, *number),
        Command::Continue => push_word(line, Verb::Continue),
    }
}

/// The line that says a command, without its end. An empty list of stamps is an empty field, which is not read.
pub fn text(alloc: Global, command: &Command) -> Result<Vec<u8>, AllocError>
    ensures text { IfOk result (λ line. line.items ≡ command_text command.now) }

    // Reading the line gives the command.
    ensures read { IfOk result (λ line. HasStamps command.now → command_line [] line.items ≡ Ok command.now) }
{
    let mut line = Vec::new(alloc);
    push_command(&mut line, command)?;
    Ok(line)
}
