//! The lines of commands in a text.
ghost use Rattle.std.specs.Prelude.{◌≡◌, ◌+◌, ◌^◌, ◌<◌, ◌≤◌, ◌∷◌, Bool, None, length, IfOk, IfSome};
ghost use Rattle.rev_fields.specs.Parts.{slices_of};
ghost use Rattle.rev_observed.specs.CommandLines.{IsCommandLine, IsLineAmong};
ghost use Rattle.rev_observed.specs.Observations.{ObservationValue, nothing_by};
ghost use Rattle.rev_observed.specs.Says.{LinesSay, Says, first_line, statements_of};

use crate::faults::LineFault;
use crate::observation::Observation;
use crate::reading::{names_format, without_end};
use crate::statements::{add_line, observer};
use rev_fields::parts_at;
use std::alloc::{AllocError, Global};

// The line of a command among those behind the first two.
fn line_among(
    alloc: Global,
    by: Vec<u8>,
    lines: &[&[u8]],
    place: usize,
) -> Result<Option<u64>, AllocError>
    requires { length lines.now + 2 < 2 ^ 64 }
    ensures found { IfOk result (λ found. IfSome found (λ line.
        IsLineAmong (nothing_by by.items) (slices_of lines.now) place line)) }
    ensures none { IfOk result (λ found. found ≡ None → (o : ObservationValue)
        → Says (nothing_by by.items) (slices_of lines.now) o → length o.commands ≤ place) }
{
    let mut observation = Observation::new(alloc, by);
    for (number, line) in lines.iter().enumerate() {
        match add_line(alloc, &mut observation, line) {
            Ok(()) => {}
            Err(LineFault::Memory) => return Err(AllocError),
            Err(LineFault::Kind(_)) => return Ok(None),
        }
        if place < observation.commands().len() {
            return Ok(Some(number as u64 + 3));
        }
    }
    Ok(None)
}

// The line of a command among those behind the first, which names the format.
fn line_behind(alloc: Global, lines: &[&[u8]], place: usize) -> Result<Option<u64>, AllocError>
    requires { length lines.now + 1 < 2 ^ 64 }
    ensures found { IfOk result (λ found. IfSome found (λ line.
        IsCommandLine (first_line ∷ slices_of lines.now) place line)) }
    ensures none { IfOk result (λ found. found ≡ None → (o : ObservationValue)
        → LinesSay (first_line ∷ slices_of lines.now) o → length o.commands ≤ place) }
{
    let Some((second, rest)) = lines.split_first() else {
        return Ok(None);
    };
    match observer(alloc, second) {
        Ok(by) => line_among(alloc, by, rest, place),
        Err(LineFault::Memory) => Err(AllocError),
        Err(LineFault::Kind(_)) => Ok(None),
    }
}

// The line of a command among lines.
fn line_in(alloc: Global, lines: &[&[u8]], place: usize) -> Result<Option<u64>, AllocError>
    requires { length lines.now < 2 ^ 64 }
    ensures found { IfOk result (λ found. IfSome found (λ line. IsCommandLine (slices_of lines.now) place line)) }
    ensures none { IfOk result (λ found. found ≡ None → (o : ObservationValue)
        → LinesSay (slices_of lines.now) o → length o.commands ≤ place) }
{
    let Some((first, rest)) = lines.split_first() else {
        return Ok(None);
    };
    if !names_format(first) {
        return Ok(None);
    }
    line_behind(alloc, rest, place)
}

/// The number of the line of a command, from 1, by the command's place among the commands, from 0: the line of a fault
/// that [`edges`](crate::edges) finds. Nothing where the text says no observation, or one without such a command. In a
/// text with a fault, a command before the fault can have a line. The call reads the text once more, in time linear in the
/// bytes, up to hashing.
///
/// # Errors
/// [`AllocError`] only where an allocation was refused.
pub fn command_line(alloc: Global, text: &[u8], place: usize) -> Result<Option<u64>, AllocError>
    ensures found { IfOk result (λ found. IfSome found (λ line. IsCommandLine (statements_of text.now) place line)) }
    ensures none { IfOk result (λ found. found ≡ None → (o : ObservationValue)
        → LinesSay (statements_of text.now) o → length o.commands ≤ place) }
{
    let lines = parts_at(alloc, without_end(text), b'\n')?;
    line_in(alloc, &lines, place)
}
