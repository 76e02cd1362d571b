//! Observations, from their texts.
ghost use Rattle.std.specs.Prelude.{◌≡◌, ◌+◌, ◌^◌, ◌<◌, ◌∷◌, bytes_eq, length, IfOk, IsErrOf};
ghost use Rattle.rev_fields.specs.Parts.{slices_of};
ghost use Rattle.rev_observed.specs.declared.faults.Fault.{Fault};
ghost use Rattle.rev_observation.specs.declared.head.Observer.{Observer};
ghost use Rattle.rev_observation.specs.Observations.{nothing_by};
ghost use Rattle.rev_observation.specs.Says.{IsFirstFault, IsWrongAmong, LinesSay, Says, SaidBy, first_line, statements_of};

use crate::ends::is_complete;
use crate::faults::{Fault, FaultKind, ReadFault};
use crate::head::Observer;
use crate::observation::Observation;
use crate::statements::{add_line, observer};
use rev_fields::parts_at;
use std::alloc::Global;

// What stands at a line that does not name the format.
const NO_HEADER: ReadFault = ReadFault::Numbered(Fault {
    kind: FaultKind::Header,
    line: 1,
});

// What stands behind the first line of a text that ends with it.
const NO_OBSERVER: ReadFault = ReadFault::Numbered(Fault {
    kind: FaultKind::Syntax,
    line: 2,
});

/// Whether a text begins with the line that names version 2.
pub fn is_version_2(text: &[u8]) -> bool {
    text.starts_with(b"rebug-observed 2\n")
}

// Whether a first line names the format.
fn names_format(line: &[u8]) -> bool
    ensures { result ≡ bytes_eq line.now first_line }
{
    line == b"rebug-observed 2".as_slice()
}

// What lines say behind the first two, of which the second names what observed.
fn read_rest(alloc: Global, by: Observer, lines: &[&[u8]]) -> Result<Observation, ReadFault>
    requires { length lines.now + 2 < 2 ^ 64 }
    ensures said { IfOk result (λ o. Says (nothing_by by) (slices_of lines.now) o) }
    ensures fault { (f : Fault) → IsErrOf result (ReadFault.Numbered f)
        → IsWrongAmong (nothing_by by) (slices_of lines.now) f }
{
    let mut observation = Observation::new(alloc, by);
    for (place, line) in lines.iter().enumerate() {
        if let Err(fault) = add_line(alloc, &mut observation, line) {
            return Err(fault.at(place + 2));
        }
    }
    Ok(observation)
}

// What lines say behind the first, which names the format.
fn read_behind(alloc: Global, lines: &[&[u8]]) -> Result<Observation, ReadFault>
    requires { length lines.now + 1 < 2 ^ 64 }
    ensures said { IfOk result (λ o. SaidBy (first_line ∷ slices_of lines.now) o) }
    ensures fault { (f : Fault) → IsErrOf result (ReadFault.Numbered f)
        → IsFirstFault (first_line ∷ slices_of lines.now) f }
{
    let Some((second, rest)) = lines.split_first() else {
        return Err(NO_OBSERVER);
    };
    match observer(alloc, second) {
        Ok(by) => read_rest(alloc, by, rest),
        Err(fault) => Err(fault.at(1)),
    }
}

// What lines say, before it is known whether they are whole.
fn read_lines(alloc: Global, lines: &[&[u8]]) -> Result<Observation, ReadFault>
    requires { length lines.now < 2 ^ 64 }
    ensures said { IfOk result (λ o. SaidBy (slices_of lines.now) o) }
    ensures fault { (f : Fault) → IsErrOf result (ReadFault.Numbered f) → IsFirstFault (slices_of lines.now) f }
{
    let Some((first, rest)) = lines.split_first() else {
        return Err(NO_HEADER);
    };
    if !names_format(first) {
        return Err(NO_HEADER);
    }
    read_behind(alloc, rest)
}

// What lines say.
fn read_whole(alloc: Global, lines: &[&[u8]]) -> Result<Observation, ReadFault>
    requires { length lines.now < 2 ^ 64 }
    ensures said { IfOk result (λ o. LinesSay (slices_of lines.now) o) }
    ensures fault { (f : Fault) → IsErrOf result (ReadFault.Numbered f) → IsFirstFault (slices_of lines.now) f }
{
    let mut observation = read_lines(alloc, lines)?;
    let is_complete = is_complete(alloc, &observation, lines)?;
    observation.settle(is_complete);
    Ok(observation)
}

/// Reads what commands saw and changed. The first line is `rebug-observed 2`, the second `by NAME RELEASE MACHINE`.
/// The lines of the head follow in their order, the block of Ninja, and the blocks of commands. The last line has the
/// counts and the sum of the lines before it. Bytes that follow the last LF are not read. It takes time linear in the
/// bytes, up to hashing.
///
/// # Errors
/// [`ReadFault::Numbered`] with the first fault, where the text says no observation. [`ReadFault::Memory`] only where
/// an allocation was refused. Another last line is not a fault: the observation is not complete then.
pub fn read(alloc: Global, text: &[u8]) -> Result<Observation, ReadFault>
    ensures said { IfOk result (λ o. LinesSay (statements_of text.now) o) }
    ensures fault { (f : Fault) → IsErrOf result (ReadFault.Numbered f) → IsFirstFault (statements_of text.now) f }
{
    let parts = parts_at(alloc, text, b'\n')?;
    let count = parts.len().saturating_sub(1);
    let (lines, _rest) = parts.split_at(count);
    read_whole(alloc, lines)
}
