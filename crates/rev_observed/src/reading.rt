//! Observations, from their texts.
ghost use Rattle.std.specs.Prelude.{◌≡◌, ◌+◌, ◌^◌, ◌<◌, ◌∷◌, bytes_eq, length, IfOk, IsErrOf};
ghost use Rattle.rev_fields.specs.Parts.{slices_of};
ghost use Rattle.rev_observed.specs.declared.faults.Fault.{Fault};
ghost use Rattle.rev_observed.specs.Observations.{nothing_by};
ghost use Rattle.rev_observed.specs.Says.{IsFirstFault, IsWrongAmong, LinesSay, Says, first_line, statements_of, without_end};

use crate::faults::{Fault, FaultKind, ReadFault};
use crate::observation::Observation;
use crate::statements::{add_line, observer};
use rev_fields::parts_at;
use std::alloc::Global;

// What stands at a line that does not name the format.
const NO_HEADER: ReadFault = ReadFault::Numbered(Fault {
    kind: FaultKind::Header,
    line: 1,
});

// What stands behind the first line of a text that ends with it.
const NO_OBSERVER: ReadFault = ReadFault::Numbered(Fault {
    kind: FaultKind::Syntax,
    line: 2,
});

/// A text without the LF at its end, if one is there.
pub(crate) fn without_end(text: &[u8]) -> &[u8]
    ensures { result.now ≡ without_end text.now }
{
    let Some((last, before)) = text.split_last() else {
        return text;
    };
    if *last == b'\n' {
        return before;
    }
    text
}

/// Whether a first line names the format.
pub(crate) fn names_format(line: &[u8]) -> bool
    ensures { result ≡ bytes_eq line.now first_line }
{
    line == b"rebug-observed 1".as_slice()
}

// What lines say behind the first two, of which the second names what observed.
fn read_rest(alloc: Global, by: Vec<u8>, lines: &[&[u8]]) -> Result<Observation, ReadFault>
    requires { length lines.now + 2 < 2 ^ 64 }
    ensures said { IfOk result (λ o. Says (nothing_by by.items) (slices_of lines.now) o) }
    ensures fault { (f : Fault) → IsErrOf result (ReadFault.Numbered f)
        → IsWrongAmong (nothing_by by.items) (slices_of lines.now) f }
{
    let mut observation = Observation::new(alloc, by);
    for (place, line) in lines.iter().enumerate() {
        if let Err(fault) = add_line(alloc, &mut observation, line) {
            return Err(fault.at(place + 2));
        }
    }
    Ok(observation)
}

// What lines say behind the first, which names the format.
fn read_behind(alloc: Global, lines: &[&[u8]]) -> Result<Observation, ReadFault>
    requires { length lines.now + 1 < 2 ^ 64 }
    ensures said { IfOk result (λ o. LinesSay (first_line ∷ slices_of lines.now) o) }
    ensures fault { (f : Fault) → IsErrOf result (ReadFault.Numbered f)
        → IsFirstFault (first_line ∷ slices_of lines.now) f }
{
    let Some((second, rest)) = lines.split_first() else {
        return Err(NO_OBSERVER);
    };
    match observer(alloc, second) {
        Ok(by) => read_rest(alloc, by, rest),
        Err(fault) => Err(fault.at(1)),
    }
}

// What lines say.
fn read_lines(alloc: Global, lines: &[&[u8]]) -> Result<Observation, ReadFault>
    requires { length lines.now < 2 ^ 64 }
    ensures said { IfOk result (λ o. LinesSay (slices_of lines.now) o) }
    ensures fault { (f : Fault) → IsErrOf result (ReadFault.Numbered f) → IsFirstFault (slices_of lines.now) f }
{
    let Some((first, rest)) = lines.split_first() else {
        return Err(NO_HEADER);
    };
    if !names_format(first) {
        return Err(NO_HEADER);
    }
    read_behind(alloc, rest)
}

/// Reads what commands did with files: the line `rebug-observed 1`, then `by NAME`, then `path PATH` for each path, by
/// number from 0, and then the commands. A command is a line `edge OUT [FLAG...]`, then at most one line of each kind,
/// in their order, with numbers and ranges of numbers that rise, and `outside N`. The last line may be without its LF.
/// It takes time linear in the bytes, up to hashing.
///
/// # Errors
/// [`ReadFault::Numbered`] with the first fault, where the text says no observation. [`ReadFault::Memory`] only where
/// an allocation was refused.
pub fn read(alloc: Global, text: &[u8]) -> Result<Observation, ReadFault>
    ensures said { IfOk result (λ o. LinesSay (statements_of text.now) o) }
    ensures fault { (f : Fault) → IsErrOf result (ReadFault.Numbered f) → IsFirstFault (statements_of text.now) f }
{
    let lines = parts_at(alloc, without_end(text), b'\n')?;
    read_lines(alloc, &lines)
}
