//! The names of events in lines: `N`, or `LANE:PLACE`.
ghost use Rattle.std.specs.Prelude.{◌≡◌, ◌++◌, OnOk};
ghost use Rattle.rev_fields.specs.Faults.{Answers};
ghost use Rattle.rev_fields.specs.Parts.{slices_of};
ghost use Rattle.rev_trace.specs.Commands.{label_of, which_in, which_of};
ghost use Rattle.rev_trace.specs.Texts.{IsWhich, which_text};

use rev_commands::Which;
use rev_fields::{FaultKind, LineFault, number, parts_at, push_number};
use std::alloc::{AllocError, Global};

const BAD_NUMBER: LineFault = LineFault::Kind(FaultKind::Number);

// `LANE:PLACE`, by its parts.
fn label(lane: &[u8], place: &[u8]) -> Result<Which, LineFault>
    ensures { Answers result (λ w. w) (label_of lane.now place.now) }
{
    let lane = number(lane)?;
    let place = number(place)?;
    Ok(Which::Label { lane, place })
}

// The name of an event, by the parts of its text between colons.
fn which_in(parts: &[&[u8]]) -> Result<Which, LineFault>
    ensures { Answers result (λ w. w) (which_in (slices_of parts.now)) }
{
    match parts {
        [] => Err(BAD_NUMBER),
        [text] => Ok(Which::Number(number(text)?)),
        [lane, place] => label(lane, place),
        _ => Err(BAD_NUMBER),
    }
}

/// The event that the text of a field names: `N`, its number, or `LANE:PLACE`, the place of its entry among those of a
/// lane. A text that names none is a fault of a number.
pub fn which_of(alloc: Global, text: &[u8]) -> Result<Which, LineFault>
    ensures { Answers result (λ w. w) (which_of text.now) }
{
    let parts = parts_at(alloc, text, b':')?;
    which_in(&parts)
}

/// Adds the text that names an event.
pub fn push_which(line: &mut Vec<u8>, which: Which) -> Result<(), AllocError>
    ensures text { OnOk result (line.new.items ≡ line.old.items ++ which_text which) }
    ensures sound { IsWhich which }
{
    match which {
        Which::Number(number) => push_number(line, u64::from(number)),
        Which::Label { lane, place } => {
            push_number(line, u64::from(lane))?;
            line.push(b':')?;
            push_number(line, u64::from(place))
        }
    }
}
