//! Numbers and ranges of numbers, as fields of lines.
ghost use Rattle.std.specs.Prelude.{◌≡◌, ◌+◌, ◌<◌, ◌==◌, drop, length, position, take};
ghost use Rattle.rev_fields.specs.Faults.{Answers};
ghost use Rattle.rev_fields.specs.Parts.{lent_of};
ghost use Rattle.rev_observed.specs.Ranges.{range_alone, range_between, range_of, ranges_of};

use rev_fields::{LineFault, number};
use rev_observed::PathRange;
use std::alloc::Global;
use std::borrow::CowSlice;

// Where the first `-` of a text stands.
fn dash_at(text: &[u8]) -> Option<usize>
    ensures { result ≡ position (λ b. b == 45) text.now }
{
    text.iter().position(|byte| *byte == b'-')
}

// The range of one number.
fn only(text: &[u8]) -> Result<PathRange, LineFault>
    ensures { Answers result (λ range. range) (range_alone text.now) }
{
    let only = number(text)?;
    Ok(PathRange {
        first: only,
        last: only,
    })
}

// The range from one number to another.
fn between(first: &[u8], last: &[u8]) -> Result<PathRange, LineFault>
    ensures { Answers result (λ range. range) (range_between first.now last.now) }
{
    let first = number(first)?;
    let last = number(last)?;
    Ok(PathRange { first, last })
}

// The range that a text writes: a number, or two with `-` between them.
fn range(text: &[u8]) -> Result<PathRange, LineFault>
    ensures { Answers result (λ range. range) (range_of text.now) }
{
    match dash_at(text) {
        None => only(text),
        Some(place) => parted(text, place),
    }
}

// The range that a text writes whose first `-` stands at this place.
fn parted(text: &[u8], place: usize) -> Result<PathRange, LineFault>
    requires { place < length text.now }
    ensures { Answers result (λ range. range) (range_between (take place text.now) (drop (place + 1) text.now)) }
{
    let (first, rest) = text.split_at(place);
    let (_dash, last) = rest.split_at(1);
    between(first, last)
}

/// The ranges that texts write.
pub(crate) fn ranges(alloc: Global, texts: &[CowSlice<'_, u8>]) -> Result<Vec<PathRange>, LineFault>
    ensures { Answers result (λ ranges. ranges.items) (ranges_of (lent_of texts.now)) }
{
    let mut ranges = Vec::with_capacity(alloc, texts.len())?;
    for text in texts {
        let next = range(text)?;
        ranges.push(next)?;
    }
    Ok(ranges)
}
