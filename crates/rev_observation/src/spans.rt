//! Sets of entries as spans: united, and one without another.
use rev_observed::PathRange;
use std::alloc::{AllocError, Global};

/// The numbers from one to another, both among them, with room for the number after the last.
#[derive(Clone, Copy, Debug, PartialEq, Eq)]
pub(crate) struct Span {
    /// The first number.
    pub first: u64,
    /// The last number.
    pub last: u64,
}

/// Adds the spans that ranges are.
pub(crate) fn add_ranges(spans: &mut Vec<Span>, ranges: &[PathRange]) -> Result<(), AllocError> {
    for range in ranges {
        spans.push(Span {
            first: u64::from(range.first),
            last: u64::from(range.last),
        })?;
    }
    Ok(())
}

// Adds a span that begins at those before it, or behind.
fn add_next(spans: &mut Vec<Span>, next: Span) -> Result<(), AllocError> {
    if let Some(last) = spans.last_mut()
        && next.first <= last.last
    {
        if last.last < next.last {
            last.last = next.last;
        }
        return Ok(());
    }
    spans.push(next)?;
    Ok(())
}

/// The numbers of all of these spans, as spans that rise.
pub(crate) fn united(alloc: Global, mut spans: Vec<Span>) -> Result<Vec<Span>, AllocError> {
    spans.sort_by_key(|span| span.first)?;
    let mut united = Vec::with_capacity(alloc, spans.len())?;
    for span in &spans {
        add_next(&mut united, *span)?;
    }
    Ok(united)
}

// Adds what is left of a span behind the numbers that the next of others take away. Gives the place of the first of
// them that may take something from the next span.
fn add_left(
    left: &mut Vec<Span>,
    span: Span,
    others: &[Span],
    from: usize,
) -> Result<usize, AllocError> {
    let mut first = span.first;
    let mut place = from;
    for (number, other) in others.iter().enumerate().skip(from) {
        if span.last < other.first {
            break;
        }
        place = number;
        if first < other.first {
            left.push(Span {
                first,
                last: other.first - 1,
            })?;
        }
        if first <= other.last {
            first = other.last.saturating_add(1);
        }
    }
    if first <= span.last {
        left.push(Span {
            first,
            last: span.last,
        })?;
    }
    Ok(place)
}

/// The numbers of spans that rise without those of others that rise.
pub(crate) fn without(
    alloc: Global,
    spans: &[Span],
    others: &[Span],
) -> Result<Vec<Span>, AllocError> {
    let mut left = Vec::new(alloc);
    let mut from = 0;
    for span in spans {
        from = add_left(&mut left, *span, others, from)?;
    }
    Ok(left)
}
