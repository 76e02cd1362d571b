//! Findings that the order of another finding mends.
use crate::finding::{Finding, Kind};
use std::alloc::{AllocError, Global};

// An order that is to be written, by its two edges, with the number of the first finding that it mends.
#[derive(Clone, Copy, PartialEq, Eq, PartialOrd, Ord)]
struct Written {
    user: u32,
    maker: u32,
    number: u64,
}

// How many other findings an order mends, by the number of the finding whose order it is.
#[derive(Clone, Copy, PartialEq, Eq, PartialOrd, Ord)]
struct Others {
    number: u64,
    count: u64,
}

/// The orders that are to be written, and how many findings each mends for whose makers the user then waits too.
#[derive(Drop)]
pub(crate) struct Orders {
    // In the order of their edges.
    written: Vec<Written>,
    // Of those that mend other findings, in the order of their numbers.
    others: Vec<Others>,
}

// The first of the orders whose edges are these, or which come behind them.
fn place_of(written: &[Written], user: u32, maker: u32) -> usize {
    let first = Written {
        user,
        maker,
        number: 0,
    };
    match written.binary_search(&first) {
        Ok(place) | Err(place) => place,
    }
}

// The number of the order of two edges, where it is to be written.
fn number_in(written: &[Written], user: u32, maker: u32) -> Option<u64> {
    let first = written.get(place_of(written, user, maker))?;
    if first.user == user && first.maker == maker {
        return Some(first.number);
    }
    None
}

// Adds the order of a finding that has a number, where it is to be written.
fn add_written(
    finding: &Finding<'_>,
    number: u64,
    written: &mut Vec<Written>,
) -> Result<(), AllocError> {
    let is_plain = finding.kind == Kind::Race && finding.mending.reverse.is_none();
    if is_plain && finding.mending.brought_by.is_none() && finding.order().is_some() {
        written.push(Written {
            user: finding.user,
            maker: finding.maker,
            number,
        })?;
    }
    Ok(())
}

// How often each of some numbers stands there, which rise.
fn counts_of(alloc: Global, numbers: &[u64]) -> Result<Vec<Others>, AllocError> {
    let mut counts = Vec::new(alloc);
    for equal in numbers.chunk_by(|one, other| *one == *other) {
        if let Some(number) = equal.first() {
            counts.push(Others {
                number: *number,
                count: equal.len() as u64,
            })?;
        }
    }
    Ok(counts)
}

impl Orders {
    /// The orders of findings that are numbered from a number.
    ///
    /// # Errors
    /// [`AllocError`] only where an allocation was refused.
    pub(crate) fn new(
        alloc: Global,
        findings: &[Finding<'_>],
        first: u64,
    ) -> Result<Orders, AllocError> {
        let mut written = Vec::new(alloc);
        let mut number = first;
        for finding in findings {
            add_written(finding, number, &mut written)?;
            number = u64::saturating_add(number, 1);
        }
        written.sort_unstable();
        let mut numbers = Vec::new(alloc);
        for finding in findings {
            if let Some(maker) = finding.mending.brought_by {
                if let Some(number) = number_in(&written, finding.user, maker) {
                    numbers.push(number)?;
                }
            }
        }
        numbers.sort_unstable();
        let others = counts_of(alloc, &numbers)?;
        Ok(Orders { written, others })
    }

    /// The number of the finding whose order mends a finding too. It is None where the finding's own order is to be
    /// written, and where no finding here has that order.
    pub(crate) fn mended_by(&self, finding: &Finding<'_>) -> Option<u64> {
        number_in(&self.written, finding.user, finding.mending.brought_by?)
    }

    /// How many other findings the order of a finding mends, by the number of that finding.
    pub(crate) fn others(&self, number: u64) -> u64 {
        let place = match self.others.binary_search(&Others { number, count: 0 }) {
            Ok(place) | Err(place) => place,
        };
        match self.others.get(place) {
            Some(others) if others.number == number => others.count,
            _ => 0,
        }
    }
}
