//! Findings that the order of another finding mends.
use indexmap::IndexMap;
use rev_conflicts_text::{Brought, Finding, Kind, Steps, WaitFor};
use rev_graph::Graph;
use std::alloc::{AllocError, Global};

// How many pairs of an order and an edge are looked at, at most: each order beside others takes up to four searches of
// the graph.
const PAIRS: usize = 4_194_304;

// An order that mends findings: a user is to wait for a maker.
#[derive(Clone, Copy, PartialEq, Eq, PartialOrd, Ord)]
struct Wish {
    user: u32,
    wait: WaitFor,
    // Whether the order can be written.
    is_writable: bool,
}

// A user and a maker as one number.
fn pair_key(user: u32, maker: u32) -> u64 {
    u64::from(user) << 32 | u64::from(maker)
}

// Whether one order mends a finding, and no other one can be right.
fn is_of_one_order(finding: &Finding<'_>) -> bool {
    finding.kind == Kind::Race && finding.mending.reverse.is_none()
}

// The orders that mend findings, by their users.
fn wishes_of(alloc: Global, findings: &[Finding<'_>]) -> Result<Vec<Wish>, AllocError> {
    let mut wishes = Vec::new(alloc);
    for finding in findings {
        if is_of_one_order(finding) {
            wishes.push(Wish {
                user: finding.user,
                wait: WaitFor {
                    maker: finding.maker,
                    is_listed: finding.mending.is_listed,
                },
                is_writable: finding.order().is_some(),
            })?;
        }
    }
    wishes.sort_unstable();
    wishes.dedup();
    Ok(wishes)
}

// For each order of one user whether another one, which can be written, brings it with it.
fn brought_marks(alloc: Global, steps: &Steps, wishes: &[Wish]) -> Result<Vec<bool>, AllocError> {
    let mut marks = vec![in alloc; false; wishes.len()]?;
    for one in wishes {
        if one.is_writable {
            let brought = steps.brought_by(alloc, one.wait)?;
            mark_brought(&brought, wishes, &mut marks);
        }
    }
    Ok(marks)
}

// Marks the orders that one brings with it.
fn mark_brought(brought: &Brought, wishes: &[Wish], marks: &mut [bool]) {
    for (other, mark) in wishes.iter().zip(marks.iter_mut()) {
        if brought.has(other.wait) {
            *mark = true;
        }
    }
}

// Notes the maker of an order for each order of the same user that it brings with it, unless a maker is noted there.
fn note_maker(
    brought: &Brought,
    maker: u32,
    wishes: &[Wish],
    makers: &mut IndexMap<u64, u32>,
) -> Result<(), AllocError> {
    for other in wishes {
        let key = pair_key(other.user, other.wait.maker);
        if brought.has(other.wait) && !makers.contains_key(&key) {
            makers.insert(key, maker)?;
        }
    }
    Ok(())
}

// Notes, for each order of one user that another order brings with it, the maker of the other one. That is an order
// which no further one brings with it.
fn note_user(
    alloc: Global,
    steps: &Steps,
    wishes: &[Wish],
    makers: &mut IndexMap<u64, u32>,
) -> Result<(), AllocError> {
    let marks = brought_marks(alloc, steps, wishes)?;
    for (one, is_brought) in wishes.iter().zip(marks.iter()) {
        if one.is_writable && !*is_brought {
            let brought = steps.brought_by(alloc, one.wait)?;
            note_maker(&brought, one.wait.maker, wishes, makers)?;
        }
    }
    Ok(())
}

// How many orders stand beside others of the same user.
fn count_beside(wishes: &[Wish]) -> usize {
    let mut count = 0usize;
    for of in wishes.chunk_by(|one, other| one.user == other.user) {
        if of.len() > 1 {
            count = usize::saturating_add(count, of.len());
        }
    }
    count
}

/// Notes the findings that the order of another finding mends: both are of one user, and the maker of the other finding
/// waits for the maker of this one. A finding whose maker is to name the path among its outputs has a mend of its own.
/// Where the search would take too many looks at edges, each finding stands by itself.
///
/// # Errors
/// [`AllocError`] only where an allocation was refused.
pub(crate) fn note_brought(
    alloc: Global,
    graph: &Graph,
    findings: &mut Vec<Finding<'_>>,
) -> Result<(), AllocError> {
    let wishes = wishes_of(alloc, findings)?;
    let beside = count_beside(&wishes);
    if beside == 0 || usize::saturating_mul(beside, graph.edges() as usize) > PAIRS {
        return Ok(());
    }
    let steps = Steps::new(alloc, graph)?;
    let mut makers = IndexMap::new(alloc);
    for of in wishes.chunk_by(|one, other| one.user == other.user) {
        if of.len() > 1 {
            note_user(alloc, &steps, of, &mut makers)?;
        }
    }
    for finding in findings.iter_mut() {
        if is_of_one_order(finding) && !finding.is_to_be_declared() {
            finding.mending.brought_by = makers
                .get(&pair_key(finding.user, finding.maker))
                .copied();
        }
    }
    Ok(())
}
