//! Orders that other orders of the same build statement bring with them.
use crate::mended::Mend;
use rev_conflicts_text::{Steps, WaitFor};
use rev_graph::Graph;
use rev_manifest::Build;
use std::alloc::{AllocError, Global};

// How many pairs of an order and an edge are looked at, at most: each order beside others takes a search of the graph.
const PAIRS: usize = 4_194_304;

// The wait of an order.
fn wait_of(mend: Mend) -> WaitFor {
    WaitFor {
        maker: mend.maker,
        is_listed: !mend.is_order_only,
    }
}

// Notes which orders of one statement another one of them brings with it.
fn note_brought(
    alloc: Global,
    steps: &Steps,
    one: Mend,
    others: &[Mend],
    brought: &mut [bool],
) -> Result<(), AllocError> {
    let by_one = steps.brought_by(alloc, wait_of(one))?;
    for (other, mark) in others.iter().zip(brought.iter_mut()) {
        if by_one.has(wait_of(*other)) {
            *mark = true;
        }
    }
    Ok(())
}

// Adds the orders of one statement that no other one of them brings with it.
fn add_minimal(
    alloc: Global,
    steps: &Steps,
    mends: &[Mend],
    left: &mut Vec<Mend>,
) -> Result<(), AllocError> {
    let mut brought = vec![in alloc; false; mends.len()]?;
    for one in mends {
        note_brought(alloc, steps, *one, mends, &mut brought)?;
    }
    for (mend, is_brought) in mends.iter().zip(brought.iter()) {
        if !*is_brought {
            left.push(*mend)?;
        }
    }
    Ok(())
}

/// The orders that are to be written: without those that another order of the same statement brings with it, since its
/// maker waits for theirs. Those of one statement stand side by side. Where that would take too many looks at edges, all
/// of them are.
///
/// # Errors
/// [`AllocError`] only where an allocation was refused.
pub(crate) fn minimal(
    alloc: Global,
    graph: &Graph,
    builds: &[Build],
    mends: &[Mend],
) -> Result<Vec<Mend>, AllocError> {
    let mut left = Vec::new(alloc);
    if usize::saturating_mul(mends.len(), builds.len()) > PAIRS {
        left.extend_from_slice(mends)?;
        return Ok(left);
    }
    let steps = Steps::new(alloc, graph)?;
    for statement in mends.chunk_by(|one, other| one.file == other.file && one.line == other.line) {
        if statement.len() < 2 {
            left.extend_from_slice(statement)?;
        } else {
            add_minimal(alloc, &steps, statement, &mut left)?;
        }
    }
    Ok(left)
}
