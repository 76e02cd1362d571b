//! The next place at which somebody may be.
ghost use Rattle.std.specs.Prelude.{◌≡◌, ◌⊎◌, length, IfOk};
ghost use Rattle.rev_ranks.specs.Graph.{graph_of};
ghost use Rattle.rev_conflicts.specs.Tables.{AreNexts};

use std::alloc::{AllocError, Global};

// The next place from one on, by its list and the next one behind it.
fn next_from(list: &[u64], place: usize, later: u64) -> u64
    ensures { (result ≡ place) ⊎ ((result ≡ later) × (length list.now ≡ 0)) }
{
    if list.is_empty() { later } else { place as u64 }
}

// For each number of a list, and the one past the last, the next from it on whose list is not empty, or the one past
// the last.
fn nexts(alloc: Global, lists: &[Vec<u64>]) -> Result<Vec<u64>, AllocError>
    ensures { IfOk result (λ nexts. AreNexts (graph_of lists.now) nexts.items) }
{
    let count = lists.len();
    let mut nexts = vec![in alloc; 0; count + 1]?;
    nexts[count] = count as u64;
    let mut left = count;
    while left > 0 {
        left -= 1;
        let next = next_from(&lists[left], left, nexts[left + 1]);
        nexts[left] = next;
    }
    Ok(nexts)
}

/// Lists with the next ones that are not empty.
///
/// # Errors
/// [`AllocError`] only where an allocation was refused.
pub fn with_nexts(alloc: Global, lists: Vec<Vec<u64>>) -> Result<Table, AllocError>
    ensures lists { IfOk result (λ table. table.lists.items ≡ lists.items) }
    ensures nexts { IfOk result (λ table. AreNexts (graph_of lists.items) table.nexts.items) }
{
    let nexts = nexts(alloc, &lists)?;
    Ok(Table { lists, nexts })
}

/// Who touches which place of a kind, and where the next such place is.
#[derive(Drop)]
pub struct Table {
    /// For each place the numbers of those who are there.
    pub lists: Vec<Vec<u64>>,
    /// For each place, and one more, the next one from it on where somebody is, or how many places there are.
    pub nexts: Vec<u64>,
}
