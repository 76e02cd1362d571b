//! The first pair of dependent events that stand the other way round in another history.
ghost use Rattle.std.specs.Prelude.{◌≡◌, IsSome, filter, IfOk};
ghost use Rattle.std.specs.List.{AllByRecursion};
ghost use Rattle.rev_causal.specs.Chosen.{IsRising as IsRisingNumbers, chosen};
ghost use Rattle.rev_causal.specs.History.{event_at};
ghost use Rattle.rev_causal.specs.Store.{conflict};
ghost use Rattle.rev_cells.specs.Keys.{cell_cmp};
ghost use Rattle.rev_history.specs.Along.{prints_along};
ghost use Rattle.rev_order.specs.Pairs.{inverted_pair};
ghost use Rattle.rev_compared.specs.Inverted.{first_inverted_of, is_compared as is_compared_of, places_of as places_by};

use crate::alone::{add_where, twin_at};
use crate::sought::{leaps_of, pair_near};
use rev_history::History;
use rev_runs::is_kept;
use std::alloc::{AllocError, Global};

// Whether an event is kept, and another one is the same.
fn is_compared(history: &History, matched: &[Option<u32>], number: u32) -> bool
    ensures { result ≡ is_compared_of history.now.timeline matched.now number }
{
    is_kept(history, number) && twin_at(matched, number).is_some()
}

// Those of some numbers whose events are compared.
fn compared(
    alloc: Global,
    history: &History,
    kept: &[u32],
    matched: &[Option<u32>],
) -> Result<Vec<u32>, AllocError>
    ensures { IfOk result (λ numbers. numbers.items ≡ filter (is_compared_of history.now.timeline matched.now) kept.now) }
{
    let mut numbers = Vec::new(alloc);
    for number in kept {
        let passes = is_compared(history, matched, *number);
        add_where(&mut numbers, *number, passes)?;
    }
    Ok(numbers)
}

// The place of each number in the other history, which is its number there.
fn places_of(alloc: Global, matched: &[Option<u32>]) -> Result<Vec<u32>, AllocError>
    ensures { IfOk result (λ places. places.items ≡ places_by matched.now) }
{
    let mut places = Vec::new(alloc);
    for other in matched {
        places.push(other.unwrap_or(0))?;
    }
    Ok(places)
}

// The first inverted pair of some numbers: sought by leaps first, since these meet no event that cannot be in it where
// few events changed their places, and then by lists.
fn pair_in(
    alloc: Global,
    history: &History,
    places: &[u32],
    numbers: &[u32],
) -> Result<Option<(u32, u32)>, AllocError>
    requires rising { IsRisingNumbers numbers.now }
    requires kept { AllByRecursion (λ n. IsSome (event_at n (prints_along history.now.timeline))) numbers.now }
    ensures { IfOk result (λ pair. pair ≡ inverted_pair (conflict cell_cmp) places.now
        (chosen (prints_along history.now.timeline) numbers.now)) }
{
    let leaps = leaps_of(alloc, places, numbers)?;
    match pair_near(history, places, numbers, &leaps) {
        Ok(pair) => Ok(pair),
        Err(at) => {
            let found = history.inverted_pair(places, &numbers[at..])?;
            Ok(found)
        }
    }
}

/// The first inverted pair of the kept events. Two events are inverted where the later one depends on the earlier one,
/// and stands before it in another history. The first pair has the least first number, and among those with it the
/// least second one. `matched` has for each number of an event the number of the same event there, as
/// [`matched`](crate::matched) gives it; events without one are left out. Two events depend on each other where one
/// writes what the other reads or writes. It takes time linear in what the events read and write.
///
/// # Errors
/// [`AllocError`] only where an allocation was refused.
pub fn first_inverted(
    alloc: Global,
    history: &History,
    matched: &[Option<u32>],
) -> Result<Option<(u32, u32)>, AllocError>
    ensures { IfOk result (λ pair. pair ≡ first_inverted_of history.now.timeline matched.now) }
{
    let numbers = compared(alloc, history, history.kept(), matched)?;
    let places = places_of(alloc, matched)?;
    pair_in(alloc, history, &places, &numbers)
}
