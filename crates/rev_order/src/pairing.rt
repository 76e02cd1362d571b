//! Equal items of two lists are matched by occurrence: the first one there with the first one here, the second with the
//! second, and so on.
ghost use Rattle.std.specs.Prelude.{◌≡◌, ◌≤◌, List, ℕ, map, option_map, length, Some, None, IfOk, IfSome, IsSome};
ghost use Rattle.std.specs.List.{AllByRecursion};
ghost use Rattle.rev_causal.specs.Chosen.{IsRising as IsRisingNumbers, chosen};
ghost use Rattle.rev_causal.specs.History.{IsRising, event_at};
ghost use Rattle.rev_causal.specs.OrderCheck.{IsEquality, bare, renumbered};
ghost use Rattle.rev_order.specs.Matched.{matched_numbers, MatchedPlaces};
ghost use Rattle.rev_order.specs.Waiting.{Waits};

use crate::places::places_of;
use crate::waiting::Waiting;
use indexmap::IndexMap;
use std::alloc::{AllocError, Global};
use std::hash::Hash;

// The item under a number.
fn item_at<'a, T>(items: &'a IndexMap<u32, T>, number: u32) -> &'a T
    requires { IsSome (event_at number items.now.entries) }
    ensures { event_at number items.now.entries ≡ Some result.now }
{
    match items.get(&number) {
        Some(item) => item,
        None => unreachable!(),
    }
}

// All items of some numbers wait, the first ones to be taken first.
fn waiting_items<'a, T: Eq + Hash>(
    alloc: Global,
    kept: &[u32],
    items: &'a IndexMap<u32, T>,
) -> Result<Waiting<'a, T>, AllocError>
    requires { AllByRecursion (λ n. IsSome (event_at n items.now.entries)) kept.now }
    ensures { IfOk result (λ waiting.
        Waits T.eq (map (λ e. (e.0.now, e.1.items)) waiting.numbers.entries) (chosen items.now.entries kept.now)) }
{
    let mut waiting = Waiting::new(alloc);
    let mut left = kept.len();
    while left > 0 {
        left -= 1;
        let number = kept[left];
        waiting.put_first(number, item_at(items, number))?;
    }
    Ok(waiting)
}

// The numbers that waited for the items of others, in the order of these; none where one found none.
fn take_all<'a, T: Eq + Hash>(
    alloc: Global,
    waiting: &mut Waiting<'a, T>,
    kept: &[u32],
    items: &'a IndexMap<u32, T>,
) -> Result<Option<Vec<u32>>, AllocError>
    requires { AllByRecursion (λ n. IsSome (event_at n items.now.entries)) kept.now }
    ensures { (xs : List (ℕ × T)) → IsRising xs → length xs ≡ length (bare (chosen items.now.entries kept.now))
        → Waits T.eq (map (λ e. (e.0.now, e.1.items)) waiting.old.numbers.entries) xs
        → IfOk result (λ numbers. option_map (λ v. v.items) numbers
        ≡ matched_numbers T.eq xs (bare (chosen items.now.entries kept.now))) }
{
    let mut numbers = Vec::new(alloc);
    for number in kept {
        match waiting.take(item_at(items, *number)) {
            Some(own) => numbers.push(own)?,
            None => return Ok(None),
        }
    }
    Ok(Some(numbers))
}

// The numbers of kept items in the order in which others have these; none where the items differ, or how often one
// stands.
fn matching<'a, T: Eq + Hash>(
    alloc: Global,
    kept: &[u32],
    items: &'a IndexMap<u32, T>,
    other_kept: &[u32],
    others: &'a IndexMap<u32, T>,
) -> Result<Option<Vec<u32>>, AllocError>
    requires rising { IsRisingNumbers kept.now }
    requires items { AllByRecursion (λ n. IsSome (event_at n items.now.entries)) kept.now }
    requires others { AllByRecursion (λ n. IsSome (event_at n others.now.entries)) other_kept.now }
    ensures { IfOk result (λ numbers. option_map (λ v. v.items) numbers
        ≡ matched_numbers T.eq (chosen items.now.entries kept.now) (bare (chosen others.now.entries other_kept.now))) }
{
    if kept.len() != other_kept.len() {
        return Ok(None);
    }
    let mut waiting = waiting_items(alloc, kept, items)?;
    let numbers = take_all(alloc, &mut waiting, other_kept, others)?;
    Ok(numbers)
}

/// Under each number of kept items its place among others, where equal items are matched by occurrence; none where the
/// items differ, or how often one stands. No number is above the last. Time is linear in the items up to hashing, and
/// none is copied.
pub fn matched_places<'a, T: Eq + Hash>(
    alloc: Global,
    kept: &[u32],
    items: &'a IndexMap<u32, T>,
    other_kept: &[u32],
    others: &'a IndexMap<u32, T>,
    last: u32,
) -> Result<Option<Vec<u32>>, AllocError>
    requires equality { IsEquality T.eq }
    requires rising { IsRisingNumbers kept.now }
    requires within { AllByRecursion (λ n. n ≤ last) kept.now }
    requires items { AllByRecursion (λ n. IsSome (event_at n items.now.entries)) kept.now }
    requires others { AllByRecursion (λ n. IsSome (event_at n others.now.entries)) other_kept.now }
    ensures { IfOk result (λ places.
        MatchedPlaces T.eq (chosen items.now.entries kept.now) (bare (chosen others.now.entries other_kept.now))
        (option_map (λ v. v.items) places)) }
{
    let matched = matching(alloc, kept, items, other_kept, others)?;
    let Some(numbers) = matched else {
        return Ok(None);
    };
    let places = places_of(alloc, &numbers, last)?;
    Ok(Some(places))
}
