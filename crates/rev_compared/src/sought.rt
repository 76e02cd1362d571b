//! The first inverted pair, sought by leaps over the events that cannot make one.
ghost use Rattle.std.specs.Prelude.{◌≡◌, ◌+◌, ◌<◌, ◌≤◌, ℕ, length, drop, false, true, Some, IsSome, get_or, IfErr, IfOk};
ghost use Rattle.std.specs.List.{AllByRecursion};
ghost use Rattle.rev_causal.specs.Chosen.{IsRising as IsRisingNumbers, chosen};
ghost use Rattle.rev_causal.specs.History.{event_at};
ghost use Rattle.rev_causal.specs.Store.{conflict as conflict_of};
ghost use Rattle.rev_cells.specs.Keys.{cell_cmp};
ghost use Rattle.rev_footprint.specs.Value.{FootprintValue, print_of};
ghost use Rattle.rev_history.specs.Along.{prints_along};
ghost use Rattle.rev_history.specs.Timeline.{kept_footprint};
ghost use Rattle.rev_order.specs.Pairs.{inverted_pair, partner_of};
ghost use Rattle.rev_compared.specs.Inverted.{AreLeaps, IsLeap, is_dependent};

use rev_history::History;
use rev_numbers::place_above;
use rev_order::place_at;
use std::alloc::{AllocError, Global};

// How many steps the search takes for each event at most: a cell that is looked up is a step.
const STEPS: usize = 64;

/// The search took all its steps and found nothing.
#[derive(Clone, Copy)]
pub(crate) struct Long;

// The leap of a place, by the leaps behind it.
fn leap_at(places: &[u32], numbers: &[u32], leaps: &[usize], at: usize) -> usize
    requires within { at < length numbers.now }
    requires leaps { AreLeaps places.now numbers.now (at + 1) leaps.now }
    ensures { IsLeap places.now numbers.now at result }
{
    let place = place_at(places, numbers[at]);
    let mut next = at + 1;
    while next < numbers.len() && place_at(places, numbers[next]) >= place {
        next = leaps[next];
    }
    next
}

/// For each place of some numbers its leap: the next place whose number stands before that one in the other history;
/// the end where there is none. It takes time linear in the numbers.
///
/// # Errors
/// [`AllocError`] only where an allocation was refused.
pub(crate) fn leaps_of(
    alloc: Global,
    places: &[u32],
    numbers: &[u32],
) -> Result<Vec<usize>, AllocError>
    ensures { IfOk result (λ leaps. AreLeaps places.now numbers.now 0 leaps.items) }
{
    let mut leaps = vec![in alloc; 0; numbers.len()]?;
    let mut at = numbers.len();
    while at > 0 {
        at -= 1;
        leaps[at] = leap_at(places, numbers, &leaps, at);
    }
    Ok(leaps)
}

// Takes some steps, unless fewer are left.
fn spend(left: &mut usize, steps: usize) -> Result<(), Long> {
    if *left < steps {
        return Err(Long);
    }
    *left -= steps;
    Ok(())
}

// How many cells are looked up for the event of a number, and one step more.
fn steps_of(history: &History, number: u32) -> usize {
    match history.footprint_of(number) {
        Some(footprint) => {
            let cells = footprint.reads().len();
            cells
                .saturating_add(footprint.writes().len())
                .saturating_add(1)
        }
        None => 1,
    }
}

// A place from which on the first number may be whose event depends on that of another one, by the access lists. It is
// the place from which it is sought where the event there depends on that one.
fn next_dependent(history: &History, numbers: &[u32], first: u32, next: usize) -> usize
    requires within { next < length numbers.now }
    requires above { first < get_or numbers.now next 0 }
    requires rising { IsRisingNumbers numbers.now }
    requires kept { AllByRecursion (λ n. IsSome (event_at n (prints_along history.now.timeline))) numbers.now }
    ensures from { next ≤ result }
    ensures within { result ≤ length numbers.now }
    ensures between { (f : FootprintValue) → kept_footprint history.now.timeline first ≡ Some f
        → (j : ℕ) → next ≤ j → j < result
        → is_dependent (print_of f) (event_at (get_or numbers.now j 0) (prints_along history.now.timeline)) ≡ false }
    ensures here { (f : FootprintValue) → kept_footprint history.now.timeline first ≡ Some f → result ≡ next
        → is_dependent (print_of f) (event_at (get_or numbers.now next 0) (prints_along history.now.timeline)) ≡ true }
{
    let _kept = history.kept();
    match history.nearest_to(numbers[next] - 1, first) {
        Some(near) => place_above(numbers, near - 1),
        None => numbers.len(),
    }
}

// The least of the numbers behind a place that overtakes the one there, and whose event depends on that one's. Those
// that do not overtake it are leapt over, and those that do not depend on it.
fn partner_near(
    history: &History,
    places: &[u32],
    numbers: &[u32],
    leaps: &[usize],
    at: usize,
    left: &mut usize,
) -> Result<Option<u32>, Long>
    requires within { at < length numbers.now }
    requires rising { IsRisingNumbers numbers.now }
    requires kept { AllByRecursion (λ n. IsSome (event_at n (prints_along history.now.timeline))) numbers.now }
    requires leaps { AreLeaps places.now numbers.now 0 leaps.now }
    ensures { IfOk result (λ partner. (f : FootprintValue)
        → kept_footprint history.now.timeline (get_or numbers.now at 0) ≡ Some f
        → partner ≡ partner_of (conflict_of cell_cmp) places.now
        (chosen (prints_along history.now.timeline) (drop (at + 1) numbers.now)) (get_or numbers.now at 0) (print_of f)) }
{
    let first = numbers[at];
    let place = place_at(places, first);
    let mut next = leaps[at];
    while next < numbers.len() {
        spend(left, steps_of(history, first))?;
        if place_at(places, numbers[next]) >= place {
            next = leaps[next];
        } else {
            let dependent = next_dependent(history, numbers, first, next);
            if dependent == next {
                return Ok(Some(numbers[next]));
            }
            next = dependent;
        }
    }
    Ok(None)
}

/// The first inverted pair of some numbers, or, where that takes too many steps, a place before which none of them is
/// the first of such a pair. It takes no memory.
pub(crate) fn pair_near(
    history: &History,
    places: &[u32],
    numbers: &[u32],
    leaps: &[usize],
) -> Result<Option<(u32, u32)>, usize>
    requires rising { IsRisingNumbers numbers.now }
    requires kept { AllByRecursion (λ n. IsSome (event_at n (prints_along history.now.timeline))) numbers.now }
    requires leaps { AreLeaps places.now numbers.now 0 leaps.now }
    ensures pair { IfOk result (λ pair. pair ≡ inverted_pair (conflict_of cell_cmp) places.now
        (chosen (prints_along history.now.timeline) numbers.now)) }
    ensures within { IfErr result (λ at. at < length numbers.now) }
    ensures rest { IfErr result (λ at. inverted_pair (conflict_of cell_cmp) places.now
        (chosen (prints_along history.now.timeline) (drop at numbers.now))
        ≡ inverted_pair (conflict_of cell_cmp) places.now (chosen (prints_along history.now.timeline) numbers.now)) }
{
    let mut left = numbers.len().saturating_mul(STEPS);
    for at in 0..numbers.len() {
        match partner_near(history, places, numbers, leaps, at, &mut left) {
            Ok(Some(second)) => return Ok(Some((numbers[at], second))),
            Ok(None) => {}
            Err(Long) => return Err(at),
        }
    }
    Ok(None)
}
