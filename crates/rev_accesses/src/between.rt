//! Numbers between two others.
ghost use Rattle.std.specs.Prelude.{◌≡◌, ◌&&◌, ◌||◌, ℕ, OnOk};
ghost use Rattle.rev_causal.specs.Chosen.{IsRising, is_among};
ghost use Rattle.rev_accesses.specs.Following.{is_below as is_below_in, is_between};

use crate::pending::Pending;
use rev_numbers::place_above;
use std::alloc::AllocError;

/// Adds to the pending numbers those that stand above one and below a bound, where there is one. It takes time linear
/// in these, up to the halving that finds the first.
pub(crate) fn add_between(
    pending: &mut Pending,
    numbers: &[u32],
    number: u32,
    bound: Option<u32>,
) -> Result<(), AllocError>
    requires { IsRising numbers.now }
    ensures { OnOk result ((k : ℕ) → is_among pending.new k
        ≡ (is_between number bound numbers.now k || is_among pending.old k)) }
{
    let place = place_above(numbers, number);
    add_below(pending, &numbers[place..], bound)
}

// Adds to the pending numbers those below a bound, where there is one.
fn add_below(pending: &mut Pending, numbers: &[u32], bound: Option<u32>) -> Result<(), AllocError>
    requires { IsRising numbers.now }
    ensures { OnOk result ((k : ℕ) → is_among pending.new k
        ≡ ((is_among numbers.now k && is_below_in bound k) || is_among pending.old k)) }
{
    for number in numbers {
        if !is_below(bound, *number) {
            return Ok(());
        }
        pending.add(*number)?;
    }
    Ok(())
}

// Whether a number is below a bound, where there is one.
fn is_below(bound: Option<u32>, number: u32) -> bool
    ensures { result ≡ is_below_in bound number }
{
    match bound {
        None => true,
        Some(bound) => number < bound,
    }
}
