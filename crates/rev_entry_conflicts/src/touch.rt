//! The entries that a command leaves or ensures.
ghost use Rattle.std.specs.Prelude.{◌≡◌, ◌+◌, ◌<◌, ℕ, ◌↔◌, ◌⊎◌, true, length, Contains, IfOk, OnOk};
ghost use Rattle.std.specs.List.{filter, range_with_len};
ghost use Rattle.rev_entry_conflicts.specs.Deeds.{is_at};
ghost use Rattle.rev_entry_conflicts.specs.Touches.{is_touch as is_touch_of, touch_at, touched_by, touches};

use crate::deed::{Command, Deed};
use crate::word::{Act, is_of};
use std::alloc::{AllocError, Global};

// The number behind the last one of a range that is below a count.
fn end_of(deed: &Deed, count: u32) -> u32
    ensures within { (n : ℕ) → n < result → n < count }
    ensures last { (n : ℕ) → n < result → n < deed.now.last + 1 }
    ensures whole { (n : ℕ) → n < count → n < deed.now.last + 1 → n < result }
{
    if deed.last < count {
        deed.last + 1
    } else {
        count
    }
}

// Adds the numbers of a range that are below a count.
fn add_range(deed: &Deed, count: u32, numbers: &mut Vec<u32>) -> Result<(), AllocError>
    ensures { OnOk result ((n : ℕ) → Contains numbers.new.items n
        ↔ (Contains numbers.old.items n ⊎ ((n < count) × (is_at n deed.now ≡ true)))) }
{
    let end = end_of(deed, count);
    if deed.first >= end {
        return Ok(());
    }
    for number in deed.first..end {
        numbers.push(number)?;
    }
    Ok(())
}

// Whether a deed leaves or ensures something.
fn is_touch(deed: &Deed) -> bool
    ensures { result ≡ is_touch_of deed.now }
{
    is_of(Act::Leaves, deed.word) || is_of(Act::Ensures, deed.word)
}

// Adds the numbers of a deed that leaves or ensures something.
fn add_deed(deed: &Deed, count: u32, numbers: &mut Vec<u32>) -> Result<(), AllocError>
    ensures { OnOk result ((n : ℕ) → Contains numbers.new.items n
        ↔ (Contains numbers.old.items n ⊎ ((n < count) × (touch_at n deed.now ≡ true)))) }
{
    if !is_touch(deed) {
        return Ok(());
    }
    add_range(deed, count, numbers)?;
    Ok(())
}

// Adds the numbers of all such deeds.
fn add_deeds(deeds: &[Deed], count: u32, numbers: &mut Vec<u32>) -> Result<(), AllocError>
    ensures { OnOk result ((n : ℕ) → Contains numbers.new.items n
        ↔ (Contains numbers.old.items n ⊎ ((n < count) × (touched_by deeds.now n ≡ true)))) }
{
    for deed in deeds {
        add_deed(deed, count, numbers)?;
    }
    Ok(())
}

/// The entries below a count that a command leaves or ensures, in the order of their numbers.
///
/// # Errors
/// [`AllocError`] only where an allocation was refused.
pub(crate) fn touched(alloc: Global, command: &Command, count: u32) -> Result<Vec<u32>, AllocError>
    ensures { IfOk result (λ numbers. numbers.items ≡ filter (touches command.now) (range_with_len 0 count)) }
{
    let mut numbers = Vec::new(alloc);
    add_deeds(&command.deeds, count, &mut numbers)?;
    numbers.sort_unstable();
    numbers.dedup();
    Ok(numbers)
}
