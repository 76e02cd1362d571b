//! What an event rests on, also by way of others.
ghost use Rattle.std.specs.Prelude.{◌≡◌, ◌∷◌, ℕ, [], IfOk, List, OnOk, filter, nat_lt, reverse};
ghost use Rattle.rev_held.specs.Firsts.{IsDown};
ghost use Rattle.rev_held.specs.Ways.{ways_to as ways_to_all};

use crate::firsts::{Firsts, add, first_with, firsts_of};
use crate::several::add_where;
use rev_history::History;
use std::alloc::{AllocError, Global};

// Those of some numbers that are below another, from the last one on.
fn down_from(alloc: Global, kept: &[u32], number: u32) -> Result<Vec<u32>, AllocError>
    ensures { IfOk result (λ down. down.items ≡ reverse (filter (λ one. nat_lt one number) kept.now)) }
{
    let mut down = Vec::new(alloc);
    for one in kept {
        add_where(&mut down, *one, *one < number)?;
    }
    down.reverse();
    Ok(down)
}

// Adds the pair of a number whose event one of those found conflicts with, and its event to these.
fn add_found(
    history: &History,
    one: u32,
    firsts: &mut Firsts,
    pairs: &mut Vec<(u32, u32)>,
) -> Result<(), AllocError>
    ensures { OnOk result ((n : ℕ) (ones : List ℕ)
        → IsDown history.now.timeline n (one ∷ ones) firsts.old pairs.old.items
        → IsDown history.now.timeline n ones firsts.new pairs.new.items) }
{
    let Some(footprint) = history.footprint_of(one) else {
        return Ok(());
    };
    let Some(other) = first_with(firsts, &footprint) else {
        return Ok(());
    };
    add(firsts, &footprint, one)?;
    pairs.push((one, other))?;
    Ok(())
}

// Goes down some numbers.
fn go_down(
    history: &History,
    down: &[u32],
    firsts: &mut Firsts,
    pairs: &mut Vec<(u32, u32)>,
) -> Result<(), AllocError>
    ensures { OnOk result ((n : ℕ) → IsDown history.now.timeline n down.now firsts.old pairs.old.items
        → IsDown history.now.timeline n [] firsts.new pairs.new.items) }
{
    for one in down {
        add_found(history, *one, firsts, pairs)?;
    }
    Ok(())
}

/// The kept numbers on whose events that of a number depends ([`crate::depends`]), also by way of others, from the
/// latest down, each before the latest of these, or the number itself, that depends on it.
///
/// Under each cell the first of those found that reads or writes it is noted, and the first that writes it. The cells
/// of each kept event below the number are looked up. It takes memory linear in the cells of those found, and time
/// linear in the cells of the kept events, up to hashing.
///
/// # Errors
/// [`AllocError`] only where an allocation was refused.
pub fn ways_to(alloc: Global, history: &History, number: u32) -> Result<Vec<(u32, u32)>, AllocError>
    ensures { IfOk result (λ pairs. pairs.items ≡ ways_to_all history.now.timeline number) }
{
    let down = down_from(alloc, history.kept(), number)?;
    let mut firsts = firsts_of(alloc, history, number)?;
    let mut pairs = Vec::new(alloc);
    go_down(history, &down, &mut firsts, &mut pairs)?;
    Ok(pairs)
}
