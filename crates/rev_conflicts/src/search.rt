//! An order of commands that makes searches for what their edges wait for few.
ghost use Rattle.std.specs.Prelude.{◌≡◌, ◌<◌, ◌↔◌, ℕ, length, Contains, IfOk};
ghost use Rattle.std.specs.List.{range_with_len};

use std::alloc::{AllocError, Global};

// The edges to which the edge of a command steps; none of a number past the last command or the last edge.
fn steps_of<'a>(steps: &'a [Vec<u32>], edges: &[u32], command: u64) -> &'a [u32] {
    match edges.get(command as usize) {
        Some(edge) => match steps.get(*edge as usize) {
            Some(found) => found.as_slice(),
            None => &[],
        },
        None => &[],
    }
}

// The numbers below a count, in their order.
fn numbers_below(alloc: Global, count: u64) -> Result<Vec<u64>, AllocError>
    ensures { IfOk result (λ numbers. numbers.items ≡ range_with_len 0 count) }
{
    (0..count).collect(alloc)
}

/// The numbers of commands, each once, in an order in which all commands stand together whose edges step to the same
/// edges. So [`rev_races::search_for`], asked along it, searches once for each set of steps. It takes a sort by the
/// steps. `edges` has the edge of each command.
///
/// # Errors
/// [`AllocError`] only where an allocation was refused.
pub(crate) fn grouped(
    alloc: Global,
    steps: &[Vec<u32>],
    edges: &[u32],
) -> Result<Vec<u64>, AllocError>
    ensures { IfOk result (λ commands. (command : ℕ) → Contains commands.items command ↔ (command < length edges.now)) }
{
    let count = edges.len() as u64;
    let mut commands = numbers_below(alloc, count)?;
    commands.sort_by(|one, other| {
        steps_of(steps, edges, *one).cmp(&steps_of(steps, edges, *other))
    })?;
    Ok(commands)
}
