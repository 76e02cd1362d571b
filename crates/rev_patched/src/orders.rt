//! Orders: order-only inputs to be added to edges.
ghost use Rattle.std.specs.Prelude.{◌≡◌, ◌<◌, ◌++◌, ℕ, [], ◌∷◌, find, length, IfOk, OnOk};
ghost use Rattle.std.specs.Option.{option_copied, option_or};
ghost use Rattle.rev_patch.specs.Additions.{is_written};
ghost use Rattle.rev_patched.specs.Orders.{paths_for};
ghost use Rattle.rev_patched.specs.Same.{AreListed, listed_at};

use rev_manifest::Build;
use rev_patch::is_written;
use rev_paths::Name;
use std::alloc::{AllocError, Global};

/// A path that is added to an edge as an order-only input.
#[derive(Clone, Copy, Debug)]
pub struct Order<'a> {
    /// The number of the edge.
    pub edge: u32,
    /// The path.
    pub path: &'a Name,
}

// The first path that can be written on a build line.
fn first_written(paths: &[Name]) -> Option<&Name>
    ensures { option_copied result ≡ find is_written paths.now }
{
    for path in paths {
        if is_written(path.as_bytes()) {
            return Some(path);
        }
    }
    None
}

/// The first output of an edge that a build line can name. Explicit outputs come before implicit ones. `None` where a
/// build line can name none of them.
pub fn writable_output(build: &Build) -> Option<&Name>
    ensures { option_copied result
        ≡ option_or (find is_written build.now.explicit_outs) (find is_written build.now.implicit_outs) }
{
    match first_written(build.explicit_outs()) {
        Some(path) => Some(path),
        None => first_written(build.implicit_outs()),
    }
}

// Adds the path of an order to the list of its edge, where that edge has a list.
fn push_order(lists: &mut Vec<Vec<Name>>, order: &Order<'_>) -> Result<(), AllocError>
    ensures each { OnOk result (length lists.new.items ≡ length lists.old.items) }
    ensures listed { OnOk result ((edge : ℕ) → edge < length lists.old.items
        → listed_at lists.new.items edge ≡ listed_at lists.old.items edge ++ paths_for (order.now ∷ []) edge) }
{
    let edge = order.edge as usize;
    if edge < lists.len() {
        let path = order.path.copy()?;
        let list = &mut lists[edge];
        list.push(path)?;
    }
    Ok(())
}

// A list without paths for each edge.
fn no_lists(alloc: Global, edges: usize) -> Result<Vec<Vec<Name>>, AllocError>
    ensures each { IfOk result (λ lists. length lists.items ≡ edges) }
    ensures listed { IfOk result (λ lists. AreListed edges [] lists.items) }
{
    let mut lists = Vec::new(alloc);
    for _ in 0..edges {
        lists.push(Vec::new(alloc))?;
    }
    Ok(lists)
}

/// For each edge the paths that are ordered before it.
pub(crate) fn lists_of(
    alloc: Global,
    edges: usize,
    orders: &[Order<'_>],
) -> Result<Vec<Vec<Name>>, AllocError>
    ensures each { IfOk result (λ lists. length lists.items ≡ edges) }
    ensures listed { IfOk result (λ lists. AreListed edges orders.now lists.items) }
{
    let mut lists = no_lists(alloc, edges)?;
    for order in orders {
        push_order(&mut lists, order)?;
    }
    Ok(lists)
}
