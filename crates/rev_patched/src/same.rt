//! Whether one manifest is another with added orders and nothing else.
ghost use Rattle.std.specs.Prelude.{◌≡◌, ◌≤◌, ◌++◌, ◌||◌, ℕ, List, length, bytes_eq, filter, not, IfOk, OnOk};
ghost use Rattle.rev_manifest.specs.Names.{has_path, without};
ghost use Rattle.rev_manifest.specs.Seen.{seen_pools};
ghost use Rattle.rev_graph.specs.Alike.{same_outputs, same_paths, same_rule};
ghost use Rattle.rev_patched.specs.Orders.{ordered_paths};
ghost use Rattle.rev_patched.specs.Same.{AreListed, same_defaults, same_edge, same_from, same_inputs, same_manifest, same_number, same_place, same_pools as same_pools_of};

use crate::orders::{Order, lists_of};
use indexmap::IndexSet;
use rev_manifest::{Build, Manifest};
use rev_paths::Name;
use std::alloc::{AllocError, Global};

fn same_outputs(edge: &Build, other: &Build) -> bool
    ensures { result ≡ same_outputs edge.now other.now }
{
    edge.explicit_outs() == other.explicit_outs() && edge.implicit_outs() == other.implicit_outs()
}

/// Whether paths are those of one list, and behind them those of another.
pub(crate) fn are_joined(first: &[Name], second: &[Name], all: &[Name]) -> bool
    ensures { result ≡ same_paths (first.now ++ second.now) all.now }
{
    if all.len() < first.len() {
        return false;
    }
    let (front, back) = all.split_at(first.len());
    first == front && second == back
}

fn same_inputs(edge: &Build, paths: &[Name], other: &Build) -> bool
    ensures { result ≡ same_inputs edge.now paths.now other.now }
{
    edge.explicit() == other.explicit()
        && edge.implicit() == other.implicit()
        && are_joined(edge.order_only(), paths, other.order_only())
        && edge.validations() == other.validations()
}

/// Whether two edges have one rule.
pub(crate) fn same_rule(edge: &Build, other: &Build) -> bool
    ensures { result ≡ same_rule edge.now other.now }
{
    edge.phony() == other.phony()
        && edge.command() == other.command()
        && edge.keeps_deps() == other.keeps_deps()
        && edge.restat() == other.restat()
        && edge.generator() == other.generator()
}

fn same_number(number: Option<u32>, other: Option<u32>) -> bool
    ensures { result ≡ same_number number other }
{
    match (number, other) {
        (None, None) => true,
        (Some(number), Some(other)) => number == other,
        _ => false,
    }
}

/// Whether two edges have their other files and their statement at one place, and one pool.
pub(crate) fn same_place(edge: &Build, other: &Build) -> bool
    ensures { result ≡ same_place edge.now other.now }
{
    edge.depfile() == other.depfile()
        && edge.rspfile() == other.rspfile()
        && same_number(edge.pool(), other.pool())
        && edge.file() == other.file()
        && edge.line() == other.line()
}

// Whether an edge is another one with these order-only inputs.
fn same_edge(edge: &Build, paths: &[Name], other: &Build) -> bool
    ensures { result ≡ same_edge edge.now paths.now other.now }
{
    same_outputs(edge, other)
        && same_inputs(edge, paths, other)
        && same_rule(edge, other)
        && same_place(edge, other)
}

// Whether edges are others with the order-only inputs in their lists.
fn same_listed(lists: &[Vec<Name>], edges: &[Build], others: &[Build], orders: &[Order<'_>]) -> bool
    requires each { length lists.now ≡ length edges.now }
    requires listed { AreListed (length edges.now) orders.now lists.now }
    ensures { result ≡ same_from 0 orders.now edges.now others.now }
{
    if edges.len() != others.len() {
        return false;
    }
    for (place, edge) in edges.iter().enumerate() {
        if !same_edge(edge, &lists[place], &others[place]) {
            return false;
        }
    }
    true
}

// Whether edges are others with orders.
fn same_edges(
    alloc: Global,
    orders: &[Order<'_>],
    edges: &[Build],
    others: &[Build],
) -> Result<bool, AllocError>
    ensures { IfOk result (λ same. same ≡ same_from 0 orders.now edges.now others.now) }
{
    let lists = lists_of(alloc, edges.len(), orders)?;
    Ok(same_listed(&lists, edges, others, orders))
}

/// Whether pools have the same names and depths.
pub(crate) fn same_pools(pools: &[(Vec<u8>, u32)], others: &[(Vec<u8>, u32)]) -> bool
    ensures { result ≡ same_pools_of (seen_pools pools.now) (seen_pools others.now) }
{
    if pools.len() != others.len() {
        return false;
    }
    for (place, pool) in pools.iter().enumerate() {
        let other = &others[place];
        if pool.0.as_slice() != other.0.as_slice() || pool.1 != other.1 {
            return false;
        }
    }
    true
}

// Adds the paths of orders to a set.
fn add_ordered(set: &mut IndexSet<Name>, orders: &[Order<'_>]) -> Result<(), AllocError>
    ensures { OnOk result ((path : List ℕ)
        → has_path set.new.keys path ≡ (has_path set.old.keys path || has_path (ordered_paths orders.now) path)) }
{
    for order in orders {
        set.insert(order.path.copy()?)?;
    }
    Ok(())
}

// Adds the names that are not in a set.
fn push_others(
    others: &mut Vec<Name>,
    set: &IndexSet<Name>,
    names: &[Name],
) -> Result<(), AllocError>
    ensures { OnOk result (others.new.items
        ≡ others.old.items ++ filter (λ path. not (has_path set.now.keys path)) names.now) }
{
    for name in names {
        if !set.contains(name) {
            others.push(name.copy()?)?;
        }
    }
    Ok(())
}

/// The names that no order has.
///
/// # Errors
/// [`AllocError`] only where an allocation was refused.
pub(crate) fn without_ordered(
    alloc: Global,
    orders: &[Order<'_>],
    names: &[Name],
) -> Result<Vec<Name>, AllocError>
    ensures { IfOk result (λ left. left.items ≡ without (ordered_paths orders.now) names.now) }
{
    let mut set = IndexSet::new(alloc);
    add_ordered(&mut set, orders)?;
    let mut left = Vec::new(alloc);
    push_others(&mut left, &set, names)?;
    Ok(left)
}

// Whether what is built where nothing is named stays.
fn same_defaults(
    alloc: Global,
    orders: &[Order<'_>],
    old: &[Name],
    new: &[Name],
) -> Result<bool, AllocError>
    ensures { IfOk result (λ same. same ≡ same_defaults orders.now old.now new.now) }
{
    if new == old {
        return Ok(true);
    }
    let left = without_ordered(alloc, orders, old)?;
    Ok(new == left.as_slice())
}

/// Whether one manifest is another with added orders and nothing else.
pub(crate) fn same_manifest(
    alloc: Global,
    orders: &[Order<'_>],
    old: &Manifest,
    new: &Manifest,
) -> Result<bool, AllocError>
    ensures { IfOk result (λ same. same ≡ same_manifest orders.now old.now new.now) }
{
    if !same_pools(old.pools(), new.pools()) {
        return Ok(false);
    }
    if !same_edges(alloc, orders, old.builds(), new.builds())? {
        return Ok(false);
    }
    same_defaults(alloc, orders, old.defaults(), new.defaults())
}
