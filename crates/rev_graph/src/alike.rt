//! Whether two graphs lend the same.
ghost use Rattle.std.specs.Prelude.{◌≡◌, bytes_eq};
ghost use Rattle.std.specs.Cmp.Lexicographic.{pointwise};
ghost use Rattle.rev_manifest.specs.Seen.{seen_pools};
ghost use Rattle.rev_graph.specs.Alike.{depths_of, same_edge as same_edge_of, same_lent as same_lent_of, same_inputs as same_inputs_of, same_outputs as same_outputs_of, same_pool as same_pool_of, same_rule as same_rule_of};
ghost use Rattle.rev_graph.specs.Graph.{numbered_pool};

use rev_manifest::{Build, Manifest};

/// The number and the depth of a pool of this number: none without a number, or where the depth is 0.
pub(crate) fn numbered(pools: &[(Vec<u8>, u32)], number: Option<u32>) -> Option<(u32, u32)>
    ensures { result ≡ numbered_pool (seen_pools pools.now) number }
{
    let number = number?;
    let (_, depth) = pools.get(number as usize)?;
    if *depth == 0 {
        return None;
    }
    Some((number, *depth))
}

// Whether pools have the same depths, whatever their names are.
fn same_depths(pools: &[(Vec<u8>, u32)], others: &[(Vec<u8>, u32)]) -> bool
    ensures { result ≡ bytes_eq (depths_of (seen_pools pools.now)) (depths_of (seen_pools others.now)) }
{
    if pools.len() != others.len() {
        return false;
    }
    for (place, pool) in pools.iter().enumerate() {
        if pool.1 != others[place].1 {
            return false;
        }
    }
    true
}

fn same_outputs(edge: &Build, other: &Build) -> bool
    ensures { result ≡ same_outputs_of edge.now other.now }
{
    edge.explicit_outs() == other.explicit_outs() && edge.implicit_outs() == other.implicit_outs()
}

fn same_inputs(edge: &Build, other: &Build) -> bool
    ensures { result ≡ same_inputs_of edge.now other.now }
{
    edge.explicit() == other.explicit()
        && edge.implicit() == other.implicit()
        && edge.order_only() == other.order_only()
        && edge.validations() == other.validations()
}

fn same_rule(edge: &Build, other: &Build) -> bool
    ensures { result ≡ same_rule_of edge.now other.now }
{
    edge.phony() == other.phony()
        && edge.command() == other.command()
        && edge.keeps_deps() == other.keeps_deps()
        && edge.restat() == other.restat()
        && edge.generator() == other.generator()
}

fn same_pool(pool: Option<(u32, u32)>, other: Option<(u32, u32)>) -> bool
    ensures { result ≡ same_pool_of pool other }
{
    match (pool, other) {
        (None, None) => true,
        (Some((number, depth)), Some((other_number, other_depth))) => {
            number == other_number && depth == other_depth
        }
        _ => false,
    }
}

fn same_edge(
    pools: &[(Vec<u8>, u32)],
    others: &[(Vec<u8>, u32)],
    edge: &Build,
    other: &Build,
) -> bool
    ensures { result ≡ same_edge_of (seen_pools pools.now) (seen_pools others.now) edge.now other.now }
{
    same_outputs(edge, other)
        && same_inputs(edge, other)
        && same_rule(edge, other)
        && same_pool(numbered(pools, edge.pool()), numbered(others, other.pool()))
}

// Whether edges lend the same, each with its pool's number and depth.
fn same_edges(
    pools: &[(Vec<u8>, u32)],
    others: &[(Vec<u8>, u32)],
    edges: &[Build],
    other_edges: &[Build],
) -> bool
    ensures { result ≡ pointwise (same_edge_of (seen_pools pools.now) (seen_pools others.now))
        edges.now other_edges.now }
{
    if edges.len() != other_edges.len() {
        return false;
    }
    for (place, edge) in edges.iter().enumerate() {
        if !same_edge(pools, others, edge, &other_edges[place]) {
            return false;
        }
    }
    true
}

/// Whether the graphs of two manifests lend the same.
pub(crate) fn same_lent(manifest: &Manifest, other: &Manifest) -> bool
    ensures { result ≡ same_lent_of manifest.now other.now }
{
    let pools = manifest.pools();
    let others = other.pools();
    same_depths(pools, others)
        && manifest.defaults() == other.defaults()
        && same_edges(pools, others, manifest.builds(), other.builds())
}
