//! What differs between two build statements.
ghost use Rattle.std.specs.Prelude.{◌≡◌, not, slice_get};
ghost use Rattle.rev_graph.specs.Alike.{same_inputs as same_inputs_of, same_outputs as same_outputs_of};
ghost use Rattle.rev_manifest.specs.Seen.{seen_pools};
ghost use Rattle.rev_compared.specs.Statements.{changes_of, same_flags as same_flags_of, same_pool as same_pool_of, same_pool_if, same_rule as same_rule_of};

use rev_manifest::{Build, Manifest};

/// What differs between the statements of an edge and of its twin.
#[derive(Clone, Copy, Debug, PartialEq, Eq)]
pub struct Changes {
    /// Whether the outputs differ, or which outputs are implicit.
    pub outputs: bool,
    /// Whether the inputs differ, of whichever kind, or their order.
    pub inputs: bool,
    /// Whether the command differs, with the content of its response file.
    pub command: bool,
    /// Whether a flag differs: what the rule says of `depfile`, `deps`, `rspfile`, `restat`, `generator` and `pool`, or
    /// whether the edge is phony. Pools are compared by their names and depths.
    pub flags: bool,
}

fn same_outputs(build: &Build, other: &Build) -> bool
    ensures { result ≡ same_outputs_of build.now other.now }
{
    build.explicit_outs() == other.explicit_outs() && build.implicit_outs() == other.implicit_outs()
}

fn same_inputs(build: &Build, other: &Build) -> bool
    ensures { result ≡ same_inputs_of build.now other.now }
{
    build.explicit() == other.explicit()
        && build.implicit() == other.implicit()
        && build.order_only() == other.order_only()
        && build.validations() == other.validations()
}

fn same_rule(build: &Build, other: &Build) -> bool
    ensures { result ≡ same_rule_of build.now other.now }
{
    build.phony() == other.phony()
        && build.depfile() == other.depfile()
        && build.rspfile() == other.rspfile()
        && build.keeps_deps() == other.keeps_deps()
        && build.restat() == other.restat()
        && build.generator() == other.generator()
}

// Whether pools have the same name and depth.
fn same_pool(pools: &[(Vec<u8>, u32)], others: &[(Vec<u8>, u32)], number: u32, other: u32) -> bool
    ensures { result ≡ same_pool_of (slice_get (seen_pools pools.now) number) (slice_get (seen_pools others.now) other) }
{
    match (pools.get(number as usize), others.get(other as usize)) {
        (Some((name, depth)), Some((other_name, other_depth))) => {
            name == other_name && depth == other_depth
        }
        (None, None) => true,
        _ => false,
    }
}

/// Whether two edges have no pool, or both have one, with the same name and depth. `number` is that of the one's pool
/// among `pools`, and `other` that of the other's among `others`.
pub fn same_pools(
    pools: &[(Vec<u8>, u32)],
    others: &[(Vec<u8>, u32)],
    number: Option<u32>,
    other: Option<u32>,
) -> bool
    ensures { result ≡ same_pool_if (seen_pools pools.now) (seen_pools others.now) number other }
{
    match (number, other) {
        (Some(number), Some(other)) => same_pool(pools, others, number, other),
        (None, None) => true,
        _ => false,
    }
}

fn same_flags(manifest: &Manifest, other: &Manifest, build: &Build, other_build: &Build) -> bool
    ensures { result ≡ same_flags_of manifest.now.pools other.now.pools build.now other_build.now }
{
    same_rule(build, other_build)
        && same_pools(
            manifest.pools(),
            other.pools(),
            build.pool(),
            other_build.pool(),
        )
}

/// What differs between an edge of a manifest and an edge of another one.
pub fn compare_statements(
    manifest: &Manifest,
    other: &Manifest,
    build: &Build,
    other_build: &Build,
) -> Changes
    ensures { result ≡ changes_of manifest.now.pools other.now.pools build.now other_build.now }
{
    Changes {
        outputs: !same_outputs(build, other_build),
        inputs: !same_inputs(build, other_build),
        command: build.command() != other_build.command(),
        flags: !same_flags(manifest, other, build, other_build),
    }
}
