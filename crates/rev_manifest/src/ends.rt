//! Expansion at the end: edge by edge, when all files are read.
ghost use Rattle.std.specs.Prelude.{◌≡◌, ◌++◌, ◌||◌, not, filter, map, List, ℕ, Ok, IfOk, IfSome, OnOk, MatchResult, length, option_map, bytes_eq, true};
ghost use Rattle.std.specs.List.{flat_map, All};
ghost use Rattle.rev_manifest.specs.Answers.{IsFault};
ghost use Rattle.rev_manifest.specs.Names.{has_path};
ghost use Rattle.rev_manifest.specs.Ends.{or_empty};
ghost use Rattle.rev_manifest.specs.Made.{left_of};
ghost use Rattle.rev_manifest.specs.Manifest.{phony_build, command_build, pool_number, variables_of, built, builds_of, AreEnded, inputs_of, outputs_of, defaults_of, ended};
ghost use Rattle.rev_manifest.specs.Held.{seen_edge, path_made, seen_values, values_made, seen_declarations};
ghost use Rattle.rev_manifest.specs.Builds.{IsBuild, IsManifest};

use crate::builds::Build;
use crate::bytes::is_empty;
use crate::declarations::{Declarations, DeclaredEdge};
use crate::fault::{FaultKind, Place, ReadFault};
use crate::made::left_of_all;
use crate::manifest::{Manifest, Parts};
use crate::names::{add_names, push_others};
use crate::parallel::builds_by_threads;
use crate::pools::Pools;
use crate::shared_text::{shared, shared_command};
use indexmap::IndexSet;
use rev_paths::Name;
use rev_scopes::{
    EdgeVariables, MAX_VALUE_BYTES, Rule, Scopes, SharedText, ValueFault, compared_command,
    edge_variables,
};
use std::alloc::{AllocError, Global};
use std::thread::Threads;

// The names of two lists.
fn set_of(alloc: Global, first: &[Name], second: &[Name]) -> Result<IndexSet<Name>, AllocError>
    ensures { IfOk result (λ set. (path : List ℕ)
        → has_path set.keys path ≡ has_path (first.now ++ second.now) path) }
{
    let mut set = IndexSet::new(alloc);
    add_names(&mut set, first)?;
    add_names(&mut set, second)?;
    Ok(set)
}

// The names that are not in a set.
fn others(alloc: Global, set: &IndexSet<Name>, names: &[Name]) -> Result<Vec<Name>, AllocError>
    ensures { IfOk result (λ left. left.items
        ≡ filter (λ path. not (has_path set.now.keys path)) names.now) }
{
    let mut left = Vec::new(alloc);
    push_others(&mut left, set, names)?;
    Ok(left)
}

// A phony edge, whose own outputs are none of its inputs.
fn phony_build(
    alloc: Global,
    texts: &mut IndexSet<SharedText>,
    edge: DeclaredEdge,
) -> Result<Build, AllocError>
    ensures { IfOk result (λ build. build ≡ phony_build (seen_edge edge)) }
{
    let paths = edge.paths;
    let own = set_of(alloc, &paths.outs, &paths.implicit_outs)?;
    let explicit = others(alloc, &own, &paths.ins)?;
    let implicit = others(alloc, &own, &paths.implicit)?;
    let order_only = others(alloc, &own, &paths.order_only)?;
    Ok(Build {
        phony: true,
        explicit_outs: paths.outs,
        implicit_outs: paths.implicit_outs,
        explicit,
        implicit,
        order_only,
        validations: paths.validations,
        command: shared(texts, Vec::new(alloc))?,
        depfile: Vec::new(alloc),
        rspfile: Vec::new(alloc),
        keeps_deps: false,
        restat: false,
        generator: false,
        pool: None,
        file: edge.place.file,
        line: edge.place.line,
    })
}

// The number of an edge's pool.
fn pool_number(place: Place, pools: &Pools, name: &[u8]) -> Result<Option<u32>, ReadFault>
    ensures { MatchResult result
        (λ number. pool_number place pools.now name.now ≡ Ok number)
        (λ fault. IsFault fault (pool_number place pools.now name.now)) }
{
    if is_empty(name) {
        return Ok(None);
    }
    match pools.number(name) {
        None => Err(place.fault(FaultKind::UnknownPool)),
        Some(number) => match u32::try_from(number) {
            Ok(number) => Ok(Some(number)),
            // No files that are small enough declare so many pools.
            Err(_) => Err(ReadFault::Memory),
        },
    }
}

// The values of the variables that an edge needs, or why they are none.
fn variables_of(
    alloc: Global,
    scopes: &Scopes,
    edge: &DeclaredEdge,
    rule: &Rule,
) -> Result<EdgeVariables, ReadFault>
    ensures { MatchResult result
        (λ values. variables_of scopes.now (seen_edge edge.now) rule.now ≡ Ok (seen_values values))
        (λ fault. IsFault fault (variables_of scopes.now (seen_edge edge.now) rule.now)) }
{
    let at_end = rev_scopes::EdgeEnv {
        ins: &edge.paths.ins,
        outs: &edge.paths.outs,
        block: &edge.block,
        rule,
        scopes,
        scope: edge.scope,
    };
    match edge_variables(alloc, &at_end) {
        Ok(values) => Ok(values),
        Err(ValueFault::Memory) => Err(ReadFault::Memory),
        Err(ValueFault::NeedsItself) => Err(edge.place.fault(FaultKind::VariableCycle)),
        Err(ValueFault::TooLarge) => Err(edge.place.fault(FaultKind::TooLarge)),
    }
}

// An edge with the values of its rule's variables.
fn command_build(
    alloc: Global,
    texts: &mut IndexSet<SharedText>,
    edge: DeclaredEdge,
    values: EdgeVariables,
    pool: Option<u32>,
) -> Result<Build, AllocError>
    ensures { IfOk result (λ build. build ≡ command_build (seen_edge edge) (seen_values values) pool) }
{
    let keeps_deps = !is_empty(&values.depfile) || !is_empty(&values.deps);
    let restat = !is_empty(&values.restat);
    let generator = !is_empty(&values.generator);
    let compared = compared_command(values.command, &values.rspfile_content)?;
    let command = shared_command(texts, &edge.rule, compared)?;
    let paths = edge.paths;
    Ok(Build {
        phony: false,
        explicit_outs: paths.outs,
        implicit_outs: paths.implicit_outs,
        explicit: paths.ins,
        implicit: paths.implicit,
        order_only: paths.order_only,
        validations: paths.validations,
        command,
        depfile: values.depfile,
        rspfile: path_or_empty(alloc, values.rspfile),
        keeps_deps,
        restat,
        generator,
        pool,
        file: edge.place.file,
        line: edge.place.line,
    })
}

// The bytes that are made of the path of a response file, of which there is none where it is too large.
fn path_made(path: &Option<Vec<u8>>) -> usize
    ensures { result ≡ path_made (option_map (λ bytes. bytes.items) path.now) }
{
    match path {
        Some(bytes) => bytes.len(),
        None => MAX_VALUE_BYTES,
    }
}

// A path that may be none, which is empty then.
fn path_or_empty(alloc: Global, path: Option<Vec<u8>>) -> Vec<u8>
    ensures { result.items ≡ or_empty (option_map (λ bytes. bytes.items) path) }
{
    match path {
        Some(bytes) => bytes,
        None => Vec::new(alloc),
    }
}

// What is left of a room when the values of an edge are made.
fn left_of_values(values: &EdgeVariables, room: usize) -> Option<usize>
    ensures { result ≡ left_of room (values_made values.now) }
{
    let lengths = [
        values.command.len(),
        values.depfile.len(),
        values.deps.len(),
        values.generator.len(),
        values.restat.len(),
        values.rspfile_content.len(),
        values.pool.len(),
        path_made(&values.rspfile),
    ];
    left_of_all(&lengths, room)
}

/// An edge, and how many bytes of values may be made after it.
#[derive(Drop)]
struct EndedEdge {
    build: Build,
    left: usize,
}

// An edge when all files are read, where so many bytes of values may be made.
fn built(
    alloc: Global,
    texts: &mut IndexSet<SharedText>,
    scopes: &Scopes,
    pools: &Pools,
    room: usize,
    edge: DeclaredEdge,
) -> Result<EndedEdge, ReadFault>
    ensures { MatchResult result
        (λ ended. built scopes.now pools.now room (seen_edge edge) ≡ Ok (record { build = ended.build; left = ended.left }))
        (λ fault. IsFault fault (built scopes.now pools.now room (seen_edge edge))) }
{
    let Some(rule) = &edge.rule else {
        let build = phony_build(alloc, texts, edge)?;
        return Ok(EndedEdge { build, left: room });
    };
    let values = variables_of(alloc, scopes, &edge, rule)?;
    let Some(left) = left_of_values(&values, room) else {
        return Err(edge.place.fault(FaultKind::TooLarge));
    };
    let pool = pool_number(edge.place, pools, &values.pool)?;
    let build = command_build(alloc, texts, edge, values, pool)?;
    Ok(EndedEdge { build, left })
}

/// Edges in reading order, and how many bytes of values may be made after them.
#[derive(Drop)]
pub(crate) struct EndedEdges {
    pub(crate) builds: Vec<Build>,
    pub(crate) left: usize,
}

/// The edges in reading order, where so many bytes of values may be made.
pub(crate) fn builds_of(
    alloc: Global,
    scopes: &Scopes,
    pools: &Pools,
    room: usize,
    edges: Vec<DeclaredEdge>,
) -> Result<EndedEdges, ReadFault>
    ensures meant { MatchResult result
        (λ ended. builds_of scopes.now pools.now room (map seen_edge edges.items) ≡ Ok ended.builds.items)
        (λ fault. IsFault fault (builds_of scopes.now pools.now room (map seen_edge edges.items))) }
    ensures ended { IfOk result (λ ended.
        AreEnded scopes.now pools.now room ended.left (map seen_edge edges.items) ended.builds.items) }
{
    let mut texts = IndexSet::new(alloc);
    let mut builds = Vec::with_capacity(alloc, edges.len())?;
    let mut left = room;
    let mut rest = edges.into_iter();
    while let Some(edge) = rest.next() {
        let ended = built(alloc, &mut texts, scopes, pools, left, edge)?;
        builds.push(ended.build)?;
        left = ended.left;
    }
    Ok(EndedEdges { builds, left })
}

// Adds the outputs of an edge to a set.
fn add_outputs(set: &mut IndexSet<Name>, build: &Build) -> Result<(), AllocError>
    ensures { OnOk result ((path : List ℕ)
        → has_path set.new.keys path
        ≡ (has_path set.old.keys path || has_path (outputs_of build.now) path)) }
{
    add_names(set, &build.explicit_outs)?;
    add_names(set, &build.implicit_outs)?;
    Ok(())
}

// The outputs of all edges.
fn all_outputs(alloc: Global, builds: &[Build]) -> Result<IndexSet<Name>, AllocError>
    ensures { IfOk result (λ set. (path : List ℕ)
        → has_path set.keys path ≡ has_path (flat_map outputs_of builds.now) path) }
{
    let mut set = IndexSet::new(alloc);
    for build in builds {
        add_outputs(&mut set, build)?;
    }
    Ok(set)
}

// Adds a name to those that are used, where it is an output.
fn add_if_output(
    used: &mut IndexSet<Name>,
    outputs: &IndexSet<Name>,
    name: &Name,
) -> Result<(), AllocError>
    ensures { OnOk result ((path : List ℕ) → has_path outputs.now.keys path ≡ true
        → has_path used.new.keys path ≡ (has_path used.old.keys path || bytes_eq path name.now)) }
{
    if !outputs.contains(name) {
        return Ok(());
    }
    used.insert(name.copy()?)?;
    Ok(())
}

// Adds the outputs among names.
fn add_outputs_among(
    used: &mut IndexSet<Name>,
    outputs: &IndexSet<Name>,
    names: &[Name],
) -> Result<(), AllocError>
    ensures { OnOk result ((path : List ℕ) → has_path outputs.now.keys path ≡ true
        → has_path used.new.keys path ≡ (has_path used.old.keys path || has_path names.now path)) }
{
    for name in names {
        add_if_output(used, outputs, name)?;
    }
    Ok(())
}

// Adds the outputs among the inputs of an edge.
fn add_inputs(
    used: &mut IndexSet<Name>,
    outputs: &IndexSet<Name>,
    build: &Build,
) -> Result<(), AllocError>
    ensures { OnOk result ((path : List ℕ) → has_path outputs.now.keys path ≡ true
        → has_path used.new.keys path
        ≡ (has_path used.old.keys path || has_path (inputs_of build.now) path)) }
{
    add_outputs_among(used, outputs, &build.explicit)?;
    add_outputs_among(used, outputs, &build.implicit)?;
    add_outputs_among(used, outputs, &build.order_only)?;
    Ok(())
}

// The outputs that are an input of some edge. Most inputs are sources, of which no set is made.
fn used_outputs(
    alloc: Global,
    outputs: &IndexSet<Name>,
    builds: &[Build],
) -> Result<IndexSet<Name>, AllocError>
    ensures { IfOk result (λ used. (path : List ℕ) → has_path outputs.now.keys path ≡ true
        → has_path used.keys path ≡ has_path (flat_map inputs_of builds.now) path) }
{
    let mut used = IndexSet::new(alloc);
    for build in builds {
        add_inputs(&mut used, outputs, build)?;
    }
    Ok(used)
}

// Adds the outputs of an edge that are not in a set.
fn push_outputs(left: &mut Vec<Name>, set: &IndexSet<Name>, build: &Build) -> Result<(), AllocError>
    ensures { OnOk result (left.new.items
        ≡ left.old.items ++ filter (λ path. not (has_path set.now.keys path))
        (outputs_of build.now)) }
{
    push_others(left, set, &build.explicit_outs)?;
    push_others(left, set, &build.implicit_outs)?;
    Ok(())
}

// The outputs of all edges that are not in a set.
fn other_outputs(
    alloc: Global,
    set: &IndexSet<Name>,
    builds: &[Build],
) -> Result<Vec<Name>, AllocError>
    ensures { IfOk result (λ left. left.items
        ≡ filter (λ path. not (has_path set.now.keys path)) (flat_map outputs_of builds.now)) }
{
    let mut left = Vec::new(alloc);
    for build in builds {
        push_outputs(&mut left, set, build)?;
    }
    Ok(left)
}

// What is built where nothing is named.
fn defaults_of(
    alloc: Global,
    named: Option<Vec<Name>>,
    builds: &[Build],
) -> Result<Vec<Name>, AllocError>
    ensures { IfOk result (λ defaults. defaults.items
        ≡ defaults_of (option_map (λ names. names.items) named) builds.now) }
{
    if let Some(names) = named {
        return Ok(names);
    }
    let outputs = all_outputs(alloc, builds)?;
    let used = used_outputs(alloc, &outputs, builds)?;
    let left = other_outputs(alloc, &used, builds)?;
    Ok(left)
}

// The manifest of these edges, pools and defaults, which are those of the outputs where none are named.
fn manifest_of_builds(
    alloc: Global,
    builds: Vec<Build>,
    pools: Pools,
    defaults: Option<Vec<Name>>,
) -> Result<Manifest, AllocError>
    requires { All (IsBuild (length pools)) builds.items }
    ensures value { IfOk result (λ manifest. manifest ≡ record {
      builds = builds.items;
      pools = pools;
      defaults = defaults_of (option_map (λ names. names.items) defaults) builds.items;
    }) }
    ensures kept { IfOk result IsManifest }
{
    let defaults = defaults_of(alloc, defaults, &builds)?;
    let pools = pools.into_pairs(alloc)?;
    let parts = Parts {
        builds,
        pools,
        defaults,
    };
    Manifest::new(alloc, parts)
}

/// The manifest when all files are read.
pub(crate) fn ended(alloc: Global, above: Declarations) -> Result<Manifest, ReadFault>
    ensures meant { MatchResult result
        (λ manifest. ended (seen_declarations above) ≡ Ok manifest)
        (λ fault. IsFault fault (ended (seen_declarations above))) }
    ensures kept { IfOk result IsManifest }
{
    let Declarations {
        scopes,
        pools,
        edges,
        defaults,
        paths: _,
        room: _,
        value_room,
    } = above;
    let ended = builds_of(alloc, &scopes, &pools, value_room, edges)?;
    Ok(manifest_of_builds(alloc, ended.builds, pools, defaults)?)
}

/// The manifest when all files are read, whose edges are ended on several threads. None is given where an edge may have a
/// fault: which one is first is found out by one thread.
pub(crate) fn ended_by_threads<R: Threads + Sync>(
    rt: &R,
    alloc: Global,
    above: Declarations,
) -> Result<Option<Manifest>, AllocError>
    ensures meant { IfOk result (λ found. IfSome found (λ manifest. ended (seen_declarations above) ≡ Ok manifest)) }
    ensures kept { IfOk result (λ found. IfSome found IsManifest) }
{
    let Declarations {
        scopes,
        pools,
        edges,
        defaults,
        paths: _,
        room: _,
        value_room,
    } = above;
    match builds_by_threads(rt, alloc, &scopes, &pools, value_room, edges)? {
        None => Ok(None),
        Some(ended) => {
            let manifest = manifest_of_builds(alloc, ended.builds, pools, defaults)?;
            Ok(Some(manifest))
        }
    }
}
