//! The first reason of an edge that its producers did not give it, by stamps and records alone.
ghost use Rattle.std.specs.Prelude.{◌≡◌, ◌<◌, ◌++◌, ◌==◌, false, nat_lt, find, length, map, max, replicate, None, IfOk, IfSome, OnOk};
ghost use Rattle.std.specs.List.{list_any, position};
ghost use Rattle.rev_cells.specs.State.{stamp_of};
ghost use Rattle.rev_graph.specs.Graph.{IsGraph, build_at, outputs_of};
ghost use Rattle.rev_dirty.specs.Reasons.{effective_stamp, first_stamp as first_stamp_of, has_old_deps as has_old_deps_in, has_other_command as has_other_command_in, is_missing, lacks_deps as lacks_deps_in, lacks_record as lacks_record_in, reasons_of};
ghost use Rattle.rev_dirty.specs.Visible.{greatest as greatest_of};
ghost use Rattle.rev_plan.specs.Plan.{is_own_reason};
ghost use Rattle.rev_queries.specs.Own.{AreStamps, first_by_log as first_by_log_of, first_by_outputs as first_by_outputs_of, first_older as first_older_of, older_by as older_by_of};

use rev_cells::Cells;
use rev_cells::records::{built, stamp};
use rev_dirty::{Reason, deps_record, listed_inputs};
use rev_graph::Graph;
use rev_paths::Name;
use std::alloc::{AllocError, Global};

// The position of the first missing output of an edge.
fn first_missing(graph: &Graph, cells: &Cells, edge: u32) -> Option<usize>
    requires { edge < length graph.now.manifest.builds }
    ensures { result
        ≡ position (is_missing cells.now.state) (outputs_of (build_at graph.now.manifest.builds edge)) }
{
    let outputs = graph.outputs(edge);
    outputs
        .explicit
        .iter()
        .chain(outputs.implicit.iter())
        .position(|output| stamp(cells, output) == 0)
}

// The stamp of the first output of an edge, 0 where it has none.
fn first_stamp(graph: &Graph, cells: &Cells, edge: u32) -> u64
    requires { edge < length graph.now.manifest.builds }
    ensures { result
        ≡ first_stamp_of cells.now.state (outputs_of (build_at graph.now.manifest.builds edge)) }
{
    let outputs = graph.outputs(edge);
    if let Some(output) = outputs.explicit.first() {
        return stamp(cells, output);
    }
    match outputs.implicit.first() {
        Some(output) => stamp(cells, output),
        None => 0,
    }
}

// Whether an edge that keeps deps has no record of them.
fn lacks_deps(graph: &Graph, cells: &Cells, edge: u32) -> bool
    requires { edge < length graph.now.manifest.builds }
    ensures { result ≡ lacks_deps_in cells.now.state (build_at graph.now.manifest.builds edge) }
{
    graph.keeps_deps(edge) && deps_record(graph, cells, edge).is_none()
}

// Whether the first output of an edge was changed after its deps were listed.
fn has_old_deps(graph: &Graph, cells: &Cells, edge: u32) -> bool
    requires { edge < length graph.now.manifest.builds }
    ensures { result ≡ has_old_deps_in cells.now.state (build_at graph.now.manifest.builds edge) }
{
    match deps_record(graph, cells, edge) {
        Some(deps) => deps.stamp < first_stamp(graph, cells, edge),
        None => false,
    }
}

// The first reason of an edge by what is there of its outputs and of its list.
fn first_by_outputs(graph: &Graph, cells: &Cells, edge: u32) -> Option<Reason>
    requires { edge < length graph.now.manifest.builds }
    ensures { result
        ≡ first_by_outputs_of cells.now.state (build_at graph.now.manifest.builds edge) }
{
    if let Some(output) = first_missing(graph, cells, edge) {
        return Some(Reason::Missing(output as u64));
    }
    if lacks_deps(graph, cells, edge) {
        return Some(Reason::NoDeps);
    }
    if has_old_deps(graph, cells, edge) {
        return Some(Reason::DepsOld);
    }
    None
}

// Adds the stamps of paths.
fn push_stamps(stamps: &mut Vec<u64>, cells: &Cells, paths: &[Name]) -> Result<(), AllocError>
    ensures { OnOk result (stamps.new.items ≡ stamps.old.items ++ map (stamp_of cells.now.state) paths.now) }
{
    stamps.reserve(paths.len())?;
    for path in paths {
        stamps.push(stamp(cells, path))?;
    }
    Ok(())
}

// Whether a file is missing, by the stamps of some.
fn has_missing(stamps: &[u64]) -> bool
    ensures { result ≡ list_any (λ stamp. stamp == 0) stamps.now }
{
    stamps.iter().any(|stamp| *stamp == 0)
}

// The stamps of paths that stand in two lists.
fn stamps_of(
    alloc: Global,
    cells: &Cells,
    first: &[Name],
    second: &[Name],
) -> Result<Vec<u64>, AllocError>
    ensures { IfOk result (λ stamps. stamps.items ≡ map (stamp_of cells.now.state) (first.now ++ second.now)) }
{
    let mut stamps = Vec::new(alloc);
    push_stamps(&mut stamps, cells, first)?;
    push_stamps(&mut stamps, cells, second)?;
    Ok(stamps)
}

// Stamps, 0 so many times, and further stamps.
fn with_zeros(
    alloc: Global,
    front: &[u64],
    zeros: usize,
    back: &[u64],
) -> Result<Vec<u64>, AllocError>
    ensures { IfOk result (λ stamps. stamps.items ≡ front.now ++ replicate zeros 0 ++ back.now) }
{
    let mut stamps = Vec::from_slice(alloc, front)?;
    let order_only = vec![in alloc; 0; zeros]?;
    stamps.extend_from_slice(&order_only)?;
    stamps.extend_from_slice(back)?;
    Ok(stamps)
}

// The stamps of the inputs of an edge, 0 in place of that of an order-only one; none where another input is missing.
fn input_stamps(
    alloc: Global,
    graph: &Graph,
    cells: &Cells,
    edge: u32,
) -> Result<Option<Vec<u64>>, AllocError>
    requires { edge < length graph.now.manifest.builds }
    ensures { IfOk result (λ found. IfSome found (λ stamps.
        AreStamps cells.now.state (build_at graph.now.manifest.builds edge) stamps.items)) }
{
    let inputs = graph.inputs(edge);
    let line = stamps_of(alloc, cells, inputs.explicit, inputs.implicit)?;
    let listed = stamps_of(alloc, cells, listed_inputs(graph, cells, edge), &[])?;
    if has_missing(&line) || has_missing(&listed) {
        return Ok(None);
    }
    let stamps = with_zeros(alloc, &line, inputs.order_only.len(), &listed)?;
    Ok(Some(stamps))
}

// The greater one of two stamps.
fn greater(one: u64, other: u64) -> u64
    ensures { result ≡ max one other }
{
    one.max(other)
}

// The greatest of stamps, 0 where there is none.
fn greatest(stamps: &[u64]) -> u64
    ensures { result ≡ greatest_of stamps.now }
{
    let mut greatest = 0;
    for stamp in stamps {
        greatest = greater(greatest, *stamp);
    }
    greatest
}

// The position of the first stamp that is this one.
fn place_of(stamps: &[u64], stamp: u64) -> Option<usize>
    ensures { result ≡ position (λ other. other == stamp) stamps.now }
{
    stamps.iter().position(|other| *other == stamp)
}

// The stamp that an output of an edge counts with.
fn effective(graph: &Graph, cells: &Cells, edge: u32, output: &Name) -> u64
    requires { edge < length graph.now.manifest.builds }
    ensures { result
        ≡ effective_stamp cells.now.state (build_at graph.now.manifest.builds edge) output.now }
{
    let stamp = stamp(cells, output);
    if !graph.restat(edge) {
        return stamp;
    }
    match built(cells, output) {
        Some(built) => stamp.max(built.stamp),
        None => stamp,
    }
}

// The position of the first output of an edge that counts with less than a stamp.
fn first_below(graph: &Graph, cells: &Cells, edge: u32, stamp: u64) -> Option<usize>
    requires { edge < length graph.now.manifest.builds }
    ensures { result
        ≡ position (λ output. nat_lt (effective_stamp cells.now.state (build_at graph.now.manifest.builds edge) output) stamp)
        (outputs_of (build_at graph.now.manifest.builds edge)) }
{
    let outputs = graph.outputs(edge);
    outputs
        .explicit
        .iter()
        .chain(outputs.implicit.iter())
        .position(|output| effective(graph, cells, edge, output) < stamp)
}

// An output that is older than an input, where there are both.
fn older_by(output: Option<usize>, input: Option<usize>) -> Option<Reason>
    ensures { result ≡ older_by_of output input }
{
    let output = output? as u64;
    let input = input? as u64;
    Some(Reason::Older(output, input))
}

// The first output of an edge that is older than its newest input, with that input.
fn first_older(graph: &Graph, cells: &Cells, edge: u32, stamps: &[u64]) -> Option<Reason>
    requires edge { edge < length graph.now.manifest.builds }
    requires graph { IsGraph graph.now }
    requires stamps { AreStamps cells.now.state (build_at graph.now.manifest.builds edge) stamps.now }
    ensures { result
        ≡ first_older_of graph.now.manifest.builds cells.now.state (build_at graph.now.manifest.builds edge) }
{
    let newest = greatest(stamps);
    let output = first_below(graph, cells, edge, newest);
    let input = place_of(stamps, newest);
    older_by(output, input)
}

// Whether an output of an edge lacks a record in the build log where one is asked for.
fn lacks_record(graph: &Graph, cells: &Cells, edge: u32, output: &Name) -> bool
    requires { edge < length graph.now.manifest.builds }
    ensures { result
        ≡ lacks_record_in cells.now.state (build_at graph.now.manifest.builds edge) output.now }
{
    !graph.generator(edge) && built(cells, output).is_none()
}

// Whether an output of an edge was made by another command where that is asked.
fn has_other_command(graph: &Graph, cells: &Cells, edge: u32, output: &Name) -> bool
    requires { edge < length graph.now.manifest.builds }
    ensures { result
        ≡ has_other_command_in cells.now.state (build_at graph.now.manifest.builds edge) output.now }
{
    if graph.generator(edge) {
        return false;
    }
    match built(cells, output) {
        Some(built) => built.command.as_slice() != graph.command(edge),
        None => false,
    }
}

// The position of the first output of an edge that lacks a record.
fn first_unrecorded(graph: &Graph, cells: &Cells, edge: u32) -> Option<usize>
    requires { edge < length graph.now.manifest.builds }
    ensures { result
        ≡ position (lacks_record_in cells.now.state (build_at graph.now.manifest.builds edge))
        (outputs_of (build_at graph.now.manifest.builds edge)) }
{
    let outputs = graph.outputs(edge);
    outputs
        .explicit
        .iter()
        .chain(outputs.implicit.iter())
        .position(|output| lacks_record(graph, cells, edge, output))
}

// The position of the first output of an edge that was made by another command.
fn first_of_other(graph: &Graph, cells: &Cells, edge: u32) -> Option<usize>
    requires { edge < length graph.now.manifest.builds }
    ensures { result
        ≡ position (has_other_command_in cells.now.state (build_at graph.now.manifest.builds edge))
        (outputs_of (build_at graph.now.manifest.builds edge)) }
{
    let outputs = graph.outputs(edge);
    outputs
        .explicit
        .iter()
        .chain(outputs.implicit.iter())
        .position(|output| has_other_command(graph, cells, edge, output))
}

// The first reason of an edge by the build log.
fn first_by_log(graph: &Graph, cells: &Cells, edge: u32) -> Option<Reason>
    requires { edge < length graph.now.manifest.builds }
    ensures { result
        ≡ first_by_log_of cells.now.state (build_at graph.now.manifest.builds edge) }
{
    if let Some(output) = first_unrecorded(graph, cells, edge) {
        return Some(Reason::NoRecord(output as u64));
    }
    let output = first_of_other(graph, cells, edge)?;
    Some(Reason::Command(output as u64))
}

// The first own reason of an edge that has none by its outputs and its list, and of whose inputs these are the stamps.
fn later_reason(graph: &Graph, cells: &Cells, edge: u32, stamps: &[u64]) -> Option<Reason>
    requires edge { edge < length graph.now.manifest.builds }
    requires command { (build_at graph.now.manifest.builds edge).phony ≡ false }
    requires graph { IsGraph graph.now }
    requires none { first_by_outputs_of cells.now.state (build_at graph.now.manifest.builds edge) ≡ None }
    requires stamps { AreStamps cells.now.state (build_at graph.now.manifest.builds edge) stamps.now }
    ensures { result ≡ find is_own_reason (reasons_of graph.now.manifest.builds cells.now.state edge) }
{
    first_older(graph, cells, edge, stamps).or(first_by_log(graph, cells, edge))
}

/// The first reason of an edge that its producers did not give it, if it has one. Each input is looked at once, and
/// nobody is asked who produces it. So nothing is said of a phony edge, and where an input that is not order-only is
/// missing, which an edge may produce.
///
/// # Errors
/// [`AllocError`] only where an allocation was refused.
#[tactic(auto, using(crate::proofs::OwnLemmas::own_by_outputs))]
pub(crate) fn own_reason_by_stamps(
    alloc: Global,
    graph: &Graph,
    cells: &Cells,
    edge: u32,
) -> Result<Option<Option<Reason>>, AllocError>
    requires { edge < length graph.now.manifest.builds }
    ensures { IfOk result (λ found. IfSome found (λ reason.
        reason ≡ find is_own_reason (reasons_of graph.now.manifest.builds cells.now.state edge))) }
{
    // What it promises of every graph, ranks that fall along its steps, is what visible stamps rest on.
    let _edges = graph.edges();
    if graph.is_phony(edge) {
        return Ok(None);
    }
    if let Some(reason) = first_by_outputs(graph, cells, edge) {
        return Ok(Some(Some(reason)));
    }
    match input_stamps(alloc, graph, cells, edge)? {
        Some(stamps) => Ok(Some(later_reason(graph, cells, edge, &stamps))),
        None => Ok(None),
    }
}
