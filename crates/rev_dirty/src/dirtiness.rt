//! The reasons to run an edge's command.
ghost use Rattle.std.specs.Prelude.{◌≡◌, ◌<◌, ◌++◌, ◌==◌, ◌&&◌, ◌+◌, is_none, true, false, nat_lt, [], map, length, IfOk, OnOk};
ghost use Rattle.std.specs.Option.{option_copied};
ghost use Rattle.std.specs.List.{position, list_any};
ghost use Rattle.rev_cells.specs.declared.value.DepsRecord.{DepsRecord};
ghost use Rattle.rev_dirty.specs.Visible.{greatest};
ghost use Rattle.rev_dirty.specs.Walk.{shown as shown_of, IsKnowledge};
ghost use Rattle.rev_graph.specs.Graph.{build_at, inputs_of, producer_of, IsGraph};
ghost use Rattle.rev_dirty.specs.declared.input.Input.{Input};
ghost use Rattle.rev_dirty.specs.declared.output.Output.{Output};
ghost use Rattle.rev_dirty.specs.declared.reason.Reason.TheVariants as reason;
ghost use Rattle.rev_dirty.specs.Chosen.{positions, lacks as lacks_of, has_shown, older_by, where_holds, stamp_of_first, all_reasons as all_reasons_of};
ghost use Rattle.rev_dirty.specs.Inputs.{deps_record as record_of, inputs as inputs_in, paths_in, producers_in};
ghost use Rattle.rev_dirty.specs.Changes.{AreChanges};
ghost use Rattle.rev_dirty.specs.Reasons.{reasons_of, holds, newest_stamp, is_rebuilt};

use crate::change::{Changed, changes_of};
use crate::input::{Input, InputKind, all_inputs, producers_of};
use crate::newest::newest_there;
use crate::output::{Output, first_output, outputs_of};
use crate::reason::Reason;
use crate::walk::{Known, greatest_shown, know, shown};
use rev_cells::records::deps;
use rev_cells::{Cells, DepsRecord};
use rev_graph::Graph;
use rev_paths::Name;
use std::alloc::{AllocError, Global};

/// The record that lists an edge's further inputs: the deps log's record of its first output, where the edge keeps
/// deps.
pub fn deps_record<'a>(graph: &Graph, cells: &'a Cells, edge: u32) -> Option<&'a DepsRecord>
    requires { edge < length graph.now.manifest.builds }
    ensures { option_copied result ≡ record_of cells.now.state (build_at graph.now.manifest.builds edge) }
{
    if !graph.keeps_deps(edge) {
        return None;
    }
    match first_output(graph, edge) {
        Some(output) => deps(cells, output),
        None => None,
    }
}

// Adds the missing outputs.
fn push_missing(reasons: &mut Vec<Reason>, outputs: &[Output]) -> Result<(), AllocError>
    ensures { OnOk result (reasons.new.items
        ≡ reasons.old.items
        ++ map reason.Missing (positions (λ (output : Output). output.stamp == 0) outputs.now)) }
{
    for (position, output) in outputs.iter().enumerate() {
        if output.stamp == 0 {
            reasons.push(Reason::Missing(position as u64))?;
        }
    }
    Ok(())
}

// Adds the changed inputs.
fn push_rebuilt(reasons: &mut Vec<Reason>, changes: &[bool]) -> Result<(), AllocError>
    ensures { OnOk result (reasons.new.items
        ≡ reasons.old.items ++ map reason.Rebuilt (positions (λ changed. changed) changes.now)) }
{
    for (position, changed) in changes.iter().enumerate() {
        if *changed {
            reasons.push(Reason::Rebuilt(position as u64))?;
        }
    }
    Ok(())
}

// Whether the deps record lists an input that nothing produces and that is missing.
fn lacks(input: &Input) -> bool
    ensures { result ≡ lacks_of input.now }
{
    input.kind == InputKind::Listed && !input.produced && input.stamp == 0
}

// Adds the inputs that the deps record lists, that nothing produces and that are missing.
fn push_missing_deps(reasons: &mut Vec<Reason>, inputs: &[Input]) -> Result<(), AllocError>
    ensures { OnOk result (reasons.new.items
        ≡ reasons.old.items ++ map reason.MissingDep (positions lacks_of inputs.now)) }
{
    for (position, input) in inputs.iter().enumerate() {
        if lacks(input) {
            reasons.push(Reason::MissingDep(position as u64))?;
        }
    }
    Ok(())
}

// The position of the first input that counts and shows the stamp.
fn first_shown(known: &Known, inputs: &[Input], stamp: u64) -> Option<usize>
    ensures { result ≡ position (has_shown known.now.entries stamp) inputs.now }
{
    inputs.iter().position(|input| input.kind != InputKind::OrderOnly
        && shown(known, input) == stamp)
}

// Adds the outputs that are older than the newest input, which stands at a position and shows the stamp.
fn push_older(
    reasons: &mut Vec<Reason>,
    outputs: &[Output],
    newest: usize,
    stamp: u64,
) -> Result<(), AllocError>
    ensures { OnOk result (reasons.new.items
        ≡ reasons.old.items
        ++ map (λ output. reason.Older output newest)
        (positions (λ (output : Output). nat_lt output.effective stamp) outputs.now)) }
{
    for (position, output) in outputs.iter().enumerate() {
        if output.effective < stamp {
            reasons.push(Reason::Older(position as u64, newest as u64))?;
        }
    }
    Ok(())
}

// Adds the outputs that have no record.
fn push_unrecorded(reasons: &mut Vec<Reason>, outputs: &[Output]) -> Result<(), AllocError>
    ensures { OnOk result (reasons.new.items
        ≡ reasons.old.items
        ++ map reason.NoRecord (positions (λ (output : Output). output.unrecorded) outputs.now)) }
{
    for (position, output) in outputs.iter().enumerate() {
        if output.unrecorded {
            reasons.push(Reason::NoRecord(position as u64))?;
        }
    }
    Ok(())
}

// Adds the outputs that were made by another command.
fn push_command_changed(reasons: &mut Vec<Reason>, outputs: &[Output]) -> Result<(), AllocError>
    ensures { OnOk result (reasons.new.items
        ≡ reasons.old.items
        ++ map reason.Command
        (positions (λ (output : Output). output.command_changed) outputs.now)) }
{
    for (position, output) in outputs.iter().enumerate() {
        if output.command_changed {
            reasons.push(Reason::Command(position as u64))?;
        }
    }
    Ok(())
}

// Adds the outputs that are older than the newest input.
fn push_outdated(
    reasons: &mut Vec<Reason>,
    known: &Known,
    inputs: &[Input],
    outputs: &[Output],
) -> Result<(), AllocError>
    ensures { OnOk result (let stamp = greatest (map (shown_of known.now.entries) inputs.now) in
        reasons.new.items
        ≡ reasons.old.items
        ++ older_by (position (has_shown known.now.entries stamp) inputs.now) stamp outputs.now) }
{
    let stamp = greatest_shown(known, inputs);
    match first_shown(known, inputs, stamp) {
        Some(newest) => {
            push_older(reasons, outputs, newest, stamp)?;
            Ok(())
        }
        None => Ok(()),
    }
}

// Adds a reason where it holds.
fn push_where(reasons: &mut Vec<Reason>, holds: bool, reason: Reason) -> Result<(), AllocError>
    ensures { OnOk result (reasons.new.items ≡ reasons.old.items ++ where_holds holds reason) }
{
    if holds {
        reasons.push(reason)?;
    }
    Ok(())
}

// Whether an edge that keeps deps has no record of them.
fn lacks_deps(keeps_deps: bool, deps: Option<&DepsRecord>) -> bool
    ensures { result ≡ (keeps_deps && is_none (option_copied deps.entry)) }
{
    keeps_deps && deps.is_none()
}

// Whether deps were listed before the first output was last changed.
fn are_old(deps: Option<&DepsRecord>, outputs: &[Output]) -> bool
    ensures { result ≡ holds (λ (deps : DepsRecord). nat_lt deps.stamp (stamp_of_first outputs.now))
        (option_copied deps.entry) }
{
    let stamp = match outputs.first() {
        Some(output) => output.stamp,
        None => 0,
    };
    match deps {
        Some(deps) => deps.stamp < stamp,
        None => false,
    }
}

// The inputs that a deps record lists.
fn listed_in(deps: Option<&DepsRecord>) -> &[Name]
    ensures { result.now ≡ paths_in (option_copied deps.entry) }
{
    match deps {
        Some(deps) => deps.paths.as_slice(),
        None => &[],
    }
}

/// The inputs of an edge that its deps record lists, where it keeps deps and has one.
pub fn listed_inputs<'a>(graph: &Graph, cells: &'a Cells, edge: u32) -> &'a [Name]
    requires { edge < length graph.now.manifest.builds }
    ensures { result.now ≡ paths_in (record_of cells.now.state (build_at graph.now.manifest.builds edge)) }
{
    listed_in(deps_record(graph, cells, edge))
}

// Whether one of the inputs was changed.
fn any_changed(changes: &[bool]) -> bool
    ensures { result ≡ list_any (λ changed. changed) changes.now }
{
    changes.iter().any(|changed| *changed)
}

// Whether an edge has no input of any kind, where `listed` are those that its deps record lists.
fn has_no_input(graph: &Graph, edge: u32, listed: &[Name]) -> bool
    requires { edge < length graph.now.manifest.builds }
    ensures { result ≡ (length (inputs_of (build_at graph.now.manifest.builds edge)) + length listed.now
        == 0) }
{
    let inputs = graph.inputs(edge);
    inputs.explicit.is_empty()
        && inputs.implicit.is_empty()
        && inputs.order_only.is_empty()
        && listed.is_empty()
}

// The reasons of a phony edge.
fn phony_reasons(
    alloc: Global,
    graph: &Graph,
    cells: &Cells,
    edge: u32,
) -> Result<Vec<Reason>, AllocError>
    requires edge { edge < length graph.now.manifest.builds }
    requires phony { (build_at graph.now.manifest.builds edge).phony ≡ true }
    ensures { IfOk result (λ reasons. reasons.items
        ≡ reasons_of graph.now.manifest.builds cells.now.state edge) }
{
    let deps = deps_record(graph, cells, edge);
    let mut reasons = Vec::new(alloc);
    if !has_no_input(graph, edge, listed_in(deps)) {
        return Ok(reasons);
    }
    let outputs = outputs_of(alloc, graph, cells, edge)?;
    push_missing(&mut reasons, &outputs)?;
    Ok(reasons)
}

// All reasons of an edge that is not phony, by what is asked of its outputs and inputs.
fn all_reasons(
    alloc: Global,
    known: &Known,
    outputs: &[Output],
    inputs: &[Input],
    changes: &[bool],
    lacks_deps: bool,
    has_old_deps: bool,
) -> Result<Vec<Reason>, AllocError>
    ensures { IfOk result (λ reasons. reasons.items
        ≡ all_reasons_of known.now.entries outputs.now inputs.now changes.now lacks_deps
        has_old_deps) }
{
    let mut reasons = Vec::new(alloc);
    push_missing(&mut reasons, outputs)?;
    push_where(&mut reasons, lacks_deps, Reason::NoDeps)?;
    push_where(&mut reasons, has_old_deps, Reason::DepsOld)?;
    push_rebuilt(&mut reasons, changes)?;
    push_missing_deps(&mut reasons, inputs)?;
    push_outdated(&mut reasons, known, inputs, outputs)?;
    push_unrecorded(&mut reasons, outputs)?;
    push_command_changed(&mut reasons, outputs)?;
    Ok(reasons)
}

// The edges that produce the paths that a deps record lists. Where the caller knows that none does, none is looked up.
fn listed_producers(
    alloc: Global,
    graph: &Graph,
    listed: &[Name],
    are_sources: bool,
) -> Result<Vec<Option<u32>>, AllocError>
    requires { are_sources ≡ true → producers_in graph.now.manifest.builds listed.now ≡ [] }
    ensures { IfOk result (λ producers. producers.items
        ≡ map (producer_of graph.now.manifest.builds) listed.now) }
{
    if are_sources {
        let none = vec![in alloc; None; listed.len()]?;
        return Ok(none);
    }
    producers_of(alloc, graph, listed)
}

// The reasons of an edge that is not phony.
fn command_reasons(
    alloc: Global,
    graph: &Graph,
    cells: &Cells,
    known: &mut Known,
    changed: &mut Changed,
    edge: u32,
    are_sources: bool,
) -> Result<Vec<Reason>, AllocError>
    requires edge { edge < length graph.now.manifest.builds }
    requires command { (build_at graph.now.manifest.builds edge).phony ≡ false }
    requires sources { are_sources ≡ true → producers_in graph.now.manifest.builds
        (paths_in (record_of cells.now.state (build_at graph.now.manifest.builds edge))) ≡ [] }
    requires graph { IsGraph graph.now }
    requires knowledge { IsKnowledge graph.now.manifest.builds cells.now.state known.old.entries }
    requires changed { AreChanges graph.now.manifest.builds cells.now.state changed.old.entries }
    ensures reasons { IfOk result (λ reasons. reasons.items
        ≡ reasons_of graph.now.manifest.builds cells.now.state edge) }
    ensures knowledge { IsKnowledge graph.now.manifest.builds cells.now.state known.new.entries }
    ensures changed { AreChanges graph.now.manifest.builds cells.now.state changed.new.entries }
{
    let deps = deps_record(graph, cells, edge);
    let listed = listed_in(deps);
    let outputs = outputs_of(alloc, graph, cells, edge)?;
    let producers = listed_producers(alloc, graph, listed, are_sources)?;
    let inputs = all_inputs(alloc, graph, cells, edge, listed, &producers)?;
    let changes = changes_of(alloc, graph, cells, changed, edge, listed, &producers)?;
    know(alloc, graph, cells, known, &inputs)?;
    let lacks_deps = lacks_deps(graph.keeps_deps(edge), deps);
    let has_old_deps = are_old(deps, &outputs);
    let reasons = all_reasons(
        alloc,
        known,
        &outputs,
        &inputs,
        &changes,
        lacks_deps,
        has_old_deps,
    )?;
    Ok(reasons)
}

/// The reasons of an edge, by what is known of phony edges and of what edges changed, and by what is learned of them.
/// Where the caller knows that no edge produces what the deps record lists, these producers are not looked up.
pub(crate) fn reasons_by(
    alloc: Global,
    graph: &Graph,
    cells: &Cells,
    known: &mut Known,
    changed: &mut Changed,
    edge: u32,
    are_sources: bool,
) -> Result<Vec<Reason>, AllocError>
    requires edge { edge < length graph.now.manifest.builds }
    requires sources { are_sources ≡ true → producers_in graph.now.manifest.builds
        (paths_in (record_of cells.now.state (build_at graph.now.manifest.builds edge))) ≡ [] }
    requires graph { IsGraph graph.now }
    requires knowledge { IsKnowledge graph.now.manifest.builds cells.now.state known.old.entries }
    requires changed { AreChanges graph.now.manifest.builds cells.now.state changed.old.entries }
    ensures reasons { IfOk result (λ reasons. reasons.items
        ≡ reasons_of graph.now.manifest.builds cells.now.state edge) }
    ensures knowledge { IsKnowledge graph.now.manifest.builds cells.now.state known.new.entries }
    ensures changed { AreChanges graph.now.manifest.builds cells.now.state changed.new.entries }
{
    if graph.is_phony(edge) {
        return phony_reasons(alloc, graph, cells, edge);
    }
    command_reasons(alloc, graph, cells, known, changed, edge, are_sources)
}

/// The greatest visible stamp of the inputs of an edge that are not order-only, 0 where there is none.
pub(crate) fn newest_stamp_by(
    alloc: Global,
    graph: &Graph,
    cells: &Cells,
    known: &mut Known,
    edge: u32,
) -> Result<u64, AllocError>
    requires edge { edge < length graph.now.manifest.builds }
    requires graph { IsGraph graph.now }
    requires knowledge { IsKnowledge graph.now.manifest.builds cells.now.state known.old.entries }
    ensures stamp { IfOk result (λ stamp. stamp
        ≡ newest_stamp graph.now.manifest.builds cells.now.state
        (inputs_in cells.now.state (build_at graph.now.manifest.builds edge))) }
    ensures knowledge { IsKnowledge graph.now.manifest.builds cells.now.state known.new.entries }
{
    let listed = listed_inputs(graph, cells, edge);
    if let Some(stamp) = newest_there(graph, cells, edge, listed) {
        return Ok(stamp);
    }
    let producers = producers_of(alloc, graph, listed)?;
    let inputs = all_inputs(alloc, graph, cells, edge, listed, &producers)?;
    know(alloc, graph, cells, known, &inputs)?;
    Ok(greatest_shown(known, &inputs))
}

/// Whether the producer of some input of an edge that is not order-only is done and changed that input.
pub(crate) fn has_rebuilt_by(
    alloc: Global,
    graph: &Graph,
    cells: &Cells,
    changed: &mut Changed,
    edge: u32,
) -> Result<bool, AllocError>
    requires edge { edge < length graph.now.manifest.builds }
    requires changed { AreChanges graph.now.manifest.builds cells.now.state changed.old.entries }
    ensures rebuilt { IfOk result (λ rebuilt. rebuilt
        ≡ list_any (is_rebuilt graph.now.manifest.builds cells.now.state)
        (inputs_in cells.now.state (build_at graph.now.manifest.builds edge))) }
    ensures changed { AreChanges graph.now.manifest.builds cells.now.state changed.new.entries }
{
    let listed = listed_inputs(graph, cells, edge);
    let producers = producers_of(alloc, graph, listed)?;
    let changes = changes_of(alloc, graph, cells, changed, edge, listed, &producers)?;
    Ok(any_changed(&changes))
}
