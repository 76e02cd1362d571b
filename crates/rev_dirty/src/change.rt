//! Which inputs of an edge were changed by the edges that produce them.
ghost use Rattle.std.specs.Prelude.{List, ℕ, ◌≡◌, ◌<◌, ◌++◌, map, length, slice_get, bytes_eq, IfOk, OnOk};
ghost use Rattle.std.specs.Option.{option_copied};
ghost use Rattle.std.specs.List.{filter_map};
ghost use Rattle.rev_graph.specs.Graph.{build_at, outputs_of, has_path, producer_of};
ghost use Rattle.rev_cells.specs.State.{mark_of};
ghost use Rattle.rev_dirty.specs.Changes.{AreOutputs, AreChanges};
ghost use Rattle.rev_dirty.specs.Inputs.{an, inputs, paths_in, deps_record};
ghost use Rattle.rev_dirty.specs.Reasons.{changed_outputs, changed_positions as changed_positions_of, was_changed as was_changed_in, is_rebuilt as is_rebuilt_in};

use crate::input::{InputKind, line_producers};
use indexmap::{IndexMap, IndexSet};
use rev_cells::{Cell, Cells, Mark, Value};
use rev_graph::Graph;
use rev_paths::Name;
use std::alloc::{AllocError, Global};

/// For each edge that was met the outputs that it changed.
pub(crate) type Changed = IndexMap<u32, IndexSet<Name>>;

// The output at a position.
fn output_at<'a>(explicit: &'a [Name], implicit: &'a [Name], position: u64) -> Option<&'a Name>
    ensures { option_copied result ≡ slice_get (explicit.now ++ implicit.now) position }
{
    let first_implicit = explicit.len() as u64;
    if position < first_implicit {
        return explicit.get(position as usize);
    }
    implicit.get((position - first_implicit) as usize)
}

// The outputs at positions.
fn outputs_at(
    alloc: Global,
    explicit: &[Name],
    implicit: &[Name],
    positions: &[u64],
) -> Result<IndexSet<Name>, AllocError>
    ensures { IfOk result (λ set. (path : List ℕ)
        → has_path set.keys path
        ≡ has_path (filter_map (slice_get (explicit.now ++ implicit.now)) positions.now) path) }
{
    let mut outputs = IndexSet::new(alloc);
    for position in positions {
        if let Some(output) = output_at(explicit, implicit, *position) {
            outputs.insert(output.copy()?)?;
        }
    }
    Ok(outputs)
}

// The positions of the outputs that an edge changed, where it is done.
fn changed_positions(cells: &Cells, edge: u32) -> &[u64]
    ensures { result.now ≡ changed_positions_of (mark_of cells.now.state edge) }
{
    match cells.get(&Cell::Mark(edge)) {
        Some(Value::Mark(Mark::Done(changed))) => changed.as_slice(),
        _ => &[],
    }
}

// The outputs that an edge changed, where it is done.
fn outputs_changed(
    alloc: Global,
    graph: &Graph,
    cells: &Cells,
    edge: u32,
) -> Result<IndexSet<Name>, AllocError>
    requires { edge < length graph.now.manifest.builds }
    ensures { IfOk result (λ set. AreOutputs graph.now.manifest.builds cells.now.state edge set.keys) }
{
    let outputs = graph.outputs(edge);
    let positions = changed_positions(cells, edge);
    let changed = outputs_at(alloc, outputs.explicit, outputs.implicit, positions)?;
    Ok(changed)
}

// Whether an edge is done and changed a path. What each edge changed is found once.
fn has_changed(
    alloc: Global,
    graph: &Graph,
    cells: &Cells,
    changed: &mut Changed,
    edge: u32,
    path: &Name,
) -> Result<bool, AllocError>
    requires edge { edge < length graph.now.manifest.builds }
    requires changed { AreChanges graph.now.manifest.builds cells.now.state changed.old.entries }
    ensures value { IfOk result (λ found. found
        ≡ has_path (changed_outputs (mark_of cells.now.state edge)
        (outputs_of (build_at graph.now.manifest.builds edge))) path.now) }
    ensures changed { AreChanges graph.now.manifest.builds cells.now.state changed.new.entries }
{
    if let Some(outputs) = changed.get(&edge) {
        return Ok(outputs.contains(path));
    }
    let outputs = outputs_changed(alloc, graph, cells, edge)?;
    let found = outputs.contains(path);
    changed.insert(edge, outputs)?;
    Ok(found)
}

// Whether the edge that produces a path is done and changed it.
fn was_changed(
    alloc: Global,
    graph: &Graph,
    cells: &Cells,
    changed: &mut Changed,
    path: &Name,
    producer: Option<u32>,
) -> Result<bool, AllocError>
    requires producer { producer ≡ producer_of graph.now.manifest.builds path.now }
    requires changed { AreChanges graph.now.manifest.builds cells.now.state changed.old.entries }
    ensures value { IfOk result (λ found. found
        ≡ was_changed_in graph.now.manifest.builds cells.now.state path.now) }
    ensures changed { AreChanges graph.now.manifest.builds cells.now.state changed.new.entries }
{
    match producer {
        Some(edge) => {
            let found = has_changed(alloc, graph, cells, changed, edge, path)?;
            Ok(found)
        }
        None => Ok(false),
    }
}

// Whether an input counts and was changed.
fn is_rebuilt(
    alloc: Global,
    graph: &Graph,
    cells: &Cells,
    changed: &mut Changed,
    kind: InputKind,
    path: &Name,
    producer: Option<u32>,
) -> Result<bool, AllocError>
    requires producer { producer ≡ producer_of graph.now.manifest.builds path.now }
    requires changed { AreChanges graph.now.manifest.builds cells.now.state changed.old.entries }
    ensures value { IfOk result (λ rebuilt. rebuilt
        ≡ is_rebuilt_in graph.now.manifest.builds cells.now.state (an kind path.now)) }
    ensures changed { AreChanges graph.now.manifest.builds cells.now.state changed.new.entries }
{
    if kind == InputKind::OrderOnly {
        return Ok(false);
    }
    let found = was_changed(alloc, graph, cells, changed, path, producer)?;
    Ok(found)
}

// Adds which inputs that stand in one place were changed; no order-only input counts.
fn push_changes(
    alloc: Global,
    changes: &mut Vec<bool>,
    changed: &mut Changed,
    graph: &Graph,
    cells: &Cells,
    kind: InputKind,
    paths: &[Name],
    producers: &[Option<u32>],
) -> Result<(), AllocError>
    requires producers { producers.now ≡ map (producer_of graph.now.manifest.builds) paths.now }
    requires changed { AreChanges graph.now.manifest.builds cells.now.state changed.old.entries }
    ensures changed { AreChanges graph.now.manifest.builds cells.now.state changed.new.entries }
    ensures changes { OnOk result (changes.new.items
        ≡ changes.old.items
        ++ map (is_rebuilt_in graph.now.manifest.builds cells.now.state)
        (map (an kind) paths.now)) }
{
    changes.reserve(paths.len())?;
    for (place, path) in paths.iter().enumerate() {
        let producer = producers[place];
        let rebuilt = is_rebuilt(alloc, graph, cells, changed, kind, path, producer)?;
        changes.push(rebuilt)?;
    }
    Ok(())
}

/// For each input of an edge whether the edge that produces it changed it, where `listed` are those
/// that its deps record lists, and `producers` the edges that produce those.
pub(crate) fn changes_of(
    alloc: Global,
    graph: &Graph,
    cells: &Cells,
    changed: &mut Changed,
    edge: u32,
    listed: &[Name],
    producers: &[Option<u32>],
) -> Result<Vec<bool>, AllocError>
    requires changed { AreChanges graph.now.manifest.builds cells.now.state changed.old.entries }
    requires edge { edge < length graph.now.manifest.builds }
    requires producers { producers.now ≡ map (producer_of graph.now.manifest.builds) listed.now }
    requires listed { listed.now ≡ paths_in
        (deps_record cells.now.state (build_at graph.now.manifest.builds edge)) }
    ensures changed { AreChanges graph.now.manifest.builds cells.now.state changed.new.entries }
    ensures changes { IfOk result (λ changes. changes.items
        ≡ map (is_rebuilt_in graph.now.manifest.builds cells.now.state)
        (inputs cells.now.state (build_at graph.now.manifest.builds edge))) }
{
    let on_line = graph.inputs(edge);
    let line = line_producers(graph, edge);
    let mut changes = Vec::new(alloc);
    push_changes(
        alloc,
        &mut changes,
        changed,
        graph,
        cells,
        InputKind::OnLine,
        on_line.explicit,
        line.explicit,
    )?;
    push_changes(
        alloc,
        &mut changes,
        changed,
        graph,
        cells,
        InputKind::OnLine,
        on_line.implicit,
        line.implicit,
    )?;
    push_changes(
        alloc,
        &mut changes,
        changed,
        graph,
        cells,
        InputKind::OrderOnly,
        on_line.order_only,
        line.order_only,
    )?;
    push_changes(
        alloc,
        &mut changes,
        changed,
        graph,
        cells,
        InputKind::Listed,
        listed,
        producers,
    )?;
    Ok(changes)
}
