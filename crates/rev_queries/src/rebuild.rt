//! What would be to do if files were touched.
ghost use Rattle.std.specs.Prelude.{◌≡◌, ◌<◌, ◌++◌, ◌∷◌, [], Contains, IsSome, None, find, length, map, IfErr, IfOk, OnOk};
ghost use Rattle.std.specs.FinMap as finmap;
ghost use Rattle.std.specs.List.{AllByRecursion};
ghost use Rattle.std.specs.Option.{option_to_list};
ghost use Rattle.rev_cells.specs.declared.cell.Cell.{Cell};
ghost use Rattle.rev_cells.specs.State.{value_at};
ghost use Rattle.rev_cells.specs.Values.{Fits};
ghost use Rattle.rev_dirty.specs.Reasons.{reasons_of};
ghost use Rattle.rev_history.specs.Timeline.{state_at};
ghost use Rattle.rev_plan.specs.Fault.{Explains};
ghost use Rattle.rev_plan.specs.Plan.{is_own_reason, plan_refusal};
ghost use Rattle.rev_queries.specs.Rebuilds.{AreRebuilds, EntryFits, HoldAlike, IsRefusedAfter, IsTouched, entry_in, is_wanted_in as is_wanted_by, rebuild_by as rebuild_with, rebuilds_by, rebuilds_in, touch as touch_of};

use crate::own::own_reason_by_stamps;
use rev_cells::{Cell, Cells, Mark, Opening, OpeningFault, Value};
use rev_dirty::{DependencyScan, Reason};
use rev_graph::Graph;
use rev_history::History;
use rev_paths::Name;
use rev_plan::{PlanFault, plan};
use std::alloc::{AllocError, Global};

/// The stamp of a file that is touched: no file has a later one.
const LATEST: u64 = 18_446_744_073_709_551_615;

/// An edge that would be to do.
#[derive(Clone, Copy, Debug, PartialEq, Eq)]
pub struct Rebuild {
    /// The edge.
    pub edge: u32,
    /// The first of its reasons that its producers did not give it; none where it is to run since one of them is.
    pub reason: Option<Reason>,
}

// What a cell holds.
fn value_of(cells: &Cells, cell: &Cell) -> Result<Value, AllocError>
    ensures value { IfOk result (λ value. value ≡ value_at cells.now.state cell.now) }
    ensures fits { IfOk result (λ value. Fits cell.now value) }
{
    match cells.get(cell) {
        Some(value) => value.copy(),
        None => Ok(cell.default_value()),
    }
}

// Adds a cell with what it holds.
fn add_cell(entries: &mut Vec<(Cell, Value)>, cells: &Cells, cell: &Cell) -> Result<(), AllocError>
    ensures entries { OnOk result (entries.new.items
        ≡ entries.old.items ++ (cell.now, value_at cells.now.state cell.now) ∷ []) }
    ensures fits { OnOk result (Fits cell.now (value_at cells.now.state cell.now)) }
{
    let value = value_of(cells, cell)?;
    entries.push((cell.copy()?, value))?;
    Ok(())
}

// Each cell that has a place, with what it holds.
fn entries_of(alloc: Global, cells: &Cells) -> Result<Vec<(Cell, Value)>, AllocError>
    ensures entries { IfOk result (λ entries. entries.items ≡ map (entry_in cells.now.state) cells.now.places) }
    ensures fits { IfOk result (λ entries. AllByRecursion EntryFits entries.items) }
    ensures all { (c : Cell) → IsSome (finmap.get cells.now.state c) → Contains cells.now.places c }
{
    let _first = cells.place(0);
    let mut entries = Vec::new(alloc);
    let mut place = 0;
    while let Some(cell) = cells.place(place) {
        add_cell(&mut entries, cells, cell)?;
        place += 1;
    }
    Ok(entries)
}

// Cells that are at their defaults.
fn blank(alloc: Global) -> Result<Cells, AllocError>
    ensures { IfOk result (λ cells. cells.state ≡ finmap.empty) }
{
    match Opening::new(alloc, 1) {
        Ok(opening) => Cells::new(alloc, &opening),
        Err(_) => unreachable!(),
    }
}

// Cells that hold what these do.
fn copied(alloc: Global, cells: &Cells) -> Result<Cells, AllocError>
    ensures { IfOk result (λ copy. HoldAlike cells.now.state copy.state) }
{
    let entries = entries_of(alloc, cells)?;
    let mut copy = blank(alloc)?;
    copy.write_all(entries)?;
    Ok(copy)
}

// A path's stamp, later than every other.
fn touch(path: &Name) -> Result<(Cell, Value), AllocError>
    ensures { IfOk result (λ entry. entry ≡ touch_of path.now) }
{
    Ok((Cell::Stamp(path.copy()?), Value::Stamp(LATEST)))
}

// Adds a path's stamp, later than every other.
fn add_touch(entries: &mut Vec<(Cell, Value)>, path: &Name) -> Result<(), AllocError>
    ensures { OnOk result (entries.new.items ≡ entries.old.items ++ touch_of path.now ∷ []) }
{
    entries.push(touch(path)?)?;
    Ok(())
}

// The stamps of paths, later than every other.
fn touches(alloc: Global, paths: &[Name]) -> Result<Vec<(Cell, Value)>, AllocError>
    ensures touches { IfOk result (λ entries. entries.items ≡ map touch_of paths.now) }
    ensures fits { IfOk result (λ entries. AllByRecursion EntryFits entries.items) }
{
    let mut entries = Vec::new(alloc);
    for path in paths {
        add_touch(&mut entries, path)?;
    }
    Ok(entries)
}

// Cells that hold what these do, in which paths were then touched.
fn touched(alloc: Global, cells: &Cells, paths: &[Name]) -> Result<Cells, AllocError>
    ensures { IfOk result (λ after. IsTouched cells.now.state paths.now after.state) }
{
    let entries = touches(alloc, paths)?;
    let mut after = copied(alloc, cells)?;
    after.write_all(entries)?;
    Ok(after)
}

// Whether a reason is one that its producers did not give an edge.
fn is_own(reason: Reason) -> bool
    ensures { result ≡ is_own_reason reason }
{
    reason.kind() != 4
}

// The first reason that its producers did not give an edge.
fn own_reason(reasons: &[Reason]) -> Option<Reason>
    ensures { result ≡ find is_own_reason reasons.now }
{
    for reason in reasons {
        if is_own(*reason) {
            return Some(*reason);
        }
    }
    None
}

// Whether the mark of an edge is `Wanted`.
fn is_wanted_in(marks: &[Mark], edge: u32) -> bool
    ensures { result ≡ is_wanted_by marks.now edge }
{
    match marks.get(edge as usize) {
        Some(Mark::Wanted) => true,
        _ => false,
    }
}

// The first reason of an edge that its producers did not give it. The scan is asked only where stamps and records do not
// tell.
fn first_reason(
    alloc: Global,
    graph: &Graph,
    cells: &Cells,
    scan: &mut DependencyScan,
    edge: u32,
) -> Result<Option<Reason>, AllocError>
    requires edge { edge < length graph.now.manifest.builds }
    requires graph { scan.old.graph ≡ graph.now }
    requires state { scan.old.state ≡ cells.now.state }
    ensures reason { IfOk result (λ reason. reason
        ≡ find is_own_reason (reasons_of graph.now.manifest.builds cells.now.state edge)) }
    ensures same { scan.new ≡ scan.old }
{
    if let Some(reason) = own_reason_by_stamps(alloc, graph, cells, edge)? {
        return Ok(reason);
    }
    let reasons = scan.reasons(edge)?;
    Ok(own_reason(&reasons))
}

// Why an edge is to run, where it is wanted.
fn rebuild_by(
    alloc: Global,
    graph: &Graph,
    cells: &Cells,
    scan: &mut DependencyScan,
    edge: u32,
    wanted: bool,
) -> Result<Option<Rebuild>, AllocError>
    requires edge { edge < length graph.now.manifest.builds }
    requires graph { scan.old.graph ≡ graph.now }
    requires state { scan.old.state ≡ cells.now.state }
    ensures rebuild { IfOk result (λ rebuild. rebuild
        ≡ rebuild_with graph.now.manifest.builds cells.now.state edge wanted) }
    ensures same { scan.new ≡ scan.old }
{
    if !wanted {
        return Ok(None);
    }
    let reason = first_reason(alloc, graph, cells, scan, edge)?;
    Ok(Some(Rebuild { edge, reason }))
}

// Adds an edge that is to run, if there is one.
fn add(rebuilds: &mut Vec<Rebuild>, rebuild: Option<Rebuild>) -> Result<(), AllocError>
    ensures { OnOk result (rebuilds.new.items ≡ rebuilds.old.items ++ option_to_list rebuild) }
{
    if let Some(rebuild) = rebuild {
        rebuilds.push(rebuild)?;
    }
    Ok(())
}

// The edges whose marks are `Wanted`, and why.
fn rebuilds_among(
    alloc: Global,
    graph: &Graph,
    cells: &Cells,
    marks: &[Mark],
) -> Result<Vec<Rebuild>, AllocError>
    ensures { IfOk result (λ rebuilds. rebuilds.items
        ≡ rebuilds_by graph.now.manifest.builds cells.now.state marks.now) }
{
    let mut scan = DependencyScan::new(alloc, graph, cells);
    let mut rebuilds = Vec::new(alloc);
    for edge in 0..graph.edges() {
        let rebuild = rebuild_by(
            alloc,
            graph,
            cells,
            &mut scan,
            edge,
            is_wanted_in(marks, edge),
        )?;
        add(&mut rebuilds, rebuild)?;
    }
    Ok(rebuilds)
}

// The edges that a plan for targets wants.
fn planned(
    alloc: Global,
    graph: &Graph,
    cells: &Cells,
    targets: &[Name],
) -> Result<Vec<Rebuild>, PlanFault>
    ensures rebuilds { IfOk result (λ rebuilds. rebuilds.items
        ≡ rebuilds_in graph.now.manifest cells.now.state targets.now) }
    ensures accepted { OnOk result (plan_refusal graph.now.manifest cells.now.state targets.now ≡ None) }
    ensures refused { IfErr result (λ fault.
        Explains fault (plan_refusal graph.now.manifest cells.now.state targets.now)) }
{
    let marks = plan(alloc, graph, cells, targets)?;
    let rebuilds = rebuilds_among(alloc, graph, cells, &marks)?;
    Ok(rebuilds)
}

/// The edges that a plan for these targets would want if these paths were touched now, in their order, each with the
/// first reason that its producers did not give it. A touched file is later than every other. Where no target is named
/// the graph's defaults are the targets. The history is only read: the plan is made over a copy of what its cells hold,
/// in time linear in the cells and that of a plan.
///
/// # Errors
/// As [`plan`]: the plan over the touched copy is refused. [`PlanFault::Memory`] only where an allocation was refused.
pub fn rebuilds(
    alloc: Global,
    history: &History,
    targets: &[Name],
    paths: &[Name],
) -> Result<Vec<Rebuild>, PlanFault>
    ensures rebuilds { IfOk result (λ rebuilds. AreRebuilds history.now.timeline.manifest
        (state_at history.now.timeline) targets.now paths.now rebuilds.items) }
    ensures refused { IfErr result (λ fault. IsRefusedAfter history.now.timeline.manifest
        (state_at history.now.timeline) targets.now paths.now fault) }
{
    let cells = touched(alloc, history.cells(), paths)?;
    planned(alloc, history.graph(), &cells, targets)
}
