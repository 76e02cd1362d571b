//! What is answered by lists of lines, and by the kept events.
ghost use Rattle.std.specs.Prelude.{◌≡◌, ◌∷◌, [], IfOk};
ghost use Rattle.std.specs.FinMap as state;
ghost use Rattle.std.specs.List.{AllByRecursion};
ghost use Rattle.std.specs.Option.{option_copied};
ghost use Rattle.rev_cells.specs.Effects.{set_all};
ghost use Rattle.rev_cells.specs.State.{value_at};
ghost use Rattle.rev_cells.specs.Values.{Fits};
ghost use Rattle.rev_cells.specs.declared.cell.Cell.{Cell};
ghost use Rattle.rev_cells.specs.declared.cell.Cell.TheVariants as cell;
ghost use Rattle.rev_cells.specs.declared.value.Value.{Value};
ghost use Rattle.rev_prompt.specs.Asked.{AreLogs, AreStamps, IsKept, IsMarks, IsOrderOf, mark_at, records_at, stamp_at};
ghost use Rattle.rev_prompt.specs.Lines.{only as only_these};
ghost use Rattle.rev_prompt.specs.Named.{OfEvents};

use crate::answers::Answer;
use crate::events::named_events;
use crate::question::EventName;
use rev_cells::{Cell, Cells, Opening, Value};
use rev_desk::Desk;
use rev_history::History;
use rev_listing::{logs_text, marks_text, stamps_text};
use rev_order_text::run_in_order;
use rev_paths::Name;
use std::alloc::{AllocError, Global};

// A cell with what it holds.
fn held(cells: &Cells, cell: Cell) -> Result<(Cell, Value), AllocError>
    ensures is { IfOk result (λ pair. pair ≡ (cell, value_at cells.now.state cell)) }
    ensures fits { IfOk result (λ pair. Fits pair.0 pair.1) }
{
    let value = match cells.get(&cell) {
        Some(value) => value.copy()?,
        None => cell.default_value(),
    };
    Ok((cell, value))
}

// Cells of which these alone are not at their default.
fn only(alloc: Global, held: Vec<(Cell, Value)>) -> Result<Cells, AllocError>
    requires { AllByRecursion (λ (w : Cell × Value). Fits w.0 w.1) held.items }
    ensures { IfOk result (λ cells. cells.state ≡ set_all state.empty held.items) }
{
    let Ok(opening) = Opening::new(alloc, 1) else {
        unreachable!()
    };
    let mut cells = Cells::new(alloc, &opening)?;
    let _former = cells.write_all(held)?;
    Ok(cells)
}

// Cells of which one alone is not at its default, as in others.
fn only_one(alloc: Global, cells: &Cells, cell: Cell) -> Result<Cells, AllocError>
    ensures { IfOk result (λ one. one.state ≡ only_these cells.now.state (cell ∷ [])) }
{
    let mut those = Vec::new(alloc);
    those.push(held(cells, cell)?)?;
    only(alloc, those)
}

// The records of an output in the build log and in the deps log alone.
fn only_records(alloc: Global, cells: &Cells, path: &Name) -> Result<Cells, AllocError>
    ensures { IfOk result (λ two. two.state
        ≡ only_these cells.now.state (cell.Built path.now ∷ cell.Deps path.now ∷ [])) }
{
    let mut those = Vec::new(alloc);
    those.push(held(cells, Cell::Built(path.copy()?))?)?;
    those.push(held(cells, Cell::Deps(path.copy()?))?)?;
    only(alloc, those)
}

// The line of a file that is not missing, as `stamps` has it.
fn stamp_of(alloc: Global, history: &History, path: &Name) -> Result<Vec<u8>, AllocError>
    ensures { IfOk result (λ text. text.items ≡ stamp_at history.now.timeline path.now) }
{
    let one = only_one(alloc, history.cells(), Cell::Stamp(path.copy()?))?;
    stamps_text(alloc, &one)
}

/// `stamps` and `stamps PATH`: the files that are not missing, or one of them.
pub(crate) fn stamps(
    alloc: Global,
    history: &History,
    path: Option<&Name>,
) -> Result<Answer, AllocError>
    ensures { IfOk result (λ answer. AreStamps history.now.timeline (option_copied path.entry) answer) }
{
    let Some(path) = path else {
        let text = stamps_text(alloc, history.cells())?;
        return Ok(Answer::Lines(text));
    };
    Ok(Answer::Lines(stamp_of(alloc, history, path)?))
}

// The lines of the records of an output, as `logs` has them.
fn records_of(alloc: Global, history: &History, path: &Name) -> Result<Vec<u8>, AllocError>
    ensures { IfOk result (λ text. text.items ≡ records_at history.now.timeline path.now) }
{
    let two = only_records(alloc, history.cells(), path)?;
    logs_text(alloc, &two)
}

/// `logs` and `logs PATH`: what the logs have, or what they have of an output.
pub(crate) fn logs(
    alloc: Global,
    history: &History,
    path: Option<&Name>,
) -> Result<Answer, AllocError>
    ensures { IfOk result (λ answer. AreLogs history.now.timeline (option_copied path.entry) answer) }
{
    let Some(path) = path else {
        let text = logs_text(alloc, history.cells())?;
        return Ok(Answer::Lines(text));
    };
    Ok(Answer::Lines(records_of(alloc, history, path)?))
}

// The line of an edge that is not Idle, as `marks` has it.
fn mark_of(alloc: Global, history: &History, edge: u32) -> Result<Vec<u8>, AllocError>
    ensures { IfOk result (λ text. text.items ≡ mark_at history.now.timeline edge) }
{
    let one = only_one(alloc, history.cells(), Cell::Mark(edge))?;
    marks_text(alloc, history.graph(), &one)
}

/// `marks` and `marks OUT`: how far edges have come, and what is held, or how far one edge has come.
pub(crate) fn marks(
    alloc: Global,
    history: &History,
    out: Option<&Name>,
) -> Result<Answer, AllocError>
    ensures { IfOk result (λ answer. IsMarks history.now.timeline (option_copied out.entry) answer) }
{
    let Some(out) = out else {
        let text = marks_text(alloc, history.graph(), history.cells())?;
        return Ok(Answer::Lines(text));
    };
    let Some(edge) = history.graph().producer(out) else {
        return Ok(Answer::NoOutput(out.copy()?));
    };
    Ok(Answer::Lines(mark_of(alloc, history, edge)?))
}

/// `kept`: the kept events.
pub(crate) fn kept(alloc: Global, history: &History) -> Result<Answer, AllocError>
    ensures { IfOk result (λ answer. IsKept history.now.timeline answer) }
{
    Ok(Answer::Kept(Vec::from_slice(alloc, history.kept())?))
}

/// `order EVENT..`: whether these events, run in this order from the opening, make the same build.
pub(crate) fn order(alloc: Global, desk: &Desk, names: &[EventName]) -> Result<Answer, AllocError>
    ensures { IfOk result (λ answer. OfEvents desk.now names.now
        (λ numbers. IsOrderOf desk.now.history numbers answer) answer) }
{
    match named_events(alloc, desk, names)? {
        Ok(numbers) => Ok(Answer::Order(run_in_order(desk.history(), &numbers)?)),
        Err(answer) => Ok(answer),
    }
}
