//! The cells of a state that a listing tells, in order.
ghost use Rattle.std.specs.Prelude.{◌≡◌, ◌&&◌, IfOk, map, not};
ghost use Rattle.rev_cells.specs.State.{value_at};
ghost use Rattle.rev_cells.specs.Values.{is_default, is_idle};
ghost use Rattle.rev_listing.specs.Listing.{cells_told, is_of, is_there, is_told};

use rev_cells::{Cell, Cells, Mark, Value};
use std::alloc::{AllocError, Global};
use std::collections::BTreeMap;

/// What a listing tells.
#[derive(Clone, Copy)]
pub(crate) enum Kinds {
    /// The stamps of files.
    Stamps,
    /// How far edges have come, what is held, and the depths that pools were given.
    Marks,
    /// What the build log and the deps log have.
    Logs,
}

// Whether a cell is of these kinds.
fn is_of(cell: &Cell, kinds: Kinds) -> bool
    ensures { result ≡ is_of kinds cell.now }
{
    match kinds {
        Kinds::Stamps => matches!(cell, Cell::Stamp(_)),
        Kinds::Marks => matches!(
            cell,
            Cell::Mark(_) | Cell::Job(_) | Cell::Slot(_, _) | Cell::Depth(_) | Cell::Halted
        ),
        Kinds::Logs => matches!(cell, Cell::Built(_) | Cell::Deps(_)),
    }
}

// Whether a mark is that of an edge for which nothing is planned.
fn is_idle(mark: &Mark) -> bool
    ensures { result ≡ is_idle mark.now }
{
    match mark {
        Mark::Idle => true,
        Mark::Wanted => false,
        Mark::Through => false,
        Mark::Running { .. } => false,
        Mark::Done(_) => false,
        Mark::Clean => false,
        Mark::Failed => false,
        Mark::Stopped => false,
    }
}

// Whether a value is the default of its kind.
fn is_default(value: &Value) -> bool
    ensures { result ≡ is_default value.now }
{
    match value {
        Value::Stamp(stamp) => *stamp == 0,
        Value::Mark(mark) => is_idle(mark),
        Value::Job(holder) => holder.is_none(),
        Value::Slot(holder) => holder.is_none(),
        Value::Depth(depth) => depth.is_none(),
        Value::Built(built) => built.is_none(),
        Value::Deps(deps) => deps.is_none(),
        Value::Halted(halted) => !*halted,
    }
}

// Whether a cell is not at its default.
fn is_there(cells: &Cells, cell: &Cell) -> bool
    ensures { result ≡ is_there cells.now.state cell.now }
{
    match cells.get(cell) {
        None => false,
        Some(value) => !is_default(value),
    }
}

// Whether a cell is of these kinds and not at its default.
fn is_told(cells: &Cells, cell: &Cell, kinds: Kinds) -> bool
    ensures { result ≡ is_told kinds cells.now.state cell.now }
{
    is_of(cell, kinds) && is_there(cells, cell)
}

/// The cells of these kinds that are not at their default, in their order. No other cells are sorted.
pub(crate) fn cells_told(
    alloc: Global,
    cells: &Cells,
    kinds: Kinds,
) -> Result<Vec<(Cell, ())>, AllocError>
    ensures { IfOk result (λ there. map (λ e. e.0) there.items ≡ cells_told kinds cells.now.state) }
{
    let mut there = BTreeMap::new(alloc);
    let mut place = 0;
    while let Some(cell) = cells.place(place) {
        if is_told(cells, cell, kinds) {
            there.insert(cell.copy()?, ())?;
        }
        place += 1;
    }
    there.into_iter().collect(alloc)
}
