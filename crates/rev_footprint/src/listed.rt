//! The cells of a footprint in one list: first those that are written, then those that are only read.
ghost use Rattle.std.specs.Prelude.{◌≡◌, ◌++◌, IfOk, OnOk, length, take};
ghost use Rattle.std.specs.List.{IsDistinct};
ghost use Rattle.std.specs.Ordering.{eq_by_cmp};
ghost use Rattle.rev_causal.specs.Store.{among};
ghost use Rattle.rev_cells.specs.Keys.{cell_cmp};
ghost use Rattle.rev_footprint.specs.Adds.{Adds};
ghost use Rattle.rev_footprint.specs.Listed.{others_than};

use indexmap::IndexSet;
use rev_cells::Cell;
use std::alloc::{AllocError, Global};

// The cells of a set, in their order.
fn collected(alloc: Global, cells: IndexSet<Cell>) -> Result<Vec<Cell>, AllocError>
    ensures { IfOk result (λ listed. listed.items ≡ cells.keys) }
{
    cells.into_iter().collect(alloc)
}

// The same, each once.
fn in_order(alloc: Global, cells: IndexSet<Cell>) -> Result<Vec<Cell>, AllocError>
    ensures same { IfOk result (λ listed. listed.items ≡ cells.keys) }
    ensures distinct { IfOk result (λ listed. IsDistinct (eq_by_cmp cell_cmp) listed.items) }
{
    // What it promises of every set is why no cell stands twice.
    let _cells = cells.len();
    let listed = collected(alloc, cells)?;
    Ok(listed)
}

/// Whether a cell is one of some.
pub(crate) fn is_among(cells: &[Cell], cell: &Cell) -> bool
    ensures { result ≡ among cell_cmp cells.now cell.now }
{
    cells.contains(cell)
}

// Takes out those cells that are named.
fn leave_others(cells: &mut Vec<Cell>, named: &[Cell])
    ensures { cells.new.items ≡ others_than named.now cells.old.items }
{
    cells.retain(|cell| !is_among(named, cell));
}

// Puts cells behind others, with room for these and no more.
fn put_behind(cells: &mut Vec<Cell>, more: Vec<Cell>) -> Result<(), AllocError>
    ensures { OnOk result (cells.new.items ≡ cells.old.items ++ more.items) }
{
    let mut more = more;
    cells.reserve_exact(more.len())?;
    cells.append(&mut more)?;
    Ok(())
}

/// Appends the cells of a set that are not among the written ones.
pub(crate) fn add_others(
    alloc: Global,
    written: &mut Vec<Cell>,
    read: IndexSet<Cell>,
) -> Result<(), AllocError>
    requires { IsDistinct (eq_by_cmp cell_cmp) written.old.items }
    ensures front { OnOk result (take (length written.old.items) written.new.items ≡ written.old.items) }
    ensures all { OnOk result (Adds written.old.items written.new.items read.keys) }
    ensures distinct { OnOk result (IsDistinct (eq_by_cmp cell_cmp) written.new.items) }
{
    let mut others = in_order(alloc, read)?;
    leave_others(&mut others, written);
    put_behind(written, others)?;
    Ok(())
}
