//! The files that are not missing.
ghost use Rattle.std.specs.Prelude.{◌≡◌, ◌++◌, IfOk, OnOk, map};
ghost use Rattle.rev_cells.specs.State.{stamp_in, value_at};
ghost use Rattle.rev_listing.specs.Listing.{told};
ghost use Rattle.rev_listing.specs.Stamps.{stamp_text, stamps_text};

use crate::nondefault_cells::{Kinds, cells_told};
use rev_cells::{Cell, Cells, Value};
use rev_fields::{next_field, next_number};
use std::alloc::{AllocError, Global};

// The stamp that a value is, 0 where it is of another kind.
fn stamp_in(value: &Value) -> u64
    ensures { result ≡ stamp_in value.now }
{
    match value {
        Value::Stamp(stamp) => *stamp,
        Value::Mark(_) => 0,
        Value::Job(_) => 0,
        Value::Slot(_) => 0,
        Value::Depth(_) => 0,
        Value::Built(_) => 0,
        Value::Deps(_) => 0,
        Value::Halted(_) => 0,
    }
}

// The stamp that a cell holds, 0 where it is of another kind.
fn stamp_at(cells: &Cells, cell: &Cell) -> u64
    ensures { result ≡ stamp_in (value_at cells.now.state cell.now) }
{
    match cells.get(cell) {
        None => 0,
        Some(value) => stamp_in(value),
    }
}

// Adds the line of a cell that is a file's stamp.
fn push_cell(text: &mut Vec<u8>, cells: &Cells, cell: &Cell) -> Result<(), AllocError>
    ensures { OnOk result (text.new.items
        ≡ text.old.items ++ stamp_text cell.now (value_at cells.now.state cell.now)) }
{
    let Cell::Stamp(path) = cell else {
        return Ok(());
    };
    let stamp = stamp_at(cells, cell);
    text.extend_from_slice(b"stamp")?;
    next_field(text, path.as_bytes())?;
    next_number(text, stamp)?;
    text.extend_from_slice(b"\n")
}

/// A line `stamp PATH N` for each file that is not missing, in byte order of the paths.
pub fn stamps_text(alloc: Global, cells: &Cells) -> Result<Vec<u8>, AllocError>
    ensures { IfOk result (λ text. text.items ≡ stamps_text cells.now.state) }
{
    let there = cells_told(alloc, cells, Kinds::Stamps)?;
    let mut text = Vec::new(alloc);
    for (cell, _) in &there {
        push_cell(&mut text, cells, cell)?;
    }
    Ok(text)
}
