//! What the logs have.
ghost use Rattle.std.specs.Prelude.{◌≡◌, ◌++◌, map, IfOk, OnOk};
ghost use Rattle.std.specs.List.{flat_map};
ghost use Rattle.rev_fields.specs.Fields.{field_text, spaced};
ghost use Rattle.std.specs.Option.{option_copied};
ghost use Rattle.rev_cells.specs.State.{built_in, deps_in, value_at};
ghost use Rattle.rev_listing.specs.Logs.{built_text, deps_text, log_text, logs_text};

use crate::nondefault_cells::{Kinds, cells_told};
use rev_cells::{BuiltRecord, Cell, Cells, DepsRecord, Value};
use rev_fields::{next_field, next_number, next_paths};
use rev_paths::Name;
use std::alloc::{AllocError, Global};

// The record of the build log that a cell holds.
fn built_at<'a>(cells: &'a Cells, cell: &Cell) -> Option<&'a BuiltRecord>
    ensures { option_copied result ≡ built_in (value_at cells.now.state cell.now) }
{
    match cells.get(cell) {
        Some(Value::Built(Some(built))) => Some(built),
        _ => None,
    }
}

// The record of the deps log that a cell holds.
fn deps_at<'a>(cells: &'a Cells, cell: &Cell) -> Option<&'a DepsRecord>
    ensures { option_copied result ≡ deps_in (value_at cells.now.state cell.now) }
{
    match cells.get(cell) {
        Some(Value::Deps(Some(deps))) => Some(deps),
        _ => None,
    }
}

// Adds `built PATH N COMMAND`, if there is such a record.
fn push_built(
    text: &mut Vec<u8>,
    path: &Name,
    built: Option<&BuiltRecord>,
) -> Result<(), AllocError>
    ensures { OnOk result (text.new.items
        ≡ text.old.items ++ built_text path.now (option_copied built.entry)) }
{
    let Some(built) = built else {
        return Ok(());
    };
    text.extend_from_slice(b"built")?;
    next_field(text, path.as_bytes())?;
    next_number(text, built.stamp)?;
    next_field(text, built.command.as_slice())?;
    text.extend_from_slice(b"\n")
}

// Adds the fields of paths, each with a space before it.
fn push_paths(text: &mut Vec<u8>, paths: &[Name]) -> Result<(), AllocError>
    ensures { OnOk result (text.new.items ≡ text.old.items ++ flat_map spaced (map field_text paths.now)) }
{
    next_paths(text, paths)
}

// Adds `deps PATH N PATH...`, if there is such a record.
fn push_deps(text: &mut Vec<u8>, path: &Name, deps: Option<&DepsRecord>) -> Result<(), AllocError>
    ensures { OnOk result (text.new.items
        ≡ text.old.items ++ deps_text path.now (option_copied deps.entry)) }
{
    let Some(deps) = deps else {
        return Ok(());
    };
    text.extend_from_slice(b"deps")?;
    next_field(text, path.as_bytes())?;
    next_number(text, deps.stamp)?;
    push_paths(text, deps.paths.as_slice())?;
    text.extend_from_slice(b"\n")
}

// Adds the line of a cell that is a record of a log.
fn push_cell(text: &mut Vec<u8>, cells: &Cells, cell: &Cell) -> Result<(), AllocError>
    ensures { OnOk result (text.new.items
        ≡ text.old.items ++ log_text cell.now (value_at cells.now.state cell.now)) }
{
    match cell {
        Cell::Built(path) => push_built(text, path, built_at(cells, cell)),
        Cell::Deps(path) => push_deps(text, path, deps_at(cells, cell)),
        Cell::Stamp(_) => Ok(()),
        Cell::Mark(_) => Ok(()),
        Cell::Job(_) => Ok(()),
        Cell::Slot(_, _) => Ok(()),
        Cell::Depth(_) => Ok(()),
        Cell::Halted => Ok(()),
    }
}

/// A line `built PATH N COMMAND` for each record of the build log, then `deps PATH N PATH...` for each of the deps log,
/// in byte order of the paths.
pub fn logs_text(alloc: Global, cells: &Cells) -> Result<Vec<u8>, AllocError>
    ensures { IfOk result (λ text. text.items ≡ logs_text cells.now.state) }
{
    let there = cells_told(alloc, cells, Kinds::Logs)?;
    let mut text = Vec::new(alloc);
    for (cell, _) in &there {
        push_cell(&mut text, cells, cell)?;
    }
    Ok(text)
}
