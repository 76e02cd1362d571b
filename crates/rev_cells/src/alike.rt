//! Whether cells hold the same.
ghost use Rattle.std.specs.Prelude.{◌≡◌};
ghost use Rattle.std.specs.Option.{option_copied};
ghost use Rattle.std.specs.Map.{keys_of};
ghost use Rattle.rev_cells.specs.Alike.{same_at as same_at_all, same_entries as same_entries_in, same_held as same_held_in};
ghost use Rattle.rev_cells.specs.Values.{is_default as is_default_value};

use crate::cell::Cell;
use crate::mark::Mark;
use crate::value::Value;
use indexmap::IndexMap;

// Whether a value is the default of its kind.
fn is_default(value: &Value) -> bool
    ensures { result ≡ is_default_value value.now }
{
    match value {
        Value::Stamp(stamp) => *stamp == 0,
        Value::Mark(mark) => matches!(mark, Mark::Idle),
        Value::Job(holder) | Value::Slot(holder) => holder.is_none(),
        Value::Depth(depth) => depth.is_none(),
        Value::Built(built) => built.is_none(),
        Value::Deps(deps) => deps.is_none(),
        Value::Halted(halted) => !*halted,
    }
}

// Whether what two entries of one cell hold is the same, where none holds the default.
fn same_held(value: Option<&Value>, other: Option<&Value>) -> bool
    ensures { result ≡ same_held_in (option_copied value.entry) (option_copied other.entry) }
{
    match (value, other) {
        (None, None) => true,
        (None, Some(other)) => is_default(other),
        (Some(value), None) => is_default(value),
        (Some(value), Some(other)) => *value == *other,
    }
}

// Whether the cells of some entries hold the same in two others.
fn same_at(
    cells: &IndexMap<Cell, Value>,
    entries: &IndexMap<Cell, Value>,
    others: &IndexMap<Cell, Value>,
) -> bool
    ensures { result ≡ same_at_all (keys_of cells.now.entries) entries.now.entries others.now.entries }
{
    for cell in cells.keys() {
        if !same_held(entries.get(cell), others.get(cell)) {
            return false;
        }
    }
    true
}

/// Whether each cell holds the same by two lists of entries.
pub(crate) fn same_entries(entries: &IndexMap<Cell, Value>, others: &IndexMap<Cell, Value>) -> bool
    ensures { result ≡ same_entries_in entries.now.entries others.now.entries }
{
    same_at(entries, entries, others) && same_at(others, entries, others)
}
