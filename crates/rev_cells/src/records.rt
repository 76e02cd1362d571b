//! What cells hold of a path: its stamp and what the build log and the deps log say of it.
ghost use Rattle.std.specs.Prelude.{◌≡◌};
ghost use Rattle.std.specs.Option.{option_copied};
ghost use Rattle.rev_cells.specs.State.{stamp_of, built_of, deps_of};

use crate::asked::Asked;
use crate::cells::Cells;
use crate::value::{BuiltRecord, DepsRecord, Value};
use rev_paths::Name;

/// The stamp of a path, 0 where the file is missing.
pub fn stamp(cells: &Cells, path: &Name) -> u64
    ensures { result ≡ stamp_of cells.now.state path.now }
{
    match cells.find(Asked::Stamp(path)) {
        Some(Value::Stamp(stamp)) => *stamp,
        _ => 0,
    }
}

/// The build log's record of a path, if it has one.
pub fn built<'a>(cells: &'a Cells, path: &Name) -> Option<&'a BuiltRecord>
    ensures { option_copied result ≡ built_of cells.now.state path.now }
{
    match cells.find(Asked::Built(path)) {
        Some(Value::Built(Some(built))) => Some(built),
        _ => None,
    }
}

/// The deps log's record of a path, if it has one.
pub fn deps<'a>(cells: &'a Cells, path: &Name) -> Option<&'a DepsRecord>
    ensures { option_copied result ≡ deps_of cells.now.state path.now }
{
    match cells.find(Asked::Deps(path)) {
        Some(Value::Deps(Some(deps))) => Some(deps),
        _ => None,
    }
}
