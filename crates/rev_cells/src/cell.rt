//! Cells.
ghost use Rattle.std.specs.Prelude.{◌≡◌, IfOk};
ghost use Rattle.rev_cells.specs.Values.{default_of};

use crate::mark::Mark;
use crate::value::Value;
use rev_paths::Name;
use std::alloc::AllocError;

/// One place of a build's state. Its kind says which kind of value it holds.
#[derive(Debug, PartialEq, Eq, PartialOrd, Ord, Hash)]
pub enum Cell {
    /// The stamp of a file, which is at first 0: the file is missing.
    Stamp(Name),
    /// The mark of an edge, which is at first Idle.
    Mark(u32),
    /// The edge whose command a job runs, at first none.
    Job(u32),
    /// The edge that has a place in a pool, by the pool's number and the place, at first none.
    Slot(u32, u32),
    /// The depth that a pool was given, by the pool's number, at first none: then it is as in the manifest.
    Depth(u32),
    /// The build log's record of an output, at first none.
    Built(Name),
    /// The deps log's record of an output, at first none.
    Deps(Name),
    /// Whether the build was interrupted, at first not.
    Halted,
}

// Written, since a derived drop is proved again at each exit of each caller.
impl Drop for Cell {
    fn drop(self) {
        match self {
            Cell::Stamp(_part) => {}
            Cell::Mark(_part) => {}
            Cell::Job(_part) => {}
            Cell::Slot(_part0, _part1) => {}
            Cell::Depth(_part) => {}
            Cell::Built(_part) => {}
            Cell::Deps(_part) => {}
            Cell::Halted => {}
        }
    }
}

impl Cell {
    /// What the cell holds as long as nothing was written to it.
    pub fn default_value(&self) -> Value
        ensures { result ≡ default_of self.now }
    {
        match self {
            Cell::Stamp(_) => Value::Stamp(0),
            Cell::Mark(_) => Value::Mark(Mark::Idle),
            Cell::Job(_) => Value::Job(None),
            Cell::Slot(_, _) => Value::Slot(None),
            Cell::Depth(_) => Value::Depth(None),
            Cell::Built(_) => Value::Built(None),
            Cell::Deps(_) => Value::Deps(None),
            Cell::Halted => Value::Halted(false),
        }
    }

    /// An equal cell.
    pub fn copy(&self) -> Result<Cell, AllocError>
        ensures { IfOk result (λ copy. copy ≡ self.now) }
    {
        self.clone()
    }
}

impl Clone for Cell {
    ghost is_clone = { λ cell copy. copy ≡ cell };

    fn clone(&self) -> Result<Cell, AllocError> {
        match self {
            Cell::Stamp(path) => Ok(Cell::Stamp(path.copy()?)),
            Cell::Mark(edge) => Ok(Cell::Mark(*edge)),
            Cell::Job(job) => Ok(Cell::Job(*job)),
            Cell::Slot(pool, place) => Ok(Cell::Slot(*pool, *place)),
            Cell::Depth(pool) => Ok(Cell::Depth(*pool)),
            Cell::Built(path) => Ok(Cell::Built(path.copy()?)),
            Cell::Deps(path) => Ok(Cell::Deps(path.copy()?)),
            Cell::Halted => Ok(Cell::Halted),
        }
    }
}
