//! The records that a session opens with.
ghost use Rattle.std.specs.Prelude.{◌≡◌, ◌↔◌, ◌<◌, true, Contains, IfOk, IsTrue, OnOk, OnErr, IsErrOf, ◌⊎◌, ◌≢◌, Err, Some};
ghost use Rattle.rev_cells.specs.declared.cell.Cell.TheVariants as cell;
ghost use Rattle.rev_cells.specs.declared.value.Value.TheVariants as value;
ghost use Rattle.rev_cells.specs.Alike.{IsSameOpening};
ghost use Rattle.rev_cells.specs.Opened.{IsOpened, IsOpening, is_of_record};
ghost use Rattle.rev_cells.specs.Table.{no_records, opened, with_record};
ghost use Rattle.rev_cells.specs.Values.{Fits};

use crate::cell::Cell;
use crate::cells::Cells;
use crate::fault::OpeningFault;
use crate::lists::{Names, Text};
use crate::value::{BuiltRecord, DepsRecord, Value};
use rev_paths::Name;
use std::alloc::{AllocError, Global};
use std::marker::Model;

/// The number of jobs, and the records that were given: stamps, and what the logs of builds say. Each record has a
/// place, in the order in which they were given. Nothing is marked, and no job is held.
pub struct Opening {
    cells: Cells,
}

// Written, since a derived drop is proved again at each exit of each caller.
impl Drop for Opening {
    fn drop(self) {
        let Opening { cells: _cells } = self;
    }
}

impl Model for Opening {
    ghost use Rattle.rev_cells.specs.Table.{Records, records_code};

    ghost Value = { Records };

    ghost coded = { records_code };

    ghost use Rattle.rev_cells.specs.Opened.{records_of, IsOpening};

    ghost view = { records_of };

    ghost invariant = { λ a. IsOpening (records_of a) };
}

impl Opening {
    /// The most jobs.
    pub const MAX_JOBS: u32 = 1024;

    /// An opening with no records. The number of jobs is from 1 to 1,024. It takes no memory.
    pub fn new(alloc: Global, jobs: u32) -> Result<Opening, OpeningFault>
        ensures ok { IfOk result (λ opening. opening ≡ no_records jobs) }
        ensures bad_jobs { IsErrOf result OpeningFault.BadJobs ↔ ((jobs ≡ 0) ⊎ (Self.MAX_JOBS < jobs)) }
        ensures only { OnErr result (IsErrOf result OpeningFault.BadJobs) }
    {
        if jobs == 0 || jobs > Self::MAX_JOBS {
            return Err(OpeningFault::BadJobs);
        }
        Ok(Opening {
            cells: Cells::with_jobs(alloc, jobs),
        })
    }

    /// How many jobs there are.
    pub fn jobs(&self) -> u32
        ensures jobs { result ≡ self.now.jobs }
        ensures opening { IsOpening self.now }
        ensures opened { IsOpened self.now.state }
    {
        self.cells.jobs()
    }

    /// Gives the opening another number of jobs, from 1 to 1,024. It takes no memory.
    pub fn set_jobs(&mut self, jobs: u32) -> Result<(), OpeningFault>
        ensures ok { OnOk result (self.new ≡ record self.old { jobs = jobs }) }
        ensures bad_jobs { IsErrOf result OpeningFault.BadJobs ↔ ((jobs ≡ 0) ⊎ (Self.MAX_JOBS < jobs)) }
        ensures only { OnErr result (IsErrOf result OpeningFault.BadJobs) }
        ensures err { OnErr result (self.new ≡ self.old) }
    {
        if jobs > Self::MAX_JOBS || jobs == 0 {
            return Err(OpeningFault::BadJobs);
        }
        self.cells.set_jobs(jobs);
        Ok(())
    }

    /// Adds the record of a path's stamp, which is 0 where the file is missing. A path is given at most one,
    /// also where it is 0.
    pub fn add_stamp(&mut self, path: Name, stamp: u64) -> Result<(), OpeningFault>
        ensures ok { OnOk result (self.new ≡ with_record self.old (cell.Stamp path) (value.Stamp stamp)) }
        ensures double { IsErrOf result OpeningFault.DoubleRecord ↔ Contains self.old.places (cell.Stamp path) }
        ensures no_jobs { result ≢ Err OpeningFault.BadJobs }
        ensures err { OnErr result (self.new ≡ self.old) }
    {
        self.add(Cell::Stamp(path), Value::Stamp(stamp))
    }

    /// Adds the build log's record of a path: the stamp that it was given and the command that made it. A path is
    /// given at most one.
    pub fn add_built(
        &mut self,
        path: Name,
        stamp: u64,
        command: Vec<u8>,
    ) -> Result<(), OpeningFault>
        ensures ok { OnOk result (self.new
            ≡ with_record self.old (cell.Built path)
            (value.Built (Some (record { command = command.items; stamp = stamp })))) }
        ensures double { IsErrOf result OpeningFault.DoubleRecord ↔ Contains self.old.places (cell.Built path) }
        ensures no_jobs { result ≢ Err OpeningFault.BadJobs }
        ensures err { OnErr result (self.new ≡ self.old) }
    {
        let record = Cell::Built(path);
        if self.cells.has(&record) {
            return Err(OpeningFault::DoubleRecord);
        }
        let command = Text::new(command)?;
        self.add(record, Value::Built(Some(BuiltRecord { command, stamp })))
    }

    /// The same of a record whose text is there already: it takes no memory for that.
    pub fn add_built_record(&mut self, path: Name, built: BuiltRecord) -> Result<(), OpeningFault>
        ensures ok { OnOk result (self.new ≡ with_record self.old (cell.Built path) (value.Built (Some built))) }
        ensures double { IsErrOf result OpeningFault.DoubleRecord ↔ Contains self.old.places (cell.Built path) }
        ensures no_jobs { result ≢ Err OpeningFault.BadJobs }
        ensures err { OnErr result (self.new ≡ self.old) }
    {
        self.add(Cell::Built(path), Value::Built(Some(built)))
    }

    /// Adds the deps log's record of a path: the stamp that it had and the prerequisites that were listed for it, in
    /// that order and with repeated ones. A path is given at most one.
    pub fn add_deps(
        &mut self,
        path: Name,
        stamp: u64,
        prerequisites: Vec<Name>,
    ) -> Result<(), OpeningFault>
        ensures ok { OnOk result (self.new
            ≡ with_record self.old (cell.Deps path)
            (value.Deps (Some (record { stamp = stamp; paths = prerequisites.items })))) }
        ensures double { IsErrOf result OpeningFault.DoubleRecord ↔ Contains self.old.places (cell.Deps path) }
        ensures no_jobs { result ≢ Err OpeningFault.BadJobs }
        ensures err { OnErr result (self.new ≡ self.old) }
    {
        let record = Cell::Deps(path);
        if self.cells.has(&record) {
            return Err(OpeningFault::DoubleRecord);
        }
        let paths = Names::new(prerequisites)?;
        self.add(record, Value::Deps(Some(DepsRecord { stamp, paths })))
    }

    /// The same of a record whose list is there already: it takes no memory for that.
    pub fn add_deps_record(&mut self, path: Name, deps: DepsRecord) -> Result<(), OpeningFault>
        ensures ok { OnOk result (self.new ≡ with_record self.old (cell.Deps path) (value.Deps (Some deps))) }
        ensures double { IsErrOf result OpeningFault.DoubleRecord ↔ Contains self.old.places (cell.Deps path) }
        ensures no_jobs { result ≢ Err OpeningFault.BadJobs }
        ensures err { OnErr result (self.new ≡ self.old) }
    {
        self.add(Cell::Deps(path), Value::Deps(Some(deps)))
    }

    /// An equal opening.
    pub fn copy(&self) -> Result<Opening, AllocError>
        ensures copy { IfOk result (λ copy. copy ≡ self.now) }
        ensures opening { IsOpening self.now }
    {
        Ok(Opening {
            cells: self.cells.copy()?,
        })
    }

    /// Whether another opening has as many jobs and gives the same state. It takes no memory, and time linear in the
    /// records up to hashing.
    pub fn same(&self, other: &Opening) -> bool
        ensures { IsTrue result ↔ IsSameOpening self.now other.now }
    {
        self.cells.jobs() == other.cells.jobs() && self.cells.same_state(&other.cells)
    }

    // Adds a record of any kind.
    fn add(&mut self, cell: Cell, value: Value) -> Result<(), OpeningFault>
        requires of_record { is_of_record cell ≡ true }
        requires fits { Fits cell value }
        ensures ok { OnOk result (self.new ≡ with_record self.old cell value) }
        ensures double { IsErrOf result OpeningFault.DoubleRecord ↔ Contains self.old.places cell }
        ensures no_jobs { result ≢ Err OpeningFault.BadJobs }
        ensures err { OnErr result (self.new ≡ self.old) }
    {
        if self.cells.has(&cell) {
            return Err(OpeningFault::DoubleRecord);
        }
        self.cells.reserve(&cell)?;
        self.cells.swap(&cell, value);
        Ok(())
    }

    // The cells that the opening has.
    pub(crate) fn cells(&self) -> &Cells
        ensures { opened self.now ≡ record result.now { writes = 0 } }
    {
        &self.cells
    }
}
