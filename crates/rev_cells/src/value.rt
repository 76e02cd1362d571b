//! What cells hold.
ghost use Rattle.std.specs.Prelude.{◌≡◌, IfOk};

use crate::lists::{Names, Text};
use crate::mark::Mark;
use std::alloc::AllocError;

/// What the build log has of an output.
#[derive(Debug, PartialEq, Eq)]
pub struct BuiltRecord {
    /// The command that made it.
    pub command: Text,
    /// The stamp that it was given then.
    pub stamp: u64,
}

// Written, since a derived drop is proved again at each exit of each caller.
impl Drop for BuiltRecord {
    fn drop(self) {
        let BuiltRecord {
            command: _command,
            stamp: _stamp,
        } = self;
    }
}

impl BuiltRecord {
    /// An equal record.
    pub fn copy(&self) -> Result<BuiltRecord, AllocError>
        ensures { IfOk result (λ copy. copy ≡ self.now) }
    {
        self.clone()
    }
}

impl Clone for BuiltRecord {
    ghost is_clone = { λ built copy. copy ≡ built };

    fn clone(&self) -> Result<BuiltRecord, AllocError> {
        Ok(BuiltRecord {
            command: self.command.copy()?,
            stamp: self.stamp,
        })
    }
}

/// What the deps log has of an output.
#[derive(Debug, PartialEq, Eq)]
pub struct DepsRecord {
    /// The stamp that the output had when its prerequisites were listed.
    pub stamp: u64,
    /// The prerequisites as they were listed, repeated ones too.
    pub paths: Names,
}

// Written, since a derived drop is proved again at each exit of each caller.
impl Drop for DepsRecord {
    fn drop(self) {
        let DepsRecord {
            stamp: _stamp,
            paths: _paths,
        } = self;
    }
}

impl DepsRecord {
    /// An equal record.
    pub fn copy(&self) -> Result<DepsRecord, AllocError>
        ensures { IfOk result (λ copy. copy ≡ self.now) }
    {
        self.clone()
    }
}

impl Clone for DepsRecord {
    ghost is_clone = { λ deps copy. copy ≡ deps };

    fn clone(&self) -> Result<DepsRecord, AllocError> {
        Ok(DepsRecord {
            stamp: self.stamp,
            paths: self.paths.copy()?,
        })
    }
}

/// What a cell holds.
#[derive(Debug, PartialEq, Eq)]
pub enum Value {
    /// The time at which a file was last changed, 0 where it is missing.
    Stamp(u64),
    /// How far an edge has come.
    Mark(Mark),
    /// The edge whose command a job runs.
    Job(Option<u32>),
    /// The edge that has a place in a pool.
    Slot(Option<u32>),
    /// The depth that a pool was given, none where it is as in the manifest.
    Depth(Option<u32>),
    /// What the build log has of an output.
    Built(Option<BuiltRecord>),
    /// What the deps log has of an output.
    Deps(Option<DepsRecord>),
    /// Whether the build was interrupted.
    Halted(bool),
}

// Written, since a derived drop is proved again at each exit of each caller.
impl Drop for Value {
    fn drop(self) {
        match self {
            Value::Stamp(_part) => {}
            Value::Mark(_part) => {}
            Value::Job(_part) => {}
            Value::Slot(_part) => {}
            Value::Depth(_part) => {}
            Value::Built(_part) => {}
            Value::Deps(_part) => {}
            Value::Halted(_part) => {}
        }
    }
}

impl Value {
    /// An equal value.
    pub fn copy(&self) -> Result<Value, AllocError>
        ensures { IfOk result (λ copy. copy ≡ self.now) }
    {
        self.clone()
    }
}

impl Clone for Value {
    ghost is_clone = { λ value copy. copy ≡ value };

    fn clone(&self) -> Result<Value, AllocError> {
        match self {
            Value::Stamp(stamp) => Ok(Value::Stamp(*stamp)),
            Value::Mark(mark) => Ok(Value::Mark(mark.copy()?)),
            Value::Job(holder) => Ok(Value::Job(*holder)),
            Value::Slot(holder) => Ok(Value::Slot(*holder)),
            Value::Depth(depth) => Ok(Value::Depth(*depth)),
            Value::Built(None) => Ok(Value::Built(None)),
            Value::Built(Some(built)) => Ok(Value::Built(Some(built.copy()?))),
            Value::Deps(None) => Ok(Value::Deps(None)),
            Value::Deps(Some(deps)) => Ok(Value::Deps(Some(deps.copy()?))),
            Value::Halted(halted) => Ok(Value::Halted(*halted)),
        }
    }
}
