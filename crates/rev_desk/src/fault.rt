//! Why a desk was not made, and why a command made no entry.
ghost use Rattle.std.specs.Prelude.{◌≡◌};
ghost use Rattle.rev_desk.specs.declared.fault.DeskFault.TheVariants.{Memory};
ghost use Rattle.rev_desk.specs.Fault.{code_of, why_code};

use rev_commands::Command;
use std::alloc::AllocError;

/// Why a desk was not made.
#[derive(Clone, Copy, Debug, PartialEq, Eq)]
pub enum DeskFault {
    /// An allocation failed.
    Memory,
    /// The number of lanes is not from 1 to 64.
    BadLanes,
}

impl DeskFault {
    /// The number of the fault. `Memory` has none.
    pub fn code(self) -> Option<u16>
        ensures { result ≡ code_of self }
    {
        match self {
            DeskFault::Memory => None,
            DeskFault::BadLanes => Some(91),
        }
    }
}

impl From<AllocError> for DeskFault {
    ghost from_gives = { λ _ fault. fault ≡ Memory };

    fn from(_e: AllocError) -> DeskFault {
        DeskFault::Memory
    }
}

/// What kept a command from an entry.
#[derive(Clone, Copy, Debug, PartialEq, Eq)]
pub enum Why {
    /// An allocation failed.
    Memory,
    /// The journal has as many entries as it may have.
    JournalFull,
}

impl Why {
    /// Its number. `Memory` has none.
    pub fn code(self) -> Option<u16>
        ensures { result ≡ why_code self }
    {
        match self {
            Why::Memory => None,
            Why::JournalFull => Some(94),
        }
    }
}

/// A command that made no entry, and changed nothing.
#[derive(Debug)]
pub struct Unsaid {
    /// What kept it from an entry.
    pub why: Why,
    /// The command, given back.
    pub command: Command,
}

impl Unsaid {
    /// The command, to be said again or elsewhere.
    pub fn into_command(self) -> Command
        ensures { result ≡ self.command }
    {
        let Unsaid { why: _why, command } = self;
        command
    }
}

impl Drop for Unsaid {
    fn drop(self) {
        let Unsaid {
            why: _why,
            command: _command,
        } = self;
    }
}
