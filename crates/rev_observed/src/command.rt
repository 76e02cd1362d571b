//! What one command did.
ghost use Rattle.std.specs.Prelude.{◌≡◌, ◌<◌, true, nat_lt, length, ℕ, OnOk};
ghost use Rattle.std.specs.List.{list_all};
ghost use Rattle.rev_observed.specs.Kinds.{rank_of};
ghost use Rattle.rev_observed.specs.declared.command.Uses.{Uses};
ghost use Rattle.rev_observed.specs.Within.{RangesAreWithin, UsesAreWithin};
ghost use Rattle.rev_observed.specs.CommandValues.{AreUses, may_take, new_command, paths_of, with_outside, with_uses};

use crate::flags::Flags;
use crate::kind::Kind;
use crate::path_set::{PathRange, PathSet};
use rev_paths::Name;
use std::alloc::{AllocError, Global};
use std::marker::Model;

/// What a command did with some paths.
#[derive(Drop)]
pub struct Uses {
    /// What it did with each of them.
    pub kind: Kind,
    /// The paths.
    pub paths: PathSet,
}

/// What one command did with files.
pub struct Command {
    output: Name,
    flags: Flags,
    uses: Vec<Uses>,
    outside: Option<u64>,
}

impl Drop for Command {
    fn drop(self) {
        let Command {
            output: _output,
            flags: _flags,
            uses: _uses,
            outside: _outside,
        } = self;
    }
}

impl Model for Command {
    ghost use Rattle.rev_observed.specs.CommandValues.{CommandValue};

    ghost Value = { CommandValue };

    ghost use Rattle.rev_observed.specs.CommandValues.{AreUses};

    ghost view = { λ c. record { output = c.output; flags = c.flags; uses = c.uses.items; outside = c.outside } };

    ghost invariant = { λ c. AreUses c.uses.items };
}

impl Command {
    /// A command that has done nothing yet.
    pub(crate) fn new(alloc: Global, output: Name, flags: Flags) -> Command
        ensures { result ≡ new_command output flags }
    {
        Command {
            output,
            flags,
            uses: Vec::new(alloc),
            outside: None,
        }
    }

    /// Whether a line of this kind may stand after the command's lines.
    pub(crate) fn may_take(&self, kind: Kind) -> bool
        ensures { result ≡ may_take kind self.now }
    {
        self.outside.is_none() && are_below(&self.uses, kind)
    }

    /// Notes what the command did, which none of its lines says yet.
    pub(crate) fn put_uses(&mut self, kind: Kind, paths: PathSet) -> Result<(), AllocError>
        requires turn { may_take kind self.old ≡ true }
        requires some { 0 < length paths }
        ensures ok { OnOk result (self.new ≡ with_uses self.old kind paths) }
        ensures output { self.new.output ≡ self.old.output }
        ensures within { (n : ℕ) → RangesAreWithin n paths → UsesAreWithin n self.old.uses
            → UsesAreWithin n self.new.uses }
    {
        self.uses.push(Uses { kind, paths })?;
        Ok(())
    }

    /// Notes how many places are not named.
    pub(crate) fn put_outside(&mut self, count: u64)
        ensures { self.new ≡ with_outside self.old count }
    {
        self.outside = Some(count);
    }

    /// The first output of the command's edge.
    pub fn output(&self) -> &Name
        ensures { result.now ≡ self.now.output }
    {
        &self.output
    }

    /// Why the command was not observed whole.
    pub fn flags(&self) -> Flags
        ensures { result ≡ self.now.flags }
    {
        self.flags
    }

    /// What the command did, at most once for each kind, in the order of the kinds. Each has a path at least.
    pub fn uses(&self) -> &[Uses]
        ensures same { result.now ≡ self.now.uses }
        ensures sound { AreUses self.now.uses }
    {
        self.uses.as_slice()
    }

    /// The numbers of the paths with which the command did this, as ranges that rise.
    pub fn paths(&self, kind: Kind) -> &[PathRange]
        ensures { result.now ≡ paths_of kind self.now.uses }
    {
        for uses in &self.uses {
            if uses.kind == kind {
                return uses.paths.ranges();
            }
        }
        &[]
    }

    /// How many more places the command had to do with that are not named, where a line says so.
    pub fn outside(&self) -> Option<u64>
        ensures { result ≡ self.now.outside }
    {
        self.outside
    }
}

// Whether the kinds of all uses stand before this one.
fn are_below(uses: &[Uses], kind: Kind) -> bool
    ensures { result ≡ list_all (λ (u : Uses). nat_lt (rank_of u.kind) (rank_of kind)) uses.now }
{
    uses.iter().all(|uses| uses.kind.rank() < kind.rank())
}
