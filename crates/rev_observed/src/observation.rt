//! What the commands of a build did.
ghost use Rattle.std.specs.Prelude.{◌≡◌, ◌<◌, [], ℕ, Some, true, bytes_eq, length, OnOk};
ghost use Rattle.std.specs.List.{IsDistinct};
ghost use Rattle.std.specs.Option.{option_copied};
ghost use Rattle.rev_observed.specs.CommandValues.{CommandValue, may_take, with_outside, with_uses};
ghost use Rattle.rev_observed.specs.Faults.{Answers};
ghost use Rattle.rev_observed.specs.Observations.{command_put, commands_put, last_of, nothing_by, outputs_of, path_put, with_commands, with_last};
ghost use Rattle.rev_observed.specs.Within.{AreWithin, RangesAreWithin};

use crate::command::Command;
use crate::faults::{FaultKind, LineFault};
use crate::flags::Flags;
use crate::kind::Kind;
use crate::path_set::PathSet;
use rev_paths::{Name, Paths};
use std::alloc::{AllocError, Global};
use std::marker::Model;

// A second line for a path, or for an edge.
const DOUBLE: LineFault = LineFault::Kind(FaultKind::Double);

/// What the commands of a build did with files.
pub struct Observation {
    by: Vec<u8>,
    paths: Paths,
    // The first output of each command, in their order: so a command is found by it.
    outputs: Paths,
    commands: Vec<Command>,
}

impl Drop for Observation {
    fn drop(self) {
        let Observation {
            by: _by,
            paths: _paths,
            outputs: _outputs,
            commands: _commands,
        } = self;
    }
}

impl Model for Observation {
    ghost use Rattle.std.specs.Prelude.{◌≡◌, length};
    ghost use Rattle.rev_observed.specs.Observations.{ObservationValue, outputs_of};
    ghost use Rattle.rev_observed.specs.Within.{AreWithin};

    ghost Value = { ObservationValue };

    ghost view = { λ o. record { by = o.by.items; paths = o.paths; commands = o.commands.items } };

    ghost invariant = { λ o. (o.outputs ≡ outputs_of o.commands.items) × AreWithin (length o.paths) o.commands.items };
}

impl Observation {
    /// No path and no command yet.
    pub(crate) fn new(alloc: Global, by: Vec<u8>) -> Observation
        ensures { result ≡ nothing_by by.items }
    {
        Observation {
            by,
            paths: Paths::new(alloc),
            outputs: Paths::new(alloc),
            commands: Vec::new(alloc),
        }
    }

    /// Gives a path the next number.
    pub(crate) fn put_path(&mut self, path: &Name) -> Result<(), LineFault>
        requires { self.old.commands ≡ [] }
        ensures { Answers result (λ _. self.new) (path_put self.old path.now) }
    {
        if self.paths.find(path).is_some() {
            return Err(DOUBLE);
        }
        self.paths.intern(path)?;
        Ok(())
    }

    /// Notes a command that comes next, by the first output of its edge.
    pub(crate) fn put_command(
        &mut self,
        alloc: Global,
        output: Name,
        flags: Flags,
    ) -> Result<(), LineFault>
        ensures { Answers result (λ _. self.new) (command_put self.old output flags) }
    {
        push_command(alloc, &mut self.outputs, &mut self.commands, output, flags)
    }

    /// The command that came last.
    pub(crate) fn last(&self) -> Option<&Command>
        ensures { option_copied result ≡ last_of self.now.commands }
    {
        self.commands.last()
    }

    /// Notes what the last command did, which none of its lines says yet.
    pub(crate) fn put_uses(&mut self, kind: Kind, paths: PathSet) -> Result<(), AllocError>
        requires there { 0 < length self.old.commands }
        requires turn { (c : CommandValue) → last_of self.old.commands ≡ Some c → may_take kind c ≡ true }
        requires some { 0 < length paths }
        requires within { RangesAreWithin (length self.old.paths) paths }
        ensures { (c : CommandValue) → last_of self.old.commands ≡ Some c
            → OnOk result (self.new ≡ with_commands self.old (with_last self.old.commands (with_uses c kind paths))) }
    {
        put_last_uses(&mut self.commands, kind, paths)
    }

    /// Notes how many places the last command had to do with that are not named.
    pub(crate) fn put_outside(&mut self, count: u64)
        requires { 0 < length self.old.commands }
        ensures { (c : CommandValue) → last_of self.old.commands ≡ Some c
            → self.new ≡ with_commands self.old (with_last self.old.commands (with_outside c count)) }
    {
        put_last_outside(&mut self.commands, count);
    }

    /// What observed, by its name: `strace-VERSION`, `ptrace`, or another.
    pub fn by(&self) -> &[u8]
        ensures { result.now ≡ self.now.by }
    {
        self.by.as_slice()
    }

    /// The paths that commands have to do with, each under its number. No path has two.
    pub fn paths(&self) -> &Paths
        ensures same { result.now ≡ self.now.paths }
        ensures distinct { IsDistinct bytes_eq self.now.paths }
    {
        let _count = self.paths.len();
        &self.paths
    }

    /// The commands, in the order of their starts. Each number of a path is below the count of paths, and no two commands
    /// have one output.
    pub fn commands(&self) -> &[Command]
        ensures same { result.now ≡ self.now.commands }
        ensures within { AreWithin (length self.now.paths) self.now.commands }
        ensures distinct { IsDistinct bytes_eq (outputs_of self.now.commands) }
    {
        let _count = self.outputs.len();
        self.commands.as_slice()
    }
}

// Adds a command whose output is not among those of the others.
fn push_command(
    alloc: Global,
    outputs: &mut Paths,
    commands: &mut Vec<Command>,
    output: Name,
    flags: Flags,
) -> Result<(), LineFault>
    requires { outputs.old ≡ outputs_of commands.old.items }
    ensures outputs { outputs.new ≡ outputs_of commands.new.items }
    ensures commands { Answers result (λ _. commands.new.items) (commands_put commands.old.items output flags) }
    ensures within { (n : ℕ) → AreWithin n commands.old.items → AreWithin n commands.new.items }
{
    if outputs.find(&output).is_some() {
        return Err(DOUBLE);
    }
    let name = output.copy()?;
    commands.push(Command::new(alloc, output, flags))?;
    match outputs.intern(&name) {
        Ok(_place) => Ok(()),
        Err(_refused) => {
            commands.pop();
            Err(LineFault::Memory)
        }
    }
}

// Notes what the last command did.
fn put_last_uses(commands: &mut Vec<Command>, kind: Kind, paths: PathSet) -> Result<(), AllocError>
    requires there { 0 < length commands.old.items }
    requires turn { (c : CommandValue) → last_of commands.old.items ≡ Some c → may_take kind c ≡ true }
    requires some { 0 < length paths }
    ensures ok { (c : CommandValue) → last_of commands.old.items ≡ Some c
        → OnOk result (commands.new.items ≡ with_last commands.old.items (with_uses c kind paths)) }
    ensures outputs { outputs_of commands.new.items ≡ outputs_of commands.old.items }
    ensures within { (n : ℕ) → RangesAreWithin n paths → AreWithin n commands.old.items
        → AreWithin n commands.new.items }
{
    let place = commands.len() - 1;
    let last = &mut commands[place];
    last.put_uses(kind, paths)
}

// Notes how many places the last command had to do with that are not named.
fn put_last_outside(commands: &mut Vec<Command>, count: u64)
    requires { 0 < length commands.old.items }
    ensures ok { (c : CommandValue) → last_of commands.old.items ≡ Some c
        → commands.new.items ≡ with_last commands.old.items (with_outside c count) }
    ensures outputs { outputs_of commands.new.items ≡ outputs_of commands.old.items }
    ensures within { (n : ℕ) → AreWithin n commands.old.items → AreWithin n commands.new.items }
{
    let place = commands.len() - 1;
    let last = &mut commands[place];
    last.put_outside(count);
}
