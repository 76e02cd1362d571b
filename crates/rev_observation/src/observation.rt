//! What the commands of a build saw and changed.
ghost use Rattle.std.specs.Prelude.{◌≡◌, ◌<◌, [], ◌∷◌, ◌++◌, ℕ, Some, None, true, false, bytes_eq, length, slice_get, OnOk, OnErr};
ghost use Rattle.std.specs.List.{IsDistinct};
ghost use Rattle.std.specs.Option.{option_copied};
ghost use Rattle.rev_observed.specs.Within.{RangesAreWithin};
ghost use Rattle.rev_observation.specs.Blocks.{AreWithin, CommandValue, LinesAreWithin, last_of, outputs_of, with_flag, with_last, with_line, with_outside};
ghost use Rattle.rev_observation.specs.Entries.{is_below};
ghost use Rattle.rev_observation.specs.Faults.{Answers};
ghost use Rattle.rev_observation.specs.Observations.{also_put, begins, command_put, commands_put, may_enter, may_name, may_open, nothing_by, path_put, settled, with_commands};

use crate::blocks::{Command, Line};
use crate::entries::{Entries, OtherNames};
use crate::faults::{DOUBLE, LineFault};
use crate::flag::Flag;
use crate::head::{Hidden, Observer};
use rev_observed::PathSet;
use rev_paths::{Name, Paths};
use std::alloc::{AllocError, Global};
use std::marker::Model;

/// What the commands of a build saw and changed, place by place.
pub struct Observation {
    by: Observer,
    entries: Entries,
    names: OtherNames,
    same: Vec<PathSet>,
    opening: Option<PathSet>,
    hidden: Vec<Hidden>,
    has_ninja: bool,
    ninja: Vec<Line>,
    // The first output of each command, in their order: so a command is found by it.
    outputs: Paths,
    commands: Vec<Command>,
    is_ended: bool,
    is_complete: bool,
}

impl Drop for Observation {
    fn drop(self) {
        let Observation {
            by: _by,
            entries: _entries,
            names: _names,
            same: _same,
            opening: _opening,
            hidden: _hidden,
            has_ninja: _has_ninja,
            ninja: _ninja,
            outputs: _outputs,
            commands: _commands,
            is_ended: _is_ended,
            is_complete: _is_complete,
        } = self;
    }
}

impl Model for Observation {
    ghost use Rattle.std.specs.Prelude.{◌≡◌, length};
    ghost use Rattle.rev_observation.specs.Blocks.{AreWithin, LinesAreWithin, outputs_of};
    ghost use Rattle.rev_observation.specs.Observations.{ObservationValue};

    ghost Value = { ObservationValue };

    ghost view = { λ o. record { by = o.by; entries = o.entries; names = o.names; same = o.same.items; opening = o.opening; hidden = o.hidden.items; has_ninja = o.has_ninja; ninja = o.ninja.items; commands = o.commands.items; is_ended = o.is_ended; is_complete = o.is_complete } };

    ghost invariant = { λ o. (o.outputs ≡ outputs_of o.commands.items) × AreWithin (length o.entries.paths) o.commands.items × LinesAreWithin (length o.entries.paths) o.ninja.items };
}

impl Observation {
    /// No entry and no command yet.
    pub(crate) fn new(alloc: Global, by: Observer) -> Observation
        ensures { result ≡ nothing_by by }
    {
        Observation {
            by,
            entries: Entries::new(alloc),
            names: OtherNames::new(alloc),
            same: Vec::new(alloc),
            opening: None,
            hidden: Vec::new(alloc),
            has_ninja: false,
            ninja: Vec::new(alloc),
            outputs: Paths::new(alloc),
            commands: Vec::new(alloc),
            is_ended: false,
            is_complete: false,
        }
    }

    /// Whether a block has begun.
    pub(crate) fn begins(&self) -> bool
        ensures { result ≡ begins self.now }
    {
        self.has_ninja || !self.commands.is_empty()
    }

    /// Whether a line `same` or `opening` may stand behind those before it.
    pub(crate) fn may_open(&self) -> bool
        ensures { result ≡ may_open self.now }
    {
        !self.begins() && self.opening.is_none() && self.hidden.is_empty()
    }

    /// Whether a line `also` may stand there.
    pub(crate) fn may_name(&self) -> bool
        ensures { result ≡ may_name self.now }
    {
        self.may_open() && self.same.is_empty()
    }

    /// Whether a line `path` may stand there.
    pub(crate) fn may_enter(&self) -> bool
        ensures { result ≡ may_enter self.now }
    {
        self.may_name() && self.names.names().len() == 0
    }

    /// Whether the last line stands there.
    pub(crate) fn is_ended(&self) -> bool
        ensures { result ≡ self.now.is_ended }
    {
        self.is_ended
    }

    /// Gives an entry the next number.
    pub(crate) fn put_path(&mut self, path: &Name, folder: Option<u32>) -> Result<(), LineFault>
        requires { is_below (length self.old.entries.paths) folder ≡ true }
        ensures { Answers result (λ _. self.new) (path_put self.old path.now folder) }
    {
        self.entries.put(path, folder)
    }

    /// Names an entry by a path besides.
    pub(crate) fn put_name(&mut self, path: &Name, entry: u32) -> Result<(), LineFault>
        ensures { Answers result (λ _. self.new) (also_put self.old path.now entry) }
    {
        if self.entries.paths().find(path).is_some() {
            return Err(DOUBLE);
        }
        self.names.put(path, entry)
    }

    /// Notes that entries were names of one file.
    pub(crate) fn put_same(&mut self, set: PathSet) -> Result<(), AllocError>
        ensures { OnOk result (self.new ≡ record self.old { same = self.old.same ++ set ∷ [] }) }
    {
        self.same.push(set)?;
        Ok(())
    }

    /// Notes which entries were there before the build began.
    pub(crate) fn put_opening(&mut self, set: PathSet)
        ensures { self.new ≡ record self.old { opening = Some set } }
    {
        self.opening = Some(set);
    }

    /// Notes that so many commands had to do with something hidden.
    pub(crate) fn put_hidden(&mut self, hidden: Hidden) -> Result<(), AllocError>
        ensures { OnOk result (self.new ≡ record self.old { hidden = self.old.hidden ++ hidden ∷ [] }) }
    {
        self.hidden.push(hidden)?;
        Ok(())
    }

    /// Begins what Ninja itself changed.
    pub(crate) fn put_ninja(&mut self)
        ensures { self.new ≡ record self.old { has_ninja = true } }
    {
        self.has_ninja = true;
    }

    /// Notes a change of Ninja's.
    pub(crate) fn put_ninja_line(&mut self, line: Line) -> Result<(), AllocError>
        requires within { RangesAreWithin (length self.old.entries.paths) line.entries }
        ensures { OnOk result (self.new ≡ record self.old { ninja = self.old.ninja ++ line ∷ [] }) }
    {
        self.ninja.push(line)?;
        Ok(())
    }

    /// Notes a command that comes next, by the first output of its edge.
    pub(crate) fn put_command(&mut self, alloc: Global, output: Name) -> Result<(), LineFault>
        ensures { Answers result (λ _. self.new) (command_put self.old output) }
    {
        push_command(alloc, &mut self.outputs, &mut self.commands, output)
    }

    /// The command that came last.
    pub(crate) fn last(&self) -> Option<&Command>
        ensures { option_copied result ≡ last_of self.now.commands }
    {
        self.commands.last()
    }

    /// Notes why the last command was not observed whole.
    pub(crate) fn put_flag(&mut self, flag: Flag) -> Result<(), AllocError>
        requires there { 0 < length self.old.commands }
        ensures { (c : CommandValue) → last_of self.old.commands ≡ Some c
            → OnOk result (self.new ≡ with_commands self.old (with_last self.old.commands (with_flag c flag))) }
    {
        put_last_flag(&mut self.commands, flag)
    }

    /// Notes what the last command did.
    pub(crate) fn put_line(&mut self, line: Line) -> Result<(), AllocError>
        requires there { 0 < length self.old.commands }
        requires within { RangesAreWithin (length self.old.entries.paths) line.entries }
        ensures { (c : CommandValue) → last_of self.old.commands ≡ Some c
            → OnOk result (self.new ≡ with_commands self.old (with_last self.old.commands (with_line c line))) }
    {
        put_last_line(&mut self.commands, line)
    }

    /// Notes how many entries the last command had to do with that are not named.
    pub(crate) fn put_outside(&mut self, count: u64)
        requires { 0 < length self.old.commands }
        ensures { (c : CommandValue) → last_of self.old.commands ≡ Some c
            → self.new ≡ with_commands self.old (with_last self.old.commands (with_outside c count)) }
    {
        put_last_outside(&mut self.commands, count);
    }

    /// Notes that the last line stands there.
    pub(crate) fn end(&mut self)
        ensures { self.new ≡ record self.old { is_ended = true } }
    {
        self.is_ended = true;
    }

    /// Notes whether the last line is that of a whole observation.
    pub(crate) fn settle(&mut self, is_complete: bool)
        ensures { self.new ≡ settled self.old is_complete }
    {
        self.is_complete = is_complete;
    }

    /// What observed.
    pub fn by(&self) -> &Observer
        ensures { result.now ≡ self.now.by }
    {
        &self.by
    }

    /// The entries that commands have to do with.
    pub fn entries(&self) -> &Entries
        ensures { result.now ≡ self.now.entries }
    {
        &self.entries
    }

    /// Further names of entries.
    pub fn names(&self) -> &OtherNames
        ensures { result.now ≡ self.now.names }
    {
        &self.names
    }

    /// The sets of entries that were names of one file at some moment of the build.
    pub fn same(&self) -> &[PathSet]
        ensures { result.now ≡ self.now.same }
    {
        self.same.as_slice()
    }

    /// The entries that were there before the build began, where a line says so.
    pub fn opening(&self) -> Option<&PathSet>
        ensures { option_copied result ≡ self.now.opening }
    {
        self.opening.as_ref()
    }

    /// What is hidden, and how many commands had to do with each.
    pub fn hidden(&self) -> &[Hidden]
        ensures { result.now ≡ self.now.hidden }
    {
        self.hidden.as_slice()
    }

    /// Whether what Ninja itself changed was observed.
    pub fn has_ninja(&self) -> bool
        ensures { result ≡ self.now.has_ninja }
    {
        self.has_ninja
    }

    /// What Ninja itself changed, in the order of the deeds. Each number of an entry is below the count of entries.
    pub fn ninja(&self) -> &[Line]
        ensures same { result.now ≡ self.now.ninja }
        ensures within { LinesAreWithin (length self.now.entries.paths) self.now.ninja }
    {
        self.ninja.as_slice()
    }

    /// The commands, in the order of their starts. Each number of an entry is below the count of entries, and no two
    /// commands have one output.
    pub fn commands(&self) -> &[Command]
        ensures same { result.now ≡ self.now.commands }
        ensures within { AreWithin (length self.now.entries.paths) self.now.commands }
        ensures distinct { IsDistinct bytes_eq (outputs_of self.now.commands) }
    {
        let _count = self.outputs.len();
        self.commands.as_slice()
    }

    /// Whether the file has all that was written: its last line has the counts and the sum of the lines before it. Of
    /// an observation that is not complete a part may be missing, or changed.
    pub fn is_complete(&self) -> bool
        ensures { result ≡ self.now.is_complete }
    {
        self.is_complete
    }
}

// Adds a command whose output is not among those of the others.
fn push_command(
    alloc: Global,
    outputs: &mut Paths,
    commands: &mut Vec<Command>,
    output: Name,
) -> Result<(), LineFault>
    requires { outputs.old ≡ outputs_of commands.old.items }
    ensures outputs { outputs.new ≡ outputs_of commands.new.items }
    ensures commands { Answers result (λ _. commands.new.items) (commands_put commands.old.items output) }
    ensures within { (n : ℕ) → AreWithin n commands.old.items → AreWithin n commands.new.items }
{
    if outputs.find(&output).is_some() {
        return Err(DOUBLE);
    }
    let name = output.copy()?;
    commands.push(Command::new(alloc, output))?;
    match outputs.intern(&name) {
        Ok(_place) => Ok(()),
        Err(_refused) => {
            commands.pop();
            Err(LineFault::Memory)
        }
    }
}

// Notes why the last command was not observed whole.
fn put_last_flag(commands: &mut Vec<Command>, flag: Flag) -> Result<(), AllocError>
    requires there { 0 < length commands.old.items }
    ensures ok { (c : CommandValue) → last_of commands.old.items ≡ Some c
        → OnOk result (commands.new.items ≡ with_last commands.old.items (with_flag c flag)) }
    ensures outputs { outputs_of commands.new.items ≡ outputs_of commands.old.items }
    ensures within { (n : ℕ) → AreWithin n commands.old.items → AreWithin n commands.new.items }
{
    let place = commands.len() - 1;
    let last = &mut commands[place];
    last.put_flag(flag)
}

// Notes what the last command did.
fn put_last_line(commands: &mut Vec<Command>, line: Line) -> Result<(), AllocError>
    requires there { 0 < length commands.old.items }
    ensures ok { (c : CommandValue) → last_of commands.old.items ≡ Some c
        → OnOk result (commands.new.items ≡ with_last commands.old.items (with_line c line)) }
    ensures outputs { outputs_of commands.new.items ≡ outputs_of commands.old.items }
    ensures within { (n : ℕ) → RangesAreWithin n line.entries → AreWithin n commands.old.items
        → AreWithin n commands.new.items }
{
    let place = commands.len() - 1;
    let last = &mut commands[place];
    last.put_line(line)
}

// Notes how many entries the last command had to do with that are not named.
fn put_last_outside(commands: &mut Vec<Command>, count: u64)
    requires there { 0 < length commands.old.items }
    ensures ok { (c : CommandValue) → last_of commands.old.items ≡ Some c
        → commands.new.items ≡ with_last commands.old.items (with_outside c count) }
    ensures outputs { outputs_of commands.new.items ≡ outputs_of commands.old.items }
    ensures within { (n : ℕ) → AreWithin n commands.old.items → AreWithin n commands.new.items }
{
    let place = commands.len() - 1;
    let last = &mut commands[place];
    last.put_outside(count);
}
