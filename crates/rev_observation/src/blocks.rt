//! What one command did.
ghost use Rattle.std.specs.Prelude.{◌≡◌, ◌<◌, true, length, ℕ, OnOk};
ghost use Rattle.std.specs.List.{slice_get};
ghost use Rattle.rev_observed.specs.Within.{RangesAreWithin};
ghost use Rattle.rev_observation.specs.declared.blocks.Line.{Line};
ghost use Rattle.rev_observation.specs.Blocks.{LinesAreWithin, may_flag, may_follow, may_take, last_line, new_command, with_flag, with_line, with_outside};

use crate::deed::Deed;
use crate::flag::Flag;
use crate::text::Text;
use rev_observed::PathSet;
use rev_paths::Name;
use std::alloc::{AllocError, Global};
use std::marker::Model;

/// What a command did with some entries.
#[derive(Debug, Drop)]
pub struct Line {
    /// What it did with each of them.
    pub deed: Deed,
    /// What the link says, or the name of the program, where the deed has a text; else empty.
    pub text: Text,
    /// The entries.
    pub entries: PathSet,
}

/// What one command saw and changed.
pub struct Command {
    output: Name,
    flags: Vec<Flag>,
    lines: Vec<Line>,
    outside: Option<u64>,
}

impl Drop for Command {
    fn drop(self) {
        let Command {
            output: _output,
            flags: _flags,
            lines: _lines,
            outside: _outside,
        } = self;
    }
}

impl Model for Command {
    ghost use Rattle.rev_observation.specs.Blocks.{CommandValue};

    ghost Value = { CommandValue };

    ghost view = { λ c. record { output = c.output; flags = c.flags.items; lines = c.lines.items; outside = c.outside } };
}

/// Whether a line of this deed may come after these lines of a block.
pub(crate) fn may_follow(lines: &[Line], deed: Deed) -> bool
    ensures { result ≡ may_follow (last_line lines.now) deed }
{
    let Some(last) = lines.last() else {
        return true;
    };
    let before = last.deed.rank();
    let rank = deed.rank();
    before < rank || (before == rank && deed.has_text())
}

impl Command {
    /// A command that has done nothing yet.
    pub(crate) fn new(alloc: Global, output: Name) -> Command
        ensures { result ≡ new_command output }
    {
        Command {
            output,
            flags: Vec::new(alloc),
            lines: Vec::new(alloc),
            outside: None,
        }
    }

    /// Whether a flag may come after the command's lines.
    pub(crate) fn may_flag(&self) -> bool
        ensures { result ≡ may_flag self.now }
    {
        self.outside.is_none() && self.lines.is_empty()
    }

    /// Whether a line of this deed may come after the command's lines.
    pub(crate) fn may_take(&self, deed: Deed) -> bool
        ensures { result ≡ may_take deed self.now }
    {
        self.outside.is_none() && may_follow(&self.lines, deed)
    }

    /// Notes why the command was not observed whole.
    pub(crate) fn put_flag(&mut self, flag: Flag) -> Result<(), AllocError>
        ensures ok { OnOk result (self.new ≡ with_flag self.old flag) }
        ensures output { self.new.output ≡ self.old.output }
        ensures lines { self.new.lines ≡ self.old.lines }
    {
        self.flags.push(flag)?;
        Ok(())
    }

    /// Notes what the command did with some entries.
    pub(crate) fn put_line(&mut self, line: Line) -> Result<(), AllocError>
        ensures ok { OnOk result (self.new ≡ with_line self.old line) }
        ensures output { self.new.output ≡ self.old.output }
        ensures within { (n : ℕ) → RangesAreWithin n line.entries → LinesAreWithin n self.old.lines
            → LinesAreWithin n self.new.lines }
    {
        self.lines.push(line)?;
        Ok(())
    }

    /// Notes how many entries are not named.
    pub(crate) fn put_outside(&mut self, count: u64)
        ensures { self.new ≡ with_outside self.old count }
    {
        self.outside = Some(count);
    }

    /// The first output of the command's edge.
    pub fn output(&self) -> &Name
        ensures { result.now ≡ self.now.output }
    {
        &self.output
    }

    /// Why the command was not observed whole. Without a flag it was observed whole.
    pub fn flags(&self) -> &[Flag]
        ensures { result.now ≡ self.now.flags }
    {
        self.flags.as_slice()
    }

    /// What the command did, in the order of the deeds.
    pub fn lines(&self) -> &[Line]
        ensures { result.now ≡ self.now.lines }
    {
        self.lines.as_slice()
    }

    /// How many more entries the command had to do with that are named nowhere, where a line says so.
    pub fn outside(&self) -> Option<u64>
        ensures { result ≡ self.now.outside }
    {
        self.outside
    }
}
