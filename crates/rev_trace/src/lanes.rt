//! The lines that name lanes, and what stands in these.
ghost use Rattle.std.specs.Prelude.{◌≡◌, ◌<◌, length, Some, IfOk, OnOk, IsErrOf};
ghost use Rattle.rev_fields.specs.declared.faults.FaultKind.{FaultKind};
ghost use Rattle.rev_fields.specs.Faults.{Answers};
ghost use Rattle.rev_fields.specs.Parts.{lent_of};
ghost use Rattle.rev_trace.specs.Lanes.{lane_in_turn, lane_line, lane_named, lane_number, opens_lane};
ghost use Rattle.rev_trace.specs.Lists.{IsHeld, one_lane, shown, with_command, with_lane};
ghost use Rattle.rev_trace.specs.Traces.{wrong_in_lane};
ghost use Rattle.rev_trace.specs.Versions.{held_line};

use crate::commands::command_among;
use crate::events::BAD_LINE;
use crate::mentions::Mentions;
use crate::traces::Trace;
use crate::version::Version;
use rev_cells::Names;
use rev_commands::Command;
use rev_fields::{FaultKind, LineFault, lent_fields, number};
use std::alloc::{AllocError, Global};
use std::borrow::CowSlice;

const BAD_LANE: LineFault = LineFault::Kind(FaultKind::Lane);

/// Whether a line is to name a lane: it begins with `lane` and a space.
pub(crate) fn opens_lane(line: &[u8]) -> bool
    ensures { result ≡ opens_lane line.now }
{
    line.starts_with(b"lane ".as_slice())
}

// The number in a line `lane N`, from the texts of its fields.
fn lane_named(texts: &[CowSlice<'_, u8>]) -> Result<u32, LineFault>
    ensures { Answers result (λ n. n) (lane_named (lent_of texts.now)) }
{
    match texts {
        [_word, text] => number(text),
        _ => Err(BAD_LINE),
    }
}

// The lane of this number, where it may be named and so many lanes are open.
fn in_turn(version: Version, count: usize, number: u32) -> Result<u32, LineFault>
    ensures said { Answers result (λ n. n) (lane_in_turn version count number) }
    ensures few { OnOk result (number < Trace.MAX_LANES) }
{
    if version.may_name(count, number) && number < Trace::MAX_LANES {
        return Ok(number);
    }
    Err(BAD_LANE)
}

/// The number of the lane that a line `lane N` names, which may be named where so many lanes are open.
pub(crate) fn lane_line(
    alloc: Global,
    version: Version,
    count: usize,
    line: &[u8],
) -> Result<u32, LineFault>
    ensures said { Answers result (λ n. n) (lane_line version count line.now) }
{
    let texts = lent_fields(alloc, line)?;
    let number = lane_named(&texts)?;
    in_turn(version, count, number)
}

// The command that a line of a lane is, where `plan` without a path means these targets.
fn held_line(
    alloc: Global,
    version: Version,
    mentions: &mut Mentions,
    targets: &Names,
    line: &[u8],
) -> Result<Command, LineFault>
    ensures { Answers result (λ c. c) (held_line version targets.now line.now) }
{
    let texts = lent_fields(alloc, line)?;
    if !version.may_begin(&texts) {
        return Err(BAD_LINE);
    }
    command_among(alloc, mentions, targets, &texts)
}

/// The commands of each lane that lines have opened, and the lane that was named last.
pub(crate) struct Lanes {
    /// The commands of each lane, in their order.
    pub(crate) lists: Vec<Vec<Command>>,
    /// The lane whose commands come next.
    pub(crate) named: usize,
}

impl Drop for Lanes {
    fn drop(self) {
        let Lanes {
            lists: _lists,
            named: _named,
        } = self;
    }
}

impl Lanes {
    /// One lane, which has no commands yet.
    pub(crate) fn one(alloc: Global) -> Result<Lanes, AllocError>
        ensures { IfOk result (λ lanes. shown lanes ≡ one_lane) }
    {
        let mut lists = Vec::new(alloc);
        lists.push(Vec::new(alloc))?;
        Ok(Lanes { lists, named: 0 })
    }

    /// The commands of each lane alone.
    pub(crate) fn into_lists(self) -> Vec<Vec<Command>>
        ensures { result.items ≡ self.lists.items }
    {
        let Lanes {
            lists,
            named: _named,
        } = self;
        lists
    }
}

// Makes this the current lane, opening it if need be.
fn open_lane(alloc: Global, lanes: &mut Lanes, number: u32) -> Result<(), AllocError>
    ensures { OnOk result (shown lanes.new ≡ with_lane (shown lanes.old) number) }
{
    if number as usize == lanes.lists.len() {
        lanes.lists.push(Vec::new(alloc))?;
    }
    lanes.named = number as usize;
    Ok(())
}

// Adds a command to the lane whose commands come next.
fn push_held(lanes: &mut Lanes, command: Command) -> Result<(), AllocError>
    requires { lanes.old.named < length lanes.old.lists.items }
    ensures { OnOk result (shown lanes.new ≡ with_command (shown lanes.old) command) }
{
    let named = lanes.named;
    lanes.lists[named].push(command)?;
    Ok(())
}

/// Adds what a line of lanes says, where `plan` without a path means these targets.
pub(crate) fn add_held(
    alloc: Global,
    version: Version,
    mentions: &mut Mentions,
    targets: &Names,
    lanes: &mut Lanes,
    line: &[u8],
) -> Result<(), LineFault>
    requires { lanes.old.named < length lanes.old.lists.items }
    ensures ok { OnOk result (IsHeld version targets.now (shown lanes.old) line.now (shown lanes.new)) }
    ensures fault { (kind : FaultKind) → IsErrOf result (LineFault.Kind kind)
        → wrong_in_lane version targets.now (length lanes.old.lists.items) line.now ≡ Some kind }
{
    if line.is_empty() {
        return Ok(());
    }
    if opens_lane(line) {
        let number = lane_line(alloc, version, lanes.lists.len(), line)?;
        open_lane(alloc, lanes, number)?;
        return Ok(());
    }
    let command = held_line(alloc, version, mentions, targets, line)?;
    push_held(lanes, command)?;
    Ok(())
}
