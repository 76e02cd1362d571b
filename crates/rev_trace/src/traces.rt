//! Traces.
ghost use Rattle.std.specs.Prelude.{◌≡◌, ℕ, ◌+◌, ◌^◌, ◌<◌, ◌≤◌, length, Some, None, IfOk, OnOk, IsErrOf};
ghost use Rattle.rev_fields.specs.declared.faults.TextFault.{TextFault};
ghost use Rattle.rev_fields.specs.Faults.{IsFirstWrong};
ghost use Rattle.rev_fields.specs.Parts.{slices_of};
ghost use Rattle.rev_trace.specs.Heads.{seen};
ghost use Rattle.rev_trace.specs.Traces.{IsOpened, lane_wrong, lanes_from, lanes_of, trace_fault, trace_of, value_of, wrong_at};

use crate::head::{Head, add_line, empty_head};
use crate::lanes::{Lanes, add_held, lane_line, opens_lane};
use crate::mentions::Mentions;
use crate::version::Version;
use rev_cells::{Names, Opening};
use rev_commands::Command;
use rev_fields::{FaultKind, ReadFault, TextFault, parts_at};
use std::alloc::Global;

/// Why a trace is not read: an allocation was refused, or the trace has a fault, with its number and line.
pub type TraceFault = ReadFault;

/// What a trace says.
pub struct Trace {
    /// The number of jobs and the records with which the trace begins.
    pub opening: Opening,
    /// What the build was asked for, which `plan` without a path means.
    pub targets: Names,
    /// The commands of each lane, in their order. There are at most 63 lanes, and none where no line opens one.
    pub lanes: Vec<Vec<Command>>,
}

impl Trace {
    /// The commands of the lanes alone.
    pub fn into_lanes(self) -> Vec<Vec<Command>>
        ensures { result.items ≡ self.lanes.items }
    {
        let Trace {
            opening: _opening,
            targets: _targets,
            lanes,
        } = self;
        lanes
    }
}

impl Drop for Trace {
    fn drop(self) {
        let Trace {
            opening: _opening,
            targets: _targets,
            lanes: _lanes,
        } = self;
    }
}

impl Trace {
    /// The most lanes that a trace has: a desk has one more, which is the script's.
    pub const MAX_LANES: u32 = 63;
}

// The first line does not name the format.
const NO_HEADER: ReadFault = ReadFault::Numbered(TextFault {
    kind: FaultKind::Header,
    line: 1,
});

// What the lines before the lane make, and how many of the lines these are. Lines are those after the first.
fn read_head(
    alloc: Global,
    version: Version,
    mentions: &mut Mentions,
    lines: &[&[u8]],
) -> Result<(Head, usize), ReadFault>
    requires { length lines.now + 1 < 2 ^ 64 }
    ensures opened { IfOk result (λ r. IsOpened version (slices_of lines.now) (seen r.0) r.1) }
    ensures fault { (f : TextFault) → IsErrOf result (ReadFault.Numbered f)
        → IsFirstWrong (wrong_at version (slices_of lines.now)) (length lines.now) 1 f }
{
    let Ok(mut head) = empty_head(alloc) else {
        return Err(ReadFault::Memory);
    };
    for (place, line) in lines.iter().enumerate() {
        if line.is_empty() {
            continue;
        }
        if opens_lane(line) {
            return match lane_line(alloc, version, 0, line) {
                Ok(_) => Ok((head, place)),
                Err(fault) => Err(fault.at(place + 1)),
            };
        }
        if let Err(fault) = add_line(alloc, mentions, &mut head, line) {
            return Err(fault.at(place + 1));
        }
    }
    Ok((head, lines.len()))
}

// The commands of the lanes, where the first of these lines stands behind the one that opens the first lane. So many
// lines of the trace stand before these.
fn read_lanes(
    alloc: Global,
    version: Version,
    mentions: &mut Mentions,
    targets: &Names,
    lines: &[&[u8]],
    before: usize,
) -> Result<Vec<Vec<Command>>, ReadFault>
    requires { before + length lines.now < 2 ^ 64 }
    ensures lanes { IfOk result (λ lanes. lanes_of lanes.items
        ≡ lanes_from version targets.now 1 (Some 0) (slices_of lines.now)) }
    ensures few { IfOk result (λ lanes. length lanes.items ≤ Trace.MAX_LANES) }
    ensures sound { OnOk result ((k : ℕ) → k < length lines.now
        → lane_wrong version targets.now (slices_of lines.now) k ≡ None) }
    ensures fault { (f : TextFault) → IsErrOf result (ReadFault.Numbered f)
        → IsFirstWrong (lane_wrong version targets.now (slices_of lines.now)) (length lines.now) before f }
{
    let Ok(mut lanes) = Lanes::one(alloc) else {
        return Err(ReadFault::Memory);
    };
    for (place, line) in lines.iter().enumerate() {
        if let Err(fault) = add_held(alloc, version, mentions, targets, &mut lanes, line) {
            return Err(fault.at(before + place));
        }
    }
    Ok(lanes.into_lists())
}

// What the lines after the first say, which names this version.
fn read_lines(alloc: Global, version: Version, lines: &[&[u8]]) -> Result<Trace, ReadFault>
    requires { length lines.now + 1 < 2 ^ 64 }
    ensures opening { IfOk result (λ trace. trace.opening ≡ (value_of version (slices_of lines.now)).opening) }
    ensures targets { IfOk result (λ trace. trace.targets ≡ (value_of version (slices_of lines.now)).targets) }
    ensures lanes { IfOk result (λ trace. lanes_of trace.lanes.items
        ≡ (value_of version (slices_of lines.now)).lanes) }
    ensures few { IfOk result (λ trace. length trace.lanes.items ≤ Trace.MAX_LANES) }
    ensures sound { OnOk result ((k : ℕ) → k < length lines.now → wrong_at version (slices_of lines.now) k ≡ None) }
    ensures fault { (f : TextFault) → IsErrOf result (ReadFault.Numbered f)
        → IsFirstWrong (wrong_at version (slices_of lines.now)) (length lines.now) 1 f }
{
    let mut mentions = Mentions::new(alloc);
    let (head, end) = read_head(alloc, version, &mut mentions, lines)?;
    let Head {
        opening,
        targets,
        has_jobs: _,
    } = head;
    let targets = Names::new(targets)?;
    let mut lanes = Vec::new(alloc);
    if end < lines.len() {
        lanes = read_lanes(
            alloc,
            version,
            &mut mentions,
            &targets,
            &lines[end + 1..],
            end + 2,
        )?;
    }
    Ok(Trace {
        opening,
        targets,
        lanes,
    })
}

/// Reads a trace: the line `rebug-trace 1` or `rebug-trace 2`, then opening lines, and then lanes. Opening lines are
/// `jobs N` at most once, `stamp PATH N`, `built PATH N COMMAND`, `deps PATH N PATH...` and `target PATH`. A lane is a
/// line `lane N` and the commands after it, where N counts lanes from 0. Empty lines are skipped. In version 2 a line
/// `lane N` may also name a lane that was opened before, whose commands go on after it, and lanes may hold lines
/// `resize POOL DEPTH`.
pub fn read(alloc: Global, text: &[u8]) -> Result<Trace, TraceFault>
    ensures opening { IfOk result (λ trace. trace.opening ≡ (trace_of text.now).opening) }
    ensures targets { IfOk result (λ trace. trace.targets ≡ (trace_of text.now).targets) }
    ensures lanes { IfOk result (λ trace. lanes_of trace.lanes.items ≡ (trace_of text.now).lanes) }
    ensures few { IfOk result (λ trace. length trace.lanes.items ≤ Trace.MAX_LANES) }
    ensures sound { OnOk result (trace_fault text.now ≡ None) }
    ensures fault { (f : TextFault) → IsErrOf result (ReadFault.Numbered f) → trace_fault text.now ≡ Some f }
{
    let lines = parts_at(alloc, text, b'\n')?;
    let Some((first, rest)) = lines.split_first() else {
        return Err(NO_HEADER);
    };
    let Some(version) = Version::of_line(first) else {
        return Err(NO_HEADER);
    };
    read_lines(alloc, version, rest)
}
