//! The order in which `run` takes the commands of a trace's lanes.
ghost use Rattle.std.specs.Prelude.{◌≡◌, ◌≤◌, ◌++◌, filter, length, nat_lt, slice_get, IfOk, OnOk};
ghost use Rattle.std.specs.List.{enumerate_from};
ghost use Rattle.std.specs.Option.{option_copied};
ghost use Rattle.rev_script.specs.LeftTurns.{round_of, seen_left};
ghost use Rattle.rev_script.specs.SeenTurns.{seen_turns};
ghost use Rattle.rev_script.specs.Turns.{longest, turn_of, turns};
ghost use Rattle.rev_trace.specs.Traces.{lanes_of};

use rev_commands::Command;
use rev_trace::Trace;
use std::alloc::{AllocError, Global};

/// A command and the number of its lane.
#[derive(Clone, Copy)]
pub struct Turn<'a> {
    /// The number of the lane, from 0.
    pub lane: u32,
    /// The command.
    pub command: &'a Command,
}

// The length of the longest lane, 0 where there is none.
fn longest(lanes: &[Vec<Command>]) -> usize
    ensures { result ≡ longest (lanes_of lanes.now) }
{
    let mut most = 0;
    for commands in lanes {
        most = most.max(commands.len());
    }
    most
}

// The command at a place of its lane.
fn command_at(commands: &[Command], place: usize) -> Option<&Command>
    ensures { option_copied result ≡ slice_get commands.now place }
{
    commands.get(place)
}

// Adds a command of a lane, if there is one.
fn push_turn<'a>(
    turns: &mut Vec<Turn<'a>>,
    lane: u32,
    command: Option<&'a Command>,
) -> Result<(), AllocError>
    ensures { OnOk result (seen_turns turns.new.items
        ≡ seen_turns turns.old.items ++ turn_of lane (option_copied command.entry)) }
{
    let Some(command) = command else {
        return Ok(());
    };
    turns.push(Turn { lane, command })?;
    Ok(())
}

// A lane that has commands left.
#[derive(Clone, Copy)]
struct LeftLane<'a> {
    // The number of the lane.
    lane: u32,
    // All its commands.
    commands: &'a [Command],
}

// The lanes with their numbers, in their order.
fn numbered<'a>(alloc: Global, lanes: &'a [Vec<Command>]) -> Result<Vec<LeftLane<'a>>, AllocError>
    requires { length lanes.now ≤ Trace.MAX_LANES }
    ensures { IfOk result (λ left. seen_left left.items ≡ enumerate_from 0 (lanes_of lanes.now)) }
{
    let mut left = Vec::new(alloc);
    let mut lane = 0;
    for commands in lanes {
        left.push(LeftLane { lane, commands })?;
        lane += 1;
    }
    Ok(left)
}

// Whether a lane of these commands has one at this place or behind it.
fn has_more(commands: &[Command], place: usize) -> bool
    ensures { result ≡ nat_lt place (length commands.now) }
{
    place < commands.len()
}

// Takes out the lanes that have no command at this place or behind it.
fn drop_done(left: &mut Vec<LeftLane<'_>>, place: usize)
    ensures { seen_left left.new.items
        ≡ filter (λ lane. nat_lt place (length lane.1)) (seen_left left.old.items) }
{
    left.retain(|lane| has_more(lane.commands, place));
}

// Adds the commands at a place of these lanes, in their order.
fn push_round<'a>(
    turns: &mut Vec<Turn<'a>>,
    left: &[LeftLane<'a>],
    place: usize,
) -> Result<(), AllocError>
    ensures { OnOk result (seen_turns turns.new.items
        ≡ seen_turns turns.old.items ++ round_of place (seen_left left.now)) }
{
    for lane in left {
        push_turn(turns, lane.lane, command_at(lane.commands, place))?;
    }
    Ok(())
}

/// All commands of a trace's lanes, at most 63 lanes, in the order of their turns. The first round has the first
/// command of each lane, in the order of the lanes; the second round has the second commands, and so on. A round looks
/// only at the lanes that have commands left.
pub fn turns_of<'a>(alloc: Global, lanes: &'a [Vec<Command>]) -> Result<Vec<Turn<'a>>, AllocError>
    requires { length lanes.now ≤ Trace.MAX_LANES }
    ensures { IfOk result (λ list. seen_turns list.items ≡ turns (lanes_of lanes.now)) }
{
    let mut turns = Vec::new(alloc);
    let mut left = numbered(alloc, lanes)?;
    for place in 0..longest(lanes) {
        push_round(&mut turns, &left, place)?;
        drop_done(&mut left, place + 1);
    }
    Ok(turns)
}
