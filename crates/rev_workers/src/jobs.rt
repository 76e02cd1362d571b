//! Lanes with what they are to say.
ghost use Rattle.std.specs.Prelude.{◌≡◌, ◌<◌, [], IfErr, IfOk, IfSome, List, OnOk, length, map};
ghost use Rattle.rev_commands.specs.declared.command.Command.{Command};
ghost use Rattle.rev_workers.specs.Tracks.{Track};
ghost use Rattle.rev_workers.specs.Running.{AreTold, DidSay, DoneValue, lanes_in, pair_up};

use crate::gate::Gate;
use crate::lane::Lane;
use crate::shared::Shared;
use rev_desk::Command;
use std::alloc::{AllocError, Global};
use std::marker::Model;
use std::sync::Wait;
use std::sync::ledger::Ledger;

/// A lane, with what it is to say.
pub(crate) struct Job<L: Ledger> {
    lane: Lane<L>,
    commands: Vec<Command>,
}

impl<L: Ledger> Drop for Job<L> {
    fn drop(self) {
        let Job {
            lane: _lane,
            commands: _commands,
        } = self;
    }
}

impl<L: Ledger> Model for Job<L> {
    ghost use Rattle.std.specs.Prelude.{List};
    ghost use Rattle.rev_commands.specs.declared.command.Command.{Command};
    ghost use Rattle.rev_workers.specs.Tracks.{Track};

    ghost Value = { Track × List Command };

    ghost view = { λ j. (j.lane, j.commands.items) };
}

impl<L: Ledger> Job<L> {
    // The number of its lane.
    pub(crate) fn number(&self) -> u32
        ensures { result ≡ self.now.0.number }
    {
        self.lane.number()
    }

    // Its lane, and what that is to say.
    fn into_parts(self) -> (Lane<L>, Vec<Command>)
        ensures lane { result.0 ≡ self.0 }
        ensures commands { result.1.items ≡ self.1 }
    {
        let Job { lane, commands } = self;
        (lane, commands)
    }
}

/// A lane that sent all its commands, with its `seen` and number of calls before.
pub(crate) struct Done<L: Ledger> {
    lane: Lane<L>,
    seen: u64,
    before: u64,
}

impl<L: Ledger> Drop for Done<L> {
    fn drop(self) {
        let Done {
            lane: _lane,
            seen: _seen,
            before: _before,
        } = self;
    }
}

impl<L: Ledger> Model for Done<L> {
    ghost use Rattle.rev_workers.specs.Running.{DoneValue};

    ghost Value = { DoneValue };

    ghost view = { λ d. record { lane = d.lane; seen = d.seen; before = d.before } };
}

impl<L: Ledger> Done<L> {
    // The lane.
    pub(crate) fn lane(&self) -> &Lane<L>
        ensures { result.now ≡ self.now.lane }
    {
        &self.lane
    }

    // The journal's length at the lane's last answer before.
    pub(crate) fn seen(&self) -> u64
        ensures { result ≡ self.now.seen }
    {
        self.seen
    }

    // How many commands it had said before.
    pub(crate) fn before(&self) -> u64
        ensures { result ≡ self.now.before }
    {
        self.before
    }

    // The lane, which is all that is needed in the end.
    fn into_lane(self) -> Lane<L>
        ensures { result ≡ self.lane }
    {
        let Done {
            lane,
            seen: _seen,
            before: _before,
        } = self;
        lane
    }
}

// The lanes alone, in room that was taken for them. There is no answer where the room does not do.
pub(crate) fn lanes_of<L: Ledger>(done: Vec<Done<L>>, room: Vec<Lane<L>>) -> Option<Vec<Lane<L>>>
    requires { room.items ≡ [] }
    ensures { IfSome result (λ lanes. lanes.items ≡ lanes_in done.items) }
{
    let mut lanes = room;
    for lane in done {
        if lanes.push(lane.into_lane()).is_err() {
            return None;
        }
    }
    Some(lanes)
}

// Gives each lane the commands of the list at its place, and none past the last list.
pub(crate) fn jobs_of<L: Ledger>(
    alloc: Global,
    lanes: Vec<Lane<L>>,
    lists: Vec<Vec<Command>>,
) -> Result<Vec<Job<L>>, AllocError>
    ensures { IfOk result (λ jobs. jobs.items ≡ pair_up lanes.items (map (λ v. v.items) lists.items)) }
{
    let mut jobs = Vec::with_capacity(alloc, lanes.len())?;
    let mut lists = lists.into_iter();
    for lane in lanes {
        let commands = match lists.next() {
            Some(commands) => commands,
            None => Vec::new(alloc),
        };
        jobs.push(Job { lane, commands })?;
    }
    Ok(jobs)
}

// The numbers of lanes, in their order.
pub(crate) fn numbers_of<L: Ledger>(
    alloc: Global,
    lanes: &[Lane<L>],
) -> Result<Vec<u32>, AllocError>
    ensures { IfOk result (λ numbers. numbers.items ≡ map (λ (t : Track). t.number) lanes.now) }
{
    let mut numbers = Vec::with_capacity(alloc, lanes.len())?;
    for lane in lanes {
        numbers.push(lane.number())?;
    }
    Ok(numbers)
}

// Says what a job has. Where a command makes no entry it stops, and gives the lane's number.
pub(crate) fn run_job<L: Ledger, R: Wait, G: Gate>(
    rt: &R,
    shared: &Shared<L>,
    gate: &G,
    job: Job<L>,
) -> Result<Done<L>, u32>
    requires { job.0.number < shared.now }
    ensures ok { IfOk result (λ done. DidSay job.0 job.1 done) }
    ensures told { OnOk result (AreTold G.told G.answered gate.now job.0.number (length job.1)) }
    ensures stopped { IfErr result (λ number. number ≡ job.0.number) }
{
    let (lane, commands) = job.into_parts();
    run_lane(rt, shared, gate, lane, commands)
}

// Tells a gate that a lane is about to send the command at a place.
fn tell_sending<G: Gate>(gate: &G, lane: u32, place: u32)
    ensures { G.told gate.now lane place }
{
    gate.before(lane, place);
}

// Tells a gate that this command was answered, or made no entry.
fn tell_answered<G: Gate>(gate: &G, lane: u32, place: u32)
    requires told { G.told gate.now lane place }
    ensures { G.answered gate.now lane place }
{
    gate.after(lane, place);
}

// Says a lane's commands. Where one makes no entry it stops, and gives the lane's number.
fn run_lane<L: Ledger, R: Wait, G: Gate>(
    rt: &R,
    shared: &Shared<L>,
    gate: &G,
    lane: Lane<L>,
    commands: Vec<Command>,
) -> Result<Done<L>, u32>
    requires { lane.number < shared.now }
    ensures ok { IfOk result (λ done. DidSay lane commands.items done) }
    ensures told { OnOk result (AreTold G.told G.answered gate.now lane.number (length commands.items)) }
    ensures stopped { IfErr result (λ number. number ≡ lane.number) }
{
    let mut lane = lane;
    let (number, seen, before) = (lane.number(), lane.seen(), lane.calls());
    let mut place = 0u32;
    for command in commands {
        place = place.saturating_add(1);
        tell_sending(gate, number, place);
        let answer = lane.send_when_able(shared, rt, command);
        tell_answered(gate, number, place);
        let Ok(_reply) = answer else {
            shared.end(rt, number);
            return Err(number);
        };
    }
    shared.end(rt, number);
    Ok(Done { lane, seen, before })
}
