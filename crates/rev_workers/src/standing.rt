//! How lanes stand: which go on, and which of those that wait are to look again.
ghost use Rattle.std.specs.Prelude.{◌≡◌, ◌<◌, ◌^◌, ◌↔◌, ◌&&◌, IsTrue, if◌then◌else◌, length, map};
ghost use Rattle.std.specs.List.{AllByRecursion, list_any};
ghost use Rattle.rev_workers.specs.Waiting.{MayPass, OthersAreStill, IsStill, is_for_input, is_touch, is_plain, is_to_look, kept_waiting, IsOutOfWay};

use crate::lane::Lane;
use rev_desk::{Command, Reply};
use rev_events::{Event, Refusal};
use std::snapshot::Snapshot;
use std::sync::ledger::Ledger;

/// How a lane stands.
#[derive(Drop)]
pub enum Standing {
    /// It goes on.
    Going,
    /// Waiting. Its command was last known to be refused at this journal length; past it the lane is to look again, and
    /// counts as one that goes on. The command is for contracts alone, and takes no bytes.
    Waiting {
        refused_at: u64,
        for_input: bool,
        command: Snapshot<Command>,
    },
    /// It sends no more.
    Ended,
}

// Whether a reply is a refusal that ends when other lanes go on: an input is not made yet, or a job or slot is taken.
pub(crate) fn may_pass(reply: Reply) -> bool
    ensures { IsTrue result ↔ MayPass reply }
{
    match reply {
        Reply::Refused(Refusal::Blocked(_)) => true,
        Reply::Refused(Refusal::JobBusy(_)) => true,
        Reply::Refused(Refusal::SlotBusy(_)) => true,
        _ => false,
    }
}

// Whether a command is to start an edge, or to settle it without a run, and is refused for an input.
pub(crate) fn is_for_input(command: &Command, reply: Reply) -> bool
    ensures { result ≡ is_for_input command.now reply }
{
    match command {
        Command::Event(Event::Start { .. } | Event::Clean { .. } | Event::Pass { .. }) => {
            matches!(reply, Reply::Refused(Refusal::Blocked(_)))
        }
        _ => false,
    }
}

// Whether a file is touched.
pub(crate) fn is_touch(command: &Command) -> bool
    ensures { result ≡ is_touch command.now }
{
    matches!(command, Command::Event(Event::Touch { .. }))
}

// Whether a command was accepted and met no break.
fn is_plain(reply: Reply) -> bool
    ensures { result ≡ is_plain reply }
{
    matches!(reply, Reply::Accepted(_, None))
}

// Whether a lane does not go on, over a journal of so many entries.
fn is_still(standing: &Standing, entries: u64) -> bool
    ensures { IsTrue result ↔ IsStill entries standing.now }
{
    match standing {
        Standing::Going => false,
        Standing::Waiting { refused_at, .. } => *refused_at == entries,
        Standing::Ended => true,
    }
}

// Whether no lane beside the one of this number goes on.
pub(crate) fn others_are_still(standings: &[Standing], number: u32, entries: u64) -> bool
    ensures { IsTrue result ↔ OthersAreStill number entries standings.now }
{
    for place in 0..standings.len() {
        if place as u64 != u64::from(number) && !is_still(&standings[place], entries) {
            return false;
        }
    }
    true
}

// Whether a lane waits that is to look at a journal of so many entries.
fn is_to_look(standing: &Standing, entries: u64) -> bool
    ensures { result ≡ is_to_look entries standing.now }
{
    match standing {
        Standing::Waiting { refused_at, .. } => *refused_at != entries,
        _ => false,
    }
}

// Whether some lane does.
pub(crate) fn some_look(standings: &[Standing], entries: u64) -> bool
    ensures { result ≡ list_any (is_to_look entries) standings.now }
{
    standings
        .iter()
        .any(|standing| is_to_look(standing, entries))
}

// Notes of a lane one entry more, which makes no input: where it waits for one, it need not look again.
fn keep_one(standing: &mut Standing, entries: u64)
    requires { entries < 2 ^ 32 }
    ensures { standing.new ≡ kept_waiting entries standing.old }
{
    if let Standing::Waiting {
        refused_at,
        for_input,
        ..
    } = standing
    {
        if *for_input && *refused_at == entries {
            *refused_at = entries + 1;
        }
    }
}

// Notes one entry more, by whether its command touches a file, and its reply: a touch that meets no break makes no input.
pub(crate) fn keep_waiting(standings: &mut [Standing], entries: u64, touches: bool, reply: Reply)
    requires { entries < 2 ^ 32 }
    ensures { standings.new ≡ (if touches && is_plain reply then map (kept_waiting entries) standings.old
        else standings.old) }
{
    if !touches || !is_plain(reply) {
        return;
    }
    for standing in standings.iter_mut() {
        keep_one(standing, entries);
    }
}

// These lanes go on, and all others have ended.
pub(crate) fn stand_at_first<L: Ledger>(standings: &mut [Standing], lanes: &[Lane<L>])
    ensures length { length standings.new ≡ length standings.old }
    ensures none { AllByRecursion IsOutOfWay standings.new }
{
    for standing in standings.iter_mut() {
        *standing = Standing::Ended;
    }
    for lane in lanes {
        let number = lane.number() as usize;
        if number < standings.len() {
            standings[number] = Standing::Going;
        }
    }
}
