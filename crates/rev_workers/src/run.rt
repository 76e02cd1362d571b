//! Lanes that say their commands, each from a thread of its own.
ghost use Rattle.std.specs.Prelude.{◌≡◌, ◌≢◌, ◌<◌, ◌≤◌, ◌⊎◌, [], ℕ, Some, IfErr, IfNone, IfOk, IfSome, None, length, map, slice_get};
ghost use Rattle.std.specs.List.{AllByRecursion};
ghost use Rattle.rev_workers.specs.Tracks.{Track};
ghost use Rattle.rev_workers.specs.Closing.{AreStated, IsMissing, IsOneOfEach, left_by};
ghost use Rattle.rev_workers.specs.declared.fault.CloseCode.TheVariants as code;
ghost use Rattle.rev_workers.specs.Running.{AreConfirmed, AreSaid, HasNumber, HaveSaid, HaveSaidBelow, HaveTold, IsLeastStopped};
ghost use Rattle.rev_workers.specs.Running.{lanes_in, pair_up};

use crate::closing::{lesser, survey_of};
use crate::fault::CloseFault;
use crate::gate::Gate;
use crate::halves::run_halves;
use crate::held::Held;
use crate::jobs::{Done, jobs_of, lanes_of, numbers_of};
use crate::lane::Lane;
use crate::shared::{Shared, close};
use rev_desk::{Command, Desk};
use rev_trace::Trace;
use std::alloc::Global;
use std::sync::Wait;
use std::sync::ledger::Ledger;
use std::thread::Threads;

// The least number of a lane.
fn least_number<L: Ledger>(lanes: &[Lane<L>]) -> Option<u32>
    ensures some { IfSome result (λ n. HasNumber lanes.now n) }
    ensures least { IfSome result (λ n. (k : ℕ) (t : Track) → slice_get lanes.now k ≡ Some t → n ≤ t.number) }
    ensures none { IfNone result (lanes.now ≡ []) }
{
    let mut least = lanes.first()?.number();
    for lane in lanes {
        if lane.number() < least {
            least = lane.number();
        }
    }
    Some(least)
}

/// Runs each lane on a thread with the commands of its trace lane, then closes the desk. Lanes past the trace's last
/// have nothing to say. The trace's opening and targets are not looked at.
///
/// # Errors
/// [`CloseCode::LaneStopped`](crate::CloseCode::LaneStopped) where lanes could not say all that they were to say:
/// memory was refused, the journal was full, or a lane got no thread. It names the least of them. Of each given lane of
/// a lesser number the desk's journal has, since that lane was last answered, its commands and no others. The gate was
/// called before and after each of these. Otherwise what [`close`] finds: of each given lane the journal has its
/// commands, and the gate was called before and after each. The desk comes back in every case.
pub fn run_workers<L: Ledger + Send + Sync, R: Threads + Wait + Sync, G: Gate>(
    rt: &R,
    alloc: Global,
    shared: Shared<L>,
    lanes: Vec<Lane<L>>,
    trace: Trace,
    gate: &G,
) -> Result<Desk, CloseFault>
    requires few { length trace.lanes.items ≤ length lanes.items }
    requires numbers { AllByRecursion (λ (t : Track). t.number < shared) lanes.items }
    ensures lanes { (left_by result).lanes ≡ shared }
    ensures stopped { IfErr result (λ fault. fault.code ≡ code.LaneStopped → HasNumber lanes.items fault.lane) }
    ensures least { IfErr result (λ fault. fault.code ≡ code.LaneStopped
        → HaveSaidBelow fault.lane lanes.items (map (λ v. v.items) trace.lanes.items) fault.desk.journal) }
    ensures first { IfErr result (λ fault. fault.code ≢ code.LaneStopped
        → HaveSaid lanes.items (map (λ v. v.items) trace.lanes.items) fault.desk.journal) }
    ensures missing { IfErr result (λ fault. fault.code ≡ code.LaneMissing
        → IsMissing fault.desk.lanes lanes.items fault.lane) }
    ensures mismatch { IfErr result (λ fault. fault.code ≡ code.LaneMismatch
        → IsOneOfEach fault.desk.lanes lanes.items) }
    ensures each { IfOk result (λ desk. IsOneOfEach desk.lanes lanes.items) }
    ensures said { IfOk result (λ desk.
        AreSaid lanes.items (map (λ v. v.items) trace.lanes.items) desk.journal) }
    ensures told { IfOk result (λ desk. HaveTold G.told G.answered gate.now None
        (pair_up lanes.items (map (λ v. v.items) trace.lanes.items))) }
    ensures told_first { IfErr result (λ fault. fault.code ≢ code.LaneStopped
        → HaveTold G.told G.answered gate.now None (pair_up lanes.items (map (λ v. v.items) trace.lanes.items))) }
    ensures told_below { IfErr result (λ fault. fault.code ≡ code.LaneStopped
        → HaveTold G.told G.answered gate.now (Some fault.lane)
        (pair_up lanes.items (map (λ v. v.items) trace.lanes.items))) }
{
    run_lists(rt, alloc, shared, lanes, trace.into_lanes(), gate)
}

// Each lane says the commands of the list at its place, each from a thread of its own, and the desk is closed.
fn run_lists<L: Ledger + Send + Sync, R: Threads + Wait + Sync, G: Gate>(
    rt: &R,
    alloc: Global,
    shared: Shared<L>,
    lanes: Vec<Lane<L>>,
    lists: Vec<Vec<Command>>,
    gate: &G,
) -> Result<Desk, CloseFault>
    requires few { length lists.items ≤ length lanes.items }
    requires numbers { AllByRecursion (λ (t : Track). t.number < shared) lanes.items }
    ensures lanes { (left_by result).lanes ≡ shared }
    ensures stopped { IfErr result (λ fault. fault.code ≡ code.LaneStopped → HasNumber lanes.items fault.lane) }
    ensures least { IfErr result (λ fault. fault.code ≡ code.LaneStopped
        → HaveSaidBelow fault.lane lanes.items (map (λ v. v.items) lists.items) fault.desk.journal) }
    ensures first { IfErr result (λ fault. fault.code ≢ code.LaneStopped
        → HaveSaid lanes.items (map (λ v. v.items) lists.items) fault.desk.journal) }
    ensures missing { IfErr result (λ fault. fault.code ≡ code.LaneMissing
        → IsMissing fault.desk.lanes lanes.items fault.lane) }
    ensures mismatch { IfErr result (λ fault. fault.code ≡ code.LaneMismatch
        → IsOneOfEach fault.desk.lanes lanes.items) }
    ensures each { IfOk result (λ desk. IsOneOfEach desk.lanes lanes.items) }
    ensures said { IfOk result (λ desk. AreSaid lanes.items (map (λ v. v.items) lists.items) desk.journal) }
    ensures told { IfOk result (λ desk. HaveTold G.told G.answered gate.now None
        (pair_up lanes.items (map (λ v. v.items) lists.items))) }
    ensures told_first { IfErr result (λ fault. fault.code ≢ code.LaneStopped
        → HaveTold G.told G.answered gate.now None (pair_up lanes.items (map (λ v. v.items) lists.items))) }
    ensures told_below { IfErr result (λ fault. fault.code ≡ code.LaneStopped
        → HaveTold G.told G.answered gate.now (Some fault.lane)
        (pair_up lanes.items (map (λ v. v.items) lists.items))) }
{
    let Some(least) = least_number(&lanes) else {
        return close(shared, lanes);
    };
    shared.begin(rt, &lanes);
    let (Ok(numbers), Ok(room), Ok(lanes_room)) = (
        numbers_of(alloc, &lanes),
        Vec::with_capacity(alloc, lanes.len()),
        Vec::with_capacity(alloc, lanes.len()),
    ) else {
        return Err(shared.into_held().stopped_at(least));
    };
    let Ok(jobs) = jobs_of(alloc, lanes, lists) else {
        return Err(shared.into_held().stopped_at(least));
    };
    let (done, stopped) = run_halves(rt, alloc, &shared, gate, &numbers, jobs, room);
    close_done(shared.into_held(), least, done, stopped, lanes_room)
}

// Closes a desk with the lanes that said all. Where another stopped, or the journal does not have what one of these
// said, the least such lane is told; where there is no room for the lanes, this one.
fn close_done<L: Ledger>(
    held: Held<L>,
    least: u32,
    done: Vec<Done<L>>,
    stopped: Option<u32>,
    room: Vec<Lane<L>>,
) -> Result<Desk, CloseFault>
    requires { room.items ≡ [] }
    ensures desk { left_by result ≡ held.desk }
    ensures stopped { IfErr result (λ fault. fault.code ≡ code.LaneStopped
        → (fault.lane ≡ least) ⊎ IsLeastStopped stopped done.items fault.desk.journal fault.lane) }
    ensures first { IfErr result (λ fault. fault.code ≢ code.LaneStopped
        → (stopped ≡ None) × AreConfirmed fault.desk.journal done.items) }
    ensures missing { IfErr result (λ fault. fault.code ≡ code.LaneMissing
        → (stopped ≡ None) × IsMissing fault.desk.lanes (lanes_in done.items) fault.lane) }
    ensures mismatch { IfErr result (λ fault. fault.code ≡ code.LaneMismatch
        → (stopped ≡ None) × IsOneOfEach fault.desk.lanes (lanes_in done.items)) }
    ensures ok { IfOk result (λ desk. (stopped ≡ None) × IsOneOfEach desk.lanes (lanes_in done.items)
        × AreStated desk.lanes desk.journal (lanes_in done.items)) }
{
    let found = survey_of(&done, held.desk().journal());
    let stopped = lesser(stopped, found.unconfirmed);
    if let Some(lane) = stopped {
        return Err(held.stopped_at(lane));
    }
    let Some(lanes) = lanes_of(done, room) else {
        return Err(held.stopped_at(least));
    };
    held.close_by(lanes, found.misstated)
}
