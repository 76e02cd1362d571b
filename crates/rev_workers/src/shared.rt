//! The lock, and what threads do through it.
ghost use Rattle.std.specs.Prelude.{◌≡◌, ◌≢◌, ◌<◌, ◌≤◌, ◌+◌, ◌^◌, ◌++◌, ◌∷◌, [], ℕ, Some, IfOk, IfErr, OnOk, OnErr, length, slice_get};
ghost use Rattle.rev_desk.specs.declared.fault.Why.TheVariants as why;
ghost use Rattle.rev_workers.specs.Closing.{AreStated, IsMissing, IsMisstated, IsOneOfEach, entries_of, left_by};
ghost use Rattle.rev_workers.specs.declared.fault.CloseCode.TheVariants as code;
ghost use Rattle.std.specs.List.{AllByRecursion};
ghost use Rattle.rev_workers.specs.Tracks.{Track, Carries, fresh, said};

use crate::fault::CloseFault;
use crate::held::{Held, NotAnswered};
use crate::lane::Lane;
use crate::standing::Standing;
use rev_desk::{Command, Desk, Reply, Unsaid, Why};
use std::alloc::{AllocError, Global};
use std::marker::Model;
use std::sync::ledger::{Blank, Ledger};
use std::sync::{Condvar, Mutex, Wait};

/// A desk under a lock. Contracts see it as the number of its lanes.
pub struct Shared<L: Ledger> {
    lanes: u32,
    held: Mutex<Held<L>>,
    changed: Condvar,
}

impl<L: Ledger> Drop for Shared<L> {
    fn drop(self) {
        let Shared {
            lanes: _lanes,
            held: _held,
            changed: _changed,
        } = self;
    }
}

impl<L: Ledger> Model for Shared<L> {
    ghost use Rattle.std.specs.Prelude.{ℕ, ◌≡◌};

    ghost Value = { ℕ };

    ghost view = { λ s. s.lanes };

    ghost invariant = { λ s. s.lanes ≡ L.parts };
}

impl<L: Ledger> Shared<L> {
    /// Puts a desk under a lock, and makes its lanes in rising number.
    pub fn new(
        alloc: Global,
        desk: Desk,
        blank: Blank,
    ) -> Result<(Shared<L>, Vec<Lane<L>>), AllocError>
        requires name { blank.name ≡ L.name }
        requires parts { blank.parts ≡ L.parts }
        requires lanes { blank.parts ≡ desk.lanes }
        ensures shared { IfOk result (λ made. made.0 ≡ desk.lanes) }
        ensures count { IfOk result (λ made. length made.1.items ≡ desk.lanes) }
        ensures lanes { IfOk result (λ made. (k : ℕ) → k < desk.lanes
            → slice_get made.1.items k ≡ Some (fresh (length desk.journal) k)) }
        ensures numbers { IfOk result (λ made. AllByRecursion (λ (t : Track). t.number < desk.lanes) made.1.items) }
    {
        let lanes = desk.lanes();
        let (held, tokens) = Held::new(alloc, desk, blank)?;
        Ok((
            Shared {
                lanes,
                held: Mutex::new(held),
                changed: Condvar::new(),
            },
            tokens,
        ))
    }

    // Notes that these lanes go on, and that all others have ended.
    pub(crate) fn begin<R: Wait>(&self, rt: &R, lanes: &[Lane<L>]) {
        let mut held = self.held.lock(rt);
        held.begin(lanes);
        drop(held);
        self.changed.notify_all();
    }

    // Notes that a lane sends no more.
    pub(crate) fn end<R: Wait>(&self, rt: &R, number: u32)
        requires { number < self.now }
    {
        let mut held = self.held.lock(rt);
        let _lanes = held.lanes();
        held.stand(number, Standing::Ended);
        drop(held);
        self.changed.notify_all();
    }

    // Wakes the lanes that wait, where one of them is to look again.
    fn tell(&self, some_look: bool) {
        if some_look {
            self.changed.notify_all();
        }
    }

    // What lies under the lock.
    pub(crate) fn into_held(self) -> Held<L>
        ensures { result.desk.lanes ≡ self }
    {
        let Shared {
            lanes: _lanes,
            held,
            changed: _changed,
        } = self;
        held.into_inner()
    }

    /// How many lanes there are.
    pub fn lanes(&self) -> u32
        ensures { result ≡ self.now }
    {
        self.lanes
    }
}

impl<L: Ledger> Lane<L> {
    /// Sends a command, which is answered under the lock.
    pub fn send<R: Wait>(
        &mut self,
        shared: &Shared<L>,
        rt: &R,
        command: Command,
    ) -> Result<Reply, Unsaid>
        requires { self.old.number < shared.now }
        ensures ok { IfOk result (λ reply. self.new ≡ said self.old command reply self.new.seen) }
        ensures carried { IfOk result (λ reply. Carries reply self.new.seen) }
        ensures back { IfErr result (λ unsaid. unsaid.command ≡ command) }
        ensures err { OnErr result (self.new ≡ self.old) }
    {
        let mut held = shared.held.lock(rt);
        let _lanes = held.lanes();
        let reply = held.step(self, command)?;
        let some_look = held.some_look();
        drop(held);
        shared.tell(some_look);
        Ok(reply)
    }

    /// Sends a command once it is not blocked, or no other lane goes on ([`Held::step_when_able`]).
    pub fn send_when_able<R: Wait>(
        &mut self,
        shared: &Shared<L>,
        rt: &R,
        command: Command,
    ) -> Result<Reply, Unsaid>
        requires { self.old.number < shared.now }
        ensures ok { IfOk result (λ reply. self.new ≡ said self.old command reply self.new.seen) }
        ensures carried { IfOk result (λ reply. Carries reply self.new.seen) }
        ensures back { IfErr result (λ unsaid. unsaid.command ≡ command) }
        ensures err { OnErr result (self.new ≡ self.old) }
    {
        let mut held = shared.held.lock(rt);
        let mut command = command;
        for _ in rt.forever() {
            let _lanes = held.lanes();
            match held.step_when_able(self, command) {
                Ok(reply) => {
                    let some_look = held.some_look();
                    drop(held);
                    shared.tell(some_look);
                    return Ok(reply);
                }
                Err(NotAnswered::Unsaid(unsaid)) => return Err(unsaid),
                Err(NotAnswered::Waits(back)) => {
                    command = back;
                    held = shared.changed.wait(rt, held);
                }
            }
        }
        unreachable!()
    }
}

/// Takes the lanes back, and hands the desk out. It speaks of the lanes given and of the desk in its answer.
pub fn close<L: Ledger>(shared: Shared<L>, lanes: Vec<Lane<L>>) -> Result<Desk, CloseFault>
    ensures counted { IsOneOfEach (left_by result).lanes lanes.items
        → length (left_by result).journal ≡ entries_of lanes.items }
    ensures lanes { (left_by result).lanes ≡ shared }
    ensures ok { IfOk result (λ desk. IsOneOfEach desk.lanes lanes.items
        × AreStated desk.lanes desk.journal lanes.items) }
    ensures missing { IfErr result (λ fault. fault.code ≡ code.LaneMissing
        → IsMissing fault.desk.lanes lanes.items fault.lane) }
    ensures mismatch { IfErr result (λ fault. fault.code ≡ code.LaneMismatch
        → IsOneOfEach fault.desk.lanes lanes.items
        × IsMisstated fault.desk.lanes fault.desk.journal lanes.items fault.lane) }
    ensures not_stopped { IfErr result (λ fault. fault.code ≢ code.LaneStopped) }
{
    shared.into_held().close(lanes)
}
