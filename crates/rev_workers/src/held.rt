//! What lies under the lock.
ghost use Rattle.std.specs.Prelude.{◌≡◌, ◌≢◌, ◌<◌, ◌≤◌, ◌^◌, ℕ, Some, None, IfOk, IfErr, OnOk, OnErr, length, slice_get, slice_set};
ghost use Rattle.rev_commands.specs.declared.command.Command.{Command};
ghost use Rattle.rev_desk.specs.declared.fault.Unsaid.{Unsaid};
ghost use Rattle.rev_desk.specs.Machine.{reply_to, after};
ghost use Rattle.rev_desk.specs.declared.fault.Why.TheVariants as why;
ghost use Rattle.rev_workers.specs.Closing.{AreStated, IsMissing, IsMisstated, IsOneOfEach, entries_of, left_by};
ghost use Rattle.rev_workers.specs.declared.fault.CloseCode.TheVariants as code;
ghost use Rattle.std.specs.List.{AllByRecursion, list_any};
ghost use Rattle.rev_workers.specs.Tracks.{Track, Carries, fresh, said};
ghost use Rattle.rev_workers.specs.declared.held.NotAnswered.TheVariants as not_answered;
ghost use Rattle.rev_workers.specs.declared.standing.Standing.TheVariants as standing;
ghost use Rattle.rev_workers.specs.Waiting.{BeginsToWait, MayPass, OthersAreStill, OthersRest, Stands, WhoWaitsIsRefused};
ghost use Rattle.rev_workers.specs.Waiting.{is_to_look, standings_after};

use crate::closing::{missing, misstated, settle};
use crate::fault::{CloseCode, CloseFault};
use crate::lane::{Lane, base_of};
use crate::standing::{
    Standing, is_for_input, is_touch, keep_waiting, may_pass, others_are_still, some_look,
    stand_at_first,
};
use rev_desk::{Command, Desk, Reply, Unsaid, Why};
use std::alloc::{AllocError, Global};
use std::marker::Model;
use std::snapshot::Snapshot;
use std::sync::ledger::{Blank, Book, Ledger};

/// Why a command that waits until it is able has no answer.
#[derive(Drop)]
pub enum NotAnswered {
    /// It is to wait.
    Waits(Command),
    /// It can make no entry.
    Unsaid(Unsaid),
}

/// A desk, the book of its ledger, and how each lane stands. Contracts see the desk and the standings. A lane that waits
/// and need not look again has a command that this very desk refuses with 68, 72 or 74.
pub struct Held<L: Ledger> {
    desk: Desk,
    book: Book<L>,
    standings: Vec<Standing>,
}

impl<L: Ledger> Drop for Held<L> {
    fn drop(self) {
        let Held {
            desk: _desk,
            book: _book,
            standings: _standings,
        } = self;
    }
}

impl<L: Ledger> Model for Held<L> {
    ghost use Rattle.std.specs.Prelude.{◌≡◌, ◌<◌, length};
    ghost use Rattle.std.specs.List.{AllByRecursion};
    ghost use Rattle.rev_workers.specs.Locked.{Locked, coded_locked};
    ghost use Rattle.rev_workers.specs.Waiting.{Stands};

    ghost Value = { Locked };

    ghost coded = { coded_locked };

    ghost view = { λ h. record { desk = h.desk; standings = h.standings.items } };

    ghost invariant = { λ h. (h.book.total ≡ length h.desk.journal) × (h.desk.lanes ≡ L.parts)
        × (length h.standings.items ≡ L.parts) × (0 < L.parts)
        × AllByRecursion (Stands h.desk) h.standings.items };
}

impl<L: Ledger> Held<L> {
    /// Puts a desk under a ledger of as many parts as it has lanes, and makes its lanes in rising number.
    pub fn new(
        alloc: Global,
        desk: Desk,
        blank: Blank,
    ) -> Result<(Held<L>, Vec<Lane<L>>), AllocError>
        requires name { blank.name ≡ L.name }
        requires parts { blank.parts ≡ L.parts }
        requires lanes { blank.parts ≡ desk.lanes }
        ensures desk { IfOk result (λ made. made.0.desk ≡ desk) }
        ensures count { IfOk result (λ made. length made.1.items ≡ desk.lanes) }
        ensures lanes { IfOk result (λ made. (k : ℕ) → k < desk.lanes
            → slice_get made.1.items k ≡ Some (fresh (length desk.journal) k)) }
        ensures numbers { IfOk result (λ made. AllByRecursion (λ (t : Track). t.number < desk.lanes) made.1.items) }
    {
        let (mut book, mut rest) = blank.open::<L>();
        let entries = desk.journal().len() as u64;
        let mut lanes = Vec::new(alloc);
        let mut standings = Vec::new(alloc);
        for number in 0..desk.lanes() {
            let mut share = rest.split_off(1, 0);
            book.add(&mut share, base_of(entries, number));
            lanes.push(Lane::fresh(alloc, number, entries, share))?;
            standings.push(Standing::Going)?;
        }
        Ok((
            Held {
                desk,
                book,
                standings,
            },
            lanes,
        ))
    }

    /// Answers a command of a lane. Of a command that was not answered nothing is changed.
    pub fn step(&mut self, lane: &mut Lane<L>, command: Command) -> Result<Reply, Unsaid>
        requires { lane.old.number < self.old.desk.lanes }
        ensures reply { IfOk result (λ reply. reply ≡ reply_to self.old.desk command) }
        ensures desk { OnOk result (self.new.desk ≡ after self.old.desk lane.old.number command) }
        ensures standings { OnOk result (self.new.standings
            ≡ standings_after self.old.desk command self.old.standings) }
        ensures lane { IfOk result (λ reply. lane.new
            ≡ said lane.old command reply (length self.new.desk.journal)) }
        ensures carried { IfOk result (λ reply. Carries reply lane.new.seen) }
        ensures full { IfErr result (λ unsaid. (unsaid.why ≡ why.JournalFull)
            → (length self.old.desk.journal ≡ Desk.MAX_ENTRIES)) }
        ensures back { IfErr result (λ unsaid. unsaid.command ≡ command) }
        ensures same { OnErr result (self.new ≡ self.old) }
        ensures same_lane { OnErr result (lane.new ≡ lane.old) }
    {
        let Ok(copy) = command.copy() else {
            return Err(Unsaid {
                why: Why::Memory,
                command,
            });
        };
        if lane.list.reserve(1).is_err() {
            return Err(Unsaid {
                why: Why::Memory,
                command,
            });
        }
        let entries = self.desk.journal().len() as u64;
        let touches = is_touch(&command);
        let reply = self.desk.apply(lane.number, command)?;
        self.book.add(&mut lane.share, 1);
        lane.seen = self.desk.journal().len() as u64;
        lane.list.push_reserved((copy, reply));
        keep_waiting(&mut self.standings, entries, touches, reply);
        Ok(reply)
    }

    /// Answers a command of a lane, or has the lane wait: it waits exactly where the command is refused 68, 72 or 74
    /// and another lane goes on. So such a refusal is answered only where every other lane has ended, or waits with a
    /// command that this very desk refuses so.
    pub fn step_when_able(
        &mut self,
        lane: &mut Lane<L>,
        command: Command,
    ) -> Result<Reply, NotAnswered>
        requires { lane.old.number < self.old.desk.lanes }
        ensures reply { IfOk result (λ reply. reply ≡ reply_to self.old.desk command) }
        ensures able { IfOk result (λ reply. MayPass reply
            → OthersRest lane.old.number self.old.desk self.old.standings) }
        ensures desk { OnOk result (self.new.desk ≡ after self.old.desk lane.old.number command) }
        ensures lane { IfOk result (λ reply. lane.new
            ≡ said lane.old command reply (length self.new.desk.journal)) }
        ensures carried { IfOk result (λ reply. Carries reply lane.new.seen) }
        ensures goes { OnOk result (self.new.standings ≡ standings_after self.old.desk command
            (slice_set self.old.standings lane.old.number standing.Going)) }
        ensures waits { IfErr result (λ why. (c : Command) → why ≡ not_answered.Waits c
            → (c ≡ command) × MayPass (reply_to self.old.desk command)
            × ¬ (OthersAreStill lane.old.number (length self.old.desk.journal) self.old.standings)
            × BeginsToWait self.old.desk lane.old.number command self.old.standings self.new.standings) }
        ensures unsaid { IfErr result (λ why. (u : Unsaid) → why ≡ not_answered.Unsaid u
            → (u.command ≡ command)
            × (self.new.standings ≡ slice_set self.old.standings lane.old.number standing.Going)) }
        ensures same { OnErr result (self.new.desk ≡ self.old.desk) }
        ensures same_lane { OnErr result (lane.new ≡ lane.old) }
    {
        let entries = self.desk.journal().len() as u64;
        if !others_are_still(&self.standings, lane.number, entries) {
            let Ok(verdict) = self.desk.verdict(&command) else {
                self.stand(lane.number, Standing::Going);
                return Err(NotAnswered::Unsaid(Unsaid {
                    why: Why::Memory,
                    command,
                }));
            };
            if may_pass(verdict) {
                let standing = Standing::Waiting {
                    refused_at: entries,
                    for_input: is_for_input(&command, verdict),
                    command: Snapshot::of(&command),
                };
                self.stand(lane.number, standing);
                return Err(NotAnswered::Waits(command));
            }
        }
        self.stand(lane.number, Standing::Going);
        match self.step(lane, command) {
            Ok(answer) => Ok(answer),
            Err(unsaid) => Err(NotAnswered::Unsaid(unsaid)),
        }
    }

    /// Takes the lanes back, and hands the desk out.
    pub(crate) fn close(self, lanes: Vec<Lane<L>>) -> Result<Desk, CloseFault>
        ensures desk { left_by result ≡ self.desk }
        ensures counted { IsOneOfEach (left_by result).lanes lanes.items
            → length (left_by result).journal ≡ entries_of lanes.items }
        ensures ok { IfOk result (λ desk. IsOneOfEach desk.lanes lanes.items
            × AreStated desk.lanes desk.journal lanes.items) }
        ensures missing { IfErr result (λ fault. fault.code ≡ code.LaneMissing
            → IsMissing fault.desk.lanes lanes.items fault.lane) }
        ensures mismatch { IfErr result (λ fault. fault.code ≡ code.LaneMismatch
            → IsOneOfEach fault.desk.lanes lanes.items
            × IsMisstated fault.desk.lanes fault.desk.journal lanes.items fault.lane) }
        ensures not_stopped { IfErr result (λ fault. fault.code ≢ code.LaneStopped) }
    {
        let count = self.desk.lanes();
        let misstated = misstated(&lanes, count, self.desk.journal());
        self.close_by(lanes, misstated)
    }

    // Takes the lanes back, of which the least is given whose list is not its part of the journal, where there is one.
    pub(crate) fn close_by(
        self,
        lanes: Vec<Lane<L>>,
        misstated: Option<u32>,
    ) -> Result<Desk, CloseFault>
        ensures desk { left_by result ≡ self.desk }
        ensures counted { IsOneOfEach (left_by result).lanes lanes.items
            → length (left_by result).journal ≡ entries_of lanes.items }
        ensures ok { OnOk result (misstated ≡ None × IsOneOfEach self.desk.lanes lanes.items) }
        ensures missing { IfErr result (λ fault. fault.code ≡ code.LaneMissing
            → IsMissing fault.desk.lanes lanes.items fault.lane) }
        ensures mismatch { IfErr result (λ fault. fault.code ≡ code.LaneMismatch
            → IsOneOfEach fault.desk.lanes lanes.items × (misstated ≡ Some fault.lane)) }
        ensures not_stopped { IfErr result (λ fault. fault.code ≢ code.LaneStopped) }
    {
        let count = self.desk.lanes();
        let missing = missing(&lanes, count);
        let Held {
            desk,
            book,
            standings: _,
        } = self;
        settle(book, lanes);
        if let Some(lane) = missing {
            return Err(CloseFault {
                code: CloseCode::LaneMissing,
                lane,
                desk,
            });
        }
        if let Some(lane) = misstated {
            return Err(CloseFault {
                code: CloseCode::LaneMismatch,
                lane,
                desk,
            });
        }
        Ok(desk)
    }

    // How many lanes there are: one for each part of the ledger.
    pub(crate) fn lanes(&self) -> u32
        ensures lanes { result ≡ self.now.desk.lanes }
        ensures parts { self.now.desk.lanes ≡ L.parts }
    {
        self.desk.lanes()
    }

    // Notes that these lanes go on, and that all others have ended.
    pub(crate) fn begin(&mut self, lanes: &[Lane<L>])
        ensures { self.new.desk ≡ self.old.desk }
    {
        stand_at_first(&mut self.standings, lanes);
    }

    // The desk alone.
    pub(crate) fn into_desk(self) -> Desk
        ensures { result ≡ self.desk }
    {
        let Held {
            desk,
            book: _book,
            standings: _standings,
        } = self;
        desk
    }

    // Whether some lane waits that is to look again.
    pub(crate) fn some_look(&self) -> bool
        ensures { result ≡ list_any (is_to_look (length self.now.desk.journal)) self.now.standings }
    {
        some_look(&self.standings, self.desk.journal().len() as u64)
    }

    // A lane stopped: the desk alone comes back.
    pub(crate) fn stopped_at(self, lane: u32) -> CloseFault
        ensures code { result.code ≡ code.LaneStopped }
        ensures lane { result.lane ≡ lane }
        ensures desk { result.desk ≡ self.desk }
    {
        CloseFault {
            code: CloseCode::LaneStopped,
            lane,
            desk: self.into_desk(),
        }
    }

    // Notes how a lane stands.
    pub(crate) fn stand(&mut self, number: u32, standing: Standing)
        requires lane { number < self.old.desk.lanes }
        requires stands { Stands self.old.desk standing }
        ensures { self.new ≡ record self.old { standings = slice_set self.old.standings number standing } }
    {
        self.standings[number as usize] = standing;
    }

    /// The desk. It refuses the command of each lane that waits and need not look again.
    pub fn desk(&self) -> &Desk
        ensures desk { result.now ≡ self.now.desk }
        ensures refused { WhoWaitsIsRefused self.now.desk self.now.standings }
    {
        &self.desk
    }
}
