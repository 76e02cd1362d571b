//! The desk.
ghost use Rattle.std.specs.Prelude.{◌≡◌, ◌↔◌, ◌<◌, ◌≤◌, ◌^◌, ◌⊎◌, ◌+◌, length, IfOk, OnOk, OnErr, IfErr};
ghost use Rattle.std.specs.Prelude.{IsErrOf, IsErrAnd};
ghost use Rattle.rev_causal.specs.Chosen.{IsRising};
ghost use Rattle.rev_desk.specs.declared.fault.Why.TheVariants as why;
ghost use Rattle.rev_desk.specs.Machine.{after, answer_on, moved_on, named, opened_desk, refusal_on, reply_to, target};
ghost use Rattle.rev_desk.specs.Sound.{IsDesk};
ghost use Rattle.rev_desk.specs.DeskState.{Does, IsReady, desk_state_value};
ghost use Rattle.rev_desk.specs.Journal.{HasRoom, IsIndexed};
ghost use Rattle.rev_desk.specs.BreakKeys.{numbers_of};

use crate::breaks::Breaks;
use crate::desk_state::DeskState;
use crate::fault::{DeskFault, Unsaid, Why};
use crate::journal::Journal;
use crate::reply::{Entry, Reply};
use rev_cells::Opening;
use rev_commands::{Command, Point, Which};
use rev_graph::Graph;
use rev_history::History;
use std::alloc::{AllocError, Global};
use std::marker::Model;

/// One history that several lanes change by commands. Each command is answered at once and makes one entry of the
/// journal, also where it is refused. The journal alone says where the desk stands: its commands, answered from the
/// opening, lead to the history, to the breaks that stand, and to the pause.
pub struct Desk {
    desk_state: DeskState,
    journal: Journal,
}

impl Drop for Desk {
    fn drop(self) {
        let Desk {
            desk_state: _desk_state,
            journal: _journal,
        } = self;
    }
}

impl Model for Desk {
    ghost use Rattle.rev_desk.specs.Machine.{DeskValue, desk_code};

    ghost Value = { DeskValue };

    ghost coded = { desk_code };

    ghost use Rattle.rev_desk.specs.Inside.{value_of, IsSound};

    ghost view = { value_of };

    ghost invariant = { IsSound };
}

impl Desk {
    /// The most lanes that a desk has.
    pub const MAX_LANES: u32 = 64;

    /// The most entries that a journal has.
    pub const MAX_ENTRIES: usize = Journal::MAX_ENTRIES;

    /// A new desk with an empty journal.
    ///
    /// # Errors
    /// [`DeskFault::BadLanes`] unless there are 1 to 64 lanes; [`DeskFault::Memory`] only where an allocation was
    /// refused.
    pub fn new(
        alloc: Global,
        graph: Graph,
        opening: &Opening,
        lanes: u32,
    ) -> Result<Desk, DeskFault>
        ensures ok { IfOk result
            (λ desk. desk ≡ opened_desk graph.manifest opening.now.jobs opening.now.state lanes) }
        ensures bad_lanes { IsErrOf result DeskFault.BadLanes ↔ ((lanes ≡ 0) ⊎ (Self.MAX_LANES < lanes)) }
    {
        if lanes == 0 || lanes > Self::MAX_LANES {
            return Err(DeskFault::BadLanes);
        }
        // A build starts and ends each edge once, and there are its plans and the like.
        let usual = (graph.edges() as usize)
            .saturating_mul(2)
            .saturating_add(64);
        let history = History::new(alloc, graph, opening)?;
        let journal = Journal::new(alloc, lanes, usual)?;
        let breaks = Breaks::new(alloc);
        Ok(Desk {
            desk_state: DeskState {
                alloc,
                history,
                breaks,
                paused: false,
            },
            journal,
        })
    }

    /// How many lanes there are, which is 1 to 64.
    pub fn lanes(&self) -> u32
        ensures lanes { result ≡ self.now.lanes }
        ensures some { 1 ≤ self.now.lanes }
        ensures most { self.now.lanes ≤ Self.MAX_LANES }
    {
        self.journal.lanes()
    }

    /// All that was said and answered, in its order: at most 1,048,576 entries, whose numbers are their places from 1.
    pub fn journal(&self) -> &[Entry]
        ensures journal { result.now ≡ self.now.journal }
        ensures few { length self.now.journal ≤ Self.MAX_ENTRIES }
        ensures legal { IsDesk self.now }
    {
        self.journal.entries()
    }

    /// The history.
    pub fn history(&self) -> &History
        ensures history { result.now.timeline ≡ self.now.history }
        ensures legal { IsDesk self.now }
    {
        &self.desk_state.history
    }

    /// Whether events wait for a `continue`.
    pub fn paused(&self) -> bool
        ensures { result ≡ self.now.paused }
    {
        self.desk_state.paused
    }

    /// The breaks that stand, under their numbers, which rise.
    pub fn breaks(&self) -> &[(u32, Point)]
        ensures breaks { result.now ≡ self.now.breaks }
        ensures rising { IsRising (numbers_of result.now) }
    {
        self.desk_state.breaks.standing()
    }

    /// The number that a name stands for. A number stands for itself. A label stands for the entry of that place among
    /// its lane's, where this entry is an accepted event, undone since or not.
    pub fn named(&self, which: Which) -> Option<u32>
        ensures { result ≡ named self.now.journal which }
    {
        self.journal.named(which)
    }

    /// Answers a command of a lane, and makes an entry of it.
    ///
    /// # Errors
    /// [`Why::JournalFull`] exactly where the journal has 1,048,576 entries, before any memory is asked for;
    /// [`Why::Memory`] only where an allocation was refused. The command comes back, and nothing has changed.
    pub fn apply(&mut self, lane: u32, command: Command) -> Result<Reply, Unsaid>
        requires { lane < self.old.lanes }
        ensures reply { IfOk result (λ reply. reply ≡ reply_to self.old command) }
        ensures ok { OnOk result (self.new ≡ after self.old lane command) }
        ensures full { IsErrAnd result (λ unsaid. unsaid.why ≡ why.JournalFull)
            ↔ (length self.old.journal ≡ Self.MAX_ENTRIES) }
        ensures back { IfErr result (λ unsaid. unsaid.command ≡ command) }
        ensures err { OnErr result (self.new ≡ self.old) }
    {
        if self.journal.is_full() {
            return Err(Unsaid {
                why: Why::JournalFull,
                command,
            });
        }
        let Ok(reply) = answered(&mut self.desk_state, &mut self.journal, lane, &command) else {
            return Err(Unsaid {
                why: Why::Memory,
                command,
            });
        };
        let _kept = self.desk_state.history.kept();
        self.journal.push(lane, command, reply);
        Ok(reply)
    }

    /// The reply that `apply` would give now, were there room in the journal.
    pub fn verdict(&self, command: &Command) -> Result<Reply, AllocError>
        ensures { IfOk result (λ reply. reply ≡ reply_to self.now command.now) }
    {
        self.desk_state.verdict(
            self.journal.next_number(),
            self.journal.target(command),
            command,
        )
    }
}

// Makes room for the entry of a command, and then answers it.
fn answered(
    desk_state: &mut DeskState,
    journal: &mut Journal,
    lane: u32,
    command: &Command,
) -> Result<Reply, AllocError>
    requires ready { IsReady desk_state.old (length journal.old.entries.items + 1) }
    requires indexed { IsIndexed journal.old }
    requires few { length journal.old.entries.items < Desk.MAX_ENTRIES }
    requires lane { lane < length journal.old.numbers.items }
    ensures does { let n = length journal.old.entries.items + 1 in
        let m = target journal.old.entries.items command.now in
        Does desk_state.old desk_state.new n (refusal_on (desk_state_value desk_state.old) m command.now)
        (answer_on (desk_state_value desk_state.old) n m command.now)
        (moved_on (desk_state_value desk_state.old) n m command.now) result }
    ensures entries { journal.new.entries.items ≡ journal.old.entries.items }
    ensures lanes { length journal.new.numbers.items ≡ length journal.old.numbers.items }
    ensures indexed { IsIndexed journal.new }
    ensures room { OnOk result (HasRoom journal.new lane) }
{
    journal.reserve(lane)?;
    desk_state.carry_out(journal.next_number(), journal.target(command), command)
}
