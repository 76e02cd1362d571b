//! What commands change: the history, the breaks that stand, and the pause.
ghost use Rattle.std.specs.Prelude.{◌≡◌, ◌+◌, ◌++◌, ◌∷◌, [], Some, None, IfOk, OnOk, OnErr, is_none, is_some};
ghost use Rattle.std.specs.Prelude.{unwrap_or, if◌then◌else◌, length};
ghost use Rattle.rev_events.specs.declared.refusal.Refusal.TheVariants as refusal;
ghost use Rattle.rev_history.specs.Timeline.{accept_refusal, accepted_as, back_refusal, cone_numbers};
ghost use Rattle.rev_history.specs.Timeline.{cone_refusal, coned, greatest_kept, redo_refusal, redone};
ghost use Rattle.rev_history.specs.Timeline.{undo_refusal, undone};
ghost use Rattle.rev_commands.specs.declared.command.Command.TheVariants as command;
ghost use Rattle.rev_desk.specs.declared.reply.Reply.TheVariants as reply;
ghost use Rattle.rev_desk.specs.DeskState.{Does, IsReady, desk_state_value};
ghost use Rattle.rev_desk.specs.Breaks.{AreSound};
ghost use Rattle.rev_desk.specs.Machine.{answer_on, least_met, moved_on, refusal_on, refused_by, reply_on};
ghost use Rattle.rev_desk.specs.Machine.{stands, without_break};
ghost use Rattle.rev_desk.specs.BreakKeys.{point_break_key as point_break_key_in};

use crate::break_key::point_break_key;
use crate::breaks::Breaks;
use crate::reply::Reply;
use rev_commands::{Command, Point};
use rev_events::{Event, Fault, Refusal};
use rev_history::History;
use std::alloc::{AllocError, Global};

/// The history, the breaks that stand, and whether events wait for a `continue`.
pub(crate) struct DeskState {
    pub(crate) alloc: Global,
    pub(crate) history: History,
    pub(crate) breaks: Breaks,
    pub(crate) paused: bool,
}

impl Drop for DeskState {
    fn drop(self) {
        let DeskState {
            alloc: _alloc,
            history: _history,
            breaks: _breaks,
            paused: _paused,
        } = self;
    }
}

impl DeskState {
    /// Answers a command under the number of its entry. What it names is found already.
    pub(crate) fn carry_out(
        &mut self,
        number: u32,
        target: Option<u32>,
        command: &Command,
    ) -> Result<Reply, AllocError>
        requires { IsReady self.old number }
        ensures { Does self.old self.new number
            (refusal_on (desk_state_value self.old) target command.now)
            (answer_on (desk_state_value self.old) number target command.now)
            (moved_on (desk_state_value self.old) number target command.now) result }
    {
        match command {
            Command::Event(event) => self.happen(number, event),
            Command::Undo(_) => self.undo(number, target),
            Command::Redo(_) => self.redo(number, target),
            Command::Back => self.back(number),
            Command::Cone(_) => self.cone(number, target),
            Command::Break(point) => self.stop_at(number, point),
            Command::Unbreak(broken) => self.unbreak(number, *broken),
            Command::Continue => {
                self.paused = false;
                Ok(Reply::Accepted(number, None))
            }
        }
    }

    // An event happens, unless the desk is paused, and pauses it where it meets a break.
    fn happen(&mut self, number: u32, event: &Event) -> Result<Reply, AllocError>
        requires { IsReady self.old number }
        ensures { Does self.old self.new number
            (refusal_on (desk_state_value self.old) None (command.Event event.now))
            (answer_on (desk_state_value self.old) number None (command.Event event.now))
            (moved_on (desk_state_value self.old) number None (command.Event event.now)) result }
    {
        if self.paused {
            return Ok(Reply::Refused(Refusal::Paused));
        }
        let met = self.breaks.least_met(self.history.graph(), event)?;
        match self.history.accept(number, event) {
            Ok(()) => {
                self.paused = met.is_some();
                Ok(Reply::Accepted(number, met))
            }
            Err(Fault::Refused(refusal)) => Ok(Reply::Refused(refusal)),
            Err(Fault::Memory) => Err(AllocError),
        }
    }

    // The event that is named is taken back.
    fn undo(&mut self, number: u32, target: Option<u32>) -> Result<Reply, AllocError>
        requires { IsReady self.old number }
        ensures { Does self.old self.new number
            (refused_by (undo_refusal self.old.history.timeline) target)
            (reply.Accepted number None)
            (record (desk_state_value self.old) { history = undone (unwrap_or target 0) self.old.history.timeline })
            result }
    {
        let Some(target) = target else {
            return Ok(Reply::Refused(Refusal::NoSuchEvent));
        };
        match self.history.undo(target) {
            Ok(()) => Ok(Reply::Accepted(number, None)),
            Err(Fault::Refused(refusal)) => Ok(Reply::Refused(refusal)),
            Err(Fault::Memory) => Err(AllocError),
        }
    }

    // The event that is named happens again.
    fn redo(&mut self, number: u32, target: Option<u32>) -> Result<Reply, AllocError>
        requires { IsReady self.old number }
        ensures { Does self.old self.new number
            (refused_by (redo_refusal self.old.history.timeline) target)
            (reply.Accepted number None)
            (record (desk_state_value self.old) { history = redone (unwrap_or target 0) self.old.history.timeline })
            result }
    {
        let Some(target) = target else {
            return Ok(Reply::Refused(Refusal::NoSuchEvent));
        };
        match self.history.redo(target) {
            Ok(()) => Ok(Reply::Accepted(number, None)),
            Err(Fault::Refused(refusal)) => Ok(Reply::Refused(refusal)),
            Err(Fault::Memory) => Err(AllocError),
        }
    }

    // The kept event of the greatest number is taken back.
    fn back(&mut self, number: u32) -> Result<Reply, AllocError>
        requires { IsReady self.old number }
        ensures { Does self.old self.new number (back_refusal self.old.history.timeline) (reply.Accepted number None)
            (record (desk_state_value self.old) {
              history = undone (unwrap_or (greatest_kept self.old.history.timeline) 0) self.old.history.timeline;
            })
            result }
    {
        match self.history.back() {
            Ok(_) => Ok(Reply::Accepted(number, None)),
            Err(Fault::Refused(refusal)) => Ok(Reply::Refused(refusal)),
            Err(Fault::Memory) => Err(AllocError),
        }
    }

    // The event that is named is taken back with all that depends on it.
    fn cone(&mut self, number: u32, target: Option<u32>) -> Result<Reply, AllocError>
        requires { IsReady self.old number }
        ensures { Does self.old self.new number
            (refused_by (cone_refusal self.old.history.timeline) target)
            (reply.Coned number (length (cone_numbers (unwrap_or target 0) self.old.history.timeline)))
            (record (desk_state_value self.old) { history = coned (unwrap_or target 0) self.old.history.timeline })
            result }
    {
        let Some(target) = target else {
            return Ok(Reply::Refused(Refusal::NoSuchEvent));
        };
        match self.history.cone(target) {
            Ok(members) => Ok(Reply::Coned(number, members.len() as u64)),
            Err(Fault::Refused(refusal)) => Ok(Reply::Refused(refusal)),
            Err(Fault::Memory) => Err(AllocError),
        }
    }

    // A break stands from now on.
    fn stop_at(&mut self, number: u32, point: &Point) -> Result<Reply, AllocError>
        requires { IsReady self.old number }
        ensures { Does self.old self.new number
            (refusal_on (desk_state_value self.old) None (command.Break point.now))
            (reply.Accepted number None)
            (record (desk_state_value self.old) { breaks = self.old.breaks.standing.items ++ (number, point.now) ∷ [] })
            result }
    {
        let graph = self.history.graph();
        let Some(break_key) = point_break_key(graph, point)? else {
            return Ok(Reply::Refused(Refusal::NoSuchEdge));
        };
        let point = point.copy()?;
        self.breaks
            .add(self.alloc, graph, number, point, break_key)?;
        Ok(Reply::Accepted(number, None))
    }

    // A break stands no more.
    fn unbreak(&mut self, number: u32, broken: u32) -> Result<Reply, AllocError>
        requires { IsReady self.old number }
        ensures { Does self.old self.new number
            (refusal_on (desk_state_value self.old) None (command.Unbreak broken))
            (reply.Accepted number None)
            (record (desk_state_value self.old) { breaks = without_break broken self.old.breaks.standing.items })
            result }
    {
        let graph = self.history.graph();
        if !self.breaks.stands(broken) {
            return Ok(Reply::Refused(Refusal::NoSuchBreak));
        }
        self.breaks.remove(graph, broken)?;
        Ok(Reply::Accepted(number, None))
    }

    /// The reply that a command would have now under the number of its entry.
    pub(crate) fn verdict(
        &self,
        number: u32,
        target: Option<u32>,
        command: &Command,
    ) -> Result<Reply, AllocError>
        requires { AreSound self.now.history.timeline.manifest self.now.breaks }
        ensures { IfOk result (λ reply. reply ≡ reply_on (desk_state_value self.now) number target command.now) }
    {
        if let Some(refusal) = self.refused(target, command)? {
            return Ok(Reply::Refused(refusal));
        }
        match (command, target) {
            (Command::Event(event), _) => {
                let met = self.breaks.least_met(self.history.graph(), event)?;
                Ok(Reply::Accepted(number, met))
            }
            (Command::Cone(_), Some(target)) => {
                let members = self.history.members(target)?;
                Ok(Reply::Coned(number, members.len() as u64))
            }
            _ => Ok(Reply::Accepted(number, None)),
        }
    }

    // Why a command is refused now, where it is.
    fn refused(&self, target: Option<u32>, command: &Command) -> Result<Option<Refusal>, AllocError>
        requires { AreSound self.now.history.timeline.manifest self.now.breaks }
        ensures { IfOk result (λ refused. refused ≡ refusal_on (desk_state_value self.now) target command.now) }
    {
        match command {
            Command::Event(event) => self.event_refused(event),
            Command::Undo(_) => Ok(self.undo_refused(target)),
            Command::Redo(_) => self.redo_refused(target),
            Command::Back => Ok(self.history.back_refused()),
            Command::Cone(_) => Ok(self.cone_refused(target)),
            Command::Break(point) => self.break_refused(point),
            Command::Unbreak(number) => Ok(self.unbreak_refused(*number)),
            Command::Continue => Ok(None),
        }
    }

    fn event_refused(&self, event: &Event) -> Result<Option<Refusal>, AllocError>
        ensures { IfOk result
            (λ refused. refused ≡ refusal_on (desk_state_value self.now) None (command.Event event.now)) }
    {
        if self.paused {
            return Ok(Some(Refusal::Paused));
        }
        self.history.accept_refused(event)
    }

    fn undo_refused(&self, target: Option<u32>) -> Option<Refusal>
        ensures { result ≡ refused_by (undo_refusal self.now.history.timeline) target }
    {
        match target {
            Some(target) => self.history.undo_refused(target),
            None => Some(Refusal::NoSuchEvent),
        }
    }

    fn redo_refused(&self, target: Option<u32>) -> Result<Option<Refusal>, AllocError>
        ensures { IfOk result (λ refused. refused
            ≡ refused_by (redo_refusal self.now.history.timeline) target) }
    {
        match target {
            Some(target) => self.history.redo_refused(target),
            None => Ok(Some(Refusal::NoSuchEvent)),
        }
    }

    fn cone_refused(&self, target: Option<u32>) -> Option<Refusal>
        ensures { result ≡ refused_by (cone_refusal self.now.history.timeline) target }
    {
        match target {
            Some(target) => self.history.cone_refused(target),
            None => Some(Refusal::NoSuchEvent),
        }
    }

    fn break_refused(&self, point: &Point) -> Result<Option<Refusal>, AllocError>
        ensures { IfOk result
            (λ refused. refused ≡ refusal_on (desk_state_value self.now) None (command.Break point.now)) }
    {
        match point_break_key(self.history.graph(), point)? {
            Some(_) => Ok(None),
            None => Ok(Some(Refusal::NoSuchEdge)),
        }
    }

    fn unbreak_refused(&self, number: u32) -> Option<Refusal>
        requires { AreSound self.now.history.timeline.manifest self.now.breaks }
        ensures { result ≡ refusal_on (desk_state_value self.now) None (command.Unbreak number) }
    {
        if self.breaks.stands(number) {
            return None;
        }
        Some(Refusal::NoSuchBreak)
    }
}
