//! What a line of a lane asks for.
ghost use Rattle.std.specs.Prelude.{◌≡◌, ◌↔◌, IfOk, IsTrue};

use crate::point::Point;
use crate::which::Which;
use rev_events::Event;
use std::alloc::AllocError;

/// A command of a lane or of a script.
#[derive(Debug, PartialEq, Eq)]
pub enum Command {
    /// This event happens.
    Event(Event),
    /// `undo WHICH`: the accepted event of this name is taken back.
    Undo(Which),
    /// `redo WHICH`: the accepted event of this name happens again.
    Redo(Which),
    /// `back`: the kept event of the greatest number is taken back.
    Back,
    /// `cone WHICH`: the kept event of this name is taken back with all that depends on it.
    Cone(Which),
    /// `break POINT`: events that meet the point pause the desk from now on.
    Break(Point),
    /// `unbreak N`: the break of this number stands no more.
    Unbreak(u32),
    /// `continue`: the desk is not paused any more.
    Continue,
}

impl Drop for Command {
    fn drop(self) {
        match self {
            Command::Event(_part) => {}
            Command::Undo(_part) => {}
            Command::Redo(_part) => {}
            Command::Back => {}
            Command::Cone(_part) => {}
            Command::Break(_part) => {}
            Command::Unbreak(_part) => {}
            Command::Continue => {}
        }
    }
}

impl Command {
    /// Whether two commands are equal.
    pub fn same(&self, other: &Command) -> bool
        ensures { IsTrue result ↔ (self.now ≡ other.now) }
    {
        match (self, other) {
            (Command::Event(event), Command::Event(other)) => same_event(event, other),
            (Command::Undo(which), Command::Undo(other))
            | (Command::Redo(which), Command::Redo(other))
            | (Command::Cone(which), Command::Cone(other)) => which == other,
            (Command::Break(point), Command::Break(other)) => point.same(other),
            (Command::Unbreak(number), Command::Unbreak(other)) => number == other,
            (Command::Back, Command::Back) | (Command::Continue, Command::Continue) => true,
            _ => false,
        }
    }

    /// An equal command.
    pub fn copy(&self) -> Result<Command, AllocError>
        ensures { IfOk result (λ copy. copy ≡ self.now) }
    {
        match self {
            Command::Event(event) => Ok(Command::Event(event.copy()?)),
            Command::Undo(which) => Ok(Command::Undo(*which)),
            Command::Redo(which) => Ok(Command::Redo(*which)),
            Command::Back => Ok(Command::Back),
            Command::Cone(which) => Ok(Command::Cone(*which)),
            Command::Break(point) => Ok(Command::Break(point.copy()?)),
            Command::Unbreak(number) => Ok(Command::Unbreak(*number)),
            Command::Continue => Ok(Command::Continue),
        }
    }
}

// Whether two events are equal.
fn same_event(event: &Event, other: &Event) -> bool
    ensures { IsTrue result ↔ (event.now ≡ other.now) }
{
    event == other
}
