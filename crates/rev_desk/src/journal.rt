//! The journal, and where each lane's entries stand in it.
ghost use Rattle.std.specs.Prelude.{◌≡◌, ◌+◌, ◌<◌, ◌≤◌, ◌==◌, ◌^◌, [], ◌∷◌, ◌++◌, ◌↔◌, length, IfOk, OnOk, IsTrue};
ghost use Rattle.rev_desk.specs.Names.{accepted_event, at_place, lane_numbers, named, target};
ghost use Rattle.rev_desk.specs.Journal.{HasRoom, IsIndexed};

use crate::reply::{Entry, Reply};
use rev_commands::{Command, Which};
use std::alloc::{AllocError, Global};

/// The entries, and each lane's numbers of its own, so that a label is looked up at once.
pub(crate) struct Journal {
    pub(crate) entries: Vec<Entry>,
    pub(crate) numbers: Vec<Vec<u32>>,
}

impl Drop for Journal {
    fn drop(self) {
        let Journal {
            entries: _entries,
            numbers: _numbers,
        } = self;
    }
}

// The number at a place that counts from 1.
fn number_at(numbers: &[u32], place: u32) -> Option<u32>
    ensures { result ≡ at_place numbers.now place }
{
    let index = place.checked_sub(1)?;
    numbers.get(index as usize).copied()
}

impl Journal {
    /// The most entries.
    pub(crate) const MAX_ENTRIES: usize = 1_048_576;

    /// No entries, of so many lanes, with room for as many as are usual.
    pub(crate) fn new(alloc: Global, lanes: u32, usual: usize) -> Result<Journal, AllocError>
        ensures entries { IfOk result (λ j. j.entries.items ≡ []) }
        ensures lanes { IfOk result (λ j. length j.numbers.items ≡ lanes) }
        ensures indexed { IfOk result (λ j. IsIndexed j) }
    {
        let mut numbers = Vec::new(alloc);
        for _ in 0..lanes {
            numbers.push(Vec::new(alloc))?;
        }
        let entries = Vec::with_capacity(alloc, usual)?;
        Ok(Journal { entries, numbers })
    }

    /// How many lanes there are.
    pub(crate) fn lanes(&self) -> u32
        requires { length self.now.numbers.items ≤ 64 }
        ensures { result ≡ length self.now.numbers.items }
    {
        self.numbers.len() as u32
    }

    /// The entries in their order.
    pub(crate) fn entries(&self) -> &[Entry]
        ensures { result.now ≡ self.now.entries.items }
    {
        self.entries.as_slice()
    }

    /// Whether there are as many entries as there may be.
    pub(crate) fn is_full(&self) -> bool
        ensures { IsTrue result ↔ (Self.MAX_ENTRIES ≤ length self.now.entries.items) }
    {
        self.entries.len() >= Self::MAX_ENTRIES
    }

    /// The number of the next entry.
    pub(crate) fn next_number(&self) -> u32
        requires { length self.now.entries.items ≤ Self.MAX_ENTRIES }
        ensures { result ≡ length self.now.entries.items + 1 }
    {
        self.entries.len() as u32 + 1
    }

    /// The number of the event that a name stands for.
    pub(crate) fn named(&self, which: Which) -> Option<u32>
        requires { IsIndexed self.now }
        ensures { result ≡ named self.now.entries.items which }
    {
        match which {
            Which::Number(number) => Some(number),
            Which::Label { lane, place } => {
                let number = number_at(self.lane_numbers(lane), place)?;
                self.accepted_event(number)
            }
        }
    }

    // The numbers of a lane's entries, none where there is no such lane.
    fn lane_numbers(&self, lane: u32) -> &[u32]
        requires { IsIndexed self.now }
        ensures { result.now ≡ lane_numbers self.now.entries.items lane }
    {
        match self.numbers.get(lane as usize) {
            Some(numbers) => numbers.as_slice(),
            None => &[],
        }
    }

    // The number, where its entry is an event that was accepted.
    fn accepted_event(&self, number: u32) -> Option<u32>
        ensures { result ≡ accepted_event self.now.entries.items number }
    {
        let entry = self.entries.get(number.checked_sub(1)? as usize)?;
        match (&entry.command, entry.reply) {
            (Command::Event(_), Reply::Accepted(_, _)) => Some(number),
            _ => None,
        }
    }

    /// The number of the event that a command names, where it names one.
    pub(crate) fn target(&self, command: &Command) -> Option<u32>
        requires { IsIndexed self.now }
        ensures { result ≡ target self.now.entries.items command.now }
    {
        match command {
            Command::Undo(which) | Command::Redo(which) | Command::Cone(which) => {
                self.named(*which)
            }
            _ => None,
        }
    }

    /// Makes room for an entry of a lane.
    pub(crate) fn reserve(&mut self, lane: u32) -> Result<(), AllocError>
        requires indexed { IsIndexed self.old }
        requires lane { lane < length self.old.numbers.items }
        ensures entries { self.new.entries.items ≡ self.old.entries.items }
        ensures lanes { length self.new.numbers.items ≡ length self.old.numbers.items }
        ensures indexed { IsIndexed self.new }
        ensures room { OnOk result (HasRoom self.new lane) }
    {
        self.entries.reserve(1)?;
        self.numbers[lane as usize].reserve(1)?;
        Ok(())
    }

    /// Adds an entry, for which room was made.
    pub(crate) fn push(&mut self, lane: u32, command: Command, reply: Reply)
        requires indexed { IsIndexed self.old }
        requires few { length self.old.entries.items < Self.MAX_ENTRIES }
        requires lane { lane < length self.old.numbers.items }
        requires room { HasRoom self.old lane }
        ensures entries { self.new.entries.items ≡
            self.old.entries.items ++ record { lane = lane; command = command; reply = reply } ∷ [] }
        ensures lanes { length self.new.numbers.items ≡ length self.old.numbers.items }
        ensures indexed { IsIndexed self.new }
    {
        let number = self.next_number();
        self.numbers[lane as usize].push_reserved(number);
        self.entries.push_reserved(Entry {
            lane,
            command,
            reply,
        });
    }
}
