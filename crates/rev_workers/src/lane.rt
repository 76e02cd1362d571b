//! A lane's token.
ghost use Rattle.std.specs.Prelude.{◌≡◌, ◌<◌, ◌+◌, ◌++◌, ◌∷◌, [], length};
ghost use Rattle.rev_workers.specs.Tracks.{fresh, base_at};

use rev_desk::{Command, Reply};
use std::alloc::Global;
use std::marker::Model;
use std::sync::ledger::{Ledger, Share};

/// What a lane knows: its number, what it said and was told, and one part of the ledger. There is one of each number.
pub struct Lane<L: Ledger> {
    pub(crate) number: u32,
    pub(crate) base: u64,
    pub(crate) seen: u64,
    pub(crate) list: Vec<(Command, Reply)>,
    pub(crate) share: Share<L>,
}

impl<L: Ledger> Drop for Lane<L> {
    fn drop(self) {
        let Lane {
            number: _number,
            base: _base,
            seen: _seen,
            list: _list,
            share: _share,
        } = self;
    }
}

impl<L: Ledger> Model for Lane<L> {
    ghost use Rattle.std.specs.Prelude.{◌≡◌, ◌+◌, length};
    ghost use Rattle.rev_workers.specs.Tracks.{Track};

    ghost Value = { Track };

    ghost view = { λ l. record { number = l.number; base = l.base; seen = l.seen; list = l.list.items } };

    ghost invariant = { λ l. (l.share.parts ≡ 1) × (l.share.amount ≡ l.base + length l.list.items) };
}

// The base of a lane over a journal of this length.
pub(crate) fn base_of(entries: u64, number: u32) -> u64
    ensures { result ≡ base_at entries number }
{
    if number == 0 { entries } else { 0 }
}

impl<L: Ledger> Lane<L> {
    // A lane that said nothing yet.
    pub(crate) fn fresh(alloc: Global, number: u32, entries: u64, share: Share<L>) -> Lane<L>
        requires parts { share.parts ≡ 1 }
        requires amount { share.amount ≡ base_at entries number }
        ensures { result ≡ fresh entries number }
    {
        Lane {
            number,
            base: base_of(entries, number),
            seen: entries,
            list: Vec::new(alloc),
            share,
        }
    }

    // Its part of the ledger.
    pub(crate) fn into_share(self) -> Share<L>
        ensures parts { result.parts ≡ 1 }
        ensures amount { result.amount ≡ self.base + length self.list }
    {
        let Lane {
            number: _number,
            base: _base,
            seen: _seen,
            list: _list,
            share,
        } = self;
        share
    }

    /// The lane's number.
    pub fn number(&self) -> u32
        ensures { result ≡ self.now.number }
    {
        self.number
    }

    /// Of lane 0 the length of the journal when the lanes were made, and else 0.
    pub fn base(&self) -> u64
        ensures { result ≡ self.now.base }
    {
        self.base
    }

    /// How many entries the lane made.
    pub fn calls(&self) -> u64
        ensures { result ≡ length self.now.list }
    {
        self.list.len() as u64
    }

    /// The journal's length at the lane's last answer.
    pub fn seen(&self) -> u64
        ensures { result ≡ self.now.seen }
    {
        self.seen
    }

    /// The lane's commands, each with its reply.
    pub fn list(&self) -> &[(Command, Reply)]
        ensures { result.now ≡ self.now.list }
    {
        self.list.as_slice()
    }
}
