//! Whether lanes fit a journal.
ghost use Rattle.std.specs.Prelude.{◌≡◌, ◌≢◌, ◌<◌, ◌≤◌, ◌↔◌, Contains, IsTrue, IfSome, IfNone, ℕ, length, drop, slice_get, take};
ghost use Rattle.std.specs.List.{AllByRecursion};
ghost use Rattle.rev_workers.specs.Closing.{numbered, IsStated, base_in, part, entries_of, AreStated, IsMisstated, due};
ghost use Rattle.rev_workers.specs.Running.{DoneValue, IsConfirmed, IsUnder, done_numbers, lanes_in, lesser};

use crate::jobs::Done;
use crate::lane::Lane;
use rev_desk::{Command, Entry, Reply};
use std::sync::ledger::{Book, Ledger};

// How many lanes have a number.
fn count_of<L: Ledger>(lanes: &[Lane<L>], number: u32) -> usize
    ensures { result ≡ numbered number lanes.now }
{
    lanes.iter().filter(|lane| lane.number() == number).count()
}

// The base of lane 0.
fn base_of_first<L: Ledger>(lanes: &[Lane<L>]) -> u64
    ensures { result ≡ base_in lanes.now }
{
    for lane in lanes {
        if lane.number() == 0 {
            return lane.base();
        }
    }
    0
}

// Whether a list is a lane's part of these entries.
fn is_part(list: &[(Command, Reply)], number: u32, entries: &[Entry]) -> bool
    ensures { IsTrue result ↔ (list.now ≡ part number entries.now) }
{
    let mut rest = list;
    for entry in entries {
        if entry.lane == number {
            let Some(((command, reply), others)) = rest.split_first() else {
                return false;
            };
            if !command.same(&entry.command) || !reply.same(entry.reply) {
                return false;
            }
            rest = others;
        }
    }
    rest.is_empty()
}

// Whether the list of the lane of a number is its part of these entries.
fn is_stated<L: Ledger>(lanes: &[Lane<L>], number: u32, entries: &[Entry]) -> bool
    ensures { IsTrue result ↔ AllByRecursion (λ t. t.number ≡ number → t.list ≡ part number entries.now)
        lanes.now }
{
    for lane in lanes {
        if lane.number() == number && !is_part(lane.list(), number, entries) {
            return false;
        }
    }
    true
}

// The least number below a bound that not just one lane has.
pub(crate) fn missing<L: Ledger>(lanes: &[Lane<L>], count: u32) -> Option<u32>
    ensures some { IfSome result (λ n. (n < count) × (numbered n lanes.now ≢ 1) × ((m : ℕ) → m < n
        → numbered m lanes.now ≡ 1)) }
    ensures none { IfNone result ((n : ℕ) → n < count → numbered n lanes.now ≡ 1) }
{
    for number in 0..count {
        if count_of(lanes, number) != 1 {
            return Some(number);
        }
    }
    None
}

// The least number below a bound of which a lane's list is not its part of the journal.
pub(crate) fn misstated<L: Ledger>(lanes: &[Lane<L>], count: u32, journal: &[Entry]) -> Option<u32>
    ensures some { IfSome result (λ n. IsMisstated count journal.now lanes.now n) }
    ensures none { IfNone result (AreStated count journal.now lanes.now) }
{
    let base = base_of_first(lanes);
    let entries = past(journal, base);
    for number in 0..count {
        if !is_stated(lanes, number, entries) {
            return Some(number);
        }
    }
    None
}

// The entries past the first ones.
fn past(journal: &[Entry], base: u64) -> &[Entry]
    ensures { result.now ≡ drop base journal.now }
{
    if base >= journal.len() as u64 {
        return &[];
    }
    &journal[base as usize..]
}

// What was said past the first commands of a list.
fn said_past(list: &[(Command, Reply)], before: u64) -> &[(Command, Reply)]
    ensures { result.now ≡ drop before list.now }
{
    if before >= list.len() as u64 {
        return &[];
    }
    &list[before as usize..]
}

// What was said up to a command of a list.
fn said_until(list: &[(Command, Reply)], before: u64) -> &[(Command, Reply)]
    ensures { result.now ≡ take before list.now }
{
    if before >= list.len() as u64 {
        return list;
    }
    &list[..before as usize]
}

// Whether what a lane has said is its part of the journal past what it had seen before.
fn is_confirmed<L: Ledger>(done: &Done<L>, journal: &[Entry]) -> bool
    ensures { IsTrue result ↔ IsConfirmed journal.now done.now }
{
    is_part(
        said_past(done.lane().list(), done.before()),
        done.lane().number(),
        past(journal, done.seen()),
    )
}

// Whether a lane's whole list is its part of the journal past the first entries, where what it has said last is
// confirmed, which is not compared again.
fn is_stated_before<L: Ledger>(done: &Done<L>, base: u64, journal: &[Entry]) -> bool
    requires { IsConfirmed journal.now done.now }
    ensures { IsTrue result ↔ (done.now.lane.list ≡ part done.now.lane.number (drop base journal.now)) }
{
    let lane = done.lane();
    let seen = done.seen();
    if seen < base || seen > journal.len() as u64 {
        return is_part(lane.list(), lane.number(), past(journal, base));
    }
    is_part(
        said_until(lane.list(), done.before()),
        lane.number(),
        &journal[base as usize..seen as usize],
    )
}

// The base of the first lane 0 of those that said all.
fn base_of_done<L: Ledger>(done: &[Done<L>]) -> u64
    ensures { result ≡ base_in (lanes_in done.now) }
{
    for each in done {
        if each.lane().number() == 0 {
            return each.lane().base();
        }
    }
    0
}

// The lesser of two numbers, where there is one.
pub(crate) fn lesser(first: Option<u32>, second: Option<u32>) -> Option<u32>
    ensures { result ≡ lesser first second }
{
    match (first, second) {
        (Some(number), Some(other)) => {
            if other < number {
                Some(other)
            } else {
                Some(number)
            }
        }
        (None, other) => other,
        (number, None) => number,
    }
}

/// What the journal says of lanes that said all.
#[derive(Clone, Copy)]
pub(crate) struct Survey {
    /// The least number of a lane whose last words the journal does not have.
    pub(crate) unconfirmed: Option<u32>,
    /// The least number of another lane whose whole list is not its part of the journal.
    pub(crate) misstated: Option<u32>,
}

// Compares what each lane said with its part of the journal, each command once.
pub(crate) fn survey_of<L: Ledger>(done: &[Done<L>], journal: &[Entry]) -> Survey
    ensures among { IfSome result.unconfirmed (λ n. Contains (done_numbers done.now) n) }
    ensures confirmed { (k : ℕ) (d : DoneValue) → slice_get done.now k ≡ Some d
        → IsUnder result.unconfirmed d.lane.number → IsConfirmed journal.now d }
    ensures stated { result.unconfirmed ≡ None → result.misstated ≡ None → (k : ℕ) (d : DoneValue)
        → slice_get done.now k ≡ Some d → d.lane.list ≡ part d.lane.number (drop (base_in (lanes_in done.now)) journal.now) }
{
    let base = base_of_done(done);
    let mut unconfirmed = None;
    let mut misstated = None;
    for place in 0..done.len() {
        let number = Some(done[place].lane().number());
        if !is_confirmed(&done[place], journal) {
            unconfirmed = lesser(unconfirmed, number);
        } else if !is_stated_before(&done[place], base, journal) {
            misstated = lesser(misstated, number);
        }
    }
    Survey {
        unconfirmed,
        misstated,
    }
}

// Puts the lanes' shares together. With every part of the ledger they have what its book counts.
pub(crate) fn settle<L: Ledger>(book: Book<L>, lanes: Vec<Lane<L>>)
    requires { 0 < L.parts }
    ensures few { length lanes.items ≤ L.parts }
    ensures all { length lanes.items ≡ L.parts → book.total ≡ entries_of lanes.items }
{
    let mut book = book;
    let mut lanes = lanes;
    let Some(last) = lanes.pop() else {
        return;
    };
    let mut all = last.into_share();
    while let Some(lane) = lanes.pop() {
        all.merge(lane.into_share());
    }
    book.audit(&mut all);
}

// A list that is not a lane's part of the journal: no call of another crate makes one, so the test stands here.
