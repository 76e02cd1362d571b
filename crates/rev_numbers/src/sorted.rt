//! A list of numbers that rise.
ghost use Rattle.std.specs.Prelude.{◌≡◌, ◌<◌, ◌≤◌, [], false, true, length, IfOk, OnOk, OnErr};
ghost use Rattle.rev_causal.specs.AccessLists.{first_above as first_above_in};
ghost use Rattle.rev_causal.specs.Chosen.{IsRising, is_among, without};
ghost use Rattle.rev_numbers.specs.Taken.{IsThinned, without_all};
ghost use Rattle.rev_numbers.specs.Value.{with_number};

use crate::search::{first_above, is_above_all, is_one_of, place_of};
use smallvec::SmallVec;
use std::alloc::{AllocError, Global};
use std::marker::Model;

// The most members that are taken out one by one: together they move no more than a pass over all numbers looks at.
const FEW: usize = 64;

/// Numbers that rise. One or two lie in the value itself, so that a list of so few needs no allocation.
#[derive(Drop)]
pub struct SortedNumbers {
    numbers: SmallVec<u32, 2>,
}

impl Model for SortedNumbers {
    ghost use Rattle.rev_causal.specs.Chosen.{IsRising};
    ghost use Rattle.rev_numbers.specs.Value.{NumbersValue, numbers_code};

    ghost Value = { NumbersValue };

    ghost coded = { numbers_code };

    ghost view = { λ a. record { items = a.numbers.items; room = a.numbers.capacity } };

    ghost invariant = { λ a. IsRising a.numbers.items };
}

impl SortedNumbers {
    /// None.
    pub fn new(alloc: Global) -> SortedNumbers
        ensures { result.items ≡ [] }
    {
        SortedNumbers {
            numbers: SmallVec::new(alloc),
        }
    }

    /// None, with room for so many.
    ///
    /// # Errors
    /// [`AllocError`] only where an allocation was refused.
    pub fn with_capacity(alloc: Global, room: usize) -> Result<SortedNumbers, AllocError>
        ensures { IfOk result (λ numbers. numbers.items ≡ []) }
    {
        Ok(SortedNumbers {
            numbers: SmallVec::with_capacity(alloc, room)?,
        })
    }

    /// The numbers, which rise.
    pub fn as_slice(&self) -> &[u32]
        ensures same { result.now ≡ self.now.items }
        ensures rising { IsRising result.now }
    {
        self.numbers.as_slice()
    }

    /// Whether a number is one of them.
    pub fn has(&self, number: u32) -> bool
        ensures { result ≡ is_among self.now.items number }
    {
        place_of(self.numbers.as_slice(), number).is_some()
    }

    /// The first number above another.
    pub fn first_above(&self, number: u32) -> Option<u32>
        ensures { result ≡ first_above_in number self.now.items }
    {
        first_above(self.numbers.as_slice(), number)
    }

    /// Makes room for one more.
    ///
    /// # Errors
    /// [`AllocError`] only where an allocation was refused.
    pub fn reserve(&mut self) -> Result<(), AllocError>
        ensures same { self.new.items ≡ self.old.items }
        ensures room { OnOk result (length self.new.items < self.new.room) }
        ensures err { OnErr result (self.new ≡ self.old) }
    {
        self.numbers.reserve(1)?;
        Ok(())
    }

    /// Puts a number at its place, unless it is there. One that is above all others is put last without a search. Where
    /// there is room it takes no memory.
    ///
    /// # Errors
    /// [`AllocError`] only where an allocation was refused.
    pub fn put(&mut self, number: u32) -> Result<(), AllocError>
        ensures ok { OnOk result (self.new.items ≡ with_number number self.old.items) }
        ensures err { OnErr result (self.new ≡ self.old) }
        ensures but_for { without number self.new.items ≡ without number self.old.items }
        ensures full { OnErr result (self.old.room ≤ length self.old.items) }
    {
        if is_above_all(self.numbers.as_slice(), number) {
            self.numbers.push(number)?;
            return Ok(());
        }
        put_among(&mut self.numbers, number)?;
        Ok(())
    }

    /// Takes a number out, if it is there. It takes no memory.
    pub fn take(&mut self, number: u32)
        ensures { self.new.items ≡ without number self.old.items }
    {
        take_from(&mut self.numbers, number);
    }

    /// Takes members of another list out, those that are there. A few are taken out one by one, more in one pass over
    /// the numbers. It takes no memory.
    pub fn take_all(&mut self, members: &[u32])
        requires { IsRising members.now }
        ensures { self.new.items ≡ without_all members.now self.old.items }
    {
        take_all_from(&mut self.numbers, members);
    }

    /// Takes a number out, if it is there, which is one of some members; others of these may go with it. Where they are
    /// many and the number is there, all go, in one pass over the numbers: so who calls it for each member of many goes
    /// through the numbers once. It takes no memory.
    pub fn take_member(&mut self, number: u32, members: &[u32])
        requires rising { IsRising members.now }
        requires member { is_among members.now number ≡ true }
        ensures thinned { IsThinned members.now self.old.items self.new.items }
        ensures gone { is_among self.new.items number ≡ false }
    {
        take_member_from(&mut self.numbers, number, members);
    }
}

// Puts a number at its place among others, unless it is there.
fn put_among(numbers: &mut SmallVec<u32, 2>, number: u32) -> Result<(), AllocError>
    requires { IsRising numbers.old.items }
    ensures ok { OnOk result (numbers.new.items ≡ with_number number numbers.old.items) }
    ensures err { OnErr result (numbers.new ≡ numbers.old) }
    ensures full { OnErr result (numbers.old.capacity ≤ length numbers.old.items) }
{
    if let Err(place) = numbers.as_slice().binary_search(&number) {
        numbers.insert(place, number)?;
    }
    Ok(())
}

// Takes a number out from among others, if it is there.
fn take_from(numbers: &mut SmallVec<u32, 2>, number: u32)
    requires { IsRising numbers.old.items }
    ensures { numbers.new.items ≡ without number numbers.old.items }
{
    if let Ok(place) = numbers.as_slice().binary_search(&number) {
        numbers.remove(place);
    }
}

// Takes members out of numbers one by one, from the last down. Each moves the numbers above it.
fn take_by_one(numbers: &mut SmallVec<u32, 2>, members: &[u32])
    requires { IsRising numbers.old.items }
    ensures { numbers.new.items ≡ without_all members.now numbers.old.items }
{
    let mut left = members.len();
    while left > 0 {
        left -= 1;
        take_from(numbers, members[left]);
    }
}

// Takes members out of numbers in one pass over them.
fn take_in_one(numbers: &mut SmallVec<u32, 2>, members: &[u32])
    requires { IsRising members.now }
    ensures { numbers.new.items ≡ without_all members.now numbers.old.items }
{
    match members.first() {
        Some(first) => numbers.retain(|number| !is_one_of(members, *first, *number)),
        None => {}
    }
}

// Takes members out of numbers, those that are there.
fn take_all_from(numbers: &mut SmallVec<u32, 2>, members: &[u32])
    requires order { IsRising numbers.old.items }
    requires rising { IsRising members.now }
    ensures order { IsRising numbers.new.items }
    ensures taken { numbers.new.items ≡ without_all members.now numbers.old.items }
{
    if members.len() > FEW {
        take_in_one(numbers, members);
    } else {
        take_by_one(numbers, members);
    }
}

// Takes a number out, if it is there, which is one of some members, or all of these with it.
fn take_member_from(numbers: &mut SmallVec<u32, 2>, number: u32, members: &[u32])
    requires order { IsRising numbers.old.items }
    requires rising { IsRising members.now }
    requires member { is_among members.now number ≡ true }
    ensures order { IsRising numbers.new.items }
    ensures thinned { IsThinned members.now numbers.old.items numbers.new.items }
    ensures gone { is_among numbers.new.items number ≡ false }
{
    if members.len() <= FEW {
        take_from(numbers, number);
        return;
    }
    if place_of(numbers.as_slice(), number).is_none() {
        return;
    }
    take_in_one(numbers, members);
}
