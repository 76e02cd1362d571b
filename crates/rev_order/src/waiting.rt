//! Numbers that wait under items, for an equal item each.
ghost use Rattle.std.specs.Prelude.{◌≡◌, ℕ, List, [], ◌∷◌, map, Some, None, IfSome, OnOk};
ghost use Rattle.rev_causal.specs.History.{IsRising, without};
ghost use Rattle.rev_causal.specs.OrderCheck.{first_of};
ghost use Rattle.rev_order.specs.Waiting.{Waits};

use indexmap::IndexMap;
use smallvec::SmallVec;
use std::alloc::{AllocError, Global};
use std::hash::Hash;

/// Under each item the numbers that wait for one that equals it, the first one last.
pub struct Waiting<'a, T: Eq + Hash> {
    alloc: Global,
    numbers: IndexMap<&'a T, SmallVec<u32, 2>>,
}

impl<'a, T: Eq + Hash> Drop for Waiting<'a, T> {
    fn drop(self) {
        let Waiting {
            alloc: _alloc,
            numbers: _numbers,
        } = self;
    }
}

impl<'a, T: Eq + Hash> Waiting<'a, T> {
    /// None.
    pub fn new(alloc: Global) -> Waiting<'a, T>
        ensures { Waits T.eq (map (λ e. (e.0.now, e.1.items)) result.numbers.entries) [] }
    {
        Waiting {
            alloc,
            numbers: IndexMap::new(alloc),
        }
    }

    /// One more number waits, before all others.
    pub fn put_first(&mut self, number: u32, item: &'a T) -> Result<(), AllocError>
        ensures { OnOk result ((xs : List (ℕ × T)) → Waits T.eq (map (λ e. (e.0.now, e.1.items)) self.old.numbers.entries) xs
            → Waits T.eq (map (λ e. (e.0.now, e.1.items)) self.new.numbers.entries) ((number, item.now) ∷ xs)) }
    {
        if let Some(numbers) = self.numbers.get_mut(&item) {
            numbers.push(number)?;
            return Ok(());
        }
        let mut numbers = SmallVec::new(self.alloc);
        numbers.push(number)?;
        self.numbers.insert(item, numbers)?;
        Ok(())
    }

    /// The first number that waits for an equal item, which waits no more.
    pub fn take(&mut self, item: &'a T) -> Option<u32>
        ensures first { (xs : List (ℕ × T)) → Waits T.eq (map (λ e. (e.0.now, e.1.items)) self.old.numbers.entries) xs
            → result ≡ first_of T.eq item.now xs }
        ensures rest { IfSome result (λ n. (xs : List (ℕ × T)) → IsRising xs
            → Waits T.eq (map (λ e. (e.0.now, e.1.items)) self.old.numbers.entries) xs
            → Waits T.eq (map (λ e. (e.0.now, e.1.items)) self.new.numbers.entries) (without n xs)) }
    {
        let numbers = self.numbers.get_mut(&item)?;
        numbers.pop()
    }
}
