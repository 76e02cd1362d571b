//! The access lists.
ghost use Rattle.std.specs.Prelude.{◌≡◌, true, [], None, OnOk, OnErr};
ghost use Rattle.std.specs.Ordering.{nat_cmp};
ghost use Rattle.rev_causal.specs.AccessLists.{first_above, lesser as lesser_of, numbers_by};
ghost use Rattle.rev_causal.specs.Chosen.{IsRising as IsRisingNumbers, is_among};
ghost use Rattle.rev_causal.specs.History.{IsRising, event_at, put};
ghost use Rattle.rev_causal.specs.KeptHistory.{nearest_in};
ghost use Rattle.rev_causal.specs.Store.{conflict};
ghost use Rattle.rev_order.specs.Overtaken.{first_inverted_of};
ghost use Rattle.rev_order.specs.Pairs.{partner_of};
ghost use Rattle.rev_accesses.specs.Following.{IsFollowed};
ghost use Rattle.rev_accesses.specs.Places.{print_of};
ghost use Rattle.rev_accesses.specs.Thinned.{AreThinned, AreThinnedUnder, IsGone, IsGoneUnder};
ghost use Rattle.rev_accesses.specs.Value.{PartlyPut, Prints, PutUnder, Shows, TakenFrom, numbers_at};

use crate::between::add_between;
use crate::index::{
    add_firsts, add_users, first_at, first_inverted, nearest, partner, put_all, remove_members_at,
    take_all,
};
use crate::pending::Pending;
use crate::places::Places;
use crate::users::{Access, Users};
use rev_numbers::{SortedNumbers, first_above as first_number_above, lesser};
use rev_order::{first_overtaken, first_overtaking};
use std::alloc::{AllocError, Global};
use std::marker::Model;

/// At each place of a table of cells the rising numbers of the events that write the cell there, and of those that read
/// it; beside them the numbers of whole events, which read and write every cell. The lists know no cells: the owner of
/// the table says which cell has which place. The lists of a place stay when they are empty, so taking a number out
/// takes no memory.
pub struct Accesses {
    alloc: Global,
    users: Vec<Users>,
    whole: SortedNumbers,
}

impl Drop for Accesses {
    fn drop(self) {
        let Accesses {
            alloc: _alloc,
            users: _users,
            whole: _whole,
        } = self;
    }
}

impl Model for Accesses {
    ghost use Rattle.rev_accesses.specs.Value.{AccessesValue, accesses_code};

    ghost Value = { AccessesValue };

    ghost coded = { accesses_code };

    ghost use Rattle.rev_accesses.specs.declared.users.Access.TheVariants.{Read, Write};
    ghost use Rattle.rev_accesses.specs.Users.{listed};

    ghost view = { λ a. record {
      writers = listed Write a.users.items;
      readers = listed Read a.users.items;
      whole = a.whole.items;
    } };
}

impl Accesses {
    /// No numbers.
    pub fn new(alloc: Global) -> Accesses
        ensures { Shows result [] }
    {
        Accesses {
            alloc,
            users: Vec::new(alloc),
            whole: SortedNumbers::new(alloc),
        }
    }

    /// Puts the number of an event into the lists of the places that it reads and writes; that of a whole event into
    /// the list of whole events. It hashes nothing.
    ///
    /// # Errors
    /// [`AllocError`] only where an allocation was refused. The lists are then as before.
    pub fn put(&mut self, number: u32, print: &Places) -> Result<(), AllocError>
        ensures ok { OnOk result ((prints : Prints) → IsRising prints → event_at number prints ≡ None
            → Shows self.old prints → Shows self.new (put number (print_of print.now) prints)) }
        ensures err { OnErr result ((prints : Prints) → event_at number prints ≡ None → Shows self.old prints
            → Shows self.new prints) }
    {
        if print.whole() {
            self.whole.put(number)?;
            return Ok(());
        }
        match self.note(number, print) {
            Ok(()) => Ok(()),
            Err(AllocError) => {
                self.take_from(number, print);
                Err(AllocError)
            }
        }
    }

    /// Removes `number`, one of `members`, from the lists into which [`Accesses::put`] puts it. It may remove other
    /// members from these lists too: so each list is gone through once for all members, where they are many. It takes
    /// no memory.
    pub fn remove_members(&mut self, number: u32, members: &[u32], print: &Places)
        requires rising { IsRisingNumbers members.now }
        requires member { is_among members.now number ≡ true }
        ensures thinned { AreThinned members.now self.old self.new }
        ensures gone { IsGone number (print_of print.now) self.new }
    {
        if print.whole() {
            self.whole.take_member(number, members);
        } else {
            self.remove_members_from(number, members, print);
        }
    }

    /// The least number above `number` of those that read or write the cell at a place; none where no list stands
    /// there. It takes no memory.
    pub fn first_user(&self, place: usize, number: u32) -> Option<u32>
        ensures { result ≡ lesser_of (first_above number (numbers_at self.now.writers place))
            (first_above number (numbers_at self.now.readers place)) }
    {
        let written = first_at(&self.users, Access::Write, place, number);
        let read = first_at(&self.users, Access::Read, place, number);
        lesser(written, read)
    }

    /// The least number above `number` of those that write the cell at a place; none where no list stands there. It
    /// takes no memory.
    pub fn first_writer(&self, place: usize, number: u32) -> Option<u32>
        ensures { result ≡ first_above number (numbers_at self.now.writers place) }
    {
        first_at(&self.users, Access::Write, place, number)
    }

    /// The least number above `number` of whole events. It takes no memory.
    pub fn first_whole(&self, number: u32) -> Option<u32>
        ensures { result ≡ first_above number self.now.whole }
    {
        self.whole.first_above(number)
    }

    /// The least number above `number` whose event conflicts with an event that reads and writes the places of `print`.
    /// `numbers` are all numbers. It takes no memory. Its time is linear in the places, and in the logarithm of the
    /// longest list.
    pub fn nearest_by(&self, number: u32, print: &Places, numbers: &[u32]) -> Option<u32>
        requires { IsRisingNumbers numbers.now }
        ensures { (prints : Prints) → IsRising prints → numbers_by (λ f. true) prints ≡ numbers.now
            → Shows self.now prints → result ≡ nearest_in nat_cmp number (print_of print.now) prints }
    {
        if print.whole() {
            return first_number_above(numbers, number);
        }
        let reads = print.read();
        let writes = print.written();
        let whole = self.whole.first_above(number);
        let written = nearest(&self.users, Access::Write, writes, number);
        let used = nearest(&self.users, Access::Read, writes, number);
        let source = nearest(&self.users, Access::Write, reads, number);
        lesser(whole, lesser(lesser(written, used), source))
    }

    /// The least number that another number overtakes whose event conflicts with its own. A number overtakes another
    /// where it stands above it, and before it in another list. `numbers` are all numbers, and `places` has the place
    /// of each in that other list. It takes no memory, and time linear in the lists.
    pub fn first_inverted(&self, places: &[u32], numbers: &[u32]) -> Option<u32>
        requires { IsRisingNumbers numbers.now }
        ensures { (prints : Prints) → IsRising prints → numbers_by (λ f. true) prints ≡ numbers.now
            → Shows self.now prints
            → result ≡ first_inverted_of (conflict nat_cmp) places.now prints }
    {
        let before = first_overtaken(places, self.whole.as_slice(), numbers);
        let after = first_overtaken(places, numbers, self.whole.as_slice());
        lesser(before, lesser(after, first_inverted(&self.users, places)))
    }

    /// The least number that overtakes `number` and whose event conflicts with the event of `number`, which reads and
    /// writes the places of `print`. `numbers` are all numbers, and `places` has the place of each in the other list.
    /// It takes no memory.
    pub fn partner(
        &self,
        places: &[u32],
        number: u32,
        print: &Places,
        numbers: &[u32],
    ) -> Option<u32>
        ensures { (prints : Prints) → IsRising prints → numbers_by (λ f. true) prints ≡ numbers.now
            → Shows self.now prints
            → result ≡ partner_of (conflict nat_cmp) places.now prints number (print_of print.now) }
    {
        if print.whole() {
            return first_overtaking(places, number, numbers);
        }
        let reads = print.read();
        let writes = print.written();
        let whole = first_overtaking(places, number, self.whole.as_slice());
        let written = partner(&self.users, Access::Write, places, writes, number);
        let used = partner(&self.users, Access::Read, places, writes, number);
        let source = partner(&self.users, Access::Write, places, reads, number);
        lesser(whole, lesser(lesser(written, used), source))
    }

    /// Adds to `pending` numbers above `number` whose events conflict with the event of `number`, which reads and
    /// writes the places of `print`. Each number above that conflicts is added, or conflicts with one that is added
    /// below it. Added are the next writer of each cell that the event reads, the readers of each cell that it writes
    /// before that cell's next writer, and the next whole event; of a whole event, with which every event conflicts,
    /// the next whole event and each of `numbers` between the two. `numbers` are all numbers.
    ///
    /// # Errors
    /// [`AllocError`] only where an allocation was refused. Some numbers may then have been added.
    pub fn follow(
        &self,
        pending: &mut Pending,
        number: u32,
        print: &Places,
        numbers: &[u32],
    ) -> Result<(), AllocError>
        requires { IsRisingNumbers numbers.now }
        ensures { OnOk result ((prints : Prints) → IsRising prints
            → numbers_by (λ f. true) prints ≡ numbers.now → Shows self.now prints
            → IsFollowed prints number (print_of print.now) pending.old pending.new) }
    {
        let next = self.whole.first_above(number);
        pending.add_some(next)?;
        if print.whole() {
            add_between(pending, numbers, number, next)?;
            return Ok(());
        }
        add_users(pending, &self.users, print.written(), number)?;
        add_firsts(pending, &self.users, print.read(), number)?;
        Ok(())
    }

    // Puts a number into the lists of the places that its event reads and writes. At an error it may stand in some of
    // them.
    fn note(&mut self, number: u32, print: &Places) -> Result<(), AllocError>
        ensures written { OnOk result (PutUnder number print.now.written self.old.writers self.new.writers) }
        ensures read { OnOk result (PutUnder number print.now.read self.old.readers self.new.readers) }
        ensures partly_written { PartlyPut number print.now.written self.old.writers self.new.writers }
        ensures partly_read { PartlyPut number print.now.read self.old.readers self.new.readers }
        ensures whole { self.new.whole ≡ self.old.whole }
    {
        let reads = print.read();
        let writes = print.written();
        put_all(self.alloc, &mut self.users, Access::Read, reads, number)?;
        put_all(self.alloc, &mut self.users, Access::Write, writes, number)?;
        Ok(())
    }

    // Removes `number`, one of `members`, from the lists of places; may remove other members too.
    fn remove_members_from(&mut self, number: u32, members: &[u32], print: &Places)
        requires rising { IsRisingNumbers members.now }
        requires member { is_among members.now number ≡ true }
        ensures writers { AreThinnedUnder members.now self.old.writers self.new.writers }
        ensures readers { AreThinnedUnder members.now self.old.readers self.new.readers }
        ensures written { IsGoneUnder number print.now.written self.new.writers }
        ensures read { IsGoneUnder number print.now.read self.new.readers }
        ensures whole { self.new.whole ≡ self.old.whole }
    {
        let reads = print.read();
        let writes = print.written();
        remove_members_at(&mut self.users, Access::Read, reads, number, members);
        remove_members_at(&mut self.users, Access::Write, writes, number, members);
    }

    // Takes a number out of the lists of places.
    fn take_from(&mut self, number: u32, print: &Places)
        ensures written { TakenFrom number print.now.written self.old.writers self.new.writers }
        ensures read { TakenFrom number print.now.read self.old.readers self.new.readers }
        ensures whole { self.new.whole ≡ self.old.whole }
    {
        let reads = print.read();
        let writes = print.written();
        take_all(&mut self.users, Access::Read, reads, number);
        take_all(&mut self.users, Access::Write, writes, number);
    }
}
