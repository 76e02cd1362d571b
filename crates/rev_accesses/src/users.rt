//! Those that use one cell.
ghost use Rattle.std.specs.Prelude.{◌≡◌, [], false, true, OnOk};
ghost use Rattle.rev_causal.specs.Chosen.{IsRising, is_among, without};
ghost use Rattle.rev_accesses.specs.Inverted.{first_inverted_in};
ghost use Rattle.rev_accesses.specs.Users.{numbers_of, other};
ghost use Rattle.rev_numbers.specs.Taken.{IsThinned};
ghost use Rattle.rev_numbers.specs.Value.{with_number};

use rev_numbers::{SortedNumbers, lesser};
use rev_order::first_overtaken;
use std::alloc::{AllocError, Global};

/// How a cell is accessed.
#[derive(Clone, Copy)]
pub(crate) enum Access {
    /// It is read.
    Read,
    /// It is written.
    Write,
}

/// The numbers of the events that read one cell, and of those that write it. A number may be in both.
pub(crate) struct Users {
    pub(crate) readers: SortedNumbers,
    pub(crate) writers: SortedNumbers,
}

impl Drop for Users {
    fn drop(self) {
        let Users {
            readers: _readers,
            writers: _writers,
        } = self;
    }
}

impl Users {
    // No numbers.
    pub(crate) fn none(alloc: Global) -> Users
        ensures read { result.readers.items ≡ [] }
        ensures written { result.writers.items ≡ [] }
    {
        Users {
            readers: SortedNumbers::new(alloc),
            writers: SortedNumbers::new(alloc),
        }
    }

    // Puts a number at its place, unless it is there.
    pub(crate) fn put(&mut self, access: Access, number: u32) -> Result<(), AllocError>
        ensures ok { OnOk result (numbers_of access self.new ≡ with_number number (numbers_of access self.old)) }
        ensures but_for { without number (numbers_of access self.new) ≡ without number (numbers_of access self.old) }
        ensures rest { numbers_of (other access) self.new ≡ numbers_of (other access) self.old }
    {
        match access {
            Access::Read => self.readers.put(number),
            Access::Write => self.writers.put(number),
        }
    }

    // Takes a number out, if it is there. It takes no memory.
    pub(crate) fn take(&mut self, access: Access, number: u32)
        ensures taken { numbers_of access self.new ≡ without number (numbers_of access self.old) }
        ensures rest { numbers_of (other access) self.new ≡ numbers_of (other access) self.old }
    {
        match access {
            Access::Read => self.readers.take(number),
            Access::Write => self.writers.take(number),
        }
    }

    // Removes `number`, one of `members`, if it is there; may remove other members too. It takes no memory.
    pub(crate) fn remove_members(&mut self, access: Access, number: u32, members: &[u32])
        requires rising { IsRising members.now }
        requires member { is_among members.now number ≡ true }
        ensures thinned { IsThinned members.now (numbers_of access self.old) (numbers_of access self.new) }
        ensures gone { is_among (numbers_of access self.new) number ≡ false }
        ensures rest { numbers_of (other access) self.new ≡ numbers_of (other access) self.old }
    {
        match access {
            Access::Read => self.readers.take_member(number, members),
            Access::Write => self.writers.take_member(number, members),
        }
    }

    // The numbers of those that access the cell in one way.
    pub(crate) fn numbers(&self, access: Access) -> &SortedNumbers
        ensures { result.now.items ≡ numbers_of access self.now }
    {
        match access {
            Access::Read => &self.readers,
            Access::Write => &self.writers,
        }
    }

    // The least of them that another overtakes, where one of the two writes the cell.
    pub(crate) fn first_inverted(&self, places: &[u32]) -> Option<u32>
        ensures { result ≡ first_inverted_in places.now self.now }
    {
        let readers = self.readers.as_slice();
        let writers = self.writers.as_slice();
        let twice = first_overtaken(places, writers, writers);
        let read = first_overtaken(places, writers, readers);
        let written = first_overtaken(places, readers, writers);
        lesser(twice, lesser(read, written))
    }
}
