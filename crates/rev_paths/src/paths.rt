//! Names by number.
ghost use Rattle.std.specs.Prelude.{◌≡◌, ◌<◌, [], length, slice_get, Some, None, Contains, IfSome, IfOk, OnOk, OnErr, IsOk, bytes_eq};
ghost use Rattle.std.specs.List.{IsDistinct};
ghost use Rattle.rev_paths.specs.Paths.{place_of, with_name};

use crate::name::Name;
use indexmap::IndexSet;
use std::alloc::{AllocError, Global};
use std::marker::Model;

/// Names in the order in which they were first given, none of them twice. A name's
/// number is its place, which counts from 0 and stays.
pub struct Paths {
    names: IndexSet<Name>,
}

impl Drop for Paths {
    fn drop(self) {
        let Paths { names: _names } = self;
    }
}

impl Model for Paths {
    ghost use Rattle.std.specs.Prelude.{List, ℕ, bytes_eq};
    ghost use Rattle.std.specs.List.{IsDistinct};

    ghost Value = { List (List ℕ) };

    ghost view = { λ a. a.names.keys };

    ghost invariant = { λ a. IsDistinct bytes_eq a.names.keys };
}

impl Paths {
    /// No names. It takes no memory.
    pub fn new(alloc: Global) -> Paths
        ensures { result ≡ [] }
    {
        Paths {
            names: IndexSet::new(alloc),
        }
    }

    /// How many names there are.
    pub fn len(&self) -> u64
        ensures len { result ≡ length self.now }
        ensures distinct { IsDistinct bytes_eq self.now }
    {
        self.names.len() as u64
    }

    /// The number of a name. A name that has none is given the next one, in time that
    /// does not depend on how many there are, up to hashing and growth.
    ///
    /// # Errors
    /// [`AllocError`] where an allocation failed, which is only at a new name.
    pub fn intern(&mut self, name: &Name) -> Result<u64, AllocError>
        ensures names { OnOk result (self.new ≡ with_name name.now self.old) }
        ensures place { IfOk result (λ place. place_of name.now self.new ≡ Some place) }
        ensures present { Contains self.old name.now → IsOk result }
        ensures err { OnErr result (self.new ≡ self.old) }
    {
        match self.find(name) {
            Some(place) => return Ok(place),
            None => {}
        }
        let place = self.len();
        self.names.insert(name.copy()?)?;
        Ok(place)
    }

    /// An equal name, which shares the bytes of the one that was given first. It is hashed once.
    ///
    /// # Errors
    /// [`AllocError`] where an allocation failed, or no more copies can be counted.
    pub fn share(&mut self, name: Name) -> Result<Name, AllocError>
        ensures names { OnOk result (self.new ≡ with_name name self.old) }
        ensures equal { IfOk result (λ shared. shared ≡ name) }
        ensures err { OnErr result (self.new ≡ self.old) }
    {
        let own = name.copy()?;
        let (place, is_new) = self.names.insert_full(name)?;
        if is_new {
            return Ok(own);
        }
        match self.names.get_index(place) {
            Some(first) => first.copy(),
            None => unreachable!(),
        }
    }

    /// The number of a name, if it has one.
    pub fn find(&self, name: &Name) -> Option<u64>
        ensures place { result ≡ place_of name.now self.now }
        ensures within { IfSome result (λ place. place < length self.now) }
        ensures name { IfSome result (λ place. slice_get self.now place ≡ Some name.now) }
    {
        match self.names.get_index_of(name) {
            Some(place) => Some(place as u64),
            None => None,
        }
    }

    /// The name of a number.
    pub fn path(&self, place: u64) -> &Name
        requires { place < length self.now }
        ensures name { slice_get self.now place ≡ Some result.now }
        ensures place { place_of result.now self.now ≡ Some place }
    {
        let Some(name) = self.names.get_index(place as usize) else {
            unreachable!()
        };
        name
    }
}
