//! The conflicts, as they are found.
ghost use Rattle.std.specs.Prelude.{◌≡◌, ◌↔◌, ◌⊎◌, ℕ, List, ◌∷◌, [], map, All, Contains, IfOk, OnOk};
ghost use Rattle.std.specs.Cmp.Lexicographic.{slice_cmp};
ghost use Rattle.std.specs.List.Sorted.{IsStrictlySortedBy};
ghost use Rattle.std.specs.Ordering.{nat_cmp};
ghost use Rattle.rev_conflicts.specs.Answer.{place_key};
ghost use Rattle.rev_conflicts.specs.Tables.{IsOfMeet, place_by, told_key};

use crate::place::Place;
use crate::told::Told;
use std::alloc::{AllocError, Global};
use std::collections::BTreeSet;
use std::marker::Model;

/// What was found, each once, by the numbers of maker, user and place, and of both commands.
#[derive(Drop)]
pub(crate) struct Found {
    keys: BTreeSet<[u64; 6]>,
}

impl Model for Found {
    ghost use Rattle.std.specs.Prelude.{List, ℕ};

    ghost Value = { List (List ℕ) };

    ghost view = { λ a. a.keys.keys };
}

impl Found {
    /// None.
    pub(crate) fn new(alloc: Global) -> Found
        ensures { result ≡ [] }
    {
        Found {
            keys: BTreeSet::new(alloc),
        }
    }

    /// Adds what is found, unless it is there.
    pub(crate) fn add(&mut self, told: &Told) -> Result<(), AllocError>
        ensures { OnOk result ((k : List ℕ) → Contains self.new k
            ↔ (Contains self.old k ⊎ (k ≡ told_key told.now))) }
    {
        let place = place_numbers(told.place);
        self.keys.insert([
            told.maker as u64,
            told.user as u64,
            place[0],
            place[1],
            told.made_by,
            told.used_by,
        ])?;
        Ok(())
    }

    /// What was found, in its order.
    pub(crate) fn into_told(self, alloc: Global) -> Result<Vec<Told>, AllocError>
        requires { All IsOfMeet self }
        ensures keys { IfOk result (λ told. map told_key told.items ≡ self) }
        ensures rising { IfOk result (λ told. IsStrictlySortedBy (slice_cmp nat_cmp) (map told_key told.items)) }
    {
        let Found { keys } = self;
        told_of(alloc, keys)
    }
}

// The two numbers of a place.
fn place_numbers(place: Place) -> [u64; 2]
    ensures { result ≡ place_key place }
{
    match place {
        Place::File(path) => [0, path],
        Place::Entries(folder) => [1, folder],
    }
}

// The place of two numbers.
fn place_of(kind: u64, number: u64) -> Place
    ensures { result ≡ place_by kind number }
{
    if kind == 0 {
        Place::File(number)
    } else {
        Place::Entries(number)
    }
}

// What some numbers tell, in the order of these.
fn told_of(alloc: Global, keys: BTreeSet<[u64; 6]>) -> Result<Vec<Told>, AllocError>
    requires { All IsOfMeet keys.keys }
    ensures keys { IfOk result (λ told. map told_key told.items ≡ keys.keys) }
    ensures rising { IfOk result (λ told. IsStrictlySortedBy (slice_cmp nat_cmp) (map told_key told.items)) }
{
    let mut left = keys;
    let _count = left.len();
    let mut told = Vec::new(alloc);
    while let Some(key) = left.pop_first() {
        told.push(Told {
            maker: key[0] as u32,
            user: key[1] as u32,
            place: place_of(key[2], key[3]),
            made_by: key[4],
            used_by: key[5],
        })?;
    }
    Ok(told)
}
