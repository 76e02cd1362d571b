//! The findings, as they are found.
ghost use Rattle.std.specs.Prelude.{◌≡◌, ◌↔◌, ◌⊎◌, ℕ, List, ◌∷◌, [], map, All, Contains, IfOk, OnOk};
ghost use Rattle.std.specs.Cmp.Lexicographic.{slice_cmp};
ghost use Rattle.std.specs.List.Sorted.{IsStrictlySortedBy};
ghost use Rattle.std.specs.Ordering.{nat_cmp};
ghost use Rattle.rev_races.specs.Keys.{IsOfEdges, told_key};

use crate::told::Told;
use std::alloc::{AllocError, Global};
use std::collections::BTreeSet;
use std::marker::Model;

/// What was found, each once, by the numbers of maker and user and by the path's place in the user's list.
#[derive(Drop)]
pub(crate) struct Found {
    keys: BTreeSet<[u64; 3]>,
}

impl Model for Found {
    ghost use Rattle.std.specs.Prelude.{List, ℕ};

    ghost Value = { List (List ℕ) };

    ghost view = { λ a. a.keys.keys };
}

impl Found {
    /// None.
    pub(crate) fn new(alloc: Global) -> Found
        ensures { result ≡ [] }
    {
        Found {
            keys: BTreeSet::new(alloc),
        }
    }

    /// Adds a finding, unless it is there.
    pub(crate) fn add(&mut self, maker: u32, user: u32, place: u64) -> Result<(), AllocError>
        ensures { OnOk result ((k : List ℕ) → Contains self.new k
            ↔ (Contains self.old k ⊎ (k ≡ maker ∷ user ∷ place ∷ []))) }
    {
        self.keys.insert([maker as u64, user as u64, place])?;
        Ok(())
    }

    /// What was found, in its order.
    pub(crate) fn into_told(self, alloc: Global) -> Result<Vec<Told>, AllocError>
        requires { All IsOfEdges self }
        ensures keys { IfOk result (λ told. map told_key told.items ≡ self) }
        ensures rising { IfOk result (λ told. IsStrictlySortedBy (slice_cmp nat_cmp) (map told_key told.items)) }
    {
        let Found { keys } = self;
        told_of(alloc, keys)
    }
}

// What some numbers tell, in the order of these.
fn told_of(alloc: Global, keys: BTreeSet<[u64; 3]>) -> Result<Vec<Told>, AllocError>
    requires { All IsOfEdges keys.keys }
    ensures keys { IfOk result (λ told. map told_key told.items ≡ keys.keys) }
    ensures rising { IfOk result (λ told. IsStrictlySortedBy (slice_cmp nat_cmp) (map told_key told.items)) }
{
    let mut left = keys;
    let _count = left.len();
    let mut told = Vec::new(alloc);
    while let Some(key) = left.pop_first() {
        told.push(Told {
            maker: key[0] as u32,
            user: key[1] as u32,
            place: key[2],
        })?;
    }
    Ok(told)
}
