//! Findings, as they are collected.
ghost use Rattle.std.specs.Prelude.{◌≡◌, ◌↔◌, ◌⊎◌, ℕ, List, ◌∷◌, [], map, All, Contains, IfOk, OnOk};
ghost use Rattle.std.specs.Cmp.Lexicographic.{slice_cmp};
ghost use Rattle.std.specs.List.Sorted.{IsStrictlySortedBy};
ghost use Rattle.std.specs.Ordering.{nat_cmp};
ghost use Rattle.rev_unlisted.specs.Answer.{cover_number as cover_number_of, unlisted_key};
ghost use Rattle.rev_unlisted.specs.Found.{IsOfUnlisted, cover_of_number};

use crate::input::{Cover, Unlisted};
use std::alloc::{AllocError, Global};
use std::collections::BTreeSet;
use std::marker::Model;

/// What was found, each once, by the numbers of user, path, command and cover.
#[derive(Drop)]
pub(crate) struct Found {
    keys: BTreeSet<[u64; 4]>,
}

impl Model for Found {
    ghost use Rattle.std.specs.Prelude.{List, ℕ};

    ghost Value = { List (List ℕ) };

    ghost view = { λ a. a.keys.keys };
}

impl Found {
    /// None.
    pub(crate) fn new(alloc: Global) -> Found
        ensures { result ≡ [] }
    {
        Found {
            keys: BTreeSet::new(alloc),
        }
    }

    /// Adds what is found, unless it is there.
    pub(crate) fn add(&mut self, told: &Unlisted) -> Result<(), AllocError>
        ensures { OnOk result ((k : List ℕ) → Contains self.new k
            ↔ (Contains self.old k ⊎ (k ≡ unlisted_key told.now))) }
    {
        let cover = cover_number(told.cover);
        self.keys
            .insert([told.user as u64, told.path, told.used_by, cover])?;
        Ok(())
    }

    /// What was found, in its order.
    pub(crate) fn into_told(self, alloc: Global) -> Result<Vec<Unlisted>, AllocError>
        requires { All IsOfUnlisted self }
        ensures keys { IfOk result (λ told. map unlisted_key told.items ≡ self) }
        ensures rising { IfOk result (λ told.
            IsStrictlySortedBy (slice_cmp nat_cmp) (map unlisted_key told.items)) }
    {
        let Found { keys } = self;
        told_of(alloc, keys)
    }
}

// The number of a cover.
fn cover_number(cover: Cover) -> u64
    ensures { result ≡ cover_number_of cover }
{
    match cover {
        Cover::Covered => 0,
        Cover::HeldBack => 1,
        Cover::Neither => 2,
    }
}

// The cover of a number.
fn cover_of(number: u64) -> Cover
    ensures { result ≡ cover_of_number number }
{
    if number == 0 {
        Cover::Covered
    } else if number == 1 {
        Cover::HeldBack
    } else {
        Cover::Neither
    }
}

// What some numbers tell, in the order of these.
fn told_of(alloc: Global, keys: BTreeSet<[u64; 4]>) -> Result<Vec<Unlisted>, AllocError>
    requires { All IsOfUnlisted keys.keys }
    ensures keys { IfOk result (λ told. map unlisted_key told.items ≡ keys.keys) }
    ensures rising { IfOk result (λ told.
        IsStrictlySortedBy (slice_cmp nat_cmp) (map unlisted_key told.items)) }
{
    let mut left = keys;
    let _count = left.len();
    let mut told = Vec::new(alloc);
    while let Some(key) = left.pop_first() {
        told.push(Unlisted {
            cover: cover_of(key[3]),
            user: key[0] as u32,
            path: key[1],
            used_by: key[2],
        })?;
    }
    Ok(told)
}
