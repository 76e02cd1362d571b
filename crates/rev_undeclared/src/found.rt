//! Findings, as they are collected.
ghost use Rattle.std.specs.Prelude.{◌≡◌, ◌↔◌, ◌⊎◌, ℕ, List, ◌∷◌, [], map, All, Contains, IfOk, OnOk};
ghost use Rattle.std.specs.Cmp.Lexicographic.{slice_cmp};
ghost use Rattle.std.specs.List.Sorted.{IsStrictlySortedBy};
ghost use Rattle.std.specs.Ordering.{nat_cmp};
ghost use Rattle.rev_undeclared.specs.Answer.{kind_key, look_number as look_number_of, undeclared_key};
ghost use Rattle.rev_undeclared.specs.Tables.{IsOfUndeclared, kind_by, look_by};

use crate::kind::{Undeclared, UndeclaredKind};
use rev_conflicts::Look;
use std::alloc::{AllocError, Global};
use std::collections::BTreeSet;
use std::marker::Model;

/// What was found, each once, by the numbers of maker, user and path, and of both commands.
#[derive(Drop)]
pub(crate) struct Found {
    keys: BTreeSet<[u64; 7]>,
}

impl Model for Found {
    ghost use Rattle.std.specs.Prelude.{List, ℕ};

    ghost Value = { List (List ℕ) };

    ghost view = { λ a. a.keys.keys };
}

impl Found {
    /// None.
    pub(crate) fn new(alloc: Global) -> Found
        ensures { result ≡ [] }
    {
        Found {
            keys: BTreeSet::new(alloc),
        }
    }

    /// Adds what is found, unless it is there.
    pub(crate) fn add(&mut self, told: &Undeclared) -> Result<(), AllocError>
        ensures { OnOk result ((k : List ℕ) → Contains self.new k
            ↔ (Contains self.old k ⊎ (k ≡ undeclared_key told.now))) }
    {
        let kind = kind_numbers(told.kind);
        self.keys.insert([
            told.maker as u64,
            told.user as u64,
            told.path,
            told.made_by,
            kind[0],
            kind[1],
            kind[2],
        ])?;
        Ok(())
    }

    /// What was found, in its order.
    pub(crate) fn into_told(self, alloc: Global) -> Result<Vec<Undeclared>, AllocError>
        requires { All IsOfUndeclared self }
        ensures keys { IfOk result (λ told. map undeclared_key told.items ≡ self) }
        ensures rising { IfOk result (λ told.
            IsStrictlySortedBy (slice_cmp nat_cmp) (map undeclared_key told.items)) }
    {
        let Found { keys } = self;
        told_of(alloc, keys)
    }
}

// The number of a look.
fn look_number(look: Look) -> u64
    ensures { result ≡ look_number_of look }
{
    match look {
        Look::Read => 0,
        Look::Miss => 1,
        Look::Stat => 2,
        Look::List => 3,
    }
}

// The look of a number.
fn look_of(number: u64) -> Look
    ensures { result ≡ look_by number }
{
    if number == 0 {
        Look::Read
    } else if number == 1 {
        Look::Miss
    } else if number == 2 {
        Look::Stat
    } else {
        Look::List
    }
}

// The three numbers of a kind.
fn kind_numbers(kind: UndeclaredKind) -> [u64; 3]
    ensures { result ≡ kind_key kind }
{
    match kind {
        UndeclaredKind::Anothers => [0, 0, 0],
        UndeclaredKind::LookedAt { look, used_by } => [1, used_by, look_number(look)],
    }
}

// The kind of three numbers.
fn kind_of(kind: u64, used_by: u64, look: u64) -> UndeclaredKind
    ensures { result ≡ kind_by kind used_by look }
{
    if kind == 0 {
        return UndeclaredKind::Anothers;
    }
    UndeclaredKind::LookedAt {
        look: look_of(look),
        used_by,
    }
}

// What some numbers tell, in the order of these.
fn told_of(alloc: Global, keys: BTreeSet<[u64; 7]>) -> Result<Vec<Undeclared>, AllocError>
    requires { All IsOfUndeclared keys.keys }
    ensures keys { IfOk result (λ told. map undeclared_key told.items ≡ keys.keys) }
    ensures rising { IfOk result (λ told.
        IsStrictlySortedBy (slice_cmp nat_cmp) (map undeclared_key told.items)) }
{
    let mut left = keys;
    let _count = left.len();
    let mut told = Vec::new(alloc);
    while let Some(key) = left.pop_first() {
        told.push(Undeclared {
            kind: kind_of(key[4], key[5], key[6]),
            maker: key[0] as u32,
            user: key[1] as u32,
            path: key[2],
            made_by: key[3],
        })?;
    }
    Ok(told)
}
