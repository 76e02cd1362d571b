//! Users and files that stronger findings are about.
ghost use Rattle.std.specs.Prelude.{◌≡◌, ◌↔◌, ◌⊎◌, ℕ, List, ◌∷◌, [], true, Contains, IfOk, IsTrue, OnOk};
ghost use Rattle.rev_undeclared.specs.Stronger.{is_clash as is_clash_of, is_told, tells_of};

use rev_conflicts::{Conflict, ConflictKind, Place};
use std::alloc::{AllocError, Global};
use std::collections::BTreeSet;
use std::marker::Model;

/// Pairs of a user and a file that findings are about, by the numbers of the user's edge and of the path.
#[derive(Drop)]
pub struct Stronger {
    keys: BTreeSet<[u64; 2]>,
}

impl Model for Stronger {
    ghost use Rattle.std.specs.Prelude.{List, ℕ};

    ghost Value = { List (List ℕ) };

    ghost view = { λ s. s.keys.keys };
}

impl Stronger {
    /// No pair.
    pub fn new(alloc: Global) -> Stronger
        ensures { result ≡ [] }
    {
        Stronger {
            keys: BTreeSet::new(alloc),
        }
    }

    /// Adds a user and a file, unless they are there.
    ///
    /// # Errors
    /// [`AllocError`] only where an allocation was refused.
    pub fn add(&mut self, user: u32, path: u64) -> Result<(), AllocError>
        ensures { OnOk result ((k : List ℕ) → Contains self.new k
            ↔ (Contains self.old k ⊎ (k ≡ user ∷ path ∷ []))) }
    {
        self.keys.insert([user as u64, path])?;
        Ok(())
    }

    /// Whether a finding is about this user and this file.
    pub fn has(&self, user: u32, path: u64) -> bool
        ensures { IsTrue result ↔ Contains self.now (user ∷ path ∷ []) }
    {
        self.keys.contains(&[user as u64, path])
    }
}

// Whether both edges are users.
fn is_clash(kind: ConflictKind) -> bool
    ensures { result ≡ is_clash_of kind }
{
    match kind {
        ConflictKind::Clash => true,
        ConflictKind::Race { .. } | ConflictKind::Cycle { .. } | ConflictKind::Unstable { .. } => {
            false
        }
    }
}

// Adds the users and the file of a conflict.
fn add_conflict(conflict: &Conflict, stronger: &mut Stronger) -> Result<(), AllocError>
    ensures { OnOk result ((user path : ℕ) → Contains stronger.new (user ∷ path ∷ [])
        ↔ (Contains stronger.old (user ∷ path ∷ []) ⊎ (tells_of user path conflict.now ≡ true))) }
{
    let Place::File(path) = conflict.place else {
        return Ok(());
    };
    stronger.add(conflict.user, path)?;
    if is_clash(conflict.kind) {
        stronger.add(conflict.maker, path)?;
    }
    Ok(())
}

/// The users and files that conflicts are about. Both edges of a clash count as users.
///
/// # Errors
/// [`AllocError`] only where an allocation was refused.
pub fn told_by(alloc: Global, conflicts: &[Conflict]) -> Result<Stronger, AllocError>
    ensures { IfOk result (λ stronger. (user path : ℕ) → Contains stronger (user ∷ path ∷ [])
        ↔ (is_told conflicts.now user path ≡ true)) }
{
    let mut stronger = Stronger::new(alloc);
    for conflict in conflicts {
        add_conflict(conflict, &mut stronger)?;
    }
    Ok(stronger)
}
