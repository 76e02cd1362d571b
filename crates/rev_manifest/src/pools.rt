//! Pools, which are known in all files.
ghost use Rattle.std.specs.Prelude.{◌≡◌, ◌++◌, ◌∷◌, [], Some, None, ℕ, map, OnOk, OnErr, IfOk};
ghost use Rattle.rev_manifest.specs.Pools.{console, pool_of};

use indexmap::IndexMap;
use std::alloc::{AllocError, Global};
use std::marker::Model;

/// Pools with their depths, in the order of their numbers (Ninja manual, pools).
#[derive(Drop)]
pub(crate) struct Pools {
    depths: IndexMap<Vec<u8>, u32>,
}

impl Model for Pools {
    ghost use Rattle.std.specs.Prelude.{List, ℕ};
    ghost use Rattle.rev_scopes.specs.Bindings.{seen_entries};

    ghost Value = { List (List ℕ × ℕ) };

    ghost view = { λ p. seen_entries p.depths.entries };
}

impl Pools {
    /// The pool `console`, which needs no declaration, with depth 1.
    pub(crate) fn new(alloc: Global) -> Result<Pools, AllocError>
        ensures { IfOk result (λ pools. pools ≡ console ∷ []) }
    {
        let mut depths = IndexMap::new(alloc);
        let name = Vec::from_slice(alloc, b"console")?;
        depths.insert(name, 1)?;
        Ok(Pools { depths })
    }

    /// The number of the pool of a name.
    pub(crate) fn number(&self, name: &[u8]) -> Option<usize>
        ensures { result ≡ pool_of name.now self.now }
    {
        self.depths.get_index_of(name)
    }

    /// Adds a pool whose name is new.
    pub(crate) fn add(&mut self, alloc: Global, name: &[u8], depth: u32) -> Result<(), AllocError>
        requires { pool_of name.now self.old ≡ None }
        ensures added { OnOk result (self.new ≡ self.old ++ (name.now, depth) ∷ []) }
        ensures err { OnErr result (self.new ≡ self.old) }
    {
        let key = Vec::from_slice(alloc, name)?;
        self.depths.insert(key, depth)?;
        Ok(())
    }

    /// The pools, in the order of their numbers.
    pub(crate) fn into_pairs(self, alloc: Global) -> Result<Vec<(Vec<u8>, u32)>, AllocError>
        ensures { IfOk result (λ pairs. map (λ pair. (pair.0.items, pair.1)) pairs.items ≡ self) }
    {
        self.depths.into_iter().collect(alloc)
    }
}
