//! Paths that a command is said to have read.
ghost use Rattle.std.specs.Prelude.{◌≡◌, ◌∷◌, [], IfOk, IsTrue, bytes_eq};
ghost use Rattle.std.specs.Hash as fed;
ghost use Rattle.std.specs.Hash.{items_Alike, same_Alike};
ghost use Rattle.std.specs.List.{IsDistinct};
ghost use Rattle.std.proofs.lemmas.Slice.Eq.{bytes_eq-Decides};
ghost use Rattle.std.specs.Cmp.{partial_equiv_from_equiv};
ghost use Rattle.std.specs.Cmp.Lexicographic.{pointwise, nat_list_eq_equiv, lists_equiv};

use rev_cells::Names;
use rev_paths::Name;
use std::alloc::AllocError;
use std::hash::{Hash, Hasher};
use std::marker::Model;

/// Paths as they were listed, repeated ones too. Beside them stands whether it is known that none is repeated, which
/// shows in no value: who reads a list knows it as the paths come, and spares the others a set of these.
#[derive(Debug)]
pub struct ListedPaths {
    paths: Names,
    each_once: bool,
}

impl Drop for ListedPaths {
    fn drop(self) {
        let ListedPaths {
            paths: _paths,
            each_once: _each_once,
        } = self;
    }
}

impl Model for ListedPaths {
    ghost use Rattle.std.specs.Prelude.{◌≡◌, List, ℕ, true, bytes_eq};
    ghost use Rattle.std.specs.List.{IsDistinct};

    ghost Value = { List (List ℕ) };

    ghost view = { λ l. l.paths };

    ghost invariant = { λ l. l.each_once ≡ true → IsDistinct bytes_eq l.paths };
}

impl ListedPaths {
    /// Paths of which nothing is known.
    pub fn new(paths: Names) -> ListedPaths
        ensures { result ≡ paths }
    {
        ListedPaths {
            paths,
            each_once: false,
        }
    }

    /// Paths none of which stands twice.
    pub fn distinct(paths: Names) -> ListedPaths
        requires { IsDistinct bytes_eq paths }
        ensures { result ≡ paths }
    {
        ListedPaths {
            paths,
            each_once: true,
        }
    }

    /// The paths.
    pub fn names(&self) -> &Names
        ensures { result.now ≡ self.now }
    {
        &self.paths
    }

    /// The paths in their order.
    pub fn as_slice(&self) -> &[Name]
        ensures { result.now ≡ self.now }
    {
        self.paths.as_slice()
    }

    /// Whether it is known that no path stands twice.
    pub fn are_distinct(&self) -> bool
        ensures { IsTrue result → IsDistinct bytes_eq self.now }
    {
        self.each_once
    }

    /// Equal paths in the same order, which share the list of these.
    ///
    /// # Errors
    /// [`AllocError`] where no more copies can be counted.
    pub fn copy(&self) -> Result<ListedPaths, AllocError>
        ensures { IfOk result (λ copy. copy ≡ self.now) }
    {
        self.clone()
    }
}

impl Clone for ListedPaths {
    ghost is_clone = { λ paths copy. copy ≡ paths };

    fn clone(&self) -> Result<ListedPaths, AllocError> {
        Ok(ListedPaths {
            paths: self.paths.copy()?,
            each_once: self.each_once,
        })
    }
}

impl PartialEq for ListedPaths {
    ghost eq = { pointwise bytes_eq };

    ghost laws = { partial_equiv_from_equiv (lists_equiv nat_list_eq_equiv) };

    fn eq(&self, other: &ListedPaths) -> bool {
        self.paths == other.paths
    }
}

impl Eq for ListedPaths {
    ghost laws = { lists_equiv nat_list_eq_equiv };
}

impl Hash for ListedPaths {
    ghost hash_input = { fed.slice (λ name. name ∷ []) };

    ghost respects_eq = { (items_Alike (same_Alike (λ name. name ∷ []) bytes_eq-Decides)).fed };

    fn hash<H: Hasher>(&self, state: &mut H) {
        self.paths.hash(state);
    }
}
