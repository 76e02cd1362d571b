//! Stamps that an event gives.
ghost use Rattle.std.specs.Prelude.{◌≡◌, IfOk, bytes_eq};
ghost use Rattle.std.specs.Hash as fed;
ghost use Rattle.std.specs.Hash.{same_Alike};
ghost use Rattle.std.proofs.lemmas.Slice.Eq.{bytes_eq-Decides};
ghost use Rattle.std.specs.Cmp.{partial_equiv_from_equiv};
ghost use Rattle.std.specs.Cmp.Lexicographic.{nat_list_eq_equiv};

use std::alloc::AllocError;
use std::hash::{Hash, Hasher};
use std::marker::Model;
use std::sync::ArcSlice;

/// Stamps of an edge's outputs, in the order of the outputs.
#[derive(Debug)]
pub struct Stamps {
    items: ArcSlice<u64>,
}

impl Drop for Stamps {
    fn drop(self) {
        let Stamps { items: _items } = self;
    }
}

impl Model for Stamps {
    ghost use Rattle.std.specs.Prelude.{List, ℕ};

    ghost Value = { List ℕ };

    ghost use Rattle.std.specs.Arc.{arc_slice_items};

    ghost view = { λ s. arc_slice_items s.items };
}

impl Stamps {
    /// The stamps of a vector. Copies share them.
    ///
    /// # Errors
    /// [`AllocError`] where an allocation was refused.
    pub fn new(items: Vec<u64>) -> Result<Stamps, AllocError>
        ensures { IfOk result (λ stamps. stamps ≡ items.items) }
    {
        let mut items = items;
        items.shrink_to_fit();
        Ok(Stamps {
            items: ArcSlice::from_vec(items)?,
        })
    }

    /// The stamps in their order.
    pub fn as_slice(&self) -> &[u64]
        ensures { result.now ≡ self.now }
    {
        self.items.as_slice()
    }

    /// Equal stamps, which share what these hold.
    ///
    /// # Errors
    /// [`AllocError`] where no more copies can be counted.
    pub fn copy(&self) -> Result<Stamps, AllocError>
        ensures { IfOk result (λ copy. copy ≡ self.now) }
    {
        self.clone()
    }
}

impl Clone for Stamps {
    ghost is_clone = { λ stamps copy. copy ≡ stamps };

    fn clone(&self) -> Result<Stamps, AllocError> {
        Ok(Stamps {
            items: self.items.clone()?,
        })
    }
}

impl PartialEq for Stamps {
    ghost eq = { bytes_eq };

    ghost laws = { partial_equiv_from_equiv nat_list_eq_equiv };

    fn eq(&self, other: &Stamps) -> bool {
        self.items == other.items
    }
}

impl Eq for Stamps {
    ghost laws = { nat_list_eq_equiv };
}

impl Hash for Stamps {
    ghost hash_input = { fed.slice fed.u64 };

    ghost respects_eq = { (same_Alike (fed.slice fed.u64) bytes_eq-Decides).fed };

    fn hash<H: Hasher>(&self, state: &mut H) {
        self.items.hash(state);
    }
}
