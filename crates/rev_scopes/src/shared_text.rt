//! Texts whose copies share their bytes.
ghost use Rattle.std.specs.Prelude.{◌≡◌, ◌∷◌, [], IfOk, bytes_eq};
ghost use Rattle.std.specs.Arc.{arc_slice_items};
ghost use Rattle.std.specs.Hash.{same_Alike};
ghost use Rattle.std.proofs.lemmas.Slice.Eq.{bytes_eq-Decides};
ghost use Rattle.std.specs.Cmp.{partial_equiv_from_equiv};
ghost use Rattle.std.specs.Cmp.Lexicographic.{nat_list_eq_equiv};
ghost use Rattle.std.specs.Cmp.Rules.{comparing};

use std::alloc::AllocError;
use std::hash::{Hash, Hasher};
use std::marker::Model;
use std::sync::ArcSlice;

/// A text whose copies share its bytes. Two are equal where their bytes are.
pub struct SharedText {
    bytes: ArcSlice<u8>,
}

impl Drop for SharedText {
    fn drop(self) {
        let SharedText { bytes: _bytes } = self;
    }
}

impl Model for SharedText {
    ghost use Rattle.std.specs.Prelude.{List, ℕ};
    ghost use Rattle.std.specs.Arc.{arc_slice_items};

    ghost Value = { List ℕ };

    ghost view = { λ text. arc_slice_items text.bytes };
}

impl SharedText {
    /// The text of these bytes.
    ///
    /// # Errors
    /// [`AllocError`] where an allocation was refused.
    pub fn new(bytes: Vec<u8>) -> Result<SharedText, AllocError>
        ensures { IfOk result (λ text. text ≡ bytes.items) }
    {
        let bytes = ArcSlice::from_vec(bytes)?;
        Ok(SharedText { bytes })
    }

    /// Its bytes.
    pub fn as_bytes(&self) -> &[u8]
        ensures { result.now ≡ self.now }
    {
        self.bytes.as_slice()
    }

    /// Its bytes, for another type whose values share them.
    ///
    /// # Errors
    /// [`AllocError`] where there are more copies than can be counted.
    pub fn to_shared(&self) -> Result<ArcSlice<u8>, AllocError>
        ensures { IfOk result (λ bytes. arc_slice_items bytes ≡ self.now) }
    {
        self.bytes.clone()
    }

    /// An equal text, which shares the bytes of this one.
    ///
    /// # Errors
    /// [`AllocError`] where there are more copies than can be counted.
    pub fn copy(&self) -> Result<SharedText, AllocError>
        ensures { IfOk result (λ copy. copy ≡ self.now) }
    {
        Ok(SharedText {
            bytes: self.bytes.clone()?,
        })
    }
}

impl PartialEq for SharedText {
    ghost eq = { bytes_eq };

    ghost laws = { partial_equiv_from_equiv nat_list_eq_equiv };

    fn eq(&self, other: &SharedText) -> bool {
        self.bytes == other.bytes
    }
}

impl Eq for SharedText {
    ghost laws = { nat_list_eq_equiv };
}

impl Hash for SharedText {
    // All bytes in one write, of which the hasher takes many at a time.
    ghost hash_input = { λ text. text ∷ [] };

    ghost respects_eq = { (same_Alike (λ text. text ∷ []) bytes_eq-Decides).fed };

    fn hash<H: Hasher>(&self, state: &mut H) {
        state.write(self.as_bytes());
    }
}
