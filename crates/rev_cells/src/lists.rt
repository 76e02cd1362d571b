//! Lists that values hold, whose copies share their bytes.
ghost use Rattle.std.specs.Prelude.{◌≡◌, ◌∷◌, [], IfOk, bytes_eq};
ghost use Rattle.std.specs.Arc.{arc_slice_items};
ghost use Rattle.std.specs.Hash as fed;
ghost use Rattle.std.specs.Hash.{items_Alike, same_Alike};
ghost use Rattle.std.proofs.lemmas.Slice.Eq.{bytes_eq-Decides};
ghost use Rattle.std.specs.Cmp.{partial_equiv_from_equiv};
ghost use Rattle.std.specs.Cmp.Lexicographic.{pointwise, nat_list_eq_equiv, lists_equiv};

use rev_paths::Name;
use std::alloc::AllocError;
use std::hash::{Hash, Hasher};
use std::marker::Model;
use std::sync::ArcSlice;

// A list that copies share, with room for its items and no more.
fn shared<T: Drop>(items: Vec<T>) -> Result<ArcSlice<T>, AllocError>
    ensures { IfOk result (λ list. arc_slice_items list ≡ items.items) }
{
    let mut items = items;
    items.shrink_to_fit();
    ArcSlice::from_vec(items)
}

/// Positions of an edge's outputs, which count from 0.
#[derive(Debug)]
pub struct Positions {
    items: ArcSlice<u64>,
}

// Written, since a derived drop is proved again at each exit of each caller.
impl Drop for Positions {
    fn drop(self) {
        let Positions { items: _items } = self;
    }
}

impl Model for Positions {
    ghost use Rattle.std.specs.Prelude.{List, ℕ};

    ghost Value = { List ℕ };

    ghost use Rattle.std.specs.Arc.{arc_slice_items};

    ghost view = { λ p. arc_slice_items p.items };
}

impl Positions {
    /// The positions of a vector. Copies share them.
    ///
    /// # Errors
    /// [`AllocError`] where an allocation was refused.
    pub fn new(items: Vec<u64>) -> Result<Positions, AllocError>
        ensures { IfOk result (λ positions. positions ≡ items.items) }
    {
        Ok(Positions {
            items: shared(items)?,
        })
    }

    /// The positions in their order.
    pub fn as_slice(&self) -> &[u64]
        ensures { result.now ≡ self.now }
    {
        self.items.as_slice()
    }

    /// Equal positions, which share what these hold.
    ///
    /// # Errors
    /// [`AllocError`] where no more copies can be counted.
    pub fn copy(&self) -> Result<Positions, AllocError>
        ensures { IfOk result (λ copy. copy ≡ self.now) }
    {
        self.clone()
    }
}

impl Clone for Positions {
    ghost is_clone = { λ positions copy. copy ≡ positions };

    fn clone(&self) -> Result<Positions, AllocError> {
        Ok(Positions {
            items: self.items.clone()?,
        })
    }
}

impl PartialEq for Positions {
    ghost eq = { bytes_eq };

    ghost laws = { partial_equiv_from_equiv nat_list_eq_equiv };

    fn eq(&self, other: &Positions) -> bool {
        self.items == other.items
    }
}

impl Eq for Positions {
    ghost laws = { nat_list_eq_equiv };
}

/// The bytes of a text, as a command.
#[derive(Debug)]
pub struct Text {
    bytes: ArcSlice<u8>,
}

// Written, since a derived drop is proved again at each exit of each caller.
impl Drop for Text {
    fn drop(self) {
        let Text { bytes: _bytes } = self;
    }
}

impl Model for Text {
    ghost use Rattle.std.specs.Prelude.{List, ℕ};

    ghost Value = { List ℕ };

    ghost use Rattle.std.specs.Arc.{arc_slice_items};

    ghost view = { λ t. arc_slice_items t.bytes };
}

impl Text {
    /// The text of a vector's bytes. Copies share them.
    ///
    /// # Errors
    /// [`AllocError`] where an allocation was refused.
    pub fn new(bytes: Vec<u8>) -> Result<Text, AllocError>
        ensures { IfOk result (λ text. text ≡ bytes.items) }
    {
        Ok(Text {
            bytes: shared(bytes)?,
        })
    }

    /// The text of bytes that are shared already.
    pub fn of_shared(bytes: ArcSlice<u8>) -> Text
        ensures { result ≡ arc_slice_items bytes }
    {
        Text { bytes }
    }

    /// The bytes in their order.
    pub fn as_slice(&self) -> &[u8]
        ensures { result.now ≡ self.now }
    {
        self.bytes.as_slice()
    }

    /// An equal text, which shares the bytes of this one.
    ///
    /// # Errors
    /// [`AllocError`] where no more copies can be counted.
    pub fn copy(&self) -> Result<Text, AllocError>
        ensures { IfOk result (λ copy. copy ≡ self.now) }
    {
        self.clone()
    }
}

impl Clone for Text {
    ghost is_clone = { λ text copy. copy ≡ text };

    fn clone(&self) -> Result<Text, AllocError> {
        Ok(Text {
            bytes: self.bytes.clone()?,
        })
    }
}

impl PartialEq for Text {
    ghost eq = { bytes_eq };

    ghost laws = { partial_equiv_from_equiv nat_list_eq_equiv };

    fn eq(&self, other: &Text) -> bool {
        self.bytes == other.bytes
    }
}

impl Eq for Text {
    ghost laws = { nat_list_eq_equiv };
}

impl Hash for Text {
    // All bytes in one write, of which the hasher takes many at a time.
    ghost hash_input = { λ text. text ∷ [] };

    ghost respects_eq = { (same_Alike (λ text. text ∷ []) bytes_eq-Decides).fed };

    fn hash<H: Hasher>(&self, state: &mut H) {
        state.write(self.as_slice());
    }
}

/// Paths in a given order, in which one may stand more than once.
#[derive(Debug)]
pub struct Names {
    paths: ArcSlice<Name>,
}

// Written, since a derived drop is proved again at each exit of each caller.
impl Drop for Names {
    fn drop(self) {
        let Names { paths: _paths } = self;
    }
}

impl Model for Names {
    ghost use Rattle.std.specs.Prelude.{List, ℕ};

    ghost Value = { List (List ℕ) };

    ghost use Rattle.std.specs.Arc.{arc_slice_items};

    ghost view = { λ n. arc_slice_items n.paths };
}

impl Names {
    /// The paths of a vector. Copies share them.
    ///
    /// # Errors
    /// [`AllocError`] where an allocation was refused.
    pub fn new(paths: Vec<Name>) -> Result<Names, AllocError>
        ensures { IfOk result (λ names. names ≡ paths.items) }
    {
        Ok(Names {
            paths: shared(paths)?,
        })
    }

    /// The paths in their order.
    pub fn as_slice(&self) -> &[Name]
        ensures { result.now ≡ self.now }
    {
        self.paths.as_slice()
    }

    /// Equal paths in the same order, which share the list of these.
    ///
    /// # Errors
    /// [`AllocError`] where no more copies can be counted.
    pub fn copy(&self) -> Result<Names, AllocError>
        ensures { IfOk result (λ copy. copy ≡ self.now) }
    {
        self.clone()
    }
}

impl Clone for Names {
    ghost is_clone = { λ names copy. copy ≡ names };

    fn clone(&self) -> Result<Names, AllocError> {
        Ok(Names {
            paths: self.paths.clone()?,
        })
    }
}

impl PartialEq for Names {
    ghost eq = { pointwise bytes_eq };

    ghost laws = { partial_equiv_from_equiv (lists_equiv nat_list_eq_equiv) };

    fn eq(&self, other: &Names) -> bool {
        self.paths == other.paths
    }
}

impl Eq for Names {
    ghost laws = { lists_equiv nat_list_eq_equiv };
}

impl Hash for Names {
    ghost hash_input = { fed.slice (λ name. name ∷ []) };

    ghost respects_eq = { (items_Alike (same_Alike (λ name. name ∷ []) bytes_eq-Decides)).fed };

    fn hash<H: Hasher>(&self, state: &mut H) {
        self.paths.hash(state);
    }
}
