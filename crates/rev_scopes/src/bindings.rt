//! Variables and their values.
ghost use Rattle.std.specs.Prelude.{◌≡◌, [], IfOk, OnOk, OnErr};
ghost use Rattle.std.specs.Option.{option_copied};
ghost use Rattle.rev_scopes.specs.Bindings.{value_of, bound};

use crate::shared_text::SharedText;
use indexmap::IndexMap;
use std::alloc::{AllocError, Global};
use std::marker::Model;

/// Variables with their values, each bound once, in the order in which they were first bound.
pub struct Bindings {
    entries: IndexMap<Vec<u8>, SharedText>,
}

impl Drop for Bindings {
    fn drop(self) {
        let Bindings { entries: _entries } = self;
    }
}

impl Model for Bindings {
    ghost use Rattle.std.specs.Prelude.{List, ℕ};
    ghost use Rattle.rev_scopes.specs.Bindings.{seen_entries};

    ghost Value = { List (List ℕ × List ℕ) };

    ghost view = { λ b. seen_entries b.entries.entries };
}

impl Bindings {
    /// No variables.
    pub fn new(alloc: Global) -> Bindings
        ensures { result ≡ [] }
    {
        Bindings {
            entries: IndexMap::new(alloc),
        }
    }

    /// Gives a variable a value, also where it had another: of two bindings the later counts.
    ///
    /// # Errors
    /// [`AllocError`] where an allocation was refused; then nothing is changed.
    pub fn bind(&mut self, alloc: Global, name: &[u8], value: SharedText) -> Result<(), AllocError>
        ensures bound { OnOk result (self.new ≡ bound name.now value self.old) }
        ensures err { OnErr result (self.new ≡ self.old) }
    {
        let key = Vec::from_slice(alloc, name)?;
        self.entries.insert(key, value)?;
        Ok(())
    }

    /// The value of a variable, if it is bound here.
    pub fn value(&self, name: &[u8]) -> Option<&[u8]>
        ensures { option_copied result ≡ value_of name.now self.now }
    {
        match self.shared(name) {
            Some(value) => Some(value.as_bytes()),
            None => None,
        }
    }

    // The value of a variable, to be shared.
    pub(crate) fn shared(&self, name: &[u8]) -> Option<&SharedText>
        ensures { option_copied result ≡ value_of name.now self.now }
    {
        self.entries.get(name)
    }
}
