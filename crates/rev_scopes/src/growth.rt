//! Values that grow, up to a limit.
ghost use Rattle.std.specs.Prelude.{◌≡◌, [], None, Some, OnOk, IsTrue, option_map, List, ℕ};
ghost use Rattle.rev_scopes.specs.Expansion.{limited, appended};

use std::alloc::{AllocError, Global};
use std::marker::Model;

/// The most bytes that a value may have.
pub const MAX_VALUE_BYTES: usize = 1_048_576;

/// A value so far, seen as none once it is too large. No more memory is taken for it than the limit.
#[derive(Drop)]
pub(crate) struct Growth {
    bytes: Vec<u8>,
    is_over: bool,
}

impl Model for Growth {
    ghost use Rattle.rev_scopes.specs.declared.growth.TheConstants.{MAX_VALUE_BYTES};
    ghost use Rattle.std.specs.Prelude.{◌≡◌, ◌≤◌, Option, None, Some, List, ℕ, Bool, false, length, if◌then◌else◌};

    ghost Value = { Option (List ℕ) };

    ghost view = { λ g. if g.is_over then None else Some g.bytes.items };

    ghost invariant = { λ g. length g.bytes.items ≤ MAX_VALUE_BYTES };
}

impl Growth {
    /// The value of no bytes.
    pub(crate) fn new(alloc: Global) -> Growth
        ensures { result ≡ Some [] }
    {
        Growth {
            bytes: Vec::new(alloc),
            is_over: false,
        }
    }

    /// Adds bytes.
    pub(crate) fn push(&mut self, bytes: &[u8]) -> Result<(), AllocError>
        ensures appended { OnOk result (self.new ≡ appended self.old bytes.now) }
        ensures within { appended self.new [] ≡ self.new }
    {
        if self.is_over {
            return Ok(());
        }
        if bytes.len() > MAX_VALUE_BYTES - self.bytes.len() {
            self.is_over = true;
            return Ok(());
        }
        self.bytes.extend_from_slice(bytes)?;
        Ok(())
    }

    /// Adds a value.
    pub(crate) fn push_value(&mut self, other: &Growth) -> Result<(), AllocError>
        ensures appended { OnOk result ((value : List ℕ) → other.now ≡ limited value
            → self.new ≡ appended self.old value) }
        ensures within { appended self.new [] ≡ self.new }
    {
        if other.is_over {
            self.is_over = true;
            return Ok(());
        }
        self.push(&other.bytes)?;
        Ok(())
    }

    /// Whether it is too large by now, so that more bytes make no difference.
    pub(crate) fn is_over(&self) -> bool
        ensures { IsTrue result → self.now ≡ None }
    {
        self.is_over
    }

    /// The value, unless it is too large.
    pub(crate) fn into_value(self) -> Option<Vec<u8>>
        ensures value { option_map (λ value. value.items) result ≡ self }
        ensures within { appended self [] ≡ self }
    {
        if self.is_over {
            return None;
        }
        Some(self.bytes)
    }
}
