//! Why a rule is not added, and why a text has no value.
ghost use Rattle.std.specs.Prelude.{◌≡◌};
ghost use Rattle.rev_scopes.specs.declared.fault.RuleFault.TheVariants as rule_fault;
ghost use Rattle.rev_scopes.specs.declared.fault.ValueFault.TheVariants as value_fault;
ghost use Rattle.rev_scopes.specs.Fault.{rule_code, value_code};

use std::alloc::{AllocError, AllocFailed};

/// Why a rule is not added to a scope.
#[derive(Clone, Copy, Debug, PartialEq, Eq)]
pub enum RuleFault {
    /// An allocation was refused.
    Memory,
    /// 14: the scope has a rule of that name, or the name is `phony`.
    DoubleRule,
}

impl RuleFault {
    /// The number of the fault. `Memory` has none.
    pub fn code(self) -> Option<u16>
        ensures { result ≡ rule_code self }
    {
        match self {
            RuleFault::Memory => None,
            RuleFault::DoubleRule => Some(14),
        }
    }
}

impl From<AllocError> for RuleFault {
    ghost from_gives = { λ _ fault. fault ≡ rule_fault.Memory };

    fn from(_e: AllocError) -> RuleFault {
        RuleFault::Memory
    }
}

impl<T: Drop> From<AllocFailed<T>> for RuleFault {
    ghost from_gives = { λ _ fault. fault ≡ rule_fault.Memory };

    fn from(_e: AllocFailed<T>) -> RuleFault {
        RuleFault::Memory
    }
}

/// Why a text is not expanded.
#[derive(Clone, Copy, Debug, PartialEq, Eq)]
pub enum ValueFault {
    /// An allocation was refused.
    Memory,
    /// 17: a rule variable that the edge needs has no value, since it needs itself.
    NeedsItself,
    /// 23: a value has more than 1,048,576 bytes.
    TooLarge,
}

impl ValueFault {
    /// The number of the fault. `Memory` has none.
    pub fn code(self) -> Option<u16>
        ensures { result ≡ value_code self }
    {
        match self {
            ValueFault::Memory => None,
            ValueFault::NeedsItself => Some(17),
            ValueFault::TooLarge => Some(23),
        }
    }
}

impl From<AllocError> for ValueFault {
    ghost from_gives = { λ _ fault. fault ≡ value_fault.Memory };

    fn from(_e: AllocError) -> ValueFault {
        ValueFault::Memory
    }
}

impl<T: Drop> From<AllocFailed<T>> for ValueFault {
    ghost from_gives = { λ _ fault. fault ≡ value_fault.Memory };

    fn from(_e: AllocFailed<T>) -> ValueFault {
        ValueFault::Memory
    }
}
