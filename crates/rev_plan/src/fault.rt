//! Why a plan is refused.
ghost use Rattle.std.specs.Prelude.{◌≡◌};
ghost use Rattle.rev_plan.specs.declared.fault.PlanFault.TheVariants.{Memory};

use std::alloc::{AllocError, AllocFailed};

/// Why a plan is refused. The faults are asked for in this order.
#[derive(Clone, Copy, Debug, PartialEq, Eq)]
pub enum PlanFault {
    /// An allocation was refused, which says nothing about the build.
    Memory,
    /// The least edge whose command runs.
    StillRunning(u32),
    /// The position of the first target that stands on no build line (Ninja: "unknown target").
    UnknownTarget(u64),
    /// An input that is missing and that no edge produces: its position among the explicit, implicit and order-only
    /// inputs of the build line, and the edge. The edge is the least of those that the targets need, and the input its
    /// first (Ninja: "missing and no known rule to make it").
    MissingInput(u64, u32),
    /// The least edge that the targets need and that reaches itself through its inputs, where a deps record closes the
    /// cycle (Ninja: "dependency cycle").
    DepsCycle(u32),
}

impl From<AllocError> for PlanFault {
    ghost from_gives = { λ _ fault. fault ≡ Memory };

    fn from(_e: AllocError) -> PlanFault {
        PlanFault::Memory
    }
}

impl<T: Drop> From<AllocFailed<T>> for PlanFault {
    ghost from_gives = { λ _ fault. fault ≡ Memory };

    fn from(_e: AllocFailed<T>) -> PlanFault {
        PlanFault::Memory
    }
}
