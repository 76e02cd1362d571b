//! Why a call did nothing.
ghost use Rattle.std.specs.Prelude.{◌≡◌, Option, Some};
ghost use Rattle.std.specs.Option.{option_map};
ghost use Rattle.rev_plan.specs.Fault.{Explains};
ghost use Rattle.rev_plan.specs.Plan.{PlanRefusal};
ghost use Rattle.rev_events.specs.Refusal.{of_plan as of_plan_in};
ghost use Rattle.rev_events.specs.declared.refusal.Refusal.{Refusal as RefusalValue};
ghost use Rattle.rev_events.specs.declared.fault.Fault.TheVariants.{Refused};
ghost use Rattle.rev_events.specs.declared.fault.Fault.TheVariants.{Memory};

use crate::refusal::Refusal;
use rev_plan::PlanFault;
use std::alloc::{AllocError, AllocFailed};

/// Why a call did nothing.
#[derive(Clone, Copy, Debug, PartialEq, Eq)]
pub enum Fault {
    /// An allocation failed.
    Memory,
    /// The event or the command is refused.
    Refused(Refusal),
}

impl From<AllocError> for Fault {
    ghost from_gives = { λ _ fault. fault ≡ Memory };

    fn from(_e: AllocError) -> Fault {
        Fault::Memory
    }
}

impl<T: Drop> From<AllocFailed<T>> for Fault {
    ghost from_gives = { λ _ fault. fault ≡ Memory };

    fn from(_e: AllocFailed<T>) -> Fault {
        Fault::Memory
    }
}

// What a plan's fault is among those of events.
pub(crate) fn of_plan(fault: PlanFault) -> Fault
    ensures { (p : Option PlanRefusal) (r : RefusalValue) → Explains fault p → result ≡ Refused r
        → option_map of_plan_in p ≡ Some r }
{
    match fault {
        PlanFault::Memory => Fault::Memory,
        PlanFault::StillRunning(edge) => Fault::Refused(Refusal::StillRunning(edge)),
        PlanFault::UnknownTarget(at) => Fault::Refused(Refusal::UnknownTarget(at)),
        PlanFault::MissingInput(at, edge) => Fault::Refused(Refusal::MissingInput(at, edge)),
        PlanFault::DepsCycle(edge) => Fault::Refused(Refusal::DepsCycle(edge)),
    }
}
