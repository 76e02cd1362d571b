//! Whether orders are needless.
ghost use Rattle.std.specs.Prelude.{◌<◌, ◌↔◌, ◌^◌, length, IfOk, IsTrue};
ghost use Rattle.std.specs.List.{All};
ghost use Rattle.rev_needless.specs.Without.{marks_in};
ghost use Rattle.rev_needless.specs.Needless.{IsNeedless};

use crate::known::Known;
use crate::left::without;
use crate::staying::all_stay;
use std::alloc::{AllocError, Global};

/// Whether the orders that have a mark are needless, all together: `gone[n][k]` is the mark of the order at place k of
/// `known.steps[n]`.
///
/// It takes a search for each command that conflicts, and for each target and each unseen command. A search goes over
/// what the node waits for.
///
/// # Errors
/// [`AllocError`] only where an allocation was refused.
pub fn is_needless(alloc: Global, known: &Known, gone: &[Vec<bool>]) -> Result<bool, AllocError>
    requires inside { All (λ v. All (λ s. s < length known.now.steps.items) v.items) known.now.steps.items }
    requires small { length known.now.steps.items < 2 ^ 32 }
    ensures { IfOk result (λ yes. IsTrue yes ↔ IsNeedless known.now (marks_in gone.now)) }
{
    let after = without(alloc, &known.steps, gone)?;
    let yes = all_stay(
        alloc,
        &known.steps,
        &after,
        &known.conflicts,
        &known.targets,
        &known.unseen,
        &known.commands,
    )?;
    Ok(yes)
}
