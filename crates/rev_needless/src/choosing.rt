//! A choice of orders that are needless together. How it is made is not proved: what was chosen is checked.
ghost use Rattle.std.specs.Prelude.{◌≡◌, ◌&&◌, IfOk, IsTrue};
ghost use Rattle.rev_needless.specs.Laws.{IsPart};
ghost use Rattle.rev_needless.specs.Needless.{IsNeedless};
ghost use Rattle.rev_needless.specs.Without.{marks_in};

use crate::checking::is_needless;
use crate::graphs::is_graph;
use crate::known::Known;
use crate::needing::keep_targets;
use crate::parts::is_part;
use crate::restoring::{keep_conflicts, keep_unseen, leave_out_doubles};
use crate::searching::Kept;
use crate::walking::makers_first;
use std::alloc::{AllocError, Global};

// Orders of which some may go, proposed: first all that may go, and then each stays that something asks for.
fn proposed(
    alloc: Global,
    known: &Known,
    may_go: &[Vec<bool>],
) -> Result<Vec<Vec<bool>>, AllocError> {
    let Some(order) = makers_first(alloc, &known.steps)? else {
        return Ok(Vec::new(alloc));
    };
    let mut kept = Kept::new(alloc, &known.steps, may_go)?;
    keep_unseen(alloc, known, &mut kept)?;
    keep_conflicts(alloc, known, &order, &mut kept)?;
    keep_targets(alloc, known, &order, &mut kept)?;
    leave_out_doubles(alloc, known, may_go, &mut kept)?;
    Ok(kept.into_gone())
}

// Whether both facts are true.
fn both(one: bool, other: bool) -> bool
    ensures { result ≡ (one && other) }
{
    one && other
}

// Whether orders are needless together, and each of them may go.
fn is_answer(
    alloc: Global,
    known: &Known,
    gone: &[Vec<bool>],
    may_go: &[Vec<bool>],
) -> Result<bool, AllocError>
    ensures needless { IfOk result (λ yes. IsTrue yes → IsNeedless known.now (marks_in gone.now)) }
    ensures part { IfOk result (λ yes. IsTrue yes → IsPart (marks_in gone.now) (marks_in may_go.now)) }
{
    let holds = is_graph(&known.steps);
    if !holds {
        return Ok(false);
    }
    let part = is_part(gone, may_go);
    let needless = is_needless(alloc, known, gone)?;
    Ok(both(part, needless))
}

/// Of the orders that may go some that are needless together: a mark for each place of each list of `known.steps`, in
/// lists of the same form as `may_go`. The choice takes out what it can, and need not be the largest one. It is none
/// where a node waits for itself, or where a number in the lists is not a node's.
///
/// It takes a pass over the orders for each 64 commands that conflict with others, a search for each command that some
/// order has to lead to, and the searches of [`is_needless`].
///
/// # Errors
/// [`AllocError`] only where an allocation was refused.
pub fn choose(
    alloc: Global,
    known: &Known,
    may_go: &[Vec<bool>],
) -> Result<Vec<Vec<bool>>, AllocError>
    ensures needless { IfOk result (λ gone. IsNeedless known.now (marks_in gone.items)) }
    ensures part { IfOk result (λ gone. IsPart (marks_in gone.items) (marks_in may_go.now)) }
{
    let gone = proposed(alloc, known, may_go)?;
    let holds = is_answer(alloc, known, &gone, may_go)?;
    if !holds {
        return Ok(Vec::new(alloc));
    }
    Ok(gone)
}
