//! Which edges had been made before a recording began.
ghost use Rattle.std.specs.Prelude.{◌≡◌, ◌++◌, ◌∷◌, [], IfOk};
ghost use Rattle.std.specs.Option.{option_copied};
ghost use Rattle.rev_cells.specs.State.{mark_of};
ghost use Rattle.rev_events.specs.Refusal.{is_settled as is_settled_mark};
ghost use Rattle.rev_history.specs.Timeline.{state_at};
ghost use Rattle.rev_compared.specs.Earlier.{has_run as has_run_of, is_made_earlier as is_made_earlier_of, is_there as is_there_in, made_earlier_of};

use crate::alone::last_at;
use crate::lasts::Last;
use rev_cells::records::stamp;
use rev_cells::{Cell, Cells, Mark, Value};
use rev_history::History;
use rev_paths::Name;
use rev_shown::first_output;
use std::alloc::{AllocError, Global};

// Whether nothing is planned for an edge, or it is done or clean.
fn is_settled(cells: &Cells, edge: u32) -> bool
    ensures { result ≡ is_settled_mark (mark_of cells.now.state edge) }
{
    match cells.get(&Cell::Mark(edge)) {
        None => true,
        Some(Value::Mark(Mark::Idle | Mark::Done(_) | Mark::Clean)) => true,
        _ => false,
    }
}

// Whether there is an output, and its file is there.
fn is_there(cells: &Cells, output: Option<&Name>) -> bool
    ensures { result ≡ is_there_in cells.now.state (option_copied output.entry) }
{
    match output {
        Some(output) => stamp(cells, output) != 0,
        None => false,
    }
}

// Whether there is a run.
fn has_run(last: Option<Last>) -> bool
    ensures { result ≡ has_run_of last }
{
    last.is_some()
}

// Whether an edge has no run, nothing is to be done for it, and its first output is there.
fn is_made_earlier(history: &History, lasts: &[Option<Last>], edge: u32) -> bool
    ensures { result ≡ is_made_earlier_of history.now.timeline lasts.now edge }
{
    if has_run(last_at(lasts, edge)) || !is_settled(history.cells(), edge) {
        return false;
    }
    is_there(history.cells(), first_output(history.graph(), edge))
}

/// For each edge whether it had been made before the recording began: it has no kept run, no plan leaves it to be run
/// or waits for others behind it, and its first output is there. `lasts` are the last runs of the edges, as
/// [`last_runs`](crate::last_runs) gives them.
///
/// # Errors
/// [`AllocError`] only where an allocation was refused.
pub fn made_earlier(
    alloc: Global,
    history: &History,
    lasts: &[Option<Last>],
) -> Result<Vec<bool>, AllocError>
    ensures { IfOk result (λ made. made.items ≡ made_earlier_of history.now.timeline lasts.now) }
{
    let mut made = Vec::new(alloc);
    for edge in 0..history.graph().edges() {
        made.push(is_made_earlier(history, lasts, edge))?;
    }
    Ok(made)
}
