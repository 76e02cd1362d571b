//! What cells hold of edges, jobs and slots.
ghost use Rattle.std.specs.Prelude.{◌≡◌};
ghost use Rattle.rev_cells.specs.State.{mark_of, job_of, slot_of, given_depth_of, is_halted as is_halted_in};
ghost use Rattle.rev_events.specs.Edge.{run_of};
ghost use Rattle.rev_events.specs.Refusal.{is_wanted_mark, is_through_mark, is_settled as is_settled_mark};

use rev_cells::{Cell, Cells, Mark, Value};

/// What an edge has while its command runs.
#[derive(Clone, Copy)]
pub(crate) struct Run {
    pub(crate) job: u32,
    pub(crate) slot: Option<u32>,
    /// The greatest stamp that its inputs had when it was started.
    pub(crate) seen: u64,
}

/// Whether an edge is wanted.
pub(crate) fn is_wanted(cells: &Cells, edge: u32) -> bool
    ensures { result ≡ is_wanted_mark (mark_of cells.now.state edge) }
{
    match cells.get(&Cell::Mark(edge)) {
        Some(Value::Mark(Mark::Wanted)) => true,
        _ => false,
    }
}

/// Whether an edge waits for others alone.
pub(crate) fn is_through(cells: &Cells, edge: u32) -> bool
    ensures { result ≡ is_through_mark (mark_of cells.now.state edge) }
{
    match cells.get(&Cell::Mark(edge)) {
        Some(Value::Mark(Mark::Through)) => true,
        _ => false,
    }
}

/// Whether nothing is to be waited for at an edge: nothing is planned for it, or it is done or clean.
pub(crate) fn is_settled(cells: &Cells, edge: u32) -> bool
    ensures { result ≡ is_settled_mark (mark_of cells.now.state edge) }
{
    match cells.get(&Cell::Mark(edge)) {
        None => true,
        Some(Value::Mark(Mark::Idle | Mark::Done(_) | Mark::Clean)) => true,
        _ => false,
    }
}

/// What an edge has whose command runs.
pub(crate) fn running(cells: &Cells, edge: u32) -> Option<Run>
    ensures { result ≡ run_of (mark_of cells.now.state edge) }
{
    match cells.get(&Cell::Mark(edge)) {
        Some(Value::Mark(Mark::Running { job, slot, seen })) => Some(Run {
            job: *job,
            slot: *slot,
            seen: *seen,
        }),
        _ => None,
    }
}

/// The edge whose command a job runs.
pub(crate) fn job_holder(cells: &Cells, job: u32) -> Option<u32>
    ensures { result ≡ job_of cells.now.state job }
{
    match cells.get(&Cell::Job(job)) {
        Some(Value::Job(holder)) => *holder,
        _ => None,
    }
}

/// The edge that has a place in a pool.
pub(crate) fn slot_holder(cells: &Cells, pool: u32, place: u32) -> Option<u32>
    ensures { result ≡ slot_of cells.now.state pool place }
{
    match cells.get(&Cell::Slot(pool, place)) {
        Some(Value::Slot(holder)) => *holder,
        _ => None,
    }
}

/// The depth that a pool was given, none where it is as in the manifest.
pub(crate) fn given_depth(cells: &Cells, pool: u32) -> Option<u32>
    ensures { result ≡ given_depth_of cells.now.state pool }
{
    match cells.get(&Cell::Depth(pool)) {
        Some(Value::Depth(depth)) => *depth,
        _ => None,
    }
}

/// Whether the build was interrupted.
pub(crate) fn is_halted(cells: &Cells) -> bool
    ensures { result ≡ is_halted_in cells.now.state }
{
    match cells.get(&Cell::Halted) {
        Some(Value::Halted(halted)) => *halted,
        _ => false,
    }
}
