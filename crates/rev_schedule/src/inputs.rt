//! Which inputs of an edge are still to come.
ghost use Rattle.std.specs.Prelude.{◌≡◌, ◌<◌, ◌≤◌, ◌+◌, ℕ, true, false, length, slice_index, slice_index_or, IfOk, IsTrue, ◌↔◌};
ghost use Rattle.rev_schedule.specs.Builds.{IsWhole, edges_of, makers_of};
ghost use Rattle.rev_schedule.specs.Inputs.{IsLooked, LooksAt, Sees};

use crate::job::Build;
use std::alloc::{AllocError, Global};

/// The place of the first maker that is not through, from a place on; the number of makers where all are through.
pub(crate) fn first_missing(makers: &[u32], through: &[bool], from: usize) -> usize
    requires inside { (k : ℕ) → k < length makers.now → slice_index makers.now k < length through.now }
    requires within { from ≤ length makers.now }
    ensures from { from ≤ result }
    ensures within { result ≤ length makers.now }
    ensures through { (k : ℕ) → from ≤ k → k < result → slice_index_or through.now (slice_index makers.now k) false ≡ true }
    ensures missing { result < length makers.now → slice_index_or through.now (slice_index makers.now result) false ≡ false }
{
    for place in from..makers.len() {
        if !through[makers[place] as usize] {
            return place;
        }
    }
    makers.len()
}

/// Looks again which input of an edge is the first to come, and says whether the last one has come now.
fn look(build: &Build, through: &[bool], missing: &mut Vec<usize>, user: u32) -> bool
    requires whole { IsWhole build.now }
    requires edge { user < edges_of build.now }
    requires each { length through.now ≡ edges_of build.now }
    requires sees { Sees build.now through.now missing.old.items }
    ensures looks { LooksAt build.now through.now user missing.old.items missing.new.items }
    ensures comes { IsTrue result ↔ ((slice_index missing.old.items user < length (makers_of build.now user))
        × (slice_index missing.new.items user ≡ length (makers_of build.now user))) }
{
    let makers = &build.makers[user as usize];
    let from = missing[user as usize];
    let to = first_missing(makers, through, from);
    missing[user as usize] = to;
    from < makers.len() && to == makers.len()
}

/// Looks again at the inputs of some edges, and gives the turns of those whose last one has come.
pub(crate) fn look_at_all(
    alloc: Global,
    build: &Build,
    users: &[u32],
    through: &[bool],
    missing: &mut Vec<usize>,
) -> Result<Vec<(u64, u32)>, AllocError>
    requires whole { IsWhole build.now }
    requires edges { (k : ℕ) → k < length users.now → slice_index users.now k < edges_of build.now }
    requires each { length through.now ≡ edges_of build.now }
    requires sees { Sees build.now through.now missing.old.items }
    ensures looked { IfOk result (λ turns.
        IsLooked build.now through.now users.now missing.old.items missing.new.items turns.items) }
{
    let mut turns = Vec::new(alloc);
    for user in users {
        if look(build, through, missing, *user) {
            turns.push((build.jobs[*user as usize].rank, *user))?;
        }
    }
    Ok(turns)
}
