//! Builds, counted by how each command stood to one of them.
ghost use Rattle.std.specs.Prelude.{◌≡◌, true, false, IfOk};
ghost use Rattle.rev_separation.specs.Tallies.{AreTallies, tally_of};

use crate::build::Build;
use crate::pair::Pair;
use std::alloc::{AllocError, Global};

/// In how many builds another command stood in which way to the anchor, at a moment. The builds are either those in
/// which the anchor failed, or those in which it passed.
#[derive(Clone, Copy, Debug, PartialEq, Eq)]
pub struct Tally {
    /// Both ran. An order of the two counts in these builds alone.
    pub both: usize,
    /// Both ran, and the other one had not ended by the moment.
    pub not_ended: usize,
    /// Both ran, and the other one had not begun by the moment.
    pub not_begun: usize,
    /// The anchor ran, and the other one did not, as where Ninja had stopped before.
    pub alone: usize,
}

/// By the number of each command how it stood to the anchor.
#[derive(Drop)]
pub struct Tallies {
    /// In the builds in which the anchor failed.
    pub failing: Vec<Tally>,
    /// In the builds in which it passed.
    pub passing: Vec<Tally>,
}

// The tally of two commands.
#[tactic(auto, unfolding(crate::specs::Tallies::tally_of))]
fn tally_of(pair: Pair, builds: &[Build]) -> Tally
    ensures { result ≡ tally_of pair builds.now }
{
    Tally {
        both: pair.both(builds),
        not_ended: pair.not_ended(builds),
        not_begun: pair.not_begun(builds),
        alone: pair.alone(builds),
    }
}

// The tallies of so many commands, in the builds in which the anchor failed or in those in which it passed.
fn tallied(
    alloc: Global,
    builds: &[Build],
    commands: usize,
    failed: bool,
    anchor: usize,
    after: u32,
) -> Result<Vec<Tally>, AllocError>
    ensures { IfOk result (λ tallies. AreTallies builds.now commands failed anchor after tallies.items) }
{
    let mut tallies = Vec::with_capacity(alloc, commands)?;
    for other in 0..commands {
        let pair = Pair {
            failed,
            anchor,
            other,
            after,
        };
        tallies.push(tally_of(pair, builds))?;
    }
    Ok(tallies)
}

/// How each of so many commands stood to the anchor, so many milliseconds after it began, in the builds in which the
/// anchor failed and in those in which it passed. It takes time linear in commands times builds, and memory linear in
/// commands.
///
/// # Errors
/// [`AllocError`] only where an allocation was refused.
pub fn counted(
    alloc: Global,
    builds: &[Build],
    commands: usize,
    anchor: usize,
    after: u32,
) -> Result<Tallies, AllocError>
    ensures failing { IfOk result (λ all. AreTallies builds.now commands true anchor after all.failing.items) }
    ensures passing { IfOk result (λ all. AreTallies builds.now commands false anchor after all.passing.items) }
{
    let failing = tallied(alloc, builds, commands, true, anchor, after)?;
    let passing = tallied(alloc, builds, commands, false, anchor, after)?;
    Ok(Tallies { failing, passing })
}
