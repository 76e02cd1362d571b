//! Whether an edge that makes what another lists may run after it.
ghost use Rattle.std.specs.Prelude.{◌≡◌, ◌≢◌, ◌<◌, ◌↔◌, ℕ, List, bytes_eq, length, not, true, IfOk, IsTrue, OnOk, if◌then◌else◌};
ghost use Rattle.indexmap.specs.IndexSet.{contains};
ghost use Rattle.rev_waits.specs.Waits.{AreWaitedFor};
ghost use Rattle.rev_races.specs.Races.{MakesOneOf};
ghost use Rattle.rev_races.specs.Answer.{IsToTell, IsUnordered};

use indexmap::IndexSet;
use rev_graph::Graph;
use rev_paths::Name;
use std::alloc::AllocError;

/// Whether an edge makes one of some files.
pub(crate) fn makes_one_of(graph: &Graph, files: &[Name], edge: u32) -> bool
    ensures { IsTrue result ↔ MakesOneOf graph.now.manifest.builds files.now edge }
{
    for file in files {
        if let Some(producer) = graph.producer(file) {
            if producer == edge {
                return true;
            }
        }
    }
    false
}

/// Whether nothing orders an edge before another: it is not that edge, is not waited for, and makes none of the files
/// that are read before all else. `waited` has the edges that the other waits for.
pub fn is_unordered(graph: &Graph, files: &[Name], waited: &[bool], user: u32, maker: u32) -> bool
    requires maker { maker < length graph.now.manifest.builds }
    requires waited { AreWaitedFor graph.now.manifest.builds user waited.now }
    ensures { IsTrue result ↔ IsUnordered graph.now.manifest.builds files.now user maker }
{
    if maker == user {
        return false;
    }
    if waited[maker as usize] {
        return false;
    }
    !makes_one_of(graph, files, maker)
}

/// Whether an edge that makes what another lists is to be told: it is that edge, or nothing orders it before. `waited`
/// has the edges that the other waits for.
pub(crate) fn is_to_tell(
    graph: &Graph,
    files: &[Name],
    waited: &[bool],
    user: u32,
    maker: u32,
) -> bool
    requires maker { maker < length graph.now.manifest.builds }
    requires waited { AreWaitedFor graph.now.manifest.builds user waited.now }
    ensures { IsTrue result ↔ IsToTell graph.now.manifest.builds files.now user maker }
{
    if maker == user {
        return true;
    }
    is_unordered(graph, files, waited, user, maker)
}

/// Whether a path is new among those seen, of which it is one then.
///
/// # Errors
/// [`AllocError`] only where an allocation was refused.
pub(crate) fn is_new(seen: &mut IndexSet<Name>, path: &Name) -> Result<bool, AllocError>
    ensures new { IfOk result (λ new. new ≡ not (contains bytes_eq seen.old path.now)) }
    ensures seen { OnOk result ((other : List ℕ) → contains bytes_eq seen.new other
        ≡ (if bytes_eq path.now other then true else contains bytes_eq seen.old other)) }
{
    let new = seen.insert(path.copy()?)?;
    Ok(new)
}
