//! What the list of an edge rests on.
ghost use Rattle.std.specs.Prelude.{◌≡◌, ◌<◌, false, length, map, true, IfOk};
ghost use Rattle.rev_races.specs.Answer.{AreNoted};
ghost use Rattle.rev_races.specs.Judged.{edges_of};
ghost use Rattle.rev_suspects.specs.Bases.{basis_of, rests_on as rests_on_by};

use rev_history::History;
use rev_races::{finished_edges, listed, started_edges};
use std::alloc::{AllocError, Global};

/// What an edge's list of files rests on in a history.
#[derive(Clone, Copy, PartialEq, Eq)]
pub enum Basis {
    /// The edge's command ended well in this history, and its last such end gave the list.
    Finish,
    /// The edge's command did not begin in this history. The list is the deps log's record of the edge's first output.
    Record,
    /// The edge's command began in this history and did not end well. The list is the one that the deps log had before,
    /// from an earlier build.
    Earlier,
}

// On what a list rests, by whether the command began here, and whether it ended well.
fn rests_on(began: bool, ended: bool) -> Basis
    ensures { result ≡ rests_on_by began ended }
{
    if ended {
        return Basis::Finish;
    }
    if began {
        return Basis::Earlier;
    }
    Basis::Record
}

// On what the list of an edge rests, where it has one.
fn basis_at(history: &History, began: &[bool], ended: &[bool], edge: u32) -> Option<Basis>
    requires edge { edge < length history.now.timeline.manifest.builds }
    requires began { AreNoted history.now.timeline false began.now }
    requires ended { AreNoted history.now.timeline true ended.now }
    ensures { result ≡ basis_of history.now.timeline edge }
{
    let began = began[edge as usize];
    let ended = ended[edge as usize];
    match listed(history, edge) {
        Some(_) => Some(rests_on(began, ended)),
        None => None,
    }
}

/// For each edge what its list rests on, or `None` where it has no list. The kept events are looked at twice.
///
/// # Errors
/// [`AllocError`] only where an allocation was refused.
pub fn bases(alloc: Global, history: &History) -> Result<Vec<Option<Basis>>, AllocError>
    ensures { IfOk result (λ bases. bases.items
        ≡ map (basis_of history.now.timeline) (edges_of history.now.timeline.manifest.builds)) }
{
    let began = started_edges(alloc, history)?;
    let ended = finished_edges(alloc, history)?;
    let mut bases = Vec::new(alloc);
    for edge in 0..history.graph().edges() {
        bases.push(basis_at(history, &began, &ended, edge))?;
    }
    Ok(bases)
}
