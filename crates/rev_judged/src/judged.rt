//! Commands that are not judged.
ghost use Rattle.std.specs.Prelude.{◌≡◌, ◌<◌, false, true, filter, length, map, IfOk};
ghost use Rattle.rev_judged.specs.Judged.{counts, has_list, is_unjudged_as, sources_of, takes_from_others};
ghost use Rattle.rev_races.specs.Answer.{AreNoted};
ghost use Rattle.rev_races.specs.Judged.{edges_of};
ghost use Rattle.rev_ranks.specs.Sets.{IsSetOf};

use crate::collecting::taking_others;
use crate::lists::listed_edges;
use rev_history::History;
use rev_races::started_edges;
use std::alloc::{AllocError, Global};

/// The edges whose commands began in this history and that have no list of what they read, in rising order.
#[derive(Drop)]
pub struct Unjudged {
    /// The edges that take something other than outputs, directly or through another edge without a list.
    pub plain: Vec<u32>,
    /// The edges that only collect outputs, as a link does. Each input of such an edge is made by an edge with a list,
    /// or by another edge that only collects outputs. The edge has no order-only input.
    pub collectors: Vec<u32>,
}

// Whether an edge counts, by its marks: its command began, it has no list, and it takes other things than outputs, or
// does not.
fn counts(began: bool, listed: bool, takes_others: bool, others: bool) -> bool
    ensures { result ≡ counts began listed takes_others others }
{
    began && !listed && takes_others == others
}

// Whether an edge counts, by the marks of all edges.
fn counts_at(
    history: &History,
    began: &[bool],
    listed: &[bool],
    taking: &[bool],
    others: bool,
    edge: u32,
) -> bool
    requires edge { edge < length history.now.timeline.manifest.builds }
    requires began { AreNoted history.now.timeline false began.now }
    requires listed { listed.now ≡ map (has_list history.now.timeline) (edges_of history.now.timeline.manifest.builds) }
    requires taking { IsSetOf (map (sources_of history.now.timeline) (edges_of history.now.timeline.manifest.builds))
        (takes_from_others history.now.timeline) taking.now }
    ensures { result ≡ is_unjudged_as history.now.timeline others edge }
{
    let began = began[edge as usize];
    let listed = listed[edge as usize];
    let taking = taking[edge as usize];
    counts(began, listed, taking, others)
}

// The edges whose commands began and that have no list, and that take other things than outputs, or do not.
fn edges_with(
    alloc: Global,
    history: &History,
    began: &[bool],
    listed: &[bool],
    taking: &[bool],
    others: bool,
) -> Result<Vec<u32>, AllocError>
    requires began { AreNoted history.now.timeline false began.now }
    requires listed { listed.now ≡ map (has_list history.now.timeline) (edges_of history.now.timeline.manifest.builds) }
    requires taking { IsSetOf (map (sources_of history.now.timeline) (edges_of history.now.timeline.manifest.builds))
        (takes_from_others history.now.timeline) taking.now }
    ensures { IfOk result (λ edges. edges.items ≡ filter (is_unjudged_as history.now.timeline others)
        (edges_of history.now.timeline.manifest.builds)) }
{
    let mut edges = Vec::new(alloc);
    for edge in 0..history.graph().edges() {
        if counts_at(history, began, listed, taking, others, edge) {
            edges.push(edge)?;
        }
    }
    Ok(edges)
}

/// The commands of a history that are not judged: each began, and its edge has no list of what it read. An edge has no
/// list where it keeps none, or where its command failed and no earlier build left one. The time is linear in the kept
/// events, the edges and their inputs, up to hashing.
///
/// # Errors
/// [`AllocError`] only where an allocation was refused.
pub fn not_judged(alloc: Global, history: &History) -> Result<Unjudged, AllocError>
    ensures plain { IfOk result (λ edges. edges.plain.items ≡ filter (is_unjudged_as history.now.timeline true)
        (edges_of history.now.timeline.manifest.builds)) }
    ensures collectors { IfOk result (λ edges. edges.collectors.items ≡ filter (is_unjudged_as history.now.timeline false)
        (edges_of history.now.timeline.manifest.builds)) }
{
    let began = started_edges(alloc, history)?;
    let listed = listed_edges(alloc, history)?;
    let others = taking_others(alloc, history, &listed)?;
    let plain = edges_with(alloc, history, &began, &listed, &others, true)?;
    let collectors = edges_with(alloc, history, &began, &listed, &others, false)?;
    Ok(Unjudged { plain, collectors })
}
