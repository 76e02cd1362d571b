//! What stands in the way of the commands of edges.
ghost use Rattle.std.specs.Prelude.{◌≡◌, ◌<◌, ◌++◌, ◌||◌, ◌==◌, ℕ, false, length, slice_index_or, OnOk, IfOk};
ghost use Rattle.rev_ranks.specs.Sets.{is_marked};
ghost use Rattle.rev_certificate.specs.Obstacles.{edge_obstacle, is_seen, of_edge, of_edges};

use crate::obstacle::Obstacle;
use rev_graph::Graph;
use std::alloc::{AllocError, Global};

/// What is known of each edge, as marks. An edge without a mark is not so.
#[derive(Clone, Copy)]
pub struct Marks<'a> {
    /// The targets need it.
    pub needed: &'a [bool],
    /// Its command began here.
    pub began: &'a [bool],
    /// Its command ended well here.
    pub ended: &'a [bool],
}

// The mark of an edge.
fn mark_of(marks: &[bool], edge: u32) -> bool
    ensures { result ≡ is_marked marks.now edge }
{
    match marks.get(edge as usize) {
        Some(mark) => *mark,
        None => false,
    }
}

// Marks an edge, where it has a place.
fn mark(marks: &mut [bool], edge: u32)
    ensures { (n : ℕ) → n < length marks.old
        → slice_index_or marks.new n false ≡ (slice_index_or marks.old n false || (edge == n)) }
{
    if edge as usize >= marks.len() {
        return;
    }
    marks[edge as usize] = true;
}

// Marks some edges.
fn mark_all(marks: &mut [bool], edges: &[u32])
    ensures { (n : ℕ) → n < length marks.old
        → slice_index_or marks.new n false ≡ (slice_index_or marks.old n false || is_seen edges.now n) }
{
    for edge in edges {
        mark(marks, *edge);
    }
}

// A mark for each edge of which a command is in the observation.
fn seen_edges(alloc: Global, count: u32, edges: &[u32]) -> Result<Vec<bool>, AllocError>
    ensures { IfOk result (λ marks. (n : ℕ) → n < count
        → slice_index_or marks.items n false ≡ is_seen edges.now n) }
{
    let mut marks = vec![in alloc; false; count as usize]?;
    mark_all(&mut marks, edges);
    Ok(marks)
}

// What stands in the way of an edge, by what is known of it.
fn obstacle_by(
    needed: bool,
    phony: bool,
    early: bool,
    began: bool,
    ended: bool,
    seen: bool,
    edge: u32,
) -> Option<Obstacle>
    ensures { result ≡ edge_obstacle needed phony early began ended seen edge }
{
    let lacks_end = !ended && (began || (needed && (!phony && !early)));
    if lacks_end {
        Some(Obstacle::NotEnded { edge })
    } else if began && early {
        Some(Obstacle::Early { edge })
    } else if began && !seen {
        Some(Obstacle::Unseen { edge })
    } else {
        None
    }
}

// What stands in the way of an edge.
fn obstacle_of(
    graph: &Graph,
    edges: &[u32],
    early: &[bool],
    seen: &[bool],
    marks: Marks<'_>,
    edge: u32,
) -> Option<Obstacle>
    requires edge { edge < length graph.now.manifest.builds }
    requires seen { is_marked seen.now edge ≡ is_seen edges.now edge }
    ensures { result ≡ of_edge graph.now.manifest.builds edges.now early.now marks.entry.needed.now
        marks.entry.began.now marks.entry.ended.now edge }
{
    let _edges = edges.len();
    let needed = mark_of(marks.needed, edge);
    let began = mark_of(marks.began, edge);
    let ended = mark_of(marks.ended, edge);
    let phony = graph.is_phony(edge);
    let early = mark_of(early, edge);
    let seen = mark_of(seen, edge);
    obstacle_by(needed, phony, early, began, ended, seen, edge)
}

/// Adds what stands in the way of the commands of edges, in the order of the edges.
///
/// # Errors
/// [`AllocError`] only where an allocation was refused.
pub(crate) fn add_of_edges(
    alloc: Global,
    graph: &Graph,
    edges: &[u32],
    early: &[bool],
    marks: Marks<'_>,
    obstacles: &mut Vec<Obstacle>,
) -> Result<(), AllocError>
    ensures { OnOk result (obstacles.new.items ≡ obstacles.old.items
        ++ of_edges graph.now.manifest.builds edges.now early.now marks.entry.needed.now
        marks.entry.began.now marks.entry.ended.now) }
{
    let seen = seen_edges(alloc, graph.edges(), edges)?;
    for edge in 0..graph.edges() {
        if let Some(obstacle) = obstacle_of(graph, edges, early, &seen, marks, edge) {
            obstacles.push(obstacle)?;
        }
    }
    Ok(())
}
