//! What stands in the way of certainty.
ghost use Rattle.std.specs.Prelude.{◌≡◌, ◌<◌, length, filter, slice_index_or, false, IfOk};
ghost use Rattle.rev_graph.specs.Graph.{build_at};
ghost use Rattle.rev_ranks.specs.Sets.{is_marked};
ghost use Rattle.rev_races.specs.Judged.{edges_of};
ghost use Rattle.rev_conflicts.specs.Conflicts.{runs_first};
ghost use Rattle.rev_conflicts.specs.Tables.{AreEarly};
ghost use Rattle.rev_certified.specs.Standing.{is_missing_by, is_unsure_by, missing_in, unsure_in};

use rev_conflicts::early_edges;
use rev_graph::Graph;
use rev_paths::Name;
use std::alloc::{AllocError, Global};

/// What is known of each edge, as marks. An edge without a mark is not so.
#[derive(Clone, Copy)]
pub struct Marks<'a> {
    /// The targets need it.
    pub needed: &'a [bool],
    /// Its command began here.
    pub began: &'a [bool],
    /// Its command ended well here.
    pub ended: &'a [bool],
}

/// The edges that stand in the way of certainty, in rising order, as a certificate has them.
pub(crate) struct Standing {
    /// The missing edges.
    pub(crate) missing: Vec<u32>,
    /// The unsure edges.
    pub(crate) unsure: Vec<u32>,
}

// The mark of an edge.
fn mark_of(marks: &[bool], edge: u32) -> bool
    ensures { result ≡ slice_index_or marks.now edge false }
{
    match marks.get(edge as usize) {
        Some(mark) => *mark,
        None => false,
    }
}

// Whether an edge is missing, by its marks.
fn is_missing(needed: bool, phony: bool, early: bool, ended: bool) -> bool
    ensures { result ≡ is_missing_by needed phony early ended }
{
    (needed && !phony) && (!early && !ended)
}

// Whether an edge is unsure, by its marks.
fn is_unsure(began: bool, ended: bool, early: bool, whole: bool) -> bool
    ensures { result ≡ is_unsure_by began ended early whole }
{
    began && !(ended && (!early && whole))
}

// Whether the targets need an edge whose command did not end well here.
fn is_missing_at(graph: &Graph, files: &[Name], early: &[bool], marks: Marks<'_>, edge: u32) -> bool
    requires edge { edge < length graph.now.manifest.builds }
    requires early { AreEarly graph.now.manifest.builds files.now early.now }
    ensures { result ≡ is_missing_by (is_marked marks.entry.needed.now edge) (build_at graph.now.manifest.builds edge).phony
        (runs_first graph.now.manifest.builds files.now edge) (is_marked marks.entry.ended.now edge) }
{
    let needed = mark_of(marks.needed, edge);
    let phony = graph.is_phony(edge);
    let early = mark_of(early, edge);
    let ended = mark_of(marks.ended, edge);
    is_missing(needed, phony, early, ended)
}

// Whether the command of an edge began here, and did not end well, makes what the manifest is read from, or was not
// observed whole.
fn is_unsure_at(
    graph: &Graph,
    files: &[Name],
    early: &[bool],
    whole: &[bool],
    marks: Marks<'_>,
    edge: u32,
) -> bool
    requires { AreEarly graph.now.manifest.builds files.now early.now }
    ensures { result ≡ is_unsure_by (is_marked marks.entry.began.now edge) (is_marked marks.entry.ended.now edge)
        (runs_first graph.now.manifest.builds files.now edge) (is_marked whole.now edge) }
{
    let began = mark_of(marks.began, edge);
    let ended = mark_of(marks.ended, edge);
    let early = mark_of(early, edge);
    let whole = mark_of(whole, edge);
    is_unsure(began, ended, early, whole)
}

// The edges that the targets need and whose commands did not end well here, except those that make what the manifest is
// read from, in rising order.
fn missing_edges(
    alloc: Global,
    graph: &Graph,
    files: &[Name],
    early: &[bool],
    marks: Marks<'_>,
) -> Result<Vec<u32>, AllocError>
    requires { AreEarly graph.now.manifest.builds files.now early.now }
    ensures { IfOk result (λ edges. edges.items ≡ filter
        (missing_in graph.now.manifest.builds files.now marks.entry.needed.now marks.entry.ended.now)
        (edges_of graph.now.manifest.builds)) }
{
    let mut edges = Vec::new(alloc);
    for edge in 0..graph.edges() {
        if is_missing_at(graph, files, early, marks, edge) {
            edges.push(edge)?;
        }
    }
    Ok(edges)
}

// The edges whose commands began here, and did not end well, make what the manifest is read from, or were not observed
// whole, in rising order.
fn unsure_edges(
    alloc: Global,
    graph: &Graph,
    files: &[Name],
    early: &[bool],
    whole: &[bool],
    marks: Marks<'_>,
) -> Result<Vec<u32>, AllocError>
    requires { AreEarly graph.now.manifest.builds files.now early.now }
    ensures { IfOk result (λ edges. edges.items ≡ filter
        (unsure_in graph.now.manifest.builds files.now marks.entry.began.now marks.entry.ended.now whole.now)
        (edges_of graph.now.manifest.builds)) }
{
    let mut edges = Vec::new(alloc);
    for edge in 0..graph.edges() {
        if is_unsure_at(graph, files, early, whole, marks, edge) {
            edges.push(edge)?;
        }
    }
    Ok(edges)
}

/// What stands in the way of certainty. `whole` has a mark for each edge whose command was observed whole.
///
/// # Errors
/// [`AllocError`] only where an allocation was refused.
pub(crate) fn standing_edges(
    alloc: Global,
    graph: &Graph,
    files: &[Name],
    whole: &[bool],
    marks: Marks<'_>,
) -> Result<Standing, AllocError>
    ensures missing { IfOk result (λ standing. standing.missing.items ≡ filter
        (missing_in graph.now.manifest.builds files.now marks.entry.needed.now marks.entry.ended.now)
        (edges_of graph.now.manifest.builds)) }
    ensures unsure { IfOk result (λ standing. standing.unsure.items ≡ filter
        (unsure_in graph.now.manifest.builds files.now marks.entry.began.now marks.entry.ended.now whole.now)
        (edges_of graph.now.manifest.builds)) }
{
    let early = early_edges(alloc, graph, files)?;
    let missing = missing_edges(alloc, graph, files, &early, marks)?;
    let unsure = unsure_edges(alloc, graph, files, &early, whole, marks)?;
    Ok(Standing { missing, unsure })
}
