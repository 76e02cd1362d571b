//! Whether it is certain.
ghost use Rattle.std.specs.Prelude.{◌≡◌, ◌<◌, ◌↔◌, Some, length, map, filter, IfOk, IsTrue};
ghost use Rattle.std.specs.List.{AllByRecursion};
ghost use Rattle.rev_observed.specs.Joins.{edge_of};
ghost use Rattle.rev_observed.specs.Observations.{outputs_of};
ghost use Rattle.rev_races.specs.Judged.{edges_of};
ghost use Rattle.rev_conflicts.specs.Answer.{AreConflicts};
ghost use Rattle.rev_conflicts.specs.Tables.{scene};
ghost use Rattle.rev_certified.specs.Certain.{AreNone, AreSeenWhole, IsCertain};
ghost use Rattle.rev_certified.specs.Standing.{missing_in, unsure_in};

use crate::standing::{Marks, Standing, standing_edges};
use crate::whole::seen_whole;
use rev_conflicts::{Conflict, conflicts};
use rev_graph::Graph;
use rev_observed::Observation;
use rev_paths::Name;
use std::alloc::{AllocError, Global};

/// Whether it is certain that no schedule gives the commands other inputs, and what stands in the way.
pub struct Certificate {
    /// Whether it is.
    pub is_certain: bool,
    /// The commands that the targets need and that did not end well here, except those that make what the manifest is
    /// read from. Edges rise.
    pub missing: Vec<u32>,
    /// The commands that began here and did not end well, make what the manifest is read from, or were not observed
    /// whole. Edges rise.
    pub unsure: Vec<u32>,
    /// The conflicts.
    pub conflicts: Vec<Conflict>,
    /// For each edge whether its command was observed whole.
    pub whole: Vec<bool>,
}

impl Drop for Certificate {
    fn drop(self) {
        let Certificate {
            is_certain: _is_certain,
            missing: _missing,
            unsure: _unsure,
            conflicts: _conflicts,
            whole: _whole,
        } = self;
    }
}

// Whether nothing stands in the way.
fn are_none(missing: &[u32], unsure: &[u32], conflicts: &[Conflict]) -> bool
    ensures { IsTrue result ↔ AreNone missing.now unsure.now conflicts.now }
{
    missing.is_empty() && unsure.is_empty() && conflicts.is_empty()
}

// For each edge whether its command was observed whole.
fn whole_edges(
    alloc: Global,
    graph: &Graph,
    files: &[Name],
    observation: &Observation,
    edges: &[u32],
    hidden: &[bool],
) -> Result<Vec<bool>, AllocError>
    requires edges { map Some edges.now ≡ map (edge_of graph.now.manifest.builds) (outputs_of observation.now.commands) }
    requires within { AllByRecursion (λ edge. edge < length graph.now.manifest.builds) edges.now }
    ensures { IfOk result (λ whole. AreSeenWhole (scene graph.now.manifest.builds files.now
        observation.now.paths observation.now.commands edges.now hidden.now) whole.items) }
{
    let commands = observation.commands();
    seen_whole(alloc, graph, commands, edges)
}

// A certificate with its verdict.
fn with_verdict(
    graph: &Graph,
    files: &[Name],
    observation: &Observation,
    edges: &[u32],
    hidden: &[bool],
    marks: Marks<'_>,
    whole: Vec<bool>,
    missing: Vec<u32>,
    unsure: Vec<u32>,
    conflicts: Vec<Conflict>,
) -> Certificate
    requires whole { AreSeenWhole (scene graph.now.manifest.builds files.now
        observation.now.paths observation.now.commands edges.now hidden.now) whole.items }
    requires missing { missing.items ≡ filter
        (missing_in graph.now.manifest.builds files.now marks.needed.now marks.ended.now)
        (edges_of graph.now.manifest.builds) }
    requires unsure { unsure.items ≡ filter
        (unsure_in graph.now.manifest.builds files.now marks.began.now marks.ended.now whole.items)
        (edges_of graph.now.manifest.builds) }
    requires conflicts { AreConflicts (scene graph.now.manifest.builds files.now
        observation.now.paths observation.now.commands edges.now hidden.now) conflicts.items }
    ensures certain { IsTrue result.is_certain ↔ IsCertain (scene graph.now.manifest.builds files.now
        observation.now.paths observation.now.commands edges.now hidden.now)
        marks.entry.needed.now marks.entry.began.now marks.entry.ended.now }
    ensures missing { result.missing ≡ missing }
    ensures unsure { result.unsure ≡ unsure }
    ensures conflicts { result.conflicts ≡ conflicts }
    ensures whole { result.whole ≡ whole }
{
    let is_certain = are_none(&missing, &unsure, &conflicts);
    Certificate {
        is_certain,
        missing,
        unsure,
        conflicts,
        whole,
    }
}

/// Whether it is certain that no schedule of a build's commands gives any of them other inputs than these had.
///
/// `edges` has for each command of the observation its edge, as [`rev_observed::edges`] gives them; `files` are those
/// from which the manifest was read, and `hidden` has a mark for each path that no conflict may name.
///
/// It is certain exactly where three things hold. Each command that the targets need ended well here. Each command that
/// began here ended well, makes nothing that the manifest is read from, and was observed whole. [`conflicts`] finds
/// nothing.
///
/// # Errors
/// [`AllocError`] only where an allocation was refused.
pub fn certify(
    alloc: Global,
    graph: &Graph,
    files: &[Name],
    observation: &Observation,
    edges: &[u32],
    hidden: &[bool],
    marks: Marks<'_>,
) -> Result<Certificate, AllocError>
    requires edges { map Some edges.now ≡ map (edge_of graph.now.manifest.builds) (outputs_of observation.now.commands) }
    requires within { AllByRecursion (λ edge. edge < length graph.now.manifest.builds) edges.now }
    requires hidden { length hidden.now ≡ length observation.now.paths }
    ensures certain { IfOk result (λ c. IsTrue c.is_certain ↔ IsCertain (scene graph.now.manifest.builds files.now
        observation.now.paths observation.now.commands edges.now hidden.now)
        marks.entry.needed.now marks.entry.began.now marks.entry.ended.now) }
    ensures missing { IfOk result (λ c. c.missing.items ≡ filter
        (missing_in graph.now.manifest.builds files.now marks.entry.needed.now marks.entry.ended.now)
        (edges_of graph.now.manifest.builds)) }
    ensures unsure { IfOk result (λ c. c.unsure.items ≡ filter
        (unsure_in graph.now.manifest.builds files.now marks.entry.began.now marks.entry.ended.now c.whole.items)
        (edges_of graph.now.manifest.builds)) }
    ensures conflicts { IfOk result (λ c. AreConflicts (scene graph.now.manifest.builds files.now
        observation.now.paths observation.now.commands edges.now hidden.now) c.conflicts.items) }
    ensures whole { IfOk result (λ c. AreSeenWhole (scene graph.now.manifest.builds files.now
        observation.now.paths observation.now.commands edges.now hidden.now) c.whole.items) }
{
    let conflicts = conflicts(alloc, graph, files, observation, edges, hidden)?;
    let whole = whole_edges(alloc, graph, files, observation, edges, hidden)?;
    let Standing { missing, unsure } = standing_edges(alloc, graph, files, &whole, marks)?;
    Ok(with_verdict(
        graph,
        files,
        observation,
        edges,
        hidden,
        marks,
        whole,
        missing,
        unsure,
        conflicts,
    ))
}
