//! What the readers of a recording give a certificate.
ghost use Rattle.std.specs.Prelude.{◌≡◌, ◌<◌, length, IfOk};
ghost use Rattle.std.specs.List.{AllByRecursion};
ghost use Rattle.rev_certainty.specs.Recorded.{IsCertified, IsKnown};

use crate::needing::needed_edges;
use rev_certificate::{Certificate, Marks, certify};
use rev_conflicts::early_edges;
use rev_filters::{Filters, hidden};
use rev_history::History;
use rev_manifest::Build;
use rev_observation::Observation;
use rev_paths::Name;
use rev_races::{finished_edges, started_edges};
use std::alloc::{AllocError, Global};

/// What is known of each edge and of each entry, as marks.
#[derive(Drop)]
pub struct Known {
    /// The targets need the edge.
    pub needed: Vec<bool>,
    /// The edge's command began.
    pub began: Vec<bool>,
    /// The edge's command ended well.
    pub ended: Vec<bool>,
    /// The edge makes a file from which the manifest is read.
    pub early: Vec<bool>,
    /// A filter hides the entry.
    pub hidden: Vec<bool>,
}

/// What is known of each edge of a history and of each entry of an observation. `files` are those from which the
/// manifest was read.
///
/// # Errors
/// [`AllocError`] only where an allocation was refused.
pub fn known_of(
    alloc: Global,
    history: &History,
    files: &[Name],
    places: &Observation,
    filters: &[Filters],
) -> Result<Known, AllocError>
    ensures { IfOk result (λ known. IsKnown history.now.timeline files.now places.now filters.now known) }
{
    let needed = needed_edges(alloc, history)?;
    let began = started_edges(alloc, history)?;
    let ended = finished_edges(alloc, history)?;
    let early = early_edges(alloc, history.graph(), files)?;
    let marks = hidden(alloc, filters, places.entries().paths())?;
    Ok(Known {
        needed,
        began,
        ended,
        early,
        hidden: marks,
    })
}

/// The certificate of commands that were seen, by what is known of each edge. `builds` has the build lines of the
/// history with their depfiles and response files, and `edges` the edge of each command.
///
/// # Errors
/// [`AllocError`] where an allocation was refused, or where there are more entries, commands or flags than a number of
/// 32 bits counts.
pub fn certificate_of(
    alloc: Global,
    history: &History,
    builds: &[Build],
    places: &Observation,
    edges: &[u32],
    known: &Known,
) -> Result<Certificate, AllocError>
    requires { AllByRecursion (λ edge. edge < length history.now.timeline.manifest.builds) edges.now }
    ensures { IfOk result (λ certificate. IsCertified history.now.timeline.manifest.builds builds.now places.now
        edges.now known.now certificate) }
{
    let marks = Marks {
        needed: &known.needed,
        began: &known.began,
        ended: &known.ended,
    };
    let certificate = certify(
        alloc,
        history.graph(),
        builds,
        places,
        edges,
        &known.early,
        &known.hidden,
        marks,
    )?;
    Ok(certificate)
}
