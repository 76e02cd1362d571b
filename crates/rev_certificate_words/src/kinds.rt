//! The words for kinds.
use crate::named::Named;
use rev_certificate::{Assumption, Obstacle};
use rev_entry_conflicts::Kind;

/// The word for how two commands conflict.
pub fn conflict_kind(kind: Kind) -> &'static str {
    match kind {
        Kind::Clash => "clash",
        Kind::Race => "race",
        Kind::Folder => "folder",
        Kind::Link => "link",
        Kind::Cycle => "cycle",
        Kind::Unstable => "unstable",
    }
}

/// The word for what stands in the way. A command that did not end well is one that failed, or one that did not run, or
/// one that was up to date.
pub fn obstacle_kind(named: &Named<'_>, obstacle: &Obstacle) -> &'static str {
    match obstacle {
        Obstacle::Incomplete => "incomplete",
        Obstacle::NotEnded { edge } => {
            if named.has_begun(*edge) {
                "failed"
            } else if named.is_up_to_date(*edge) {
                "up to date"
            } else {
                "did not run"
            }
        }
        Obstacle::Early { .. } => "manifest",
        Obstacle::Unseen { .. } => "not observed",
        Obstacle::Flagged { .. } => "not whole",
        Obstacle::Conflict(conflict) => conflict_kind(conflict.kind),
    }
}

/// The word for what is assumed.
pub fn assumption_kind(assumption: &Assumption) -> &'static str {
    match assumption {
        Assumption::Targets => "targets",
        Assumption::SeesTheSame => "sees the same",
        Assumption::Ensured { .. } => "folder",
        Assumption::Stamps { .. } => "stamp",
        Assumption::Order { .. } => "order of a listing",
        Assumption::Cached { .. } => "cache",
        Assumption::HiddenEntry { .. } => "filter",
        Assumption::HiddenPlace { .. } => "device",
        Assumption::Names { .. } => "names of one file",
    }
}
