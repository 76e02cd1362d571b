//! The findings of an observation, and the races by lists that are left beside them.
use crate::finding::{Finding, Kind, Mending};
use crate::other_names::{build_folder, name_within};
use rev_conflicts::{Change, Conflict, ConflictKind, Look, Place};
use rev_graph::Graph;
use rev_observed::{Command, Observation};
use rev_paths::{Name, Paths};
use rev_races_text::{Evidence, RaceFinding, Seen, Story};
use rev_shown::first_output;
use rev_undeclared::{Undeclared, UndeclaredKind};
use rev_unlisted::{Cover, Unlisted};
use std::alloc::{AllocError, Global};

// Two edges and a file that a finding is about, the lesser edge first.
#[derive(Clone, Copy, PartialEq, Eq, PartialOrd, Ord)]
struct Spot {
    lesser: u32,
    greater: u32,
    path: u64,
}

impl Spot {
    // The spot of two edges and a file.
    fn new(one: u32, other: u32, path: u64) -> Spot {
        Spot {
            lesser: one.min(other),
            greater: one.max(other),
            path,
        }
    }
}

// The edges and files that conflicts are about.
#[derive(Drop)]
struct Spots {
    spots: Vec<Spot>,
}

impl Spots {
    // The spots of conflicts.
    fn new(alloc: Global, conflicts: &[Conflict]) -> Result<Spots, AllocError> {
        let mut spots = Vec::new(alloc);
        for conflict in conflicts {
            if let Place::File(path) = conflict.place {
                spots.push(Spot::new(conflict.maker, conflict.user, path))?;
            }
        }
        spots.sort_unstable();
        Ok(Spots { spots })
    }

    // Whether this is one of them.
    fn holds(&self, spot: Spot) -> bool {
        self.spots.binary_search(&spot).is_ok()
    }

    // Whether the spot of a race is one of them.
    fn has(&self, paths: &Paths, maker: u32, user: u32, path: &Name) -> bool {
        match paths.find(path) {
            Some(number) => self.holds(Spot::new(maker, user, number)),
            None => false,
        }
    }

    // Whether the spot of a race is one of them, by its path or by the name of its file in the folder of the build.
    fn has_file(
        &self,
        alloc: Global,
        paths: &Paths,
        folder: &[u8],
        race: &RaceFinding<'_>,
    ) -> Result<bool, AllocError> {
        if self.has(paths, race.maker, race.user, race.path) {
            return Ok(true);
        }
        match name_within(alloc, folder, race.path)? {
            Some(name) => Ok(self.has(paths, race.maker, race.user, &name)),
            None => Ok(false),
        }
    }
}

/// The races that are left beside conflicts. A race is left where no conflict is about its two edges and its file, and
/// where the error of a failed command names it. A path in the folder of the build ([`build_folder`]) and its name there
/// are one file.
///
/// # Errors
/// [`AllocError`] only where an allocation was refused.
pub fn races_left<'a>(
    alloc: Global,
    graph: &Graph,
    races: &[RaceFinding<'a>],
    paths: &Paths,
    conflicts: &[Conflict],
) -> Result<Vec<RaceFinding<'a>>, AllocError> {
    let folder = build_folder(graph);
    let spots = Spots::new(alloc, conflicts)?;
    let mut left = Vec::new(alloc);
    for race in races {
        let is_named = matches!(race.evidence, Evidence::Error(_));
        if is_named || !spots.has_file(alloc, paths, folder, race)? {
            left.push(*race)?;
        }
    }
    Ok(left)
}

// The spots of races that errors name.
fn named_spots(
    alloc: Global,
    races: &[RaceFinding<'_>],
    paths: &Paths,
) -> Result<Spots, AllocError> {
    let mut spots = Vec::new(alloc);
    for race in races {
        if let Evidence::Error(_) = race.evidence {
            if let Some(path) = paths.find(race.path) {
                spots.push(Spot::new(race.maker, race.user, path))?;
            }
        }
    }
    spots.sort_unstable();
    Ok(Spots { spots })
}

/// The conflicts that are left beside races. A conflict is left unless the error of a failed command names a race of
/// its two edges and its file.
///
/// # Errors
/// [`AllocError`] only where an allocation was refused.
pub fn conflicts_left(
    alloc: Global,
    conflicts: &[Conflict],
    paths: &Paths,
    races: &[RaceFinding<'_>],
) -> Result<Vec<Conflict>, AllocError> {
    let spots = named_spots(alloc, races, paths)?;
    let mut left = Vec::new(alloc);
    for conflict in conflicts {
        let is_told = match conflict.place {
            Place::File(path) => spots.holds(Spot::new(conflict.maker, conflict.user, path)),
            Place::Entries(_) => false,
        };
        if !is_told {
            left.push(*conflict)?;
        }
    }
    Ok(left)
}

// The path of a place, where it has one.
fn path_of(paths: &Paths, place: Place) -> Option<&Name> {
    let (Place::File(number) | Place::Entries(number)) = place;
    if number >= paths.len() {
        return None;
    }
    Some(paths.path(number))
}

// Whether a command has a file as a temporary.
fn is_temporary(command: &Command, place: Place) -> bool {
    let Place::File(path) = place else {
        return false;
    };
    for range in command.paths(rev_observed::Kind::Temps) {
        if u64::from(range.first) <= path && path <= u64::from(range.last) {
            return true;
        }
    }
    false
}

// What the maker of a clash does: it leaves the file, or has it as a temporary.
fn clash_change(observation: &Observation, conflict: &Conflict) -> Change {
    match observation.commands().get(conflict.made_by as usize) {
        Some(command) if is_temporary(command, conflict.place) => Change::Temporary,
        _ => Change::Output,
    }
}

// What a conflict is, how its user looks at the place, and what its maker does there.
fn parts_of(observation: &Observation, conflict: &Conflict) -> (Kind, Look, Change) {
    match conflict.kind {
        ConflictKind::Race { look, change } => (Kind::Race, look, change),
        ConflictKind::Cycle { look } => (Kind::Cycle, look, Change::Output),
        ConflictKind::Unstable { look, change } => (Kind::Unstable, look, change),
        ConflictKind::Clash => (Kind::Clash, Look::Read, clash_change(observation, conflict)),
    }
}

/// Conflicts as findings, in their order. `stories` has for each conflict what happened with its edges.
///
/// # Errors
/// [`AllocError`] only where an allocation was refused.
pub fn conflict_findings<'a>(
    alloc: Global,
    graph: &'a Graph,
    observation: &'a Observation,
    conflicts: &[Conflict],
    stories: &[Story],
) -> Result<Vec<Finding<'a>>, AllocError> {
    let mut findings = Vec::new(alloc);
    for (place, conflict) in conflicts.iter().enumerate() {
        if let Some(path) = path_of(observation.paths(), conflict.place) {
            let (kind, look, change) = parts_of(observation, conflict);
            findings.push(Finding {
                kind,
                maker: conflict.maker,
                user: conflict.user,
                path,
                look,
                change,
                story: stories.get(place).copied(),
                output: first_output(graph, conflict.maker),
                listed: None,
                mending: Mending::PLAIN,
            })?;
        }
    }
    Ok(findings)
}

// The kind of a finding about an undeclared file, how its user looks at it, and what its maker does.
fn undeclared_parts(kind: UndeclaredKind) -> (Kind, Look, Change) {
    match kind {
        UndeclaredKind::Anothers => (Kind::Anothers, Look::Read, Change::Output),
        UndeclaredKind::LookedAt { look, .. } => (Kind::Undeclared, look, Change::Undeclared),
    }
}

/// Adds undeclared files to findings, in their order.
///
/// # Errors
/// [`AllocError`] only where an allocation was refused.
pub fn add_undeclared<'a>(
    graph: &'a Graph,
    observation: &'a Observation,
    undeclared: &[Undeclared],
    findings: &mut Vec<Finding<'a>>,
) -> Result<(), AllocError> {
    for file in undeclared {
        if let Some(path) = path_of(observation.paths(), Place::File(file.path)) {
            let (kind, look, change) = undeclared_parts(file.kind);
            findings.push(Finding {
                kind,
                maker: file.maker,
                user: file.user,
                path,
                look,
                change,
                story: None,
                output: first_output(graph, file.maker),
                listed: None,
                mending: Mending::PLAIN,
            })?;
        }
    }
    Ok(())
}

// An edge whose command reads a file, by the number of the path, that is unlisted for it.
#[derive(Clone, Copy, PartialEq, Eq, PartialOrd, Ord)]
struct Reading {
    path: u64,
    user: u32,
}

// The unlisted inputs for which nothing makes Ninja run their reader again, each once, in the order of the paths.
fn readings_of(alloc: Global, unlisted: &[Unlisted]) -> Result<Vec<Reading>, AllocError> {
    let mut readings = Vec::new(alloc);
    for file in unlisted {
        if file.cover == Cover::Neither {
            readings.push(Reading {
                path: file.path,
                user: file.user,
            })?;
        }
    }
    readings.sort_unstable();
    readings.dedup();
    Ok(readings)
}

/// Adds unlisted inputs to findings, those about one path together. Where something makes Ninja run the reader again
/// when the file changes ([`Cover::Covered`], [`Cover::HeldBack`]), nothing is added.
///
/// # Errors
/// [`AllocError`] only where an allocation was refused.
pub fn add_unlisted<'a>(
    alloc: Global,
    graph: &'a Graph,
    observation: &'a Observation,
    unlisted: &[Unlisted],
    findings: &mut Vec<Finding<'a>>,
) -> Result<(), AllocError> {
    for reading in &readings_of(alloc, unlisted)? {
        if let Some(path) = path_of(observation.paths(), Place::File(reading.path)) {
            findings.push(Finding {
                kind: Kind::Unlisted,
                maker: reading.user,
                user: reading.user,
                path,
                look: Look::Read,
                change: Change::Output,
                story: None,
                output: first_output(graph, reading.user),
                listed: None,
                mending: Mending::PLAIN,
            })?;
        }
    }
    Ok(())
}

/// How many findings there are of each kind, and how many commands were observed whole (`whole`).
pub fn seen_in(findings: &[Finding<'_>], whole: u64) -> Seen {
    let mut seen = Seen {
        whole,
        ..Seen::NOTHING
    };
    for finding in findings {
        let count = match finding.kind {
            Kind::Race => &mut seen.races,
            Kind::Cycle => &mut seen.cycles,
            Kind::Clash => &mut seen.clashes,
            Kind::Unstable => &mut seen.unstable,
            Kind::Undeclared | Kind::Anothers => &mut seen.undeclared,
            Kind::Unlisted => &mut seen.unlisted,
        };
        *count = u64::saturating_add(*count, 1);
    }
    seen
}

/// The user and the maker of the finding that has a number, from 1. It is None where no finding has the number, and
/// where the finding does not depend on the order of two commands.
pub fn pair_of(findings: &[Finding<'_>], number: u64) -> Option<(u32, u32)> {
    let place = number.checked_sub(1)?;
    if place >= findings.len() as u64 {
        return None;
    }
    let finding = findings.get(place as usize)?;
    match finding.kind {
        Kind::Race | Kind::Cycle | Kind::Clash => Some((finding.user, finding.maker)),
        Kind::Unstable | Kind::Undeclared | Kind::Anothers | Kind::Unlisted => None,
    }
}
