//! What follows from what the commands of a recording were seen to do.
ghost use Rattle.std.specs.Prelude.{◌≡◌, ◌<◌, Some, length, map};
ghost use Rattle.std.specs.List.{AllByRecursion};
ghost use Rattle.rev_observed.specs.Joins.{edge_of};
ghost use Rattle.rev_observed.specs.Observations.{outputs_of};

use crate::failing::add_absent;
use crate::found::orderable_output;
use crate::listed_names::note_listed;
use crate::mending::{note_mends, regraded};
use indexmap::IndexMap;
use rev_conflicts::{Conflict, Place, conflicts};
use rev_conflicts_text::{
    Finding, add_undeclared, add_unlisted, conflict_findings, conflicts_left, races_left, seen_in,
};
use rev_folder::{FilterTexts, Observed, hidden_by, observed_in};
use rev_graph::Graph;
use rev_history::History;
use rev_manifest::Build;
use rev_observed::{Kind as Use, Observation, PathRange};
use rev_paths::Name;
use rev_races::{Kind, Race, finished_edges, started_edges, stories};
use rev_races_text::{Hidden, RaceFinding, Report, Shown, Story};
use rev_recording::RecordingFault;
use rev_undeclared::{Undeclared, undeclared_files};
use rev_unlisted::{Unlisted, always_run, unlisted_files};
use std::alloc::{AllocError, Global};

/// What is known of a recording beside its history.
#[derive(Clone, Copy)]
pub struct Origin<'a> {
    /// The names of the files that the manifest was read from.
    pub files: &'a [Name],
    /// The edges of the manifest.
    pub builds: &'a [Build],
    /// Other names of files, each with the own name of its file.
    pub names: &'a IndexMap<Name, Name>,
}

/// What commands were seen to do, and what follows.
pub struct Sight {
    /// What they did with files, and their edges.
    pub observed: Observed,
    /// What two commands do at one place.
    pub conflicts: Vec<Conflict>,
    /// The files that commands leave beside their outputs.
    pub undeclared: Vec<Undeclared>,
    /// The files that commands read beside their inputs and lists.
    pub unlisted: Vec<Unlisted>,
    /// For each edge whether its command was observed whole.
    pub whole: Vec<bool>,
    /// The conflicts where nothing is hidden; none where nothing is.
    pub unfiltered: Vec<Conflict>,
    /// At how many places filters hide that commands meet.
    pub hidden: u64,
}

// Written, since a derived drop is proved again at each exit of each caller.
impl Drop for Sight {
    fn drop(self) {
        let Sight {
            observed: _observed,
            conflicts: _conflicts,
            undeclared: _undeclared,
            unlisted: _unlisted,
            whole: _whole,
            unfiltered: _unfiltered,
            hidden: _hidden,
        } = self;
    }
}

// For each edge whether its command was observed whole.
fn whole_edges(alloc: Global, count: u32, observed: &Observed) -> Result<Vec<bool>, AllocError> {
    let mut whole = vec![in alloc; false; count as usize]?;
    let commands = observed.observation.commands();
    for (command, edge) in commands.iter().zip(observed.edges.iter()) {
        if let Some(mark) = whole.get_mut(*edge as usize) {
            *mark = command.flags().is_whole();
        }
    }
    Ok(whole)
}

// The conflicts of commands that were seen.
fn conflicts_of(
    alloc: Global,
    graph: &Graph,
    files: &[Name],
    observed: &Observed,
    hidden: &[bool],
) -> Result<Vec<Conflict>, AllocError>
    requires edges { map Some observed.now.edges.items
        ≡ map (edge_of graph.now.manifest.builds) (outputs_of observed.now.observation.commands) }
    requires within { AllByRecursion (λ edge. edge < length graph.now.manifest.builds) observed.now.edges.items }
    requires hidden { length hidden.now ≡ length observed.now.observation.paths }
{
    conflicts(
        alloc,
        graph,
        files,
        &observed.observation,
        &observed.edges,
        hidden,
    )
}

// A place: a file, or the entries of a folder, by the number of the path.
#[derive(Clone, Copy, PartialEq, Eq, PartialOrd, Ord)]
struct Spot {
    is_folder: bool,
    path: u64,
}

// The places of conflicts, each once.
fn spots_of(alloc: Global, conflicts: &[Conflict]) -> Result<Vec<Spot>, AllocError> {
    let mut spots = Vec::new(alloc);
    for conflict in conflicts {
        spots.push(match conflict.place {
            Place::File(path) => Spot {
                is_folder: false,
                path,
            },
            Place::Entries(path) => Spot {
                is_folder: true,
                path,
            },
        })?;
    }
    spots.sort_unstable();
    spots.dedup();
    Ok(spots)
}

/// The conflicts of commands that were seen where nothing is hidden; none where nothing is.
///
/// # Errors
/// [`AllocError`] only where an allocation was refused.
pub(crate) fn unfiltered(
    alloc: Global,
    graph: &Graph,
    files: &[Name],
    observed: &Observed,
    hidden: &[bool],
) -> Result<Vec<Conflict>, AllocError>
    requires edges { map Some observed.now.edges.items
        ≡ map (edge_of graph.now.manifest.builds) (outputs_of observed.now.observation.commands) }
    requires within { AllByRecursion (λ edge. edge < length graph.now.manifest.builds) observed.now.edges.items }
    requires hidden { length hidden.now ≡ length observed.now.observation.paths }
{
    if !hidden.iter().any(|mark| *mark) {
        return Ok(Vec::new(alloc));
    }
    let none = vec![in alloc; false; hidden.len()]?;
    conflicts_of(alloc, graph, files, observed, &none)
}

/// In how many places commands meet that filters hide: those of all conflicts, less those of the conflicts that are
/// left.
///
/// # Errors
/// [`AllocError`] only where an allocation was refused.
pub(crate) fn hidden_count(
    alloc: Global,
    all: &[Conflict],
    told: &[Conflict],
) -> Result<u64, AllocError> {
    let all = spots_of(alloc, all)?;
    let told = spots_of(alloc, told)?;
    Ok((all.len() as u64).saturating_sub(told.len() as u64))
}

// The place of a spot that filters hide, where its path is one of an observation.
fn hidden_at(observation: &Observation, spot: Spot) -> Option<Hidden<'_>> {
    let paths = observation.paths();
    if spot.path >= paths.len() {
        return None;
    }
    Some(Hidden {
        path: Shown(paths.path(spot.path).as_bytes()),
        entries: spot.is_folder,
    })
}

/// The places that filters hide, where commands meet; nothing without an observation. Files come before folders.
///
/// # Errors
/// [`AllocError`] only where an allocation was refused.
pub(crate) fn hidden_in<'a>(
    alloc: Global,
    sight: Option<&'a Sight>,
) -> Result<Vec<Hidden<'a>>, AllocError> {
    let mut places = Vec::new(alloc);
    let Some(sight) = sight else {
        return Ok(places);
    };
    let told = spots_of(alloc, &sight.conflicts)?;
    for spot in &spots_of(alloc, &sight.unfiltered)? {
        if told.binary_search(spot).is_err() {
            if let Some(place) = hidden_at(&sight.observed.observation, *spot) {
                places.push(place)?;
            }
        }
    }
    Ok(places)
}

// The files that commands leave beside their outputs, without those of conflicts.
fn undeclared_in(
    alloc: Global,
    graph: &Graph,
    origin: Origin<'_>,
    observed: &Observed,
    hidden: &[bool],
    conflicts: &[Conflict],
) -> Result<Vec<Undeclared>, AllocError>
    requires edges { map Some observed.now.edges.items
        ≡ map (edge_of graph.now.manifest.builds) (outputs_of observed.now.observation.commands) }
    requires within { AllByRecursion (λ edge. edge < length graph.now.manifest.builds) observed.now.edges.items }
    requires hidden { length hidden.now ≡ length observed.now.observation.paths }
{
    let observation = &observed.observation;
    undeclared_files(
        alloc,
        graph,
        origin.files,
        origin.builds,
        observation,
        &observed.edges,
        hidden,
        conflicts,
    )
}

// The files that commands read though neither their line nor their list has them, without those that stronger findings
// are about. Each has its cover. Commands that did not end well have none.
fn unlisted_in(
    alloc: Global,
    history: &History,
    origin: Origin<'_>,
    observed: &Observed,
    hidden: &[bool],
    conflicts: &[Conflict],
    undeclared: &[Undeclared],
) -> Result<Vec<Unlisted>, AllocError>
    requires edges { map Some observed.now.edges.items
        ≡ map (edge_of history.now.timeline.manifest.builds) (outputs_of observed.now.observation.commands) }
    requires within { AllByRecursion (λ edge. edge < length history.now.timeline.manifest.builds)
        observed.now.edges.items }
    requires hidden { length hidden.now ≡ length observed.now.observation.paths }
{
    let observation = &observed.observation;
    let unlisted = unlisted_files(
        alloc,
        history,
        origin.names,
        origin.files,
        origin.builds,
        observation,
        &observed.edges,
        hidden,
        conflicts,
        undeclared,
    )?;
    let folders = folder_marks(alloc, observation)?;
    let unlisted = ended_well(alloc, history, &folders, &unlisted)?;
    that_can_be_stale(alloc, history, unlisted)
}

// The unlisted files without those of commands that Ninja runs in each build.
fn that_can_be_stale(
    alloc: Global,
    history: &History,
    unlisted: Vec<Unlisted>,
) -> Result<Vec<Unlisted>, AllocError> {
    if unlisted.is_empty() {
        return Ok(unlisted);
    }
    let always = always_run(alloc, history)?;
    let mut files = Vec::new(alloc);
    for file in &unlisted {
        if !always.get(file.user as usize).copied().unwrap_or(false) {
            files.push(*file)?;
        }
    }
    Ok(files)
}

// At how many ranges of numbers each number is the first one, and the last one.
#[derive(Drop)]
struct Bounds {
    firsts: Vec<u64>,
    lasts: Vec<u64>,
}

impl Bounds {
    // Notes ranges.
    fn note(&mut self, ranges: &[PathRange]) {
        for range in ranges {
            count_at(&mut self.firsts, range.first);
            count_at(&mut self.lasts, range.last);
        }
    }

    // For each number whether a range has it.
    fn marks(&self, alloc: Global) -> Result<Vec<bool>, AllocError> {
        let mut marks = Vec::new(alloc);
        let mut open = 0u64;
        for (first, last) in self.firsts.iter().zip(self.lasts.iter()) {
            open = u64::saturating_add(open, *first);
            marks.push(open > 0)?;
            open = u64::saturating_sub(open, *last);
        }
        Ok(marks)
    }
}

// Counts one more at a number.
fn count_at(counts: &mut [u64], number: u32) {
    if let Some(count) = counts.get_mut(number as usize) {
        *count = u64::saturating_add(*count, 1);
    }
}

// For each path of an observation whether it is a folder: a command listed its entries, or made it as a folder.
fn folder_marks(alloc: Global, observation: &Observation) -> Result<Vec<bool>, AllocError> {
    let count = observation.paths().len() as usize;
    let mut bounds = Bounds {
        firsts: vec![in alloc; 0; count]?,
        lasts: vec![in alloc; 0; count]?,
    };
    for command in observation.commands() {
        bounds.note(command.paths(Use::Lists));
        bounds.note(command.paths(Use::Folders));
    }
    bounds.marks(alloc)
}

// The unlisted files of commands that ended well. One that failed left no list, and Ninja runs it again in any case. A
// folder is none of them: it has entries and no content, and a build line that names it as an input has Ninja refuse
// the manifest, or compare the folder's stamp.
fn ended_well(
    alloc: Global,
    history: &History,
    folders: &[bool],
    unlisted: &[Unlisted],
) -> Result<Vec<Unlisted>, AllocError> {
    let ended = finished_edges(alloc, history)?;
    let mut files = Vec::new(alloc);
    for file in unlisted {
        let is_folder = folders.get(file.path as usize).copied().unwrap_or(false);
        if !is_folder && ended.get(file.user as usize).copied().unwrap_or(false) {
            files.push(*file)?;
        }
    }
    Ok(files)
}

/// The files by which a next build can differ from one from nothing: those that commands leave beside their outputs, and
/// those that commands read though neither their line nor their list has them. Those that stronger findings are about
/// are left out. Of commands that did not end well there is none of the latter, and of those that Ninja runs in each build.
///
/// # Errors
/// [`AllocError`] where an allocation was refused, or edges and paths together are 2^32 or more.
pub(crate) fn stale_files(
    alloc: Global,
    history: &History,
    origin: Origin<'_>,
    observed: &Observed,
    hidden: &[bool],
    conflicts: &[Conflict],
) -> Result<(Vec<Undeclared>, Vec<Unlisted>), AllocError>
    requires edges { map Some observed.now.edges.items
        ≡ map (edge_of history.now.timeline.manifest.builds) (outputs_of observed.now.observation.commands) }
    requires within { AllByRecursion (λ edge. edge < length history.now.timeline.manifest.builds)
        observed.now.edges.items }
    requires hidden { length hidden.now ≡ length observed.now.observation.paths }
{
    let graph = history.graph();
    let undeclared = undeclared_in(alloc, graph, origin, observed, hidden, conflicts)?;
    let unlisted = unlisted_in(
        alloc,
        history,
        origin,
        observed,
        hidden,
        conflicts,
        &undeclared,
    )?;
    Ok((undeclared, unlisted))
}

/// What the bytes of the file `observed` say of the commands of a history, without what the filters of other bytes hide.
///
/// # Errors
/// As [`observed_in`].
pub fn sight_in(
    alloc: Global,
    history: &History,
    origin: Origin<'_>,
    bytes: &[u8],
    filters: FilterTexts<'_>,
) -> Result<Sight, RecordingFault> {
    let graph = history.graph();
    let observed = observed_in(alloc, graph, bytes)?;
    let marks = hidden_by(alloc, &observed.observation, filters)?;
    let conflicts = conflicts_of(alloc, graph, origin.files, &observed, &marks)?;
    let unfiltered = unfiltered(alloc, graph, origin.files, &observed, &marks)?;
    let hidden = hidden_count(alloc, &unfiltered, &conflicts)?;
    let whole = whole_edges(alloc, graph.edges(), &observed)?;
    let (undeclared, unlisted) = stale_files(
        alloc, history, origin, &observed, &marks, &conflicts,
    )?;
    Ok(Sight {
        observed,
        conflicts,
        undeclared,
        unlisted,
        whole,
        unfiltered,
        hidden,
    })
}

/// The races by lists that an observation does not tell, and would not tell where nothing is hidden.
///
/// # Errors
/// [`AllocError`] only where an allocation was refused.
pub fn listed_left<'a>(
    alloc: Global,
    graph: &Graph,
    sight: Option<&Sight>,
    races: Vec<RaceFinding<'a>>,
) -> Result<Vec<RaceFinding<'a>>, AllocError> {
    match sight {
        Some(sight) => {
            let paths = sight.observed.observation.paths();
            let races = races_left(alloc, graph, &races, paths, &sight.conflicts)?;
            races_left(alloc, graph, &races, paths, &sight.unfiltered)
        }
        None => Ok(races),
    }
}

// What happened with the edges of conflicts.
fn stories_of(
    alloc: Global,
    history: &History,
    conflicts: &[Conflict],
) -> Result<Vec<Story>, AllocError> {
    let mut races = Vec::new(alloc);
    for conflict in conflicts {
        races.push(Race {
            kind: Kind::Race,
            maker: conflict.maker,
            user: conflict.user,
            place: 0,
        })?;
    }
    stories(alloc, history, &races)
}

/// The findings by an observation of a history, whose manifest has these edges, without the races of a report that
/// errors name; nothing without an observation.
///
/// # Errors
/// [`AllocError`] only where an allocation was refused.
pub fn seen_findings<'a>(
    alloc: Global,
    history: &'a History,
    builds: &'a [Build],
    sight: Option<&'a Sight>,
    races: &[RaceFinding<'_>],
) -> Result<Vec<Finding<'a>>, AllocError> {
    let Some(sight) = sight else {
        return Ok(Vec::new(alloc));
    };
    let observation = &sight.observed.observation;
    let conflicts = conflicts_left(alloc, &sight.conflicts, observation.paths(), races)?;
    let mut findings = conflict_findings_in(alloc, history, builds, observation, &conflicts)?;
    add_absent(alloc, history, builds, sight, races, &mut findings)?;
    note_listed(alloc, history, &mut findings)?;
    add_undeclared(
        history.graph(),
        observation,
        &sight.undeclared,
        &mut findings,
    )?;
    add_unlisted(
        alloc,
        history.graph(),
        observation,
        &sight.unlisted,
        &mut findings,
    )?;
    note_mends(alloc, history, builds, observation, &mut findings)?;
    Ok(findings)
}

// What happened with two edges, by the runs that ended well. There is no such run where the user ran and did not end
// well.
fn story_told(story: Option<Story>, user_began: bool) -> Option<Story> {
    match story {
        Some(story) if story.user.is_none() && user_began => None,
        story => story,
    }
}

/// Conflicts of commands of a history, whose manifest has these edges, as findings. What happened is left out where the
/// user failed. The output that a user is to wait for is the one that a patch has.
///
/// # Errors
/// [`AllocError`] only where an allocation was refused.
pub(crate) fn conflict_findings_in<'a>(
    alloc: Global,
    history: &'a History,
    builds: &'a [Build],
    observation: &'a Observation,
    conflicts: &[Conflict],
) -> Result<Vec<Finding<'a>>, AllocError> {
    let graph = history.graph();
    let conflicts = regraded(alloc, graph, observation, conflicts)?;
    let stories = stories_of(alloc, history, &conflicts)?;
    let mut findings = conflict_findings(alloc, graph, observation, &conflicts, &stories)?;
    let began = started_edges(alloc, history)?;
    for finding in findings.iter_mut() {
        let user_began = began.get(finding.user as usize).copied().unwrap_or(false);
        finding.story = story_told(finding.story, user_began);
        finding.output = orderable_output(builds, finding.maker);
    }
    note_mends(alloc, history, builds, observation, &mut findings)?;
    Ok(findings)
}

/// Counts the findings by an observation in a report, where there is an observation.
pub fn count_findings(sight: Option<&Sight>, findings: &[Finding<'_>], report: &mut Report<'_>) {
    if let Some(sight) = sight {
        report.before = findings.len() as u64;
        report.seen = Some(seen_in(findings, whole_count(sight)));
    }
}

/// At how many places filters hide that commands meet.
pub fn hidden_places(sight: Option<&Sight>) -> u64 {
    match sight {
        Some(sight) => sight.hidden,
        None => 0,
    }
}

// Whether the command of an edge was observed whole.
fn is_whole(sight: Option<&Sight>, edge: u32) -> bool {
    match sight {
        Some(sight) => sight.whole.get(edge as usize).copied().unwrap_or(false),
        None => false,
    }
}

/// Of some edges those whose commands were not observed whole.
///
/// # Errors
/// [`AllocError`] only where an allocation was refused.
pub fn not_whole(
    alloc: Global,
    sight: Option<&Sight>,
    edges: &[u32],
) -> Result<Vec<u32>, AllocError> {
    let mut left = Vec::new(alloc);
    for edge in edges {
        if !is_whole(sight, *edge) {
            left.push(*edge)?;
        }
    }
    Ok(left)
}

/// The marks of the edges whose commands were observed whole; nothing without an observation.
pub fn whole_marks<'a>(sight: Option<&'a Sight>) -> &'a [bool] {
    match sight {
        Some(sight) => &sight.whole,
        None => &[],
    }
}

// How many commands were observed whole.
fn whole_count(sight: &Sight) -> u64 {
    sight.whole.iter().filter(|mark| **mark).count() as u64
}
