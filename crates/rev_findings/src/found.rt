//! The races, clashes and failed commands of a recording, as answers have them.
ghost use Rattle.rev_named.specs.Named.{AreLastComponents};

use crate::failing::{MOST_FAILED, Watched};
use crate::hinted::are_whole;
use crate::seen::Sight;
use indexmap::IndexMap;
use rev_clashes::{SideFile, clashes};
use rev_conflicts_text::{build_folder, is_one_file};
use rev_graph::Graph;
use rev_hints::{change_hints, listed_path};
use rev_history::History;
use rev_manifest::Build;
use rev_named::{LastComponents, last_components, named_outputs};
use rev_patched::writable_output;
use rev_paths::Name;
use rev_printed::Entry;
use rev_races::{Race, listed, path_of, races, stories};
use rev_races_text::{
    Basis, Change, Clash, Edge, Evidence, Failure, Kind, ListedBefore, Printed, Progress,
    RaceFinding, Remainder, Run, Shown, Sources, Story, Suspect,
};
use rev_runs::runs;
use rev_suspects::{bases, failures, suspects};
use rev_witness::{find_witness, witness_text};
use std::alloc::{AllocError, Global};

// How many pairs of a failed command and another edge are looked at.
const PAIRS: usize = 4_194_304;
// Of how many failed commands suspects are looked for at least.
const LEAST_LOOKED: usize = 16;
// How many suspects of a failed command are told at least, where it has so many.
const LEAST_TOLD: usize = 8;

/// For each edge the last run of its command, where it ran.
pub fn last_runs(alloc: Global, history: &History) -> Result<Vec<Option<Run>>, AllocError> {
    let mut last = vec![in alloc; None; history.graph().edges() as usize]?;
    for run in &runs(alloc, history)? {
        if run.kept {
            if let Some(place) = last.get_mut(run.edge as usize) {
                *place = Some(Run {
                    began: run.began,
                    ended: run.ended,
                });
            }
        }
    }
    Ok(last)
}

/// What is known of the commands that failed.
#[derive(Drop)]
struct Failed {
    // Each run that failed, in the order of the events.
    runs: Vec<rev_suspects::Failure>,
    // The suspects of the first of these, in the same order.
    suspects: Vec<rev_suspects::Suspect>,
    // For how many of them suspects were looked for.
    looked: usize,
}

// Of how many commands that failed suspects are looked for in a build of so many edges: each has up to as many as there
// are edges.
fn most_looked(edges: u32) -> usize {
    usize::max(LEAST_LOOKED, PAIRS / usize::max(edges as usize, 1))
}

// How many suspects of each of so many failed commands are told that its error does not name, in a build of so many
// edges.
fn most_told(edges: u32, failures: usize) -> usize {
    usize::max(
        LEAST_TOLD,
        usize::saturating_mul(edges as usize, 4) / usize::max(failures, 1),
    )
}

// What is known of the commands that failed in a history, whose manifest was read from these files.
fn failed_in(alloc: Global, history: &History, files: &[Name]) -> Result<Failed, AllocError> {
    let looked = most_looked(history.graph().edges());
    Ok(Failed {
        runs: failures(alloc, history)?,
        suspects: suspects(alloc, history, files, looked)?,
        looked,
    })
}

// A user and a maker as one number.
fn pair_key(user: u32, maker: u32) -> u64 {
    u64::from(user) << 32 | u64::from(maker)
}

/// What is known of users whose list is of before.
#[derive(Drop)]
struct Before {
    // For each edge the number of the event by which it failed last.
    failed: IndexMap<u32, u32>,
    // How far a suspect was, by the failed edge and its own.
    progress: IndexMap<u64, Progress>,
}

// What is known of the commands that failed, by their edges.
fn before_of(alloc: Global, failed: &Failed) -> Result<Before, AllocError> {
    let mut numbers = IndexMap::new(alloc);
    let mut progress = IndexMap::new(alloc);
    let mut rest = failed.suspects.as_slice();
    for failure in &failed.runs {
        numbers.insert(failure.edge, failure.number)?;
        let (of, later) = split_of(failure, rest);
        for suspect in of {
            progress.insert(pair_key(failure.edge, suspect.maker), suspect.progress)?;
        }
        rest = later;
    }
    Ok(Before {
        failed: numbers,
        progress,
    })
}

// What a recording shows of a race. A command that lists its own output has no story of two, and one whose list is of
// before did not end well here.
fn evidence_of(
    race: &Race,
    story: Option<&Story>,
    basis: Option<Basis>,
    before: &Before,
) -> Evidence {
    if race.maker == race.user {
        return Evidence::Own;
    }
    if basis == Some(Basis::Earlier) {
        return Evidence::Earlier(ListedBefore {
            failed: before.failed.get(&race.user).copied(),
            maker: before
                .progress
                .get(&pair_key(race.user, race.maker))
                .copied(),
        });
    }
    match story {
        Some(story) => Evidence::Story(*story),
        None => Evidence::Own,
    }
}

// What stands at an edge.
fn basis_at(bases: &[Option<Basis>], edge: u32) -> Option<Basis> {
    match bases.get(edge as usize) {
        Some(basis) => *basis,
        None => None,
    }
}

/// The output of an edge that an order-only input can name: the first one that can be written on a build line, as a
/// patch has it.
pub fn orderable_output(builds: &[Build], edge: u32) -> Option<&Name> {
    writable_output(builds.get(edge as usize)?)
}

// What mends a race: an output of its maker, unless an order is there already or makes a cycle.
fn mend_of<'a>(builds: &'a [Build], kind: Kind, maker: u32) -> Option<&'a Name> {
    match kind {
        Kind::Race => orderable_output(builds, maker),
        Kind::Cycle | Kind::Own => None,
    }
}

// The output that is the name of a path in a folder.
fn output_within<'a>(outputs: &'a [Name], folder: &[u8], path: &Name) -> Option<&'a Name> {
    let rest = path.as_bytes().strip_prefix(folder)?;
    for output in outputs {
        if output.as_bytes() == rest {
            return Some(output);
        }
    }
    None
}

// The path of a race as its maker's first names have it: where the maker has an output that is the name of the path in
// the folder of the build, that output. So the name of a race does not differ from machine to machine.
fn path_within<'a>(builds: &'a [Build], folder: &[u8], maker: u32, path: &'a Name) -> &'a Name {
    if folder.is_empty() {
        return path;
    }
    match builds.get(maker as usize) {
        Some(build) => output_within(build.explicit_outs(), folder, path).unwrap_or(path),
        None => path,
    }
}

// Notes a path of two edges, and says whether it is noted for the first time.
fn is_first(
    alloc: Global,
    noted: &mut IndexMap<Vec<u8>, ()>,
    pair: u64,
    path: &Name,
) -> Result<bool, AllocError> {
    let mut key = Vec::from_slice(alloc, path.as_bytes())?;
    key.extend_from_slice(&pair.to_le_bytes())?;
    if noted.contains_key(key.as_slice()) {
        return Ok(false);
    }
    noted.insert(key, ())?;
    Ok(true)
}

// What is known of races by lists.
#[derive(Clone, Copy)]
struct Known<'b> {
    races: &'b [Race],
    // Of each race what happened.
    stories: &'b [Story],
    // For each edge what its list is of.
    bases: &'b [Option<Basis>],
    before: &'b Before,
}

// The race at a place of those that are known, whose path has this name.
fn known_race<'a>(
    builds: &'a [Build],
    known: Known<'_>,
    place: usize,
    race: &Race,
    path: &'a Name,
) -> RaceFinding<'a> {
    let basis = basis_at(known.bases, race.user);
    RaceFinding {
        kind: race.kind,
        maker: race.maker,
        user: race.user,
        path,
        basis,
        evidence: evidence_of(race, known.stories.get(place), basis, known.before),
        mend: mend_of(builds, race.kind, race.maker),
    }
}

// Adds races that are known of a history. A list may have both names of a file in the folder of the build: it makes one
// race.
fn add_known<'a>(
    alloc: Global,
    history: &'a History,
    builds: &'a [Build],
    known: Known<'_>,
    folder: &[u8],
    told: &mut Vec<RaceFinding<'a>>,
) -> Result<(), AllocError> {
    let mut noted = IndexMap::new(alloc);
    for (place, race) in known.races.iter().enumerate() {
        if let Some(listed) = path_of(history, race) {
            let path = path_within(builds, folder, race.maker, listed);
            if is_first(alloc, &mut noted, pair_key(race.user, race.maker), path)? {
                told.push(known_race(builds, known, place, race, path))?;
            }
        }
    }
    Ok(())
}

// Adds the races by what edges list in a history, whose manifest has these edges and was read from these files.
fn add_listed<'a>(
    alloc: Global,
    history: &'a History,
    builds: &'a [Build],
    files: &[Name],
    before: &Before,
    folder: &[u8],
    told: &mut Vec<RaceFinding<'a>>,
) -> Result<(), AllocError> {
    let races = races(alloc, history, files)?;
    let stories = stories(alloc, history, &races)?;
    let bases = bases(alloc, history)?;
    let known = Known {
        races: &races,
        stories: &stories,
        bases: &bases,
        before,
    };
    add_known(alloc, history, builds, known, folder, told)
}

// The races by what edges list in a history, beside the commands that failed.
fn listed_races<'a>(
    alloc: Global,
    history: &'a History,
    builds: &'a [Build],
    files: &[Name],
    failed: &Failed,
    folder: &[u8],
) -> Result<Vec<RaceFinding<'a>>, AllocError> {
    let before = before_of(alloc, failed)?;
    let mut told = Vec::new(alloc);
    add_listed(alloc, history, builds, files, &before, folder, &mut told)?;
    Ok(told)
}

// What an entry has of what a command printed.
fn printed_in(entry: &Entry) -> Printed<'_> {
    Printed {
        text: &entry.text,
        left: entry.left,
    }
}

// For each edge the places of its entries, the last one first.
fn places_of(alloc: Global, entries: &[Entry]) -> Result<IndexMap<u32, Vec<usize>>, AllocError> {
    let mut places: IndexMap<u32, Vec<usize>> = IndexMap::new(alloc);
    for (place, entry) in entries.iter().enumerate().rev() {
        if let Some(of) = places.get_mut(&entry.edge) {
            of.push(place)?;
        } else {
            places.insert(entry.edge, vec![in alloc; place]?)?;
        }
    }
    Ok(places)
}

// The next entry of an edge.
fn next_entry<'a>(
    entries: &'a [Entry],
    places: &mut IndexMap<u32, Vec<usize>>,
    edge: u32,
) -> Option<&'a Entry> {
    let place = places.get_mut(&edge)?.pop()?;
    entries.get(place)
}

// The outputs of suspects that a text names.
fn names_in<'a>(
    alloc: Global,
    graph: &'a Graph,
    components: &LastComponents,
    entry: Option<&Entry>,
    suspects: &[rev_suspects::Suspect],
) -> Result<Vec<Option<&'a Name>>, AllocError>
    requires { AreLastComponents graph.now.manifest.builds components.now }
{
    let mut makers = Vec::new(alloc);
    if let Some(entry) = entry {
        for suspect in suspects {
            makers.push(suspect.maker)?;
        }
        return named_outputs(alloc, graph, components, &entry.text, &makers);
    }
    Ok(Vec::new(alloc))
}

// Counts a suspect that is not told.
fn count_untold(untold: &mut Remainder, progress: Progress) {
    match progress {
        Progress::Running => untold.running = u64::saturating_add(untold.running, 1),
        Progress::Failed => untold.failed = u64::saturating_add(untold.failed, 1),
        Progress::ToRun => untold.to_run = u64::saturating_add(untold.to_run, 1),
    }
}

// What a failed command is told by: its run, its suspects, and what it printed.
#[derive(Clone, Copy)]
struct Told<'a, 'b> {
    failure: &'b rev_suspects::Failure,
    suspects: &'b [rev_suspects::Suspect],
    entry: Option<&'a Entry>,
    // How many suspects are told that its error does not name.
    most: usize,
    // Whether suspects were looked for.
    is_looked: bool,
    // Whether the makers of what it looked at in vain have findings of their own.
    is_searched: bool,
}

// The names of suspects without those that an observation clears: a failed command that was seen whole and did not look
// for a file did not fail for want of it.
fn without_cleared<'a>(
    alloc: Global,
    watched: Option<&Watched<'_>>,
    user: u32,
    names: &[Option<&'a Name>],
) -> Result<Vec<Option<&'a Name>>, AllocError> {
    let mut left = Vec::new(alloc);
    for name in names {
        left.push(match (watched, *name) {
            (Some(watched), Some(path)) => {
                if watched.is_cleared(alloc, user, path)? {
                    None
                } else {
                    Some(path)
                }
            }
            (_, name) => name,
        })?;
    }
    Ok(left)
}

// The makers of what the command of an edge looked at and nobody left, where there is an observation.
fn absent_makers(
    alloc: Global,
    graph: &Graph,
    watched: Option<&Watched<'_>>,
    user: u32,
) -> Result<IndexMap<u32, ()>, AllocError> {
    match watched {
        Some(watched) => watched.absent_makers(alloc, graph, user),
        None => Ok(IndexMap::new(alloc)),
    }
}

// Whether an observation shows a race of a suspect, which then stands among its findings. `absent` has the makers of what
// the failed command looked at and nobody left.
fn is_shown(
    watched: Option<&Watched<'_>>,
    absent: &IndexMap<u32, ()>,
    user: u32,
    maker: u32,
) -> bool {
    if absent.contains_key(&maker) {
        return true;
    }
    match watched {
        Some(watched) => watched.is_told(user, maker),
        None => false,
    }
}

// Adds the suspects of a command that failed: those that its error names to the races, and the others as far as they
// are told, without those of which an observation shows a race. Gives what is left of them. Where a suspect had failed
// and an observation shows its race, that race says more than the error: which way the file was looked for.
fn add_suspects<'a>(
    builds: &'a [Build],
    watched: Option<&Watched<'_>>,
    absent: &IndexMap<u32, ()>,
    told: Told<'a, '_>,
    names: &[Option<&'a Name>],
    races: &mut Vec<RaceFinding<'a>>,
    others: &mut Vec<Suspect<'a>>,
) -> Result<Remainder, AllocError> {
    let mut untold = Remainder {
        running: 0,
        failed: 0,
        to_run: 0,
    };
    for (place, suspect) in told.suspects.iter().enumerate() {
        let shown = is_shown(watched, absent, told.failure.edge, suspect.maker);
        match names.get(place) {
            _ if shown && suspect.progress == Progress::Failed => {}
            Some(Some(path)) => races.push(RaceFinding {
                kind: Kind::Race,
                maker: suspect.maker,
                user: told.failure.edge,
                path: *path,
                basis: None,
                evidence: Evidence::Error(suspect.progress),
                mend: orderable_output(builds, suspect.maker),
            })?,
            _ if shown => {}
            _ if others.len() < told.most => others.push(Suspect {
                maker: suspect.maker,
                progress: suspect.progress,
                mend: orderable_output(builds, suspect.maker),
            })?,
            _ => count_untold(&mut untold, suspect.progress),
        }
    }
    Ok(untold)
}

// Tells a command that failed. What its error names goes to the races.
fn told_failure<'a>(
    alloc: Global,
    graph: &'a Graph,
    builds: &'a [Build],
    components: &LastComponents,
    watched: Option<&Watched<'_>>,
    told: Told<'a, '_>,
    races: &mut Vec<RaceFinding<'a>>,
) -> Result<Failure<'a>, AllocError>
    requires { AreLastComponents graph.now.manifest.builds components.now }
{
    let before = races.len();
    let names = names_in(alloc, graph, components, told.entry, told.suspects)?;
    let names = without_cleared(alloc, watched, told.failure.edge, &names)?;
    let searched = if told.is_searched { watched } else { None };
    let absent = absent_makers(alloc, graph, searched, told.failure.edge)?;
    let mut others = Vec::new(alloc);
    let untold = add_suspects(builds, watched, &absent, told, &names, races, &mut others)?;
    Ok(Failure {
        edge: told.failure.edge,
        number: told.failure.number,
        command: command_of(graph, told.failure.edge),
        printed: told.entry.map(printed_in),
        named: races.len().saturating_sub(before),
        others,
        untold: if told.is_looked { Some(untold) } else { None },
    })
}

// The command of an edge; empty where there is no such edge.
fn command_of<'a>(graph: &'a Graph, edge: u32) -> &'a [u8] {
    if edge < graph.edges() {
        return graph.command(edge);
    }
    b""
}

// The suspects of a run that failed, and those of later runs.
fn split_of<'b>(
    failure: &rev_suspects::Failure,
    suspects: &'b [rev_suspects::Suspect],
) -> (&'b [rev_suspects::Suspect], &'b [rev_suspects::Suspect]) {
    let count = suspects
        .iter()
        .take_while(|suspect| suspect.failed == failure.number)
        .count();
    suspects.split_at(count)
}

// Adds the commands that failed, with what they printed, whose entries stand at these places. What their errors name is
// added to the races.
fn add_failures<'a>(
    alloc: Global,
    graph: &'a Graph,
    builds: &'a [Build],
    components: &LastComponents,
    watched: Option<&Watched<'_>>,
    failed: &Failed,
    entries: &'a [Entry],
    places: &mut IndexMap<u32, Vec<usize>>,
    races: &mut Vec<RaceFinding<'a>>,
    failures: &mut Vec<Failure<'a>>,
) -> Result<(), AllocError>
    requires { AreLastComponents graph.now.manifest.builds components.now }
{
    let most = most_told(graph.edges(), failed.runs.len());
    let mut rest = failed.suspects.as_slice();
    for (place, failure) in failed.runs.iter().enumerate() {
        let (suspects, later) = split_of(failure, rest);
        rest = later;
        let told = Told {
            failure,
            suspects,
            entry: next_entry(entries, places, failure.edge),
            most,
            is_looked: place < failed.looked,
            is_searched: place < MOST_FAILED,
        };
        failures.push(told_failure(alloc, graph, builds, components, watched, told, races)?)?;
    }
    Ok(())
}

// What is seen of commands, where there is an observation.
fn watched_by<'s>(
    alloc: Global,
    sight: Option<&'s Sight>,
) -> Result<Option<Watched<'s>>, AllocError> {
    match sight {
        Some(sight) => Ok(Some(Watched::new(alloc, sight)?)),
        None => Ok(None),
    }
}

// The commands that failed, with what they printed. What their errors name is added to the races.
fn told_failures<'a>(
    alloc: Global,
    graph: &'a Graph,
    builds: &'a [Build],
    sight: Option<&Sight>,
    failed: &Failed,
    entries: &'a [Entry],
    races: &mut Vec<RaceFinding<'a>>,
) -> Result<Vec<Failure<'a>>, AllocError> {
    let mut told = Vec::new(alloc);
    if !failed.runs.is_empty() {
        let watched = watched_by(alloc, sight)?;
        let components = last_components(alloc, graph)?;
        let mut places = places_of(alloc, entries)?;
        add_failures(
            alloc,
            graph,
            builds,
            &components,
            watched.as_ref(),
            failed,
            entries,
            &mut places,
            races,
            &mut told,
        )?;
    }
    Ok(told)
}

// Whether a race by a list of before is among those that errors name, each by its user and its maker. A path in the
// folder of the build and its name there are one file.
fn is_named(named: &IndexMap<u64, &Name>, folder: &[u8], race: &RaceFinding<'_>) -> bool {
    match (race.evidence, named.get(&pair_key(race.user, race.maker))) {
        (Evidence::Earlier(_), Some(path)) => is_one_file(folder, *path, race.path),
        _ => false,
    }
}

/// The races and the failed commands.
#[derive(Drop)]
pub struct Findings<'a> {
    /// The races by lists, and then those that errors name. One that is both stands here once, as the error names it.
    pub races: Vec<RaceFinding<'a>>,
    /// The commands that failed.
    pub failures: Vec<Failure<'a>>,
}

// Gives each race that an error names the path that its maker's first names have. The paths come by user and maker.
fn paths_within<'a>(
    alloc: Global,
    builds: &'a [Build],
    folder: &[u8],
    named: &mut [RaceFinding<'a>],
) -> Result<IndexMap<u64, &'a Name>, AllocError> {
    let mut paths = IndexMap::new(alloc);
    for race in named.iter_mut() {
        race.path = path_within(builds, folder, race.maker, race.path);
        paths.insert(pair_key(race.user, race.maker), race.path)?;
    }
    Ok(paths)
}

// Adds the races that errors name to those by lists, of which those go that an error names too.
fn join_named<'a>(
    alloc: Global,
    builds: &'a [Build],
    folder: &[u8],
    named: &mut [RaceFinding<'a>],
    races: &mut Vec<RaceFinding<'a>>,
) -> Result<(), AllocError> {
    let paths = paths_within(alloc, builds, folder, named)?;
    races.retain(|race| !is_named(&paths, folder, race));
    races.extend_from_slice(named)
}

/// The findings of a history, whose manifest has these edges and was read from these files, with what its failed
/// commands printed.
pub fn findings_in<'a>(
    alloc: Global,
    history: &'a History,
    builds: &'a [Build],
    files: &[Name],
    entries: &'a [Entry],
    sight: Option<&Sight>,
) -> Result<Findings<'a>, AllocError> {
    let graph = history.graph();
    let folder = build_folder(graph);
    let failed = failed_in(alloc, history, files)?;
    let mut named = Vec::new(alloc);
    let failures = told_failures(alloc, graph, builds, sight, &failed, entries, &mut named)?;
    let mut races = listed_races(alloc, history, builds, files, &failed, folder)?;
    join_named(alloc, builds, folder, &mut named, &mut races)?;
    Ok(Findings { races, failures })
}

// An edge by its number.
fn number_of(place: usize) -> Option<u32> {
    u32::try_from(place).ok()
}

// Adds the edges that have their file of a kind where an earlier one has its own, each with the first that has.
fn push_clashes(
    told: &mut Vec<Clash>,
    alloc: Global,
    kind: SideFile,
    builds: &[Build],
) -> Result<(), AllocError> {
    for clash in &clashes(alloc, kind, builds)? {
        if let (Some(first), Some(other)) = (number_of(clash.first), number_of(clash.other)) {
            told.push(Clash { kind, first, other })?;
        }
    }
    Ok(())
}

/// The edges that have their depfile where an earlier one has its own, each with the first that has it there, and then
/// the same of response files.
pub(crate) fn told_clashes(alloc: Global, builds: &[Build]) -> Result<Vec<Clash>, AllocError> {
    let mut told = Vec::new(alloc);
    push_clashes(&mut told, alloc, SideFile::Depfile, builds)?;
    push_clashes(&mut told, alloc, SideFile::ResponseFile, builds)?;
    Ok(told)
}

// The first of some edges, at most as many as are told of one change.
fn first_edges(alloc: Global, numbers: &[u32]) -> Result<Vec<u32>, AllocError> {
    let mut edges = Vec::new(alloc);
    for number in numbers.iter().take(Change::MOST) {
        edges.push(*number)?;
    }
    Ok(edges)
}

// Whether an edge keeps a list of what its command read, and has one.
fn has_list(history: &History, edge: u32) -> bool {
    edge < history.graph().edges() && listed(history, edge).is_some()
}

// Whether a command that ran at a change is told before another: one without a list of what it read, since most with
// one compile, and then the one that ended sooner. One that did not end has no number of an end.
fn is_before(one: (bool, Option<u32>), other: (bool, Option<u32>)) -> bool {
    let (has_list, ended) = one;
    let (other_list, other_ended) = other;
    if has_list != other_list {
        return other_list;
    }
    match (ended, other_ended) {
        (Some(ended), Some(other_ended)) => ended < other_ended,
        (ended, _) => ended.is_some(),
    }
}

// Of the commands that ran at a change the one that is told by its name.
fn first_of<'a>(history: &History, sources: &Sources<'a>, ran: &[u32]) -> Option<Edge<'a>> {
    let mut first: Option<Edge<'a>> = None;
    let mut first_key = (true, None);
    for number in ran {
        let edge = sources.edge(*number);
        let key = (has_list(history, *number), edge.ended);
        if first.is_none() || is_before(key, first_key) {
            first = Some(edge);
            first_key = key;
        }
    }
    first
}

/// The changed files that give hints. `names` has the other names of outputs, and `whole` the edges whose commands were
/// observed whole: where that is so of the user and of all that ran, the observation tells who wrote the file.
pub fn told_changes<'a>(
    alloc: Global,
    history: &'a History,
    sources: &Sources<'a>,
    names: &IndexMap<Name, Name>,
    whole: &[bool],
) -> Result<Vec<Change<'a>>, AllocError> {
    let mut told = Vec::new(alloc);
    for hint in &change_hints(alloc, history, names)? {
        if are_whole(whole, hint.user, &hint.ran) {
            continue;
        }
        if let Some(path) = listed_path(history, hint.user, hint.place) {
            told.push(Change {
                at: hint.number,
                commands: hint.ran.len() as u64,
                path: Shown(path.as_bytes()),
                first: first_of(history, sources, &hint.ran),
                ran: first_edges(alloc, &hint.ran)?,
                user: sources.edge(hint.user),
            })?;
        }
    }
    Ok(told)
}

/// The trace of a build from nothing in which a user starts before a maker. None where the user waits for it.
pub fn witness_of(
    alloc: Global,
    graph: &Graph,
    user: u32,
    maker: u32,
) -> Result<Option<Vec<u8>>, AllocError> {
    match find_witness(alloc, graph, user, maker)? {
        Some(found) => Ok(Some(witness_text(alloc, &found)?)),
        None => Ok(None),
    }
}
