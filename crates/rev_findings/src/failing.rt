//! What an observation shows of commands that failed: makers of what they looked at, and suspects that it clears.
use crate::found::orderable_output;
use crate::seen::Sight;
use indexmap::IndexMap;
use rev_conflicts::{Change, Look, Place, does, look_at, numbers};
use rev_conflicts_text::{Finding, Kind, Mending, Reached};
use rev_graph::{Graph, edges_among};
use rev_history::History;
use rev_manifest::Build;
use rev_observed::{Command, Kind as Use, Observation};
use rev_paths::Name;
use rev_races_text::RaceFinding;
use rev_suspects::failures;
use std::alloc::{AllocError, Global};

/// Of how many failed commands the makers of what they looked at are looked for: each takes a search of the graph.
pub(crate) const MOST_FAILED: usize = 64;

/// What is seen of the commands of edges.
pub(crate) struct Watched<'s> {
    sight: &'s Sight,
    // The place of the command of each edge.
    places: IndexMap<u32, usize>,
    // The users and makers of conflicts.
    pairs: IndexMap<u64, ()>,
}

impl Drop for Watched<'_> {
    fn drop(self) {
        let Watched {
            sight: _sight,
            places: _places,
            pairs: _pairs,
        } = self;
    }
}

// A user and a maker as one number.
fn pair_key(user: u32, maker: u32) -> u64 {
    u64::from(user) << 32 | u64::from(maker)
}

// Whether a command looked at a file.
fn looks_at(command: &Command, path: u64) -> bool {
    look_at(command, Place::File(path)).is_some()
}

// The folder of a path, without its slash; none where the path has no slash.
fn folder_of(path: &[u8]) -> Option<&[u8]> {
    let mut last = None;
    for (place, byte) in path.iter().enumerate() {
        if *byte == b'/' {
            last = Some(place);
        }
    }
    Some(path.split_at(last?.min(path.len())).0)
}

// Whether a command listed the folder that has a path.
fn lists_folder(
    alloc: Global,
    observation: &Observation,
    command: &Command,
    path: &Name,
) -> Result<bool, AllocError> {
    let folder = folder_of(path.as_bytes()).unwrap_or(b".");
    let folder = match Name::new(alloc, folder) {
        Ok(folder) => folder,
        Err(rev_paths::PathFault::Memory) => return Err(AllocError),
        Err(_) => return Ok(true),
    };
    match observation.paths().find(&folder) {
        Some(number) => Ok(does(command, Use::Lists, number)),
        None => Ok(false),
    }
}

impl<'s> Watched<'s> {
    /// What is seen by an observation.
    ///
    /// # Errors
    /// [`AllocError`] only where an allocation was refused.
    pub(crate) fn new(alloc: Global, sight: &'s Sight) -> Result<Watched<'s>, AllocError> {
        let mut places = IndexMap::new(alloc);
        for (place, edge) in sight.observed.edges.iter().enumerate() {
            places.insert(*edge, place)?;
        }
        let mut pairs = IndexMap::new(alloc);
        for conflict in &sight.conflicts {
            pairs.insert(pair_key(conflict.user, conflict.maker), ())?;
        }
        Ok(Watched {
            sight,
            places,
            pairs,
        })
    }

    // The command of an edge.
    fn command(&self, edge: u32) -> Option<&'s Command> {
        let place = *self.places.get(&edge)?;
        self.sight.observed.observation.commands().get(place)
    }

    /// The makers of what the command of an edge looked at and nobody left.
    ///
    /// # Errors
    /// [`AllocError`] only where an allocation was refused.
    pub(crate) fn absent_makers(
        &self,
        alloc: Global,
        graph: &Graph,
        user: u32,
    ) -> Result<IndexMap<u32, ()>, AllocError> {
        let mut makers = IndexMap::new(alloc);
        for wanted in &wanted_by(alloc, graph, self, user)? {
            makers.insert(wanted.maker, ())?;
        }
        Ok(makers)
    }

    /// Whether an observation shows that a user looked at what a maker leaves or takes away.
    pub(crate) fn is_told(&self, user: u32, maker: u32) -> bool {
        self.pairs.contains_key(&pair_key(user, maker))
    }

    /// Whether a failed command did not fail for want of a file: it was observed whole, did not look at the file, and did
    /// not list its folder.
    ///
    /// # Errors
    /// [`AllocError`] only where an allocation was refused.
    pub(crate) fn is_cleared(
        &self,
        alloc: Global,
        user: u32,
        path: &Name,
    ) -> Result<bool, AllocError> {
        let Some(command) = self.command(user) else {
            return Ok(false);
        };
        if !command.flags().is_whole() {
            return Ok(false);
        }
        let observation = &self.sight.observed.observation;
        if let Some(number) = observation.paths().find(path) {
            if looks_at(command, number) {
                return Ok(false);
            }
        }
        Ok(!lists_folder(alloc, observation, command, path)?)
    }
}

// What a failed command looked at that an edge makes which did not leave it.
#[derive(Clone, Copy)]
struct Wanted {
    maker: u32,
    path: u64,
    look: Look,
}

// The edge with a command that makes a path, and does not leave it in an observation.
fn absent_maker(graph: &Graph, watched: &Watched<'_>, user: u32, path: u64) -> Option<u32> {
    let paths = watched.sight.observed.observation.paths();
    if path >= paths.len() {
        return None;
    }
    let maker = graph.producer(paths.path(path))?;
    if maker == user || maker >= graph.edges() || graph.is_phony(maker) {
        return None;
    }
    match watched.command(maker) {
        Some(command) if does(command, Use::Writes, path) => None,
        _ => Some(maker),
    }
}

// Adds what a failed command looked at in one way, by the paths of a kind.
fn add_wanted(
    alloc: Global,
    graph: &Graph,
    watched: &Watched<'_>,
    user: u32,
    command: &Command,
    kind: Use,
    look: Look,
    wanted: &mut Vec<Wanted>,
) -> Result<(), AllocError> {
    for path in &numbers(alloc, command.paths(kind))? {
        if let Some(maker) = absent_maker(graph, watched, user, *path) {
            wanted.push(Wanted {
                maker,
                path: *path,
                look,
            })?;
        }
    }
    Ok(())
}

// What the command of an edge looked at that no command left.
fn wanted_by(
    alloc: Global,
    graph: &Graph,
    watched: &Watched<'_>,
    user: u32,
) -> Result<Vec<Wanted>, AllocError> {
    let mut wanted = Vec::new(alloc);
    if let Some(command) = watched.command(user) {
        add_wanted(
            alloc,
            graph,
            watched,
            user,
            command,
            Use::Reads,
            Look::Read,
            &mut wanted,
        )?;
        add_wanted(
            alloc,
            graph,
            watched,
            user,
            command,
            Use::Misses,
            Look::Miss,
            &mut wanted,
        )?;
    }
    Ok(wanted)
}

// The edges that make inputs of each edge, and against these steps.
#[derive(Drop)]
struct Ways {
    steps: Vec<Vec<u32>>,
    back: Vec<Vec<u32>>,
}

impl Ways {
    // The steps of a graph, in both directions.
    fn new(alloc: Global, graph: &Graph) -> Result<Ways, AllocError> {
        let mut steps = Vec::new(alloc);
        let mut back: Vec<Vec<u32>> = Vec::new(alloc);
        for edge in 0..graph.edges() {
            steps.push(edges_among(alloc, graph.producers(edge))?)?;
            back.push(Vec::new(alloc))?;
        }
        for edge in 0..graph.edges() {
            for producer in &edges_among(alloc, graph.producers(edge))? {
                if let Some(waiting) = back.get_mut(*producer as usize) {
                    waiting.push(edge)?;
                }
            }
        }
        Ok(Ways { steps, back })
    }
}

// The users and makers of races that errors name.
fn named_pairs(alloc: Global, races: &[RaceFinding<'_>]) -> Result<IndexMap<u64, ()>, AllocError> {
    let mut pairs = IndexMap::new(alloc);
    for race in races {
        pairs.insert(pair_key(race.user, race.maker), ())?;
    }
    Ok(pairs)
}

// The finding of a failed command that looked at what its maker did not leave.
fn finding_of<'a>(
    builds: &'a [Build],
    user: u32,
    kind: Kind,
    wanted: Wanted,
    path: &'a Name,
) -> Finding<'a> {
    Finding {
        kind,
        maker: wanted.maker,
        user,
        path,
        look: wanted.look,
        change: Change::Output,
        story: None,
        output: orderable_output(builds, wanted.maker),
        listed: None,
        mending: Mending::PLAIN,
    }
}

// Adds the findings of one failed command, unless races are told of the same two.
fn add_findings<'a>(
    alloc: Global,
    graph: &Graph,
    builds: &'a [Build],
    ways: &Ways,
    observation: &'a Observation,
    watched: &Watched<'_>,
    named: &IndexMap<u64, ()>,
    user: u32,
    findings: &mut Vec<Finding<'a>>,
) -> Result<(), AllocError> {
    let wanted = wanted_by(alloc, graph, watched, user)?;
    if wanted.is_empty() {
        return Ok(());
    }
    let waited = Reached::new(alloc, &ways.steps, user)?;
    let waiting = Reached::new(alloc, &ways.back, user)?;
    for one in &wanted {
        let is_told = named.contains_key(&pair_key(user, one.maker));
        if is_told || waited.has(one.maker) || one.path >= observation.paths().len() {
            continue;
        }
        let kind = if waiting.has(one.maker) {
            Kind::Cycle
        } else {
            Kind::Race
        };
        let path = observation.paths().path(one.path);
        findings.push(finding_of(builds, user, kind, *one, path))?;
    }
    Ok(())
}

/// Adds what commands that failed looked at though its maker did not leave it: it did not run, or failed too. Where the
/// maker waits for the command, no order mends that. What a report tells of the same two commands stays as it is.
///
/// # Errors
/// [`AllocError`] only where an allocation was refused.
pub(crate) fn add_absent<'a>(
    alloc: Global,
    history: &History,
    builds: &'a [Build],
    sight: &'a Sight,
    races: &[RaceFinding<'_>],
    findings: &mut Vec<Finding<'a>>,
) -> Result<(), AllocError> {
    let failed = failures(alloc, history)?;
    if failed.is_empty() {
        return Ok(());
    }
    let graph = history.graph();
    let ways = Ways::new(alloc, graph)?;
    let watched = Watched::new(alloc, sight)?;
    let named = named_pairs(alloc, races)?;
    let observation = &sight.observed.observation;
    for failure in failed.iter().take(MOST_FAILED) {
        add_findings(
            alloc,
            graph,
            builds,
            &ways,
            observation,
            &watched,
            &named,
            failure.edge,
            findings,
        )?;
    }
    findings.sort_by_key(|finding| pair_key(finding.maker, finding.user))?;
    Ok(())
}
