//! Questions about edges, files and times.
ghost use Rattle.std.specs.Prelude.{◌≡◌, IfOk, List, map};
ghost use Rattle.std.specs.List.{filter_map};
ghost use Rattle.std.specs.Option.{option_copied, option_map};
ghost use Rattle.rev_prompt.specs.Found.{IsCritical, IsEdgeFound, IsEdges, IsMakes, IsReads, IsRebuilds, IsRefusal, IsSlowest, begun_at as begun_by, changes_of, deeds_in, first_of, last_targets as last_targets_of, looks_at, rebuilt_of as rebuilt_by, refusal_of as refusal_by};
ghost use Rattle.rev_graph.specs.Graph.{producer_of};
ghost use Rattle.rev_prompt.specs.Past.{plan_before};
ghost use Rattle.rev_prompt.specs.Reasons.{because as because_of};
ghost use Rattle.rev_runs.specs.Runs.{runs_of};

use crate::answers::{Answer, Because, Deed};
use crate::events::named_event;
use crate::found::{EdgeFound, Found, Rebuilt};
use crate::past::last_plan;
use crate::query::Query;
use crate::question::EventName;
use crate::reasons::because;
use crate::session::Session;
use crate::spans::last_of;
use crate::users::{observed_readers, observed_writers};
use rev_cells::Cells;
use rev_desk::{Desk, Reply};
use rev_dirty::Reason;
use rev_events::{Event, Refusal};
use rev_graph::Graph;
use rev_history::History;
use rev_observed::Observation;
use rev_paths::Name;
use rev_places::{all_names, names_of_file, own_name};
use rev_plan::PlanFault;
use rev_queries::{
    Rebuild, Timed, critical, edges_like, readings, rebuilds, slowest, timed_runs, users,
};
use rev_runs::{Run, edge_of_event, runs};
use std::alloc::{AllocError, Global};

// The most links of a chain that are told.
const MOST_LINKS: u32 = 1_000;

// The commands that were seen to look at a path; none where nothing was observed.
fn looks(
    alloc: Global,
    history: &History,
    observation: Option<&Observation>,
    edges: &[u32],
    path: &Name,
) -> Result<Option<Vec<Deed>>, AllocError>
    ensures { IfOk result (λ deeds. deeds_in deeds
        ≡ option_map (looks_at history.now.timeline edges.now path.now) (option_copied observation.entry)) }
{
    match observation {
        Some(observation) => Ok(Some(observed_readers(alloc, history, observation, edges, path)?)),
        None => Ok(None),
    }
}

// The commands that were seen to change a path; none where nothing was observed.
fn changes(
    alloc: Global,
    history: &History,
    observation: Option<&Observation>,
    edges: &[u32],
    path: &Name,
) -> Result<Option<Vec<Deed>>, AllocError>
    ensures { IfOk result (λ deeds. deeds_in deeds
        ≡ option_map (changes_of history.now.timeline edges.now path.now) (option_copied observation.entry)) }
{
    match observation {
        Some(observation) => Ok(Some(observed_writers(alloc, history, observation, edges, path)?)),
        None => Ok(None),
    }
}

/// `reads PATH`: which edges have a file as what they read, and which commands were seen to look at it. The file has an
/// own name, by which it was observed, and names by which edges have it.
pub(crate) fn reads(
    alloc: Global,
    history: &History,
    observation: Option<&Observation>,
    edges: &[u32],
    path: &Name,
    own: &Name,
    names: &[Name],
) -> Result<Found, AllocError>
    ensures { IfOk result (λ found. IsReads history.now.timeline (option_copied observation.entry) edges.now path.now
        own.now names.now found) }
{
    let readings = readings(alloc, history, names)?;
    let deeds = looks(alloc, history, observation, edges, own)?;
    Ok(Found::Reads(path.copy()?, readings, deeds))
}

// The edge that has the first of some names which an edge has as an output.
fn first_producer(graph: &Graph, names: &[Name]) -> Option<u32>
    ensures { result ≡ first_of (filter_map (producer_of graph.now.manifest.builds) names.now) }
{
    for name in names {
        if let Some(edge) = graph.producer(name) {
            return Some(edge);
        }
    }
    None
}

/// `makes PATH`: which edge has a file as an output, and which commands were seen to change it. The names of the file are
/// as for [`reads`].
pub(crate) fn makes(
    alloc: Global,
    history: &History,
    observation: Option<&Observation>,
    edges: &[u32],
    path: &Name,
    own: &Name,
    names: &[Name],
) -> Result<Found, AllocError>
    ensures { IfOk result (λ found. IsMakes history.now.timeline (option_copied observation.entry) edges.now path.now
        own.now names.now found) }
{
    let deeds = changes(alloc, history, observation, edges, own)?;
    let producer = first_producer(history.graph(), names);
    Ok(Found::Makes(path.copy()?, producer, deeds))
}

// `reads PATH` of a session, by all names of the file.
fn reads_in(
    alloc: Global,
    session: &Session<'_>,
    history: &History,
    path: &Name,
) -> Result<Found, AllocError> {
    let names = names_of_file(alloc, session.names, path)?;
    let own = own_name(session.names, path);
    let (observation, edges) = (session.observation, session.edges);
    reads(alloc, history, observation, edges, path, own, &names)
}

// `makes PATH` of a session, by all names of the file.
fn makes_in(
    alloc: Global,
    session: &Session<'_>,
    history: &History,
    path: &Name,
) -> Result<Found, AllocError> {
    let names = names_of_file(alloc, session.names, path)?;
    let own = own_name(session.names, path);
    let (observation, edges) = (session.observation, session.edges);
    makes(alloc, history, observation, edges, path, own, &names)
}

// The edge of an event or of an output, or what is answered where there is none.
fn edge_named(desk: &Desk, name: &EventName) -> Result<Result<u32, Answer>, AllocError> {
    let history = desk.history();
    if let EventName::Last(out) | EventName::Kind(_, out) = name {
        return match history.graph().producer(out) {
            Some(edge) => Ok(Ok(edge)),
            None => Ok(Err(Answer::NoOutput(out.copy()?))),
        };
    }
    let number = match named_event(desk, name)? {
        Ok(number) => number,
        Err(answer) => return Ok(Err(answer)),
    };
    let edge = match history.event(number) {
        Some(event) => edge_of_event(history.graph(), event),
        None => None,
    };
    match edge {
        Some(edge) => Ok(Ok(edge)),
        None => Ok(Err(Answer::Event(number))),
    }
}

/// What `edge` finds of an edge beside its build line, by the runs of the history: its last kept run, and who waits for
/// it.
pub(crate) fn edge_found(
    alloc: Global,
    history: &History,
    edge: u32,
    runs: &[Run],
) -> Result<EdgeFound, AllocError>
    requires { runs.now ≡ runs_of history.now.timeline }
    ensures { IfOk result (λ told. IsEdgeFound history.now.timeline edge told) }
{
    let run = last_of(runs, edge);
    let users = users(alloc, history.graph(), edge)?;
    Ok(EdgeFound { edge, run, users })
}

/// `edge OUT`: the edge of an output, or of an event, by the runs of the history.
pub(crate) fn edge_by(
    alloc: Global,
    desk: &Desk,
    name: &EventName,
    runs: &[Run],
) -> Result<Answer, AllocError>
    requires { runs.now ≡ runs_of desk.now.history }
{
    match edge_named(desk, name)? {
        Ok(edge) => Ok(Answer::Found(Found::Edge(edge_found(alloc, desk.history(), edge, runs)?))),
        Err(answer) => Ok(answer),
    }
}

// The same of one output or event.
fn edge(alloc: Global, desk: &Desk, name: &EventName) -> Result<Answer, AllocError> {
    let runs = runs(alloc, desk.history())?;
    edge_by(alloc, desk, name, &runs)
}

/// `edges WORD`: the edges with an output that matches a pattern.
pub(crate) fn edges(alloc: Global, graph: &Graph, pattern: &[u8]) -> Result<Found, AllocError>
    ensures { IfOk result (λ found. IsEdges graph.now.manifest.builds pattern.now found) }
{
    Ok(Found::Edges(edges_like(alloc, graph, pattern)?))
}

// A reason of an edge with what it names, where there is one.
fn because_if(
    graph: &Graph,
    cells: &Cells,
    edge: u32,
    reason: Option<Reason>,
) -> Result<Option<Because>, AllocError>
    ensures { IfOk result (λ told. told ≡ option_map (because_of graph.now.manifest.builds cells.now.state edge) reason) }
{
    match reason {
        Some(reason) => Ok(Some(because(graph, cells, edge, reason)?)),
        None => Ok(None),
    }
}

// An edge that would be to do, with what its reason names.
fn rebuilt_of(graph: &Graph, cells: &Cells, rebuild: Rebuild) -> Result<Rebuilt, AllocError>
    ensures { IfOk result (λ rebuilt. rebuilt ≡ rebuilt_by graph.now.manifest.builds cells.now.state rebuild) }
{
    let told = because_if(graph, cells, rebuild.edge, rebuild.reason)?;
    Ok(Rebuilt {
        edge: rebuild.edge,
        because: told,
    })
}

// Edges that would be to do, with what their reasons name.
fn all_rebuilt(
    alloc: Global,
    graph: &Graph,
    cells: &Cells,
    rebuilds: &[Rebuild],
) -> Result<Vec<Rebuilt>, AllocError>
    ensures { IfOk result (λ told. told.items ≡ map (rebuilt_by graph.now.manifest.builds cells.now.state) rebuilds.now) }
{
    let mut told = Vec::new(alloc);
    for rebuild in rebuilds {
        told.push(rebuilt_of(graph, cells, *rebuild)?)?;
    }
    Ok(told)
}

// The refusal that a fault of a plan is; none where memory was refused.
fn refusal_of(fault: PlanFault) -> Option<Refusal>
    ensures { result ≡ refusal_by fault }
{
    match fault {
        PlanFault::Memory => None,
        PlanFault::StillRunning(edge) => Some(Refusal::StillRunning(edge)),
        PlanFault::UnknownTarget(place) => Some(Refusal::UnknownTarget(place)),
        PlanFault::MissingInput(place, edge) => Some(Refusal::MissingInput(place, edge)),
        PlanFault::DepsCycle(edge) => Some(Refusal::DepsCycle(edge)),
    }
}

// What is answered where a plan is refused.
fn refused(fault: PlanFault) -> Result<Answer, AllocError>
    ensures { IfOk result (λ answer. IsRefusal fault answer) }
{
    match refusal_of(fault) {
        Some(refusal) => Ok(Answer::Said(Some(Reply::Refused(refusal)), None)),
        None => Err(AllocError),
    }
}

// The targets of the last kept plan; none where nothing was planned.
fn last_targets(history: &History) -> &[Name]
    ensures { result.now ≡ last_targets_of history.now.timeline }
{
    let Some(plan) = last_plan(history) else {
        return &[];
    };
    match history.event(plan) {
        Some(Event::Plan(targets)) => targets.as_slice(),
        _ => &[],
    }
}

// What would be to do if paths were touched, by a plan for some targets, or why that plan is refused.
fn rebuilds_for(
    alloc: Global,
    history: &History,
    targets: &[Name],
    paths: &[Name],
) -> Result<Answer, AllocError>
    ensures { IfOk result (λ answer. IsRebuilds history.now.timeline targets.now paths.now answer) }
{
    match rebuilds(alloc, history, targets, paths) {
        Ok(rebuilds) => {
            let told = all_rebuilt(alloc, history.graph(), history.cells(), &rebuilds)?;
            Ok(Answer::Found(Found::Rebuilds(told)))
        }
        Err(fault) => refused(fault),
    }
}

/// `rebuilds PATH..`: what would be to do if these paths were touched, by a plan for the targets of the last one.
pub(crate) fn rebuilds_of(
    alloc: Global,
    history: &History,
    paths: &[Name],
) -> Result<Answer, AllocError>
    ensures { IfOk result (λ answer. IsRebuilds history.now.timeline (last_targets_of history.now.timeline) paths.now answer) }
{
    rebuilds_for(alloc, history, last_targets(history), paths)
}

// `rebuilds PATH..` of a session: a file is touched by all of its names.
fn rebuilds_in(
    alloc: Global,
    session: &Session<'_>,
    history: &History,
    paths: &[Name],
) -> Result<Answer, AllocError> {
    let names = all_names(alloc, session.names, paths)?;
    rebuilds_of(alloc, history, &names)
}

// `slowest N`: the runs that took most time.
fn slowest_of(runs: Vec<Timed>, count: u32) -> Result<Found, AllocError>
    ensures { IfOk result (λ found. IsSlowest runs.items count found) }
{
    if runs.is_empty() {
        return Ok(Found::NoTimes);
    }
    let mut runs = slowest(runs)?;
    runs.truncate(count as usize);
    Ok(Found::Slowest(runs))
}

// `slowest N` of a session.
fn slowest_in(
    alloc: Global,
    session: &Session<'_>,
    history: &History,
    count: u32,
) -> Result<Found, AllocError> {
    slowest_of(timed_runs(alloc, history, session.times)?, count)
}

// The number from which runs count as those of the last build.
fn begun_at(plan: Option<u32>) -> u32
    ensures { result ≡ begun_by plan }
{
    match plan {
        Some(plan) => plan,
        None => 0,
    }
}

// `critical`: the chain of commands that the end of the last build waited for.
fn critical_of(alloc: Global, history: &History, runs: &[Timed]) -> Result<Found, AllocError>
    ensures { IfOk result (λ found. IsCritical history.now.timeline.manifest.builds runs.now
        (plan_before history.now.timeline 4294967295) found) }
{
    if runs.is_empty() {
        return Ok(Found::NoTimes);
    }
    let plan = begun_at(last_plan(history));
    let chain = critical(alloc, history.graph(), runs, plan, MOST_LINKS)?;
    Ok(Found::Critical(chain))
}

// `critical` of a session.
fn critical_in(
    alloc: Global,
    session: &Session<'_>,
    history: &History,
) -> Result<Found, AllocError> {
    critical_of(alloc, history, &timed_runs(alloc, history, session.times)?)
}

/// What a question about edges, files and times is answered. The desk is only read.
pub(crate) fn queried(
    alloc: Global,
    session: &Session<'_>,
    desk: &Desk,
    query: &Query,
) -> Result<Answer, AllocError> {
    let history = desk.history();
    let found = match query {
        Query::Edge(name) => return edge(alloc, desk, name),
        Query::Rebuilds(paths) => return rebuilds_in(alloc, session, history, paths),
        Query::Edges(pattern) => edges(alloc, history.graph(), pattern)?,
        Query::Reads(path) => reads_in(alloc, session, history, path)?,
        Query::Makes(path) => makes_in(alloc, session, history, path)?,
        Query::Slowest(count) => slowest_in(alloc, session, history, *count)?,
        Query::Critical => critical_in(alloc, session, history)?,
    };
    Ok(Answer::Found(found))
}
