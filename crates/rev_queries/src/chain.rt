//! What the end of a build waited for.
ghost use Rattle.std.specs.Prelude.{◌≡◌, ◌<◌, ◌++◌, ◌∷◌, [], ℕ, if◌then◌else◌, length, IfOk, IfSome, IsSome, None, OnOk};
ghost use Rattle.rev_graph.specs.Graph.{successor_lists};
ghost use Rattle.rev_ranks.specs.Graph.{graph_of};
ghost use Rattle.rev_ranks.specs.Sets.{is_marked};
ghost use Rattle.rev_queries.specs.Critical.{AreWithin, IsChain, IsLink, is_later as is_later_of, is_recent as is_recent_of, later_of, latest_from, latest_of, recent_of};

use crate::times::Timed;
use rev_graph::Graph;
use rev_waits::{steps, waited_for};
use std::alloc::{AllocError, Global};

/// The chain of commands that the end of a build waited for.
pub struct Chain {
    /// The runs, from the one that ended last.
    pub links: Vec<Timed>,
    /// The run by which the chain goes on, where it has more of them than were asked for.
    pub next: Option<Timed>,
}

// Written, since a derived drop is proved again at each exit of each caller.
impl Drop for Chain {
    fn drop(self) {
        let Chain {
            links: _links,
            next: _next,
        } = self;
    }
}

// Whether a run is one of the last build.
fn is_recent(graph: &Graph, plan: u32, run: &Timed) -> bool
    ensures { result ≡ is_recent_of graph.now.manifest.builds plan run.now }
{
    plan < run.began && run.edge < graph.edges()
}

// Adds a run that passes.
fn add_where(runs: &mut Vec<Timed>, run: Timed, passes: bool) -> Result<(), AllocError>
    ensures { OnOk result (runs.new.items ≡ runs.old.items ++ (if passes then run ∷ [] else [])) }
{
    if passes {
        runs.push(run)?;
    }
    Ok(())
}

// The runs of the last build.
fn recent(alloc: Global, graph: &Graph, runs: &[Timed], plan: u32) -> Result<Vec<Timed>, AllocError>
    ensures recent { IfOk result (λ recent. recent.items ≡ recent_of graph.now.manifest.builds plan runs.now) }
    ensures within { IfOk result (λ recent. AreWithin (length graph.now.manifest.builds) recent.items) }
{
    let mut recent = Vec::new(alloc);
    for run in runs {
        add_where(&mut recent, *run, is_recent(graph, plan, run))?;
    }
    Ok(recent)
}

// Whether one run ended after another.
fn is_later(one: Timed, other: Timed) -> bool
    ensures { result ≡ is_later_of one other }
{
    other.to < one.to || (one.to == other.to && other.ended < one.ended)
}

// The last to end of a run and of the last one before it, where it passes.
fn later(best: Option<Timed>, run: Timed, passes: bool) -> Option<Timed>
    ensures { result ≡ (if passes then later_of best run else best) }
{
    if !passes {
        return best;
    }
    match best {
        None => Some(run),
        Some(best) => {
            if is_later(run, best) {
                Some(run)
            } else {
                Some(best)
            }
        }
    }
}

// The run that ended last.
fn latest(runs: &[Timed]) -> Option<Timed>
    ensures latest { result ≡ latest_of runs.now }
    ensures within { (edges : ℕ) → AreWithin edges runs.now → IfSome result (λ r. r.edge < edges) }
{
    let mut best = None;
    for run in runs {
        best = later(best, *run, true);
    }
    best
}

// Whether an edge has a mark.
fn has_mark(marks: &[bool], edge: u32) -> bool
    ensures { result ≡ is_marked marks.now edge }
{
    marks.get(edge as usize).copied().unwrap_or(false)
}

// The last to end of the runs whose edges have a mark.
fn latest_marked(runs: &[Timed], marks: &[bool]) -> Option<Timed>
    ensures latest { result ≡ latest_from (λ r. is_marked marks.now r.edge) None runs.now }
    ensures within { (edges : ℕ) → AreWithin edges runs.now → IfSome result (λ r. r.edge < edges) }
{
    let mut best = None;
    for run in runs {
        best = later(best, *run, has_mark(marks, run.edge));
    }
    best
}

// The run by which a chain goes on from an edge.
fn link(
    alloc: Global,
    graph: &Graph,
    steps: &[Vec<u32>],
    runs: &[Timed],
    edge: u32,
) -> Result<Option<Timed>, AllocError>
    requires edge { edge < length graph.now.manifest.builds }
    requires steps { graph_of steps.now ≡ successor_lists graph.now.manifest.builds }
    ensures link { IfOk result (λ next. IsLink graph.now.manifest.builds runs.now edge next) }
    ensures within { (edges : ℕ) → AreWithin edges runs.now → IfOk result (λ next. IfSome next (λ r. r.edge < edges)) }
{
    let marks = waited_for(alloc, graph, steps, edge)?;
    Ok(latest_marked(runs, &marks))
}

// The chain from the run that ended last, with at most so many links.
fn chain_of(alloc: Global, graph: &Graph, runs: &[Timed], most: u32) -> Result<Chain, AllocError>
    requires { AreWithin (length graph.now.manifest.builds) runs.now }
    ensures chain { IfOk result (λ chain. IsChain graph.now.manifest.builds runs.now chain.links.items chain.next) }
    ensures whole { IfOk result (λ chain. IsSome chain.next → length chain.links.items ≡ most) }
{
    let steps = steps(alloc, graph)?;
    let mut links = Vec::new(alloc);
    let mut next = latest(runs);
    for place in 0..most {
        let Some(run) = next else {
            break;
        };
        next = link(alloc, graph, &steps, runs, run.edge)?;
        links.push(run)?;
    }
    Ok(Chain { links, next })
}

/// The chain of commands that the end of a build waited for, with at most so many links. Its first link is the run that
/// ended last. The next link is, among the edges that the first one waits for, the run that ended last; and so on.
/// `runs` are those with times; of them count those that began after the plan of a number. It takes time linear in
/// edges and inputs for each link.
///
/// # Errors
/// [`AllocError`] only where an allocation was refused.
pub fn critical(
    alloc: Global,
    graph: &Graph,
    runs: &[Timed],
    plan: u32,
    most: u32,
) -> Result<Chain, AllocError>
    ensures chain { IfOk result (λ chain. IsChain graph.now.manifest.builds
        (recent_of graph.now.manifest.builds plan runs.now) chain.links.items chain.next) }
    ensures whole { IfOk result (λ chain. IsSome chain.next → length chain.links.items ≡ most) }
{
    let recent = recent(alloc, graph, runs, plan)?;
    chain_of(alloc, graph, &recent, most)
}
