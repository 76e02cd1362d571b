//! Which edges each edge steps to.
ghost use Rattle.std.specs.Prelude.{◌≡◌, ◌<◌, ◌≤◌, ◌++◌, [], map, length, vec_len, IfOk, if◌then◌else◌};
ghost use Rattle.std.specs.List.{All, filter_map};
ghost use Rattle.rev_graph.specs.Graph.{build_at, producer_of};
ghost use Rattle.rev_ranks.specs.Graph.{graph_of};
ghost use Rattle.rev_cells.specs.State.{State};
ghost use Rattle.rev_dirty.specs.Inputs.{producers_in};
ghost use Rattle.rev_plan.specs.Plan.{edges_by};
ghost use Rattle.rev_plan.specs.Steps.{paths_along, order_only_of, validations_of, steps_with, AreListed, IsSubgraph};

use rev_cells::Cells;
use rev_dirty::listed_inputs;
use rev_graph::{Graph, edges_among};
use rev_paths::Name;
use std::alloc::{AllocError, Global};

/// The paths by which edges step to the edges that produce them.
#[derive(Clone, Copy)]
pub(crate) enum Along {
    /// The inputs of all kinds.
    Inputs,
    /// The inputs that are not order-only.
    Counted,
    /// The inputs of all kinds, and the validations.
    Needs,
}

/// The edges that produce paths.
pub(crate) fn producers_of(
    alloc: Global,
    graph: &Graph,
    paths: &[Name],
) -> Result<Vec<u32>, AllocError>
    ensures { IfOk result (λ edges. edges.items ≡ producers_in graph.now.manifest.builds paths.now) }
{
    paths
        .iter()
        .filter_map(|path| graph.producer(path))
        .collect(alloc)
}

/// For the explicit and implicit inputs of an edge, and for the order-only ones, the edges that produce them.
pub(crate) fn line_producers(graph: &Graph, edge: u32) -> (&[Option<u32>], &[Option<u32>])
    requires { edge < length graph.now.manifest.builds }
    ensures counted { result.0.now ≡ map (producer_of graph.now.manifest.builds)
        ((build_at graph.now.manifest.builds edge).explicit
        ++ (build_at graph.now.manifest.builds edge).implicit) }
    ensures order_only { result.1.now ≡ map (producer_of graph.now.manifest.builds)
        (build_at graph.now.manifest.builds edge).order_only }
{
    let producers = graph.producers(edge);
    let order_only = graph.inputs(edge).order_only.len();
    producers.split_at(producers.len() - order_only)
}

// The producers of order-only inputs, where edges step along these.
fn order_only_along(along: Along, producers: &[Option<u32>]) -> &[Option<u32>]
    ensures { result.now ≡ order_only_of along producers.now }
{
    match along {
        Along::Counted => &[],
        Along::Inputs | Along::Needs => producers,
    }
}

// The validations of an edge, where edges step along these.
fn validations_along(graph: &Graph, edge: u32, along: Along) -> &[Name]
    requires { edge < length graph.now.manifest.builds }
    ensures { result.now ≡ validations_of along (build_at graph.now.manifest.builds edge) }
{
    match along {
        Along::Inputs | Along::Counted => &[],
        Along::Needs => graph.validations(edge),
    }
}

/// For each edge the edges that produce what its deps record lists. Each listed path is looked up once.
pub(crate) fn listed_among(
    alloc: Global,
    graph: &Graph,
    cells: &Cells,
) -> Result<Vec<Vec<u32>>, AllocError>
    ensures listed { IfOk result (λ listed.
        AreListed graph.now.manifest.builds cells.now.state (graph_of listed.items)) }
    ensures each { IfOk result (λ listed. vec_len listed ≡ length graph.now.manifest.builds) }
{
    let mut all = Vec::with_capacity(alloc, graph.edges() as usize)?;
    for edge in 0..graph.edges() {
        all.push(producers_of(alloc, graph, listed_inputs(graph, cells, edge))?)?;
    }
    Ok(all)
}

// The edges that an edge steps to, where `listed` produce what its deps record lists.
fn steps_of(
    alloc: Global,
    graph: &Graph,
    edge: u32,
    listed: &[u32],
    along: Along,
) -> Result<Vec<u32>, AllocError>
    requires { edge < length graph.now.manifest.builds }
    ensures { IfOk result (λ steps. steps.items
        ≡ steps_with along graph.now.manifest.builds listed.now
        (build_at graph.now.manifest.builds edge)) }
{
    let (counted, order_only) = line_producers(graph, edge);
    let mut steps = edges_among(alloc, counted)?;
    let order_only = edges_among(alloc, order_only_along(along, order_only))?;
    steps.extend_from_slice(&order_only)?;
    steps.extend_from_slice(listed)?;
    let validations = producers_of(alloc, graph, validations_along(graph, edge, along))?;
    steps.extend_from_slice(&validations)?;
    Ok(steps)
}

// The edges that an edge steps to, or none where it has no mark.
fn steps_where(
    alloc: Global,
    graph: &Graph,
    edge: u32,
    listed: &[u32],
    along: Along,
    is_marked: bool,
) -> Result<Vec<u32>, AllocError>
    requires { edge < length graph.now.manifest.builds }
    ensures { IfOk result (λ steps. steps.items
        ≡ (if is_marked then steps_with along graph.now.manifest.builds listed.now
        (build_at graph.now.manifest.builds edge) else [])) }
{
    if !is_marked {
        return Ok(Vec::new(alloc));
    }
    let steps = steps_of(alloc, graph, edge, listed, along)?;
    Ok(steps)
}

/// For each edge that has a mark the edges that it steps to; the others step nowhere. For each edge `listed` has the
/// edges that produce what its deps record lists.
pub(crate) fn steps_among(
    alloc: Global,
    graph: &Graph,
    listed: &[Vec<u32>],
    marks: &[bool],
    along: Along,
) -> Result<Vec<Vec<u32>>, AllocError>
    requires each { length marks.now ≡ length graph.now.manifest.builds }
    requires listed { length listed.now ≡ length graph.now.manifest.builds }
    requires known { (state : State) × AreListed graph.now.manifest.builds state (graph_of listed.now) }
    requires few { length graph.now.manifest.builds ≤ Graph.MAX_EDGES }
    // The steps are those in each state in which this is listed.
    ensures steps { IfOk result (λ steps. (state : State)
        → AreListed graph.now.manifest.builds state (graph_of listed.now)
        → IsSubgraph (edges_by (paths_along along state) graph.now.manifest.builds)
        marks.now (graph_of steps.items)) }
    ensures inside { IfOk result (λ steps.
        All (λ v. All (λ s. s < length graph.now.manifest.builds) v.items) steps.items) }
    ensures each { IfOk result (λ steps. vec_len steps ≡ length graph.now.manifest.builds) }
{
    let mut all = Vec::with_capacity(alloc, marks.len())?;
    for edge in 0..marks.len() {
        all.push(steps_where(alloc, graph, edge as u32, &listed[edge], along, marks[edge])?)?;
    }
    Ok(all)
}
