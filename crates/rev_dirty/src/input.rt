//! What is asked of an edge's inputs.
ghost use Rattle.std.specs.Prelude.{◌≡◌, ◌<◌, ◌++◌, ℕ, map, length, IfOk, IfSome, OnOk};
ghost use Rattle.rev_graph.specs.Graph.{build_at, producer_of};
ghost use Rattle.rev_dirty.specs.Facts.{phony_only, input_facts, facts_of_input};
ghost use Rattle.rev_dirty.specs.Inputs.{inputs, paths_in, deps_record};
ghost use Rattle.rev_dirty.specs.Visible.{line_inputs};
ghost use Rattle.rev_dirty.specs.declared.input.InputKind.TheVariants.{OnLine};

use rev_cells::Cells;
use rev_cells::records::stamp;
use rev_graph::Graph;
use rev_paths::Name;
use std::alloc::{AllocError, Global};

/// Where an input of an edge stands.
#[derive(Clone, Copy, Debug, PartialEq, Eq)]
pub enum InputKind {
    /// On the build line before `||`, as an explicit or an implicit input.
    OnLine,
    /// On the build line after `||`.
    OrderOnly,
    /// In the deps record of the edge's first output.
    Listed,
}

/// What is asked of an input; of an order-only one nothing.
#[derive(Clone, Copy)]
pub(crate) struct Input {
    pub(crate) kind: InputKind,
    /// Its stamp, 0 where it is missing.
    pub(crate) stamp: u64,
    /// Whether an edge produces it.
    pub(crate) produced: bool,
    /// The phony edge through which it is seen, which is the one that produces it where it is missing.
    pub(crate) through: Option<u32>,
}

/// For the explicit, the implicit and the order-only inputs of an edge, the edges that produce them.
#[derive(Clone, Copy)]
pub(crate) struct Producers<'a> {
    pub(crate) explicit: &'a [Option<u32>],
    pub(crate) implicit: &'a [Option<u32>],
    pub(crate) order_only: &'a [Option<u32>],
}

/// The edges that produce the inputs on an edge's build line.
pub(crate) fn line_producers(graph: &Graph, edge: u32) -> Producers<'_>
    requires { edge < length graph.now.manifest.builds }
    ensures explicit { result.explicit.now
        ≡ map (producer_of graph.now.manifest.builds)
        (build_at graph.now.manifest.builds edge).explicit }
    ensures implicit { result.implicit.now
        ≡ map (producer_of graph.now.manifest.builds)
        (build_at graph.now.manifest.builds edge).implicit }
    ensures order_only { result.order_only.now
        ≡ map (producer_of graph.now.manifest.builds)
        (build_at graph.now.manifest.builds edge).order_only }
{
    let inputs = graph.inputs(edge);
    let (explicit, others) = graph.producers(edge).split_at(inputs.explicit.len());
    let (implicit, order_only) = others.split_at(inputs.implicit.len());
    Producers {
        explicit,
        implicit,
        order_only,
    }
}

/// For each path the edge that produces it, if one does.
///
/// # Errors
/// [`AllocError`] only where an allocation was refused.
pub fn producers_of(
    alloc: Global,
    graph: &Graph,
    paths: &[Name],
) -> Result<Vec<Option<u32>>, AllocError>
    ensures { IfOk result (λ producers. producers.items
        ≡ map (producer_of graph.now.manifest.builds) paths.now) }
{
    let mut producers = Vec::with_capacity(alloc, paths.len())?;
    for path in paths {
        producers.push(graph.producer(path))?;
    }
    Ok(producers)
}

/// A path's producer where it is phony, the edge through which the path is seen.
pub fn phony_producer(graph: &Graph, producer: Option<u32>) -> Option<u32>
    requires { IfSome producer (λ edge. edge < length graph.now.manifest.builds) }
    ensures { result ≡ phony_only graph.now.manifest.builds producer }
{
    match producer {
        Some(edge) => {
            if graph.is_phony(edge) {
                Some(edge)
            } else {
                None
            }
        }
        None => None,
    }
}

// What is asked of an input.
fn input_of(
    graph: &Graph,
    cells: &Cells,
    kind: InputKind,
    path: &Name,
    producer: Option<u32>,
) -> Input
    requires { producer ≡ producer_of graph.now.manifest.builds path.now }
    ensures { result ≡ input_facts graph.now.manifest.builds cells.now.state kind path.now }
{
    if kind == InputKind::OrderOnly {
        return Input {
            kind,
            stamp: 0,
            produced: false,
            through: None,
        };
    }
    let stamp = stamp(cells, path);
    let produced = producer.is_some();
    if stamp != 0 {
        return Input {
            kind,
            stamp,
            produced,
            through: None,
        };
    }
    let through = phony_producer(graph, producer);
    Input {
        kind,
        stamp,
        produced,
        through,
    }
}

// Adds what is asked of inputs that stand in one place.
fn push_inputs(
    inputs: &mut Vec<Input>,
    graph: &Graph,
    cells: &Cells,
    kind: InputKind,
    paths: &[Name],
    producers: &[Option<u32>],
) -> Result<(), AllocError>
    requires { producers.now ≡ map (producer_of graph.now.manifest.builds) paths.now }
    ensures { OnOk result (inputs.new.items
        ≡ inputs.old.items
        ++ map (input_facts graph.now.manifest.builds cells.now.state kind) paths.now) }
{
    inputs.reserve(paths.len())?;
    for (place, path) in paths.iter().enumerate() {
        inputs.push(input_of(graph, cells, kind, path, producers[place]))?;
    }
    Ok(())
}

/// What is asked of the inputs on an edge's build line that count.
pub(crate) fn counted_on_line(
    alloc: Global,
    graph: &Graph,
    cells: &Cells,
    edge: u32,
) -> Result<Vec<Input>, AllocError>
    requires { edge < length graph.now.manifest.builds }
    ensures { IfOk result (λ inputs. inputs.items
        ≡ map (input_facts graph.now.manifest.builds cells.now.state OnLine)
        (line_inputs (build_at graph.now.manifest.builds edge))) }
{
    let on_line = graph.inputs(edge);
    let producers = line_producers(graph, edge);
    let mut inputs = Vec::new(alloc);
    push_inputs(
        &mut inputs,
        graph,
        cells,
        InputKind::OnLine,
        on_line.explicit,
        producers.explicit,
    )?;
    push_inputs(
        &mut inputs,
        graph,
        cells,
        InputKind::OnLine,
        on_line.implicit,
        producers.implicit,
    )?;
    Ok(inputs)
}

/// What is asked of all inputs of an edge. `listed` are those that its deps record lists, and `producers` the edges
/// that produce the listed ones.
pub(crate) fn all_inputs(
    alloc: Global,
    graph: &Graph,
    cells: &Cells,
    edge: u32,
    listed: &[Name],
    producers: &[Option<u32>],
) -> Result<Vec<Input>, AllocError>
    requires edge { edge < length graph.now.manifest.builds }
    requires producers { producers.now ≡ map (producer_of graph.now.manifest.builds) listed.now }
    requires listed { listed.now ≡ paths_in
        (deps_record cells.now.state (build_at graph.now.manifest.builds edge)) }
    ensures { IfOk result (λ all. all.items
        ≡ map (facts_of_input graph.now.manifest.builds cells.now.state)
        (inputs cells.now.state (build_at graph.now.manifest.builds edge))) }
{
    let mut all = counted_on_line(alloc, graph, cells, edge)?;
    push_inputs(
        &mut all,
        graph,
        cells,
        InputKind::OrderOnly,
        graph.inputs(edge).order_only,
        line_producers(graph, edge).order_only,
    )?;
    push_inputs(&mut all, graph, cells, InputKind::Listed, listed, producers)?;
    Ok(all)
}
