//! The opening of a witness: the files that no edge makes.
ghost use Rattle.std.specs.Prelude.{◌≡◌, ◌<◌, [], ◌∷◌, length, IfOk, OnOk};
ghost use Rattle.rev_graph.specs.Graph.{build_at, inputs_of};
ghost use Rattle.rev_witness.specs.Sources.{AddsSources, AreThere};
ghost use Rattle.rev_witness.specs.Witness.{AreSources, opening_with};

use rev_cells::{Opening, OpeningFault};
use rev_graph::Graph;
use rev_paths::Name;
use std::alloc::{AllocError, Global};

/// An opening, and the paths that have a stamp in it.
#[derive(Drop)]
pub(crate) struct Sources {
    pub(crate) opening: Opening,
    pub(crate) paths: Vec<Name>,
}

// An opening on one job without records.
fn no_sources(alloc: Global) -> Result<Sources, AllocError>
    ensures opening { IfOk result (λ sources. sources.opening ≡ opening_with sources.paths.items) }
    ensures empty { IfOk result (λ sources. sources.paths.items ≡ []) }
{
    match Opening::new(alloc, 1) {
        Ok(opening) => Ok(Sources {
            opening,
            paths: Vec::new(alloc),
        }),
        Err(_) => Err(AllocError),
    }
}

// Gives a path the stamp 1, unless an edge makes it or it has one.
#[tactic(auto, using(crate::proofs::WitnessLemmas::opening_push))]
fn add_source(graph: &Graph, path: &Name, sources: &mut Sources) -> Result<(), AllocError>
    requires opening { sources.old.opening ≡ opening_with sources.old.paths.items }
    requires made { AreSources graph.now.manifest.builds sources.old.paths.items }
    ensures opening { OnOk result (sources.new.opening ≡ opening_with sources.new.paths.items) }
    ensures made { OnOk result (AreSources graph.now.manifest.builds sources.new.paths.items) }
    ensures adds { OnOk result (AddsSources graph.now.manifest.builds (path.now ∷ [])
        sources.old.paths.items sources.new.paths.items) }
{
    if graph.producer(path).is_some() {
        return Ok(());
    }
    match sources.opening.add_stamp(path.copy()?, 1) {
        Ok(()) => {
            sources.paths.push(path.copy()?)?;
            Ok(())
        }
        Err(OpeningFault::DoubleRecord) => Ok(()),
        Err(_) => Err(AllocError),
    }
}

// The same for several paths.
fn add_sources(graph: &Graph, paths: &[Name], sources: &mut Sources) -> Result<(), AllocError>
    requires opening { sources.old.opening ≡ opening_with sources.old.paths.items }
    requires made { AreSources graph.now.manifest.builds sources.old.paths.items }
    ensures opening { OnOk result (sources.new.opening ≡ opening_with sources.new.paths.items) }
    ensures made { OnOk result (AreSources graph.now.manifest.builds sources.new.paths.items) }
    ensures adds { OnOk result (AddsSources graph.now.manifest.builds paths.now
        sources.old.paths.items sources.new.paths.items) }
{
    for path in paths {
        add_source(graph, path, sources)?;
    }
    Ok(())
}

// The same for the inputs of an edge.
fn add_inputs(graph: &Graph, edge: u32, sources: &mut Sources) -> Result<(), AllocError>
    requires edge { edge < length graph.now.manifest.builds }
    requires opening { sources.old.opening ≡ opening_with sources.old.paths.items }
    requires made { AreSources graph.now.manifest.builds sources.old.paths.items }
    ensures opening { OnOk result (sources.new.opening ≡ opening_with sources.new.paths.items) }
    ensures made { OnOk result (AreSources graph.now.manifest.builds sources.new.paths.items) }
    ensures adds { OnOk result (AddsSources graph.now.manifest.builds
        (inputs_of (build_at graph.now.manifest.builds edge)) sources.old.paths.items sources.new.paths.items) }
{
    let inputs = graph.inputs(edge);
    add_sources(graph, inputs.explicit, sources)?;
    add_sources(graph, inputs.implicit, sources)?;
    add_sources(graph, inputs.order_only, sources)?;
    Ok(())
}

/// The opening on one job in which each input that no edge makes has the stamp 1. It has no other record.
pub(crate) fn sources_of(alloc: Global, graph: &Graph) -> Result<Sources, AllocError>
    ensures opening { IfOk result (λ sources. sources.opening ≡ opening_with sources.paths.items) }
    ensures made { IfOk result (λ sources. AreSources graph.now.manifest.builds sources.paths.items) }
    ensures there { IfOk result (λ sources. AreThere graph.now.manifest.builds sources.opening.state) }
{
    let mut sources = no_sources(alloc)?;
    for edge in 0..graph.edges() {
        add_inputs(graph, edge, &mut sources)?;
    }
    Ok(sources)
}
