//! The kinds of findings.
ghost use Rattle.std.specs.Prelude.{◌≡◌, ◌<◌, length, map, All, IfOk};
ghost use Rattle.rev_graph.specs.Graph.{successor_lists};
ghost use Rattle.rev_ranks.specs.Graph.{graph_of};
ghost use Rattle.rev_waits.specs.Waits.{AreWaitedFor};
ghost use Rattle.rev_races.specs.Kinds.{IsBetween, kind_of, with_kind};

use crate::race::{Kind, Race};
use crate::search::{no_search, search_for};
use crate::told::Told;
use rev_graph::Graph;
use std::alloc::{AllocError, Global};

// The kind of what is told. `waited` has the edges that the maker waits for.
fn kind(graph: &Graph, waited: &[bool], told: &Told) -> Kind
    requires between { IsBetween graph.now.manifest.builds told.now }
    requires waited { AreWaitedFor graph.now.manifest.builds told.now.maker waited.now }
    ensures { result ≡ kind_of graph.now.manifest.builds told.now.user told.now.maker }
{
    let _edges = graph.edges();
    if told.maker == told.user {
        return Kind::Own;
    }
    if waited[told.user as usize] {
        return Kind::Cycle;
    }
    Kind::Race
}

/// The findings with their kinds, in the same order: one search for each maker, where those of a maker stand together.
pub(crate) fn with_kinds(
    alloc: Global,
    graph: &Graph,
    steps: &[Vec<u32>],
    told: &[Told],
) -> Result<Vec<Race>, AllocError>
    requires between { All (IsBetween graph.now.manifest.builds) told.now }
    requires steps { graph_of steps.now ≡ successor_lists graph.now.manifest.builds }
    ensures { IfOk result (λ races. races.items ≡ map (with_kind graph.now.manifest.builds) told.now) }
{
    let mut search = no_search(alloc);
    let mut races = Vec::new(alloc);
    for one in told {
        search_for(alloc, graph, steps, one.maker, &mut search)?;
        races.push(Race {
            kind: kind(graph, &search.waited, one),
            maker: one.maker,
            user: one.user,
            place: one.place,
        })?;
    }
    Ok(races)
}
