//! Makers of a path. Those that the phony edge asked for last stands for are kept.
ghost use Rattle.std.specs.Prelude.{◌≡◌, ◌↔◌, ℕ, None, Some, Contains, IfOk, OnOk};
ghost use Rattle.rev_graph.specs.Graph.{producer_of};
ghost use Rattle.rev_ranks.specs.Graph.{graph_of};
ghost use Rattle.rev_waits.specs.Waits.{Makes, phony_lists};
ghost use Rattle.rev_races.specs.Searches.{AreKeptMakers};

use rev_graph::Graph;
use rev_paths::Name;
use rev_waits::makers;
use std::alloc::{AllocError, Global};

/// The edges that make what a phony edge produces, kept for the next path that it produces.
#[derive(Drop)]
pub struct KeptMakers {
    /// The phony edge that was asked for last, where one was.
    pub phony: Option<u32>,
    /// The edges that make what it produces.
    pub makers: Vec<u32>,
}

/// None yet.
pub fn no_makers(alloc: Global) -> KeptMakers
    ensures { result.phony ≡ None }
{
    KeptMakers {
        phony: None,
        makers: Vec::new(alloc),
    }
}

// The edges that make a path that a phony edge produces: they are looked for unless they were those of this edge
// before.
fn makers_behind(
    alloc: Global,
    graph: &Graph,
    phony: &[Vec<u32>],
    path: &Name,
    producer: u32,
    behind: &mut KeptMakers,
) -> Result<Vec<u32>, AllocError>
    requires phony { graph_of phony.now ≡ phony_lists graph.now.manifest.builds }
    requires producer { producer_of graph.now.manifest.builds path.now ≡ Some producer }
    requires kept { AreKeptMakers graph.now.manifest.builds behind.old.phony behind.old.makers.items }
    ensures makers { IfOk result (λ makers. (maker : ℕ) → Contains makers.items maker
        ↔ Makes graph.now.manifest.builds maker path.now) }
    ensures kept { OnOk result (AreKeptMakers graph.now.manifest.builds behind.new.phony behind.new.makers.items) }
{
    if let Some(last) = behind.phony {
        if last == producer {
            return behind.makers.to_vec(alloc);
        }
    }
    behind.makers = makers(alloc, graph, phony, path)?;
    behind.phony = Some(producer);
    behind.makers.to_vec(alloc)
}

/// The edges that make a path, as [`rev_waits::makers`] gives them, without a search where the phony edge that produces
/// the path was the last one that was asked for. `phony` has for each phony edge the edges that it steps to.
///
/// # Errors
/// [`AllocError`] only where an allocation was refused.
pub fn makers_of(
    alloc: Global,
    graph: &Graph,
    phony: &[Vec<u32>],
    path: &Name,
    behind: &mut KeptMakers,
) -> Result<Vec<u32>, AllocError>
    requires phony { graph_of phony.now ≡ phony_lists graph.now.manifest.builds }
    requires kept { AreKeptMakers graph.now.manifest.builds behind.old.phony behind.old.makers.items }
    ensures makers { IfOk result (λ makers. (maker : ℕ) → Contains makers.items maker
        ↔ Makes graph.now.manifest.builds maker path.now) }
    ensures kept { OnOk result (AreKeptMakers graph.now.manifest.builds behind.new.phony behind.new.makers.items) }
{
    let Some(producer) = graph.producer(path) else {
        return makers(alloc, graph, phony, path);
    };
    if !graph.is_phony(producer) {
        return makers(alloc, graph, phony, path);
    }
    makers_behind(alloc, graph, phony, path, producer, behind)
}
