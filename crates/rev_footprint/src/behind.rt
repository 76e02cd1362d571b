//! The phony edges through which the inputs of an edge are seen.
ghost use Rattle.std.specs.Prelude.{◌≡◌, ◌<◌, [], length, IfSome, OnOk};
ghost use Rattle.std.specs.List.{cons_option};
ghost use Rattle.rev_footprint.specs.Behind.{phony_among, next_edges, AreBehind, ArePhony, AreProducers, Grows};

use indexmap::IndexSet;
use rev_dirty::phony_producer;
use rev_graph::Graph;
use std::alloc::AllocError;

// Adds an edge, if there is one.
fn add_edge(edges: &mut IndexSet<u32>, edge: Option<u32>) -> Result<(), AllocError>
    ensures { OnOk result (Grows edges.old.keys edges.new.keys (cons_option edge [])) }
{
    match edge {
        Some(edge) => {
            edges.insert(edge)?;
            Ok(())
        }
        None => Ok(()),
    }
}

/// Adds the phony edges among the producers of paths.
pub(crate) fn add_phony(
    graph: &Graph,
    edges: &mut IndexSet<u32>,
    producers: &[Option<u32>],
) -> Result<(), AllocError>
    requires { AreProducers graph.now.manifest.builds producers.now }
    ensures { OnOk result (Grows edges.old.keys edges.new.keys
        (phony_among graph.now.manifest.builds producers.now)) }
{
    for producer in producers {
        add_edge(edges, phony_producer(graph, *producer))?;
    }
    Ok(())
}

// Adds the phony edges that come next of one.
fn add_next(graph: &Graph, edges: &mut IndexSet<u32>, edge: u32) -> Result<(), AllocError>
    requires { edge < length graph.now.manifest.builds }
    ensures { OnOk result (Grows edges.old.keys edges.new.keys
        (next_edges graph.now.manifest.builds edge)) }
{
    add_phony(graph, edges, graph.counted_producers(edge))?;
    Ok(())
}

/// Adds all phony edges behind some. Each is looked at once.
pub(crate) fn add_behind(graph: &Graph, edges: &mut IndexSet<u32>) -> Result<(), AllocError>
    requires { ArePhony graph.now.manifest.builds edges.old.keys }
    ensures { OnOk result (AreBehind graph.now.manifest.builds edges.old.keys edges.new.keys) }
{
    for next in 0..usize::MAX {
        if next >= edges.len() {
            return Ok(());
        }
        let edge = edges.as_slice()[next];
        add_next(graph, edges, edge)?;
    }
    // No set has so many elements.
    let _len = edges.len();
    Ok(())
}
