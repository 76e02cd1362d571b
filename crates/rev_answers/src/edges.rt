//! Edges by their outputs.
use rev_graph::Graph;
use rev_shown::{first_output, push_shown};
use std::alloc::AllocError;

/// Adds the first output of an edge.
pub(crate) fn push_edge(text: &mut Vec<u8>, graph: &Graph, edge: u32) -> Result<(), AllocError> {
    match first_output(graph, edge) {
        Some(name) => push_shown(text, name.as_bytes()),
        None => Ok(()),
    }
}
