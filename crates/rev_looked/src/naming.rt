//! Who names a path as what it reads, where nothing was observed.
ghost use Rattle.std.specs.Prelude.{◌≡◌, ◌<◌, ◌++◌, length, IfOk, OnOk};
ghost use Rattle.std.specs.Option.{option_map, option_to_list};
ghost use Rattle.rev_graph.specs.Graph.{build_at, has_path, inputs_of};
ghost use Rattle.rev_history.specs.Timeline.{state_at};
ghost use Rattle.rev_looked.specs.Naming.{naming_of as naming_by, namings_of, site_of as site_by};

use rev_dirty::listed_inputs;
use rev_graph::Graph;
use rev_history::History;
use rev_paths::Name;
use std::alloc::{AllocError, Global};

/// Where an edge names a path as what it reads.
#[derive(Clone, Copy, Debug, PartialEq, Eq)]
pub enum Site {
    /// As an input on its build line.
    Line,
    /// In the list of what its command read, and not on its build line.
    Listed,
}

/// An edge that names a path.
#[derive(Clone, Copy, Debug, PartialEq, Eq)]
pub struct Naming {
    /// The edge.
    pub edge: u32,
    /// Where it does.
    pub site: Site,
}

// Whether a path is one of these.
fn is_among(paths: &[Name], path: &Name) -> bool
    ensures { result ≡ has_path paths.now path.now }
{
    paths.iter().any(|one| path == one)
}

// Whether a path is an input on the build line of an edge.
fn is_on_line(graph: &Graph, edge: u32, path: &Name) -> bool
    requires { edge < length graph.now.manifest.builds }
    ensures { result ≡ has_path (inputs_of (build_at graph.now.manifest.builds edge)) path.now }
{
    let inputs = graph.inputs(edge);
    is_among(inputs.explicit, path)
        || is_among(inputs.implicit, path)
        || is_among(inputs.order_only, path)
}

// Where an edge names a path, if it does.
fn site_of(history: &History, edge: u32, path: &Name) -> Option<Site>
    requires { edge < length history.now.timeline.manifest.builds }
    ensures { result ≡ site_by history.now.timeline.manifest.builds (state_at history.now.timeline) edge path.now }
{
    if is_on_line(history.graph(), edge, path) {
        return Some(Site::Line);
    }
    if is_among(listed_inputs(history.graph(), history.cells(), edge), path) {
        return Some(Site::Listed);
    }
    None
}

// Adds an edge, where it names the path.
fn add(namings: &mut Vec<Naming>, edge: u32, site: Option<Site>) -> Result<(), AllocError>
    ensures { OnOk result (namings.new.items ≡ namings.old.items ++ option_to_list (option_map (naming_by edge) site)) }
{
    if let Some(site) = site {
        namings.push(Naming { edge, site })?;
    }
    Ok(())
}

/// Each edge that names a path as what it reads, in the order of the edges: on its build line, or in the list of what its
/// command read, as the deps log has it in the present state. Each input of an edge is looked at once.
///
/// # Errors
/// [`AllocError`] only where an allocation was refused.
pub fn namings(alloc: Global, history: &History, path: &Name) -> Result<Vec<Naming>, AllocError>
    ensures { IfOk result (λ namings. namings.items ≡ namings_of history.now.timeline.manifest.builds
        (state_at history.now.timeline) path.now) }
{
    let mut namings = Vec::new(alloc);
    for edge in 0..history.graph().edges() {
        let site = site_of(history, edge, path);
        add(&mut namings, edge, site)?;
    }
    Ok(namings)
}
