//! The last components of a build's paths.
ghost use Rattle.std.specs.Prelude.{◌≡◌, ◌<◌, ◌==◌, ◌&&◌, List, ℕ, Some, bytes_eq, length, not, if◌then◌else◌, IfOk, OnOk};
ghost use Rattle.rev_graph.specs.Graph.{build_at, producer_of};
ghost use Rattle.rev_named.specs.Named.{AreLastComponents, agreed as agreed_of, component, is_known as is_known_by, known_in, last_part as last_part_of, met as met_of, note, noted, paths_on};

use indexmap::IndexMap;
use rev_graph::Graph;
use rev_paths::{Name, PathFault};
use std::alloc::{AllocError, Global};
use std::marker::Model;

/// For each last component of a path of a build the one edge that makes all paths with it, where there is one.
pub struct LastComponents {
    makers: IndexMap<Name, Option<u32>>,
}

impl Drop for LastComponents {
    fn drop(self) {
        let LastComponents { makers: _makers } = self;
    }
}

impl Model for LastComponents {
    ghost use Rattle.std.specs.Prelude.{List, Option, ℕ};

    ghost Value = { List (List ℕ × Option ℕ) };

    ghost view = { λ a. a.makers.entries };
}

// What stands behind a byte of a path, where that is a slash and something does; else what was the last part.
fn part_behind<'a>(byte: u8, after: &'a [u8], last: &'a [u8]) -> &'a [u8]
    ensures { result.now ≡ (if byte == 47 && not (length after.now == 0) then after.now else last.now) }
{
    if byte == b'/' && !after.is_empty() {
        return after;
    }
    last
}

// What stands behind the last slash of a path, if something does; else all of it.
fn last_part(path: &[u8]) -> &[u8]
    ensures { result.now ≡ last_part_of path.now }
{
    let mut rest = path;
    let mut last = path;
    while let Some((byte, after)) = rest.split_first() {
        last = part_behind(*byte, after, last);
        rest = after;
    }
    last
}

/// The last component of a path.
///
/// # Errors
/// [`AllocError`] only where an allocation was refused.
pub(crate) fn component_of(alloc: Global, path: &Name) -> Result<Name, AllocError>
    ensures { IfOk result (λ name. name ≡ component path.now) }
{
    match Name::new(alloc, last_part(path.as_bytes())) {
        Ok(name) => Ok(name),
        // A part of a path is not empty, and not longer than it.
        Err(PathFault::EmptyPath | PathFault::LongPath | PathFault::Memory) => Err(AllocError),
    }
}

// Of two makers the one that they are, if they are one.
fn agreed(known: Option<u32>, maker: Option<u32>) -> Option<u32>
    ensures { result ≡ agreed_of known maker }
{
    let first = known?;
    let second = maker?;
    if first == second { Some(second) } else { None }
}

impl LastComponents {
    // What is known of a last component, with one more maker.
    fn met(&self, last: &Name, maker: Option<u32>) -> Option<u32>
        ensures { result ≡ met_of (known_in self.now last.now) maker }
    {
        match self.makers.get(last) {
            Some(known) => agreed(*known, maker),
            None => maker,
        }
    }

    // Has what is known of a last component be this.
    fn put(&mut self, last: &Name, maker: Option<u32>) -> Result<(), AllocError>
        ensures { OnOk result ((other : List ℕ) → known_in self.new other
            ≡ (if bytes_eq last.now other then Some maker else known_in self.old other)) }
    {
        self.makers.insert(last.copy()?, maker)?;
        Ok(())
    }

    // Notes a path.
    fn add(&mut self, alloc: Global, graph: &Graph, path: &Name) -> Result<(), AllocError>
        ensures { OnOk result ((last : List ℕ) → known_in self.new last
            ≡ note graph.now.manifest.builds last (known_in self.old last) path.now) }
    {
        let last = component_of(alloc, path)?;
        let maker = self.met(&last, graph.producer(path));
        self.put(&last, maker)?;
        Ok(())
    }

    // Notes paths.
    fn add_all(&mut self, alloc: Global, graph: &Graph, paths: &[Name]) -> Result<(), AllocError>
        ensures { OnOk result ((last : List ℕ) → known_in self.new last
            ≡ noted graph.now.manifest.builds last (known_in self.old last) paths.now) }
    {
        for path in paths {
            self.add(alloc, graph, path)?;
        }
        Ok(())
    }

    // Notes the paths on an edge's build line.
    fn add_edge(&mut self, alloc: Global, graph: &Graph, edge: u32) -> Result<(), AllocError>
        requires { edge < length graph.now.manifest.builds }
        ensures { OnOk result ((last : List ℕ) → known_in self.new last
            ≡ noted graph.now.manifest.builds last (known_in self.old last)
            (paths_on (build_at graph.now.manifest.builds edge))) }
    {
        let outputs = graph.outputs(edge);
        self.add_all(alloc, graph, outputs.explicit)?;
        self.add_all(alloc, graph, outputs.implicit)?;
        let inputs = graph.inputs(edge);
        self.add_all(alloc, graph, inputs.explicit)?;
        self.add_all(alloc, graph, inputs.implicit)?;
        self.add_all(alloc, graph, inputs.order_only)?;
        self.add_all(alloc, graph, graph.validations(edge))?;
        Ok(())
    }

    /// Whether each path of the build with this last component is an output of this edge, where the edge has one with
    /// it.
    pub(crate) fn is_alone(&self, edge: u32, last: &Name) -> bool
        ensures { result ≡ is_known_by edge (known_in self.now last.now) }
    {
        match self.makers.get(last) {
            Some(Some(maker)) => *maker == edge,
            _ => false,
        }
    }
}

/// The last components of all paths on a graph's build lines, in time and memory linear in these, up to hashing.
///
/// # Errors
/// [`AllocError`] only where an allocation was refused.
pub fn last_components(alloc: Global, graph: &Graph) -> Result<LastComponents, AllocError>
    ensures { IfOk result (AreLastComponents graph.now.manifest.builds) }
{
    let mut components = LastComponents {
        makers: IndexMap::new(alloc),
    };
    for edge in 0..graph.edges() {
        components.add_edge(alloc, graph, edge)?;
    }
    Ok(components)
}
