//! A scan over many edges that keeps what it learned.
ghost use Rattle.std.specs.Prelude.{◌≡◌, ◌<◌, [], true, Some, length, slice_get, IfOk};
ghost use Rattle.std.specs.List.{list_any};
ghost use Rattle.rev_graph.specs.Graph.{build_at};
ghost use Rattle.rev_dirty.specs.Inputs.{inputs, paths_in, producers_in, deps_record};
ghost use Rattle.rev_dirty.specs.Reasons.{lacks_first as lacks_first_of, reasons_of, newest_stamp, is_rebuilt};
ghost use Rattle.rev_dirty.specs.declared.reason.Reason.TheVariants.{Missing};

use crate::change::Changed;
use crate::dirtiness::{has_rebuilt_by, newest_stamp_by, reasons_by};
use crate::output::lacks_first;
use crate::reason::Reason;
use crate::walk::Known;
use indexmap::IndexMap;
use rev_cells::Cells;
use rev_graph::Graph;
use std::alloc::{AllocError, Global};
use std::marker::Model;

/// A scan over the edges of a graph in one state. It keeps what it learned of phony edges, and of what edges changed,
/// so that it enters each phony edge once in its life (Ninja has the name `DependencyScan`). What it has learned shows
/// in no answer.
///
/// Calls about one edge take a number below [`Graph::edges`]. After an error the scan answers as before.
pub struct DependencyScan<'a> {
    alloc: Global,
    graph: &'a Graph,
    cells: &'a Cells,
    known: Known,
    changed: Changed,
}

impl Drop for DependencyScan<'_> {
    fn drop(self) {
        let DependencyScan {
            alloc: _alloc,
            graph: _graph,
            cells: _cells,
            known: _known,
            changed: _changed,
        } = self;
    }
}

impl<'a> Model for DependencyScan<'a> {
    ghost use Rattle.rev_dirty.specs.ScanValue.{ScanValue, scan_code};

    ghost Value = { ScanValue };

    ghost coded = { scan_code };

    ghost use Rattle.rev_dirty.specs.Scan.{scan_of, IsScan};

    ghost view = { scan_of };

    ghost invariant = { IsScan };
}

impl<'a> DependencyScan<'a> {
    /// A scan that has learned nothing yet. It takes no memory.
    pub fn new(alloc: Global, graph: &'a Graph, cells: &'a Cells) -> DependencyScan<'a>
        ensures graph { result.graph ≡ graph.now }
        ensures state { result.state ≡ cells.now.state }
    {
        // What it promises of every graph, ranks that fall along its steps, is what the stamps behind phony edges rest
        // on.
        let _edges = graph.edges();
        DependencyScan {
            alloc,
            graph,
            cells,
            known: IndexMap::new(alloc),
            changed: IndexMap::new(alloc),
        }
    }

    /// The reasons why an edge is dirty, all of them: by kind, then by the position of the output, then of the input.
    /// Where there is none the edge is clean.
    ///
    /// An edge that is not phony is dirty where an output is missing, is older than an input or has no record of this
    /// edge's command. It is dirty, too, where its deps are not known or out of date, or where an input was rebuilt
    /// (Ninja manual, the build log, deps, restat, generator). A phony edge is dirty only where it has no input of any
    /// kind, for each output that is missing.
    ///
    /// It takes time linear in the edge's inputs and outputs, and in those of each phony edge that the scan enters for
    /// the first time, up to hashing.
    ///
    /// # Errors
    /// [`AllocError`] only where an allocation was refused.
    pub fn reasons(&mut self, edge: u32) -> Result<Vec<Reason>, AllocError>
        requires { edge < length self.old.graph.manifest.builds }
        ensures reasons { IfOk result (λ reasons. reasons.items
            ≡ reasons_of self.old.graph.manifest.builds self.old.state edge) }
        ensures same { self.new ≡ self.old }
    {
        reasons_by(
            self.alloc,
            self.graph,
            self.cells,
            &mut self.known,
            &mut self.changed,
            edge,
            false,
        )
    }

    /// What [`DependencyScan::reasons`] gives, of an edge whose deps record lists sources alone, paths that no edge
    /// produces. What produces them is not looked up.
    ///
    /// # Errors
    /// [`AllocError`] only where an allocation was refused.
    pub fn reasons_over_sources(&mut self, edge: u32) -> Result<Vec<Reason>, AllocError>
        requires edge { edge < length self.old.graph.manifest.builds }
        requires sources { producers_in self.old.graph.manifest.builds
            (paths_in (deps_record self.old.state (build_at self.old.graph.manifest.builds edge))) ≡ [] }
        ensures reasons { IfOk result (λ reasons. reasons.items
            ≡ reasons_of self.old.graph.manifest.builds self.old.state edge) }
        ensures same { self.new ≡ self.old }
    {
        reasons_by(
            self.alloc,
            self.graph,
            self.cells,
            &mut self.known,
            &mut self.changed,
            edge,
            true,
        )
    }

    /// Whether an edge lacks its first output and is not phony: then its first reason is that output, whatever its
    /// inputs are, and none of them is looked at. Where it says no, the edge may have reasons all the same.
    pub fn lacks_first_output(&self, edge: u32) -> bool
        requires { edge < length self.now.graph.manifest.builds }
        ensures exact { result ≡ lacks_first_of self.now.state (build_at self.now.graph.manifest.builds edge) }
        ensures first { result ≡ true
            → slice_get (reasons_of self.now.graph.manifest.builds self.now.state edge) 0 ≡ Some (Missing 0) }
    {
        lacks_first(self.graph, self.cells, edge)
    }

    /// The greatest visible stamp of the inputs of an edge that are not order-only, 0 where there is none: what its
    /// command sees when it is started.
    ///
    /// # Errors
    /// [`AllocError`] only where an allocation was refused.
    pub fn newest_stamp(&mut self, edge: u32) -> Result<u64, AllocError>
        requires { edge < length self.old.graph.manifest.builds }
        ensures stamp { IfOk result (λ stamp. stamp
            ≡ newest_stamp self.old.graph.manifest.builds self.old.state
            (inputs self.old.state (build_at self.old.graph.manifest.builds edge))) }
        ensures same { self.new ≡ self.old }
    {
        newest_stamp_by(self.alloc, self.graph, self.cells, &mut self.known, edge)
    }

    /// Whether the producer of some input of an edge that is not order-only is done and changed that input.
    ///
    /// # Errors
    /// [`AllocError`] only where an allocation was refused.
    pub fn has_rebuilt(&mut self, edge: u32) -> Result<bool, AllocError>
        requires { edge < length self.old.graph.manifest.builds }
        ensures rebuilt { IfOk result (λ rebuilt. rebuilt
            ≡ list_any (is_rebuilt self.old.graph.manifest.builds self.old.state)
            (inputs self.old.state (build_at self.old.graph.manifest.builds edge))) }
        ensures same { self.new ≡ self.old }
    {
        has_rebuilt_by(self.alloc, self.graph, self.cells, &mut self.changed, edge)
    }
}

/// The reasons why an edge is dirty, as [`DependencyScan::reasons`] says them: one use of a scan.
///
/// # Errors
/// [`AllocError`] only where an allocation was refused.
pub fn reasons(
    alloc: Global,
    graph: &Graph,
    cells: &Cells,
    edge: u32,
) -> Result<Vec<Reason>, AllocError>
    requires { edge < length graph.now.manifest.builds }
    ensures { IfOk result (λ reasons. reasons.items
        ≡ reasons_of graph.now.manifest.builds cells.now.state edge) }
{
    DependencyScan::new(alloc, graph, cells).reasons(edge)
}
