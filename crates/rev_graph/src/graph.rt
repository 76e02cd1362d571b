//! Graphs of edges.
ghost use Rattle.std.specs.Prelude.{◌≡◌, ℕ, ◌<◌, ◌++◌, ◌↔◌, length, map, Some, IfSome, IfOk, IfErr, IsErrOf, IsTrue, OnOk};
ghost use Rattle.std.specs.Arc.{arc_slice_items};
ghost use Rattle.rev_manifest.specs.Seen.{seen_pools};
ghost use Rattle.rev_graph.specs.Alike.{LendAlike};
ghost use Rattle.rev_graph.specs.Fault.{Explains, IsFaultless};
ghost use Rattle.rev_graph.specs.Graph.{build_at, is_known, producer_of, pool_of, depth_of, input_producers, rank_at, IsGraph, Produces};

use crate::alike::{numbered, same_lent};
use crate::fault::GraphFault;
use crate::steps::{all_producers, ranks_of};
use crate::table::{Table, outputs_table, producer};
use rev_manifest::{Build, Manifest};
use rev_paths::Name;
use std::alloc::{AllocError, Global};
use std::marker::Model;
use std::sync::ArcSlice;

/// The edges of a manifest, by number, with the producer of each path. No path is an output of two edges, and
/// no edge reaches itself through explicit, implicit or order-only inputs.
///
/// Calls about one edge take a number below [`Graph::edges`]. No call but [`Graph::build`] takes memory.
pub struct Graph {
    manifest: Manifest,
    table: Table,
    producers: Vec<Vec<Option<u32>>>,
    ranks: Vec<u32>,
}

impl Drop for Graph {
    fn drop(self) {
        let Graph {
            manifest: _manifest,
            table: _table,
            producers: _producers,
            ranks: _ranks,
        } = self;
    }
}

impl Model for Graph {
    ghost use Rattle.rev_graph.specs.Graph.{GraphValue};

    ghost Value = { GraphValue };

    ghost use Rattle.rev_graph.specs.Sound.{value_of, IsSound};

    ghost view = { value_of };

    ghost invariant = { IsSound };
}

/// The inputs on an edge's build line.
#[derive(Clone, Copy, Debug)]
pub struct Inputs<'a> {
    /// The inputs before `|`.
    pub explicit: &'a [Name],
    /// The inputs after `|`.
    pub implicit: &'a [Name],
    /// The inputs after `||`, which come first and never give a reason to run (Ninja manual, order-only dependencies).
    pub order_only: &'a [Name],
}

/// The outputs of an edge.
#[derive(Clone, Copy, Debug)]
pub struct Outputs<'a> {
    /// The outputs before `|`.
    pub explicit: &'a [Name],
    /// The outputs after `|`.
    pub implicit: &'a [Name],
}

impl Graph {
    /// The most edges that a graph has.
    pub const MAX_EDGES: u32 = 262_144;

    /// The graph of a manifest, in time linear in its edges and paths up to hashing.
    ///
    /// # Errors
    /// [`GraphFault::TooManyEdges`] where there are more than [`Graph::MAX_EDGES`] edges. Else
    /// [`GraphFault::MultipleProducers`] with the first output, in reading order, that an earlier edge has. Else
    /// [`GraphFault::Cycle`] with the first output of the least edge that reaches itself. [`GraphFault::Memory`] only
    /// where an allocation was refused.
    pub fn build(alloc: Global, manifest: &Manifest) -> Result<Graph, GraphFault>
        // The graph has the manifest's edges, pools and defaults, and these have no fault.
        ensures value { IfOk result (λ graph. graph.manifest ≡ manifest.now) }
        ensures faultless { OnOk result (IsFaultless manifest.now.builds) }

        // A fault is the first that they have.
        ensures fault { IfErr result (λ fault. Explains fault manifest.now.builds) }
        ensures many { IsErrOf result GraphFault.TooManyEdges ↔ (Self.MAX_EDGES < length manifest.now.builds) }
    {
        let edges = manifest.builds();
        if edges.len() > Self::MAX_EDGES as usize {
            return Err(GraphFault::TooManyEdges);
        }
        let mut table = outputs_table(alloc, edges)?;
        let producers = all_producers(alloc, &mut table, edges)?;
        let ranks = ranks_of(alloc, edges, &producers)?;
        let manifest = manifest.copy()?;
        Ok(Graph {
            manifest,
            table,
            producers,
            ranks,
        })
    }

    /// How many edges there are, at most [`Graph::MAX_EDGES`].
    pub fn edges(&self) -> u32
        ensures edges { result ≡ length self.now.manifest.builds }
        ensures graph { IsGraph self.now }
    {
        self.manifest.builds().len() as u32
    }

    /// The edge that has the path among its outputs, if one has.
    pub fn producer(&self, path: &Name) -> Option<u32>
        ensures value { result ≡ producer_of self.now.manifest.builds path.now }
        ensures has { IfSome result (λ edge. Produces self.now.manifest.builds edge path.now) }
        ensures only { (edge : ℕ) → Produces self.now.manifest.builds edge path.now → result ≡ Some edge }
    {
        producer(&self.table, path)
    }

    /// Whether the path stands on a build line: as an output, an input of any kind, or a validation.
    pub fn known(&self, path: &Name) -> bool
        ensures { result ≡ is_known self.now.manifest.builds path.now }
    {
        self.table.contains_key(path)
    }

    // The edge of a number.
    fn at(&self, edge: u32) -> &Build
        requires { edge < length self.now.manifest.builds }
        ensures { result.now ≡ build_at self.now.manifest.builds edge }
    {
        &self.manifest.builds()[edge as usize]
    }

    /// The inputs on an edge's build line.
    pub fn inputs(&self, edge: u32) -> Inputs<'_>
        requires { edge < length self.now.manifest.builds }
        ensures explicit { result.explicit.now ≡ (build_at self.now.manifest.builds edge).explicit }
        ensures implicit { result.implicit.now ≡ (build_at self.now.manifest.builds edge).implicit }
        ensures order_only { result.order_only.now ≡ (build_at self.now.manifest.builds edge).order_only }
    {
        let edge = self.at(edge);
        Inputs {
            explicit: edge.explicit(),
            implicit: edge.implicit(),
            order_only: edge.order_only(),
        }
    }

    /// For each input on an edge's build line, explicit, implicit, then order-only, the edge that produces it, if one
    /// does.
    pub fn producers(&self, edge: u32) -> &[Option<u32>]
        requires { edge < length self.now.manifest.builds }
        ensures { result.now ≡ input_producers self.now.manifest.builds
            (build_at self.now.manifest.builds edge) }
    {
        &self.producers[edge as usize]
    }

    /// For each explicit and then each implicit input of an edge, the edge that produces it, if one does.
    pub fn counted_producers(&self, edge: u32) -> &[Option<u32>]
        requires { edge < length self.now.manifest.builds }
        ensures { result.now ≡ map (producer_of self.now.manifest.builds)
            ((build_at self.now.manifest.builds edge).explicit
            ++ (build_at self.now.manifest.builds edge).implicit) }
    {
        let producers = self.producers(edge);
        let order_only = self.inputs(edge).order_only.len();
        let (counted, _) = producers.split_at(producers.len() - order_only);
        counted
    }

    /// The outputs of an edge.
    pub fn outputs(&self, edge: u32) -> Outputs<'_>
        requires { edge < length self.now.manifest.builds }
        ensures explicit { result.explicit.now ≡ (build_at self.now.manifest.builds edge).explicit_outs }
        ensures implicit { result.implicit.now ≡ (build_at self.now.manifest.builds edge).implicit_outs }
    {
        let edge = self.at(edge);
        Outputs {
            explicit: edge.explicit_outs(),
            implicit: edge.implicit_outs(),
        }
    }

    /// The paths after `|@` on an edge's build line.
    pub fn validations(&self, edge: u32) -> &[Name]
        requires { edge < length self.now.manifest.builds }
        ensures { result.now ≡ (build_at self.now.manifest.builds edge).validations }
    {
        self.at(edge).validations()
    }

    /// The command of an edge that is compared with the recorded one.
    pub fn command(&self, edge: u32) -> &[u8]
        requires { edge < length self.now.manifest.builds }
        ensures { result.now ≡ (build_at self.now.manifest.builds edge).command }
    {
        self.at(edge).command()
    }

    /// The same bytes, for another type whose values share them.
    ///
    /// # Errors
    /// [`AllocError`] where there are more copies than can be counted.
    pub fn shared_command(&self, edge: u32) -> Result<ArcSlice<u8>, AllocError>
        requires { edge < length self.now.manifest.builds }
        ensures { IfOk result (λ bytes. arc_slice_items bytes
            ≡ (build_at self.now.manifest.builds edge).command) }
    {
        self.at(edge).shared_command()
    }

    /// Whether an edge's rule is `phony`.
    pub fn is_phony(&self, edge: u32) -> bool
        requires { edge < length self.now.manifest.builds }
        ensures { result ≡ (build_at self.now.manifest.builds edge).phony }
    {
        self.at(edge).phony()
    }

    /// Whether the listing of an edge's depfile is kept.
    pub fn keeps_deps(&self, edge: u32) -> bool
        requires { edge < length self.now.manifest.builds }
        ensures { result ≡ (build_at self.now.manifest.builds edge).keeps_deps }
    {
        self.at(edge).keeps_deps()
    }

    /// Whether outputs that an edge's command leaves alone count as unchanged (Ninja manual, restat).
    pub fn restat(&self, edge: u32) -> bool
        requires { edge < length self.now.manifest.builds }
        ensures { result ≡ (build_at self.now.manifest.builds edge).restat }
    {
        self.at(edge).restat()
    }

    /// Whether an edge does not run for a change of its command alone (Ninja manual, generator).
    pub fn generator(&self, edge: u32) -> bool
        requires { edge < length self.now.manifest.builds }
        ensures { result ≡ (build_at self.now.manifest.builds edge).generator }
    {
        self.at(edge).generator()
    }

    /// The number and the depth of an edge's pool: none where it has no pool, or one of depth 0, which limits nothing
    /// (Ninja manual, pools).
    pub fn pool(&self, edge: u32) -> Option<(u32, u32)>
        requires { edge < length self.now.manifest.builds }
        ensures { result ≡ pool_of self.now.manifest edge }
    {
        numbered(self.manifest.pools(), self.at(edge).pool())
    }

    /// The depth of a pool by its number, as the manifest has it, also where it is 0 or no edge uses the pool. `None`
    /// where the manifest has no pool of that number (Ninja manual, pools).
    pub fn depth(&self, pool: u32) -> Option<u32>
        ensures { result ≡ depth_of self.now.manifest pool }
    {
        let (_, depth) = self.manifest.pools().get(pool as usize)?;
        Some(*depth)
    }

    /// The outputs that are built where no target is named.
    pub fn defaults(&self) -> &[Name]
        ensures { result.now ≡ self.now.manifest.defaults }
    {
        self.manifest.defaults()
    }

    /// Whether another graph lends the same: edges, pools by their numbers, and defaults. The names of pools, and where
    /// statements stand in which file, may be others. It takes no memory, and time linear in what the graphs have.
    pub fn lends_alike(&self, other: &Graph) -> bool
        ensures { IsTrue result ↔ LendAlike self.now.manifest other.now.manifest }
    {
        same_lent(&self.manifest, &other.manifest)
    }

    /// The graph of the same manifest, built again.
    ///
    /// # Errors
    /// [`AllocError`] only where an allocation was refused.
    pub fn again(&self, alloc: Global) -> Result<Graph, AllocError>
        ensures { IfOk result (λ graph. graph.manifest ≡ self.now.manifest) }
    {
        let _edges = self.edges();
        match Graph::build(alloc, &self.manifest) {
            Ok(graph) => Ok(graph),
            Err(fault) => match &fault {
                GraphFault::Memory => Err(AllocError),
                _ => unreachable!(),
            },
        }
    }

    /// The rank of an edge, which is below [`Graph::edges`] and above the ranks of the edges that produce its inputs.
    pub fn rank(&self, edge: u32) -> u32
        requires { edge < length self.now.manifest.builds }
        ensures rank { result ≡ rank_at self.now.ranks edge }
        ensures graph { IsGraph self.now }
    {
        self.ranks[edge as usize]
    }
}
