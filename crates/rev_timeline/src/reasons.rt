//! Why commands ran, by the state of the plan.
use rev_cells::Cells;
use rev_dirty::DependencyScan;
use rev_graph::Graph;
use rev_listing::reason_word;
use std::alloc::{AllocError, Global};
use std::marker::Model;

/// The reasons of the edges of a graph in one state. It keeps what it learned of phony edges, as the scan below it does.
#[derive(Drop)]
pub(crate) struct PlanReasons<'a> {
    graph: &'a Graph,
    scan: DependencyScan<'a>,
}

impl<'a> Model for PlanReasons<'a> {
    ghost use Rattle.std.specs.Prelude.{◌≡◌};
    ghost use Rattle.rev_dirty.specs.ScanValue.{ScanValue, scan_code};

    ghost Value = { ScanValue };

    ghost coded = { scan_code };

    ghost view = { λ a. a.scan };

    ghost invariant = { λ a. a.scan.graph ≡ a.graph.now };
}

impl<'a> PlanReasons<'a> {
    /// Reasons that nothing was learned of yet. It takes no memory.
    pub(crate) fn new(alloc: Global, graph: &'a Graph, cells: &'a Cells) -> PlanReasons<'a> {
        let scan = DependencyScan::new(alloc, graph, cells);
        PlanReasons { graph, scan }
    }

    /// Adds the words of the reasons of an edge, each once. None are added where the edge waits for others that are to
    /// run.
    ///
    /// # Errors
    /// [`AllocError`] only where an allocation was refused.
    pub(crate) fn push_words(
        &mut self,
        edge: u32,
        words: &mut Vec<&'static str>,
    ) -> Result<(), AllocError> {
        if edge >= self.graph.edges() {
            return Ok(());
        }
        let reasons = self.scan.reasons(edge)?;
        for reason in &reasons {
            let word = reason_word(*reason);
            if !words.contains(&word) {
                words.push(word)?;
            }
        }
        Ok(())
    }
}
