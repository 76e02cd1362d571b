//! Ranks for the nodes of a directed graph.
ghost use Rattle.std.specs.Prelude.{◌≡◌, ◌<◌, ℕ, ◌^◌, length, IfOk, OnOk};
ghost use Rattle.std.specs.List.{All};
ghost use Rattle.rev_ranks.specs.Graph.{graph_of, AreRanks, IsLeastOnCycle, Reaches};

use super::RankFault;
use super::certificate::first_level;
use super::components::components;
use std::alloc::Global;

/// Ranks for the nodes of a directed graph, in which node n steps to each node of `successors[n]`: a node's rank is
/// above those of the nodes that it steps to.
///
/// The numbers of the strongly connected components serve as ranks, unless some step stays within a component. It takes
/// time and memory linear in nodes and steps.
///
/// # Errors
/// `Cycle` names the least node that reaches itself, where there is one. `Memory` comes only where an allocation was
/// refused.
pub fn ranks(alloc: Global, successors: &[Vec<u32>]) -> Result<Vec<u32>, RankFault>
    requires inside { All (λ v. All (λ s. s < length successors.now) v.items) successors.now }
    requires small { length successors.now < 2 ^ 32 }
    ensures ok { IfOk result (λ ranks. AreRanks (graph_of successors.now) ranks.items) }
    ensures acyclic { OnOk result ((n : ℕ) → Reaches (graph_of successors.now) n n → ⊥) }
    ensures cycle { (n : ℕ) → result ≡ Err (RankFault.Cycle n) → IsLeastOnCycle (graph_of successors.now) n }
{
    let numbers = components(alloc, successors)?;
    match first_level(successors, &numbers) {
        None => Ok(numbers),
        Some(node) => Err(RankFault::Cycle(node)),
    }
}
