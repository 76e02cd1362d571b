//! Steps along which the number of a component stays the same.
ghost use Rattle.std.specs.Prelude.{◌≡◌, ◌<◌, ◌≤◌, ◌^◌, ℕ, length, slice_index_or, MatchOption};
ghost use Rattle.std.specs.List.{All};
ghost use Rattle.rev_ranks.specs.Certificate.{FallsBelow, IsFirstLevel};
ghost use Rattle.rev_ranks.specs.Graph.{graph_of};

/// A bound above the numbers of the nodes: one more than the greatest, 0 where there are none.
fn bound_above(nodes: &[u32], numbers: &[u32]) -> usize
    requires { All (λ s. s < length numbers.now) nodes.now }
    ensures above { All (λ s. slice_index_or numbers.now s 0 < result) nodes.now }
    ensures least { (bound : ℕ) → All (λ s. slice_index_or numbers.now s 0 < bound) nodes.now → result ≤ bound }
{
    let mut bound = 0;
    for node in nodes {
        let number = numbers[*node as usize] as usize;
        if bound <= number {
            bound = number + 1;
        }
    }
    bound
}

/// The least node that has a step to a node of no lesser number.
pub(crate) fn first_level(successors: &[Vec<u32>], numbers: &[u32]) -> Option<u32>
    requires inside { All (λ v. All (λ s. s < length successors.now) v.items) successors.now }
    requires each { length numbers.now ≡ length successors.now }
    requires small { length successors.now < 2 ^ 32 }
    ensures { MatchOption result
        (FallsBelow (graph_of successors.now) numbers.now (length successors.now))
        (λ m. (m < length successors.now)
        × IsFirstLevel (graph_of successors.now) numbers.now m) }
{
    for node in 0..successors.len() {
        if (numbers[node] as usize) < bound_above(&successors[node], numbers) {
            return Some(node as u32);
        }
    }
    None
}
