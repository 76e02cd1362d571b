//! Whether lists of numbers are a graph.
ghost use Rattle.std.specs.Prelude.{◌≡◌, ◌<◌, ◌^◌, nat_lt, length, IsTrue};
ghost use Rattle.std.specs.List.{All, list_all};

// Whether each number is below a bound.
fn are_below(numbers: &[u32], bound: usize) -> bool
    ensures { result ≡ list_all (λ n. nat_lt n bound) numbers.now }
{
    numbers.iter().all(|number| (*number as usize) < bound)
}

// Whether each number in each list is that of a list.
fn are_inside(steps: &[Vec<u32>]) -> bool
    ensures { IsTrue result → All (λ v. All (λ s. s < length steps.now) v.items) steps.now }
{
    for node in 0..steps.len() {
        let below = are_below(&steps[node], steps.len());
        if !below {
            return false;
        }
    }
    true
}

/// Whether lists are a graph: each number in them is that of a list, and a number of 32 bits counts the lists.
pub(crate) fn is_graph(steps: &[Vec<u32>]) -> bool
    ensures inside { IsTrue result → All (λ v. All (λ s. s < length steps.now) v.items) steps.now }
    ensures small { IsTrue result → length steps.now < 2 ^ 32 }
{
    if steps.len() > u32::MAX as usize {
        return false;
    }
    are_inside(steps)
}
