//! Numbers found by halving in a slice that rises.
ghost use Rattle.std.specs.Prelude.{◌≡◌, ◌<◌, ◌≤◌, ℕ, get_or, true, false, IfSome, IfNone, Some, length, slice_get, slice_index, IsTrue};
ghost use Rattle.std.specs.List.{AllByRecursion};
ghost use Rattle.rev_causal.specs.AccessLists.{first_above as first_above_in, lesser as lesser_of};
ghost use Rattle.rev_causal.specs.Chosen.{IsRising, is_among};

/// The place of a number.
pub fn place_of(numbers: &[u32], number: u32) -> Option<usize>
    requires { IsRising numbers.now }
    ensures found { IfSome result (λ place. place < length numbers.now) }
    ensures at { IfSome result (λ place. slice_index numbers.now place ≡ number) }
    ensures among { IfSome result (λ place. is_among numbers.now number ≡ true) }
    ensures absent { IfNone result (is_among numbers.now number ≡ false) }
{
    numbers.binary_search(&number).ok()
}

/// Whether a number is one of `numbers`. `first` is the first of these: a number below it is found not to be there
/// without a search.
pub fn is_one_of(numbers: &[u32], first: u32, number: u32) -> bool
    requires rising { IsRising numbers.now }
    requires first { slice_get numbers.now 0 ≡ Some first }
    ensures { result ≡ is_among numbers.now number }
{
    if number < first {
        return false;
    }
    place_of(numbers, number).is_some()
}

/// The first number above another.
pub fn first_above(numbers: &[u32], number: u32) -> Option<u32>
    requires { IsRising numbers.now }
    ensures { result ≡ first_above_in number numbers.now }
{
    number_at(numbers, place_above(numbers, number))
}

/// The place from which the numbers are above another.
pub fn place_above(numbers: &[u32], number: u32) -> usize
    requires { IsRising numbers.now }
    ensures within { result ≤ length numbers.now }
    ensures below { (j : ℕ) → j < result → get_or numbers.now j 0 ≤ number }
    ensures above { (j : ℕ) → result ≤ j → j < length numbers.now → number < get_or numbers.now j 0 }
{
    match numbers.binary_search(&number) {
        Ok(place) => place + 1,
        Err(place) => place,
    }
}

// The number at a place.
fn number_at(numbers: &[u32], place: usize) -> Option<u32>
    ensures { result ≡ slice_get numbers.now place }
{
    numbers.get(place).copied()
}

// Whether a number is above all of those, by a look at the last.
pub(crate) fn is_above_all(numbers: &[u32], number: u32) -> bool
    requires { IsRising numbers.now }
    ensures { IsTrue result → AllByRecursion (λ k. k < number) numbers.now }
{
    match numbers.last() {
        Some(last) => *last < number,
        None => true,
    }
}

/// The lesser of two numbers, where there is one.
pub fn lesser(first: Option<u32>, second: Option<u32>) -> Option<u32>
    ensures { result ≡ lesser_of first second }
{
    match first {
        None => second,
        Some(one) => match second {
            None => Some(one),
            Some(other) => if other < one { Some(other) } else { Some(one) },
        },
    }
}
