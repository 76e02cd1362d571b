//! Masks, in which each bit is a mark.
ghost use Rattle.std.specs.Prelude.{◌≡◌, ◌||◌, ◌<◌, ◌≤◌, ℕ, length, nat_eq};
ghost use Rattle.rev_marks.specs.Masks.{has_mark, is_asked, mask_under};

use indexmap::IndexMap;

/// So many events can be asked of at once: a mask has a bit for each.
pub const MOST: usize = 64;

// The marks with one more.
fn with_mark(marks: u64, place: usize) -> u64
    requires { place < 64 }
    ensures { (i : ℕ) → has_mark i result ≡ (has_mark i marks || nat_eq place i) }
{
    marks | 1 << place
}

/// The marks of the places at which a number stands among some.
pub(crate) fn asked_marks(asked: &[u32], number: u32) -> u64
    requires { length asked.now ≤ 64 }
    ensures { (i : ℕ) → has_mark i result ≡ is_asked asked.now i number }
{
    let mut marks = 0;
    for place in 0..asked.len() {
        if asked[place] == number {
            marks = with_mark(marks, place);
        }
    }
    marks
}

/// Whether the mask under a number has the bit of a place.
pub fn is_marked(marks: &IndexMap<u32, u64>, place: usize, number: u32) -> bool
    requires { place < 64 }
    ensures { result ≡ has_mark place (mask_under marks.now.entries number) }
{
    match marks.get(&number) {
        Some(mask) => *mask >> place & 1 == 1,
        None => false,
    }
}
