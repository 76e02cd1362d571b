//! Notes of paths, by ranges of their numbers.
ghost use Rattle.std.specs.Prelude.{◌≡◌, ◌<◌, ◌==◌, ℕ, None, length, slice_index_or};
ghost use Rattle.rev_looked.specs.Ranges.{has_path as has_path_of, is_in, noted};

use rev_observed::PathRange;

/// Whether ranges have a number.
pub(crate) fn has_path(ranges: &[PathRange], path: u64) -> bool
    ensures { result ≡ has_path_of ranges.now path }
{
    ranges.iter().any(|range| u64::from(range.first) <= path && path <= u64::from(range.last))
}

// Notes a value of a path of which nothing was noted.
fn note<T: Copy>(notes: &mut [Option<T>], place: usize, value: T)
    requires { place < length notes.old }
    ensures { (path : ℕ) → path < length notes.old
        → slice_index_or notes.new path None ≡ noted (place == path) value (slice_index_or notes.old path None) }
{
    if notes[place].is_some() {
        return;
    }
    notes[place] = Some(value);
}

// Notes a value of each path of a range of which nothing was noted.
fn note_range<T: Copy>(notes: &mut [Option<T>], range: PathRange, value: T)
    ensures { (path : ℕ) → path < length notes.old
        → slice_index_or notes.new path None ≡ noted (is_in path range) value (slice_index_or notes.old path None) }
{
    let first = u64::from(range.first);
    let end = (u64::from(range.last) + 1).min(notes.len() as u64);
    if end <= first {
        return;
    }
    for path in first..end {
        note(notes, path as usize, value);
    }
}

/// Notes a value of each path of ranges of which nothing was noted.
pub(crate) fn note_ranges<T: Copy>(notes: &mut [Option<T>], ranges: &[PathRange], value: T)
    ensures { (path : ℕ) → path < length notes.old
        → slice_index_or notes.new path None
        ≡ noted (has_path_of ranges.now path) value (slice_index_or notes.old path None) }
{
    for range in ranges {
        note_range(notes, *range, value);
    }
}
