//! Sets of paths, by their numbers.
ghost use Rattle.std.specs.Prelude.{◌≡◌, is_some, IfSome};
ghost use Rattle.rev_observed.specs.PathSets.{AreRising, are_rising};

use std::marker::Model;

/// The numbers from one to another, both among them.
#[derive(Clone, Copy, Debug, PartialEq, Eq)]
pub struct PathRange {
    /// The first number.
    pub first: u32,
    /// The last number, which is not below the first in a set.
    pub last: u32,
}

/// Numbers of paths, as ranges that rise and have no number in common. They are never expanded: a text of `n` short
/// lines may name each of `n` paths in every line.
#[derive(Debug, Drop)]
pub struct PathSet {
    ranges: Vec<PathRange>,
}

impl Model for PathSet {
    ghost use Rattle.std.specs.Prelude.{List};
    ghost use Rattle.rev_observed.specs.declared.path_set.PathRange.{PathRange};
    ghost use Rattle.rev_observed.specs.PathSets.{AreRising};

    ghost Value = { List PathRange };

    ghost view = { λ s. s.ranges.items };

    ghost invariant = { λ s. AreRising s.ranges.items };
}

impl PathSet {
    /// The set that ranges are, or none where they do not rise.
    pub fn new(ranges: Vec<PathRange>) -> Option<PathSet>
        ensures rising { is_some result ≡ are_rising ranges.items }
        ensures set { IfSome result (λ set. set ≡ ranges.items) }
    {
        if !rise(&ranges) {
            return None;
        }
        Some(PathSet { ranges })
    }

    /// The ranges.
    pub fn ranges(&self) -> &[PathRange]
        ensures same { result.now ≡ self.now }
        ensures rising { AreRising self.now }
    {
        self.ranges.as_slice()
    }
}

// Whether each range stands above the one before it.
fn rise(ranges: &[PathRange]) -> bool
    ensures { result ≡ are_rising ranges.now }
{
    let mut least = 0u64;
    for range in ranges {
        if u64::from(range.first) < least || range.last < range.first {
            return false;
        }
        least = u64::from(range.last) + 1;
    }
    true
}
