//! The versions of the format.
ghost use Rattle.std.specs.Prelude.{◌≡◌, ◌==◌, ◌&&◌, nat_lt, if◌then◌else◌, Some, None};
ghost use Rattle.rev_fields.specs.Parts.{lent_of};
ghost use Rattle.rev_trace.specs.Versions.{is_first, may_begin as may_begin_in, may_name as may_name_in, version_of};

use std::borrow::CowSlice;

/// A version of the format.
#[derive(Clone, Copy, Debug, PartialEq, Eq)]
pub(crate) enum Version {
    /// A lane stands in one part, and holds no `resize`.
    One,
    /// A lane that was opened may be named again, and lanes hold `resize` too.
    Two,
}

impl Version {
    /// The version that a first line names.
    pub(crate) fn of_line(line: &[u8]) -> Option<Version>
        ensures { result ≡ if is_first line.now then Some (version_of line.now) else None }
    {
        if line == b"rebug-trace 1".as_slice() {
            return Some(Version::One);
        }
        if line == b"rebug-trace 2".as_slice() {
            return Some(Version::Two);
        }
        None
    }

    /// Whether a lane line may name this lane, where so many are open.
    pub(crate) fn may_name(self, count: usize, number: u32) -> bool
        ensures { result ≡ may_name_in self count number }
    {
        match self {
            Version::One => number as usize == count,
            Version::Two => number as usize <= count,
        }
    }

    /// Whether a line of a lane may begin with the word that stands first among these texts.
    pub(crate) fn may_begin(self, texts: &[CowSlice<'_, u8>]) -> bool
        ensures { result ≡ may_begin_in self (lent_of texts.now) }
    {
        match (self, texts.first()) {
            (Version::One, Some(word)) => word.as_slice() != b"resize".as_slice(),
            _ => true,
        }
    }
}
