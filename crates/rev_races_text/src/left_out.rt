//! How much an answer leaves out.
ghost use Rattle.std.specs.Prelude.{◌≡◌, Some};
ghost use Rattle.rev_races_text.specs.LeftOut.{hidden_line, hidden_words, known_words, left_out_line};

use crate::counts::Counted;
use crate::names::Shown;
use serde::Serialize;
use std::fmt;

/// How much an answer leaves out because the user asked for that.
#[derive(Clone, Copy, PartialEq, Eq, Serialize)]
pub struct LeftOut {
    /// At how many places filters hide that commands meet.
    pub hidden: u64,
    /// How many findings the baseline knows.
    pub known: u64,
    /// How many other findings it ignores.
    pub ignored: u64,
}

/// A place that filters hide, where commands meet.
#[derive(Clone, Copy, Serialize)]
pub struct Hidden<'a> {
    /// The path of the file, or of the folder.
    pub path: Shown<'a>,
    /// Whether the commands meet at the entries of the folder.
    pub entries: bool,
}

// How many findings are left out by a baseline.
#[derive(Clone, Copy)]
struct KnownWords(LeftOut);

impl LeftOut {
    /// Nothing is left out.
    pub const NOTHING: LeftOut = LeftOut {
        hidden: 0,
        known: 0,
        ignored: 0,
    };

    /// Whether something is left out.
    pub fn is_any(&self) -> bool {
        *self != LeftOut::NOTHING
    }

    /// How many findings a baseline leaves out.
    pub fn findings(&self) -> u64 {
        u64::saturating_add(self.known, self.ignored)
    }

    /// Whether a baseline leaves findings out.
    pub fn is_by_baseline(&self) -> bool {
        self.findings() != 0
    }
}

// What stands before the path of a hidden place.
fn hidden_words(entries: bool) -> &'static str
    ensures { result.now ≡ hidden_words entries }
{
    if entries {
        "  hidden: the entries of "
    } else {
        "  hidden: "
    }
}

impl fmt::Display for Hidden<'_> {
    ghost output = { λ h. Some (hidden_line h.entries h.path.0.now) };

    fn fmt<W: fmt::Write>(&self, f: &mut fmt::Formatter<W>) -> fmt::Result {
        let words = hidden_words(self.entries);
        let path = self.path;
        write!(f, "{words}{path}\n")
    }
}

impl fmt::Display for KnownWords {
    ghost output = { λ w. Some (known_words w.0.known w.0.ignored) };

    fn fmt<W: fmt::Write>(&self, f: &mut fmt::Formatter<W>) -> fmt::Result {
        let LeftOut { known, ignored, .. } = self.0;
        if known == 0 && ignored == 0 {
            return Ok(());
        }
        write!(f, "baseline: {known} known, {ignored} ignored\n")
    }
}

impl fmt::Display for LeftOut {
    ghost output = { λ l. Some (left_out_line l) };

    fn fmt<W: fmt::Write>(&self, f: &mut fmt::Formatter<W>) -> fmt::Result {
        let known = KnownWords(*self);
        if self.hidden == 0 {
            return write!(f, "{known}");
        }
        let places = Counted {
            count: self.hidden,
            one: "place",
            many: "places",
        };
        write!(f, "filters hide {places} where commands meet\n{known}")
    }
}
