//! The line that counts what can make a next build stale.
ghost use Rattle.std.specs.Prelude.{◌≡◌, Some};
ghost use Rattle.rev_conflicts_text.specs.Stale.{and_if, counted_if, stale_line, stale_words};

use rev_races_text::Counted;
use std::fmt;

/// How many findings make a next build other than a build from nothing, though by them no schedule gives the commands
/// of this build other inputs.
#[derive(Clone, Copy)]
pub struct Stale {
    /// Undeclared outputs and outputs of others ([`rev_undeclared`]).
    pub undeclared: u64,
    /// Unlisted inputs for which nothing makes Ninja run their reader again ([`rev_unlisted`]).
    pub unlisted: u64,
}

// How many there are of something; nothing where there are none.
#[derive(Clone, Copy)]
struct CountedIf(Counted);

// What stands between the two counts, where neither is zero.
#[derive(Clone, Copy)]
struct AndIf(Stale);

// The counts that are not zero.
#[derive(Clone, Copy)]
struct StaleWords(Stale);

impl fmt::Display for CountedIf {
    ghost output = { λ c. Some (counted_if c.0.count c.0.one.now c.0.many.now) };

    #[tactic(auto, unfolding(crate::specs::Stale::counted_if))]
    fn fmt<W: fmt::Write>(&self, f: &mut fmt::Formatter<W>) -> fmt::Result {
        let counted = self.0;
        if counted.count == 0 {
            return Ok(());
        }
        write!(f, "{counted}")
    }
}

impl fmt::Display for AndIf {
    ghost output = { λ a. Some (and_if a.0.undeclared a.0.unlisted) };

    #[tactic(auto, unfolding(crate::specs::Stale::and_if))]
    fn fmt<W: fmt::Write>(&self, f: &mut fmt::Formatter<W>) -> fmt::Result {
        let Stale {
            undeclared,
            unlisted,
        } = self.0;
        if undeclared == 0 {
            return Ok(());
        }
        if unlisted == 0 {
            return Ok(());
        }
        write!(f, " and ")
    }
}

impl fmt::Display for StaleWords {
    ghost output = { λ w. Some (stale_words w.0.undeclared w.0.unlisted) };

    #[tactic(auto, unfolding(crate::specs::Stale::stale_words))]
    fn fmt<W: fmt::Write>(&self, f: &mut fmt::Formatter<W>) -> fmt::Result {
        let outputs = CountedIf(Counted {
            count: self.0.undeclared,
            one: "undeclared output",
            many: "undeclared outputs",
        });
        let and = AndIf(self.0);
        let inputs = CountedIf(Counted {
            count: self.0.unlisted,
            one: "unlisted input",
            many: "unlisted inputs",
        });
        write!(f, "{outputs}{and}{inputs}")
    }
}

impl fmt::Display for Stale {
    ghost output = { λ s. Some (stale_line s.undeclared s.unlisted) };

    fn fmt<W: fmt::Write>(&self, f: &mut fmt::Formatter<W>) -> fmt::Result {
        let words = StaleWords(*self);
        if self.undeclared == 0 && self.unlisted == 0 {
            return Ok(());
        }
        write!(
            f,
            "  not certified: what a next build makes, which {words} can leave stale (rebug races)\n"
        )
    }
}
