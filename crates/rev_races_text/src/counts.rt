//! The line that counts: what was found, how many commands ran, and which of these were not judged.
ghost use Rattle.std.specs.Prelude.{◌≡◌, ◌++◌, ◌==◌, ◌&&◌, Some, if◌then◌else◌, codes};
ghost use Rattle.rev_races_text.specs.Counts.{collectors_words, counted, ends_words, found_words, more_words, names_some, names_words, others_words, plain_words, races_words, ran_words, some_words, tally_words, three_words, unjudged_words, whole_words};

use crate::edges::Edge;
use crate::names::NameIf;
use std::fmt;

/// How many findings an observation shows, of each kind.
#[derive(Clone, Copy)]
pub struct Seen {
    /// Races.
    pub races: u64,
    /// Cycles.
    pub cycles: u64,
    /// Files that two commands leave.
    pub clashes: u64,
    /// Files that change after a command looked at them.
    pub unstable: u64,
    /// Undeclared outputs, and outputs of others.
    pub undeclared: u64,
    /// Unlisted inputs for which nothing makes Ninja run their reader again.
    pub unlisted: u64,
    /// Commands that ran and were observed whole.
    pub whole: u64,
}

impl Seen {
    /// No finding.
    pub const NOTHING: Seen = Seen {
        races: 0,
        cycles: 0,
        clashes: 0,
        unstable: 0,
        undeclared: 0,
        unlisted: 0,
        whole: 0,
    };
}

/// The numbers in the line that counts.
#[derive(Clone, Copy)]
pub struct Tally {
    /// Commands that failed.
    pub failed: u64,
    /// Races, suspects that an error names among them.
    pub races: u64,
    /// Cycles.
    pub cycles: u64,
    /// Paths that their own commands list.
    pub own: u64,
    /// Clashes.
    pub clashes: u64,
    /// Files that change after a command looked at them.
    pub unstable: u64,
    /// Undeclared outputs, and outputs of others.
    pub undeclared: u64,
    /// Unlisted inputs for which nothing makes Ninja run their reader again.
    pub unlisted: u64,
    /// Commands that ran.
    pub ran: u64,
    /// How many of these were observed whole, where the recording has an observation.
    pub whole: Option<u64>,
}

/// A number of things, as `1 command` or `2 commands`.
#[derive(Clone, Copy)]
pub struct Counted {
    /// How many there are.
    pub count: u64,
    /// What one is called.
    pub one: &'static str,
    /// What others are called.
    pub many: &'static str,
}

// The same behind a comma, unless it comes first; nothing where there are none.
#[derive(Clone, Copy)]
struct Listed {
    is_first: bool,
    counted: Counted,
}

// The same behind some words; nothing where there are none.
#[derive(Clone, Copy)]
struct Further {
    before: &'static str,
    counted: Counted,
}

// The three kinds of races, where there is one.
#[derive(Clone, Copy)]
struct Three(Tally);

// The same where there may be none.
#[derive(Clone, Copy)]
struct Races(Tally);

// How many commands ran.
#[derive(Clone, Copy)]
struct Ran(u64);

// How many commands failed, and the races.
#[derive(Clone, Copy)]
struct FoundCounts(Tally);

// How many of the commands that ran were observed whole.
#[derive(Clone, Copy)]
struct Whole {
    ran: u64,
    whole: Option<u64>,
}

// How many unstable files, undeclared outputs and unlisted inputs there are.
#[derive(Clone, Copy)]
struct OtherCounts(Tally);

// How many clashes there are, and commands that ran.
#[derive(Clone, Copy)]
struct EndCounts(Tally);

// Edges by their first outputs, with commas.
#[derive(Clone, Copy)]
struct Names<'a>(&'a [Edge<'a>]);

// The same of the first, or of all.
#[derive(Clone, Copy)]
struct SomeNames<'a> {
    all: bool,
    edges: &'a [Edge<'a>],
}

// Commands that only collect outputs.
#[derive(Clone, Copy)]
struct Collectors<'a> {
    all: bool,
    edges: &'a [Edge<'a>],
}

/// Which commands ran and were not judged.
#[derive(Clone, Copy)]
pub(crate) struct NotJudged<'a> {
    pub(crate) all: bool,
    pub(crate) plain: &'a [Edge<'a>],
    pub(crate) collectors: &'a [Edge<'a>],
}

impl fmt::Display for Counted {
    ghost output = { λ c. Some (counted c.count c.one.now c.many.now) };

    #[tactic(auto, unfolding(crate::specs::Counts::counted))]
    fn fmt<W: fmt::Write>(&self, f: &mut fmt::Formatter<W>) -> fmt::Result {
        let count = self.count;
        let word = if count == 1 { self.one } else { self.many };
        write!(f, "{count} {word}")
    }
}

impl fmt::Display for Listed {
    ghost output = { λ l. Some (some_words l.is_first l.counted.count l.counted.one.now l.counted.many.now) };

    #[tactic(auto, unfolding(crate::specs::Counts::some_words))]
    fn fmt<W: fmt::Write>(&self, f: &mut fmt::Formatter<W>) -> fmt::Result {
        let counted = self.counted;
        if counted.count == 0 {
            return Ok(());
        }
        if self.is_first {
            write!(f, "{counted}")
        } else {
            write!(f, ", {counted}")
        }
    }
}

impl fmt::Display for Further {
    ghost output = { λ m. Some (more_words m.before.now m.counted.count m.counted.one.now m.counted.many.now) };

    #[tactic(auto, unfolding(crate::specs::Counts::more_words))]
    fn fmt<W: fmt::Write>(&self, f: &mut fmt::Formatter<W>) -> fmt::Result {
        let (before, counted) = (self.before, self.counted);
        if counted.count == 0 {
            return Ok(());
        }
        write!(f, "{before}{counted}")
    }
}

// Whether there is none of two kinds.
fn are_none(one: u64, other: u64) -> bool
    ensures { result ≡ (one == 0 && other == 0) }
{
    one == 0 && other == 0
}

// Whether there is none of three kinds.
fn is_empty(races: u64, cycles: u64, own: u64) -> bool
    ensures { result ≡ (races == 0 && (cycles == 0 && own == 0)) }
{
    races == 0 && (cycles == 0 && own == 0)
}

impl fmt::Display for Three {
    ghost output = { λ t. Some (three_words t.0) };

    #[tactic(auto, unfolding(crate::specs::Counts::three_words))]
    fn fmt<W: fmt::Write>(&self, f: &mut fmt::Formatter<W>) -> fmt::Result {
        let Tally {
            races,
            cycles,
            own,
            ..
        } = self.0;
        let one = Listed {
            is_first: true,
            counted: Counted {
                count: races,
                one: "race",
                many: "races",
            },
        };
        let two = Listed {
            is_first: races == 0,
            counted: Counted {
                count: cycles,
                one: "cycle",
                many: "cycles",
            },
        };
        let three = Listed {
            is_first: are_none(races, cycles),
            counted: Counted {
                count: own,
                one: "path that its own command lists",
                many: "paths that their own commands list",
            },
        };
        write!(f, "{one}{two}{three}")
    }
}

impl fmt::Display for Races {
    ghost output = { λ r. Some (races_words r.0) };

    #[tactic(auto, unfolding(crate::specs::Counts::races_words))]
    fn fmt<W: fmt::Write>(&self, f: &mut fmt::Formatter<W>) -> fmt::Result {
        let three = Three(self.0);
        if is_empty(self.0.races, self.0.cycles, self.0.own) {
            write!(f, "no race")
        } else {
            write!(f, "{three}")
        }
    }
}

impl fmt::Display for Ran {
    ghost output = { λ ran. Some (ran_words ran.0) };

    #[tactic(auto, unfolding(crate::specs::Counts::ran_words))]
    fn fmt<W: fmt::Write>(&self, f: &mut fmt::Formatter<W>) -> fmt::Result {
        if self.0 == 0 {
            return write!(f, "no command ran");
        }
        let commands = Counted {
            count: self.0,
            one: "command",
            many: "commands",
        };
        write!(f, "{commands} ran")
    }
}

impl fmt::Display for FoundCounts {
    ghost output = { λ t. Some (found_words t.0) };

    #[tactic(auto, unfolding(crate::specs::Counts::found_words))]
    fn fmt<W: fmt::Write>(&self, f: &mut fmt::Formatter<W>) -> fmt::Result {
        let failed = Listed {
            is_first: true,
            counted: Counted {
                count: self.0.failed,
                one: "command failed; ",
                many: "commands failed; ",
            },
        };
        let races = Races(self.0);
        write!(f, "{failed}{races}")
    }
}

impl fmt::Display for EndCounts {
    ghost output = { λ t. Some (ends_words t.0) };

    #[tactic(auto, unfolding(crate::specs::Counts::ends_words))]
    fn fmt<W: fmt::Write>(&self, f: &mut fmt::Formatter<W>) -> fmt::Result {
        let clashes = Further {
            before: "; ",
            counted: Counted {
                count: self.0.clashes,
                one: "clash",
                many: "clashes",
            },
        };
        let others = OtherCounts(self.0);
        let ran = Ran(self.0.ran);
        let whole = Whole {
            ran: self.0.ran,
            whole: self.0.whole,
        };
        write!(f, "{clashes}{others}; {ran}{whole}")
    }
}

impl fmt::Display for OtherCounts {
    ghost output = { λ t. Some (others_words t.0) };

    #[tactic(auto, unfolding(crate::specs::Counts::others_words))]
    fn fmt<W: fmt::Write>(&self, f: &mut fmt::Formatter<W>) -> fmt::Result {
        let unstable = Further {
            before: "; ",
            counted: Counted {
                count: self.0.unstable,
                one: "unstable file",
                many: "unstable files",
            },
        };
        let undeclared = Further {
            before: "; ",
            counted: Counted {
                count: self.0.undeclared,
                one: "undeclared output",
                many: "undeclared outputs",
            },
        };
        let unlisted = Further {
            before: "; ",
            counted: Counted {
                count: self.0.unlisted,
                one: "unlisted input",
                many: "unlisted inputs",
            },
        };
        write!(f, "{unstable}{undeclared}{unlisted}")
    }
}

impl fmt::Display for Whole {
    ghost output = { λ w. Some (whole_words w.ran w.whole) };

    fn fmt<W: fmt::Write>(&self, f: &mut fmt::Formatter<W>) -> fmt::Result {
        let Some(whole) = self.whole else {
            return Ok(());
        };
        if self.ran == 0 {
            return Ok(());
        }
        if whole == self.ran {
            return write!(f, ", all observed whole");
        }
        write!(f, ", {whole} of them observed whole")
    }
}

impl fmt::Display for Tally {
    ghost output = { λ t. Some (tally_words t) };

    fn fmt<W: fmt::Write>(&self, f: &mut fmt::Formatter<W>) -> fmt::Result {
        let (found, ends) = (FoundCounts(*self), EndCounts(*self));
        write!(f, "{found}{ends}")
    }
}

impl fmt::Display for Names<'_> {
    ghost output = { λ n. Some (names_words n.0.now) };

    fn fmt<W: fmt::Write>(&self, f: &mut fmt::Formatter<W>) -> fmt::Result {
        let [first, rest @ ..] = self.0 else {
            return Ok(());
        };
        write!(f, "{}", NameIf(first.output))?;
        for edge in rest {
            write!(f, ", {}", NameIf(edge.output))?;
        }
        Ok(())
    }
}

impl fmt::Display for SomeNames<'_> {
    ghost output = { λ n. Some (names_some n.all n.edges.now) };

    #[tactic(auto, unfolding(crate::specs::Counts::names_some))]
    fn fmt<W: fmt::Write>(&self, f: &mut fmt::Formatter<W>) -> fmt::Result {
        let edges = self.edges;
        if self.all || edges.len() <= 3 {
            return write!(f, "{}", Names(edges));
        }
        write!(f, "{} ...", Names(&edges[..3]))
    }
}

impl fmt::Display for Collectors<'_> {
    ghost output = { λ c. Some (collectors_words c.all c.edges.now) };

    #[tactic(auto, unfolding(crate::specs::Counts::collectors_words))]
    fn fmt<W: fmt::Write>(&self, f: &mut fmt::Formatter<W>) -> fmt::Result {
        let counted = Counted {
            count: self.edges.len() as u64,
            one: "that only collects outputs",
            many: "that only collect outputs",
        };
        if self.all {
            write!(f, "{counted} ({})", Names(self.edges))
        } else {
            write!(f, "{counted}")
        }
    }
}

impl fmt::Display for NotJudged<'_> {
    ghost output = { λ n. Some (unjudged_words n.all n.plain.now n.collectors.now) };

    fn fmt<W: fmt::Write>(&self, f: &mut fmt::Formatter<W>) -> fmt::Result {
        let all = self.all;
        let some = SomeNames {
            all,
            edges: self.plain,
        };
        let collectors = Collectors {
            all,
            edges: self.collectors,
        };
        let count = self.plain.len();
        match (self.plain.is_empty(), self.collectors.is_empty()) {
            (true, true) => Ok(()),
            (false, true) => write!(f, "; not judged: {count} ({some})"),
            (true, false) => write!(f, "; not judged: {collectors}"),
            (false, false) => write!(f, "; not judged: {count} ({some}), and {collectors}"),
        }
    }
}
