//! Races, cycles and own paths.
ghost use Rattle.std.specs.Prelude.{◌≡◌, Some, ◌==◌, bytes_eq};
ghost use Rattle.rev_races_text.specs.Lines.{before_line, evidence_line, kind_word, maker_line, maker_words, mend_line, more_line, progress_words, through_words, user_ends, user_line, user_words};

use crate::edges::{Edge, LineIf, Sources};
use crate::here::HereLine;
use crate::names::{Made, NameIf, Shown, Written, WrittenIf};
use rev_paths::Name;
use rev_races::{Kind, Story};
use rev_suspects::{Basis, Progress};
use std::fmt;

/// What the recording says of a user whose command began here and did not end well. Its list is that of an earlier
/// build.
#[derive(Clone, Copy)]
pub struct ListedBefore {
    /// The number of the event by which it failed, where it did.
    pub failed: Option<u32>,
    /// How far the maker was when it began, where neither waits for the other and the maker was not through.
    pub maker: Option<Progress>,
}

/// What this recording shows of a race.
#[derive(Clone, Copy)]
pub enum Evidence {
    /// A command lists its own output, so there is only one run.
    Own,
    /// What happened here. The list is of this recording, or of an earlier build that this one had not to do again.
    Story(Story),
    /// The user did not end well here, and the list is that of an earlier build.
    Earlier(ListedBefore),
    /// The user failed, its error names the path, and the maker was not settled when the user began.
    Error(Progress),
}

/// A race as answers have it. Edges stand by their numbers.
#[derive(Clone, Copy)]
pub struct RaceFinding<'a> {
    /// What it is.
    pub kind: Kind,
    /// The edge that makes the path.
    pub maker: u32,
    /// The edge that lists it, or whose error names it.
    pub user: u32,
    /// The path.
    pub path: &'a Name,
    /// On what the user's list rests. It is None where the error of the user names the path.
    pub basis: Option<Basis>,
    /// What this recording shows of it.
    pub evidence: Evidence,
    /// The output that is to be added to the user's order-only inputs. It is None where no order mends the race, and
    /// where no output of the maker can be written on a build line.
    pub mend: Option<&'a Name>,
}

// The line of a maker.
#[derive(Clone, Copy)]
pub(crate) struct MakerLine<'a> {
    pub(crate) kind: Kind,
    pub(crate) path: Made<'a>,
    pub(crate) maker: Edge<'a>,
}

/// By which paths a user is in the race. It is empty where that is one path, and the maker's line has it.
#[derive(Clone, Copy)]
pub struct Through<'a> {
    /// The path that the maker's line has.
    pub told: Shown<'a>,
    /// The first path of the user.
    pub path: Made<'a>,
    /// How many more there are.
    pub more: u64,
}

// The line of a user, which is in as many more races with the same maker.
#[derive(Clone, Copy)]
pub(crate) struct UserLine<'a> {
    pub(crate) kind: Kind,
    pub(crate) told: Shown<'a>,
    pub(crate) path: Made<'a>,
    pub(crate) more: u64,
    pub(crate) user: Edge<'a>,
    pub(crate) number: u64,
}

// The line of what this recording shows.
#[derive(Clone, Copy)]
pub(crate) struct EvidenceLine<'a> {
    pub(crate) evidence: Evidence,
    pub(crate) path: Shown<'a>,
}

/// The line of a mend: an order-only input of the user.
#[derive(Clone, Copy)]
pub struct MendLine<'a> {
    /// The user.
    pub user: Edge<'a>,
    /// The input.
    pub output: Shown<'a>,
}

/// The line of a race that an order mends, where no output of the maker can be written on a build line.
pub const NO_MEND: &str = "    mend: no output of the maker can be written on a build line\n";

/// How many are left out, between two texts. It is empty where that number is 0.
#[derive(Clone, Copy)]
pub struct More {
    /// What stands before the number.
    pub before: &'static str,
    /// How many there are.
    pub more: u64,
    /// What stands after the number.
    pub after: &'static str,
}

impl<'a> Sources<'a> {
    /// The edge that makes the path of a race, with the run that the answer is about.
    pub fn maker(&self, told: &RaceFinding<'_>) -> Edge<'a> {
        match told.evidence {
            Evidence::Story(story) => self.edge_in(told.maker, story.maker),
            _ => self.edge(told.maker),
        }
    }

    /// The edge that uses the path, with the run that the answer is about.
    pub fn user(&self, told: &RaceFinding<'_>) -> Edge<'a> {
        match told.evidence {
            Evidence::Story(story) => self.edge_in(told.user, story.user),
            _ => self.edge(told.user),
        }
    }
}

// The word for a race of a kind.
fn kind_word(kind: Kind) -> &'static str
    ensures { result.now ≡ kind_word kind }
{
    match kind {
        Kind::Race => "race",
        Kind::Cycle => "cycle",
        Kind::Own => "own",
    }
}

// What is said behind a user.
fn user_ends(kind: Kind) -> &'static str
    ensures { result.now ≡ user_ends kind }
{
    match kind {
        Kind::Race => ", which does not wait for it",
        Kind::Cycle => ", for which the maker waits: no order mends that",
        Kind::Own => ", which makes it: no order mends that",
    }
}

impl fmt::Display for MakerLine<'_> {
    ghost output = { λ l. Some (maker_line l.kind l.path l.maker) };

    fn fmt<W: fmt::Write>(&self, f: &mut fmt::Formatter<W>) -> fmt::Result {
        let kind = kind_word(self.kind);
        let (path, maker) = (self.path, self.maker);
        write!(f, "{kind} {path} made by {maker}\n")
    }
}

impl fmt::Display for Through<'_> {
    ghost output = { λ t. Some (through_words t.told.0.now t.path t.more) };

    #[tactic(auto, unfolding(crate::specs::Lines::through_words))]
    fn fmt<W: fmt::Write>(&self, f: &mut fmt::Formatter<W>) -> fmt::Result {
        let (path, more) = (self.path, self.more);
        if more != 0 {
            return write!(f, " through {path} and {more} more");
        }
        if path.path.0 == self.told.0 {
            return Ok(());
        }
        write!(f, " through {path}")
    }
}

impl fmt::Display for UserLine<'_> {
    ghost output = { λ l. Some (user_line l.kind l.told.0.now l.path l.more l.user l.number) };

    fn fmt<W: fmt::Write>(&self, f: &mut fmt::Formatter<W>) -> fmt::Result {
        let through = Through {
            told: self.told,
            path: self.path,
            more: self.more,
        };
        let (user, number) = (self.user, self.number);
        let ends = user_ends(self.kind);
        write!(f, "  used by {user}{through}{ends} [{number}]\n")
    }
}

// How the command of a user ended that did not end well.
#[derive(Clone, Copy)]
struct UserWords(Option<u32>);

// How far a maker was then, where that is known.
#[derive(Clone, Copy)]
struct MakerWords(Option<Progress>);

impl fmt::Display for UserWords {
    ghost output = { λ w. Some (user_words w.0) };

    fn fmt<W: fmt::Write>(&self, f: &mut fmt::Formatter<W>) -> fmt::Result {
        match self.0 {
            Some(number) => write!(f, "the user failed at {number}"),
            None => write!(f, "the user did not end well"),
        }
    }
}

impl fmt::Display for MakerWords {
    ghost output = { λ w. Some (maker_words w.0) };

    fn fmt<W: fmt::Write>(&self, f: &mut fmt::Formatter<W>) -> fmt::Result {
        match self.0 {
            Some(progress) => {
                let words = progress_words(progress);
                write!(f, ", and the maker {words} when it began")
            }
            None => Ok(()),
        }
    }
}

impl fmt::Display for ListedBefore {
    ghost output = { λ l. Some (before_line l) };

    #[tactic(auto, unfolding(crate::specs::Lines::before_line))]
    fn fmt<W: fmt::Write>(&self, f: &mut fmt::Formatter<W>) -> fmt::Result {
        let user = UserWords(self.failed);
        let maker = MakerWords(self.maker);
        write!(
            f,
            "    here: {user}{maker}; it listed this when it was built before\n"
        )
    }
}

// How far the maker was.
fn progress_words(progress: Progress) -> &'static str
    ensures { result.now ≡ progress_words progress }
{
    match progress {
        Progress::Running => "was running",
        Progress::Failed => "had failed",
        Progress::ToRun => "was still to run",
    }
}

impl fmt::Display for EvidenceLine<'_> {
    ghost output = { λ l. Some (evidence_line l.evidence l.path.0.now) };

    fn fmt<W: fmt::Write>(&self, f: &mut fmt::Formatter<W>) -> fmt::Result {
        let path = self.path;
        match self.evidence {
            Evidence::Own => Ok(()),
            Evidence::Story(story) => write!(f, "{}", HereLine(story)),
            Evidence::Earlier(listed) => write!(f, "{listed}"),
            Evidence::Error(progress) => {
                let words = progress_words(progress);
                write!(
                    f,
                    "    here: the maker {words} when the user began; its error names {path}\n"
                )
            }
        }
    }
}

impl fmt::Display for MendLine<'_> {
    ghost output = { λ l. Some (mend_line l.user l.output.0.now) };

    fn fmt<W: fmt::Write>(&self, f: &mut fmt::Formatter<W>) -> fmt::Result {
        let file = NameIf(self.user.file);
        let line = LineIf(self.user.line);
        let user = WrittenIf(self.user.output);
        let output = Written(self.output.0);
        write!(f, "    mend: {file}{line}: build {user}: ... || {output}\n")
    }
}

impl fmt::Display for More {
    ghost output = { λ m. Some (more_line m.before.now m.more m.after.now) };

    fn fmt<W: fmt::Write>(&self, f: &mut fmt::Formatter<W>) -> fmt::Result {
        let (before, more, after) = (self.before, self.more, self.after);
        if more == 0 {
            return Ok(());
        }
        write!(f, "{before}{more}{after}")
    }
}
