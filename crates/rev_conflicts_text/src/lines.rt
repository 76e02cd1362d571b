//! The lines of findings.
ghost use Rattle.std.specs.Prelude.{◌≡◌, Some};
ghost use Rattle.rev_conflicts_text.specs.Lines.{before_maker, behind_maker, build_words, declare_line, head_line, kind_word, list_line, listed_line, listed_words, order_begins, order_ends, order_line, race_ends, unlisted_head, unlisted_line, user_begins, user_ends, user_line};

use crate::finding::Kind;
use rev_conflicts::{Change, Look};
use rev_races_text::{Edge, LineIf, Made, NameIf, Shown, Through, Written, WrittenIf};
use std::fmt;

/// The line of a maker, and what it does at the place.
#[derive(Clone, Copy)]
pub(crate) struct HeadLine<'a> {
    pub(crate) kind: Kind,
    pub(crate) change: Change,
    pub(crate) path: Made<'a>,
    pub(crate) maker: Edge<'a>,
}

/// The line of a user. The user has `more` further findings of the same maker.
#[derive(Clone, Copy)]
pub(crate) struct UserLine<'a> {
    pub(crate) kind: Kind,
    pub(crate) look: Look,
    pub(crate) change: Change,
    pub(crate) told: Shown<'a>,
    pub(crate) path: Made<'a>,
    pub(crate) more: u64,
    pub(crate) user: Edge<'a>,
    pub(crate) number: u64,
}

/// The line of a file that is unlisted for those that read it.
#[derive(Clone, Copy)]
pub(crate) struct UnlistedHead<'a>(pub(crate) Shown<'a>);

/// The line of one of those that read it.
#[derive(Clone, Copy)]
pub(crate) struct UnlistedLine<'a> {
    pub(crate) user: Edge<'a>,
    pub(crate) number: u64,
}

/// The line of a mend: the maker's line is to name the path among its outputs.
#[derive(Clone, Copy)]
pub(crate) struct DeclareLine<'a> {
    pub(crate) maker: Edge<'a>,
    pub(crate) path: Shown<'a>,
}

/// The line of a mend: the user's line is to name the path among its inputs.
#[derive(Clone, Copy)]
pub(crate) struct ListLine<'a> {
    pub(crate) user: Edge<'a>,
    pub(crate) path: Shown<'a>,
}

/// The line of a mend: an edge is to wait for what leaves a path.
#[derive(Clone, Copy)]
pub(crate) struct OrderLine<'a> {
    /// What stands before the build line.
    pub(crate) head: &'static str,
    /// The edge that is to wait.
    pub(crate) edge: Edge<'a>,
    /// The sign before the path: `|` or `||`.
    pub(crate) sign: &'static str,
    /// The path.
    pub(crate) path: Shown<'a>,
    /// What stands behind the path.
    pub(crate) end: &'static str,
}

// The build line of such a line, up to the outputs.
#[derive(Clone, Copy)]
struct OrderBegins<'a> {
    head: &'static str,
    edge: Edge<'a>,
}

impl fmt::Display for OrderBegins<'_> {
    ghost output = { λ b. Some (order_begins b.head.now b.edge) };

    #[tactic(auto, unfolding(crate::specs::Lines::order_begins))]
    fn fmt<W: fmt::Write>(&self, f: &mut fmt::Formatter<W>) -> fmt::Result {
        let head = self.head;
        let file = NameIf(self.edge.file);
        let line = LineIf(self.edge.line);
        let output = WrittenIf(self.edge.output);
        write!(f, "{head}{file}{line}: build {output}")
    }
}

// What the line is to have behind.
#[derive(Clone, Copy)]
struct OrderEnds<'a> {
    sign: &'static str,
    path: Shown<'a>,
    end: &'static str,
}

impl fmt::Display for OrderEnds<'_> {
    ghost output = { λ e. Some (order_ends e.sign.now e.path.0.now e.end.now) };

    #[tactic(auto, unfolding(crate::specs::Lines::order_ends))]
    fn fmt<W: fmt::Write>(&self, f: &mut fmt::Formatter<W>) -> fmt::Result {
        let (sign, end) = (self.sign, self.end);
        let path = Written(self.path.0);
        write!(f, ": ... {sign} {path}{end}\n")
    }
}

/// The line of another name that the user's list has for the file.
#[derive(Clone, Copy)]
pub(crate) struct ListedLine<'a>(pub(crate) Shown<'a>);

// The build line of an edge, up to its outputs.
#[derive(Clone, Copy)]
struct BuildWords<'a>(Edge<'a>);

impl fmt::Display for BuildWords<'_> {
    ghost output = { λ b. Some (build_words b.0) };

    #[tactic(auto, unfolding(crate::specs::Lines::build_words))]
    fn fmt<W: fmt::Write>(&self, f: &mut fmt::Formatter<W>) -> fmt::Result {
        let file = NameIf(self.0.file);
        let line = LineIf(self.0.line);
        let user = WrittenIf(self.0.output);
        write!(f, "    mend: {file}{line}: build {user}")
    }
}

// The input that the line is to have behind.
#[derive(Clone, Copy)]
struct ListedWords<'a>(Shown<'a>);

impl fmt::Display for ListedWords<'_> {
    ghost output = { λ w. Some (listed_words w.0.0.now) };

    #[tactic(auto, unfolding(crate::specs::Lines::listed_words))]
    fn fmt<W: fmt::Write>(&self, f: &mut fmt::Formatter<W>) -> fmt::Result {
        let path = Written(self.0.0);
        write!(f, ": ... | {path}, or a depfile that lists it\n")
    }
}

/// The word for a kind, as words, JSON and identities have it.
pub fn kind_word(kind: Kind) -> &'static str
    ensures { result.now ≡ kind_word kind }
{
    match kind {
        Kind::Race => "race",
        Kind::Cycle => "cycle",
        Kind::Clash => "clash",
        Kind::Unstable => "unstable",
        Kind::Undeclared | Kind::Anothers => "undeclared",
        Kind::Unlisted => "unlisted",
    }
}

// What stands between a path and its maker.
fn before_maker(kind: Kind, change: Change) -> &'static str
    ensures { result.now ≡ before_maker kind change }
{
    match (kind, change) {
        (Kind::Race | Kind::Cycle, Change::Output) => " made by ",
        _ => ": ",
    }
}

// What a maker does at a place.
fn behind_maker(kind: Kind, change: Change) -> &'static str
    ensures { result.now ≡ behind_maker kind change }
{
    match change {
        Change::Output => match kind {
            Kind::Race | Kind::Cycle => "",
            _ => " writes it",
        },
        Change::Edit => " changes it in place",
        Change::Undeclared => " writes it, though no line says so",
        Change::Delete => " takes it away",
        Change::Temporary => " makes it, and takes it away again",
        Change::Entry => " makes or takes away an entry of this folder",
    }
}

// What stands before a user.
fn user_begins(kind: Kind) -> &'static str
    ensures { result.now ≡ user_begins kind }
{
    match kind {
        Kind::Clash => "  so does ",
        Kind::Anothers => "  an output of ",
        _ => "  used by ",
    }
}

// How a user looked at a place that it does not wait for.
fn race_ends(look: Look, change: Change) -> &'static str
    ensures { result.now ≡ race_ends look change }
{
    match look {
        Look::Read => ", which does not wait for it",
        Look::Miss => match change {
            Change::Delete | Change::Temporary => {
                ", which asked for it and found nothing, and does not wait for it"
            }
            _ => ", which asked for it before it was there, and does not wait for it",
        },
        Look::Stat => ", which asked whether it is there, and does not wait for it",
        Look::List => ", which lists the folder, and does not wait for it",
    }
}

// What is said behind a user.
fn user_ends(kind: Kind, look: Look, change: Change) -> &'static str
    ensures { result.now ≡ user_ends kind look change }
{
    match kind {
        Kind::Race => race_ends(look, change),
        Kind::Cycle => ", for which the maker waits: no order mends that",
        Kind::Clash => ": both write, and neither waits for the other",
        Kind::Unstable => ", which looked at it before: the next build shows it another file",
        Kind::Undeclared => "",
        Kind::Anothers => ", whose line says so",
        Kind::Unlisted => ", whose line and list do not have it",
    }
}

impl fmt::Display for HeadLine<'_> {
    ghost output = { λ l. Some (head_line l.kind l.change l.path l.maker) };

    fn fmt<W: fmt::Write>(&self, f: &mut fmt::Formatter<W>) -> fmt::Result {
        let word = kind_word(self.kind);
        let before = before_maker(self.kind, self.change);
        let behind = behind_maker(self.kind, self.change);
        let (path, maker) = (self.path, self.maker);
        write!(f, "{word} {path}{before}{maker}{behind}\n")
    }
}

impl fmt::Display for UserLine<'_> {
    ghost output = { λ l. Some (user_line l.kind l.look l.change l.told.0.now l.path l.more l.user l.number) };

    fn fmt<W: fmt::Write>(&self, f: &mut fmt::Formatter<W>) -> fmt::Result {
        let through = Through {
            told: self.told,
            path: self.path,
            more: self.more,
        };
        let (user, number) = (self.user, self.number);
        let begins = user_begins(self.kind);
        let ends = user_ends(self.kind, self.look, self.change);
        write!(f, "{begins}{user}{through}{ends} [{number}]\n")
    }
}

impl fmt::Display for UnlistedHead<'_> {
    ghost output = { λ l. Some (unlisted_head l.0.0.now) };

    fn fmt<W: fmt::Write>(&self, f: &mut fmt::Formatter<W>) -> fmt::Result {
        let path = self.0;
        write!(
            f,
            "unlisted {path}: commands read it, though neither their lines nor their lists have it\n"
        )
    }
}

impl fmt::Display for UnlistedLine<'_> {
    ghost output = { λ l. Some (unlisted_line l.user l.number) };

    fn fmt<W: fmt::Write>(&self, f: &mut fmt::Formatter<W>) -> fmt::Result {
        let (user, number) = (self.user, self.number);
        write!(f, "  read by {user} [{number}]\n")
    }
}

impl fmt::Display for ListedLine<'_> {
    ghost output = { λ l. Some (listed_line l.0.0.now) };

    fn fmt<W: fmt::Write>(&self, f: &mut fmt::Formatter<W>) -> fmt::Result {
        let path = self.0;
        write!(f, "    list: has this file as {path}\n")
    }
}

impl fmt::Display for DeclareLine<'_> {
    ghost output = { λ l. Some (declare_line l.maker l.path.0.now) };

    fn fmt<W: fmt::Write>(&self, f: &mut fmt::Formatter<W>) -> fmt::Result {
        let file = NameIf(self.maker.file);
        let line = LineIf(self.maker.line);
        let maker = WrittenIf(self.maker.output);
        let path = Written(self.path.0);
        write!(f, "    mend: {file}{line}: build {maker} | {path}: ...\n")
    }
}

impl fmt::Display for ListLine<'_> {
    ghost output = { λ l. Some (list_line l.user l.path.0.now) };

    fn fmt<W: fmt::Write>(&self, f: &mut fmt::Formatter<W>) -> fmt::Result {
        let (build, listed) = (BuildWords(self.user), ListedWords(self.path));
        write!(f, "{build}{listed}")
    }
}

impl fmt::Display for OrderLine<'_> {
    ghost output = { λ l. Some (order_line l.head.now l.edge l.sign.now l.path.0.now l.end.now) };

    fn fmt<W: fmt::Write>(&self, f: &mut fmt::Formatter<W>) -> fmt::Result {
        let begins = OrderBegins {
            head: self.head,
            edge: self.edge,
        };
        let ends = OrderEnds {
            sign: self.sign,
            path: self.path,
            end: self.end,
        };
        write!(f, "{begins}{ends}")
    }
}
