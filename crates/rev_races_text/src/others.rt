//! Clashes and hints.
ghost use Rattle.std.specs.Prelude.{◌≡◌, ◌++◌, Some, slice_get, OnOk};
ghost use Rattle.rev_manifest.specs.Seen.{seen_files};
ghost use Rattle.rev_races_text.specs.Edges.{bytes_if, placed, placed_at};
ghost use Rattle.rev_races_text.specs.Lines.{change_line, changed_words, clash_at, clash_line, first_words, hint_line, lists_words, made_words, other_words, outcome, ran_words, side_path, whose};

use crate::edges::{Edge, Sources};
use crate::names::{NameIf, Shown};
use rev_clashes::SideFile;
use serde::Serialize;
use std::alloc::AllocError;
use std::fmt;

/// Two edges that have a file of one kind at one path, by their numbers.
#[derive(Clone, Copy)]
pub struct Clash {
    /// Which file it is.
    pub kind: SideFile,
    /// The first edge that has it there.
    pub first: u32,
    /// A later one.
    pub other: u32,
}

/// A clash as answers have it.
#[derive(Clone, Copy)]
pub struct ClashLine<'a> {
    /// Which file it is.
    pub file: SideFile,
    /// Its path, as the rule of the first edge says.
    pub path: Option<Shown<'a>>,
    /// The first edge that has it there.
    pub first: Edge<'a>,
    /// A later one.
    pub other: Edge<'a>,
}

/// A path that an edge lists, and that was another name of what an edge makes for which it does not wait.
#[derive(Clone, Copy, Serialize)]
pub struct Hint<'a> {
    /// The edge that makes that.
    pub maker: Edge<'a>,
    /// The output whose file the path led to.
    pub output: Shown<'a>,
    /// The path.
    pub path: Shown<'a>,
    /// The edge that lists the path.
    pub user: Edge<'a>,
}

/// A path that an edge lists, that no edge makes, and that changed while commands ran. The edge does not wait for any
/// of these commands.
#[derive(Drop)]
pub struct Change<'a> {
    /// The number of the event that changed it.
    pub at: u32,
    /// How many other commands ran then.
    pub commands: u64,
    /// The path.
    pub path: Shown<'a>,
    /// The edge of the first of these commands.
    pub first: Option<Edge<'a>>,
    /// The edges of the first of these commands by their numbers, at most [`Change::MOST`].
    pub ran: Vec<u32>,
    /// The edge that lists the path.
    pub user: Edge<'a>,
}

// Whose file it is, in a clash.
#[derive(Clone, Copy)]
struct First<'a>(ClashLine<'a>);

// Whose it is as well.
#[derive(Clone, Copy)]
struct Other<'a>(ClashLine<'a>);

// Which edge lists which path.
#[derive(Clone, Copy)]
struct Lists<'a> {
    user: Edge<'a>,
    path: Shown<'a>,
}

// What that path is, and which edge makes it.
#[derive(Clone, Copy)]
struct Made<'a> {
    output: Shown<'a>,
    maker: Edge<'a>,
}

// When the path changed.
#[derive(Clone, Copy)]
struct Changed(u32);

// Which commands ran when a file changed.
#[derive(Clone, Copy)]
struct RanThen<'a> {
    first: Option<Edge<'a>>,
    commands: u64,
}

impl Change<'_> {
    /// How many of the commands that ran an answer names for one change, at most. The bound is there because many
    /// changes can come while the same commands run.
    pub const MOST: usize = 64;
}

impl<'a> Sources<'a> {
    /// A clash as answers have it.
    #[tactic(auto, using(crate::proofs::EdgeLemmas::placed_is))]
    pub fn clash(&self, clash: &Clash) -> ClashLine<'a>
        ensures file { result.file ≡ clash.now.kind }
        ensures path { bytes_if result.path ≡ side_path clash.now.kind (slice_get self.now.builds.now clash.now.first) }
        ensures first { placed result.first ≡ placed_at self.now.builds.now (seen_files self.now.files.now) clash.now.first }
        ensures other { placed result.other ≡ placed_at self.now.builds.now (seen_files self.now.files.now) clash.now.other }
    {
        ClashLine {
            file: clash.kind,
            path: self.side_file(clash.kind, clash.first),
            first: self.edge(clash.first),
            other: self.edge(clash.other),
        }
    }

    // The path of an edge's file of a kind, as its rule says; none where there is no such edge.
    fn side_file(&self, kind: SideFile, edge: u32) -> Option<Shown<'a>>
        ensures { bytes_if result ≡ side_path kind (slice_get self.now.builds.now edge) }
    {
        match self.builds.get(edge as usize) {
            Some(build) => Some(Shown(kind.path_in(build))),
            None => None,
        }
    }
}

// Whose file it is, by its kind.
fn whose(kind: SideFile) -> &'static str
    ensures { result.now ≡ whose kind }
{
    match kind {
        SideFile::Depfile => "the depfile of ",
        SideFile::ResponseFile => "the response file of ",
    }
}

// What can come of it, by the kind of the file.
fn outcome(kind: SideFile) -> &'static str
    ensures { result.now ≡ outcome kind }
{
    match kind {
        SideFile::Depfile => "one of them can lose its list",
        SideFile::ResponseFile => "one can read the other's",
    }
}

impl fmt::Display for First<'_> {
    ghost output = { λ c. Some (first_words c.0.path c.0.file c.0.first) };

    #[tactic(auto, unfolding(crate::specs::Lines::first_words))]
    fn fmt<W: fmt::Write>(&self, f: &mut fmt::Formatter<W>) -> fmt::Result {
        let path = NameIf(self.0.path);
        let whose = whose(self.0.file);
        let first = self.0.first;
        write!(f, "clash {path}: {whose}{first}")
    }
}

impl fmt::Display for Other<'_> {
    ghost output = { λ c. Some (other_words c.0.other c.0.file) };

    #[tactic(auto, unfolding(crate::specs::Lines::other_words))]
    fn fmt<W: fmt::Write>(&self, f: &mut fmt::Formatter<W>) -> fmt::Result {
        let other = self.0.other;
        let outcome = outcome(self.0.file);
        write!(f, " and of {other}: {outcome}\n")
    }
}

impl fmt::Display for ClashLine<'_> {
    ghost output = { λ c. Some (clash_line c) };

    fn fmt<W: fmt::Write>(&self, f: &mut fmt::Formatter<W>) -> fmt::Result {
        let (first, other) = (First(*self), Other(*self));
        write!(f, "{first}{other}")
    }
}

impl fmt::Display for Lists<'_> {
    ghost output = { λ l. Some (lists_words l.user l.path.0.now) };

    #[tactic(auto, unfolding(crate::specs::Lines::lists_words))]
    fn fmt<W: fmt::Write>(&self, f: &mut fmt::Formatter<W>) -> fmt::Result {
        let (user, path) = (self.user, self.path);
        write!(f, "hint {user} lists {path}")
    }
}

impl fmt::Display for Made<'_> {
    ghost output = { λ m. Some (made_words m.output.0.now m.maker) };

    #[tactic(auto, unfolding(crate::specs::Lines::made_words))]
    fn fmt<W: fmt::Write>(&self, f: &mut fmt::Formatter<W>) -> fmt::Result {
        let (output, maker) = (self.output, self.maker);
        write!(
            f,
            ", which is {output}, made by {maker}, for which it does not wait\n"
        )
    }
}

impl fmt::Display for Changed {
    ghost output = { λ c. Some (changed_words c.0) };

    #[tactic(auto, unfolding(crate::specs::Lines::changed_words))]
    fn fmt<W: fmt::Write>(&self, f: &mut fmt::Formatter<W>) -> fmt::Result {
        let at = self.0;
        write!(f, ", which no edge makes\n  it changed at {at}, while ")
    }
}

impl fmt::Display for Hint<'_> {
    ghost output = { λ h. Some (hint_line h) };

    fn fmt<W: fmt::Write>(&self, f: &mut fmt::Formatter<W>) -> fmt::Result {
        let lists = Lists {
            user: self.user,
            path: self.path,
        };
        let made = Made {
            output: self.output,
            maker: self.maker,
        };
        write!(f, "{lists}{made}")
    }
}

impl fmt::Display for RanThen<'_> {
    ghost output = { λ r. Some (ran_words r.first r.commands) };

    #[tactic(auto, unfolding(crate::specs::Lines::ran_words))]
    fn fmt<W: fmt::Write>(&self, f: &mut fmt::Formatter<W>) -> fmt::Result {
        let commands = self.commands;
        match self.first {
            None => write!(f, "nothing ran\n"),
            Some(first) => {
                if commands <= 1 {
                    return write!(f, "{first} ran: the user does not wait for it\n");
                }
                let others = commands - 1;
                write!(
                    f,
                    "{first} and {others} more ran: the user waits for none of them\n"
                )
            }
        }
    }
}

impl fmt::Display for Change<'_> {
    ghost output = { λ c. Some (change_line c) };

    fn fmt<W: fmt::Write>(&self, f: &mut fmt::Formatter<W>) -> fmt::Result {
        let lists = Lists {
            user: self.user,
            path: self.path,
        };
        let changed = Changed(self.at);
        let ran = RanThen {
            first: self.first,
            commands: self.commands,
        };
        write!(f, "{lists}{changed}{ran}")
    }
}

/// Adds the line of a clash, with the path that the rule of its first edge says.
///
/// # Errors
/// [`AllocError`] only where an allocation was refused.
#[tactic(auto, using(crate::proofs::EdgeLemmas::clash_is))]
pub fn push_clash(
    text: &mut Vec<u8>,
    sources: &Sources<'_>,
    clash: &Clash,
) -> Result<(), AllocError>
    ensures { OnOk result (text.new.items ≡ text.old.items ++ clash_at clash.now.kind sources.now.builds.now
        (seen_files sources.now.files.now) clash.now.first clash.now.other) }
{
    let line = sources.clash(clash);
    let words = format!(in *text.allocator(); "{line}")?;
    text.extend_from_slice(words.as_bytes())
}
