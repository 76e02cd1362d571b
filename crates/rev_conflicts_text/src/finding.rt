//! One finding.

use crate::lines::kind_word;
use rev_conflicts::{Change, Look};
use rev_paths::Name;
use rev_races_text::{Edge, Id, Made, Shown, Sources, Story};

/// What a finding is (docs/RACES.md, "By observation").
#[derive(Clone, Copy, PartialEq, Eq)]
pub enum Kind {
    /// The user looks at what the maker leaves, and neither waits for the other.
    Race,
    /// The user looks at what the maker leaves, and the maker waits for the user.
    Cycle,
    /// Both leave the file, or have it as a temporary, and neither waits for the other.
    Clash,
    /// The maker waits for the user, and leaves another file than the one that the user looked at.
    Unstable,
    /// The maker leaves the file and does not have it as an output. The user looks at it, and waits for the maker.
    Undeclared,
    /// The maker leaves the file, which is an output of the user.
    Anothers,
    /// The user reads the file, which neither its build statement nor its list has, and nothing makes Ninja run the
    /// user again when the file changes. The member for the maker has the user too.
    Unlisted,
}

/// The other one of two orders that can both be right: the maker waits for the user.
#[derive(Clone, Copy)]
pub struct Reverse<'a> {
    /// The first output of the user that can be written on a build line.
    pub output: Option<&'a Name>,
    /// Whether the user came first in this recording.
    pub is_here: bool,
}

/// What is known of how a finding is mended, beside its kind.
#[derive(Clone, Copy)]
pub struct Mending<'a> {
    /// Whether the maker's line can name the path among its outputs: no line names it yet, and no other command leaves
    /// it.
    pub is_declared: bool,
    /// Whether the user's line is to name its input behind a `|`, since no list of the user has the file.
    pub is_listed: bool,
    /// The other order, where either can be right.
    pub reverse: Option<Reverse<'a>>,
    /// The maker of another finding of the same user, where that maker waits for this one. The user then waits for both
    /// by the order of the other finding. It is None where no other finding has such an order.
    pub brought_by: Option<u32>,
}

impl Mending<'_> {
    /// Nothing is known yet: the maker's line can name the path, and the user's list has the file.
    pub const PLAIN: Mending<'static> = Mending {
        is_declared: true,
        is_listed: false,
        reverse: None,
        brought_by: None,
    };
}

/// A finding about two edges and a place. Edges stand by their numbers.
#[derive(Clone, Copy)]
pub struct Finding<'a> {
    /// Which kind of finding it is.
    pub kind: Kind,
    /// The edge that leaves the place.
    pub maker: u32,
    /// The other edge.
    pub user: u32,
    /// The path of the file, or of the folder whose entries it is about.
    pub path: &'a Name,
    /// How the user looks at the place.
    pub look: Look,
    /// What the maker does there.
    pub change: Change,
    /// What happened with the two edges in this recording. It is None where their order does not matter.
    pub story: Option<Story>,
    /// The first output of the maker that can be written on a build line.
    pub output: Option<&'a Name>,
    /// The other name that the user's list has for the file, where an output of the maker stands for it.
    pub listed: Option<&'a Name>,
    /// How it is mended.
    pub mending: Mending<'a>,
}

impl<'a> Finding<'a> {
    /// The path as people read it.
    pub(crate) fn shown(&self) -> Shown<'a> {
        Shown(self.path.as_bytes())
    }

    /// The path, with the dyndep file that says it as an output of the maker, where the maker's own line does not. Of
    /// another's output it is the user in place of the maker.
    pub(crate) fn made_in(&self, sources: &Sources<'a>) -> Made<'a> {
        match self.kind {
            Kind::Anothers => sources.made(self.user, self.path),
            _ => sources.made(self.maker, self.path),
        }
    }

    /// The maker, with the run that the answer is about.
    pub(crate) fn maker_in(&self, sources: &Sources<'a>) -> Edge<'a> {
        match self.story {
            Some(story) => sources.edge_in(self.maker, story.maker),
            None => sources.edge(self.maker),
        }
    }

    /// The user, with the run that the answer is about.
    pub(crate) fn user_in(&self, sources: &Sources<'a>) -> Edge<'a> {
        match self.story {
            Some(story) => sources.edge_in(self.user, story.user),
            None => sources.edge(self.user),
        }
    }

    /// Its stable name. The entries of a folder and the folder itself are two places, so they give two names. In the
    /// name of a clash neither edge comes first, and that of an unlisted input has the user alone.
    pub fn id(&self, sources: &Sources<'a>) -> Id {
        let path = self.path.as_bytes();
        match self.kind {
            Kind::Clash => sources.pair_id("clash", path, self.maker, self.user),
            Kind::Anothers => sources.id("another's output", path, self.maker, self.user),
            Kind::Unlisted => Id::of(
                kind_word(Kind::Unlisted),
                path,
                b"",
                sources.output(self.user),
            ),
            Kind::Race if self.change == Change::Entry => {
                sources.id("race in a folder", path, self.maker, self.user)
            }
            kind => sources.id(kind_word(kind), path, self.maker, self.user),
        }
    }

    /// The first output of the maker; empty for an unlisted input, which is about its user alone.
    pub fn maker_output(&self, sources: &Sources<'a>) -> &'a [u8] {
        match self.kind {
            Kind::Unlisted => b"",
            Kind::Race
            | Kind::Cycle
            | Kind::Clash
            | Kind::Unstable
            | Kind::Undeclared
            | Kind::Anothers => sources.output(self.maker),
        }
    }

    /// The edge whose build statement is to be mended: the user's, unless the maker alone is to be changed.
    pub fn place(&self, sources: &Sources<'a>) -> Edge<'a> {
        match self.kind {
            Kind::Undeclared | Kind::Anothers | Kind::Unstable => self.maker_in(sources),
            Kind::Race | Kind::Cycle | Kind::Clash | Kind::Unlisted => self.user_in(sources),
        }
    }

    /// Whether all that it can do is to make a next build stale. Then it does not depend on the order of commands.
    pub fn is_of_next_build(&self) -> bool {
        matches!(
            self.kind,
            Kind::Undeclared | Kind::Anothers | Kind::Unlisted
        )
    }

    /// Whether an order mends it: the user is to wait for the maker, or, where either order can be right, one of the two
    /// for the other.
    pub fn is_mended_by_order(&self) -> bool {
        match self.kind {
            Kind::Race => true,
            Kind::Clash => self.mending.reverse.is_some(),
            Kind::Cycle | Kind::Unstable | Kind::Undeclared | Kind::Anothers | Kind::Unlisted => {
                false
            }
        }
    }

    /// Whether the maker's line is to name the path among its outputs.
    pub fn is_to_be_declared(&self) -> bool {
        match self.kind {
            Kind::Race => self.change == Change::Undeclared && self.mending.is_declared,
            Kind::Undeclared => self.mending.is_declared,
            Kind::Cycle | Kind::Clash | Kind::Unstable | Kind::Anothers | Kind::Unlisted => false,
        }
    }

    /// Whether the user's line is to name the path among its inputs, or a depfile is to list it.
    pub fn is_to_be_listed(&self) -> bool {
        self.kind == Kind::Unlisted
    }

    /// What the user's line is to name, so that the user waits for the maker. It is the path where the maker's line is
    /// to name the path, and else an output of the maker. It is None where no order mends the finding, and where none
    /// of these outputs can be written on a build line.
    pub fn order(&self) -> Option<&'a Name> {
        if !self.is_mended_by_order() {
            return None;
        }
        if self.is_to_be_declared() {
            return Some(self.path);
        }
        self.output
    }

    /// What the user's line is to name behind a `|`: the path of an unlisted input, and what makes it wait where no list
    /// of the user has the file.
    pub fn input(&self) -> Option<&'a Name> {
        if self.is_to_be_listed() {
            return Some(self.path);
        }
        if self.mending.is_listed {
            self.order()
        } else {
            None
        }
    }

    /// What the maker's line is to name behind `||` in place of that, where either order can be right.
    pub fn reverse_order(&self) -> Option<&'a Name> {
        match self.mending.reverse {
            Some(reverse) => reverse.output,
            None => None,
        }
    }
}
