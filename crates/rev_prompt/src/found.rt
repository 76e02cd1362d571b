//! What questions about edges, files and times are answered.
use crate::answers::{Because, Deed, Span};
use rev_paths::Name;
use rev_queries::{Chain, Reading, Timed};

/// An edge, and what `edge` finds of it beside its build line.
pub struct EdgeFound {
    /// The edge.
    pub edge: u32,
    /// The last kept run of its command.
    pub run: Option<Span>,
    /// The edges that have an output of it as an input.
    pub users: Vec<u32>,
}

// Written, since a derived drop is proved again at each exit of each caller.
impl Drop for EdgeFound {
    fn drop(self) {
        let EdgeFound {
            edge: _edge,
            run: _run,
            users: _users,
        } = self;
    }
}

/// An edge that would be to do.
pub struct Rebuilt {
    /// The edge.
    pub edge: u32,
    /// The first of its reasons that its producers did not give it, with what it names; none where it is to run since one
    /// of them is.
    pub because: Option<Because>,
}

// Written, since a derived drop is proved again at each exit of each caller.
impl Drop for Rebuilt {
    fn drop(self) {
        let Rebuilt {
            edge: _edge,
            because: _because,
        } = self;
    }
}

/// What a question about edges, files and times is answered.
pub enum Found {
    /// An edge.
    Edge(EdgeFound),
    /// Edges, in their order.
    Edges(Vec<u32>),
    /// Which edges have a path as what they read, and which commands were seen to look at it, where the build was
    /// observed.
    Reads(Name, Vec<Reading>, Option<Vec<Deed>>),
    /// Which edge has a path as an output, and which commands were seen to change it, where the build was observed.
    Makes(Name, Option<u32>, Option<Vec<Deed>>),
    /// What would be to do if paths were touched.
    Rebuilds(Vec<Rebuilt>),
    /// The runs that took most time.
    Slowest(Vec<Timed>),
    /// The chain of commands that the end of the build waited for.
    Critical(Chain),
    /// The recording has no times.
    NoTimes,
}

// Written, since a derived drop is proved again at each exit of each caller.
impl Drop for Found {
    fn drop(self) {
        match self {
            Found::Edge(_edge) => {}
            Found::Edges(_edges) => {}
            Found::Reads(_path, _readings, _deeds) => {}
            Found::Makes(_path, _edge, _deeds) => {}
            Found::Rebuilds(_rebuilds) => {}
            Found::Slowest(_runs) => {}
            Found::Critical(_chain) => {}
            Found::NoTimes => {}
        }
    }
}
