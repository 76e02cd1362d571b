//! What a line asks about edges, files and times.
use crate::question::EventName;
use rev_paths::Name;

/// What is asked about edges, files and times.
pub enum Query {
    /// `edge OUT`: what the manifest says of an edge, and when its command ran.
    Edge(EventName),
    /// `edges [WORD]`: the edges with an output that matches a pattern.
    Edges(Vec<u8>),
    /// `reads PATH`: which edges have a path as what they read.
    Reads(Name),
    /// `makes PATH`: which edge has a path as an output, and who changes it.
    Makes(Name),
    /// `rebuilds PATH..`: what would be to do if these paths were touched.
    Rebuilds(Vec<Name>),
    /// `slowest [N]`: the runs that took most time, so many at most.
    Slowest(u32),
    /// `critical`: the chain of commands that the end of the build waited for.
    Critical,
}

// Written, since a derived drop is proved again at each exit of each caller.
impl Drop for Query {
    fn drop(self) {
        match self {
            Query::Edge(_name) => {}
            Query::Edges(_pattern) => {}
            Query::Reads(_path) => {}
            Query::Makes(_path) => {}
            Query::Rebuilds(_paths) => {}
            Query::Slowest(_count) => {}
            Query::Critical => {}
        }
    }
}
