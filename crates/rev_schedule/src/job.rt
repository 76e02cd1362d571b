//! What is to run, and what ran.

/// What Ninja knows of an edge that is to run, without its inputs.
#[derive(Clone, Copy, Debug, PartialEq, Eq)]
pub struct Job {
    /// How long its command takes, in milliseconds.
    pub duration: u32,
    /// Its pool.
    pub pool: u32,
    /// Of two edges that are ready the one with the lesser rank starts first; where the ranks are equal, the one with
    /// the lesser number.
    pub rank: u64,
    /// Of the edges that wait for nobody those with a lesser number come to their pools first; where these are equal,
    /// those with the lesser edge.
    pub planned: u64,
    /// Whether it has no command.
    pub phony: bool,
}

/// What is to run: edges by their numbers, from 0.
#[derive(Drop)]
pub struct Build {
    /// The edges.
    pub jobs: Vec<Job>,
    /// For each edge the edges that make its inputs.
    pub makers: Vec<Vec<u32>>,
    /// The depths of the pools, by their numbers. A pool of depth 0 has no limit.
    pub depths: Vec<u32>,
}

/// A run of a command.
#[derive(Clone, Copy, Debug, PartialEq, Eq)]
pub struct Run {
    /// The edge.
    pub edge: u32,
    /// When it began, in milliseconds.
    pub start: u64,
    /// When it ended.
    pub end: u64,
    /// The edge whose run ended when this one began, the last one of several. There is none where the build began then.
    pub cause: Option<u32>,
}
