//! What a look-up at an edge goes by, and what it finds.

use crate::bindings::Bindings;
use crate::rule::Rule;
use crate::scopes::Scopes;
use rev_paths::Name;

/// An edge that is not phony, when all files are read.
#[derive(Drop)]
pub struct EdgeEnv<'a> {
    /// The explicit inputs, which `$in` and `$in_newline` stand for.
    pub ins: &'a [Name],
    /// The explicit outputs, each once, which `$out` stands for.
    pub outs: &'a [Name],
    /// The block of its build statement, whose values are expanded already.
    pub block: &'a Bindings,
    /// Its rule.
    pub rule: &'a Rule,
    /// The scopes with their last values.
    pub scopes: &'a Scopes,
    /// The number of the scope of its build statement.
    pub scope: usize,
}

/// The values of the variables that are expanded for each edge.
#[derive(Drop)]
pub struct EdgeVariables {
    /// `command`.
    pub command: Vec<u8>,
    /// `depfile`.
    pub depfile: Vec<u8>,
    /// `deps`.
    pub deps: Vec<u8>,
    /// `generator`.
    pub generator: Vec<u8>,
    /// `restat`.
    pub restat: Vec<u8>,
    /// `rspfile`, which no edge is refused for: none where it has a value that is too large, and empty where it has none.
    pub rspfile: Option<Vec<u8>>,
    /// `rspfile_content`.
    pub rspfile_content: Vec<u8>,
    /// `pool`.
    pub pool: Vec<u8>,
}
