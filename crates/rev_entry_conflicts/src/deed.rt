//! What is judged: entries, and what commands did at them.
ghost use Rattle.std.specs.Prelude.{◌≡◌};
ghost use Rattle.std.specs.List.{list_any};
ghost use Rattle.rev_entry_conflicts.specs.Deeds.{does as does_of, is_at as is_at_of, is_deed};

use crate::word::{Act, Word, is_of};

/// An entry: a name in a folder.
#[derive(Clone, Copy, Debug, PartialEq, Eq)]
pub struct Entry {
    /// The number of its folder, where that has one.
    pub folder: Option<u32>,
    /// The edge that has it as an output, where there is one.
    pub maker: Option<u32>,
    /// Whether a filter hides it.
    pub hidden: bool,
}

/// A line of an observation: what a command did at the entries of a range.
#[derive(Clone, Copy, Debug, PartialEq, Eq)]
pub struct Deed {
    /// What it did.
    pub word: Word,
    /// The number of the first entry.
    pub first: u32,
    /// The number of the last one.
    pub last: u32,
}

/// One run of the command of an edge.
#[derive(Drop)]
pub struct Command {
    /// The number of the edge.
    pub edge: u32,
    /// Whether the edge makes a file that the manifest is read from: it runs before all else.
    pub early: bool,
    /// What the command did, in any order.
    pub deeds: Vec<Deed>,
}

// Whether a deed is at an entry.
fn is_at(deed: &Deed, entry: u32) -> bool
    ensures { result ≡ is_at_of entry deed.now }
{
    deed.first <= entry && entry <= deed.last
}

// Whether a deed says an act of an entry.
fn is_deed_at(deed: &Deed, act: Act, entry: u32) -> bool
    ensures { result ≡ is_deed act entry deed.now }
{
    is_of(act, deed.word) && is_at(deed, entry)
}

// Whether one of some deeds says an act of an entry.
fn has_deed(deeds: &[Deed], act: Act, entry: u32) -> bool
    ensures { result ≡ list_any (is_deed act entry) deeds.now }
{
    deeds.iter().any(|deed| is_deed_at(deed, act, entry))
}

/// Whether a command did an act at an entry.
pub fn does(command: &Command, act: Act, entry: u32) -> bool
    ensures { result ≡ does_of act command.now entry }
{
    has_deed(&command.deeds, act, entry)
}
