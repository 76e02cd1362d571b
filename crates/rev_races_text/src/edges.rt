//! What edges are called, where their build statements stand, and when they ran.
ghost use Rattle.std.specs.Prelude.{◌≡◌, ◌++◌, Some, slice_get, option_and_then, OnOk};
ghost use Rattle.std.specs.Option.{option_copied, option_map};
ghost use Rattle.rev_manifest.specs.Manifest.{outputs_of};
ghost use Rattle.rev_manifest.specs.Seen.{seen_files};
ghost use Rattle.rev_races.specs.declared.runs.Run.{Run as RunValue};
ghost use Rattle.rev_manifest.specs.Builds.{BuildValue};
ghost use Rattle.rev_races_text.specs.Edges.{bytes_if, file_in, file_of, first_output, line_if, named_at, placed, placed_at};
ghost use Rattle.rev_races_text.specs.Names.{name_if};

use crate::names::{Made, NameIf, Shown};
use rev_dyndep::Origins;
use rev_manifest::Build;
use rev_paths::Name;
use rev_races::Run;
use serde::Serialize;
use std::alloc::AllocError;
use std::fmt;

/// What says of edges, by their numbers, how they are called, where their build statements stand, and when they ran.
#[derive(Clone, Copy)]
pub struct Sources<'a> {
    /// The edges of the manifest.
    pub builds: &'a [Build],
    /// The files that it was read from, each with its name.
    pub files: &'a [(Vec<u8>, Vec<u8>)],
    /// For each edge the last run of its command, where it ran.
    pub runs: &'a [Option<Run>],
    /// Which of the edges' paths come from dyndep files, where that is known.
    pub origins: Option<&'a Origins>,
}

/// An edge as answers have it.
#[derive(Clone, Copy, Serialize)]
pub struct Edge<'a> {
    /// The number of the event that began the run that the answer is about, where the edge ran.
    pub began: Option<u32>,
    /// The number of the event that ended that run, where the run ended.
    pub ended: Option<u32>,
    /// The file of its build statement.
    pub file: Option<Shown<'a>>,
    /// The line of its build statement, from 1.
    pub line: Option<u64>,
    /// Its first output. Where there is not such an edge, this member and the two above are None.
    pub output: Option<Shown<'a>>,
}

/// A line of a file, behind a colon, where there is one.
#[derive(Clone, Copy)]
pub struct LineIf(pub Option<u64>);

impl fmt::Display for LineIf {
    ghost output = { λ line. Some (line_if line.0) };

    fn fmt<W: fmt::Write>(&self, f: &mut fmt::Formatter<W>) -> fmt::Result {
        match self.0 {
            Some(line) => write!(f, ":{line}"),
            None => Ok(()),
        }
    }
}

impl fmt::Display for Edge<'_> {
    ghost output = { λ edge. Some (placed edge) };

    #[tactic(auto, unfolding(crate::specs::Edges::placed))]
    fn fmt<W: fmt::Write>(&self, f: &mut fmt::Formatter<W>) -> fmt::Result {
        let output = NameIf(self.output);
        let file = NameIf(self.file);
        let line = LineIf(self.line);
        write!(f, "{output} ({file}{line})")
    }
}

// The first output of an edge.
fn first_of(build: &Build) -> Option<&Name>
    ensures { option_copied result ≡ slice_get (outputs_of build.now) 0 }
{
    match build.explicit_outs().first() {
        Some(name) => Some(name),
        None => build.implicit_outs().first(),
    }
}

// A name as answers have it.
fn shown_name(name: &Name) -> Shown<'_>
    ensures { result.0.now ≡ name.entry.now }
{
    Shown(name.as_bytes())
}

// The same, where there is a name.
fn shown_if<'a>(name: Option<&'a Name>) -> Option<Shown<'a>>
    ensures { bytes_if result ≡ option_copied name.entry }
{
    match name {
        Some(name) => Some(shown_name(name)),
        None => None,
    }
}

// The name of the file of a build statement.
fn file_name<'a>(files: &'a [(Vec<u8>, Vec<u8>)], build: &Build) -> Option<Shown<'a>>
    ensures { bytes_if result ≡ file_of (seen_files files.entry.now) (Some build.now) }
{
    match files.get(build.file() as usize) {
        Some(given) => Some(Shown(&given.0)),
        None => None,
    }
}

impl<'a> Sources<'a> {
    /// An edge by its number, with the last run of its command.
    pub fn edge(&self, number: u32) -> Edge<'a>
        ensures output { bytes_if result.output ≡ first_output (slice_get self.now.builds.now number) }
        ensures file { bytes_if result.file ≡ file_of (seen_files self.now.files.now) (slice_get self.now.builds.now number) }
        ensures line { result.line ≡ option_map (λ (b : BuildValue). b.line) (slice_get self.now.builds.now number) }
    {
        self.edge_in(number, self.run(number))
    }

    /// An edge by its number, with the run that the answer is about.
    pub fn edge_in(&self, number: u32, run: Option<Run>) -> Edge<'a>
        ensures output { bytes_if result.output ≡ first_output (slice_get self.now.builds.now number) }
        ensures file { bytes_if result.file ≡ file_of (seen_files self.now.files.now) (slice_get self.now.builds.now number) }
        ensures line { result.line ≡ option_map (λ (b : BuildValue). b.line) (slice_get self.now.builds.now number) }
        ensures began { result.began ≡ option_map (λ (r : RunValue). r.began) run }
        ensures ended { result.ended ≡ option_and_then (λ (r : RunValue). r.ended) run }
    {
        let (began, ended) = match run {
            Some(run) => (Some(run.began), run.ended),
            None => (None, None),
        };
        match self.builds.get(number as usize) {
            Some(build) => Edge {
                began,
                ended,
                file: file_name(self.files, build),
                line: Some(build.line()),
                output: shown_if(first_of(build)),
            },
            None => Edge {
                began,
                ended,
                file: None,
                line: None,
                output: None,
            },
        }
    }

    // The dyndep file that adds an output to an edge, where one does.
    fn file_by(&self, edge: u32, path: &Name) -> Option<&'a Name>
        ensures { option_copied result ≡ file_in (option_copied self.now.origins) edge path.now }
    {
        match self.origins {
            Some(origins) => origins.output_file(edge, path),
            None => None,
        }
    }

    /// A path that an edge makes, with the dyndep file that says so where the edge's own line does not.
    pub fn made(&self, edge: u32, path: &'a Name) -> Made<'a>
        ensures path { result.path.0.now ≡ path.entry.now }
        ensures file { bytes_if result.file ≡ file_in (option_copied self.now.origins) edge path.entry.now }
    {
        Made {
            path: shown_name(path),
            file: shown_if(self.file_by(edge, path)),
        }
    }

    // The last run of an edge.
    fn run(&self, number: u32) -> Option<Run> {
        match self.runs.get(number as usize) {
            Some(run) => *run,
            None => None,
        }
    }
}

/// Adds the first output of an edge. It adds nothing where the manifest has fewer edges.
///
/// # Errors
/// [`AllocError`] only where an allocation was refused.
#[tactic(auto, using(crate::proofs::EdgeLemmas::named_is))]
pub fn push_edge(text: &mut Vec<u8>, sources: &Sources<'_>, number: u32) -> Result<(), AllocError>
    ensures { OnOk result (text.new.items ≡ text.old.items ++ named_at sources.now.builds.now number) }
{
    let edge = sources.edge(number);
    let words = format!(in *text.allocator(); "{}", NameIf(edge.output))?;
    text.extend_from_slice(words.as_bytes())
}

/// Adds a path that an edge makes, as `b.mod (by both.dd)`: with the dyndep file that says so where the edge's own line
/// does not.
///
/// # Errors
/// [`AllocError`] only where an allocation was refused.
pub fn push_made(
    text: &mut Vec<u8>,
    sources: &Sources<'_>,
    edge: u32,
    path: &Name,
) -> Result<(), AllocError> {
    let made = sources.made(edge, path);
    let words = format!(in *text.allocator(); "{made}")?;
    text.extend_from_slice(words.as_bytes())
}

/// Adds an edge with its place, as `main.o (build.ninja:19)`.
///
/// # Errors
/// [`AllocError`] only where an allocation was refused.
#[tactic(auto, using(crate::proofs::EdgeLemmas::placed_is))]
pub fn push_placed(text: &mut Vec<u8>, sources: &Sources<'_>, number: u32) -> Result<(), AllocError>
    ensures { OnOk result (text.new.items ≡ text.old.items ++ placed_at sources.now.builds.now (seen_files sources.now.files.now) number) }
{
    let edge = sources.edge(number);
    let words = format!(in *text.allocator(); "{edge}")?;
    text.extend_from_slice(words.as_bytes())
}
