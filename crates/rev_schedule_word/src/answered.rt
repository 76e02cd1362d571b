//! What is answered about schedules.
use crate::asked::{Asked, Wanted};
use crate::fault::WordFault;
use rev_document::{Document, Writer};
use rev_document_json::json_of;
use rev_document_words::{Look, words_of};
use rev_foretold::{ChangeFault, Foretold, Wishes, foretell};
use rev_graph::Graph;
use rev_manifest::Manifest;
use rev_paths::Name;
use rev_schedule_wishes::{Ninja, ninja_in};
use rev_scheduling::Ran;
use rev_scheduling_words::{Answer, edges_of, push_answer};
use std::alloc::{AllocError, Global};

/// A recorded build whose schedules are asked for.
#[derive(Clone, Copy)]
pub struct Source<'a> {
    /// The manifest.
    pub manifest: &'a Manifest,
    /// Its graph.
    pub graph: &'a Graph,
    /// The files from which the manifest was read.
    pub files: &'a [(Vec<u8>, Vec<u8>)],
    /// The runs of commands that have times.
    pub runs: &'a [Ran],
    /// How many runs have no times.
    pub untimed: u64,
    /// The targets of the build.
    pub targets: &'a [Name],
    /// The bytes of the file `ninja`.
    pub ninja: &'a [u8],
}

/// What is answered.
pub struct Answered {
    /// The words, or the JSON.
    pub text: Vec<u8>,
    /// Whether anything is foretold: the schedule of the recording is near to it.
    pub foretold: bool,
}

// Written, since a derived drop is proved again at each exit of each caller.
impl Drop for Answered {
    fn drop(self) {
        let Answered {
            text: _text,
            foretold: _foretold,
        } = self;
    }
}

// The text at a place.
fn text_at<'a>(texts: &'a [&'a str], place: usize) -> &'a str {
    match texts.get(place) {
        Some(text) => *text,
        None => "",
    }
}

// The fault of a question by that of a change of the build.
fn fault_of<'a>(asked: Asked<'a>, wanted: &Wanted<'_>, fault: ChangeFault) -> WordFault<'a> {
    match fault {
        ChangeFault::NoCommand(place) => WordFault::NoCommand(text_at(asked.faster, place)),
        ChangeFault::NoPool(place) => WordFault::NoPool(text_at(asked.pools, place)),
        ChangeFault::NoOrder(place) => {
            WordFault::NoOrder(wanted.without.get(place).map_or(0, |waiting| waiting.line))
        }
        ChangeFault::Memory => WordFault::Memory,
    }
}

// The document of the answer.
fn document_of<'a>(
    alloc: Global,
    source: Source<'a>,
    ninja: &'a Ninja,
    foretold: &'a Foretold,
) -> Result<Document, AllocError> {
    let edges = edges_of(alloc, source.manifest.builds(), source.files)?;
    let mut writer = Writer::new(alloc);
    let answer = Answer {
        ninja,
        edges: &edges,
        recorded: foretold.recorded,
        untimed: source.untimed,
        figures: foretold.figures.as_ref(),
        unchanged: &foretold.unchanged,
    };
    push_answer(&mut writer, &answer);
    writer.finish()
}

// The words or the JSON of the answer.
fn text_of(
    alloc: Global,
    source: Source<'_>,
    ninja: &Ninja,
    foretold: &Foretold,
    json: bool,
) -> Result<Vec<u8>, AllocError> {
    let document = document_of(alloc, source, ninja, foretold)?;
    if json {
        return json_of(alloc, &document);
    }
    let look = Look {
        is_coloured: false,
        is_all: false,
    };
    words_of(alloc, &document, look)
}

// What is foretold under a Ninja.
fn foretold_by<'a, 'b>(
    alloc: Global,
    source: Source<'_>,
    ninja: &Ninja,
    asked: Asked<'a>,
    wanted: &'b Wanted<'b>,
) -> Result<Foretold, WordFault<'a>> {
    let wishes = Wishes {
        jobs: &wanted.jobs,
        faster: &wanted.faster,
        pools: &wanted.pools,
        without: &wanted.without,
    };
    let (manifest, graph) = (source.manifest, source.graph);
    match foretell(
        alloc,
        manifest,
        graph,
        source.runs,
        source.targets,
        ninja,
        &wishes,
    ) {
        Ok(foretold) => Ok(foretold),
        Err(fault) => Err(fault_of(asked, wanted, fault)),
    }
}

/// The answer to what is asked of a recorded build. `wanted` is what was read of `asked`.
///
/// # Errors
/// [`WordFault::NoCommand`], [`WordFault::NoPool`] and [`WordFault::NoOrder`] where the build does not have what a wish
/// names; [`WordFault::Memory`] only where an allocation was refused.
pub fn answer_of<'a>(
    alloc: Global,
    source: Source<'_>,
    asked: Asked<'a>,
    wanted: &Wanted<'_>,
) -> Result<Answered, WordFault<'a>> {
    let ninja = ninja_in(alloc, source.ninja)?;
    let foretold = foretold_by(alloc, source, &ninja, asked, wanted)?;
    Ok(Answered {
        text: text_of(alloc, source, &ninja, &foretold, asked.json)?,
        foretold: foretold.figures.is_some(),
    })
}
