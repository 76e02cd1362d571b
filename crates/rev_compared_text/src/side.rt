//! One of two recordings.
use rev_compared::{Ending, Last, last_at};
use rev_events::Event;
use rev_history::History;
use rev_manifest::{Build, Manifest};
use rev_races_text::{Edge, Shown, Sources};

/// One of two recordings.
#[derive(Clone, Copy)]
pub struct Side<'a> {
    /// What it is called, as its folder.
    pub name: &'a [u8],
    /// The files of its manifest, each with its name.
    pub files: &'a [(Vec<u8>, Vec<u8>)],
    /// Its manifest.
    pub manifest: &'a Manifest,
    /// Its history.
    pub history: &'a History,
}

/// A recording beside the other one.
#[derive(Clone, Copy)]
pub(crate) struct Day<'a> {
    /// What words call it, and what JSON does.
    pub(crate) letter: &'static str,
    pub(crate) key: &'static str,
    pub(crate) side: Side<'a>,
    /// The last runs of its edges.
    pub(crate) lasts: &'a [Option<Last>],
    /// The twins of its edges in the other one.
    pub(crate) twins: &'a [Option<u32>],
}

impl<'a> Side<'a> {
    /// One of its edges, by its number.
    pub(crate) fn edge(&self, number: u32) -> Edge<'a> {
        let sources = Sources {
            builds: self.manifest.builds(),
            files: self.files,
            runs: &[],
            origins: None,
        };
        sources.edge(number)
    }

    /// The build statement of one of its edges.
    pub(crate) fn build(&self, number: u32) -> Option<&'a Build> {
        self.manifest.builds().get(number as usize)
    }

    /// How many edges it has.
    pub(crate) fn edges(&self) -> u32 {
        self.history.graph().edges()
    }
}

impl<'a> Day<'a> {
    /// One of its edges, with the events of its last run.
    pub(crate) fn edge(&self, number: u32) -> Edge<'a> {
        let edge = self.side.edge(number);
        let (began, ended) = match last_at(self.lasts, number) {
            Some(last) => (Some(last.began), last.ended),
            None => (None, None),
        };
        Edge {
            began,
            ended,
            file: edge.file,
            line: edge.line,
            output: edge.output,
        }
    }

    /// Whether the last run of one of its edges ended well.
    pub(crate) fn ended_well(&self, number: u32) -> bool {
        match last_at(self.lasts, number) {
            Some(last) => last.ending == Ending::Well,
            None => false,
        }
    }

    /// How the last run of one of its edges ended, in a word.
    pub(crate) fn status(&self, number: u32) -> Option<&'static str> {
        match last_at(self.lasts, number) {
            Some(last) => Some(ending_word(last.ending)),
            None => None,
        }
    }
}

/// How a command ended, in a word.
pub(crate) fn ending_word(ending: Ending) -> &'static str {
    match ending {
        Ending::Well => "passed",
        Ending::Failed => "failed",
        Ending::Stopped => "stopped",
        Ending::Running => "running",
    }
}

/// The kind and the output of an event that begins or ends a command.
pub(crate) fn event_name<'a>(side: Side<'a>, number: u32) -> (&'static str, Shown<'a>) {
    match side.history.event(number) {
        Some(Event::Start { out, .. }) => ("start", Shown(out.as_bytes())),
        Some(Event::Finish { out, .. }) => ("finish", Shown(out.as_bytes())),
        Some(Event::Fail { out, .. }) => ("fail", Shown(out.as_bytes())),
        Some(Event::Abort { out, .. }) => ("abort", Shown(out.as_bytes())),
        _ => ("", Shown(b"")),
    }
}
