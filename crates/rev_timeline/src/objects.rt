//! The objects of Chrome's trace format ("Trace Event Format", complete, instant, flow and metadata events).
use crate::ran::Ending;
use rev_races_text::{Shown, Text};
use serde::{Described, Serialize, Serializer};
use std::alloc::{AllocError, Global};
use std::fmt;

/// The number of the process under which everything stands.
pub(crate) const PROCESS: u32 = 1;

/// Words before a name.
#[derive(Clone, Copy)]
pub(crate) struct Labelled<'a> {
    /// The words.
    pub(crate) words: &'static str,
    /// The name.
    pub(crate) name: Shown<'a>,
}

impl fmt::Display for Labelled<'_> {
    fn fmt<W: fmt::Write>(&self, f: &mut fmt::Formatter<W>) -> fmt::Result {
        let words = self.words;
        let name = self.name;
        write!(f, "{words}{name}")
    }
}

impl Described for Labelled<'_> {}

impl Serialize for Labelled<'_> {
    fn serialize<S: Serializer>(&self, out: &mut S) -> Result<(), S::Error> {
        out.collect_str(self)
    }
}

/// A bar of a lane: a run of a command.
#[derive(Clone, Copy, Serialize)]
pub(crate) struct Bar<'a> {
    pub(crate) name: Labelled<'a>,
    /// The rule of the edge.
    pub(crate) cat: Shown<'a>,
    pub(crate) ph: &'static str,
    /// When the bar begins, in microseconds.
    pub(crate) ts: u64,
    /// The length of the bar, in microseconds.
    pub(crate) dur: u64,
    pub(crate) pid: u32,
    pub(crate) tid: u64,
    /// The colour that Chrome's viewer gives the bar.
    pub(crate) cname: &'static str,
    pub(crate) args: BarArgs<'a>,
}

/// The facts of a bar.
#[derive(Clone, Copy, Serialize)]
pub(crate) struct BarArgs<'a> {
    /// How the run ended.
    pub(crate) status: &'static str,
    /// The number of the event that began the run.
    pub(crate) began: u32,
    /// The number of the event that ended the run.
    pub(crate) ended: Option<u32>,
    /// The number of the job that the recording gives the run.
    pub(crate) job: u32,
    /// Whether the end of the build waited for the run.
    pub(crate) critical: bool,
    /// The words of its reasons in the state of the last plan, where the run is one of that plan's.
    pub(crate) reasons: Option<&'a [&'static str]>,
    /// The file of its build statement.
    pub(crate) file: Option<Shown<'a>>,
    /// The line of its build statement, from 1.
    pub(crate) line: Option<u64>,
    /// Its command.
    pub(crate) command: Text<'a>,
}

/// A moment: an event that begins and ends no command, or a race.
#[derive(Clone, Copy, Serialize)]
pub(crate) struct Moment<'a, A> {
    pub(crate) name: Labelled<'a>,
    pub(crate) cat: &'static str,
    pub(crate) ph: &'static str,
    /// How far the moment is drawn: `t` says over its lane.
    pub(crate) s: &'static str,
    /// When it was, in microseconds.
    pub(crate) ts: u64,
    pub(crate) pid: u32,
    pub(crate) tid: u64,
    pub(crate) args: A,
}

/// The number of the event of a moment.
#[derive(Clone, Copy, Serialize)]
pub(crate) struct EventArgs {
    pub(crate) event: u32,
}

/// The facts of a race.
#[derive(Clone, Copy, Serialize)]
pub(crate) struct RaceArgs<'a> {
    pub(crate) path: Shown<'a>,
    /// The first output of the maker.
    pub(crate) maker: Option<Shown<'a>>,
    /// The first output of the user.
    pub(crate) user: Option<Shown<'a>>,
}

/// An end of an arrow.
#[derive(Clone, Copy, Serialize)]
pub(crate) struct Arrow {
    pub(crate) name: &'static str,
    pub(crate) cat: &'static str,
    /// `s` where the arrow begins, `f` where it ends.
    pub(crate) ph: &'static str,
    /// Where the arrow binds: `e` to the bar around its time.
    pub(crate) bp: &'static str,
    /// The number that the two ends of an arrow share.
    pub(crate) id: u32,
    pub(crate) ts: u64,
    pub(crate) pid: u32,
    pub(crate) tid: u64,
}

/// A fact of a lane or of the process: `name` says which.
#[derive(Clone, Copy, Serialize)]
pub(crate) struct Fact<A> {
    pub(crate) name: &'static str,
    pub(crate) ph: &'static str,
    pub(crate) pid: u32,
    pub(crate) tid: u64,
    pub(crate) args: A,
}

/// The name of a lane or of the process.
#[derive(Clone, Copy, Serialize)]
pub(crate) struct NameArgs<'a> {
    pub(crate) name: RowName<'a>,
}

/// Where a lane stands among the others.
#[derive(Clone, Copy, Serialize)]
pub(crate) struct SortArgs {
    pub(crate) sort_index: u64,
}

/// What stands beside a row.
#[derive(Clone, Copy)]
pub(crate) enum RowName<'a> {
    /// The recording.
    Recording(Shown<'a>),
    /// The row of events that begin and end no command.
    Events,
    /// A lane, from 1.
    Lane(u64),
}

impl fmt::Display for RowName<'_> {
    fn fmt<W: fmt::Write>(&self, f: &mut fmt::Formatter<W>) -> fmt::Result {
        match *self {
            RowName::Recording(name) => write!(f, "{name}"),
            RowName::Events => write!(f, "events"),
            RowName::Lane(number) => write!(f, "lane {number}"),
        }
    }
}

impl Described for RowName<'_> {}

impl Serialize for RowName<'_> {
    fn serialize<S: Serializer>(&self, out: &mut S) -> Result<(), S::Error> {
        out.collect_str(self)
    }
}

/// The word of how a run ended.
pub(crate) fn ending_word(ending: Ending) -> &'static str {
    match ending {
        Ending::Well => "ok",
        Ending::Failed => "failed",
        Ending::Stopped => "stopped",
        Ending::Running => "running",
    }
}

/// The words before the name of a run that did not end well.
pub(crate) fn ending_label(ending: Ending) -> &'static str {
    match ending {
        Ending::Well => "",
        Ending::Failed => "failed: ",
        Ending::Stopped => "stopped: ",
        Ending::Running => "running: ",
    }
}

/// The colour of a run by how it ended, of those that Chrome's viewer names.
pub(crate) fn ending_colour(ending: Ending) -> &'static str {
    match ending {
        Ending::Well => "good",
        Ending::Failed => "terrible",
        Ending::Stopped => "bad",
        Ending::Running => "grey",
    }
}

/// Adds an object on a line of its own, behind a comma where another one stands before it.
///
/// # Errors
/// [`AllocError`] only where an allocation was refused.
pub(crate) fn push_object<T: Serialize>(
    alloc: Global,
    text: &mut Vec<u8>,
    is_first: bool,
    value: &T,
) -> Result<(), AllocError> {
    let Ok(object) = serde_json::to_vec(alloc, value) else {
        return Err(AllocError);
    };
    text.extend_from_slice(if is_first { b"\n" } else { b",\n" })?;
    text.extend_from_slice(&object)
}
