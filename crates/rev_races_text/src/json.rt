//! The answer about a recording, as JSON objects, one a line.
use crate::edges::{Edge, Sources};
use crate::failed::{Failure, Suspect};
use crate::names::{Shown, Text};
use crate::others::{Change, Clash};
use crate::race::{Evidence, RaceFinding};
use crate::report::Report;
use rev_baseline::Id;
use rev_clashes::SideFile;
use rev_paths::Name;
use rev_races::{Happened, Kind};
use rev_suspects::{Basis, Progress};
use serde::{Described, Serialize, Serializer};
use std::alloc::{AllocError, Global};

// An object: its kind, the dyndep file that says its path, where one does, and the members of its value.
#[derive(Clone, Copy)]
struct Object<'a, T> {
    kind: &'static str,
    dyndep: Option<Shown<'a>>,
    value: &'a T,
}

impl<T: Serialize> Described for Object<'_, T> {}

impl<T: Serialize> Serialize for Object<'_, T> {
    fn serialize<S: Serializer>(&self, out: &mut S) -> Result<(), S::Error> {
        out.begin_map(None)?;
        out.key("kind")?;
        out.str(self.kind)?;
        if let Some(file) = self.dyndep {
            out.key("dyndep")?;
            file.serialize(out)?;
        }
        out.flatten_next()?;
        self.value.serialize(out)?;
        out.end_map()
    }
}

// A race, a cycle, an own path or a suspect.
#[derive(Clone, Copy, Serialize)]
struct RaceObject<'a> {
    number: u64,
    id: Option<Id>,
    path: Option<Shown<'a>>,
    maker: Edge<'a>,
    user: Edge<'a>,
    here: Option<&'static str>,
    basis: Option<&'static str>,
    mend: Option<Shown<'a>>,
}

// A command that failed.
#[derive(Drop, Serialize)]
struct FailedObject<'a> {
    user: Edge<'a>,
    at: u32,
    command: Text<'a>,
    lines: Vec<Text<'a>>,
    left: u64,
    suspects: Option<u64>,
}

// A command that ran and was not judged.
#[derive(Clone, Copy, Serialize)]
struct UnjudgedObject<'a> {
    user: Edge<'a>,
    collects: bool,
}

// A clash.
#[derive(Clone, Copy, Serialize)]
struct ClashObject<'a> {
    id: Id,
    of: &'static str,
    path: Option<Shown<'a>>,
    first: Edge<'a>,
    other: Edge<'a>,
}

// A command that ran at a change, and the number of its edge.
#[derive(Clone, Copy, Serialize)]
struct CommandObject<'a> {
    edge: u32,
    user: Edge<'a>,
}

// What ran at a change, by the numbers of the edges.
#[derive(Drop, Serialize)]
struct RanObject {
    at: u32,
    edges: Vec<u32>,
}

// A changed file. What ran then is told once.
#[derive(Clone, Copy, Serialize)]
struct ChangeObject<'a> {
    at: u32,
    commands: u64,
    path: Shown<'a>,
    user: Edge<'a>,
}

/// Adds an object of a kind, with the members of a value, and a line's end.
///
/// # Errors
/// [`AllocError`] only where an allocation was refused.
pub fn push_object<T: Serialize>(
    alloc: Global,
    text: &mut Vec<u8>,
    kind: &'static str,
    value: &T,
) -> Result<(), AllocError> {
    push_object_by(alloc, text, kind, None, value)
}

/// The same, with the dyndep file that says the path of the object, where one does.
///
/// # Errors
/// [`AllocError`] only where an allocation was refused.
pub fn push_object_by<T: Serialize>(
    alloc: Global,
    text: &mut Vec<u8>,
    kind: &'static str,
    dyndep: Option<Shown<'_>>,
    value: &T,
) -> Result<(), AllocError> {
    let object = Object {
        kind,
        dyndep,
        value,
    };
    let Ok(line) = serde_json::to_vec(alloc, &object) else {
        return Err(AllocError);
    };
    text.extend_from_slice(&line)?;
    text.extend_from_slice(b"\n")
}

// The word of a kind.
fn kind_word(kind: Kind) -> &'static str {
    match kind {
        Kind::Race => "race",
        Kind::Cycle => "cycle",
        Kind::Own => "own",
    }
}

/// The word of what happened.
pub fn happened_word(happened: Happened) -> &'static str {
    match happened {
        Happened::Apart => "apart",
        Happened::Before => "before",
        Happened::AtOnce => "at-once",
        Happened::HeldRecord => "held-record",
        Happened::HeldPlace => "held-place",
        Happened::Free => "free",
    }
}

// The word of how far a suspect was.
fn progress_word(progress: Progress) -> &'static str {
    match progress {
        Progress::Running => "running",
        Progress::Failed => "failed-before",
        Progress::ToRun => "to-run",
    }
}

// The word of what the recording shows of a race.
fn here_word(evidence: Evidence) -> Option<&'static str> {
    match evidence {
        Evidence::Own => None,
        Evidence::Story(story) => Some(happened_word(story.happened)),
        Evidence::Earlier(listed) => match listed.maker {
            Some(progress) => Some(progress_word(progress)),
            None => Some("failed"),
        },
        Evidence::Error(progress) => Some(progress_word(progress)),
    }
}

// The word of what a race rests on: the list of the user, or its error.
fn basis_word(told: &RaceFinding<'_>) -> Option<&'static str> {
    if let Evidence::Error(_) = told.evidence {
        return Some("error");
    }
    match told.basis {
        Some(Basis::Finish) => Some("finish"),
        Some(Basis::Record) => Some("record"),
        Some(Basis::Earlier) => Some("earlier"),
        None => None,
    }
}

// A name, where there is one.
fn shown_if<'a>(name: Option<&'a Name>) -> Option<Shown<'a>> {
    match name {
        Some(name) => Some(Shown(name.as_bytes())),
        None => None,
    }
}

// Adds a race with its number.
fn push_race<'a>(
    alloc: Global,
    text: &mut Vec<u8>,
    sources: &Sources<'a>,
    told: &RaceFinding<'a>,
    number: u64,
) -> Result<(), AllocError> {
    let made = sources.made(told.maker, told.path);
    let race = RaceObject {
        number,
        id: Some(sources.race_id(told)),
        path: Some(made.path),
        maker: sources.maker(told),
        user: sources.user(told),
        here: here_word(told.evidence),
        basis: basis_word(told),
        mend: shown_if(told.mend),
    };
    push_object_by(alloc, text, race_word(told), made.file, &race)
}

// Adds a suspect that no error names, with its number. An order mends it, as each of two that do not wait for one
// another.
fn push_suspect<'a>(
    alloc: Global,
    text: &mut Vec<u8>,
    sources: &Sources<'a>,
    failure: &Failure<'a>,
    suspect: &Suspect<'a>,
    number: u64,
) -> Result<(), AllocError> {
    let maker = sources.edge(suspect.maker);
    let race = RaceObject {
        number,
        id: None,
        path: None,
        maker,
        user: sources.edge(failure.edge),
        here: Some(progress_word(suspect.progress)),
        basis: None,
        mend: shown_if(suspect.mend),
    };
    push_object(alloc, text, "suspect", &race)
}

// Adds a command that failed.
fn push_failure<'a>(
    alloc: Global,
    text: &mut Vec<u8>,
    sources: &Sources<'a>,
    failure: &Failure<'a>,
) -> Result<(), AllocError> {
    let failed = FailedObject {
        user: sources.edge(failure.edge),
        at: failure.number,
        command: Text(failure.command),
        lines: failure.lines(alloc)?,
        left: failure.left(),
        suspects: failure.suspects(),
    };
    push_object(alloc, text, "failed", &failed)
}

// The word of a race: a suspect where an error names the path.
fn race_word<'a>(told: &RaceFinding<'a>) -> &'static str {
    match told.evidence {
        Evidence::Error(_) => "suspect",
        _ => kind_word(told.kind),
    }
}

// Adds the races and then the suspects that no error names, with their numbers.
fn push_races<'a>(
    alloc: Global,
    text: &mut Vec<u8>,
    sources: &Sources<'a>,
    report: &Report<'a>,
) -> Result<(), AllocError> {
    let mut number = report.first_race();
    for told in &report.races {
        push_race(alloc, text, sources, told, number)?;
        number = u64::saturating_add(number, 1);
    }
    let mut number = report.first_other();
    for failure in &report.failures {
        for suspect in &failure.others {
            push_suspect(alloc, text, sources, failure, suspect, number)?;
            number = u64::saturating_add(number, 1);
        }
    }
    Ok(())
}

// Adds the commands that were not judged.
fn push_unjudged<'a>(
    alloc: Global,
    text: &mut Vec<u8>,
    sources: &Sources<'a>,
    edges: &[u32],
    collects: bool,
) -> Result<(), AllocError> {
    for edge in edges {
        let user = sources.edge(*edge);
        push_object(
            alloc,
            text,
            "not judged",
            &UnjudgedObject { user, collects },
        )?;
    }
    Ok(())
}

// Adds a clash.
fn push_clash<'a>(
    alloc: Global,
    text: &mut Vec<u8>,
    sources: &Sources<'a>,
    clash: &Clash,
) -> Result<(), AllocError> {
    let line = sources.clash(clash);
    let clash = ClashObject {
        id: sources.clash_id(clash),
        of: match line.file {
            SideFile::Depfile => "depfile",
            SideFile::ResponseFile => "rspfile",
        },
        path: line.path,
        first: line.first,
        other: line.other,
    };
    push_object(alloc, text, "clash", &clash)
}

// The edges that ran at changes, each once, and each behind the number of the event of the change.
fn ran_pairs(alloc: Global, changes: &[Change<'_>]) -> Result<Vec<(u32, u32)>, AllocError> {
    let mut pairs = Vec::new(alloc);
    for change in changes {
        for edge in &change.ran {
            pairs.push((change.at, *edge))?;
        }
    }
    pairs.sort_unstable();
    pairs.dedup();
    Ok(pairs)
}

// Adds the commands that ran at changes, each once.
fn push_commands<'a>(
    alloc: Global,
    text: &mut Vec<u8>,
    sources: &Sources<'a>,
    pairs: &[(u32, u32)],
) -> Result<(), AllocError> {
    let mut edges = Vec::new(alloc);
    for pair in pairs {
        edges.push(pair.1)?;
    }
    edges.sort_unstable();
    edges.dedup();
    for edge in &edges {
        let user = sources.edge(*edge);
        let command = CommandObject { edge: *edge, user };
        push_object(alloc, text, "command", &command)?;
    }
    Ok(())
}

// Adds what ran at each change.
fn push_ran(alloc: Global, text: &mut Vec<u8>, pairs: &[(u32, u32)]) -> Result<(), AllocError> {
    for of in pairs.chunk_by(|one, other| one.0 == other.0) {
        let mut edges = Vec::new(alloc);
        let mut at = 0;
        for pair in of {
            at = pair.0;
            edges.push(pair.1)?;
        }
        push_object(alloc, text, "ran", &RanObject { at, edges })?;
    }
    Ok(())
}

// Adds the changes, behind what ran then.
fn push_changes<'a>(
    alloc: Global,
    text: &mut Vec<u8>,
    sources: &Sources<'a>,
    changes: &[Change<'a>],
) -> Result<(), AllocError> {
    let pairs = ran_pairs(alloc, changes)?;
    push_commands(alloc, text, sources, &pairs)?;
    push_ran(alloc, text, &pairs)?;
    for change in changes {
        let object = ChangeObject {
            at: change.at,
            commands: change.commands,
            path: change.path,
            user: change.user,
        };
        push_object(alloc, text, "change", &object)?;
    }
    Ok(())
}

impl<'a> Report<'a> {
    /// The report as JSON, an object a line. `observed` has the lines of what an observation shows, and they stand
    /// before the races. Names stand as people read them, so that each name is text whatever its bytes are.
    ///
    /// # Errors
    /// [`AllocError`] only where an allocation was refused.
    pub fn json(
        &self,
        alloc: Global,
        sources: &Sources<'a>,
        observed: &[u8],
    ) -> Result<Vec<u8>, AllocError> {
        let mut text = Vec::new(alloc);
        if !self.replayed.is_whole() {
            push_object(alloc, &mut text, "replayed", &self.replayed)?;
        }
        for failure in &self.failures {
            push_failure(alloc, &mut text, sources, failure)?;
        }
        text.extend_from_slice(observed)?;
        push_races(alloc, &mut text, sources, self)?;
        push_unjudged(alloc, &mut text, sources, &self.unjudged, false)?;
        push_unjudged(alloc, &mut text, sources, &self.collectors, true)?;
        for clash in &self.clashes {
            push_clash(alloc, &mut text, sources, clash)?;
        }
        for hint in &self.hints {
            push_object(alloc, &mut text, "hint", hint)?;
        }
        push_changes(alloc, &mut text, sources, &self.changes)?;
        for hidden in &self.hidden {
            push_object(alloc, &mut text, "hidden", hidden)?;
        }
        if self.left_out.is_any() {
            push_object(alloc, &mut text, "left out", &self.left_out)?;
        }
        Ok(text)
    }
}
