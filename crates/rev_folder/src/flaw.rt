//! Faults of what a recording keeps of dyndep files.
use rev_dyndep::DyndepKind;
use rev_manifest::FaultKind;
use rev_program::{DyndepFault, ProgramFault};
use rev_sentences::meaning;
use std::alloc::{AllocError, AllocFailed, Global};

/// What a fault is.
#[derive(Clone, Copy, PartialEq, Eq)]
pub(crate) enum FlawKind {
    /// 100: no line of notes goes on like this.
    BadLine,
    /// 101: a file's number is not the next one.
    BadNumber,
    /// 103: a second line of notes about one file.
    DoubleLine,
    /// 104: the first line of the notes is another.
    Version,
    /// 123: what is said is about none of the build statements that have the file as an input, or is the second of one.
    NoStatement,
    /// 124: the recorded manifest is not the user's own with what the loaded files say.
    NotResolved,
    /// A fault of a loaded file.
    Loaded(DyndepKind),
    /// A fault of the user's own manifest.
    Manifest(FaultKind),
}

impl FlawKind {
    /// The number of this kind of fault.
    pub(crate) fn code(self) -> u16 {
        match self {
            FlawKind::BadLine => 100,
            FlawKind::BadNumber => 101,
            FlawKind::DoubleLine => 103,
            FlawKind::Version => 104,
            FlawKind::NoStatement => 123,
            FlawKind::NotResolved => 124,
            FlawKind::Loaded(kind) => kind.code(),
            FlawKind::Manifest(kind) => kind.code(),
        }
    }

    /// What the number means.
    pub(crate) fn words(self) -> &'static str {
        match self {
            FlawKind::DoubleLine => "a second line about one file",
            FlawKind::Version => "no notes of this version",
            FlawKind::NoStatement =>
                "about no build statement that has the file, or the second about one",
            FlawKind::NotResolved =>
                "not the user's own manifest with what the loaded dyndep files say",
            FlawKind::Loaded(DyndepKind::NoVersion) =>
                "the first statement is not ninja_dyndep_version = 1",
            FlawKind::Loaded(DyndepKind::NotDyndep) => "no statement of a dyndep file",
            FlawKind::Loaded(DyndepKind::OtherBinding) => "another binding than one of restat",
            _ => meaning(u64::from(self.code())).unwrap_or("a fault"),
        }
    }
}

/// A file of a recording that a fault is about.
#[derive(Clone, Copy)]
pub(crate) enum Part {
    /// The notes.
    Notes,
    /// What a loaded file had, by its place among these files, from 0.
    Loaded(usize),
    /// The user's own file of the manifest, by its place among the manifest's files.
    Own(usize),
    /// A file of the recorded manifest, by its place.
    Resolved(usize),
}

/// A fault and where it stands.
#[derive(Clone, Copy)]
pub(crate) struct Flaw {
    /// The file.
    pub(crate) part: Part,
    /// The line, from 1; 0 where the fault is about no line.
    pub(crate) line: u64,
    /// What it is.
    pub(crate) kind: FlawKind,
}

/// Why a recording is refused.
#[derive(Clone, Copy)]
pub(crate) enum Refused {
    /// An allocation was refused.
    Memory,
    /// The first fault.
    Flaw(Flaw),
}

impl From<AllocError> for Refused {
    fn from(_e: AllocError) -> Refused {
        Refused::Memory
    }
}

impl<T: Drop> From<AllocFailed<T>> for Refused {
    fn from(_e: AllocFailed<T>) -> Refused {
        Refused::Memory
    }
}

/// The fault of that kind at a line of a file.
pub(crate) fn flaw_at(part: Part, line: u64, kind: FlawKind) -> Refused {
    Refused::Flaw(Flaw { part, line, kind })
}

/// Where the user's own files of the manifest stand in a recording.
pub(crate) const OWN: &str = "dyndep/manifest/";
/// Where the contents of loaded files stand.
pub(crate) const LOADED: &str = "dyndep/files/";
/// The name of the notes.
pub(crate) const NOTES: &str = "dyndep/notes";

/// The name in the recording of what a loaded file had, by its place from 0.
pub(crate) fn loaded_name(alloc: Global, place: usize) -> Result<String, AllocError> {
    let number = place.saturating_add(1);
    Ok(format!(in alloc; "{LOADED}{number}")?)
}

/// The name in the recording of the user's own file, by the name of that of the manifest.
pub(crate) fn own_name(alloc: Global, name: &[u8]) -> Result<String, AllocError> {
    let mut text = String::from_str(alloc, OWN)?;
    text.push_str(str::from_utf8(name).unwrap_or(""))?;
    Ok(text)
}

// The name of the file of this place of a manifest.
fn name_at(files: &[(Vec<u8>, Vec<u8>)], place: usize) -> &[u8] {
    match files.get(place) {
        Some((name, _)) => name,
        None => b"",
    }
}

// The name of a file of a recording whose manifest has these files.
fn name_of(alloc: Global, files: &[(Vec<u8>, Vec<u8>)], part: Part) -> Result<String, AllocError> {
    match part {
        Part::Notes => String::from_str(alloc, NOTES),
        Part::Loaded(place) => loaded_name(alloc, place),
        Part::Own(place) => own_name(alloc, name_at(files, place)),
        Part::Resolved(place) => {
            String::from_str(alloc, str::from_utf8(name_at(files, place)).unwrap_or(""))
        }
    }
}

/// Why a recording whose manifest has these files is refused.
pub(crate) fn fault_of<'a>(
    alloc: Global,
    recording: &'a str,
    files: &[(Vec<u8>, Vec<u8>)],
    refused: Refused,
) -> ProgramFault<'a> {
    let Refused::Flaw(flaw) = refused else {
        return ProgramFault::Memory;
    };
    match name_of(alloc, files, flaw.part) {
        Ok(file) => ProgramFault::Dyndep(
            recording,
            DyndepFault {
                file,
                line: flaw.line,
                code: flaw.kind.code(),
                words: flaw.kind.words(),
            },
        ),
        Err(AllocError) => ProgramFault::Memory,
    }
}
