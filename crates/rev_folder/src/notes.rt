//! The file `dyndep/notes` of a recording: which dyndep files Ninja loaded, and what the manifest leaves out of them.
use crate::flaw::{FlawKind, Part, Refused, flaw_at};
use rev_fields::{LineFault, read_fields, wide_number};
use rev_paths::{Name, PathFault, Paths};
use std::alloc::Global;

// The first line of the file.
const HEAD: &[u8] = b"rebug-dyndep 1";

/// A path that a loaded file says of a build statement, and that the recorded manifest does not have there.
#[derive(Drop)]
pub(crate) struct LeftOut {
    /// The first output of the build statement.
    pub(crate) output: Name,
    /// Whether the file says the path as an output, and else as an input.
    pub(crate) is_output: bool,
    /// The path.
    pub(crate) path: Name,
    /// The line of the notes.
    pub(crate) line: u64,
}

/// What the notes of a recording say.
pub(crate) struct Notes {
    /// The loaded files, in the order of their numbers.
    pub(crate) loaded: Vec<Name>,
    /// What is left out.
    pub(crate) left_out: Vec<LeftOut>,
    /// What the recorder said.
    pub(crate) said: Vec<Vec<u8>>,
    // The files that were loaded or not.
    files: Paths,
}

impl Drop for Notes {
    fn drop(self) {
        let Notes {
            loaded: _loaded,
            left_out: _left_out,
            said: _said,
            files: _files,
        } = self;
    }
}

// A fault of a line.
fn at_line(line: u64, kind: FlawKind) -> Refused {
    flaw_at(Part::Notes, line, kind)
}

// The path of a field.
fn name_in(alloc: Global, line: u64, field: &[u8]) -> Result<Name, Refused> {
    match Name::new(alloc, field) {
        Ok(name) => Ok(name),
        Err(PathFault::Memory) => Err(Refused::Memory),
        Err(_) => Err(at_line(line, FlawKind::BadLine)),
    }
}

impl Notes {
    /// What the recorder said.
    pub(crate) fn into_said(self) -> Vec<Vec<u8>> {
        let Notes {
            loaded: _loaded,
            left_out: _left_out,
            said,
            files: _files,
        } = self;
        said
    }

    // Notes that say nothing.
    fn new(alloc: Global) -> Notes {
        Notes {
            loaded: Vec::new(alloc),
            left_out: Vec::new(alloc),
            said: Vec::new(alloc),
            files: Paths::new(alloc),
        }
    }

    // The path of a file that no line above is about.
    fn next_file(&mut self, alloc: Global, line: u64, path: &[u8]) -> Result<Name, Refused> {
        let name = name_in(alloc, line, path)?;
        if self.files.find(&name).is_some() {
            return Err(at_line(line, FlawKind::DoubleLine));
        }
        let _place = self.files.intern(&name)?;
        Ok(name)
    }

    // `loaded PATH N WHEN`.
    fn add_loaded(
        &mut self,
        alloc: Global,
        line: u64,
        path: &[u8],
        number: &[u8],
        when: &[u8],
    ) -> Result<(), Refused> {
        if when != b"early".as_slice() && when != b"late".as_slice() {
            return Err(at_line(line, FlawKind::BadLine));
        }
        let next = (self.loaded.len() as u64).saturating_add(1);
        match wide_number(number) {
            Ok(number) if number == next => {}
            Err(LineFault::Memory) => return Err(Refused::Memory),
            _ => return Err(at_line(line, FlawKind::BadNumber)),
        }
        let name = self.next_file(alloc, line, path)?;
        self.loaded.push(name)?;
        Ok(())
    }

    // `left-out OUTPUT KIND PATH`.
    fn add_left_out(
        &mut self,
        alloc: Global,
        line: u64,
        output: &[u8],
        kind: &[u8],
        path: &[u8],
    ) -> Result<(), Refused> {
        let is_output = kind == b"output".as_slice();
        if !is_output && kind != b"input".as_slice() {
            return Err(at_line(line, FlawKind::BadLine));
        }
        let output = name_in(alloc, line, output)?;
        let path = name_in(alloc, line, path)?;
        self.left_out.push(LeftOut {
            output,
            is_output,
            path,
            line,
        })?;
        Ok(())
    }

    // Adds what the fields of a line say.
    fn add(&mut self, alloc: Global, line: u64, fields: &[Vec<u8>]) -> Result<(), Refused> {
        let Some((word, others)) = fields.split_first() else {
            return Err(at_line(line, FlawKind::BadLine));
        };
        match (word.as_slice(), others) {
            (b"loaded", [path, number, when]) => {
                self.add_loaded(alloc, line, path, number, when)
            }
            (b"not-loaded", [path] | [path, _]) => {
                let _name = self.next_file(alloc, line, path)?;
                Ok(())
            }
            (b"left-out", [output, kind, path]) => {
                self.add_left_out(alloc, line, output, kind, path)
            }
            (b"note", [text]) => {
                if text.contains(&b'\n') {
                    return Err(at_line(line, FlawKind::BadLine));
                }
                self.said.push(Vec::from_slice(alloc, text)?)?;
                Ok(())
            }
            _ => Err(at_line(line, FlawKind::BadLine)),
        }
    }
}

// The fields of a line.
fn fields_of(alloc: Global, number: u64, line: &[u8]) -> Result<Vec<Vec<u8>>, Refused> {
    match read_fields(alloc, line) {
        Ok(fields) => Ok(fields),
        Err(LineFault::Memory) => Err(Refused::Memory),
        Err(_) => Err(at_line(number, FlawKind::BadLine)),
    }
}

/// What the bytes of the file say.
///
/// # Errors
/// The first line that has a fault; [`Refused::Memory`] only where an allocation was refused.
pub(crate) fn notes_in(alloc: Global, bytes: &[u8]) -> Result<Notes, Refused> {
    let mut notes = Notes::new(alloc);
    let mut last = 0;
    let mut is_ended = false;
    for (place, line) in bytes.split(|byte| *byte == b'\n').enumerate() {
        let number = (place as u64).saturating_add(1);
        if place == 0 {
            if line != HEAD {
                return Err(at_line(number, FlawKind::Version));
            }
        } else if is_ended {
            return Err(at_line(last, FlawKind::BadLine));
        } else if line.is_empty() {
            is_ended = true;
        } else {
            let fields = fields_of(alloc, number, line)?;
            notes.add(alloc, number, &fields)?;
        }
        last = number;
    }
    if !is_ended {
        return Err(at_line(last, FlawKind::BadLine));
    }
    Ok(notes)
}
