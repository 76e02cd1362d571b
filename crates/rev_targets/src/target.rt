//! Targets, and the commands that are of them.
use rev_fields::{FaultKind, LineFault};
use std::alloc::{AllocError, Global};

/// Where a name or a place comes from.
#[derive(Clone, Copy, PartialEq, Eq)]
pub enum Basis {
    /// The generator itself says it.
    Exact,
    /// The recorder found it in the text of a file.
    Guess,
}

/// The line at which a target is declared.
#[derive(Clone, Copy)]
pub struct Place {
    /// The number of the file, from 0, of those that the generator reads ([`Targets::file`]).
    pub file: u32,
    /// The number of the line, from 1.
    pub line: u32,
    /// Where the place comes from.
    pub basis: Basis,
}

/// A target, or a command of its own.
pub struct Target {
    /// The generator's word for its kind, as `STATIC_LIBRARY`.
    pub kind: Vec<u8>,
    /// Its name.
    pub name: Vec<u8>,
    /// Where the name comes from.
    pub basis: Basis,
    /// Where the target is declared, if that is known.
    pub place: Option<Place>,
}

// Written, since a derived drop is proved again at each exit of each caller.
impl Drop for Target {
    fn drop(self) {
        let Target {
            kind: _kind,
            name: _name,
            basis: _basis,
            place: _place,
        } = self;
    }
}

/// The numbers of build statements from one to another.
#[derive(Clone, Copy)]
pub(crate) struct Span {
    /// The first number.
    pub first: u32,
    /// The last number.
    pub last: u32,
}

/// The targets of a build, and the target of each command.
pub struct Targets {
    is_named: bool,
    has_top: bool,
    files: Vec<Vec<u8>>,
    targets: Vec<Target>,
    has_work: bool,
    marks: Vec<Option<u32>>,
}

// Written, since a derived drop is proved again at each exit of each caller.
impl Drop for Targets {
    fn drop(self) {
        let Targets {
            is_named: _is_named,
            has_top: _has_top,
            files: _files,
            targets: _targets,
            has_work: _has_work,
            marks: _marks,
        } = self;
    }
}

// A line that may not stand where it stands.
const MISPLACED: LineFault = LineFault::Kind(FaultKind::Syntax);
// A number that is not of a file, or not of a build statement.
const UNKNOWN_NUMBER: LineFault = LineFault::Kind(FaultKind::Number);
// A build statement that is of two targets.
const DOUBLE: LineFault = LineFault::Kind(FaultKind::DoubleRecord);

impl Targets {
    /// No target, of a build with so many build statements.
    ///
    /// # Errors
    /// [`AllocError`] only where an allocation was refused.
    pub(crate) fn nothing(alloc: Global, statements: u32) -> Result<Targets, AllocError> {
        Ok(Targets {
            is_named: false,
            has_top: false,
            files: Vec::new(alloc),
            targets: Vec::new(alloc),
            has_work: false,
            marks: vec![in alloc; None; statements as usize]?,
        })
    }

    /// The target of a build statement; none where the file names none.
    pub fn target(&self, statement: u32) -> Option<&Target> {
        let number = self.marks.get(statement as usize).copied().unwrap_or(None)?;
        self.targets.get(number as usize)
    }

    /// The path of the file at which a target is declared, from the folder of the sources, or absolute where it is not
    /// below that.
    pub fn file(&self, place: Place) -> Option<&[u8]> {
        match self.files.get(place.file as usize) {
            Some(path) => Some(path.as_slice()),
            None => None,
        }
    }

    /// The line that names the generator, which stands once.
    pub(crate) fn put_generator(&mut self) -> Result<(), LineFault> {
        if self.is_named {
            return Err(MISPLACED);
        }
        self.is_named = true;
        Ok(())
    }

    /// The line that names the folder of the sources, which stands once, after the line of the generator.
    pub(crate) fn put_top(&mut self) -> Result<(), LineFault> {
        if self.has_top || !self.is_named {
            return Err(MISPLACED);
        }
        self.has_top = true;
        Ok(())
    }

    /// A file that the generator reads. The files stand before the first target.
    pub(crate) fn put_file(&mut self, path: Vec<u8>) -> Result<(), LineFault> {
        if !self.has_top || !self.targets.is_empty() {
            return Err(MISPLACED);
        }
        self.files.push(path)?;
        Ok(())
    }

    /// A target.
    pub(crate) fn put_target(&mut self, target: Target) -> Result<(), LineFault> {
        if !self.has_top {
            return Err(MISPLACED);
        }
        self.targets.push(target)?;
        self.has_work = false;
        Ok(())
    }

    /// Where the last target is declared. The place stands once, before what commands do for the target.
    pub(crate) fn put_place(&mut self, place: Place) -> Result<(), LineFault> {
        if self.has_work {
            return Err(MISPLACED);
        }
        if place.file as usize >= self.files.len() {
            return Err(UNKNOWN_NUMBER);
        }
        match self.targets.last_mut() {
            Some(target) if target.place.is_none() => {
                target.place = Some(place);
                Ok(())
            }
            _ => Err(MISPLACED),
        }
    }

    /// The build statements whose commands do something for the last target.
    pub(crate) fn put_work(&mut self, spans: &[Span]) -> Result<(), LineFault> {
        let Some(last) = self.targets.len().checked_sub(1) else {
            return Err(MISPLACED);
        };
        let Ok(number) = u32::try_from(last) else {
            return Err(UNKNOWN_NUMBER);
        };
        for span in spans {
            put_span(&mut self.marks, *span, number)?;
        }
        self.has_work = true;
        Ok(())
    }
}

// Marks the build statements of a span with the number of their target.
fn put_span(marks: &mut Vec<Option<u32>>, span: Span, number: u32) -> Result<(), LineFault> {
    if span.last < span.first || span.last as usize >= marks.len() {
        return Err(UNKNOWN_NUMBER);
    }
    for statement in span.first..=span.last {
        let Some(mark) = marks.get_mut(statement as usize) else {
            return Err(UNKNOWN_NUMBER);
        };
        if mark.is_some() {
            return Err(DOUBLE);
        }
        *mark = Some(number);
    }
    Ok(())
}
