//! The rules that build statements name.
use rev_manifest::Build;
use rev_queries::rule_in;
use std::alloc::{AllocError, Global};

/// Where the lines of the files of a manifest begin.
#[derive(Drop)]
pub(crate) struct Lines {
    // For each file the place of each line.
    starts: Vec<Vec<usize>>,
}

// Where the lines of a text begin.
fn starts_of(alloc: Global, bytes: &[u8]) -> Result<Vec<usize>, AllocError> {
    let mut starts = Vec::new(alloc);
    starts.push(0)?;
    for (place, byte) in bytes.iter().enumerate() {
        if *byte == b'\n' {
            starts.push(place.saturating_add(1))?;
        }
    }
    Ok(starts)
}

impl Lines {
    /// The lines of files.
    ///
    /// # Errors
    /// [`AllocError`] only where an allocation was refused.
    pub(crate) fn new(alloc: Global, files: &[(Vec<u8>, Vec<u8>)]) -> Result<Lines, AllocError> {
        let mut starts = Vec::new(alloc);
        for (_name, bytes) in files {
            starts.push(starts_of(alloc, bytes)?)?;
        }
        Ok(Lines { starts })
    }

    // The text of the file of a build statement, from the line of that on.
    fn statement<'a>(&self, files: &'a [(Vec<u8>, Vec<u8>)], build: &Build) -> Option<&'a [u8]> {
        let file = usize::try_from(build.file()).ok()?;
        let line = usize::try_from(build.line()).ok()?;
        let start = self.starts.get(file)?.get(line.checked_sub(1)?)?;
        let (_name, bytes) = files.get(file)?;
        bytes.get(*start..)
    }

    /// The name of the rule of an edge, as its build statement has it; nothing where the statement has none.
    pub(crate) fn rule_of<'a>(&self, files: &'a [(Vec<u8>, Vec<u8>)], build: &Build) -> &'a [u8] {
        match self.statement(files, build) {
            Some(statement) => rule_in(statement),
            None => b"",
        }
    }
}
