//! The file, line by line.
use crate::statement::{Statement, read_line};
use crate::target::Targets;
use rev_fields::{FaultKind, LineFault, ReadFault, parts_at};
use std::alloc::Global;

// The first line.
const HEAD: &[u8] = b"rebug-targets 1";

// Adds what a line says.
fn put(targets: &mut Targets, said: Statement) -> Result<(), LineFault> {
    match said {
        Statement::Generator => targets.put_generator(),
        Statement::Top => targets.put_top(),
        Statement::File(path) => targets.put_file(path),
        Statement::Target(target) => targets.put_target(target),
        Statement::Place(place) => targets.put_place(place),
        Statement::Work(spans) => targets.put_work(&spans),
    }
}

// Adds what a line of the text says.
fn put_line(alloc: Global, targets: &mut Targets, line: &[u8]) -> Result<(), LineFault> {
    let said = read_line(alloc, line)?;
    put(targets, said)
}

/// Reads the file `targets` of a recording whose manifest has so many build statements. Each line ends with LF. The first
/// is `rebug-targets 1`, and the second names the generator. The folder of the sources and the files that the generator
/// reads follow, and then each target with its place and with the build statements whose commands are of it
/// (docs/FORMATS.md). It takes time linear in the bytes and in the number of build statements.
///
/// # Errors
/// [`ReadFault::Numbered`] with the first line that may not stand there: `Number` for a number that is not of a file or of
/// a build statement, `DoubleRecord` for a build statement of two targets, else `Syntax`. [`ReadFault::Memory`] only where an allocation was refused.
pub fn read(alloc: Global, statements: u32, text: &[u8]) -> Result<Targets, ReadFault> {
    let lines = parts_at(alloc, text, b'\n')?;
    let mut targets = Targets::nothing(alloc, statements)?;
    let last = lines.len().saturating_sub(1);
    for (place, line) in lines.iter().enumerate() {
        let put = match place {
            0 if *line != HEAD => Err(LineFault::Kind(FaultKind::Syntax)),
            0 => Ok(()),
            _ if place == last && line.is_empty() => Ok(()),
            _ if place == last => Err(LineFault::Kind(FaultKind::Syntax)),
            _ => put_line(alloc, &mut targets, line),
        };
        if let Err(fault) = put {
            return Err(fault.at(place));
        }
    }
    Ok(targets)
}
