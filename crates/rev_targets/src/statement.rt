//! What one line says.
use crate::target::{Basis, Place, Span, Target};
use rev_fields::{FaultKind, LineFault, number, parts_at, read_fields};
use std::alloc::Global;

/// What a line after the first one says.
#[derive(Drop)]
pub(crate) enum Statement {
    /// `by GENERATOR VERSION`.
    Generator,
    /// `top PATH`: the folder of the sources.
    Top,
    /// `file PATH`: a file that the generator reads.
    File(Vec<u8>),
    /// `target KIND NAME BASIS`.
    Target(Target),
    /// `at FILE LINE BASIS`.
    Place(Place),
    /// A word, as `compile`, and numbers of build statements.
    Work(Vec<Span>),
}

// A line of no such form.
const OTHER: LineFault = LineFault::Kind(FaultKind::Syntax);

// What commands do for a target.
const WORKS: [&str; 7] = [
    "compile", "header", "link", "symbols", "custom", "command", "stamp",
];

// Whether a word says what commands do for a target.
fn is_work(word: &[u8]) -> bool {
    WORKS.iter().any(|work| work.as_bytes() == word)
}

// The basis of a word.
fn basis_of(word: &[u8]) -> Result<Basis, LineFault> {
    if word == b"exact".as_slice() {
        Ok(Basis::Exact)
    } else if word == b"guess".as_slice() {
        Ok(Basis::Guess)
    } else {
        Err(OTHER)
    }
}

// The build statements that a field writes: a number, or two with `-` between them.
fn span_of(alloc: Global, field: &[u8]) -> Result<Span, LineFault> {
    let parts = parts_at(alloc, field, b'-')?;
    match parts.as_slice() {
        [only] => {
            let only = number(only)?;
            Ok(Span {
                first: only,
                last: only,
            })
        }
        [first, last] => Ok(Span {
            first: number(first)?,
            last: number(last)?,
        }),
        _ => Err(OTHER),
    }
}

// The build statements that fields write.
fn spans_of(alloc: Global, fields: &[Vec<u8>]) -> Result<Vec<Span>, LineFault> {
    let mut spans = Vec::with_capacity(alloc, fields.len())?;
    for field in fields {
        let span = span_of(alloc, field)?;
        spans.push(span)?;
    }
    Ok(spans)
}

// The target of the fields of a line.
fn target_of(
    alloc: Global,
    kind: &[u8],
    name: &[u8],
    basis: &[u8],
) -> Result<Statement, LineFault> {
    let basis = basis_of(basis)?;
    Ok(Statement::Target(Target {
        kind: Vec::from_slice(alloc, kind)?,
        name: Vec::from_slice(alloc, name)?,
        basis,
        place: None,
    }))
}

// The place of the fields of a line.
fn place_of(file: &[u8], line: &[u8], basis: &[u8]) -> Result<Statement, LineFault> {
    Ok(Statement::Place(Place {
        file: number(file)?,
        line: number(line)?,
        basis: basis_of(basis)?,
    }))
}

// What a word and the fields behind it say.
fn said_by(alloc: Global, word: &[u8], fields: &[Vec<u8>]) -> Result<Statement, LineFault> {
    match fields {
        [_, _] if word == b"by".as_slice() => Ok(Statement::Generator),
        [_] if word == b"top".as_slice() => Ok(Statement::Top),
        [path] if word == b"file".as_slice() => {
            Ok(Statement::File(Vec::from_slice(alloc, path)?))
        }
        [kind, name, basis] if word == b"target".as_slice() => target_of(alloc, kind, name, basis),
        [file, line, basis] if word == b"at".as_slice() => place_of(file, line, basis),
        [_, ..] if is_work(word) => Ok(Statement::Work(spans_of(alloc, fields)?)),
        _ => Err(OTHER),
    }
}

/// What a line says.
///
/// # Errors
/// [`LineFault::Kind`] with `Syntax` where the line has no form that is known, and with `Number` where a field is not a
/// number of 32 bits. [`LineFault::Memory`] only where an allocation was refused.
pub(crate) fn read_line(alloc: Global, line: &[u8]) -> Result<Statement, LineFault> {
    let fields = read_fields(alloc, line)?;
    match fields.split_first() {
        Some((word, rest)) => said_by(alloc, word, rest),
        None => Err(OTHER),
    }
}
