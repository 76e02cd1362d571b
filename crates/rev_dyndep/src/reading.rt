//! A dyndep file from its bytes.
ghost use Rattle.std.specs.Prelude.{◌≡◌, ◌<◌, ◌∷◌, [], length, Ok, Some, None, MatchResult, MatchOption, IfOk, IfErr, IfSome};
ghost use Rattle.rev_syntax.specs.Lines.{lines_of as lines_in};
ghost use Rattle.rev_syntax.specs.Statements.{statements_of};
ghost use Rattle.rev_syntax.specs.Seen.{IsFirst};
ghost use Rattle.rev_dyndep.specs.Answers.{IsFault, IsNoStatement};
ghost use Rattle.rev_dyndep.specs.Told.{all_told, said_by, told_behind};

use crate::fault::{DyndepKind, ReadFault, in_syntax, refused};
use crate::statement::{is_version, told_of};
use crate::told::Told;
use rev_syntax::{Line, ReadFault as SyntaxRead, Statement, first_statement, lines_of};
use std::alloc::Global;

// The first statement of lines and the lines behind it.
fn next<'a>(
    alloc: Global,
    lines: &'a [Line],
) -> Result<Option<(Statement<'a>, &'a [Line])>, ReadFault>
    ensures first { IfOk result (λ found. IsFirst found (statements_of lines.now)) }
    ensures shorter { IfOk result (λ found. IfSome found (λ statement. length statement.1.now < length lines.now)) }
    ensures fault { IfErr result (λ fault. IsNoStatement fault (statements_of lines.now)) }
{
    match first_statement(alloc, lines) {
        Ok(found) => Ok(found),
        Err(SyntaxRead::Memory) => Err(ReadFault::Memory),
        Err(SyntaxRead::Refused(fault)) => Err(in_syntax(fault)),
    }
}

// What statements say that stand behind the version.
fn all_told(alloc: Global, lines: &[Line]) -> Result<Vec<Told>, ReadFault>
    ensures { MatchResult result
        (λ told. all_told (statements_of lines.now) ≡ Ok told.items)
        (λ fault. IsFault fault (all_told (statements_of lines.now))) }
{
    let mut told = Vec::new(alloc);
    let mut rest = lines;
    while let Some((statement, after)) = next(alloc, rest)? {
        let one = told_of(alloc, &statement)?;
        told.push(one)?;
        rest = after;
    }
    Ok(told)
}

/// What a dyndep file says of build statements, in the order of its statements.
///
/// # Errors
/// The first fault of the file, by its statements in order ([`DyndepKind`]); [`ReadFault::Memory`] only where an
/// allocation was refused.
pub fn read(alloc: Global, content: &[u8]) -> Result<Vec<Told>, ReadFault>
    ensures { MatchResult result
        (λ told. said_by content.now ≡ Ok told.items)
        (λ fault. IsFault fault (said_by content.now)) }
{
    let lines = lines_of(alloc, content)?;
    let Some((statement, rest)) = next(alloc, &lines)? else {
        return Err(refused(1, DyndepKind::NoVersion));
    };
    if !is_version(alloc, &statement.form)? {
        return Err(refused(statement.line, DyndepKind::NoVersion));
    }
    all_told(alloc, rest)
}
