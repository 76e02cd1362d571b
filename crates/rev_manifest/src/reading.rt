//! Statements in reading order, an included file at its place.
ghost use Rattle.std.specs.Prelude.{◌≡◌, ◌<◌, ◌≤◌, length, Ok, IfOk, IfErr, IfSome, OnOk, MatchResult};
ghost use Rattle.std.specs.Option.{ForSome};
ghost use Rattle.rev_syntax.specs.Statements.{statements_of};
ghost use Rattle.rev_syntax.specs.Seen.{IsFirst, seen_statement};
ghost use Rattle.rev_manifest.specs.Answers.{IsFault};
ghost use Rattle.rev_manifest.specs.Reading.{Reader, reading, with_statement, with_statements, with_inclusion, IsNextFault, IsAdded};
ghost use Rattle.rev_manifest.specs.Held.{seen_declarations};

use crate::declarations::Declarations;
use crate::fault::{FaultKind, Place, ReadFault};
use crate::files::Files;
use crate::inclusion::Inclusion;
use crate::made::left_of_form;
use crate::statements::add_statement;
use rev_syntax::{Line, Statement, first_statement, lines_of};
use std::alloc::Global;

// The first statement of lines of a file, and the lines after it.
fn next_statement<'a>(
    alloc: Global,
    file: u64,
    lines: &'a [Line],
) -> Result<Option<(Statement<'a>, &'a [Line])>, ReadFault>
    ensures first { IfOk result (λ found. IsFirst found (statements_of lines.now)) }
    ensures shorter { IfOk result (λ found. IfSome found (λ statement. length statement.1.now < length lines.now)) }
    ensures fault { IfErr result (λ fault. IsNextFault file fault (statements_of lines.now)) }
{
    match first_statement(alloc, lines) {
        Ok(found) => Ok(found),
        Err(rev_syntax::ReadFault::Memory) => Err(ReadFault::Memory),
        Err(rev_syntax::ReadFault::Refused(fault)) => {
            let place = Place {
                file,
                line: fault.line,
            };
            Err(place.fault(FaultKind::from(fault.kind)))
        }
    }
}

// Counts the values that a statement binds, adds what it declares, and gives the file that it names, if it names one.
fn add_parsed(
    alloc: Global,
    files: &Files<'_>,
    above: &mut Declarations,
    file: u64,
    scope: usize,
    statement: Statement<'_>,
) -> Result<Option<Inclusion>, ReadFault>
    requires { scope < length above.old.scopes }
    ensures meant { MatchResult result
        (λ inclusion. with_statement files.now file scope (seen_declarations above.old) (seen_statement statement.entry) ≡ Ok (record { above = seen_declarations above.new; inclusion = inclusion }))
        (λ fault. IsFault fault (with_statement files.now file scope (seen_declarations above.old) (seen_statement statement.entry))) }
    ensures grows { OnOk result (length above.old.scopes ≤ length above.new.scopes) }
    ensures within { IfOk result (λ found.
        ForSome found (λ inclusion. inclusion.scope < length above.new.scopes)) }
{
    let place = Place {
        file,
        line: statement.line,
    };
    let form = &statement.form;
    let Some(left) = left_of_form(form, &above.scopes, scope, above.value_room) else {
        return Err(place.fault(FaultKind::TooLarge));
    };
    above.value_room = left;
    let named = add_statement(alloc, files, above, place, scope, form)?;
    Ok(named)
}

// Adds what the first statement of lines declares, and gives the file that it names, if it names one, with the lines
// after it.
fn add_next<'a>(
    alloc: Global,
    files: &Files<'_>,
    above: &mut Declarations,
    file: u64,
    scope: usize,
    lines: &'a [Line],
) -> Result<Option<(Option<Inclusion>, &'a [Line])>, ReadFault>
    requires { scope < length above.old.scopes }
    ensures added { IfOk result (IsAdded files.now file scope (seen_declarations above.old)
        (seen_declarations above.new) (statements_of lines.now)) }
    ensures fault { IfErr result (λ fault. (read : Reader)
        → IsFault fault (with_statements files.now read file scope (seen_declarations above.old)
        (statements_of lines.now))) }
    ensures shorter { IfOk result (λ found. IfSome found (λ next. length next.1.now < length lines.now)) }
    ensures grows { OnOk result (length above.old.scopes ≤ length above.new.scopes) }
    ensures within { IfOk result (λ found.
        IfSome found (λ next.
        ForSome next.0 (λ inclusion. inclusion.scope < length above.new.scopes))) }
{
    match next_statement(alloc, file, lines)? {
        None => Ok(None),
        Some((statement, after)) => {
            let named = add_parsed(alloc, files, above, file, scope, statement)?;
            Ok(Some((named, after)))
        }
    }
}

/// Reads the file that a statement names, if it names one, where so many files deep may still be read, that one among
/// them. Its bytes are counted each time that it is read, so that reading ends whatever the files say.
pub(crate) fn read_file(
    alloc: Global,
    files: &Files<'_>,
    left: u32,
    above: &mut Declarations,
    named: Option<Inclusion>,
) -> Result<(), ReadFault>
    requires { ForSome named (λ inclusion. inclusion.scope < length above.old.scopes) }
    ensures meant { MatchResult result
        (λ _. with_inclusion (reading files.now left) (record { above = seen_declarations above.old; inclusion = named }) ≡ Ok (seen_declarations above.new))
        (λ fault. IsFault fault (with_inclusion (reading files.now left) (record { above = seen_declarations above.old; inclusion = named }))) }
    ensures grows { OnOk result (length above.old.scopes ≤ length above.new.scopes) }
{
    let Some(inclusion) = named else {
        return Ok(());
    };
    if left == 0 {
        return Err(inclusion.place.fault(FaultKind::IncludeDepth));
    }
    let content = files.content(inclusion.file);
    if content.len() > above.room {
        return Err(inclusion.place.fault(FaultKind::TooLarge));
    }
    above.room -= content.len();
    let file = inclusion.file as u64;
    let lines = lines_of(alloc, content)?;
    let mut rest = lines.as_slice();
    while let Some((next, after)) = add_next(alloc, files, above, file, inclusion.scope, rest)? {
        read_file(alloc, files, left - 1, above, next)?;
        rest = after;
    }
    Ok(())
}
