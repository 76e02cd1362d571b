//! Statements, in the order of their lines.
ghost use Rattle.std.specs.Prelude.{◌≡◌, ◌<◌, ◌≤◌, Ok, map, drop, length, IfOk, IfErr, IfSome, MatchResult, if◌then◌else◌};
ghost use Rattle.std.specs.List.{prefix_len, take_while};
ghost use Rattle.rev_syntax.specs.Faults.{IsFault, fault_at};
ghost use Rattle.rev_syntax.specs.Statements.{is_indented, has_tab, bindings_of, alone, with_block, form_of, statement_of, statements_of};
ghost use Rattle.rev_syntax.specs.Seen.{seen_binding, seen_header, seen_form, seen_statement, IsFirst, IsFirstFault};

use crate::fault::{ReadFault, SyntaxKind};
use crate::forms::{Header, has_tab, header_of, indented_binding, is_indented};
use crate::lines::Line;
use crate::statement::{Binding, Form, Statement};
use std::alloc::Global;

// The fault of an indented line where none may stand.
fn misplaced(line: &Line) -> ReadFault
    ensures { result ≡ ReadFault.Refused
        (fault_at line.now (if has_tab line.now then SyntaxKind.Tab else SyntaxKind.Syntax)) }
{
    if has_tab(line) {
        return line.fault(SyntaxKind::Tab);
    }
    line.fault(SyntaxKind::Syntax)
}

// The bindings of indented lines.
fn bindings_of<'a>(alloc: Global, block: &'a [Line]) -> Result<Vec<Binding<'a>>, ReadFault>
    ensures { MatchResult result
        (λ bindings. bindings_of block.now ≡ Ok (map seen_binding bindings.items))
        (λ fault. IsFault fault (bindings_of block.now)) }
{
    let mut bindings = Vec::new(alloc);
    for line in block {
        let binding = indented_binding(line)?;
        bindings.push(binding)?;
    }
    Ok(bindings)
}

// A statement under which no line may stand.
fn alone<'a>(block: &[Line], form: Form<'a>) -> Result<Form<'a>, ReadFault>
    ensures { MatchResult result
        (λ form'. alone block.now (seen_form form.entry) ≡ Ok (seen_form form'))
        (λ fault. IsFault fault (alone block.now (seen_form form.entry))) }
{
    match block.first() {
        None => Ok(form),
        Some(line) => Err(misplaced(line)),
    }
}

// A first line with the lines under it.
fn with_block<'a>(
    alloc: Global,
    block: &'a [Line],
    header: Header<'a>,
) -> Result<Form<'a>, ReadFault>
    ensures { MatchResult result
        (λ form. with_block block.now (seen_header header.entry) ≡ Ok (seen_form form))
        (λ fault. IsFault fault (with_block block.now (seen_header header.entry))) }
{
    match header {
        Header::Rule(name) => Ok(Form::Rule(name, bindings_of(alloc, block)?)),
        Header::Build(build) => Ok(Form::Build(build, bindings_of(alloc, block)?)),
        Header::Pool(name) => Ok(Form::Pool(name, bindings_of(alloc, block)?)),
        Header::Default(paths) => alone(block, Form::Default(paths)),
        Header::Include(path) => alone(block, Form::Include(path)),
        Header::Subninja(path) => alone(block, Form::Subninja(path)),
        Header::Variable(binding) => alone(block, Form::Variable(binding)),
    }
}

// What a line says with the indented lines under it.
fn form_of<'a>(alloc: Global, head: &'a Line, block: &'a [Line]) -> Result<Form<'a>, ReadFault>
    ensures { MatchResult result
        (λ form. form_of (record { head = head.now; block = block.now }) ≡ Ok (seen_form form))
        (λ fault. IsFault fault (form_of (record { head = head.now; block = block.now }))) }
{
    if is_indented(head) {
        return Err(misplaced(head));
    }
    let header = header_of(alloc, head)?;
    with_block(alloc, block, header)
}

// How many indented lines stand at the front.
fn block_len(lines: &[Line]) -> usize
    ensures within { result ≤ length lines.now }
    ensures block { result ≡ prefix_len is_indented lines.now }
{
    for (i, line) in lines.iter().enumerate() {
        if !is_indented(line) {
            return i;
        }
    }
    lines.len()
}

// The indented lines at the front, and what follows them.
fn split_block(lines: &[Line]) -> (&[Line], &[Line])
    ensures block { result.0.now ≡ take_while is_indented lines.now }
    ensures rest { result.1.now ≡ drop (prefix_len is_indented lines.now) lines.now }
{
    lines.split_at(block_len(lines))
}

/// The first statement of lines of a file, and the lines after it. `None` where no line is left. A caller takes the
/// statements one by one, each with time and memory linear in its own lines.
///
/// # Errors
/// The first fault of that statement, by its lines in order, and in a line from the left. [`SyntaxKind::Tab`]
/// where a tab stands among the blanks at the beginning of a line comes before the others of that line;
/// [`SyntaxKind::Syntax`] at a byte, or a line's end, where no line of the grammar goes on, at a NUL or CR in a text,
/// and at an indented line where none may stand; [`SyntaxKind::BadEscape`] at a `$` in a text that can stand before
/// nothing that follows it. [`ReadFault::Memory`] where an allocation was refused.
pub fn first_statement<'a>(
    alloc: Global,
    lines: &'a [Line],
) -> Result<Option<(Statement<'a>, &'a [Line])>, ReadFault>
    ensures first { IfOk result (λ found. IsFirst found (statements_of lines.now)) }
    ensures shorter { IfOk result (λ found. IfSome found (λ statement. length statement.1.now < length lines.now)) }
    ensures fault { IfErr result (λ fault. IsFirstFault fault (statements_of lines.now)) }
{
    let Some((head, after)) = lines.split_first() else {
        return Ok(None);
    };
    let (block, rest) = split_block(after);
    let form = form_of(alloc, head, block)?;
    let statement = Statement {
        line: head.number(),
        form,
    };
    Ok(Some((statement, rest)))
}
