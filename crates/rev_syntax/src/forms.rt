//! The forms of single lines.
ghost use Rattle.std.specs.Prelude.{◌≡◌, Ok, MatchResult};
ghost use Rattle.rev_syntax.specs.Faults.{IsFault, closed};
ghost use Rattle.rev_syntax.specs.Statements.{name_of, after_name, value_of, bound, binding_of, last_name, last_path, last_paths, colon, outputs_of, whole_mark, inputs_of, rule_and_inputs, build_line_of, header_of, is_indented, has_tab, indented_binding};
ghost use Rattle.rev_syntax.specs.Seen.{seen_binding, seen_outputs, seen_inputs, seen_build_line, seen_header};

use crate::bytes::{Class, begins_with, split_run, without_spaces};
use crate::fault::{ReadFault, SyntaxKind};
use crate::lines::Line;
use crate::outputs::Outputs;
use crate::paths::{Mark, list, list_after, path, stuck, text_at};
use crate::statement::{Binding, BuildLine};
use crate::text::Text;
use std::alloc::Global;

/// What the first line of a statement says.
#[derive(Drop)]
pub(crate) enum Header<'a> {
    /// `rule NAME`.
    Rule(&'a [u8]),
    /// A `build` line.
    Build(BuildLine<'a>),
    /// `pool NAME`.
    Pool(&'a [u8]),
    /// `default PATHS`.
    Default(Vec<Text<'a>>),
    /// `include PATH`.
    Include(Text<'a>),
    /// `subninja PATH`.
    Subninja(Text<'a>),
    /// `NAME = value`.
    Variable(Binding<'a>),
}

/// The inputs of a build line.
#[derive(Drop)]
pub(crate) struct Inputs<'a> {
    ins: Vec<Text<'a>>,
    implicit: Vec<Text<'a>>,
    order_only: Vec<Text<'a>>,
    validations: Vec<Text<'a>>,
}

// The name that a text begins with, and what follows it and its spaces.
fn split_name(text: &[u8]) -> (&[u8], &[u8])
    ensures name { result.0.now ≡ name_of text.now }
    ensures rest { result.1.now ≡ after_name text.now }
{
    let (name, rest) = split_run(Class::Name, text);
    (name, without_spaces(rest))
}

// Refuses a line that goes on, or that does not end.
fn close(line: &Line, rest: &[u8]) -> Result<(), ReadFault>
    ensures { MatchResult result
        (λ _. closed line.now rest.now ≡ Ok tt)
        (λ fault. IsFault fault (closed line.now rest.now)) }
{
    if !rest.is_empty() {
        return Err(line.fault(SyntaxKind::Syntax));
    }
    if !line.is_ended() {
        return Err(line.fault(SyntaxKind::BadEscape));
    }
    Ok(())
}

// A value, to the line's end.
fn value_of<'a>(line: &Line, text: &'a [u8]) -> Result<Text<'a>, ReadFault>
    ensures { MatchResult result
        (λ value. value_of line.now text.now ≡ Ok value)
        (λ fault. IsFault fault (value_of line.now text.now)) }
{
    let value = text_at(line, text)?;
    if !line.is_ended() {
        return Err(line.fault(SyntaxKind::BadEscape));
    }
    Ok(value)
}

// `= value`, after the name.
fn bound<'a>(line: &Line, name: &'a [u8], text: &'a [u8]) -> Result<Binding<'a>, ReadFault>
    ensures { MatchResult result
        (λ binding. bound line.now name.now text.now ≡ Ok (seen_binding binding))
        (λ fault. IsFault fault (bound line.now name.now text.now)) }
{
    let Some((byte, after)) = text.split_first() else {
        return Err(line.end_fault());
    };
    if *byte != b'=' {
        return Err(line.fault(SyntaxKind::Syntax));
    }
    let value = value_of(line, without_spaces(after))?;
    Ok(Binding {
        name,
        value,
        line: line.number(),
    })
}

// `NAME = value`.
fn binding_of<'a>(line: &Line, text: &'a [u8]) -> Result<Binding<'a>, ReadFault>
    ensures { MatchResult result
        (λ binding. binding_of line.now text.now ≡ Ok (seen_binding binding))
        (λ fault. IsFault fault (binding_of line.now text.now)) }
{
    let (name, rest) = split_name(text);
    if name.is_empty() {
        return Err(stuck(line, text));
    }
    bound(line, name, rest)
}

// A name that the line ends with.
fn last_name<'a>(line: &Line, text: &'a [u8]) -> Result<&'a [u8], ReadFault>
    ensures { MatchResult result
        (λ name. last_name line.now text.now ≡ Ok name.now)
        (λ fault. IsFault fault (last_name line.now text.now)) }
{
    let (name, rest) = split_name(text);
    if name.is_empty() {
        return Err(stuck(line, text));
    }
    close(line, rest)?;
    Ok(name)
}

// A path that the line ends with.
fn last_path<'a>(line: &Line, text: &'a [u8]) -> Result<Text<'a>, ReadFault>
    ensures { MatchResult result
        (λ path. last_path line.now text.now ≡ Ok path)
        (λ fault. IsFault fault (last_path line.now text.now)) }
{
    let (path, rest) = path(line, text)?;
    close(line, rest)?;
    Ok(path)
}

// One or more paths that the line ends with.
fn last_paths<'a>(alloc: Global, line: &Line, text: &'a [u8]) -> Result<Vec<Text<'a>>, ReadFault>
    ensures { MatchResult result
        (λ paths. last_paths line.now text.now ≡ Ok paths.items)
        (λ fault. IsFault fault (last_paths line.now text.now)) }
{
    let (paths, rest) = list(alloc, line, text)?;
    if paths.is_empty() {
        return Err(stuck(line, rest));
    }
    close(line, rest)?;
    Ok(paths)
}

// A colon, which stands behind one output or more.
fn colon<'a>(
    line: &Line,
    outs: Vec<Text<'a>>,
    implicit_outs: Vec<Text<'a>>,
    text: &'a [u8],
) -> Result<Outputs<'a>, ReadFault>
    ensures { MatchResult result
        (λ outputs. colon line.now outs.entry.items implicit_outs.entry.items text.now ≡ Ok (seen_outputs outputs))
        (λ fault. IsFault fault (colon line.now outs.entry.items implicit_outs.entry.items text.now)) }
{
    let Some((byte, after)) = text.split_first() else {
        return Err(line.end_fault());
    };
    if *byte != b':' || (outs.is_empty() && implicit_outs.is_empty()) {
        return Err(line.fault(SyntaxKind::Syntax));
    }
    Ok(Outputs {
        outs,
        implicit_outs,
        rest: without_spaces(after),
    })
}

// `PATHS [| PATHS] :`.
fn outputs_of<'a>(alloc: Global, line: &Line, text: &'a [u8]) -> Result<Outputs<'a>, ReadFault>
    ensures { MatchResult result
        (λ outputs. outputs_of line.now text.now ≡ Ok (seen_outputs outputs))
        (λ fault. IsFault fault (outputs_of line.now text.now)) }
{
    let (outs, rest) = list(alloc, line, text)?;
    let (implicit_outs, rest) = list_after(alloc, line, Mark::Bar, rest)?;
    colon(line, outs, implicit_outs, rest)
}

// Refuses a line that ends within `||` or `|@`: nothing but a bar is left behind inputs.
fn whole_mark(line: &Line, text: &[u8]) -> Result<(), ReadFault>
    ensures { MatchResult result
        (λ _. whole_mark line.now text.now ≡ Ok tt)
        (λ fault. IsFault fault (whole_mark line.now text.now)) }
{
    if text == b"|".as_slice() {
        return Err(line.end_fault());
    }
    Ok(())
}

// `PATHS [| PATHS] [|| PATHS] [|@ PATHS]`, to the line's end.
fn inputs_of<'a>(alloc: Global, line: &Line, text: &'a [u8]) -> Result<Inputs<'a>, ReadFault>
    ensures { MatchResult result
        (λ inputs. inputs_of line.now text.now ≡ Ok (seen_inputs inputs))
        (λ fault. IsFault fault (inputs_of line.now text.now)) }
{
    let (ins, rest) = list(alloc, line, text)?;
    let (implicit, rest) = list_after(alloc, line, Mark::Bar, rest)?;
    let (order_only, rest) = list_after(alloc, line, Mark::TwoBars, rest)?;
    whole_mark(line, rest)?;
    let (validations, rest) = list_after(alloc, line, Mark::BarAt, rest)?;
    close(line, rest)?;
    Ok(Inputs {
        ins,
        implicit,
        order_only,
        validations,
    })
}

// `NAME` and the inputs, after the outputs.
fn rule_and_inputs<'a>(
    alloc: Global,
    line: &Line,
    outputs: Outputs<'a>,
) -> Result<BuildLine<'a>, ReadFault>
    ensures { MatchResult result
        (λ build. rule_and_inputs line.now (seen_outputs outputs.entry) ≡ Ok (seen_build_line build))
        (λ fault. IsFault fault (rule_and_inputs line.now (seen_outputs outputs.entry))) }
{
    let (rule, rest) = split_run(Class::Name, outputs.rest);
    if rule.is_empty() {
        return Err(stuck(line, outputs.rest));
    }
    let inputs = inputs_of(alloc, line, rest)?;
    Ok(BuildLine {
        outs: outputs.outs,
        implicit_outs: outputs.implicit_outs,
        rule,
        ins: inputs.ins,
        implicit: inputs.implicit,
        order_only: inputs.order_only,
        validations: inputs.validations,
    })
}

// A build line, from its outputs on.
fn build_line<'a>(alloc: Global, line: &Line, text: &'a [u8]) -> Result<BuildLine<'a>, ReadFault>
    ensures { MatchResult result
        (λ build. build_line_of line.now text.now ≡ Ok (seen_build_line build))
        (λ fault. IsFault fault (build_line_of line.now text.now)) }
{
    let outputs = outputs_of(alloc, line, text)?;
    rule_and_inputs(alloc, line, outputs)
}

/// What a line that is not indented says, by its first name.
pub(crate) fn header_of<'a>(alloc: Global, line: &'a Line) -> Result<Header<'a>, ReadFault>
    ensures { MatchResult result
        (λ header. header_of line.now ≡ Ok (seen_header header))
        (λ fault. IsFault fault (header_of line.now)) }
{
    let (keyword, rest) = split_name(line.text());
    if keyword == b"rule".as_slice() {
        return Ok(Header::Rule(last_name(line, rest)?));
    }
    if keyword == b"build".as_slice() {
        return Ok(Header::Build(build_line(alloc, line, rest)?));
    }
    if keyword == b"pool".as_slice() {
        return Ok(Header::Pool(last_name(line, rest)?));
    }
    if keyword == b"default".as_slice() {
        return Ok(Header::Default(last_paths(alloc, line, rest)?));
    }
    if keyword == b"include".as_slice() {
        return Ok(Header::Include(last_path(line, rest)?));
    }
    if keyword == b"subninja".as_slice() {
        return Ok(Header::Subninja(last_path(line, rest)?));
    }
    Ok(Header::Variable(binding_of(line, line.text())?))
}

/// Whether a line belongs to the statement above it.
pub(crate) fn is_indented(line: &Line) -> bool
    ensures { result ≡ is_indented line.now }
{
    begins_with(b' ', line.text()) || begins_with(b'\t', line.text())
}

/// Whether a tab stands among the blanks at the beginning of a line.
pub(crate) fn has_tab(line: &Line) -> bool
    ensures { result ≡ has_tab line.now }
{
    begins_with(b'\t', without_spaces(line.text()))
}

/// The binding of an indented line.
pub(crate) fn indented_binding(line: &Line) -> Result<Binding<'_>, ReadFault>
    ensures { MatchResult result
        (λ binding. indented_binding line.now ≡ Ok (seen_binding binding))
        (λ fault. IsFault fault (indented_binding line.now)) }
{
    if has_tab(line) {
        return Err(line.fault(SyntaxKind::Tab));
    }
    binding_of(line, without_spaces(line.text()))
}
