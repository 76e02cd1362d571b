//! One statement of a dyndep file.
ghost use Rattle.std.specs.Prelude.{◌≡◌, Ok, map, MatchResult, IfOk};
ghost use Rattle.rev_syntax.specs.Seen.{seen_binding, seen_build_line, seen_form, seen_statement};
ghost use Rattle.rev_dyndep.specs.Answers.{IsFault};
ghost use Rattle.rev_dyndep.specs.Told.{is_dyndep_line, is_version, restat_of, told_by, told_of};

use crate::fault::{DyndepKind, ReadFault, refused};
use crate::paths::{path_of, paths_of, value_of};
use crate::told::Told;
use rev_syntax::{Binding, BuildLine, Form, Statement};
use std::alloc::{AllocError, Global};

// Whether a build line has the form of a dyndep file: one output before the bar, the rule `dyndep`, and inputs behind a
// bar alone.
fn is_dyndep_line(build: &BuildLine<'_>) -> bool
    ensures { result ≡ is_dyndep_line (seen_build_line build.now) }
{
    build.outs.len() == 1
        && build.rule == b"dyndep".as_slice()
        && build.ins.is_empty()
        && build.order_only.is_empty()
        && build.validations.is_empty()
}

// Whether the bindings below a statement say `restat`.
fn restat_of(alloc: Global, bindings: &[Binding<'_>]) -> Result<bool, ReadFault>
    ensures { MatchResult result
        (λ restat. restat_of (map seen_binding bindings.now) ≡ Ok restat)
        (λ fault. IsFault fault (restat_of (map seen_binding bindings.now))) }
{
    let Some((first, others)) = bindings.split_first() else {
        return Ok(false);
    };
    if first.name != b"restat".as_slice() {
        return Err(refused(first.line, DyndepKind::OtherBinding));
    }
    if let Some(second) = others.first() {
        return Err(refused(second.line, DyndepKind::OtherBinding));
    }
    let value = value_of(alloc, first.value.copy())?;
    Ok(!value.is_empty())
}

// What a build line says with the bindings below it.
fn told_by(
    alloc: Global,
    line: u64,
    build: &BuildLine<'_>,
    bindings: &[Binding<'_>],
) -> Result<Told, ReadFault>
    ensures { MatchResult result
        (λ told. told_by line (seen_build_line build.now) (map seen_binding bindings.now) ≡ Ok told)
        (λ fault. IsFault fault (told_by line (seen_build_line build.now) (map seen_binding bindings.now))) }
{
    if !is_dyndep_line(build) {
        return Err(refused(line, DyndepKind::NotDyndep));
    }
    let output = path_of(alloc, line, &build.outs[0])?;
    let outputs = paths_of(alloc, line, &build.implicit_outs)?;
    let inputs = paths_of(alloc, line, &build.implicit)?;
    let restat = restat_of(alloc, bindings)?;
    Ok(Told {
        output,
        outputs,
        inputs,
        restat,
        line,
    })
}

/// What a statement says of a build statement, or its fault.
pub(crate) fn told_of(alloc: Global, statement: &Statement<'_>) -> Result<Told, ReadFault>
    ensures { MatchResult result
        (λ told. told_of (seen_statement statement.now) ≡ Ok told)
        (λ fault. IsFault fault (told_of (seen_statement statement.now))) }
{
    match &statement.form {
        Form::Build(build, bindings) => told_by(alloc, statement.line, build, bindings),
        _ => Err(refused(statement.line, DyndepKind::NotDyndep)),
    }
}

/// Whether a statement names the version that is read.
pub(crate) fn is_version(alloc: Global, form: &Form<'_>) -> Result<bool, AllocError>
    ensures { IfOk result (λ found. found ≡ is_version (seen_form form.now)) }
{
    let Form::Variable(binding) = form else {
        return Ok(false);
    };
    if binding.name != b"ninja_dyndep_version".as_slice() {
        return Ok(false);
    }
    let value = value_of(alloc, binding.value.copy())?;
    Ok(value.as_slice() == b"1".as_slice() || value.as_slice() == b"1.0".as_slice())
}
