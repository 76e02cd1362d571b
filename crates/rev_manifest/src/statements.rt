//! What each statement adds to what stands above it.
ghost use Rattle.std.specs.Prelude.{◌≡◌, ◌<◌, ◌≤◌, length, map, Ok, Some, IfOk, OnOk, MatchResult, option_map};
ghost use Rattle.std.specs.Option.{ForSome};
ghost use Rattle.rev_syntax.specs.Seen.{seen_binding, seen_build_line, seen_form};
ghost use Rattle.rev_scopes.specs.Scopes.{variable_in};
ghost use Rattle.rev_scopes.specs.Expansion.{expanded, in_block};
ghost use Rattle.rev_manifest.specs.Answers.{IsFault};
ghost use Rattle.rev_manifest.specs.Blocks.{last_text};
ghost use Rattle.rev_manifest.specs.Declarations.{more_defaults};
ghost use Rattle.rev_manifest.specs.Statements.{rule_declared, pool_declared, depth_given, value_limited, variable_bound, defaults_named, rule_of, paths_of, edge_added, file_named, file_included, file_nested, with_form};
ghost use Rattle.rev_manifest.specs.Held.{seen_paths, seen_declarations};

use crate::blocks::{are_depths, binds, block_of, rule_with};
use crate::bytes::is_empty;
use crate::declarations::{Declarations, DeclaredEdge};
use crate::depth::depth_of_text;
use crate::edge_paths::EdgePaths;
use crate::fault::{FaultKind, Place, ReadFault};
use crate::files::Files;
use crate::inclusion::Inclusion;
use crate::names::{first_mentions, name_in_scope, names_in_scope, names_of, without};
use rev_paths::{Name, Paths};
use rev_scopes::{Bindings, Rule, RuleFault, Scopes, SharedText, ValueFault, expand};
use rev_syntax::{Binding, BuildLine, Form, Text};
use std::alloc::{AllocError, Global};

// `rule NAME`.
fn declare_rule(
    alloc: Global,
    above: &mut Declarations,
    place: Place,
    scope: usize,
    name: &[u8],
    bindings: &[Binding<'_>],
) -> Result<(), ReadFault>
    requires { scope < length above.old.scopes }
    ensures meant { MatchResult result
        (λ _. rule_declared place scope name.now (map seen_binding bindings.now) (seen_declarations above.old) ≡ Ok (seen_declarations above.new))
        (λ fault. IsFault fault (rule_declared place scope name.now (map seen_binding bindings.now) (seen_declarations above.old))) }
    ensures grows { OnOk result (length above.old.scopes ≤ length above.new.scopes) }
{
    if binds(b"dyndep", bindings) {
        return Err(place.fault(FaultKind::Unsupported));
    }
    let Some(rule) = rule_with(alloc, bindings)? else {
        return Err(place.fault(FaultKind::UnknownVariable));
    };
    match above.scopes.add_rule(alloc, scope, name, rule) {
        Ok(()) => {}
        Err(RuleFault::Memory) => return Err(ReadFault::Memory),
        Err(RuleFault::DoubleRule) => return Err(place.fault(FaultKind::DoubleRule)),
    }
    if !binds(b"command", bindings) {
        return Err(place.fault(FaultKind::NoCommand));
    }
    Ok(())
}

// The value of a text, unless it is too large.
fn value_of(
    alloc: Global,
    place: Place,
    text: &Text<'_>,
    scopes: &Scopes,
    scope: usize,
) -> Result<SharedText, ReadFault>
    requires { scope < length scopes.now }
    ensures { MatchResult result
        (λ value. value_limited place (expanded (variable_in scopes.now scope) text.now) ≡ Ok value)
        (λ fault. IsFault fault (value_limited place (expanded (variable_in scopes.now scope) text.now))) }
{
    match expand(alloc, text.copy(), scopes, scope) {
        Ok(value) => Ok(value),
        Err(ValueFault::Memory) => Err(ReadFault::Memory),
        Err(ValueFault::TooLarge) => Err(place.fault(FaultKind::TooLarge)),
        Err(ValueFault::NeedsItself) => unreachable!(),
    }
}

// The depth that the last of these bindings says.
fn depth_given(
    alloc: Global,
    place: Place,
    bindings: &[Binding<'_>],
    scopes: &Scopes,
    scope: usize,
) -> Result<u32, ReadFault>
    requires { scope < length scopes.now }
    ensures { MatchResult result
        (λ depth. depth_given place (variable_in scopes.now scope) (last_text (map seen_binding bindings.now)) ≡ Ok depth)
        (λ fault. IsFault fault (depth_given place (variable_in scopes.now scope) (last_text (map seen_binding bindings.now)))) }
{
    let Some((binding, _)) = bindings.split_last() else {
        return Err(place.fault(FaultKind::BadDepth));
    };
    let Some(depth) = depth_of_text(&binding.value, scopes, scope) else {
        return Err(place.fault(FaultKind::BadDepth));
    };
    let value = value_of(alloc, place, &binding.value, scopes, scope)?;
    if is_empty(value.as_bytes()) {
        return Err(place.fault(FaultKind::BadDepth));
    }
    Ok(depth)
}

// `pool NAME`.
fn declare_pool(
    alloc: Global,
    above: &mut Declarations,
    place: Place,
    scope: usize,
    name: &[u8],
    bindings: &[Binding<'_>],
) -> Result<(), ReadFault>
    requires { scope < length above.old.scopes }
    ensures meant { MatchResult result
        (λ _. pool_declared place scope name.now (map seen_binding bindings.now) (seen_declarations above.old) ≡ Ok (seen_declarations above.new))
        (λ fault. IsFault fault (pool_declared place scope name.now (map seen_binding bindings.now) (seen_declarations above.old))) }
    ensures grows { OnOk result (length above.old.scopes ≤ length above.new.scopes) }
{
    if binds(b"dyndep", bindings) {
        return Err(place.fault(FaultKind::Unsupported));
    }
    if !are_depths(bindings) {
        return Err(place.fault(FaultKind::UnknownVariable));
    }
    if above.pools.number(name).is_some() {
        return Err(place.fault(FaultKind::DoublePool));
    }
    let depth = depth_given(alloc, place, bindings, &above.scopes, scope)?;
    above.pools.add(alloc, name, depth)?;
    Ok(())
}

// `NAME = value`.
fn bind_variable(
    alloc: Global,
    above: &mut Declarations,
    place: Place,
    scope: usize,
    binding: &Binding<'_>,
) -> Result<(), ReadFault>
    requires { scope < length above.old.scopes }
    ensures meant { MatchResult result
        (λ _. variable_bound place scope (seen_binding binding.now) (seen_declarations above.old) ≡ Ok (seen_declarations above.new))
        (λ fault. IsFault fault (variable_bound place scope (seen_binding binding.now) (seen_declarations above.old))) }
    ensures grows { OnOk result (length above.old.scopes ≤ length above.new.scopes) }
{
    if binding.name == b"dyndep".as_slice() {
        return Err(place.fault(FaultKind::Unsupported));
    }
    let value = value_of(alloc, place, &binding.value, &above.scopes, scope)?;
    above.scopes.bind(alloc, scope, binding.name, value)?;
    Ok(())
}

// The paths of a further `default` statement after those of earlier ones.
fn more_defaults(earlier: Option<Vec<Name>>, names: Vec<Name>) -> Result<Vec<Name>, AllocError>
    ensures { IfOk result (λ all. all.items
        ≡ more_defaults (option_map (λ paths. paths.items) earlier) names.items) }
{
    let Some(mut all) = earlier else {
        return Ok(names);
    };
    for name in names {
        all.push(name)?;
    }
    Ok(all)
}

// `default PATHS`.
fn name_defaults(
    alloc: Global,
    above: &mut Declarations,
    place: Place,
    scope: usize,
    paths: &[Text<'_>],
) -> Result<(), ReadFault>
    requires { scope < length above.old.scopes }
    ensures meant { MatchResult result
        (λ _. defaults_named place scope paths.now (seen_declarations above.old) ≡ Ok (seen_declarations above.new))
        (λ fault. IsFault fault (defaults_named place scope paths.now (seen_declarations above.old))) }
    ensures grows { OnOk result (length above.old.scopes ≤ length above.new.scopes) }
{
    let names = names_in_scope(alloc, &mut above.paths, place, paths, &above.scopes, scope)?;
    let all = more_defaults(above.defaults.take(), names)?;
    above.defaults = Some(all);
    Ok(())
}

// The rule of a build line.
fn rule_of(
    above: &Declarations,
    place: Place,
    scope: usize,
    name: &[u8],
) -> Result<Option<Rule>, ReadFault>
    requires { scope < length above.now.scopes }
    ensures { MatchResult result
        (λ rule. rule_of place (seen_declarations above.now) scope name.now ≡ Ok rule)
        (λ fault. IsFault fault (rule_of place (seen_declarations above.now) scope name.now)) }
{
    if name == b"phony".as_slice() {
        return Ok(None);
    }
    match above.scopes.rule(scope, name) {
        None => Err(place.fault(FaultKind::UnknownRule)),
        Some(rule) => Ok(Some(rule.copy()?)),
    }
}

// The paths of a build line.
fn paths_of(
    alloc: Global,
    paths: &mut Paths,
    place: Place,
    build: &BuildLine<'_>,
    block: &Bindings,
    scopes: &Scopes,
    scope: usize,
) -> Result<EdgePaths, ReadFault>
    requires { scope < length scopes.now }
    ensures { MatchResult result
        (λ paths. paths_of place (in_block block.now (variable_in scopes.now scope)) (seen_build_line build.now) ≡ Ok (seen_paths paths))
        (λ fault. IsFault fault (paths_of place (in_block block.now (variable_in scopes.now scope)) (seen_build_line build.now))) }
{
    let outs = names_of(alloc, paths, place, &build.outs, block, scopes, scope)?;
    let implicit_outs = names_of(
        alloc,
        paths,
        place,
        &build.implicit_outs,
        block,
        scopes,
        scope,
    )?;
    let ins = names_of(alloc, paths, place, &build.ins, block, scopes, scope)?;
    let implicit = names_of(alloc, paths, place, &build.implicit, block, scopes, scope)?;
    let order_only = names_of(alloc, paths, place, &build.order_only, block, scopes, scope)?;
    let validations = names_of(
        alloc,
        paths,
        place,
        &build.validations,
        block,
        scopes,
        scope,
    )?;
    let implicit_outs = first_mentions(alloc, implicit_outs)?;
    let implicit_outs = without(alloc, &outs, implicit_outs)?;
    let outs = first_mentions(alloc, outs)?;
    Ok(EdgePaths {
        outs,
        implicit_outs,
        ins,
        implicit,
        order_only,
        validations,
    })
}

// `build PATHS: NAME PATHS`.
fn add_edge(
    alloc: Global,
    above: &mut Declarations,
    place: Place,
    scope: usize,
    build: &BuildLine<'_>,
    bindings: &[Binding<'_>],
) -> Result<(), ReadFault>
    requires { scope < length above.old.scopes }
    ensures meant { MatchResult result
        (λ _. edge_added place scope (seen_build_line build.now) (map seen_binding bindings.now) (seen_declarations above.old) ≡ Ok (seen_declarations above.new))
        (λ fault. IsFault fault (edge_added place scope (seen_build_line build.now) (map seen_binding bindings.now) (seen_declarations above.old))) }
    ensures grows { OnOk result (length above.old.scopes ≤ length above.new.scopes) }
{
    if binds(b"dyndep", bindings) {
        return Err(place.fault(FaultKind::Unsupported));
    }
    let rule = rule_of(above, place, scope, build.rule)?;
    let block = block_of(alloc, bindings, &above.scopes, scope)?;
    let paths = paths_of(
        alloc,
        &mut above.paths,
        place,
        build,
        &block.values,
        &above.scopes,
        scope,
    )?;
    if block.is_large {
        return Err(place.fault(FaultKind::TooLarge));
    }
    above.edges.push(DeclaredEdge {
        rule,
        block: block.values,
        scope,
        paths,
        place,
    })?;
    Ok(())
}

// The place of the file that a path names.
fn file_named(
    alloc: Global,
    files: &Files<'_>,
    place: Place,
    path: &Text<'_>,
    scopes: &Scopes,
    scope: usize,
) -> Result<usize, ReadFault>
    requires { scope < length scopes.now }
    ensures { MatchResult result
        (λ file. file_named place files.now (variable_in scopes.now scope) path.now ≡ Ok file)
        (λ fault. IsFault fault (file_named place files.now (variable_in scopes.now scope) path.now)) }
{
    let name = name_in_scope(alloc, place, path, scopes, scope)?;
    match files.find(&name) {
        None => Err(place.fault(FaultKind::NoFile)),
        Some(file) => Ok(file),
    }
}

// `include PATH`.
fn include_file(
    alloc: Global,
    files: &Files<'_>,
    above: &Declarations,
    place: Place,
    scope: usize,
    path: &Text<'_>,
) -> Result<Inclusion, ReadFault>
    requires { scope < length above.now.scopes }
    ensures meant { MatchResult result
        (λ inclusion. file_included files.now place scope path.now (seen_declarations above.now) ≡ Ok (record { above = seen_declarations above.now; inclusion = Some inclusion }))
        (λ fault. IsFault fault (file_included files.now place scope path.now (seen_declarations above.now))) }
    ensures within { IfOk result (λ inclusion. inclusion.scope < length above.now.scopes) }
{
    let file = file_named(alloc, files, place, path, &above.scopes, scope)?;
    Ok(Inclusion { file, scope, place })
}

// `subninja PATH`.
fn nest_file(
    alloc: Global,
    files: &Files<'_>,
    above: &mut Declarations,
    place: Place,
    scope: usize,
    path: &Text<'_>,
) -> Result<Inclusion, ReadFault>
    requires { scope < length above.old.scopes }
    ensures meant { MatchResult result
        (λ inclusion. file_nested files.now place scope path.now (seen_declarations above.old) ≡ Ok (record { above = seen_declarations above.new; inclusion = Some inclusion }))
        (λ fault. IsFault fault (file_nested files.now place scope path.now (seen_declarations above.old))) }
    ensures grows { OnOk result (length above.old.scopes ≤ length above.new.scopes) }
    ensures within { IfOk result (λ inclusion. inclusion.scope < length above.new.scopes) }
{
    let file = file_named(alloc, files, place, path, &above.scopes, scope)?;
    let scope = above.scopes.add(alloc, Some(scope))?;
    Ok(Inclusion { file, scope, place })
}

/// Adds what a statement declares, and gives the file that it names, if it names one.
pub(crate) fn add_statement(
    alloc: Global,
    files: &Files<'_>,
    above: &mut Declarations,
    place: Place,
    scope: usize,
    form: &Form<'_>,
) -> Result<Option<Inclusion>, ReadFault>
    requires { scope < length above.old.scopes }
    ensures meant { MatchResult result
        (λ inclusion. with_form files.now place scope (seen_form form.now) (seen_declarations above.old) ≡ Ok (record { above = seen_declarations above.new; inclusion = inclusion }))
        (λ fault. IsFault fault (with_form files.now place scope (seen_form form.now) (seen_declarations above.old))) }
    ensures grows { OnOk result (length above.old.scopes ≤ length above.new.scopes) }
    ensures within { IfOk result (λ found.
        ForSome found (λ inclusion. inclusion.scope < length above.new.scopes)) }
{
    match form {
        Form::Rule(name, bindings) => {
            declare_rule(alloc, above, place, scope, name, bindings)?;
            Ok(None)
        }
        Form::Build(build, bindings) => {
            add_edge(alloc, above, place, scope, build, bindings)?;
            Ok(None)
        }
        Form::Pool(name, bindings) => {
            declare_pool(alloc, above, place, scope, name, bindings)?;
            Ok(None)
        }
        Form::Default(paths) => {
            name_defaults(alloc, above, place, scope, paths)?;
            Ok(None)
        }
        Form::Variable(binding) => {
            bind_variable(alloc, above, place, scope, binding)?;
            Ok(None)
        }
        Form::Include(path) => {
            let inclusion = include_file(alloc, files, above, place, scope, path)?;
            Ok(Some(inclusion))
        }
        Form::Subninja(path) => {
            let inclusion = nest_file(alloc, files, above, place, scope, path)?;
            Ok(Some(inclusion))
        }
    }
}
